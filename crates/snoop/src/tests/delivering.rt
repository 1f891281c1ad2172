//! Markers and probes of lock removal. In the chain of four all harts have live sections, hart 1 has written the
//! next line, and harts 2, 3 and 0 wait to write it, in this order; hart 0 is the earliest.

ghost use Rattle.std.specs.Prelude.{IfOk};
ghost use Rattle.snoop.specs.Shows.{IsTold, bus_state};

use super::events::*;
use super::*;
use el_base::Why;

fn probe(origin: u8) -> Message {
    Message::Probe {
        origin: hart(origin),
    }
}

/// A hart waits for the line behind the others.
fn wait(rig: &mut Rig, hart: HartId, line: LineAddr) -> Result<(), Fail>
    requires { IsTold rig.old.pool (bus_state rig.old.bus) }
    ensures { IsTold rig.new.pool (bus_state rig.new.bus) }
{
    let asked = ask_for(rig, hart, line, Need::Write);
    let outcome = order(rig, hart);
    if !asked || outcome != ordered(&[]) {
        return Err("the request is not in order".into());
    }
    Ok(())
}

/// The chain, as the requests are in order and no message was delivered.
fn chain(alloc: Global) -> Result<Rig, Fail>
    ensures { IfOk result (λ rig. IsTold rig.pool (bus_state rig.bus)) }
{
    let mut rig = made(alloc, Mode::Tlr, &[0, 1, 2, 3], false)?;
    if get(&mut rig, hart(1), next_line(), Need::Write) != served(&[]) {
        return Err("the section did not get its line".into());
    }
    wait(&mut rig, hart(2), next_line())?;
    wait(&mut rig, hart(3), next_line())?;
    wait(&mut rig, hart(0), next_line())?;
    Ok(rig)
}

/// These harts take one message each, in this order, of which none has a loser.
fn take(rig: &mut Rig, harts: &[u8]) -> Result<(), Fail>
    requires { IsTold rig.old.pool (bus_state rig.old.bus) }
    ensures { IsTold rig.new.pool (bus_state rig.new.bus) }
{
    for number in harts {
        if deliver(rig, hart(*number)) != delivered(&[]) {
            return Err("a message with a loser, or none".into());
        }
    }
    Ok(())
}

/// The chain after these harts took one message each, in this order.
fn chain_after(alloc: Global, harts: &[u8]) -> Result<Rig, Fail>
    ensures { IfOk result (λ rig. IsTold rig.pool (bus_state rig.bus)) }
{
    let mut rig = chain(alloc)?;
    take(&mut rig, harts)?;
    Ok(rig)
}

/// The chain as the probe of hart 0 alone was not taken by hart 1. The probes of harts 2 and 3 came first, and cost
/// hart 1 nothing.
fn chain_before_the_last_probe(alloc: Global) -> Result<Rig, Fail>
    ensures { IfOk result (λ rig. IsTold rig.pool (bus_state rig.bus)) }
{
    chain_after(alloc, &[0, 3, 3, 2, 2, 2, 1, 1])
}

/// The same, and then hart 1 commits.
fn chain_after_the_commit(alloc: Global) -> Result<Rig, Fail>
    ensures { IfOk result (λ rig. IsTold rig.pool (bus_state rig.bus)) }
{
    let mut rig = chain_before_the_last_probe(alloc)?;
    end_section(&mut rig, hart(1));
    Ok(rig)
}

/// The four oldest messages of a hart.
fn mail_of(rig: &mut Rig, of: HartId) -> [Option<Message>; 4] {
    [
        message(rig, of),
        message(rig, of),
        message(rig, of),
        message(rig, of),
    ]
}

/// What lies in the mailbox of a hart of the chain after these harts took one message each.
fn mail_after(alloc: Global, harts: &[u8], of: u8) -> Result<[Option<Message>; 4], Fail> {
    let mut rig = chain_after(alloc, harts)?;
    Ok(mail_of(&mut rig, hart(of)))
}

#[test]
fn each_waiting_hart_has_a_marker_of_the_one_before_it(rt: HostRuntime) -> Result<(), Fail> {
    for (of, wanted) in [
        (2, Some(marker(1))),
        (3, Some(marker(2))),
        (0, Some(marker(3))),
        (1, None),
    ] {
        let mail = mail_after(rt.alloc(), &[], of)?;
        assert_eq!(rt; mail, [wanted, None, None, None], "hart {of}");
    }
    Ok(())
}

#[test]
fn probes_go_up_the_chain(rt: HostRuntime) -> Result<(), Fail> {
    let of_zero = Some(probe(0));
    let (after_two, after_one) = (Some(marker(2)), Some(marker(1)));
    let (of_two, of_three) = (Some(probe(2)), Some(probe(3)));
    // who took a message each, in this order, and what lies in the mailbox of a hart then
    let rows: [(&[u8], u8, [Option<Message>; 4]); 5] = [
        (&[0], 3, [after_two, of_zero, None, None]),
        (&[0, 3], 2, [after_one, of_three, None, None]),
        (&[0, 3, 3], 2, [after_one, of_three, of_zero, None]),
        (&[0, 3, 3, 2, 2, 2], 1, [of_two, of_three, of_zero, None]),
        (&[0, 3, 3, 2, 2, 2], 0, [None; 4]),
    ];
    for (harts, of, wanted) in rows {
        let mail = mail_after(rt.alloc(), harts, of)?;
        assert_eq!(rt; mail, wanted, "hart {of} after {harts:?}");
    }
    Ok(())
}

#[test]
fn a_chain_of_four_loses_to_its_earliest(rt: HostRuntime) -> Result<(), Fail> {
    let (one, two, why) = (hart(1), hart(2), Why::Retained);
    let mut rig = chain_before_the_last_probe(rt.alloc())?;
    let before = is_marked(&rig, one);
    serve_says(&rt, &mut rig, two, Some(Outcome::Blocked { why, by: one }));
    deliver_says(&rt, &mut rig, one, delivered(&[(1, 0)]));
    let after = is_marked(&rig, one);
    deliver_says(&rt, &mut rig, one, Some(Outcome::Idle));
    // each of the next two was told of hart 0, and loses as the next head is faced
    serve_says(&rt, &mut rig, two, served(&[(2, 0)]));
    serve_says(&rt, &mut rig, hart(3), served(&[(3, 0)]));
    serve_says(&rt, &mut rig, hart(0), served(&[]));
    let last = is_marked(&rig, hart(0));
    assert_eq!(rt; (before, after, last), (true, false, true));
    Ok(())
}

#[test]
fn a_probe_that_comes_after_the_commit_costs_nobody(rt: HostRuntime) -> Result<(), Fail> {
    let mut rig = chain_after_the_commit(rt.alloc())?;
    deliver_says(&rt, &mut rig, hart(1), delivered(&[]));
    serve_says(&rt, &mut rig, hart(2), served(&[(2, 0)]));
    Ok(())
}

#[test]
fn a_probe_goes_as_its_origin_is_served(rt: HostRuntime) -> Result<(), Fail> {
    let mut rig = chain_after_the_commit(rt.alloc())?;
    serve_says(&rt, &mut rig, hart(2), served(&[(2, 0)]));
    serve_says(&rt, &mut rig, hart(3), served(&[(3, 0)]));
    serve_says(&rt, &mut rig, hart(0), served(&[]));
    deliver_says(&rt, &mut rig, hart(1), Some(Outcome::Idle));
    Ok(())
}

#[test]
fn a_late_probe_costs_the_next_hart_its_section(rt: HostRuntime) -> Result<(), Fail> {
    let two = hart(2);
    let mut rig = chain_after(rt.alloc(), &[0, 3, 3])?;
    end_section(&mut rig, hart(1));
    // hart 2 was told of nobody yet, and defers hart 3
    serve_says(&rt, &mut rig, two, served(&[]));
    deliver_says(&rt, &mut rig, two, delivered(&[]));
    deliver_says(&rt, &mut rig, two, delivered(&[(2, 0)]));
    serve_says(&rt, &mut rig, hart(3), served(&[(3, 0)]));
    Ok(())
}

/// What lies in the mailbox of a hart as hart 1, which was told of hart 0, waits for the line behind these and
/// has taken its marker.
fn answer(alloc: Global, before: &[u8], of: u8) -> Result<[Option<Message>; 4], Fail> {
    let mut rig = made(alloc, Mode::Tlr, &[], true)?;
    for number in before {
        wait(&mut rig, hart(*number), line())?;
    }
    wait(&mut rig, hart(1), line())?;
    take(&mut rig, &[1])?;
    Ok(mail_of(&mut rig, hart(of)))
}

#[test]
fn a_marker_is_answered_with_what_the_hart_was_told(rt: HostRuntime) -> Result<(), Fail> {
    let own = Some(probe(1));
    let (after_zero, of_zero) = (Some(marker(0)), Some(probe(0)));
    // who waits before hart 1, and what lies in the mailbox of a hart then
    let rows: [(&[u8], u8, [Option<Message>; 4]); 3] = [
        // hart 0 is not told of itself
        (&[0], 0, [own, None, None, None]),
        // nor is anyone told of a hart that is not ordered on the line
        (&[2], 2, [own, None, None, None]),
        (&[0, 2], 2, [after_zero, own, of_zero, None]),
    ];
    for (before, of, wanted) in rows {
        let mail = answer(rt.alloc(), before, of)?;
        assert_eq!(rt; mail, wanted, "hart {of} behind {before:?}");
    }
    Ok(())
}
