//! Requests that are served, or that something is in the way of.

ghost use Rattle.std.specs.Prelude.{IfOk};
ghost use Rattle.snoop.specs.Shows.{IsTold, bus_state};

use super::events::*;
use super::*;
use cache_sets::Letter;
use el_base::Why;

/// What Serve says where a hart is in the way.
fn blocked(why: Why, by: u8) -> Option<Outcome> {
    Some(Outcome::Blocked { why, by: hart(by) })
}

/// The letters of two harts' copies of the line.
fn letters(rig: &Rig) -> (Letter, Letter) {
    (letter(rig, hart(0), line()), letter(rig, hart(1), line()))
}

/// A hart without a section gets the line and does its step, so that it holds the line no more.
fn get_and_step(rig: &mut Rig, hart: HartId, need: Need) -> Option<Outcome>
    requires { IsTold rig.old.pool (bus_state rig.old.bus) }
    ensures { IsTold rig.new.pool (bus_state rig.new.bus) }
{
    let outcome = get(rig, hart, line(), need);
    give_up(rig, hart);
    outcome
}

#[test]
fn two_harts_read_and_one_writes(rt: HostRuntime) -> Result<(), Fail> {
    let (zero, one) = (hart(0), hart(1));
    let mut rig = made(rt.alloc(), Mode::Plain, &[], false)?;
    assert_eq!(rt; letters(&rig), (Letter::I, Letter::I));
    // who asks, for what, and the letters of both then
    for (who, need, wanted) in [
        (zero, Need::Read, (Letter::E, Letter::I)),
        (one, Need::Read, (Letter::S, Letter::S)),
        (one, Need::Write, (Letter::I, Letter::M)),
        (zero, Need::Read, (Letter::S, Letter::O)),
        (zero, Need::Write, (Letter::M, Letter::I)),
    ] {
        let outcome = get_and_step(&mut rig, who, need);
        // nothing was stored, so main memory tells what the copies do
        assert_eq!(rt;
            (outcome, letters(&rig), bytes(&rig, 0x10001)),
            (served(&[]), wanted, (Some(0x45), Some(0x45))),
            "{who:?} {need:?}"
        );
    }
    assert_eq!(rt; bytes(&rig, 0xffff), (None, None));
    Ok(())
}

#[test]
fn the_first_thing_in_the_way_is_told(rt: HostRuntime) -> Result<(), Fail> {
    let (one, two, three) = (hart(1), hart(2), hart(3));
    // hart 0 has read the line in its section, and hart 3 holds it; hart 2 comes to write it, and hart 1 behind
    let mut rig = made(rt.alloc(), Mode::Tlr, &[0], false)?;
    assert_eq!(rt; get(&mut rig, three, line(), Need::Read), served(&[]));
    comes(&rt, &mut rig, two, line(), Need::Write);
    comes(&rt, &mut rig, one, line(), Need::Read);
    // the head's hart is told though the line is retained and held
    serve_says(&rt, &mut rig, one, blocked(Why::Behind, 2));
    // the section's hart is told though the line is held
    serve_says(&rt, &mut rig, two, blocked(Why::Retained, 0));
    end_section(&mut rig, hart(0));
    serve_says(&rt, &mut rig, two, blocked(Why::Locked, 3));
    let before = letter(&rig, two, line());
    give_up(&mut rig, three);
    serve_says(&rt, &mut rig, two, served(&[]));
    let after = letter(&rig, two, line());
    assert_eq!(rt; (before, after), (Letter::I, Letter::M));
    serve_says(&rt, &mut rig, two, Some(Outcome::Idle));
    // hart 2 has no section, so it holds the line now
    serve_says(&rt, &mut rig, one, blocked(Why::Locked, 2));
    give_up(&mut rig, two);
    serve_says(&rt, &mut rig, one, served(&[]));
    Ok(())
}

#[test]
fn the_least_hart_that_retains_is_told(rt: HostRuntime) -> Result<(), Fail> {
    let three = hart(3);
    let mut rig = made(rt.alloc(), Mode::Tlr, &[0, 1, 2], false)?;
    comes(&rt, &mut rig, three, line(), Need::Write);
    serve_says(&rt, &mut rig, three, blocked(Why::Retained, 0));
    end_section(&mut rig, hart(1));
    serve_says(&rt, &mut rig, three, blocked(Why::Retained, 0));
    end_section(&mut rig, hart(0));
    serve_says(&rt, &mut rig, three, blocked(Why::Retained, 2));
    end_section(&mut rig, hart(2));
    serve_says(&rt, &mut rig, three, served(&[]));
    Ok(())
}

/// Hart 0 gets the next line in its section, with this need; and then what Order and Serve say of a request of
/// hart 1, which has none, to read it.
fn after_section(alloc: Global, need: Need) -> Result<(Option<Outcome>, Option<Outcome>), Fail> {
    let mut rig = made(alloc, Mode::Sle, &[0], false)?;
    if get(&mut rig, hart(0), next_line(), need) != served(&[]) {
        return Err("the section did not get its line".into());
    }
    if !ask_for(&mut rig, hart(1), next_line(), Need::Read) {
        return Err("no second request".into());
    }
    let faced = order(&mut rig, hart(1));
    Ok((faced, serve(&mut rig, hart(1))))
}

#[test]
fn a_section_gets_a_bit_and_holds_no_line(rt: HostRuntime) -> Result<(), Fail> {
    // a read meets the write bit alone, and in elision it wins; the section holds no line, so nothing is in the way
    let written = after_section(rt.alloc(), Need::Write)?;
    let read = after_section(rt.alloc(), Need::Read)?;
    assert_eq!(rt;
        (written, read),
        (
            (ordered(&[(0, 1)]), served(&[])),
            (ordered(&[]), served(&[]))
        )
    );
    Ok(())
}

/// Harts 0 and 1 have sections, and hart 0 has read the next line. Hart 1 comes to write it, and what Order says.
fn met(alloc: Global, mode: Mode) -> Result<(Rig, Option<Outcome>), Fail>
    ensures { IfOk result (λ met. IsTold met.0.pool (bus_state met.0.bus)) }
{
    let (zero, one) = (hart(0), hart(1));
    let no_loser = served(&[]);
    let mut rig = made(alloc, mode, &[0, 1], false)?;
    if get(&mut rig, zero, next_line(), Need::Read) != no_loser {
        return Err("the section did not get its line".into());
    }
    if !ask_for(&mut rig, one, next_line(), Need::Write) {
        return Err("no second request".into());
    }
    let outcome = order(&mut rig, one);
    Ok((rig, outcome))
}

#[test]
fn a_chain_of_two_waits_in_lock_removal(rt: HostRuntime) -> Result<(), Fail> {
    let (zero, one) = (hart(0), hart(1));
    let (_, elided) = met(rt.alloc(), Mode::Sle)?;
    let (mut rig, outcome) = met(rt.alloc(), Mode::Tlr)?;
    assert_eq!(rt;
        (elided, outcome, letter(&rig, zero, next_line())),
        (ordered(&[(0, 1)]), ordered(&[]), Letter::E)
    );
    serve_says(&rt, &mut rig, one, blocked(Why::Retained, 0));
    // its own request goes in front, and is served
    comes(&rt, &mut rig, zero, next_line(), Need::Write);
    serve_says(&rt, &mut rig, one, blocked(Why::Behind, 0));
    serve_says(&rt, &mut rig, zero, served(&[]));
    serve_says(&rt, &mut rig, one, blocked(Why::Retained, 0));
    // the section commits
    end_section(&mut rig, zero);
    serve_says(&rt, &mut rig, one, served(&[]));
    let (first, second) = (
        letter(&rig, zero, next_line()),
        letter(&rig, one, next_line()),
    );
    assert_eq!(rt; (first, second), (Letter::I, Letter::M));
    Ok(())
}

#[test]
fn an_event_that_has_nothing_to_do_is_idle(rt: HostRuntime) -> Result<(), Fail> {
    let zero = hart(0);
    let mut rig = made(rt.alloc(), Mode::Tlr, &[], false)?;
    order_says(&rt, &mut rig, zero, Some(Outcome::Idle));
    serve_says(&rt, &mut rig, zero, Some(Outcome::Idle));
    deliver_says(&rt, &mut rig, zero, Some(Outcome::Idle));
    // a raised request is nothing to serve, and an ordered one nothing to order
    asks_for(&rt, &mut rig, zero, line(), Need::Read);
    serve_says(&rt, &mut rig, zero, Some(Outcome::Idle));
    order_says(&rt, &mut rig, zero, ordered(&[]));
    order_says(&rt, &mut rig, zero, Some(Outcome::Idle));
    serve_says(&rt, &mut rig, zero, served(&[]));
    serve_says(&rt, &mut rig, zero, Some(Outcome::Idle));
    Ok(())
}
