//! Armed sections that a head lets go.

ghost use Rattle.snoop.specs.Shows.{IsTold, bus_state};

use super::events::*;
use super::*;
use std::process::Abort;

/// A hart is armed, and has run so many instructions.
fn arm(rig: &mut Rig, hart: HartId, count: u8)
    requires { IsTold rig.old.pool (bus_state rig.old.bus) }
    ensures { IsTold rig.new.pool (bus_state rig.new.bus) }
{
    if usize::from(hart.number) < rig.bus.agents.len() && count <= 15 {
        rig.bus.note_armed(hart, count);
    }
}

/// Whether a hart's cache has a bit, and what is noted of its armed section.
fn armed(rig: &Rig, number: u8) -> (bool, Option<u8>) {
    let hart = hart(number);
    let count = rig
        .bus
        .agents
        .get(usize::from(number))
        .map(|agent| agent.armed());
    (is_marked(rig, hart), count)
}

/// A hart's cache has a bit where this says so, and so much is noted of its armed section.
fn is_armed(rt: &impl Abort, rig: &Rig, number: u8, marked: bool, count: u8) {
    let mode = rig.bus.mode;
    assert_eq!(rt;
        armed(rig, number),
        (marked, Some(count)),
        "{mode:?} hart {number}"
    );
}

#[test]
fn a_write_lets_an_armed_hart_go(rt: HostRuntime) -> Result<(), Fail> {
    let (zero, one) = (hart(0), hart(1));
    for mode in [Mode::Sle, Mode::Tlr] {
        let mut rig = made(rt.alloc(), mode, &[1], false)?;
        arm(&mut rig, one, 2);
        is_armed(&rt, &rig, 1, true, 2);
        asks_for(&rt, &mut rig, zero, line(), Need::Write);
        order_says(&rt, &mut rig, zero, ordered_and_freed(&[], &[(1, 2)]));
        is_armed(&rt, &rig, 1, false, 0);
        // no section is in the way any more
        serve_says(&rt, &mut rig, zero, served(&[]));
    }
    Ok(())
}

#[test]
fn a_read_lets_nobody_go(rt: HostRuntime) -> Result<(), Fail> {
    let (zero, one) = (hart(0), hart(1));
    for mode in [Mode::Sle, Mode::Tlr] {
        let mut rig = made(rt.alloc(), mode, &[1], false)?;
        arm(&mut rig, one, 2);
        comes(&rt, &mut rig, zero, line(), Need::Read);
        is_armed(&rt, &rig, 1, true, 2);
        serve_says(&rt, &mut rig, zero, served(&[]));
        is_armed(&rt, &rig, 1, true, 2);
    }
    Ok(())
}

#[test]
fn two_armed_harts_are_let_go_at_once(rt: HostRuntime) -> Result<(), Fail> {
    // hart 3 has a live section, which loses to hart 0 as the armed ones of harts 1 and 2 are let go
    for mode in [Mode::Sle, Mode::Tlr] {
        let mut rig = made(rt.alloc(), mode, &[1, 2, 3], false)?;
        arm(&mut rig, hart(1), 1);
        arm(&mut rig, hart(2), 15);
        asks_for(&rt, &mut rig, hart(0), line(), Need::Write);
        let wanted = ordered_and_freed(&[(3, 0)], &[(1, 1), (2, 15)]);
        order_says(&rt, &mut rig, hart(0), wanted);
        for number in [1, 2, 3] {
            is_armed(&rt, &rig, number, false, 0);
        }
        // who is let go defers nothing, and sends no marker
        assert_eq!(rt; message(&mut rig, hart(0)), None);
    }
    Ok(())
}

#[test]
fn an_armed_hart_of_another_line_stays(rt: HostRuntime) -> Result<(), Fail> {
    let mut rig = made(rt.alloc(), Mode::Tlr, &[1], false)?;
    arm(&mut rig, hart(1), 3);
    comes(&rt, &mut rig, hart(0), next_line(), Need::Write);
    is_armed(&rt, &rig, 1, true, 3);
    Ok(())
}

#[test]
fn the_next_head_lets_go_as_one_is_served(rt: HostRuntime) -> Result<(), Fail> {
    // hart 3 comes to write behind hart 0, which reads: nobody is let go before hart 3 is the first
    let (zero, three) = (hart(0), hart(3));
    for mode in [Mode::Sle, Mode::Tlr] {
        let mut rig = made(rt.alloc(), mode, &[1, 2], false)?;
        arm(&mut rig, hart(1), 4);
        arm(&mut rig, hart(2), 5);
        comes(&rt, &mut rig, zero, line(), Need::Read);
        comes(&rt, &mut rig, three, line(), Need::Write);
        is_armed(&rt, &rig, 1, true, 4);
        let wanted = served_and_freed(&[], &[(1, 4), (2, 5)]);
        serve_says(&rt, &mut rig, zero, wanted);
        is_armed(&rt, &rig, 1, false, 0);
        is_armed(&rt, &rig, 2, false, 0);
    }
    Ok(())
}
