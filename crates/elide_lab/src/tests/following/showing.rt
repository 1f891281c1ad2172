//! What an event shows of the machine before it and after it.

use super::*;
use crate::tests::asserts::same;
use bus_order::Request;
use moesi::Letter;

/// What the event after so many of the contended run did.
fn shown(rt: &impl Abort, alloc: Global, made: usize, row: (Kind, u8)) -> Result<Shown, Fail> {
    let event = event(row)?;
    let mut machine = machine_after(rt, alloc, &CONTENDED, made)?;
    assert!(rt; machine.steps_left() >= 1);
    assert!(rt; event.hart.number < machine.config().harts);
    let shown = show(&mut machine, event);
    same(rt, (shown.place as usize, shown.event), (made, event));
    Ok(shown)
}

#[test]
fn events_of_the_bus_show_requests_and_letters(rt: HostRuntime) -> Result<(), Fail> {
    let request = Request {
        hart: SECOND,
        line: DATA,
        need: Need::Write,
        stamp: None,
    };
    let mut before = [Letter::I; 8];
    before[0] = Letter::M;
    let mut after = [Letter::I; 8];
    after[1] = Letter::M;
    let request = Some(request);
    for (made, row, what) in [
        (
            17,
            ORDER_1,
            What::Order {
                request,
                at: Some(0),
            },
        ),
        (
            17,
            ORDER,
            What::Order {
                request: None,
                at: None,
            },
        ),
        (
            18,
            SERVE_1,
            What::Serve {
                request,
                before,
                after,
            },
        ),
        (
            18,
            DELIVER_1,
            What::Deliver {
                message: None,
                about: None,
            },
        ),
    ] {
        same(&rt, shown(&rt, rt.alloc(), made, row)?.what, what);
    }
    Ok(())
}

#[test]
fn a_step_shows_what_its_hart_saw(rt: HostRuntime) -> Result<(), Fail> {
    let shown = shown(&rt, rt.alloc(), 5, STEP)?;
    same(&rt, shown.outcome, Outcome::Began);
    let live = Live {
        count: 1,
        word: 0x1_1000,
        old: 0,
        new: 5,
    };
    match shown.what {
        What::Step { before, after, .. } => {
            same(&rt, (before.view.pc, before.section), (0x1_005c, None));
            same(&rt, (after.view.pc, after.section), (0x1_0060, Some(live)));
        }
        _ => assert!(rt; false),
    }
    Ok(())
}
