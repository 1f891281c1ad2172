//! Requests that take their place.

use super::events::*;
use super::*;

#[test]
fn a_second_request_goes_behind(rt: HostRuntime) -> Result<(), Fail> {
    let (first, second) = (hart(0), hart(1));
    for mode in [Mode::Plain, Mode::Sle, Mode::Tlr] {
        let mut rig = made(rt.alloc(), mode, &[], false)?;
        order_says(&rt, &mut rig, first, Some(Outcome::Idle));
        asks_for(&rt, &mut rig, first, line(), Need::Write);
        asks_for(&rt, &mut rig, second, line(), Need::Read);
        order_says(&rt, &mut rig, first, ordered(&[]));
        order_says(&rt, &mut rig, first, Some(Outcome::Idle));
        order_says(&rt, &mut rig, second, ordered(&[]));
        let ends = (head(&rig), last(&rig));
        // the last one of the line sends a marker in lock removal alone
        let wanted = if mode == Mode::Tlr {
            Some(marker(0))
        } else {
            None
        };
        assert_eq!(rt;
            (ends, message(&mut rig, second), message(&mut rig, first)),
            ((Some(first), Some(second)), wanted, None),
            "{mode:?}"
        );
    }
    Ok(())
}

/// The hart of the first request for the line.
fn head(rig: &Rig) -> Option<HartId> {
    Some(rig.bus.order.first_of(line())?.hart)
}

/// The hart of the last one.
fn last(rig: &Rig) -> Option<HartId> {
    Some(rig.bus.order.tail_of(line())?.hart)
}

/// Harts 1, 2 and 3 have read the line in their sections; hart 0 waits to read it, which meets none of them. Then
/// hart 2 asks to write it: it goes in front, and meets harts 1 and 3.
fn in_front(alloc: Global, mode: Mode, told: bool) -> Result<(Rig, Option<Outcome>), Fail> {
    let (zero, two) = (hart(0), hart(2));
    let nobody_loses = ordered(&[]);
    let mut rig = made(alloc, mode, &[1, 2, 3], told)?;
    if asks(&mut rig, zero, Need::Read) != nobody_loses {
        return Err("the first request was not ordered".into());
    }
    let outcome = asks(&mut rig, two, Need::Write);
    if head(&rig) != Some(two) {
        return Err("the request is not in front".into());
    }
    Ok((rig, outcome))
}

/// Which harts' caches have bits.
fn marked(rig: &Rig) -> [bool; 4] {
    [
        is_marked(rig, hart(0)),
        is_marked(rig, hart(1)),
        is_marked(rig, hart(2)),
        is_marked(rig, hart(3)),
    ]
}

#[test]
fn a_request_in_front_meets_two_sections(rt: HostRuntime) -> Result<(), Fail> {
    // without stamps both lose to the head, whatever was told, and no marker is sent
    let (mut rig, outcome) = in_front(rt.alloc(), Mode::Sle, true)?;
    let (bits, mail) = (marked(&rig), mail_of_two(&mut rig));
    assert_eq!(rt;
        (outcome, bits, mail),
        (
            ordered(&[(1, 2), (3, 2)]),
            [false, false, true, false],
            [None; 4]
        )
    );
    // in lock removal hart 1 does not lose to hart 2, but to hart 0, of which it was told; hart 2 sends hart 0,
    // whose request was the first one of the line, a marker
    let (mut rig, outcome) = in_front(rt.alloc(), Mode::Tlr, true)?;
    let (bits, mail) = (marked(&rig), mail_of_two(&mut rig));
    assert_eq!(rt;
        (outcome, bits, mail),
        (
            ordered(&[(1, 0), (3, 2)]),
            [false, false, true, false],
            [Some(marker(2)), None, None, None]
        )
    );
    // where it was not told, it stays and sends the head's hart a marker
    let (mut rig, outcome) = in_front(rt.alloc(), Mode::Tlr, false)?;
    let (bits, mail) = (marked(&rig), mail_of_two(&mut rig));
    assert_eq!(rt;
        (outcome, bits, mail),
        (
            ordered(&[(3, 2)]),
            [false, true, true, false],
            [Some(marker(2)), None, Some(marker(1)), None]
        )
    );
    Ok(())
}

/// The two oldest messages of hart 0, and then of hart 2.
fn mail_of_two(rig: &mut Rig) -> [Option<Message>; 4] {
    let (zero, two) = (hart(0), hart(2));
    [
        message(rig, zero),
        message(rig, zero),
        message(rig, two),
        message(rig, two),
    ]
}
