//! Which harts' requests would be served, and which harts have mail.

use super::events::*;
use super::*;
use std::process::Abort;

/// Whether a hart's request would be served.
fn serves(rig: &Rig, hart: HartId) -> bool {
    usize::from(hart.number) < rig.bus.harts() && rig.bus.serves(hart)
}

/// The same of each of the four harts.
fn served_harts(rig: &Rig) -> [bool; 4] {
    [
        serves(rig, hart(0)),
        serves(rig, hart(1)),
        serves(rig, hart(2)),
        serves(rig, hart(3)),
    ]
}

/// Whether a hart has mail.
fn has_mail(rig: &Rig, hart: HartId) -> bool {
    usize::from(hart.number) < rig.bus.harts() && rig.bus.has_mail(hart)
}

/// The same of each of the four harts.
fn mailed_harts(rig: &Rig) -> [bool; 4] {
    [
        has_mail(rig, hart(0)),
        has_mail(rig, hart(1)),
        has_mail(rig, hart(2)),
        has_mail(rig, hart(3)),
    ]
}

/// The requests of these harts would be served, and no others.
fn serves_alone(rt: &impl Abort, rig: &Rig, harts: [bool; 4]) {
    assert_eq!(rt; served_harts(rig), harts);
}

/// These harts have mail, and no others.
fn has_mail_alone(rt: &impl Abort, rig: &Rig, harts: [bool; 4]) {
    let mode = rig.bus.mode;
    assert_eq!(rt; mailed_harts(rig), harts, "{mode:?}");
}

#[test]
fn a_request_is_served_where_nothing_is_in_its_way(rt: HostRuntime) -> Result<(), Fail> {
    let (one, two, three) = (hart(1), hart(2), hart(3));
    let none = [false; 4];
    // hart 0 has read the line in its section
    let mut rig = made(rt.alloc(), Mode::Tlr, &[0], false)?;
    serves_alone(&rt, &rig, none);
    // a raised request is not served, an ordered one is
    asks_for(&rt, &mut rig, three, line(), Need::Read);
    serves_alone(&rt, &rig, none);
    order_says(&rt, &mut rig, three, ordered(&[]));
    serves_alone(&rt, &rig, [false, false, false, true]);
    serve_says(&rt, &mut rig, three, served(&[]));
    serves_alone(&rt, &rig, none);
    // hart 2 would write the line, and hart 1 read it behind: the section retains it, and then hart 3 holds it
    comes(&rt, &mut rig, two, line(), Need::Write);
    comes(&rt, &mut rig, one, line(), Need::Read);
    serves_alone(&rt, &rig, none);
    end_section(&mut rig, hart(0));
    serves_alone(&rt, &rig, none);
    give_up(&mut rig, three);
    serves_alone(&rt, &rig, [false, false, true, false]);
    serve_says(&rt, &mut rig, two, served(&[]));
    serves_alone(&rt, &rig, none);
    give_up(&mut rig, two);
    serves_alone(&rt, &rig, [false, true, false, false]);
    Ok(())
}

#[test]
fn a_hart_has_mail_until_it_has_taken_each_message(rt: HostRuntime) -> Result<(), Fail> {
    let (zero, one) = (hart(0), hart(1));
    let none = [false; 4];
    for mode in [Mode::Sle, Mode::Tlr] {
        let removal = mode == Mode::Tlr;
        let mut rig = made(rt.alloc(), mode, &[], false)?;
        comes(&rt, &mut rig, zero, line(), Need::Write);
        has_mail_alone(&rt, &rig, none);
        // in lock removal hart 0 sends hart 1 a marker, which answers with a probe
        comes(&rt, &mut rig, one, line(), Need::Write);
        has_mail_alone(&rt, &rig, [false, removal, false, false]);
        deliver(&mut rig, one);
        has_mail_alone(&rt, &rig, [removal, false, false, false]);
        deliver(&mut rig, zero);
        has_mail_alone(&rt, &rig, none);
    }
    Ok(())
}
