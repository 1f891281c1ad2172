use crate::asserts::{same, same_at};
use crate::harts::hart;
use el_base::{Event, Kind};
use schedule::{OrderFault, draw, drawn_at, read_order};
use std::test::Fail;

/// The first numbers of SplitMix64 for the seed 1234567, as the page 'Pseudo-random numbers/Splitmix64' of Rosetta Code has
/// them, and the event of three harts that each one stands for.
#[test]
fn a_seed_draws_its_events(rt: HostRuntime) {
    for (place, number, kind, hart) in [
        (0, 6457827717110365317, Kind::Order, 2),
        (1, 3203168211198807973, Kind::Order, 0),
        (2, 9817491932198370423, Kind::Deliver, 0),
        (3, 4593380528125082431, Kind::Deliver, 1),
        (4, 16408922859458223821, Kind::Order, 1),
    ] {
        let drawn = (draw(1_234_567, place), drawn_at(1_234_567, 3, place));
        same_at(&rt, place, drawn, (number, event(kind, hart)));
    }
}

fn event(kind: Kind, number: u8) -> Event {
    let hart = hart(number);
    Event { kind, hart }
}

#[test]
fn a_text_lists_events(rt: HostRuntime) -> Result<(), Fail> {
    let text = b"# a comment\nstep 0\n\norder 1 # another\r\nserve 0  \ndeliver 1";
    let events = read_order(rt.alloc(), text, 2).map_err(|_| "refused")?;
    let wanted = [
        event(Kind::Step, 0),
        event(Kind::Order, 1),
        event(Kind::Serve, 0),
        event(Kind::Deliver, 1),
    ];
    same(&rt, events.as_slice(), wanted.as_slice());
    Ok(())
}

#[test]
fn a_bad_line_is_told(rt: HostRuntime) {
    for (text, number) in [
        (b"step 2".as_slice(), 1),
        (b"step 0\n step 0", 2),
        (b"step 0\n\nstep  0", 3),
        (b"step 0\nstop 0\nstep 9", 2),
        (b"step 0\nstep", 2),
        (b"step 0\n0", 2),
        (b"\xff", 1),
        (b"step 10", 1),
    ] {
        let fault = read_order(rt.alloc(), text, 2).err();
        same(&rt, fault, Some(OrderFault::BadLine { number }));
    }
}
