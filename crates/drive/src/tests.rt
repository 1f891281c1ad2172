use super::*;
use el_base::{Chronicled, Config, Event, HartId, Kind, Mode, Outcome};
use elf_image::load;
use machine::Machine;
use std::alloc::Global;
use std::fmt::Debug;
use std::process::Abort;
use std::test::Fail;
use worked_files::HELLO;

/// What was found is what was wanted. A call costs the prover far less than an `assert_eq!`.
pub(crate) fn same<T: PartialEq + Debug + Drop>(rt: &impl Abort, found: T, wanted: T) {
    assert_eq!(rt; found, wanted);
}

pub(crate) fn machine(
    rt: &impl Abort,
    alloc: Global,
    harts: u8,
    mode: Mode,
    steps: u32,
) -> Result<Machine, Fail> {
    assert!(rt; (1..=8).contains(&harts));
    let image = load(alloc, &HELLO, harts).map_err(|_| "no image")?;
    assert_eq!(rt; image.harts(), harts);
    let config = Config {
        harts,
        mode,
        steps,
        ..Config::usual()
    };
    Ok(Machine::make(alloc, image, config).map_err(|_| "no machine")?)
}

/// Follows events that there are steps for, of harts that exist.
fn make(rt: &impl Abort, machine: &mut Machine, events: &[Event]) {
    let harts = machine.config().harts;
    assert!(rt; events.iter().all(|event| event.hart.number < harts));
    assert!(rt; events.len() <= machine.steps_left() as usize);
    follow(machine, events);
}

/// How many events and instructions a machine has made, whether it is over, its steps left, and its output.
fn shows(rt: &impl Abort, machine: &Machine, wanted: (u32, u64, bool, u32, &[u8])) {
    let history = machine.history();
    let found = (
        history.length(),
        history.serial_len(),
        machine.over(),
        machine.steps_left(),
        machine.output(),
    );
    same(rt, found, wanted);
}

/// The first events of a machine, each with what came of it.
fn begins(rt: &impl Abort, machine: &Machine, rows: &[(Kind, u8, Outcome)]) {
    for (place, &row) in rows.iter().enumerate() {
        assert!(rt; place < machine.history().length() as usize);
        let entry = machine.history().entry(place as u32);
        let event = entry.event;
        same(rt, (event.kind, event.hart.number, entry.outcome), row);
    }
}

/// Harts and steps, and what a round robin of them comes to: events, instructions, whether it is over, and the output.
///
/// Where the write call's line has to come first, a hart makes ten steps, and nine events of each other kind. Two
/// harts wait for one line: the second is served a round later, and makes eleven.
const ROUNDS: &[(u8, u32, u32, u64, bool, &[u8])] = &[
    (1, 100, 37, 9, true, b"A\n"),
    (1, 37, 37, 9, true, b"A\n"),
    (1, 36, 36, 8, false, b"A\n"),
    (1, 1, 1, 1, false, b""),
    (2, 100, 85, 18, true, b"A\nA\n"),
];

#[test]
fn a_round_robin_runs_to_the_end(rt: HostRuntime) -> Result<(), Fail> {
    for &(harts, steps, events, instructions, over, output) in ROUNDS {
        let mut machine = machine(&rt, rt.alloc(), harts, Mode::Plain, steps)?;
        round_robin(&mut machine);
        let left = steps.saturating_sub(events);
        shows(&rt, &machine, (events, instructions, over, left, output));
    }
    Ok(())
}

/// The first events of two harts, with what came of them.
const TURNS: [(Kind, u8, Outcome); 10] = [
    (Kind::Step, 0, Outcome::Ran),
    (Kind::Order, 0, Outcome::Idle),
    (Kind::Serve, 0, Outcome::Idle),
    (Kind::Deliver, 0, Outcome::Idle),
    (Kind::Step, 1, Outcome::Ran),
    (Kind::Order, 1, Outcome::Idle),
    (Kind::Serve, 1, Outcome::Idle),
    (Kind::Deliver, 1, Outcome::Idle),
    (Kind::Step, 0, Outcome::Ran),
    (Kind::Order, 0, Outcome::Idle),
];

#[test]
fn a_round_robin_goes_by_harts_and_kinds(rt: HostRuntime) -> Result<(), Fail> {
    let mut machine = machine(&rt, rt.alloc(), 2, Mode::Plain, 10)?;
    round_robin(&mut machine);
    same(&rt, machine.history().length(), 10);
    begins(&rt, &machine, &TURNS);
    Ok(())
}

/// Exactly the given events are made.
#[test]
fn given_events_are_followed(rt: HostRuntime) -> Result<(), Fail> {
    let hart = HartId { number: 1 };
    let events = [Kind::Step, Kind::Serve].map(|kind| Event { kind, hart });
    let mut machine = machine(&rt, rt.alloc(), 2, Mode::Plain, 10)?;
    make(&rt, &mut machine, &events);
    for (place, event) in events.iter().enumerate() {
        assert!(rt; place < machine.history().length() as usize);
        same(&rt, machine.history().entry(place as u32).event, *event);
    }
    same(
        &rt,
        (machine.history().length(), machine.history().serial_len()),
        (2, 1),
    );
    Ok(())
}

/// To follow nothing leaves a machine as it is.
#[test]
fn nothing_is_followed(rt: HostRuntime) -> Result<(), Fail> {
    let mut machine = machine(&rt, rt.alloc(), 1, Mode::Plain, 10)?;
    follow(&mut machine, &[]);
    shows(&rt, &machine, (0, 0, false, 10, b""));
    Ok(())
}
