//! Drivers on threads, over the small program of the other tests.
use super::*;
use crate::tests::{machine, same};
use el_base::{Chronicled, HartId, Kind, Mode, Outcome};
use el_io::{Gate, OpenGate};
use machine::Machine;
use std::alloc::Global;
use std::process::Abort;
use std::sync::Wait;
use std::sync::atomic::AtomicBool;
use std::sync::atomic::Ordering::SeqCst;
use std::test::Fail;
use std::thread::{Threads, yield_now};

const KINDS: [Kind; 4] = [Kind::Step, Kind::Order, Kind::Serve, Kind::Deliver];

/// How often a driver looks for the other one before it goes on alone.
const LOOKS: u32 = 1_000_000;

/// A gate in which two drivers wait for one another before their first turns.
#[derive(Drop)]
struct Meeting {
    first: Corner,
    second: Corner,
}

/// Whether a driver has come to the gate, and whether it has found the other one there.
#[derive(Drop)]
struct Corner {
    here: AtomicBool,
    met: AtomicBool,
}

impl Corner {
    fn new() -> Corner {
        Corner {
            here: AtomicBool::new(false),
            met: AtomicBool::new(false),
        }
    }

    fn meet(&self, other: &Corner) {
        self.here.store(true, SeqCst);
        for _ in 0..LOOKS {
            if other.here.load(SeqCst) {
                self.met.store(true, SeqCst);
                return;
            }
            yield_now();
        }
    }
}

impl Gate for Meeting {
    fn pass<R: Wait>(&self, _rt: &R, driver: HartId, turn: u32) {
        if turn > 0 {
            return;
        }
        if driver.number == 0 {
            self.first.meet(&self.second);
        } else {
            self.second.meet(&self.first);
        }
    }
}

/// That the events of each hart are its turns, in order, and as many as are wanted.
fn is_by_turns(rt: &impl Abort, machine: &Machine, turns: u32) {
    let mut next = [0u32; 8];
    for place in 0..machine.history().length() {
        let event = machine.history().entry(place).event;
        let made = &mut next[usize::from(event.hart.number)];
        same(rt, event.kind, KINDS[(*made % 4) as usize]);
        *made = made.saturating_add(1);
    }
    let harts = usize::from(machine.config().harts);
    for (hart, made) in next.iter().enumerate() {
        let wanted = if hart < harts { turns } else { 0 };
        same(rt, *made, wanted);
    }
}

/// A machine after so many turns of its drivers.
fn driven<R: Threads + Wait + Sync, G: Gate + Sync>(
    rt: &R,
    alloc: Global,
    machine: Machine,
    turns: u32,
    gate: &G,
) -> Result<Machine, Fail> {
    Ok(
        by_threads(rt, alloc, machine, turns, gate)
            .ok()
            .ok_or("no memory")?,
    )
}

/// What comes of the events of a machine, from its first one on.
fn begins_with(rt: &impl Abort, machine: &Machine, outcomes: &[Outcome]) {
    for (place, outcome) in outcomes.iter().enumerate() {
        assert!(rt; place < machine.history().length() as usize);
        same(rt, machine.history().entry(place as u32).outcome, *outcome);
    }
}

/// Four turns of one driver, on a hart whose first instruction runs at once.
#[test]
fn four_turns_are_one_of_each_kind(rt: HostRuntime) -> Result<(), Fail> {
    let machine = machine(&rt, rt.alloc(), 1, Mode::Tlr, 100)?;
    let machine = driven(&rt, rt.alloc(), machine, 4, &OpenGate::new())?;
    let outcomes = [Outcome::Ran, Outcome::Idle, Outcome::Idle, Outcome::Idle];
    same(&rt, machine.history().length(), 4);
    is_by_turns(&rt, &machine, 4);
    begins_with(&rt, &machine, &outcomes);
    Ok(())
}

/// Whatever the drivers have left of the program, a round robin brings it to its end.
fn goes_on(rt: &impl Abort, machine: &mut Machine, output: &[u8]) {
    is_by_turns(rt, machine, 20);
    round_robin(machine);
    same(rt, (machine.over(), machine.output()), (true, output));
}

/// Harts, and the output where each of them has written its line.
const OUTPUTS: &[(u8, &[u8])] = &[
    (1, b"A\n"),
    (2, b"A\nA\n"),
    (8, b"A\nA\nA\nA\nA\nA\nA\nA\n"),
];

#[test]
fn a_round_robin_goes_on_from_drivers(rt: HostRuntime) -> Result<(), Fail> {
    for mode in [Mode::Plain, Mode::Sle, Mode::Tlr] {
        for &(harts, output) in OUTPUTS {
            let machine = machine(&rt, rt.alloc(), harts, mode, 10_000)?;
            let mut machine = driven(&rt, rt.alloc(), machine, 20, &OpenGate::new())?;
            goes_on(&rt, &mut machine, output);
        }
    }
    Ok(())
}

/// Drivers are inside at once: each of two waits for the other before its first turn, and meets it.
#[test]
fn two_drivers_meet(rt: HostRuntime) -> Result<(), Fail> {
    let gate = Meeting {
        first: Corner::new(),
        second: Corner::new(),
    };
    let machine = machine(&rt, rt.alloc(), 2, Mode::Tlr, 100)?;
    let machine = driven(&rt, rt.alloc(), machine, 8, &gate)?;
    is_by_turns(&rt, &machine, 8);
    let met = (gate.first.met.load(SeqCst), gate.second.met.load(SeqCst));
    same(&rt, met, (true, true));
    Ok(())
}

/// Far more turns than the machine has steps.
#[test]
fn drivers_end_with_the_last_step(rt: HostRuntime) -> Result<(), Fail> {
    let machine = machine(&rt, rt.alloc(), 2, Mode::Tlr, 10)?;
    let machine = driven(&rt, rt.alloc(), machine, 16_777_216, &OpenGate::new())?;
    let counts = (machine.history().length(), machine.steps_left());
    same(&rt, counts, (10, 0));
    Ok(())
}
