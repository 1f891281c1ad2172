//! The program `own_driver`: how to drive a machine by a schedule of one's own, and to ask a question of each state that
//! it comes to. `docs/LIBRARY.md` goes through it.
//!
//! It builds the workload `counter`, whose harts add to one word under one lock, runs it on eight harts in each mode with
//! turns of one's own, and asks of each state whether two harts are in sections of one lock at once. It stands on
//! `machine` and `workload`, and no contract speaks of it.
#![tactic(auto)]

ghost use Rattle.std.specs.Prelude.{◌<◌, ◌≤◌};

use el_base::{Config, Event, HartId, Kind, MAX_HARTS, Mode};
use elf_image::load;
use machine::Machine;
use std::alloc::Global;
use std::io;
use std::process::ExitCode;
use workload::{Work, build};

/// How many events of each kind a hart makes before the next one has its turn.
const TURN: u32 = 12;

fn main(rt: HostRuntime) -> io::Result<ExitCode> {
    for mode in [Mode::Plain, Mode::Sle, Mode::Tlr] {
        let Some(mut machine) = machine_in(rt.alloc(), mode) else {
            eprintln!(rt; "out of memory")?;
            return Ok(ExitCode::FAILURE);
        };
        let shared = drive(&mut machine);
        let word = mode.word();
        let output = str::from_utf8(machine.output()).unwrap_or("").trim_end();
        let answer = if shared { "yes" } else { "no" };
        println!(rt; "{word}: {output}, two harts in sections of one lock at once: {answer}")?;
    }
    Ok(ExitCode::SUCCESS)
}

/// A machine before its first event, with the workload on eight harts. None where memory runs out.
fn machine_in(alloc: Global, mode: Mode) -> Option<Machine> {
    let file = build(alloc, Work::Counter, 1).ok()?;
    let image = load(alloc, &file, MAX_HARTS).ok()?;
    let config = Config {
        harts: image.harts(),
        mode,
        ..Config::usual()
    };
    Machine::make(alloc, image, config).ok()
}

/// The driver: the harts have turns in descending order, in each of which one makes events of all kinds, over and over.
/// It ends where every hart has stopped or the steps are used up, and tells whether a state was found of which the
/// question is true.
fn drive(machine: &mut Machine) -> bool {
    let mut found = false;
    for place in 0..machine.steps_left() {
        if machine.over() {
            break;
        }
        if machine.steps_left() > 0 {
            machine.step(own_event(machine.config().harts, place));
            found = found || is_lock_shared(machine);
        }
    }
    found
}

/// The event at a place of this driver's schedule of so many harts.
fn own_event(harts: u8, place: u32) -> Event
    requires some { 1 ≤ harts }
    requires few { harts ≤ 8 }
    ensures { result.hart.number < harts }
{
    let turn = place / (4 * TURN);
    let number = harts - 1 - (turn % u32::from(harts)) as u8;
    let kind = Kind::with_number((place % 4) as u8).unwrap_or(Kind::Deliver);
    Event {
        kind,
        hart: HartId { number },
    }
}

/// The question: whether two harts have live sections that elided the same lock.
fn is_lock_shared(machine: &Machine) -> bool {
    (0..MAX_HARTS).any(|number| match word_of(machine, number) {
        Some(word) => (0..number).any(|other| word_of(machine, other) == Some(word)),
        None => false,
    })
}

/// The lock that a hart's live section elided. None where no section is live, or the machine has no such hart.
fn word_of(machine: &Machine, number: u8) -> Option<u32> {
    if number < machine.config().harts {
        Some(machine.section(HartId { number })?.word)
    } else {
        None
    }
}
