//! Events that are given: a machine makes them, and what comes of each is compared with what was recorded for it.

ghost use Rattle.std.specs.Prelude.{◌≡◌, ◌≢◌, ◌<◌, ◌≤◌, ◌∷◌, [], ◌↔◌, ℕ, All, IfOk, None, Some, length};
ghost use Rattle.el_base.specs.Config.{IsInRange};
ghost use Rattle.el_model.specs.Next.{entries_from, next, outcomes_from};
ghost use Rattle.el_model.specs.State.{begin};
ghost use Rattle.machine.specs.FirstDifference.{IsFirstDifference};
ghost use Rattle.machine.specs.Story.{continued, left_of, state_of};

use crate::copies::copy_of;
use crate::machine::Machine;
use chronicle::History;
use el_base::{Config, Event, NoMemory, Outcome};
use elf_image::Image;
use std::alloc::Global;

/// Makes these events, in their order.
#[tactic(auto, using(crate::proofs::Laws::Continued::one_followed))]
pub fn follow(machine: &mut Machine, events: &[Event])
    requires harts_exist { All (λ event. event.hart.number < machine.old.config.harts) events.now }
    requires enough_steps { length events.now ≤ left_of machine.old }
    ensures { machine.new ≡ continued machine.old events.now }
{
    for event in events {
        make(machine, *event);
    }
}

/// Makes these events, in their order, and compares what comes of each with the outcome that was recorded for it.
///
/// It makes all of them, and answers the first place, from 0 on, at which the outcome is not the recorded one:
/// `None` exactly where each is.
pub fn follow_recorded(machine: &mut Machine, events: &[Event], recorded: &[Outcome]) -> Option<u32>
    requires harts_exist { All (λ event. event.hart.number < machine.old.config.harts) events.now }
    requires enough_steps { length events.now ≤ left_of machine.old }
    requires one_each { length recorded.now ≡ length events.now }
    ensures followed { machine.new ≡ continued machine.old events.now }
    ensures differs { (place : ℕ) →
        (result ≡ Some place)
        ↔ IsFirstDifference recorded.now (outcomes_from (state_of machine.old) events.now) place }
    ensures agrees { (result ≡ None) ↔ (recorded.now ≡ outcomes_from (state_of machine.old) events.now) }
{
    let steps = machine.steps_left();
    prove!(events.len() <= steps as usize);
    let mut first = None;
    for (place, event) in events.iter().enumerate() {
        let found = make(machine, *event);
        first = first_up_to(place as u32, first, recorded[place], found);
    }
    first
}

/// The first difference up to a place, by the first one before it and the two outcomes of the place.
#[tactic(auto, using(crate::proofs::SameOutcomes::same_outcome))]
fn first_up_to(place: u32, before: Option<u32>, recorded: Outcome, found: Outcome) -> Option<u32>
    ensures agrees { (result ≡ None) ↔ ((before ≡ None) × (recorded ≡ found)) }
    ensures earlier { (first : ℕ) → before ≡ Some first → result ≡ Some first }
    ensures here { before ≡ None → recorded ≢ found → result ≡ Some place }
{
    if before.is_some() {
        before
    } else if recorded == found {
        None
    } else {
        Some(place)
    }
}

/// Makes one event.
fn make(machine: &mut Machine, event: Event) -> Outcome
    requires hart_exists { event.hart.number < machine.old.config.harts }
    requires step_left { 1 ≤ left_of machine.old }
    ensures goes_on { machine.new ≡ continued machine.old (event ∷ []) }
    ensures outcome { result ≡ (next (state_of machine.old) event).outcome }
{
    machine.step(event)
}

/// The history of a machine that has followed these events from its start, with as many places. The machine's memory is
/// given back.
pub fn history_of_run(
    alloc: Global,
    image: Image,
    config: Config,
    events: &[Event],
) -> Result<History, NoMemory>
    requires in_range { IsInRange config }
    requires one_hart_each { image.harts ≡ config.harts }
    requires enough_steps { length events.now ≤ config.steps }
    requires harts_exist { All (λ event. event.hart.number < config.harts) events.now }
    ensures { IfOk result (λ history. history ≡
        record { entries = entries_from (begin image config) events.now; places = length events.now }) }
{
    let mut machine = machine_of(alloc, image, config)?;
    follow(&mut machine, events);
    copy_of(alloc, machine.history())
}

/// A machine of a configuration in range, before its first event.
fn machine_of(alloc: Global, image: Image, config: Config) -> Result<Machine, NoMemory>
    requires in_range { IsInRange config }
    requires one_hart_each { image.harts ≡ config.harts }
    ensures { IfOk result (λ machine. machine ≡ record { program = image; config = config; entries = [] }) }
{
    match Machine::make(alloc, image, config) {
        Ok(machine) => Ok(machine),
        Err(_) => Err(NoMemory),
    }
}
