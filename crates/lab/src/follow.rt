//! Following a run, event by event.

ghost use Rattle.std.specs.Prelude.{◌≡◌, ◌<◌, ◌≤◌, ◌∷◌, ◌++◌, ℕ, [], All, IfOk, OnOk, length, slice_index};
ghost use Rattle.lab.specs.Lines.{facts_from, facts_in};
ghost use Rattle.lab.specs.Swaps.{swaps_from, swaps_in};
ghost use Rattle.lab.specs.Tries.{AreLive, moment_of, noted, ran_in, tries_from};
ghost use Rattle.machine.specs.Story.{continued, left_of, state_of};

use crate::lines::{Fact, asked_before, back_before, note_back, note_lines};
use crate::swaps::{PlainSwap, note_swap, swap_before};
use crate::tries::{Counts, Tries};
use el_base::{Chronicled, Event, HartId, MAX_HARTS, NoMemory};
use machine::Machine;
use std::alloc::Global;

/// What was seen of a run as it was followed.
#[derive(Drop)]
pub struct Watched {
    /// The sections, in the order in which they began.
    pub tries: Tries,
    /// The swaps that ran outside of sections, in the order of their events.
    pub swaps: Vec<PlainSwap>,
    /// What happened to lines, in the order of the events.
    pub facts: Vec<Fact>,
}

/// Makes these events, in their order, and tells the sections that they begin, the swaps that ran outside of sections,
/// and what happened to lines.
pub fn watch(alloc: Global, machine: &mut Machine, events: &[Event]) -> Result<Watched, NoMemory>
    requires harts_exist { All (λ event. event.hart.number < machine.old.config.harts) events.now }
    requires enough_steps { length events.now ≤ left_of machine.old }
    ensures followed { OnOk result (machine.new ≡ continued machine.old events.now) }
    ensures tries { IfOk result (λ watched.
        watched.tries ≡ tries_from (state_of machine.old) (length machine.old.entries) events.now) }
    ensures swaps { IfOk result (λ watched.
        watched.swaps.items ≡ swaps_from (state_of machine.old) (length machine.old.entries) events.now) }
    ensures facts { IfOk result (λ watched.
        watched.facts.items ≡ facts_from (state_of machine.old) (length machine.old.entries) events.now) }
{
    let mut watched = Watched {
        tries: Tries::none(alloc),
        swaps: Vec::new(alloc),
        facts: Vec::new(alloc),
    };
    for event in events {
        make(machine, &mut watched, *event)?;
    }
    Ok(watched)
}

/// Makes one event, and notes it.
fn make(machine: &mut Machine, watched: &mut Watched, event: Event) -> Result<(), NoMemory>
    requires hart_exists { event.hart.number < machine.old.config.harts }
    requires step_left { 1 ≤ left_of machine.old }
    requires live { AreLive (state_of machine.old) watched.old.tries }
    ensures goes_on { machine.new ≡ continued machine.old (event ∷ []) }
    ensures tries { OnOk result (watched.new.tries ≡
        noted (moment_of (state_of machine.old) (length machine.old.entries) event) watched.old.tries) }
    ensures live { OnOk result (AreLive (state_of machine.new) watched.new.tries) }
    ensures swaps { OnOk result (watched.new.swaps.items ≡ watched.old.swaps.items
        ++ swaps_in (state_of machine.old) (length machine.old.entries) event) }
    ensures facts { OnOk result (watched.new.facts.items ≡ watched.old.facts.items
        ++ facts_in (state_of machine.old) (length machine.old.entries) event) }
{
    let place = machine.history().length();
    let ran = counts(machine);
    let swap = swap_before(machine, event);
    let asked = asked_before(machine, event);
    let back = back_before(machine, event);
    let outcome = machine.step(event);
    watched.tries.note(machine, place, &ran, event, outcome)?;
    note_swap(&mut watched.swaps, outcome, swap)?;
    note_lines(
        &mut watched.facts,
        machine,
        place,
        event.hart,
        asked,
        outcome,
    )?;
    note_back(&mut watched.facts, place, event.hart, back, outcome)
}

/// How many instructions the live section of each hart has run.
fn counts(machine: &Machine) -> Counts
    ensures { (h : ℕ) → h < 8 → slice_index result h ≡ ran_in (state_of machine.now) h }
{
    let harts = machine.bus().harts();
    let mut counts = [0; MAX_HARTS as usize];
    for number in 0..MAX_HARTS {
        if usize::from(number) < harts {
            if let Some(live) = machine.section(HartId { number }) {
                counts[usize::from(number)] = live.count;
            }
        }
    }
    counts
}
