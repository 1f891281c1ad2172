//! A machine makes the events of a run.

use crate::agreement::Agreement;
use crate::difference::Difference;
use crate::ending::end_agrees;
use crate::field::{element, list, member, word};
use crate::image::file;
use crate::outcome::told;
use crate::worked::{config, event};
use elf_image::{IMAGE_FILE_LIMIT, load};
use machine::Machine;
use serde_json::Value;
use std::alloc::Global;

/// Makes the run of a text. The answer says what of it the machine agrees with, or where they differ.
pub fn agree(alloc: Global, text: &str) -> Result<Agreement, Difference> {
    let run = Value::from_str(alloc, text).map_err(|_| Difference::Form)?;
    let events = list(member(&run, "events")?)?;
    let mut machine = machine_of(alloc, &run, events.len())?;
    for (place, told_event) in events.iter().enumerate() {
        ready_agrees(&machine, &run, place)?;
        make(alloc, &mut machine, told_event, place)?;
    }
    match run.get("end") {
        Some(end) => {
            end_agrees(&machine, &run, end)?;
            Ok(Agreement::EventsAndEnd(events.len()))
        }
        None => Ok(Agreement::Events(events.len())),
    }
}

/// A machine of a run's program, with a step for each event.
fn machine_of(alloc: Global, run: &Value, events: usize) -> Result<Machine, Difference> {
    let config = config(run, events)?;
    if !(1..=8).contains(&config.harts) {
        return Err(Difference::NoMachine);
    }
    let file = file(alloc, run)?;
    if file.len() > IMAGE_FILE_LIMIT as usize {
        return Err(Difference::NoMachine);
    }
    let image = load(alloc, file.as_slice(), config.harts).map_err(|_| Difference::NoMachine)?;
    if image.harts() != config.harts {
        return Err(Difference::NoMachine);
    }
    Machine::make(alloc, image, config).map_err(|_| Difference::NoMachine)
}

/// Before the event at a place, the first event that is progress is the one that the run tells for that place, where it
/// tells one.
fn ready_agrees(machine: &Machine, run: &Value, place: usize) -> Result<(), Difference> {
    let Some(told) = run.get("ready") else {
        return Ok(());
    };
    for row in list(told)? {
        let is_here = word(element(row, 0)?)? as usize == place;
        if is_here && machine.ready() != Some(event(element(row, 1)?)?) {
            return Err(Difference::Ready { place });
        }
    }
    Ok(())
}

/// Makes an event, of which the run tells what came of it.
fn make(
    alloc: Global,
    machine: &mut Machine,
    told_event: &Value,
    place: usize,
) -> Result<(), Difference> {
    let event = event(told_event)?;
    if event.hart.number >= machine.config().harts || machine.steps_left() == 0 {
        return Err(Difference::Form);
    }
    let told_outcome = element(told_event, 2)?;
    let tells_freed = element(told_outcome, 2).is_ok();
    let outcome = told(alloc, machine.step(event), tells_freed)?;
    if outcome != told_outcome.to_string(alloc)? {
        return Err(Difference::Event { place });
    }
    Ok(())
}
