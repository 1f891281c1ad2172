//! Whether a run came to what its trace records.

use crate::refusal::Refusal;
use crate::stop::Stop;
use el_base::{Chronicled, Outcome};
use machine::Machine;
use trace_file::Trace;

/// Refuses a run whose outcomes are not those that its trace records, where it records them.
pub(crate) fn check_outcomes<'a>(
    machine: &Machine,
    trace: &Trace,
    file: &'a str,
) -> Result<(), Stop<'a>> {
    match &trace.recorded {
        Some(recorded) => match first_difference(machine, recorded) {
            Some(place) => Err(Refusal::Differs { file, place }.into()),
            None => Ok(()),
        },
        None => Ok(()),
    }
}

/// The first place at which the outcomes of a run are not those that are recorded.
fn first_difference(machine: &Machine, recorded: &[Outcome]) -> Option<usize> {
    let history = machine.history();
    (0..history.length())
        .find(|place| recorded.get(*place as usize).copied() != Some(history.entry(*place).outcome))
        .map(|place| place as usize)
}
