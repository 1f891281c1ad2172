//! How a run ends.
ghost use Rattle.std.specs.Prelude.{◌≡◌};
ghost use Rattle.drive.specs.Story.{committed};
ghost use Rattle.tool.specs.Ending as words;

use crate::status::Status;
use drive::Machine;
use el_base::HartId;
use rv_alu::HartStatus;

/// How a run ends.
pub(crate) fn ending(machine: &Machine) -> Status
    ensures { result ≡ words.ending machine.now }
{
    if !machine.over() {
        Status::StepLimit
    } else if all_succeeded(machine) {
        Status::Done
    } else {
        Status::HartFailed
    }
}

/// Whether every hart exited with code 0.
#[tactic(auto, using(crate::proofs::Succeeding::ending_steps))]
fn all_succeeded(machine: &Machine) -> bool
    ensures { result ≡ words.all_succeeded (committed machine.now).harts }
{
    for number in 0..machine.config().harts {
        if !has_succeeded(machine.hart(HartId { number }).status) {
            return false;
        }
    }
    true
}

/// Whether a hart exited with code 0.
fn has_succeeded(hart: HartStatus) -> bool
    ensures { result ≡ words.has_succeeded hart }
{
    matches!(hart, HartStatus::Exited { code: 0 })
}
