ghost use Rattle.std.specs.Prelude.{◌≡◌};
ghost use Rattle.core_step.specs.Run.{ended_with};

use el_base::{LineAddr, Need};
use rv_alu::HartStatus;

/// How an instruction over a port ends.
#[derive(Clone, Copy, Debug, PartialEq, Eq)]
pub enum Ended {
    /// It ran, and its hart goes on.
    Ran,
    /// It touches a line that the port does not permit for this need. Nothing has changed.
    Needs { line: LineAddr, need: Need },
    /// It trapped or made the exit call, and its hart has this status.
    Stops { status: HartStatus },
}

impl Ended {
    /// How an instruction that ran has ended, by its hart's status.
    pub(crate) fn with(status: HartStatus) -> Ended
        ensures { result ≡ ended_with status }
    {
        match status {
            HartStatus::Running => Ended::Ran,
            _ => Ended::Stops { status },
        }
    }
}
