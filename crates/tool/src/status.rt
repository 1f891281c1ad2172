//! How the program ends, by the number that its caller sees.
ghost use Rattle.std.specs.Prelude.{◌≡◌};
ghost use Rattle.tool.specs.Statuses.{number_of};

use crate::stop::Fault;

/// How the program ends.
#[derive(Clone, Copy, Debug, PartialEq, Eq)]
pub enum Status {
    /// Every hart exited with code 0, an image was written, or a certificate holds.
    Done = 0,
    /// Every hart has stopped, and not all exited with code 0.
    HartFailed = 1,
    /// The words, or a file that they name, were refused.
    Refused = 2,
    /// The steps, or the events of a replayed trace, are used up, and a hart still runs.
    StepLimit = 3,
    /// The shelf or a sink failed.
    DeviceFault = 4,
    /// Out of memory.
    NoMemory = 5,
    /// Another outcome came in a replay than its trace records.
    Differs = 6,
    /// A certificate fails.
    Rejected = 7,
}

impl Status {
    /// The exit status of the process.
    pub fn number(self) -> u8
        ensures { result ≡ number_of self }
    {
        self as u8
    }
}

impl From<Fault> for Status {
    ghost use Rattle.tool.specs.Statuses.{status_of_fault};

    ghost from_gives = { λ fault status. status ≡ status_of_fault fault };

    fn from(fault: Fault) -> Status {
        match fault {
            Fault::Device => Status::DeviceFault,
            Fault::NoMemory => Status::NoMemory,
        }
    }
}
