//! How the program ends, by the number that its caller sees.

ghost use Rattle.std.specs.Prelude.{◌≡◌};
ghost use Rattle.lab_tool.specs.Statuses.{number_of};

/// How the program ends.
#[derive(Clone, Copy, Debug, PartialEq, Eq)]
pub enum Status {
    /// What was asked for was put and written.
    Done = 0,
    /// The words, or a file that they name, were refused, with a line that says why.
    Refused = 2,
    /// After `run`: a hart still runs, and the steps or the listed events are used up.
    StillRuns = 3,
    /// The shelf or a sink failed.
    DeviceFault = 4,
    /// Out of memory.
    NoMemory = 5,
    /// Another outcome came than the trace records.
    Differs = 6,
}

impl Status {
    /// The exit status of the process.
    pub fn number(self) -> u8
        ensures { result ≡ number_of self }
    {
        self as u8
    }
}
