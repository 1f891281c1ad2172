//! What is wrong with a file that is no trace.

use el_base::{FileFault, FormatFault, NoMemory, Numbered};
use thiserror::Error;

/// The kinds of faults, by number. Their numbers, names and order are this project's.
#[derive(Clone, Copy, Debug, PartialEq, Eq)]
pub enum FaultKind {
    /// The file ends before a field, an event or an outcome is whole.
    Short = 1,
    /// The file does not begin with the four magic bytes.
    Magic,
    /// The version is neither 1 nor 2.
    Version,
    /// A field of the configuration is out of its range, or there are more events than steps.
    Config,
    /// An event has no kind, or a hart that the machine lacks.
    Event,
    /// Bytes follow the last event or its outcome.
    Tail,
    /// An outcome has no code, or a field of it is out of its range.
    Outcome,
}

impl Numbered for FaultKind {
    ghost use Rattle.trace_file.specs.FaultKinds as faults;

    ghost kinds = { faults.fault_kinds };

    ghost number_of = { faults.number_of };

    ghost name_of = { faults.name_of };

    fn all() -> &'static [FaultKind] {
        &[
            FaultKind::Short,
            FaultKind::Magic,
            FaultKind::Version,
            FaultKind::Config,
            FaultKind::Event,
            FaultKind::Tail,
            FaultKind::Outcome,
        ]
    }

    fn number(self) -> u8 {
        self as u8
    }

    fn name(self) -> &'static str {
        match self {
            FaultKind::Short => "Short",
            FaultKind::Magic => "Magic",
            FaultKind::Version => "Version",
            FaultKind::Config => "Config",
            FaultKind::Event => "Event",
            FaultKind::Tail => "Tail",
            FaultKind::Outcome => "Outcome",
        }
    }
}

impl FormatFault for FaultKind {}

/// Why a file was not read as a trace.
#[derive(Clone, Copy, Debug, PartialEq, Eq, Error)]
pub enum TraceFault {
    /// The file is no trace. `number` is that of the first fault from the left: 1 short, 2 magic,
    /// 3 version, 4 configuration, 5 event, 6 tail, 7 outcome. `place` is the place in the file that shows it.
    #[error("trace fault {number} at byte {place}")]
    Bad { number: u8, place: u32 },
    /// Out of memory.
    #[error("no memory for the trace")]
    NoMemory,
}

impl From<FileFault> for TraceFault {
    ghost use Rattle.std.specs.Prelude.{◌≡◌};
    ghost use Rattle.trace_file.specs.declared.fault.TraceFault.TheVariants.{Bad};

    ghost from_gives = { λ fault answer. answer ≡ Bad fault.number fault.place };

    fn from(fault: FileFault) -> TraceFault {
        TraceFault::Bad {
            number: fault.number,
            place: fault.place,
        }
    }
}

impl From<NoMemory> for TraceFault {
    ghost use Rattle.std.specs.Prelude.{◌≡◌};
    ghost use Rattle.trace_file.specs.declared.fault.TraceFault.TheVariants.{NoMemory};

    ghost from_gives = { λ _ answer. answer ≡ NoMemory };

    fn from(_refused: NoMemory) -> TraceFault {
        TraceFault::NoMemory
    }
}
