//! What is wrong with a file that is no certificate.

use el_base::{FileFault, FormatFault, NoMemory, Numbered};
use thiserror::Error;

/// The kinds of faults, by number. Their numbers, names and order are this project's.
#[derive(Clone, Copy, Debug, PartialEq, Eq)]
pub enum FaultKind {
    /// The file ends before a field is whole.
    Short = 1,
    /// The file does not begin with the four magic bytes.
    Magic,
    /// The version is not 1.
    Version,
    /// The harts are not 1 to 8.
    Harts,
    /// A stretch has no hart of the machine or that of the one before, or no step, or too many with those before.
    Stretch,
    /// A view's reservation or status is none that a hart can have.
    View,
    /// The output is too long.
    Output,
    /// There are too many lines, or they do not ascend.
    Lines,
    /// Bytes follow the last line.
    Tail,
}

impl Numbered for FaultKind {
    ghost use Rattle.run_check.specs.FaultKinds as faults;

    ghost kinds = { faults.fault_kinds };

    ghost number_of = { faults.number_of };

    ghost name_of = { faults.name_of };

    fn all() -> &'static [FaultKind] {
        &[
            FaultKind::Short,
            FaultKind::Magic,
            FaultKind::Version,
            FaultKind::Harts,
            FaultKind::Stretch,
            FaultKind::View,
            FaultKind::Output,
            FaultKind::Lines,
            FaultKind::Tail,
        ]
    }

    fn number(self) -> u8 {
        self as u8
    }

    fn name(self) -> &'static str {
        match self {
            FaultKind::Short => "Short",
            FaultKind::Magic => "Magic",
            FaultKind::Version => "Version",
            FaultKind::Harts => "Harts",
            FaultKind::Stretch => "Stretch",
            FaultKind::View => "View",
            FaultKind::Output => "Output",
            FaultKind::Lines => "Lines",
            FaultKind::Tail => "Tail",
        }
    }
}

impl FormatFault for FaultKind {}

/// Why a file was not read as a certificate.
#[derive(Clone, Copy, Debug, PartialEq, Eq, Error)]
pub enum CertFault {
    /// The file is no certificate. `number` is that of the first fault from the left: 1 short, 2 magic,
    /// 3 version, 4 harts, 5 stretch, 6 view, 7 output, 8 lines, 9 tail. `place` is the place in the file
    /// that shows it.
    #[error("certificate fault {number} at byte {place}")]
    Bad { number: u8, place: u32 },
    /// Out of memory.
    #[error("no memory for the certificate")]
    NoMemory,
}

impl From<FileFault> for CertFault {
    ghost use Rattle.std.specs.Prelude.{◌≡◌};
    ghost use Rattle.run_check.specs.declared.fault.CertFault.TheVariants.{Bad};

    ghost from_gives = { λ fault answer. answer ≡ Bad fault.number fault.place };

    fn from(fault: FileFault) -> CertFault {
        CertFault::Bad {
            number: fault.number,
            place: fault.place,
        }
    }
}

impl From<NoMemory> for CertFault {
    ghost use Rattle.std.specs.Prelude.{◌≡◌};
    ghost use Rattle.run_check.specs.declared.fault.CertFault.TheVariants.{NoMemory};

    ghost from_gives = { λ _ answer. answer ≡ NoMemory };

    fn from(_refused: NoMemory) -> CertFault {
        CertFault::NoMemory
    }
}
