//! What stops a command before it has come to its end, and which error of a callee stops it how.
ghost use Rattle.std.specs.Prelude.{◌≡◌};

use crate::refusal::Refusal;
use command_line::WordsFault;
use drive::{Machine, MakeFault};
use el_base::{ConfigFault, FileFault, Kept, NoMemory};
use el_io::{Failed, ShelfFault};
use elf_image::ImageFault;
use run_check::CertFault;
use std::alloc::AllocError;
use trace_file::TraceFault;

/// What the program can do nothing about.
#[derive(Clone, Copy, Debug, PartialEq, Eq)]
pub(crate) enum Fault {
    /// The shelf or a sink failed.
    Device,
    /// Out of memory.
    NoMemory,
}

/// What stops a command.
#[derive(Clone, Copy, Debug, PartialEq, Eq)]
pub(crate) enum Stop {
    Refused(Refusal),
    Failed(Fault),
}

impl From<Refusal> for Stop {
    ghost use Rattle.tool.specs.declared.stop.Stop.TheVariants.{Refused};

    ghost from_gives = { λ refusal stop. stop ≡ Refused refusal };

    fn from(refusal: Refusal) -> Stop {
        Stop::Refused(refusal)
    }
}

impl From<Fault> for Stop {
    ghost use Rattle.tool.specs.declared.stop.Stop.TheVariants as stops;

    ghost from_gives = { λ fault stop. stop ≡ stops.Failed fault };

    fn from(fault: Fault) -> Stop {
        Stop::Failed(fault)
    }
}

impl From<WordsFault> for Stop {
    ghost use Rattle.tool.specs.Stopping.{stop_of_words_fault};

    ghost from_gives = { λ fault stop. stop ≡ stop_of_words_fault fault };

    fn from(fault: WordsFault) -> Stop {
        match fault {
            WordsFault::Usage => Refusal::Usage.into(),
            WordsFault::NoMemory => Fault::NoMemory.into(),
        }
    }
}

impl From<ConfigFault> for Stop {
    ghost use Rattle.tool.specs.declared.refusal.Refusal.TheVariants.{Config};
    ghost use Rattle.tool.specs.declared.stop.Stop.TheVariants.{Refused};

    ghost from_gives = { λ fault stop. stop ≡ Refused (Config fault) };

    fn from(fault: ConfigFault) -> Stop {
        Stop::Refused(Refusal::Config(fault))
    }
}

impl From<ImageFault> for Stop {
    ghost use Rattle.tool.specs.Stopping.{stop_of_image_fault};

    ghost from_gives = { λ fault stop. stop ≡ stop_of_image_fault fault };

    fn from(fault: ImageFault) -> Stop {
        match fault {
            ImageFault::Bad { number, place } => Refusal::Image(FileFault { number, place }).into(),
            ImageFault::NoMemory => Fault::NoMemory.into(),
        }
    }
}

impl From<TraceFault> for Stop {
    ghost use Rattle.tool.specs.Stopping.{stop_of_trace_fault};

    ghost from_gives = { λ fault stop. stop ≡ stop_of_trace_fault fault };

    fn from(fault: TraceFault) -> Stop {
        match fault {
            TraceFault::Bad { number, place } => Refusal::Trace(FileFault { number, place }).into(),
            TraceFault::NoMemory => Fault::NoMemory.into(),
        }
    }
}

impl From<CertFault> for Stop {
    ghost use Rattle.tool.specs.Stopping.{stop_of_certificate_fault};

    ghost from_gives = { λ fault stop. stop ≡ stop_of_certificate_fault fault };

    fn from(fault: CertFault) -> Stop {
        match fault {
            CertFault::Bad { number, place } => {
                Refusal::Certificate(FileFault { number, place }).into()
            }
            CertFault::NoMemory => Fault::NoMemory.into(),
        }
    }
}

impl From<MakeFault> for Stop {
    ghost use Rattle.tool.specs.Stopping.{stop_of_make_fault};

    ghost from_gives = { λ fault stop. stop ≡ stop_of_make_fault fault };

    fn from(fault: MakeFault) -> Stop {
        match fault {
            MakeFault::Config { fault } => fault.into(),
            MakeFault::NoMemory => Fault::NoMemory.into(),
        }
    }
}

impl From<Kept<Machine>> for Stop {
    ghost use Rattle.tool.specs.declared.stop.Fault.TheVariants as faults;
    ghost use Rattle.tool.specs.declared.stop.Stop.TheVariants as stops;

    ghost from_gives = { λ _ stop. stop ≡ stops.Failed faults.NoMemory };

    fn from(_refused: Kept<Machine>) -> Stop {
        Fault::NoMemory.into()
    }
}

impl From<NoMemory> for Stop {
    ghost use Rattle.tool.specs.declared.stop.Fault.TheVariants as faults;
    ghost use Rattle.tool.specs.declared.stop.Stop.TheVariants as stops;

    ghost from_gives = { λ _ stop. stop ≡ stops.Failed faults.NoMemory };

    fn from(_refused: NoMemory) -> Stop {
        Fault::NoMemory.into()
    }
}

impl From<AllocError> for Fault {
    ghost use Rattle.tool.specs.declared.stop.Fault.TheVariants.{NoMemory};

    ghost from_gives = { λ _ fault. fault ≡ NoMemory };

    fn from(_refused: AllocError) -> Fault {
        Fault::NoMemory
    }
}

impl From<Failed> for Fault {
    ghost use Rattle.tool.specs.declared.stop.Fault.TheVariants.{Device};

    ghost from_gives = { λ _ fault. fault ≡ Device };

    fn from(_failed: Failed) -> Fault {
        Fault::Device
    }
}

impl From<ShelfFault> for Fault {
    ghost use Rattle.tool.specs.Stopping.{fault_of_shelf};

    ghost from_gives = { λ fault answer. answer ≡ fault_of_shelf fault };

    fn from(fault: ShelfFault) -> Fault {
        match fault {
            // `TooBig` never comes here: a read over its limit is refused, and no write answers it.
            ShelfFault::Failed | ShelfFault::TooBig => Fault::Device,
            ShelfFault::NoMemory => Fault::NoMemory,
        }
    }
}
