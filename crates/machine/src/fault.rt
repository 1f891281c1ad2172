use el_base::{ConfigFault, NoMemory};
use thiserror::Error;

/// Why no machine was made.
#[derive(Clone, Copy, Debug, PartialEq, Eq, Error)]
pub enum MakeFault {
    /// A field of the configuration is out of its range: the first that is, in the order of the
    /// faults' numbers.
    #[error("the configuration is out of range: {fault:?}")]
    Config { fault: ConfigFault },
    /// Out of memory.
    #[error("no memory for the machine")]
    NoMemory,
}

impl From<NoMemory> for MakeFault {
    ghost use Rattle.std.specs.Prelude.{◌≡◌};
    ghost use Rattle.machine.specs.declared.fault.MakeFault.TheVariants.{NoMemory};

    ghost from_gives = { λ _ fault. fault ≡ NoMemory };

    fn from(_refused: NoMemory) -> MakeFault {
        MakeFault::NoMemory
    }
}

impl From<ConfigFault> for MakeFault {
    ghost use Rattle.std.specs.Prelude.{◌≡◌};
    ghost use Rattle.machine.specs.declared.fault.MakeFault.TheVariants.{Config};

    ghost from_gives = { λ fault answer. answer ≡ Config fault };

    fn from(fault: ConfigFault) -> MakeFault {
        MakeFault::Config { fault }
    }
}
