ghost use Rattle.std.specs.Prelude.{◌≡◌};
ghost use Rattle.rv_asm.specs.declared.fault.AsmFault.TheVariants.{NoMemory};

use thiserror::Error;

/// Why a program has no words.
#[derive(Clone, Copy, Debug, PartialEq, Eq, Error)]
pub enum AsmFault {
    /// A branch or jump goes to a label that has no place. It is the least such label.
    #[error("label {label} is used and has no place")]
    Unplaced { label: u32 },
    /// The offset of the branch or jump at this place does not fit its form: from -4,096 to 4,094 bytes for
    /// a branch, from -1,048,576 to 1,048,574 for a jump. It is the first such place, counted in words,
    /// and each label that is used has a place.
    #[error("the label of the word at place {place} is too far away")]
    Far { place: u32 },
    /// An allocation failed, and the program has no other fault.
    #[error("no memory for the words")]
    NoMemory,
}

impl From<el_base::NoMemory> for AsmFault {
    ghost from_gives = { λ _ fault. fault ≡ NoMemory };

    fn from(_refused: el_base::NoMemory) -> AsmFault {
        AsmFault::NoMemory
    }
}
