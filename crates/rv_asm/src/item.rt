ghost use Rattle.std.specs.Prelude.{◌≡◌};
ghost use Rattle.rv_asm.specs.Assembly.{label_of};

use rv_word::{Insn, Reg, Test};

/// A place in a program that branches and jumps can go to.
#[derive(Clone, Copy, Debug, PartialEq, Eq)]
pub struct Label {
    /// How many labels were made before this one.
    pub number: u32,
}

/// What a word is made of: an instruction as it is, or a branch or jump to a label.
#[derive(Clone, Copy, Debug, PartialEq, Eq)]
pub enum Item {
    Fixed(Insn),
    BranchTo {
        test: Test,
        rs1: Reg,
        rs2: Reg,
        label: Label,
    },
    JumpTo {
        rd: Reg,
        label: Label,
    },
}

impl Item {
    /// The label of a branch or jump.
    pub fn label(&self) -> Option<Label>
        ensures { result ≡ label_of self.now }
    {
        match *self {
            Item::Fixed(_) => None,
            Item::BranchTo { label, .. } | Item::JumpTo { label, .. } => Some(label),
        }
    }
}
