ghost use Rattle.std.specs.Prelude.{◌≡◌, ℕ, List, slice_index, replicate};
ghost use Rattle.rv_alu.specs.Regs.{get, set};

use rv_word::Reg;
use std::marker::Model;

/// The 32 integer registers of a hart, words of 32 bits, of which the first is always 0 (RISC-V
/// unprivileged manual, chapter 2, 'Programmers' Model for Base Integer ISA'). Contracts see them
/// as the list of the words.
#[derive(Clone, Copy, Debug, PartialEq, Eq)]
pub struct Regs {
    words: [u32; 32],
}

impl Model for Regs {
    ghost Value = { List ℕ };

    ghost view = { λ r. r.words };

    ghost invariant = { λ r. slice_index r.words 0 ≡ 0 };

    ghost inverse = { λ words. record { words = words } };
}

impl Regs {
    /// All registers 0.
    pub fn zero() -> Regs
        ensures { result ≡ replicate 32 0 }
    {
        Regs { words: [0; 32] }
    }

    /// The word in a register.
    pub fn get(&self, reg: Reg) -> u32
        ensures value { result ≡ get self.now reg.number }
        ensures zero { get self.now 0 ≡ 0 }
    {
        self.words[usize::from(reg.number)]
    }

    /// Writes a register, and leaves register 0 as it is.
    pub fn set(&mut self, reg: Reg, value: u32)
        ensures { self.new ≡ set self.old reg.number value }
    {
        if reg.number != 0 {
            self.words[usize::from(reg.number)] = value;
        }
    }
}
