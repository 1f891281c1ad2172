ghost use Rattle.std.specs.Prelude.{◌≡◌};
ghost use Rattle.rv_alu.specs.Reservations.{unreserved};

use crate::regs::Regs;
use el_base::{LineAddr, line_of};

/// Whether a hart runs, and how it stopped.
#[derive(Clone, Copy, Debug, PartialEq, Eq)]
pub enum HartStatus {
    Running,
    /// It made the exit call with this code.
    Exited { code: u32 },
    /// The instruction at `pc` trapped. The causes are those of the RISC-V privileged manual's
    /// `mcause`, which [`crate::cause`] names: 0 misaligned jump, 1 no code at the pc, 2 no
    /// instruction, 3 breakpoint, 4 misaligned load, 5 load outside memory, 6 misaligned store or
    /// atomic operation, 7 one outside memory.
    Trapped { cause: u8, pc: u32 },
}

/// What the program sees of a hart.
#[derive(Clone, Copy, Debug, PartialEq, Eq)]
pub struct HartView {
    /// The address of the next instruction, or of the one that stopped the hart.
    pub pc: u32,
    pub regs: Regs,
    /// The address of the word that LR reserved, until something takes the reservation.
    pub reserved: Option<u32>,
    pub status: HartStatus,
}

impl HartView {
    /// Ends the reservation where it is of a word on this line, as a store to the line does.
    pub fn unreserve(&mut self, line: LineAddr)
        ensures { self.new ≡ unreserved line.number self.old }
    {
        self.reserved = self.reserved.filter(|word| line_of(*word) != line);
    }
}
