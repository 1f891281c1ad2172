//! What a step overwrites.

ghost use Rattle.std.specs.Prelude.{◌≡◌, ◌≤◌, take};
ghost use Rattle.rv_flat.specs.Change.{reserved_in};

use el_base::{HartId, Harts};
use rv_alu::HartStatus;
use rv_word::Reg;

/// What one step of a hart overwrites, as it was before the step: enough to undo it.
#[derive(Clone, Copy, Debug, PartialEq, Eq)]
pub struct Change {
    /// The hart whose step it is.
    pub hart: HartId,
    /// The hart's pc before the step.
    pub pc: u32,
    /// The hart's status before the step.
    pub status: HartStatus,
    /// The register that the step writes; register 0 where it writes none.
    pub reg: Reg,
    /// The word in that register before the step; 0 in register 0.
    pub value: u32,
    /// Where in memory the step stores; 0 where it stores nothing.
    pub address: u32,
    /// How many bytes it stores: 1, 2 or 4, and 0 where it stores nothing.
    pub len: u8,
    /// The bytes that stood there before the step, and 0 behind them.
    pub bytes: [u8; 4],
    /// The harts that had a reservation before the step.
    pub holders: Harts,
    /// Each hart's reserved word before the step, by the hart's number; 0 where it had none.
    pub words: [u32; 8],
    /// How many bytes the output had before the step.
    pub output: u32,
}

impl Change {
    /// A hart's reservation before the step.
    pub(crate) fn reserved(&self, hart: HartId) -> Option<u32>
        ensures { result ≡ reserved_in self.now hart.number }
    {
        if self.holders.has(hart) {
            Some(self.words[usize::from(hart.number)])
        } else {
            None
        }
    }

    /// The bytes that stood where the step stores.
    pub(crate) fn old_bytes(&self) -> &[u8]
        requires { self.now.len ≤ 4 }
        ensures { result.now ≡ take self.now.len self.now.bytes }
    {
        &self.bytes[..usize::from(self.len)]
    }
}
