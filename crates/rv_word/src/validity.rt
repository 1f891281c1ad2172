ghost use Rattle.std.specs.Prelude.{◌≤◌, ◌<◌, ◌↔◌, IsTrue};
ghost use Rattle.rv_word.specs.Validity.{FitsSignedBits, IsEven, Valid};

use crate::insn::{Alu, Insn};

impl Insn {
    /// Whether a word means this instruction: its immediate fits its form, a shift's amount is 0
    /// to 31, and there is no `Sub`, multiplication or division with an immediate.
    pub fn is_valid(self) -> bool
        ensures exact { IsTrue result ↔ Valid self }
    {
        match self {
            Insn::Lui { imm, .. } | Insn::Auipc { imm, .. } => imm % (1 << 12) == 0,
            Insn::Jal { offset, .. } => fits_signed_bits(offset, 21) && is_even(offset),
            Insn::Branch { offset, .. } => fits_signed_bits(offset, 13) && is_even(offset),
            Insn::Jalr { offset, .. } | Insn::Load { offset, .. } | Insn::Store { offset, .. } => {
                fits_signed_bits(offset, 12)
            }
            Insn::OpImm {
                op: Alu::Sll | Alu::Srl | Alu::Sra,
                imm,
                ..
            } => 0 <= imm && imm < 32,
            Insn::OpImm {
                op: Alu::Add | Alu::Slt | Alu::Sltu | Alu::Xor | Alu::Or | Alu::And,
                imm,
                ..
            } => fits_signed_bits(imm, 12),
            Insn::OpImm { .. } => false,
            Insn::Op { .. } | Insn::Fence | Insn::Ecall | Insn::Ebreak => true,
            Insn::Lr { .. } | Insn::Sc { .. } | Insn::Amo { .. } => true,
        }
    }
}

#[tactic(auto, using(crate::proofs::Powers::pow_narrow, crate::proofs::Powers::pow_halves))]
fn fits_signed_bits(value: i32, width: u32) -> bool
    requires some_bits { 1 ≤ width }
    requires narrow { width < 31 }
    ensures exact { IsTrue result ↔ FitsSignedBits width value }
{
    let half = 1 << (width - 1);
    -half <= value && value < half
}

fn is_even(value: i32) -> bool
    ensures exact { IsTrue result ↔ IsEven value }
{
    value.unsigned_abs() % 2 == 0
}
