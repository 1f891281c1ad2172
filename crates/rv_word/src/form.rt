//! The formats of instruction words, put together from their fields. In each, `only` says that no
//! other word has these fields.
ghost use Rattle.std.specs.Prelude.{◌≡◌, ℕ, ◌<◌, ◌%◌, ◌^◌, pos, ◌≤ℤ◌, ◌<ℤ◌};
ghost use Rattle.rv_word.specs.Field.{opcode_of, rd_of, funct3_of, rs1_of, rs2_of, funct7_of, funct5_of, aq_of, rl_of};
ghost use Rattle.rv_word.specs.Immediate.{shamt_of, imm_i, imm_s, imm_b, imm_u, imm_j};
ghost use Rattle.rv_word.specs.Validity.{FitsSignedBits, IsEven};

use crate::field::field_at;
use crate::immediate::low_bits;
use crate::opcode::{AMO, OP_IMM};
use crate::reg::Reg;

/// The R format.
#[tactic(auto, unfolding(crate::specs::Field::reg_field))]
pub(crate) fn r_form(opcode: u32, rd: Reg, funct3: u32, rs1: Reg, rs2: Reg, funct7: u32) -> u32
    requires opcode_fits { opcode < 2 ^ 7 }
    requires funct3_fits { funct3 < 2 ^ 3 }
    requires funct7_fits { funct7 < 2 ^ 7 }
    ensures has_opcode { opcode_of result ≡ opcode }
    ensures has_rd { rd_of result ≡ rd }
    ensures has_funct3 { funct3_of result ≡ funct3 }
    ensures has_rs1 { rs1_of result ≡ rs1 }
    ensures has_rs2 { rs2_of result ≡ rs2 }
    ensures has_funct7 { funct7_of result ≡ funct7 }
    ensures only { (w : ℕ) → w < 2 ^ 32 → opcode_of w ≡ opcode → rd_of w ≡ rd → funct3_of w ≡ funct3
        → rs1_of w ≡ rs1 → rs2_of w ≡ rs2 → funct7_of w ≡ funct7 → w ≡ result }
{
    let low = opcode + ((rd.number as u32) << 7) + (funct3 << 12);
    let high = ((rs1.number as u32) << 15) + ((rs2.number as u32) << 20) + (funct7 << 25);
    low + high
}

/// The R format of a shift by an immediate: the amount stands in the place of rs2.
#[tactic(auto, unfolding(crate::specs::Field::reg_field))]
pub(crate) fn shift_form(rd: Reg, funct3: u32, rs1: Reg, amount: i32, funct7: u32) -> u32
    requires funct3_fits { funct3 < 2 ^ 3 }
    requires amount_not_negative { pos 0 ≤ℤ amount }
    requires amount_fits { amount <ℤ pos 32 }
    requires funct7_fits { funct7 < 2 ^ 7 }
    ensures has_opcode { opcode_of result ≡ 0b0010011 }
    ensures has_rd { rd_of result ≡ rd }
    ensures has_funct3 { funct3_of result ≡ funct3 }
    ensures has_rs1 { rs1_of result ≡ rs1 }
    ensures has_amount { pos (shamt_of result) ≡ amount }
    ensures has_funct7 { funct7_of result ≡ funct7 }
    ensures only { (w : ℕ) → w < 2 ^ 32 → opcode_of w ≡ 0b0010011 → rd_of w ≡ rd → funct3_of w ≡ funct3
        → rs1_of w ≡ rs1 → pos (shamt_of w) ≡ amount → funct7_of w ≡ funct7 → w ≡ result }
{
    let low = OP_IMM + ((rd.number as u32) << 7) + (funct3 << 12);
    let high = ((rs1.number as u32) << 15) + ((amount as u32) << 20) + (funct7 << 25);
    low + high
}

/// The R format of the atomic instructions, with funct5, aq and rl in the place of funct7.
#[tactic(auto, unfolding(crate::specs::Field::reg_field))]
pub(crate) fn atomic_form(rd: Reg, rs1: Reg, rs2: Reg, funct5: u32, aq: bool, rl: bool) -> u32
    requires funct5_fits { funct5 < 2 ^ 5 }
    ensures has_opcode { opcode_of result ≡ 0b0101111 }
    ensures has_rd { rd_of result ≡ rd }
    ensures has_funct3 { funct3_of result ≡ 0b010 }
    ensures has_rs1 { rs1_of result ≡ rs1 }
    ensures has_rs2 { rs2_of result ≡ rs2 }
    ensures has_funct5 { funct5_of result ≡ funct5 }
    ensures has_aq { aq_of result ≡ aq }
    ensures has_rl { rl_of result ≡ rl }
    ensures only { (w : ℕ) → w < 2 ^ 32 → opcode_of w ≡ 0b0101111 → rd_of w ≡ rd → funct3_of w ≡ 0b010
        → rs1_of w ≡ rs1 → (rs2_of w).number ≡ rs2.number → funct5_of w ≡ funct5 → aq_of w ≡ aq → rl_of w ≡ rl
        → w ≡ result }
{
    let low = AMO + ((rd.number as u32) << 7) + (0b010 << 12);
    let middle = ((rs1.number as u32) << 15) + ((rs2.number as u32) << 20);
    let high = ((rl as u32) << 25) + ((aq as u32) << 26) + (funct5 << 27);
    low + middle + high
}

/// The I format.
#[tactic(auto, unfolding(crate::specs::Field::reg_field))]
pub(crate) fn i_form(opcode: u32, rd: Reg, funct3: u32, rs1: Reg, imm: i32) -> u32
    requires opcode_fits { opcode < 2 ^ 7 }
    requires funct3_fits { funct3 < 2 ^ 3 }
    requires imm_fits { FitsSignedBits 12 imm }
    ensures has_opcode { opcode_of result ≡ opcode }
    ensures has_rd { rd_of result ≡ rd }
    ensures has_funct3 { funct3_of result ≡ funct3 }
    ensures has_rs1 { rs1_of result ≡ rs1 }
    ensures has_imm { imm_i result ≡ imm }
    ensures only { (w : ℕ) → w < 2 ^ 32 → opcode_of w ≡ opcode → rd_of w ≡ rd → funct3_of w ≡ funct3
        → rs1_of w ≡ rs1 → imm_i w ≡ imm → w ≡ result }
{
    let low = opcode + ((rd.number as u32) << 7) + (funct3 << 12);
    low + ((rs1.number as u32) << 15) + (low_bits(imm, 12) << 20)
}

/// The S format.
#[tactic(auto, unfolding(crate::specs::Field::reg_field))]
pub(crate) fn s_form(opcode: u32, funct3: u32, rs1: Reg, rs2: Reg, imm: i32) -> u32
    requires opcode_fits { opcode < 2 ^ 7 }
    requires funct3_fits { funct3 < 2 ^ 3 }
    requires imm_fits { FitsSignedBits 12 imm }
    ensures has_opcode { opcode_of result ≡ opcode }
    ensures has_funct3 { funct3_of result ≡ funct3 }
    ensures has_rs1 { rs1_of result ≡ rs1 }
    ensures has_rs2 { rs2_of result ≡ rs2 }
    ensures has_imm { imm_s result ≡ imm }
    ensures only { (w : ℕ) → w < 2 ^ 32 → opcode_of w ≡ opcode → funct3_of w ≡ funct3 → rs1_of w ≡ rs1
        → rs2_of w ≡ rs2 → imm_s w ≡ imm → w ≡ result }
{
    let bits = low_bits(imm, 12);
    let low = opcode + (field_at(bits, 0, 5) << 7) + (funct3 << 12);
    let high = ((rs1.number as u32) << 15) + ((rs2.number as u32) << 20);
    low + high + (field_at(bits, 5, 7) << 25)
}

/// The B format.
#[tactic(auto, unfolding(crate::specs::Field::reg_field))]
pub(crate) fn b_form(opcode: u32, funct3: u32, rs1: Reg, rs2: Reg, imm: i32) -> u32
    requires opcode_fits { opcode < 2 ^ 7 }
    requires funct3_fits { funct3 < 2 ^ 3 }
    requires imm_fits { FitsSignedBits 13 imm }
    requires imm_even { IsEven imm }
    ensures has_opcode { opcode_of result ≡ opcode }
    ensures has_funct3 { funct3_of result ≡ funct3 }
    ensures has_rs1 { rs1_of result ≡ rs1 }
    ensures has_rs2 { rs2_of result ≡ rs2 }
    ensures has_imm { imm_b result ≡ imm }
    ensures only { (w : ℕ) → w < 2 ^ 32 → opcode_of w ≡ opcode → funct3_of w ≡ funct3 → rs1_of w ≡ rs1
        → rs2_of w ≡ rs2 → imm_b w ≡ imm → w ≡ result }
{
    let bits = low_bits(imm, 13);
    let low = opcode + (field_at(bits, 11, 1) << 7) + (field_at(bits, 1, 4) << 8) + (funct3 << 12);
    let high = ((rs1.number as u32) << 15) + ((rs2.number as u32) << 20);
    low + high + (field_at(bits, 5, 6) << 25) + (field_at(bits, 12, 1) << 31)
}

/// The U format.
#[tactic(auto, unfolding(crate::specs::Field::reg_field))]
pub(crate) fn u_form(opcode: u32, rd: Reg, imm: u32) -> u32
    requires opcode_fits { opcode < 2 ^ 7 }
    requires imm_fits { imm % 2 ^ 12 ≡ 0 }
    ensures has_opcode { opcode_of result ≡ opcode }
    ensures has_rd { rd_of result ≡ rd }
    ensures has_imm { imm_u result ≡ imm }
    ensures only { (w : ℕ) → w < 2 ^ 32 → opcode_of w ≡ opcode → rd_of w ≡ rd → imm_u w ≡ imm → w ≡ result }
{
    opcode + ((rd.number as u32) << 7) + imm
}

/// The J format.
#[tactic(auto, unfolding(crate::specs::Field::reg_field))]
pub(crate) fn j_form(opcode: u32, rd: Reg, imm: i32) -> u32
    requires opcode_fits { opcode < 2 ^ 7 }
    requires imm_fits { FitsSignedBits 21 imm }
    requires imm_even { IsEven imm }
    ensures has_opcode { opcode_of result ≡ opcode }
    ensures has_rd { rd_of result ≡ rd }
    ensures has_imm { imm_j result ≡ imm }
    ensures only { (w : ℕ) → w < 2 ^ 32 → opcode_of w ≡ opcode → rd_of w ≡ rd → imm_j w ≡ imm → w ≡ result }
{
    let bits = low_bits(imm, 21);
    let low = opcode + ((rd.number as u32) << 7) + (field_at(bits, 12, 8) << 12);
    let high = (field_at(bits, 11, 1) << 20) + (field_at(bits, 1, 10) << 21);
    low + high + (field_at(bits, 20, 1) << 31)
}
