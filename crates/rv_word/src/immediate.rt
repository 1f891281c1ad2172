ghost use Rattle.std.specs.Prelude.{◌≡◌, ℕ, ◌%◌, ◌^◌, ◌<◌, ◌≤◌, IsTrue};
ghost use Rattle.rv_word.specs.Immediate.{signed, imm_i, imm_s, imm_b, imm_u, imm_j};
ghost use Rattle.rv_word.specs.Arithmetic.{is_op_imm_row, op_immediate};
ghost use Rattle.rv_word.specs.Validity.{FitsSignedBits, IsEven, IsOpImmediate};

use crate::field::field_at;
use crate::insn::Alu;

/// A number of `width` bits read as two's complement.
#[tactic(auto, using(crate::proofs::Powers::pow_narrow, crate::proofs::Powers::pow_halves))]
fn sign_extend(value: u32, width: u32) -> i32
    requires some_bits { 1 ≤ width }
    requires narrow { width < 31 }
    requires fits { value < 2 ^ width }
    ensures exact { result ≡ signed width value }
    ensures fits { FitsSignedBits width result }
    ensures even { value % 2 ≡ 0 → IsEven result }
{
    if value < 1 << (width - 1) {
        value as i32
    } else {
        value as i32 - (1 << width)
    }
}

/// The low bits of a number that fits `width` bits.
#[tactic(auto, using(crate::proofs::Powers::pow_narrow, crate::proofs::Powers::pow_halves))]
pub(crate) fn low_bits(value: i32, width: u32) -> u32
    requires some_bits { 1 ≤ width }
    requires narrow { width < 31 }
    requires fits { FitsSignedBits width value }
    ensures in_range { result < 2 ^ width }
    ensures back { signed width result ≡ value }
    ensures only { (n : ℕ) → n < 2 ^ width → signed width n ≡ value → n ≡ result }
    ensures even { IsEven value → result % 2 ≡ 0 }
{
    let bits = if value < 0 {
        value + (1 << width)
    } else {
        value
    };
    bits.cast_unsigned()
}

pub(crate) fn i_immediate(word: u32) -> i32
    ensures exact { result ≡ imm_i word }
    ensures fits { FitsSignedBits 12 result }
{
    sign_extend(field_at(word, 20, 12), 12)
}

pub(crate) fn s_immediate(word: u32) -> i32
    ensures exact { result ≡ imm_s word }
    ensures fits { FitsSignedBits 12 result }
{
    sign_extend((field_at(word, 25, 7) << 5) + field_at(word, 7, 5), 12)
}

pub(crate) fn b_immediate(word: u32) -> i32
    ensures exact { result ≡ imm_b word }
    ensures fits { FitsSignedBits 13 result }
    ensures even { IsEven result }
{
    let high = (field_at(word, 31, 1) << 12) + (field_at(word, 7, 1) << 11);
    let low = (field_at(word, 25, 6) << 5) + (field_at(word, 8, 4) << 1);
    sign_extend(high + low, 13)
}

pub(crate) fn u_immediate(word: u32) -> u32
    ensures exact { result ≡ imm_u word }
    ensures low_bits_clear { result % 2 ^ 12 ≡ 0 }
{
    field_at(word, 12, 20) << 12
}

pub(crate) fn j_immediate(word: u32) -> i32
    ensures exact { result ≡ imm_j word }
    ensures fits { FitsSignedBits 21 result }
    ensures even { IsEven result }
{
    let high = (field_at(word, 31, 1) << 20) + (field_at(word, 12, 8) << 12);
    let low = (field_at(word, 20, 1) << 11) + (field_at(word, 21, 10) << 1);
    sign_extend(high + low, 21)
}

/// The immediate of an operation on a register and an immediate.
pub(crate) fn op_immediate_of(word: u32, op: Alu) -> i32
    ensures exact { result ≡ op_immediate word op }
    ensures fits { IsTrue (is_op_imm_row word op) → IsOpImmediate op result }
{
    match op {
        Alu::Sll | Alu::Srl | Alu::Sra => field_at(word, 20, 5) as i32,
        _ => i_immediate(word),
    }
}
