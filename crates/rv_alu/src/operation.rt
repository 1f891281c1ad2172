ghost use Rattle.std.specs.Prelude.{◌≡◌, ◌*◌, ◌^◌, ◌<◌, pos, ◌*ℤ◌};
ghost use Rattle.rv_alu.specs.Operation.{alu_of, amo_of, extend_of, moved_of, sign_extended_of, signed, signed_quotient_of, signed_remainder_of};
ghost use Rattle.rv_alu.specs.Operation.{taken_of, upper_word_of};

use rv_word::{Alu, AmoOp, LoadWidth, Test};

/// The result of a register operation (RISC-V unprivileged manual, chapter 2, 'Integer
/// Computational Instructions', and chapter 'M Standard Extension for Integer Multiplication and
/// Division'). Sums, differences and the lower word of a product wrap; shifts take the low five bits
/// of `right`. A quotient is rounded toward zero. A division by zero gives all ones and leaves
/// `left`; the least number divided by -1 gives itself and leaves 0.
pub fn alu(op: Alu, left: u32, right: u32) -> u32
    ensures { result ≡ alu_of op left right }
{
    match op {
        Alu::Add => left.wrapping_add(right),
        Alu::Sub => left.wrapping_sub(right),
        Alu::Sll => left.wrapping_shl(right),
        Alu::Slt => u32::from(left.cast_signed() < right.cast_signed()),
        Alu::Sltu => u32::from(left < right),
        Alu::Xor => left ^ right,
        Alu::Srl => left.wrapping_shr(right),
        Alu::Sra => left.cast_signed().wrapping_shr(right).cast_unsigned(),
        Alu::Or => left | right,
        Alu::And => left & right,
        Alu::Mul => left.wrapping_mul(right),
        Alu::Mulh => upper_of_signed(left, right),
        Alu::Mulhsu => upper_of_mixed(left, right),
        Alu::Mulhu => ((u64::from(left) * u64::from(right)) >> 32) as u32,
        Alu::Div => signed_quotient(left, right),
        Alu::Divu => left.checked_div(right).unwrap_or(u32::MAX),
        Alu::Rem => signed_remainder(left, right),
        Alu::Remu => left.checked_rem(right).unwrap_or(left),
    }
}

/// The upper word of the product of two signed words.
fn upper_of_signed(left: u32, right: u32) -> u32
    ensures { result ≡ upper_word_of (signed left *ℤ signed right) }
{
    upper_word(i64::from(left.cast_signed()) * i64::from(right.cast_signed()))
}

/// The upper word of the product of a signed word and an unsigned one.
fn upper_of_mixed(left: u32, right: u32) -> u32
    ensures { result ≡ upper_word_of (signed left *ℤ pos right) }
{
    upper_word(i64::from(left.cast_signed()) * i64::from(right))
}

/// The upper 32 bits of a product.
fn upper_word(product: i64) -> u32
    ensures { result ≡ upper_word_of product }
{
    (product.cast_unsigned() >> 32) as u32
}

fn signed_quotient(left: u32, right: u32) -> u32
    ensures { result ≡ signed_quotient_of left right }
{
    if right == 0 {
        u32::MAX
    } else {
        let quotient = left.cast_signed().wrapping_div(right.cast_signed());
        quotient.cast_unsigned()
    }
}

fn signed_remainder(left: u32, right: u32) -> u32
    ensures { result ≡ signed_remainder_of left right }
{
    if right == 0 {
        left
    } else {
        let remainder = left.cast_signed().wrapping_rem(right.cast_signed());
        remainder.cast_unsigned()
    }
}

/// Whether a branch is taken (RISC-V unprivileged manual, chapter 2, 'Conditional Branches').
pub fn taken(test: Test, left: u32, right: u32) -> bool
    ensures { result ≡ taken_of test left right }
{
    match test {
        Test::Eq => left == right,
        Test::Ne => left != right,
        Test::Lt => left.cast_signed() < right.cast_signed(),
        Test::Ge => left.cast_signed() >= right.cast_signed(),
        Test::Ltu => left < right,
        Test::Geu => left >= right,
    }
}

/// The word that an atomic memory operation stores, of the old word and the source register (RISC-V
/// unprivileged manual, 'Atomic Memory Operations').
pub fn amo(op: AmoOp, old: u32, source: u32) -> u32
    ensures { result ≡ amo_of op old source }
{
    match op {
        AmoOp::Swap => source,
        AmoOp::Add => old.wrapping_add(source),
        AmoOp::Xor => old ^ source,
        AmoOp::And => old & source,
        AmoOp::Or => old | source,
        AmoOp::Min => {
            if source.cast_signed() < old.cast_signed() {
                source
            } else {
                old
            }
        }
        AmoOp::Max => {
            if source.cast_signed() < old.cast_signed() {
                old
            } else {
                source
            }
        }
        AmoOp::Minu => old.min(source),
        AmoOp::Maxu => old.max(source),
    }
}

/// The word that a load puts into its register, of the loaded bytes as a number: sign-extended, or
/// zero-extended by the unsigned widths (RISC-V unprivileged manual, chapter 2, 'Load and Store
/// Instructions'). Bits of `raw` beyond the width do not count.
pub fn extend(width: LoadWidth, raw: u32) -> u32
    ensures { result ≡ extend_of width raw }
{
    match width {
        LoadWidth::Byte => sign_extended(raw % 0x100, 0x80),
        LoadWidth::Half => sign_extended(raw % 0x1_0000, 0x8000),
        LoadWidth::Word => raw,
        LoadWidth::ByteU => raw % 0x100,
        LoadWidth::HalfU => raw % 0x1_0000,
    }
}

/// A number below twice `half`, whose top bit is its sign, as a word.
fn sign_extended(low: u32, half: u32) -> u32
    requires low_bits { low < 2 * half }
    requires narrow { half < 2 ^ 31 }
    ensures { result ≡ sign_extended_of low half }
{
    if low < half {
        low
    } else {
        low.wrapping_sub(2 * half)
    }
}

/// An address or a pc moved by a signed offset, modulo 2^32.
pub fn moved(word: u32, offset: i32) -> u32
    ensures { result ≡ moved_of word offset }
{
    word.wrapping_add(offset.cast_unsigned())
}
