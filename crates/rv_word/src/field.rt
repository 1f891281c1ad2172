ghost use Rattle.std.specs.Prelude.{◌≡◌, ◌<◌};
ghost use Rattle.rv_word.specs.Field.{field, reg_field, opcode_of, rd_of, funct3_of, rs1_of, rs2_of, funct7_of, funct5_of, aq_of, rl_of};

use crate::reg::Reg;

/// The number that stands in `width` bits of the word, the lowest of them bit `low`.
pub(crate) fn field_at(word: u32, low: u32, width: u32) -> u32
    requires starts_inside { low < 32 }
    requires narrow { width < 32 }
    ensures exact { result ≡ field low width word }
{
    (word >> low) % (1 << width)
}

#[tactic(auto, unfolding(crate::specs::Field::reg_field))]
fn reg_at(word: u32, low: u32) -> Reg
    requires starts_inside { low < 32 }
    ensures exact { result ≡ reg_field low word }
{
    Reg {
        number: field_at(word, low, 5) as u8,
    }
}

pub(crate) fn opcode(word: u32) -> u32
    ensures exact { result ≡ opcode_of word }
{
    field_at(word, 0, 7)
}

pub(crate) fn rd(word: u32) -> Reg
    ensures exact { result ≡ rd_of word }
{
    reg_at(word, 7)
}

pub(crate) fn funct3(word: u32) -> u32
    ensures exact { result ≡ funct3_of word }
{
    field_at(word, 12, 3)
}

pub(crate) fn rs1(word: u32) -> Reg
    ensures exact { result ≡ rs1_of word }
{
    reg_at(word, 15)
}

pub(crate) fn rs2(word: u32) -> Reg
    ensures exact { result ≡ rs2_of word }
{
    reg_at(word, 20)
}

pub(crate) fn funct7(word: u32) -> u32
    ensures exact { result ≡ funct7_of word }
{
    field_at(word, 25, 7)
}

pub(crate) fn funct5(word: u32) -> u32
    ensures exact { result ≡ funct5_of word }
{
    field_at(word, 27, 5)
}

pub(crate) fn aq(word: u32) -> bool
    ensures exact { result ≡ aq_of word }
{
    field_at(word, 26, 1) == 1
}

pub(crate) fn rl(word: u32) -> bool
    ensures exact { result ≡ rl_of word }
{
    field_at(word, 25, 1) == 1
}
