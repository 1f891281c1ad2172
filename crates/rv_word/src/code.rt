//! The code of each operation, as it stands in funct3, funct5 or funct7.
ghost use Rattle.std.specs.Prelude.{◌≡◌, ◌<◌, ◌^◌, ◌↔◌, IsTrue, Some};
ghost use Rattle.rv_word.specs.Arithmetic.{is_op_row, op_at, is_op_imm_row, op_imm_at};
ghost use Rattle.rv_word.specs.Comparison.{test_code, test_at};
ghost use Rattle.rv_word.specs.Load.{load_code, load_width_at};
ghost use Rattle.rv_word.specs.Store.{store_code, store_width_at};
ghost use Rattle.rv_word.specs.Atomic.{amo_code, amo_at};
ghost use Rattle.rv_word.specs.declared.insn.Alu.{Alu};
ghost use Rattle.rv_word.specs.declared.insn.AmoOp.{AmoOp};
ghost use Rattle.rv_word.specs.declared.insn.LoadWidth.{LoadWidth};
ghost use Rattle.rv_word.specs.declared.insn.StoreWidth.{StoreWidth};
ghost use Rattle.rv_word.specs.declared.insn.Test.{Test};

use crate::field::{funct3, funct7};
use crate::insn::{Alu, AmoOp, LoadWidth, StoreWidth, Test};

impl Test {
    #[tactic(auto, unfolding(crate::specs::Comparison::test_at))]
    pub(crate) fn from_code(code: u32) -> Option<Test>
        ensures has_that_row { (test : Test) → (result ≡ Some test) ↔ (code ≡ test_code test) }
        ensures exact { result ≡ test_at code }
    {
        match code {
            0b000 => Some(Test::Eq),
            0b001 => Some(Test::Ne),
            0b100 => Some(Test::Lt),
            0b101 => Some(Test::Ge),
            0b110 => Some(Test::Ltu),
            0b111 => Some(Test::Geu),
            _ => None,
        }
    }

    /// funct3 of a branch that makes this test.
    pub(crate) fn code(self) -> u32
        ensures exact { result ≡ test_code self }
        ensures in_range { result < 2 ^ 3 }
    {
        match self {
            Test::Eq => 0b000,
            Test::Ne => 0b001,
            Test::Lt => 0b100,
            Test::Ge => 0b101,
            Test::Ltu => 0b110,
            Test::Geu => 0b111,
        }
    }
}

impl LoadWidth {
    #[tactic(auto, unfolding(crate::specs::Load::load_width_at))]
    pub(crate) fn from_code(code: u32) -> Option<LoadWidth>
        ensures has_that_row { (width : LoadWidth) → (result ≡ Some width) ↔ (code ≡ load_code width) }
        ensures exact { result ≡ load_width_at code }
    {
        match code {
            0b000 => Some(LoadWidth::Byte),
            0b001 => Some(LoadWidth::Half),
            0b010 => Some(LoadWidth::Word),
            0b100 => Some(LoadWidth::ByteU),
            0b101 => Some(LoadWidth::HalfU),
            _ => None,
        }
    }

    /// funct3 of a load of this width.
    pub(crate) fn code(self) -> u32
        ensures exact { result ≡ load_code self }
        ensures in_range { result < 2 ^ 3 }
    {
        match self {
            LoadWidth::Byte => 0b000,
            LoadWidth::Half => 0b001,
            LoadWidth::Word => 0b010,
            LoadWidth::ByteU => 0b100,
            LoadWidth::HalfU => 0b101,
        }
    }
}

impl StoreWidth {
    #[tactic(auto, unfolding(crate::specs::Store::store_width_at))]
    pub(crate) fn from_code(code: u32) -> Option<StoreWidth>
        ensures has_that_row { (width : StoreWidth) → (result ≡ Some width) ↔ (code ≡ store_code width) }
        ensures exact { result ≡ store_width_at code }
    {
        match code {
            0b000 => Some(StoreWidth::Byte),
            0b001 => Some(StoreWidth::Half),
            0b010 => Some(StoreWidth::Word),
            _ => None,
        }
    }

    /// funct3 of a store of this width.
    pub(crate) fn code(self) -> u32
        ensures exact { result ≡ store_code self }
        ensures in_range { result < 2 ^ 3 }
    {
        match self {
            StoreWidth::Byte => 0b000,
            StoreWidth::Half => 0b001,
            StoreWidth::Word => 0b010,
        }
    }
}

impl AmoOp {
    #[tactic(auto, unfolding(crate::specs::Atomic::amo_at))]
    pub(crate) fn from_code(code: u32) -> Option<AmoOp>
        ensures has_that_row { (op : AmoOp) → (result ≡ Some op) ↔ (code ≡ amo_code op) }
        ensures exact { result ≡ amo_at code }
    {
        match code {
            0b00001 => Some(AmoOp::Swap),
            0b00000 => Some(AmoOp::Add),
            0b00100 => Some(AmoOp::Xor),
            0b01100 => Some(AmoOp::And),
            0b01000 => Some(AmoOp::Or),
            0b10000 => Some(AmoOp::Min),
            0b10100 => Some(AmoOp::Max),
            0b11000 => Some(AmoOp::Minu),
            0b11100 => Some(AmoOp::Maxu),
            _ => None,
        }
    }

    /// funct5 of an atomic memory operation.
    pub(crate) fn code(self) -> u32
        ensures exact { result ≡ amo_code self }
        ensures in_range { result < 2 ^ 5 }
    {
        match self {
            AmoOp::Swap => 0b00001,
            AmoOp::Add => 0b00000,
            AmoOp::Xor => 0b00100,
            AmoOp::And => 0b01100,
            AmoOp::Or => 0b01000,
            AmoOp::Min => 0b10000,
            AmoOp::Max => 0b10100,
            AmoOp::Minu => 0b11000,
            AmoOp::Maxu => 0b11100,
        }
    }
}

impl Alu {
    #[tactic(auto, unfolding(crate::specs::Arithmetic::op_at))]
    pub(crate) fn from_op(word: u32) -> Option<Alu>
        ensures has_that_row { (op : Alu) → (result ≡ Some op) ↔ IsTrue (is_op_row word op) }
        ensures exact { result ≡ op_at word }
    {
        match (funct3(word), funct7(word)) {
            (0b000, 0b0000000) => Some(Alu::Add),
            (0b000, 0b0100000) => Some(Alu::Sub),
            (0b001, 0b0000000) => Some(Alu::Sll),
            (0b010, 0b0000000) => Some(Alu::Slt),
            (0b011, 0b0000000) => Some(Alu::Sltu),
            (0b100, 0b0000000) => Some(Alu::Xor),
            (0b101, 0b0000000) => Some(Alu::Srl),
            (0b101, 0b0100000) => Some(Alu::Sra),
            (0b110, 0b0000000) => Some(Alu::Or),
            (0b111, 0b0000000) => Some(Alu::And),
            (0b000, 0b0000001) => Some(Alu::Mul),
            (0b001, 0b0000001) => Some(Alu::Mulh),
            (0b010, 0b0000001) => Some(Alu::Mulhsu),
            (0b011, 0b0000001) => Some(Alu::Mulhu),
            (0b100, 0b0000001) => Some(Alu::Div),
            (0b101, 0b0000001) => Some(Alu::Divu),
            (0b110, 0b0000001) => Some(Alu::Rem),
            (0b111, 0b0000001) => Some(Alu::Remu),
            _ => None,
        }
    }

    #[tactic(auto, unfolding(crate::specs::Arithmetic::op_imm_at))]
    pub(crate) fn from_op_imm(word: u32) -> Option<Alu>
        ensures has_that_row { (op : Alu) → (result ≡ Some op) ↔ IsTrue (is_op_imm_row word op) }
        ensures exact { result ≡ op_imm_at word }
    {
        match funct3(word) {
            0b000 => Some(Alu::Add),
            0b001 if funct7(word) == 0b0000000 => Some(Alu::Sll),
            0b010 => Some(Alu::Slt),
            0b011 => Some(Alu::Sltu),
            0b100 => Some(Alu::Xor),
            0b101 if funct7(word) == 0b0000000 => Some(Alu::Srl),
            0b101 if funct7(word) == 0b0100000 => Some(Alu::Sra),
            0b110 => Some(Alu::Or),
            0b111 => Some(Alu::And),
            _ => None,
        }
    }
}
