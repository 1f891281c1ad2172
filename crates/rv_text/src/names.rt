//! The words that an instruction is written with.

ghost use Rattle.std.specs.Prelude.{◌≡◌};
ghost use Rattle.rv_text.specs.Mnemonics as names;

use crate::pseudos::ZeroTest;
use rv_word::{Alu, AmoOp, LoadWidth, Reg, StoreWidth, Test};

/// The names of the registers x0 to x31 (RISC-V ELF psABI, 'Register Convention').
const ABI_NAMES: [&str; 32] = [
    "zero", "ra", "sp", "gp", "tp", "t0", "t1", "t2", "s0", "s1", "a0", "a1", "a2", "a3", "a4",
    "a5", "a6", "a7", "s2", "s3", "s4", "s5", "s6", "s7", "s8", "s9", "s10", "s11", "t3", "t4",
    "t5", "t6",
];

/// The ABI name of a register.
pub fn abi_name(reg: Reg) -> &'static str {
    ABI_NAMES[reg.number as usize]
}

/// The name of an operation. One with an immediate has the same.
pub(crate) fn alu_name(op: Alu) -> &'static str
    ensures { result.now ≡ names.alu_name op }
{
    match op {
        Alu::Add => "add",
        Alu::Sub => "sub",
        Alu::Sll => "sll",
        Alu::Slt => "slt",
        Alu::Sltu => "sltu",
        Alu::Xor => "xor",
        Alu::Srl => "srl",
        Alu::Sra => "sra",
        Alu::Or => "or",
        Alu::And => "and",
        Alu::Mul => "mul",
        Alu::Mulh => "mulh",
        Alu::Mulhsu => "mulhsu",
        Alu::Mulhu => "mulhu",
        Alu::Div => "div",
        Alu::Divu => "divu",
        Alu::Rem => "rem",
        Alu::Remu => "remu",
    }
}

/// The name of an operation with an immediate: the short name, but for the comparisons.
pub(crate) fn alu_immediate_name(op: Alu) -> &'static str
    ensures { result.now ≡ names.alu_immediate_name op }
{
    match op {
        Alu::Slt => "slti",
        Alu::Sltu => "sltiu",
        _ => alu_name(op),
    }
}

pub(crate) fn is_shift(op: Alu) -> bool {
    matches!(op, Alu::Sll | Alu::Srl | Alu::Sra)
}

pub(crate) fn test_name(test: Test) -> &'static str
    ensures { result.now ≡ names.test_name test }
{
    match test {
        Test::Eq => "beq",
        Test::Ne => "bne",
        Test::Lt => "blt",
        Test::Ge => "bge",
        Test::Ltu => "bltu",
        Test::Geu => "bgeu",
    }
}

pub(crate) fn zero_test_name(test: ZeroTest) -> &'static str
    ensures { result.now ≡ names.zero_test_name test }
{
    match test {
        ZeroTest::Eq => "beqz",
        ZeroTest::Ne => "bnez",
        ZeroTest::Le => "blez",
        ZeroTest::Ge => "bgez",
        ZeroTest::Lt => "bltz",
        ZeroTest::Gt => "bgtz",
    }
}

pub(crate) fn load_name(width: LoadWidth) -> &'static str
    ensures { result.now ≡ names.load_name width }
{
    match width {
        LoadWidth::Byte => "lb",
        LoadWidth::Half => "lh",
        LoadWidth::Word => "lw",
        LoadWidth::ByteU => "lbu",
        LoadWidth::HalfU => "lhu",
    }
}

pub(crate) fn store_name(width: StoreWidth) -> &'static str
    ensures { result.now ≡ names.store_name width }
{
    match width {
        StoreWidth::Byte => "sb",
        StoreWidth::Half => "sh",
        StoreWidth::Word => "sw",
    }
}

pub(crate) fn amo_name(op: AmoOp) -> &'static str
    ensures { result.now ≡ names.amo_name op }
{
    match op {
        AmoOp::Swap => "amoswap.w",
        AmoOp::Add => "amoadd.w",
        AmoOp::Xor => "amoxor.w",
        AmoOp::And => "amoand.w",
        AmoOp::Or => "amoor.w",
        AmoOp::Min => "amomin.w",
        AmoOp::Max => "amomax.w",
        AmoOp::Minu => "amominu.w",
        AmoOp::Maxu => "amomaxu.w",
    }
}

/// What stands behind an atomic's name for its acquire and release bits.
pub(crate) fn ordering_name(aq: bool, rl: bool) -> &'static str {
    match (aq, rl) {
        (false, false) => "",
        (false, true) => ".rl",
        (true, false) => ".aq",
        (true, true) => ".aqrl",
    }
}
