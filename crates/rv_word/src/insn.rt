use crate::reg::Reg;

/// What an integer instruction computes (RISC-V unprivileged manual, chapter 2, 'Integer
/// Computational Instructions', and from `Mul` on the chapter 'M Standard Extension for Integer
/// Multiplication and Division'). `Op` has all of them; `OpImm` has no `Sub`, no multiplication and
/// no division.
#[derive(Clone, Copy, Debug, PartialEq, Eq)]
pub enum Alu {
    Add,
    Sub,
    Sll,
    Slt,
    Sltu,
    Xor,
    Srl,
    Sra,
    Or,
    And,
    Mul,
    Mulh,
    Mulhsu,
    Mulhu,
    Div,
    Divu,
    Rem,
    Remu,
}

/// What a conditional branch compares (chapter 2, 'Conditional Branches'). `Lt` and `Ge` compare
/// signed, `Ltu` and `Geu` unsigned.
#[derive(Clone, Copy, Debug, PartialEq, Eq)]
pub enum Test {
    Eq,
    Ne,
    Lt,
    Ge,
    Ltu,
    Geu,
}

/// How much a load reads, and whether it extends by zeros, as `ByteU` and `HalfU` do, or by the
/// sign (chapter 2, 'Load and Store Instructions').
#[derive(Clone, Copy, Debug, PartialEq, Eq)]
pub enum LoadWidth {
    Byte,
    Half,
    Word,
    ByteU,
    HalfU,
}

/// How much a store writes (chapter 2, 'Load and Store Instructions').
#[derive(Clone, Copy, Debug, PartialEq, Eq)]
pub enum StoreWidth {
    Byte,
    Half,
    Word,
}

/// What an atomic memory operation computes (chapter 'A Standard Extension for Atomic
/// Instructions'). `Min` and `Max` compare signed, `Minu` and `Maxu` unsigned.
#[derive(Clone, Copy, Debug, PartialEq, Eq)]
pub enum AmoOp {
    Swap,
    Add,
    Xor,
    And,
    Or,
    Min,
    Max,
    Minu,
    Maxu,
}

/// An instruction of RV32I or of its M or A extension, with the fields of its word (RISC-V
/// unprivileged manual, chapter 2 and the chapters on these extensions; that all fences are one is
/// this project's profile). A branch's or jump's `offset` is in bytes from the instruction's own
/// address; that of `Jalr`, of a load and of a store is in bytes from rs1.
#[derive(Clone, Copy, Debug, PartialEq, Eq)]
pub enum Insn {
    /// `imm` is the word that goes to rd, a multiple of 4096.
    Lui {
        rd: Reg,
        imm: u32,
    },
    /// `imm` is added to the instruction's address, a multiple of 4096.
    Auipc {
        rd: Reg,
        imm: u32,
    },
    /// `offset` is even, from -1048576 to 1048574.
    Jal {
        rd: Reg,
        offset: i32,
    },
    /// `offset` is from -2048 to 2047.
    Jalr {
        rd: Reg,
        rs1: Reg,
        offset: i32,
    },
    /// `offset` is even, from -4096 to 4094.
    Branch {
        test: Test,
        rs1: Reg,
        rs2: Reg,
        offset: i32,
    },
    /// `offset` is from -2048 to 2047.
    Load {
        width: LoadWidth,
        rd: Reg,
        rs1: Reg,
        offset: i32,
    },
    /// `offset` is from -2048 to 2047.
    Store {
        width: StoreWidth,
        rs1: Reg,
        rs2: Reg,
        offset: i32,
    },
    /// `imm` is from -2048 to 2047, and from 0 to 31 where `op` is a shift. `op` is none of `Sub`,
    /// the multiplications and the divisions.
    OpImm {
        op: Alu,
        rd: Reg,
        rs1: Reg,
        imm: i32,
    },
    Op {
        op: Alu,
        rd: Reg,
        rs1: Reg,
        rs2: Reg,
    },
    /// Any fence, whatever it orders.
    Fence,
    Ecall,
    Ebreak,
    /// `aq` and `rl` are the acquire and release bits.
    Lr {
        rd: Reg,
        rs1: Reg,
        aq: bool,
        rl: bool,
    },
    Sc {
        rd: Reg,
        rs1: Reg,
        rs2: Reg,
        aq: bool,
        rl: bool,
    },
    Amo {
        op: AmoOp,
        rd: Reg,
        rs1: Reg,
        rs2: Reg,
        aq: bool,
        rl: bool,
    },
}
