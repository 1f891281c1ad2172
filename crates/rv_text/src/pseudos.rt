//! Which pseudoinstruction stands for an instruction.

ghost use Rattle.std.specs.Prelude.{◌≡◌, ◌≤◌};
ghost use Rattle.rv_text.specs.Standing.{StandsFor, place_of};
ghost use Rattle.rv_word.specs.declared.insn.Insn.TheVariants as insns;

use rv_word::{Alu, Insn, Reg, Test};

/// What a branch that compares a register with zero asks of it. `Le` and `Gt` have zero on the left.
#[derive(Clone, Copy, Debug, PartialEq, Eq)]
pub enum ZeroTest {
    Eq,
    Ne,
    Le,
    Ge,
    Lt,
    Gt,
}

/// An instruction as an assembler spells it: a pseudoinstruction where one stands for it (RISC-V unprivileged manual,
/// chapter 'RISC-V Assembly Programmer's Handbook'), and else the instruction itself. The order is that in which they are
/// tried.
#[derive(Clone, Copy, Debug, PartialEq, Eq)]
pub enum Pseudo {
    /// `addi x0, x0, 0`
    Nop,
    /// `addi rd, x0, imm`
    Li {
        rd: Reg,
        imm: i32,
    },
    /// `addi rd, rs, 0`
    Mv {
        rd: Reg,
        rs: Reg,
    },
    /// `xori rd, rs, -1`
    Not {
        rd: Reg,
        rs: Reg,
    },
    /// `andi rd, rs, 255`
    ZextB {
        rd: Reg,
        rs: Reg,
    },
    /// `sltiu rd, rs, 1`
    Seqz {
        rd: Reg,
        rs: Reg,
    },
    /// `sub rd, x0, rs`
    Neg {
        rd: Reg,
        rs: Reg,
    },
    /// `sltu rd, x0, rs`
    Snez {
        rd: Reg,
        rs: Reg,
    },
    /// `slt rd, rs, x0`
    Sltz {
        rd: Reg,
        rs: Reg,
    },
    /// `slt rd, x0, rs`
    Sgtz {
        rd: Reg,
        rs: Reg,
    },
    /// A branch that compares rs with x0: `beqz`, `bnez`, `bltz`, `bgez`, `blez`, `bgtz`.
    BranchZero {
        test: ZeroTest,
        rs: Reg,
        offset: i32,
    },
    /// `jal x0, offset`
    J {
        offset: i32,
    },
    /// `jal x1, offset`
    Call {
        offset: i32,
    },
    /// `jalr x0, 0(x1)`
    Ret,
    /// `jalr x0, offset(rs)`
    Jr {
        rs: Reg,
        offset: i32,
    },
    /// `jalr x1, offset(rs)`
    CallAt {
        rs: Reg,
        offset: i32,
    },
    /// The instruction itself.
    Plain {
        insn: Insn,
    },
}

impl Pseudo {
    /// What objdump writes for an instruction: of all that stand for it, the first in the order above.
    pub fn of(insn: Insn) -> Pseudo
        ensures stands { StandsFor result insn }
        ensures first { (other : Pseudo) → StandsFor other insn → place_of result ≤ place_of other }
    {
        match insn {
            Insn::OpImm { op, rd, rs1, imm } => of_immediate(op, rd, rs1, imm),
            Insn::Op { op, rd, rs1, rs2 } => of_registers(op, rd, rs1, rs2),
            Insn::Branch {
                test,
                rs1,
                rs2,
                offset,
            } => of_branch(test, rs1, rs2, offset),
            Insn::Jal { rd, offset } => of_jump(rd, offset),
            Insn::Jalr { rd, rs1, offset } => of_register_jump(rd, rs1, offset),
            _ => Pseudo::Plain { insn },
        }
    }
}

/// What stands for an operation with an immediate.
fn of_immediate(op: Alu, rd: Reg, rs1: Reg, imm: i32) -> Pseudo
    ensures stands { StandsFor result (insns.OpImm op rd rs1 imm) }
    ensures first { (other : Pseudo) → StandsFor other (insns.OpImm op rd rs1 imm) → place_of result ≤ place_of other }
{
    match (op, imm) {
        (Alu::Add, 0) if rd.number == 0 && rs1.number == 0 => Pseudo::Nop,
        (Alu::Add, _) if rs1.number == 0 => Pseudo::Li { rd, imm },
        (Alu::Add, 0) => Pseudo::Mv { rd, rs: rs1 },
        (Alu::Xor, -1) => Pseudo::Not { rd, rs: rs1 },
        (Alu::And, 255) => Pseudo::ZextB { rd, rs: rs1 },
        (Alu::Sltu, 1) => Pseudo::Seqz { rd, rs: rs1 },
        _ => Pseudo::Plain {
            insn: Insn::OpImm { op, rd, rs1, imm },
        },
    }
}

/// What stands for an operation on two registers.
fn of_registers(op: Alu, rd: Reg, rs1: Reg, rs2: Reg) -> Pseudo
    ensures stands { StandsFor result (insns.Op op rd rs1 rs2) }
    ensures first { (other : Pseudo) → StandsFor other (insns.Op op rd rs1 rs2) → place_of result ≤ place_of other }
{
    match op {
        Alu::Sub if rs1.number == 0 => Pseudo::Neg { rd, rs: rs2 },
        Alu::Sltu if rs1.number == 0 => Pseudo::Snez { rd, rs: rs2 },
        Alu::Slt if rs2.number == 0 => Pseudo::Sltz { rd, rs: rs1 },
        Alu::Slt if rs1.number == 0 => Pseudo::Sgtz { rd, rs: rs2 },
        _ => Pseudo::Plain {
            insn: Insn::Op { op, rd, rs1, rs2 },
        },
    }
}

/// What stands for a branch.
fn of_branch(test: Test, rs1: Reg, rs2: Reg, offset: i32) -> Pseudo
    ensures stands { StandsFor result (insns.Branch test rs1 rs2 offset) }
    ensures first { (other : Pseudo) → StandsFor other (insns.Branch test rs1 rs2 offset) → place_of result ≤ place_of other }
{
    let (zero_test, rs) = match test {
        Test::Eq if rs2.number == 0 => (ZeroTest::Eq, rs1),
        Test::Ne if rs2.number == 0 => (ZeroTest::Ne, rs1),
        Test::Lt if rs2.number == 0 => (ZeroTest::Lt, rs1),
        Test::Lt if rs1.number == 0 => (ZeroTest::Gt, rs2),
        Test::Ge if rs1.number == 0 => (ZeroTest::Le, rs2),
        Test::Ge if rs2.number == 0 => (ZeroTest::Ge, rs1),
        _ => {
            return Pseudo::Plain {
                insn: Insn::Branch {
                    test,
                    rs1,
                    rs2,
                    offset,
                },
            };
        }
    };
    Pseudo::BranchZero {
        test: zero_test,
        rs,
        offset,
    }
}

/// What stands for a jump by an offset.
fn of_jump(rd: Reg, offset: i32) -> Pseudo
    ensures stands { StandsFor result (insns.Jal rd offset) }
    ensures first { (other : Pseudo) → StandsFor other (insns.Jal rd offset) → place_of result ≤ place_of other }
{
    match rd.number {
        0 => Pseudo::J { offset },
        1 => Pseudo::Call { offset },
        _ => Pseudo::Plain {
            insn: Insn::Jal { rd, offset },
        },
    }
}

/// What stands for a jump to a register.
fn of_register_jump(rd: Reg, rs1: Reg, offset: i32) -> Pseudo
    ensures stands { StandsFor result (insns.Jalr rd rs1 offset) }
    ensures first { (other : Pseudo) → StandsFor other (insns.Jalr rd rs1 offset) → place_of result ≤ place_of other }
{
    match rd.number {
        0 if rs1.number == 1 && offset == 0 => Pseudo::Ret,
        0 => Pseudo::Jr { rs: rs1, offset },
        1 => Pseudo::CallAt { rs: rs1, offset },
        _ => Pseudo::Plain {
            insn: Insn::Jalr { rd, rs1, offset },
        },
    }
}
