ghost use Rattle.std.specs.Prelude.{◌≡◌, ◌≢◌, ℕ, ◌<◌, ◌^◌};
ghost use Rattle.rv_word.specs.Atomic.{IsAtomic};
ghost use Rattle.rv_word.specs.Meaning.{Means};
ghost use Rattle.rv_word.specs.Validity.{Valid, IsOpImmediate};

use crate::form::{atomic_form, b_form, i_form, j_form, r_form, s_form, shift_form, u_form};
use crate::insn::{Alu, Insn};
use crate::opcode::{AUIPC, BRANCH, JAL, JALR, LOAD, LUI, OP, OP_IMM, STORE};
use crate::reg::Reg;

/// The word that means the instruction. Of the many words that mean `Fence` it is `0x0ff0000f`,
/// which orders everything before it and everything after it.
pub fn encode(insn: Insn) -> u32
    requires { Valid insn }
    ensures means_it { Means result insn }
    ensures no_other_word_does { (w : ℕ) → w < 2 ^ 32 → Means w insn → insn ≢ Insn.Fence → w ≡ result }
    ensures fence { insn ≡ Insn.Fence → result ≡ 0x0ff0000f }
{
    match insn {
        Insn::Lui { rd, imm } => u_form(LUI, rd, imm),
        Insn::Auipc { rd, imm } => u_form(AUIPC, rd, imm),
        Insn::Jal { rd, offset } => j_form(JAL, rd, offset),
        Insn::Jalr { rd, rs1, offset } => i_form(JALR, rd, 0b000, rs1, offset),
        Insn::Branch {
            test,
            rs1,
            rs2,
            offset,
        } => b_form(BRANCH, test.code(), rs1, rs2, offset),
        Insn::Load {
            width,
            rd,
            rs1,
            offset,
        } => i_form(LOAD, rd, width.code(), rs1, offset),
        Insn::Store {
            width,
            rs1,
            rs2,
            offset,
        } => s_form(STORE, width.code(), rs1, rs2, offset),
        Insn::OpImm { op, rd, rs1, imm } => op_imm_word(op, rd, rs1, imm),
        Insn::Op { op, rd, rs1, rs2 } => op_word(op, rd, rs1, rs2),
        Insn::Fence => 0x0ff0_000f,
        Insn::Ecall => 0x0000_0073,
        Insn::Ebreak => 0x0010_0073,
        Insn::Lr { .. } | Insn::Sc { .. } | Insn::Amo { .. } => atomic_word(insn),
    }
}

/// The word of an instruction of the A extension.
fn atomic_word(insn: Insn) -> u32
    requires { IsAtomic insn }
    ensures means_it { Means result insn }
    ensures only { (w : ℕ) → w < 2 ^ 32 → Means w insn → w ≡ result }
{
    match insn {
        Insn::Lr { rd, rs1, aq, rl } => atomic_form(rd, rs1, Reg { number: 0 }, 0b00010, aq, rl),
        Insn::Sc {
            rd,
            rs1,
            rs2,
            aq,
            rl,
        } => atomic_form(rd, rs1, rs2, 0b00011, aq, rl),
        Insn::Amo {
            op,
            rd,
            rs1,
            rs2,
            aq,
            rl,
        } => atomic_form(rd, rs1, rs2, op.code(), aq, rl),
        _ => unreachable!(),
    }
}

fn op_imm_word(op: Alu, rd: Reg, rs1: Reg, imm: i32) -> u32
    requires { IsOpImmediate op imm }
    ensures means_it { Means result (Insn.OpImm op rd rs1 imm) }
    ensures only { (w : ℕ) → w < 2 ^ 32 → Means w (Insn.OpImm op rd rs1 imm) → w ≡ result }
{
    match op {
        Alu::Add => i_form(OP_IMM, rd, 0b000, rs1, imm),
        Alu::Sll => shift_form(rd, 0b001, rs1, imm, 0b0000000),
        Alu::Slt => i_form(OP_IMM, rd, 0b010, rs1, imm),
        Alu::Sltu => i_form(OP_IMM, rd, 0b011, rs1, imm),
        Alu::Xor => i_form(OP_IMM, rd, 0b100, rs1, imm),
        Alu::Srl => shift_form(rd, 0b101, rs1, imm, 0b0000000),
        Alu::Sra => shift_form(rd, 0b101, rs1, imm, 0b0100000),
        Alu::Or => i_form(OP_IMM, rd, 0b110, rs1, imm),
        Alu::And => i_form(OP_IMM, rd, 0b111, rs1, imm),
        _ => unreachable!(),
    }
}

fn op_word(op: Alu, rd: Reg, rs1: Reg, rs2: Reg) -> u32
    ensures means_it { Means result (Insn.Op op rd rs1 rs2) }
    ensures only { (w : ℕ) → w < 2 ^ 32 → Means w (Insn.Op op rd rs1 rs2) → w ≡ result }
{
    match op {
        Alu::Add => r_form(OP, rd, 0b000, rs1, rs2, 0b0000000),
        Alu::Sub => r_form(OP, rd, 0b000, rs1, rs2, 0b0100000),
        Alu::Sll => r_form(OP, rd, 0b001, rs1, rs2, 0b0000000),
        Alu::Slt => r_form(OP, rd, 0b010, rs1, rs2, 0b0000000),
        Alu::Sltu => r_form(OP, rd, 0b011, rs1, rs2, 0b0000000),
        Alu::Xor => r_form(OP, rd, 0b100, rs1, rs2, 0b0000000),
        Alu::Srl => r_form(OP, rd, 0b101, rs1, rs2, 0b0000000),
        Alu::Sra => r_form(OP, rd, 0b101, rs1, rs2, 0b0100000),
        Alu::Or => r_form(OP, rd, 0b110, rs1, rs2, 0b0000000),
        Alu::And => r_form(OP, rd, 0b111, rs1, rs2, 0b0000000),
        Alu::Mul => r_form(OP, rd, 0b000, rs1, rs2, 0b0000001),
        Alu::Mulh => r_form(OP, rd, 0b001, rs1, rs2, 0b0000001),
        Alu::Mulhsu => r_form(OP, rd, 0b010, rs1, rs2, 0b0000001),
        Alu::Mulhu => r_form(OP, rd, 0b011, rs1, rs2, 0b0000001),
        Alu::Div => r_form(OP, rd, 0b100, rs1, rs2, 0b0000001),
        Alu::Divu => r_form(OP, rd, 0b101, rs1, rs2, 0b0000001),
        Alu::Rem => r_form(OP, rd, 0b110, rs1, rs2, 0b0000001),
        Alu::Remu => r_form(OP, rd, 0b111, rs1, rs2, 0b0000001),
    }
}
