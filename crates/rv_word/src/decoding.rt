ghost use Rattle.std.specs.Prelude.{◌≡◌, ◌↔◌, Some, IfSome};
ghost use Rattle.rv_word.specs.Field.{opcode_of, funct3_of};
ghost use Rattle.rv_word.specs.Meaning.{Means};
ghost use Rattle.rv_word.specs.Decoding.{decoded};
ghost use Rattle.rv_word.specs.Validity.{Valid};
ghost use Rattle.rv_word.specs.declared.insn.Insn.{Insn};

use crate::field::{aq, funct3, funct5, opcode, rd, rl, rs1, rs2};
use crate::immediate::{
    b_immediate, i_immediate, j_immediate, op_immediate_of, s_immediate, u_immediate,
};
use crate::insn::{Alu, AmoOp, Insn, LoadWidth, StoreWidth, Test};
use crate::opcode::{
    AMO, AUIPC, BRANCH, JAL, JALR, LOAD, LUI, MISC_MEM, OP, OP_IMM, STORE, SYSTEM,
};

/// The instruction that the word means, or none where it means none (RISC-V unprivileged manual,
/// chapter 'RV32/64G Instruction Set Listings', RV32I, RV32M and RV32A). A `FENCE` is one whatever its
/// other fields; a `FENCE.I`, a CSR instruction and a compressed one are none.
#[tactic(auto, using(crate::proofs::Meanings::one_meaning), unfolding(crate::specs::Decoding::decoded))]
pub fn decode(word: u32) -> Option<Insn>
    ensures is_the_meaning { (insn : Insn) → (result ≡ Some insn) ↔ Means word insn }
    ensures no_two_meanings { (insn other : Insn) → Means word insn → Means word other → insn ≡ other }
    ensures exact { result ≡ decoded word }
    ensures valid { IfSome result (λ insn. Valid insn) }
{
    match opcode(word) {
        LUI => Some(Insn::Lui {
            rd: rd(word),
            imm: u_immediate(word),
        }),
        AUIPC => Some(Insn::Auipc {
            rd: rd(word),
            imm: u_immediate(word),
        }),
        JAL => Some(Insn::Jal {
            rd: rd(word),
            offset: j_immediate(word),
        }),
        JALR if funct3(word) == 0b000 => Some(Insn::Jalr {
            rd: rd(word),
            rs1: rs1(word),
            offset: i_immediate(word),
        }),
        BRANCH => branch(word),
        LOAD => load(word),
        STORE => store(word),
        OP_IMM => op_imm(word),
        OP => op(word),
        MISC_MEM if funct3(word) == 0b000 => Some(Insn::Fence),
        SYSTEM if word == 0x0000_0073 => Some(Insn::Ecall),
        SYSTEM if word == 0x0010_0073 => Some(Insn::Ebreak),
        AMO if funct3(word) == 0b010 => atomic(word),
        _ => None,
    }
}

/// A word of opcode BRANCH, by funct3.
#[tactic(auto, unfolding(crate::specs::Decoding::decoded))]
fn branch(word: u32) -> Option<Insn>
    requires { opcode_of word ≡ 0b1100011 }
    ensures is_the_meaning { (insn : Insn) → (result ≡ Some insn) ↔ Means word insn }
    ensures exact { result ≡ decoded word }
    ensures valid { IfSome result (λ insn. Valid insn) }
{
    Some(Insn::Branch {
        test: Test::from_code(funct3(word))?,
        rs1: rs1(word),
        rs2: rs2(word),
        offset: b_immediate(word),
    })
}

/// A word of opcode LOAD, by funct3.
#[tactic(auto, unfolding(crate::specs::Decoding::decoded))]
fn load(word: u32) -> Option<Insn>
    requires { opcode_of word ≡ 0b0000011 }
    ensures is_the_meaning { (insn : Insn) → (result ≡ Some insn) ↔ Means word insn }
    ensures exact { result ≡ decoded word }
    ensures valid { IfSome result (λ insn. Valid insn) }
{
    Some(Insn::Load {
        width: LoadWidth::from_code(funct3(word))?,
        rd: rd(word),
        rs1: rs1(word),
        offset: i_immediate(word),
    })
}

/// A word of opcode STORE, by funct3.
#[tactic(auto, unfolding(crate::specs::Decoding::decoded))]
fn store(word: u32) -> Option<Insn>
    requires { opcode_of word ≡ 0b0100011 }
    ensures is_the_meaning { (insn : Insn) → (result ≡ Some insn) ↔ Means word insn }
    ensures exact { result ≡ decoded word }
    ensures valid { IfSome result (λ insn. Valid insn) }
{
    Some(Insn::Store {
        width: StoreWidth::from_code(funct3(word))?,
        rs1: rs1(word),
        rs2: rs2(word),
        offset: s_immediate(word),
    })
}

/// A word of opcode OP-IMM, by funct3 and, at a shift, funct7.
#[tactic(auto, unfolding(crate::specs::Decoding::decoded))]
fn op_imm(word: u32) -> Option<Insn>
    requires { opcode_of word ≡ 0b0010011 }
    ensures is_the_meaning { (insn : Insn) → (result ≡ Some insn) ↔ Means word insn }
    ensures exact { result ≡ decoded word }
    ensures valid { IfSome result (λ insn. Valid insn) }
{
    let op = Alu::from_op_imm(word)?;
    Some(Insn::OpImm {
        op,
        rd: rd(word),
        rs1: rs1(word),
        imm: op_immediate_of(word, op),
    })
}

/// A word of opcode OP, by funct3 and funct7.
#[tactic(auto, unfolding(crate::specs::Decoding::decoded))]
fn op(word: u32) -> Option<Insn>
    requires { opcode_of word ≡ 0b0110011 }
    ensures is_the_meaning { (insn : Insn) → (result ≡ Some insn) ↔ Means word insn }
    ensures exact { result ≡ decoded word }
    ensures valid { IfSome result (λ insn. Valid insn) }
{
    Some(Insn::Op {
        op: Alu::from_op(word)?,
        rd: rd(word),
        rs1: rs1(word),
        rs2: rs2(word),
    })
}

/// A word of opcode AMO on 32-bit words, by funct5.
#[tactic(auto, unfolding(crate::specs::Decoding::decoded))]
fn atomic(word: u32) -> Option<Insn>
    requires opcode_is_amo { opcode_of word ≡ 0b0101111 }
    requires of_words { funct3_of word ≡ 0b010 }
    ensures is_the_meaning { (insn : Insn) → (result ≡ Some insn) ↔ Means word insn }
    ensures exact { result ≡ decoded word }
    ensures valid { IfSome result (λ insn. Valid insn) }
{
    let insn = match funct5(word) {
        0b00010 if rs2(word).number == 0 => Insn::Lr {
            rd: rd(word),
            rs1: rs1(word),
            aq: aq(word),
            rl: rl(word),
        },
        0b00010 => return None,
        0b00011 => Insn::Sc {
            rd: rd(word),
            rs1: rs1(word),
            rs2: rs2(word),
            aq: aq(word),
            rl: rl(word),
        },
        code => Insn::Amo {
            op: AmoOp::from_code(code)?,
            rd: rd(word),
            rs1: rs1(word),
            rs2: rs2(word),
            aq: aq(word),
            rl: rl(word),
        },
    };
    Some(insn)
}
