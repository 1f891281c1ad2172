//! Instructions by the names that assemblers give them, with their operands in the same order.

ghost use Rattle.std.specs.Prelude.{◌≡◌, ◌%◌, ◌^◌, pos, ◌≤ℤ◌, ◌<ℤ◌};
ghost use Rattle.rv_word.specs.Validity.{FitsSignedBits};
ghost use Rattle.workload.specs.Mnemonics as mnemonics;

use crate::registers::Register;
use rv_word::{Alu, AmoOp, Insn, LoadWidth, StoreWidth};

pub fn lui(rd: Register, imm: u32) -> Insn
    requires { imm % 2 ^ 12 ≡ 0 }
    ensures { result ≡ mnemonics.lui rd imm }
{
    Insn::Lui { rd: rd.reg(), imm }
}

pub fn addi(rd: Register, rs1: Register, imm: i32) -> Insn
    requires { FitsSignedBits 12 imm }
    ensures { result ≡ mnemonics.addi rd rs1 imm }
{
    Insn::OpImm {
        op: Alu::Add,
        rd: rd.reg(),
        rs1: rs1.reg(),
        imm,
    }
}

pub fn andi(rd: Register, rs1: Register, imm: i32) -> Insn
    requires { FitsSignedBits 12 imm }
    ensures { result ≡ mnemonics.andi rd rs1 imm }
{
    Insn::OpImm {
        op: Alu::And,
        rd: rd.reg(),
        rs1: rs1.reg(),
        imm,
    }
}

pub fn sltiu(rd: Register, rs1: Register, imm: i32) -> Insn
    requires { FitsSignedBits 12 imm }
    ensures { result ≡ mnemonics.sltiu rd rs1 imm }
{
    Insn::OpImm {
        op: Alu::Sltu,
        rd: rd.reg(),
        rs1: rs1.reg(),
        imm,
    }
}

pub fn slli(rd: Register, rs1: Register, imm: i32) -> Insn
    requires { (pos 0 ≤ℤ imm) × (imm <ℤ pos 32) }
    ensures { result ≡ mnemonics.slli rd rs1 imm }
{
    Insn::OpImm {
        op: Alu::Sll,
        rd: rd.reg(),
        rs1: rs1.reg(),
        imm,
    }
}

pub fn srli(rd: Register, rs1: Register, imm: i32) -> Insn
    requires { (pos 0 ≤ℤ imm) × (imm <ℤ pos 32) }
    ensures { result ≡ mnemonics.srli rd rs1 imm }
{
    Insn::OpImm {
        op: Alu::Srl,
        rd: rd.reg(),
        rs1: rs1.reg(),
        imm,
    }
}

pub fn add(rd: Register, rs1: Register, rs2: Register) -> Insn
    ensures { result ≡ mnemonics.add rd rs1 rs2 }
{
    Insn::Op {
        op: Alu::Add,
        rd: rd.reg(),
        rs1: rs1.reg(),
        rs2: rs2.reg(),
    }
}

pub fn xor(rd: Register, rs1: Register, rs2: Register) -> Insn
    ensures { result ≡ mnemonics.xor rd rs1 rs2 }
{
    Insn::Op {
        op: Alu::Xor,
        rd: rd.reg(),
        rs1: rs1.reg(),
        rs2: rs2.reg(),
    }
}

pub fn lw(rd: Register, offset: i32, rs1: Register) -> Insn
    requires { FitsSignedBits 12 offset }
    ensures { result ≡ mnemonics.lw rd offset rs1 }
{
    Insn::Load {
        width: LoadWidth::Word,
        rd: rd.reg(),
        rs1: rs1.reg(),
        offset,
    }
}

pub fn lbu(rd: Register, offset: i32, rs1: Register) -> Insn
    requires { FitsSignedBits 12 offset }
    ensures { result ≡ mnemonics.lbu rd offset rs1 }
{
    Insn::Load {
        width: LoadWidth::ByteU,
        rd: rd.reg(),
        rs1: rs1.reg(),
        offset,
    }
}

pub fn sw(rs2: Register, offset: i32, rs1: Register) -> Insn
    requires { FitsSignedBits 12 offset }
    ensures { result ≡ mnemonics.sw rs2 offset rs1 }
{
    Insn::Store {
        width: StoreWidth::Word,
        rs1: rs1.reg(),
        rs2: rs2.reg(),
        offset,
    }
}

pub fn sb(rs2: Register, offset: i32, rs1: Register) -> Insn
    requires { FitsSignedBits 12 offset }
    ensures { result ≡ mnemonics.sb rs2 offset rs1 }
{
    Insn::Store {
        width: StoreWidth::Byte,
        rs1: rs1.reg(),
        rs2: rs2.reg(),
        offset,
    }
}

pub fn lr_w(rd: Register, rs1: Register) -> Insn
    ensures { result ≡ mnemonics.lr_w rd rs1 }
{
    Insn::Lr {
        rd: rd.reg(),
        rs1: rs1.reg(),
        aq: false,
        rl: false,
    }
}

pub fn sc_w(rd: Register, rs2: Register, rs1: Register) -> Insn
    ensures { result ≡ mnemonics.sc_w rd rs2 rs1 }
{
    Insn::Sc {
        rd: rd.reg(),
        rs1: rs1.reg(),
        rs2: rs2.reg(),
        aq: false,
        rl: false,
    }
}

pub fn amoswap_w_aq(rd: Register, rs2: Register, rs1: Register) -> Insn
    ensures { result ≡ mnemonics.amoswap_w_aq rd rs2 rs1 }
{
    Insn::Amo {
        op: AmoOp::Swap,
        rd: rd.reg(),
        rs1: rs1.reg(),
        rs2: rs2.reg(),
        aq: true,
        rl: false,
    }
}

pub fn amoswap_w_rl(rd: Register, rs2: Register, rs1: Register) -> Insn
    ensures { result ≡ mnemonics.amoswap_w_rl rd rs2 rs1 }
{
    Insn::Amo {
        op: AmoOp::Swap,
        rd: rd.reg(),
        rs1: rs1.reg(),
        rs2: rs2.reg(),
        aq: false,
        rl: true,
    }
}

pub fn amoadd_w_rl(rd: Register, rs2: Register, rs1: Register) -> Insn
    ensures { result ≡ mnemonics.amoadd_w_rl rd rs2 rs1 }
{
    Insn::Amo {
        op: AmoOp::Add,
        rd: rd.reg(),
        rs1: rs1.reg(),
        rs2: rs2.reg(),
        aq: false,
        rl: true,
    }
}
