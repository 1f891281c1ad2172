//! Words as text.

use crate::names::{
    abi_name, alu_immediate_name, alu_name, amo_name, is_shift, load_name, ordering_name,
    store_name, test_name, zero_test_name,
};
use crate::pseudos::Pseudo;
use crate::targets::{moved, target};
use rv_word::{Insn, Reg, decode};
use std::fmt;

/// The text of the word at an address. A word that is no instruction of RV32I or its M or A extension is written as four
/// bytes of data.
#[derive(Clone, Copy, Debug, PartialEq, Eq)]
pub struct Text {
    pub word: u32,
    pub address: u32,
}

impl fmt::Display for Text {
    fn fmt<W: fmt::Write>(&self, f: &mut fmt::Formatter<W>) -> fmt::Result {
        match decode(self.word) {
            Some(Insn::Fence) => write_fence(f, self.word),
            Some(insn) => write_pseudo(f, Pseudo::of(insn), self.address),
            None => {
                let word = self.word;
                write!(f, ".4byte 0x{word:x}")
            }
        }
    }
}

fn write_pseudo<W: fmt::Write>(
    f: &mut fmt::Formatter<W>,
    pseudo: Pseudo,
    address: u32,
) -> fmt::Result {
    match pseudo {
        Pseudo::Nop => f.write_str("nop"),
        Pseudo::Ret => f.write_str("ret"),
        Pseudo::Li { rd, imm } => {
            let rd = abi_name(rd);
            write!(f, "li {rd},{imm}")
        }
        Pseudo::Mv { rd, rs } => write_two(f, "mv", rd, rs),
        Pseudo::Not { rd, rs } => write_two(f, "not", rd, rs),
        Pseudo::ZextB { rd, rs } => write_two(f, "zext.b", rd, rs),
        Pseudo::Seqz { rd, rs } => write_two(f, "seqz", rd, rs),
        Pseudo::Neg { rd, rs } => write_two(f, "neg", rd, rs),
        Pseudo::Snez { rd, rs } => write_two(f, "snez", rd, rs),
        Pseudo::Sltz { rd, rs } => write_two(f, "sltz", rd, rs),
        Pseudo::Sgtz { rd, rs } => write_two(f, "sgtz", rd, rs),
        Pseudo::BranchZero { test, rs, offset } => {
            let name = zero_test_name(test);
            let rs = abi_name(rs);
            write!(f, "{name} {rs},")?;
            write_address(f, address, offset)
        }
        Pseudo::J { offset } => {
            f.write_str("j ")?;
            write_address(f, address, offset)
        }
        Pseudo::Call { offset } => {
            f.write_str("jal ")?;
            write_address(f, address, offset)
        }
        Pseudo::Jr { rs, offset } => {
            f.write_str("jr ")?;
            write_place(f, rs, offset)
        }
        Pseudo::CallAt { rs, offset } => {
            f.write_str("jalr ")?;
            write_place(f, rs, offset)
        }
        Pseudo::Plain { insn } => write_plain(f, insn, address),
    }
}

/// The instruction itself.
fn write_plain<W: fmt::Write>(f: &mut fmt::Formatter<W>, insn: Insn, address: u32) -> fmt::Result {
    match insn {
        Insn::Lui { rd, imm } => write_upper(f, "lui", rd, imm),
        Insn::Auipc { rd, imm } => write_upper(f, "auipc", rd, imm),
        Insn::Jal { rd, .. } => {
            let rd = abi_name(rd);
            write!(f, "jal {rd},")?;
            write_target(f, insn, address)
        }
        Insn::Jalr { rd, rs1, offset } => {
            let rd = abi_name(rd);
            write!(f, "jalr {rd},")?;
            write_place(f, rs1, offset)
        }
        Insn::Branch { test, rs1, rs2, .. } => {
            let name = test_name(test);
            let left = abi_name(rs1);
            let right = abi_name(rs2);
            write!(f, "{name} {left},{right},")?;
            write_target(f, insn, address)
        }
        Insn::Load {
            width,
            rd,
            rs1,
            offset,
        } => write_access(f, load_name(width), rd, rs1, offset),
        Insn::Store {
            width,
            rs1,
            rs2,
            offset,
        } => write_access(f, store_name(width), rs2, rs1, offset),
        _ => write_operation(f, insn),
    }
}

/// An operation, a call of the environment or an atomic.
fn write_operation<W: fmt::Write>(f: &mut fmt::Formatter<W>, insn: Insn) -> fmt::Result {
    match insn {
        Insn::OpImm { op, rd, rs1, imm } => {
            write_two(f, alu_immediate_name(op), rd, rs1)?;
            if is_shift(op) {
                write!(f, ",0x{imm:x}")
            } else {
                write!(f, ",{imm}")
            }
        }
        Insn::Op { op, rd, rs1, rs2 } => {
            write_two(f, alu_name(op), rd, rs1)?;
            let right = abi_name(rs2);
            write!(f, ",{right}")
        }
        Insn::Ecall => f.write_str("ecall"),
        Insn::Ebreak => f.write_str("ebreak"),
        Insn::Lr { rd, rs1, aq, rl } => {
            let ordering = ordering_name(aq, rl);
            let rd = abi_name(rd);
            let place = abi_name(rs1);
            write!(f, "lr.w{ordering} {rd},({place})")
        }
        Insn::Sc {
            rd,
            rs1,
            rs2,
            aq,
            rl,
        } => {
            f.write_str("sc.w")?;
            write_atomic(f, ordering_name(aq, rl), rd, rs2, rs1)
        }
        Insn::Amo {
            op,
            rd,
            rs1,
            rs2,
            aq,
            rl,
        } => {
            f.write_str(amo_name(op))?;
            write_atomic(f, ordering_name(aq, rl), rd, rs2, rs1)
        }
        // `write_pseudo` and `Display` write all others.
        _ => Ok(()),
    }
}

/// The rest of an atomic, behind its name.
fn write_atomic<W: fmt::Write>(
    f: &mut fmt::Formatter<W>,
    ordering: &str,
    rd: Reg,
    value: Reg,
    place: Reg,
) -> fmt::Result {
    let rd = abi_name(rd);
    let value = abi_name(value);
    let place = abi_name(place);
    write!(f, "{ordering} {rd},{value},({place})")
}

fn write_two<W: fmt::Write>(
    f: &mut fmt::Formatter<W>,
    name: &str,
    rd: Reg,
    rs: Reg,
) -> fmt::Result {
    let rd = abi_name(rd);
    let rs = abi_name(rs);
    write!(f, "{name} {rd},{rs}")
}

/// An instruction with the upper 20 bits of a word.
fn write_upper<W: fmt::Write>(
    f: &mut fmt::Formatter<W>,
    name: &str,
    rd: Reg,
    imm: u32,
) -> fmt::Result {
    let rd = abi_name(rd);
    let upper = imm >> 12;
    write!(f, "{name} {rd},0x{upper:x}")
}

/// A load or a store: the register that is written or read, and the place in memory.
fn write_access<W: fmt::Write>(
    f: &mut fmt::Formatter<W>,
    name: &str,
    reg: Reg,
    base: Reg,
    offset: i32,
) -> fmt::Result {
    let reg = abi_name(reg);
    let base = abi_name(base);
    write!(f, "{name} {reg},{offset}({base})")
}

/// A place that a register holds: the offset is not written where it is zero.
fn write_place<W: fmt::Write>(f: &mut fmt::Formatter<W>, rs: Reg, offset: i32) -> fmt::Result {
    let rs = abi_name(rs);
    if offset == 0 {
        f.write_str(rs)
    } else {
        write!(f, "{offset}({rs})")
    }
}

fn write_address<W: fmt::Write>(
    f: &mut fmt::Formatter<W>,
    address: u32,
    offset: i32,
) -> fmt::Result {
    let to = moved(address, offset);
    write!(f, "0x{to:x}")
}

/// Where a branch or a jump goes.
fn write_target<W: fmt::Write>(f: &mut fmt::Formatter<W>, insn: Insn, address: u32) -> fmt::Result {
    match target(insn, address) {
        Some(to) => write!(f, "0x{to:x}"),
        None => Ok(()),
    }
}

/// The fence of all accesses before and behind it.
const FULL_FENCE: u32 = 0x0ff0_000f;

/// The fence of total store order.
const TSO_FENCE: u32 = 0x8330_000f;

/// The bits of a fence's mode and of its two registers.
const FENCE_RESERVED: u32 = 0xf00f_8f80;

/// A fence, with what it orders (RISC-V unprivileged manual, chapter 2, 'Memory Ordering Instructions'). One whose
/// reserved fields are not zero is written as a full fence, which is how it is run.
fn write_fence<W: fmt::Write>(f: &mut fmt::Formatter<W>, word: u32) -> fmt::Result {
    if word == TSO_FENCE {
        return f.write_str("fence.tso");
    }
    if word == FULL_FENCE || word & FENCE_RESERVED != 0 {
        return f.write_str("fence");
    }
    f.write_str("fence ")?;
    write_accesses(f, word >> 24 & 0xf)?;
    f.write_str(",")?;
    write_accesses(f, word >> 20 & 0xf)
}

/// Kinds of accesses: bits for input, output, reads and writes.
fn write_accesses<W: fmt::Write>(f: &mut fmt::Formatter<W>, bits: u32) -> fmt::Result {
    if bits & 0xf == 0 {
        return f.write_str("unknown");
    }
    for (bit, name) in [(8, "i"), (4, "o"), (2, "r"), (1, "w")] {
        if bits & bit != 0 {
            f.write_str(name)?;
        }
    }
    Ok(())
}
