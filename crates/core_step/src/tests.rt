//! Instructions are the words that LLVM's assembler makes of the text beside them; what they leave
//! behind was computed by the RISC-V unprivileged manual on whole numbers, apart from this code.

use super::*;
use crate::tests::page::Page;
use el_base::{Need, line_of};
use rv_alu::{Access, HartStatus, HartView, Regs, Span};
use rv_word::Reg;
use std::process::Abort;

mod ends;
mod instructions;
mod page;

/// Two lines more than the one that the page has, and the code.
const SPAN: Span = Span {
    base: 0x10000,
    end: 0x10100,
};

/// The room of an output that has taken nothing.
const ROOM: u32 = 16_777_216;

/// Where the tested instructions stand.
const PC: u32 = 0x10000;

/// What x5 has, an address in the second line of memory.
const ADDRESS: u32 = 0x10048;

/// The word at that address.
const MEMORY: u32 = 0x80ff_7f01;

/// A register by its number.
fn register(rt: &impl Abort, number: u8) -> Reg {
    Reg::new(number).expect(rt, "a register")
}

/// A running hart that has reserved the word at the address in x5.
fn hart(rt: &impl Abort) -> HartView {
    let mut regs = Regs::zero();
    regs.set(register(rt, 5), ADDRESS);
    regs.set(register(rt, 6), 0x8765_4321);
    regs.set(register(rt, 7), 0xffff_fff9);
    HartView {
        pc: PC,
        regs,
        reserved: Some(ADDRESS),
        status: HartStatus::Running,
    }
}

/// The page of that address, of bytes 0xaa but for a word there.
fn page_with(word: u32, reads: bool, writes: bool) -> Page {
    let mut bytes = [0xaa; 64];
    bytes[8..12].copy_from_slice(&word.to_le_bytes());
    Page {
        line: line_of(ADDRESS),
        bytes,
        reads,
        writes,
    }
}

/// Runs one instruction of a running hart.
fn run(rt: &impl Abort, page: &mut Page, view: &mut HartView, word: Option<u32>) -> Ended {
    assert_eq!(rt; view.status, HartStatus::Running);
    run_insn(page, view, word, SPAN, ROOM)
}
