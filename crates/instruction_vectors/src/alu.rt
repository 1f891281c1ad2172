//! Expected values are those of the RISC-V unprivileged manual, computed on whole numbers apart
//! from this code; those of system calls are Linux's error numbers.

use rv_alu::*;

mod accesses;
mod calls;
mod operations;

/// -1, or the greatest unsigned number.
const ONES: u32 = 0xffff_ffff;

/// The least signed number.
const LEAST: u32 = 0x8000_0000;

/// The greatest signed number.
const MOST: u32 = 0x7fff_ffff;

/// Two lines of memory.
const SPAN: Span = Span {
    base: 0x10000,
    end: 0x10080,
};

/// Where the tested instructions stand.
const PC: u32 = 0x10054;

/// The room of an output that has taken nothing.
const ROOM: u32 = 16_777_216;
