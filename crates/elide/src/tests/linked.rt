//! An image as linkers make them: code and data in two segments, and headers that are passed over.
use crate::tests::asserts::same;
use crate::tests::support::{MISSED_ONE, answer, report_of};
use std::alloc::{AllocError, Global};
use std::test::Fail;
use worked_files::HELLO;

/// The length of the file, with the bytes of both segments.
const LENGTH: usize = 0x6f0;

/// Where the program headers end and the code begins.
const CODE: usize = 0xb4;

// PT_LOAD of 0x6d4 bytes from 0x10000 on, readable and executable, with the headers in it; PT_LOAD of
// 0x1c bytes and zeros behind them, from 0x116d4 on, readable and writable; PT_GNU_STACK;
// PT_RISCV_ATTRIBUTES.
const PROGRAM_HEADERS: [u32; 32] = [
    1, 0, 0x10000, 0x10000, 0x6d4, 0x6d4, 5, 0x1000, 1, 0x6d4, 0x116d4, 0x116d4, 0x1c, 0x14c, 6,
    0x1000, 0x6474e551, 0, 0, 0, 0, 0, 6, 16, 0x70000003, 0x6f0, 0, 0, 0x1c, 0, 4, 1,
];

// Writes its stack pointer and exits with 0: addi t0, sp, -64; sw sp, 0(t0); addi a1, t0, 0;
// addi a0, x0, 1; addi a2, x0, 4; addi a7, x0, 64; ecall; addi a0, x0, 0; addi a7, x0, 93; ecall.
const TELLS_ITS_STACK: [u32; 10] = [
    0xfc010293, 0x0022a023, 0x00028593, 0x00100513, 0x00400613, 0x04000893, 0x00000073, 0x00000513,
    0x05d00893, 0x00000073,
];

/// Puts words into a file from a place on.
fn put(file: &mut Vec<u8>, place: usize, words: &[u32]) {
    for (index, word) in words.iter().enumerate() {
        for (offset, byte) in word.to_le_bytes().iter().enumerate() {
            let at = place
                .saturating_add(index.saturating_mul(4))
                .saturating_add(offset);
            if let Some(there) = file.get_mut(at) {
                *there = *byte;
            }
        }
    }
}

fn linked(alloc: Global) -> Result<Vec<u8>, AllocError> {
    let mut file = HELLO[..52].to_vec(alloc)?;
    for _ in 52..LENGTH {
        file.push(0)?;
    }
    // e_entry, and e_phnum beside e_phentsize
    put(&mut file, 24, &[0x100b4]);
    put(&mut file, 44, &[4]);
    put(&mut file, 52, &PROGRAM_HEADERS);
    put(&mut file, CODE, &TELLS_ITS_STACK);
    Ok(file)
}

// Memory is from 0x10000 up to 0x91840 with 8 harts, and each stack ends 0x10000 below the last.
#[test]
fn each_hart_has_a_stack_of_its_own(rt: HostRuntime) -> Result<(), Fail> {
    let image = linked(rt.alloc())?;
    let ending = answer(&rt, rt.alloc(), &["run", "a", "--harts", "8"], &image, &[])?;
    let stacks: [u32; 8] = [
        0x91840, 0x81840, 0x71840, 0x61840, 0x51840, 0x41840, 0x31840, 0x21840,
    ];
    let mut wanted = Vec::new(rt.alloc());
    for stack in stacks {
        wanted.extend_from_slice(&stack.to_le_bytes())?;
    }
    same(&rt, ending.status.number(), 0);
    same(&rt, ending.out.as_slice(), wanted.as_slice());
    let report = report_of(
        rt.alloc(),
        "elide tlr harts 8 events 349",
        &[(10, MISSED_ONE, "exit 0"); 8],
        "serial 80 out 32",
    )?;
    same(&rt, ending.err.as_slice(), report.as_bytes());
    Ok(())
}
