//! Programs are the words that GNU as makes of the instructions beside them; what they leave behind
//! is worked out by hand from the RISC-V unprivileged manual.

use crate::asserts::{same, same_at};
use el_base::HartId;
use elf_image::load;
use rv_alu::{HartStatus, HartView};
use rv_flat::*;
use rv_word::Reg;
use std::alloc::{AllocError, Global};
use std::process::Abort;
use std::test::Fail;
use worked_files::HELLO;

mod calls;
mod changes;
mod instructions;
mod sharing;
mod stopping;

/// The address of the first instruction.
pub(crate) const ENTRY: u32 = 0x10054;

/// The most bytes of a file.
pub(crate) const LIMIT: usize = 33_554_432;

/// The most instructions of a program.
const MOST_WORDS: usize = 2_000;

/// The headers of `HELLO` for a file of this length, in one segment at 0x10000 that is to be read, written and executed.
fn headers_of(len: u32) -> [u8; 84] {
    let mut bytes = [0; 84];
    bytes.copy_from_slice(&HELLO[..84]);
    bytes[68..72].copy_from_slice(&len.to_le_bytes());
    bytes[72..76].copy_from_slice(&len.to_le_bytes());
    bytes[76] = 7;
    bytes
}

/// The file of a program that begins with the first of these instructions.
pub(crate) fn file_of(rt: &impl Abort, alloc: Global, code: &[u32]) -> Result<Vec<u8>, AllocError> {
    assert!(rt; code.len() <= MOST_WORDS);
    let mut file = headers_of((84 + 4 * code.len()) as u32).to_vec(alloc)?;
    for word in code {
        file.extend_from_slice(&word.to_le_bytes())?;
    }
    Ok(file)
}

/// The program of these instructions before its first step.
fn flat_of(rt: &impl Abort, alloc: Global, code: &[u32], harts: u8) -> Result<Flat, Fail> {
    let file = file_of(rt, alloc, code)?;
    assert!(rt; file.len() <= LIMIT);
    assert!(rt; (1..=8).contains(&harts));
    let image = load(alloc, &file, harts)?;
    Ok(Flat::make(alloc, &image)?)
}

/// So many steps of a hart.
fn go(rt: &impl Abort, flat: &mut Flat, number: u8, count: usize) {
    let hart = HartId::new(number).expect(rt, "a hart");
    for _ in 0..count {
        assert!(rt; usize::from(hart.number) < flat.harts());
        flat.step(hart);
    }
}

/// A hart's view.
fn seen(rt: &impl Abort, flat: &Flat, number: u8) -> HartView {
    let hart = HartId::new(number).expect(rt, "a hart");
    assert!(rt; usize::from(hart.number) < flat.harts());
    same(rt, flat.hart(hart).status, flat.status(hart));
    flat.hart(hart)
}

/// The word in a register.
fn word_in(rt: &impl Abort, view: &HartView, number: u8) -> u32 {
    view.regs.get(Reg::new(number).expect(rt, "a register"))
}

/// An address behind memory that ends here, the last address of it, and others; and the byte at each before the first step.
fn bytes_of(end: u32) -> [(u32, Option<u8>); 7] {
    [
        (0xffff, None),
        (0x10001, Some(0x45)),
        (0x10054, Some(0x13)),
        (end.saturating_sub(1), Some(0)),
        (end, None),
        (0, None),
        (0xffff_ffff, None),
    ]
}

/// The words that a hart starts with, where memory ends here: its stack, its number, and how many harts there are.
fn first_word(number: u8, end: u32, hart: u8, harts: u8) -> u32 {
    match number {
        2 => end.wrapping_sub(0x10000 * u32::from(hart)),
        10 => hart.into(),
        11 => harts.into(),
        _ => 0,
    }
}

/// A hart is before its first step, in memory that ends here.
fn starts(rt: &impl Abort, flat: &Flat, hart: u8, harts: u8, end: u32) {
    let view = seen(rt, flat, hart);
    same_at(
        rt,
        hart,
        (view.pc, view.reserved, view.status),
        (ENTRY, None, HartStatus::Running),
    );
    for number in 0..32 {
        let wanted = first_word(number, end, hart, harts);
        same_at(rt, (number, hart), word_in(rt, &view, number), wanted);
    }
}

#[test]
fn harts_start_at_the_entry_with_their_own_stacks(rt: HostRuntime) -> Result<(), Fail> {
    for (harts, end) in [(1, 0x20080), (8, 0x90080)] {
        // addi x0,x0,0
        let flat = flat_of(&rt, rt.alloc(), &[0x0000_0013], harts)?;
        let sizes = (flat.harts(), flat.output().len());
        same(&rt, sizes, (usize::from(harts), 0));
        for (address, byte) in bytes_of(end) {
            same_at(&rt, address, flat.byte(address), byte);
        }
        for hart in 0..harts {
            starts(&rt, &flat, hart, harts, end);
        }
    }
    Ok(())
}

#[test]
fn a_program_writes_and_exits(rt: HostRuntime) -> Result<(), Fail> {
    // addi x10,x0,1; auipc x11,0; addi x11,x11,32; addi x12,x0,2; addi x17,x0,64; ecall;
    // addi x10,x0,0; addi x17,x0,93; ecall; and the characters 'A' and newline
    let code = [
        0x00100513, 0x00000597, 0x02058593, 0x00200613, 0x04000893, 0x00000073, 0x00000513,
        0x05d00893, 0x00000073, 0x00000a41,
    ];
    let mut flat = flat_of(&rt, rt.alloc(), &code, 1)?;
    go(&rt, &mut flat, 0, 8);
    let before = seen(&rt, &flat, 0).status;
    same(&rt, flat.output(), b"A\n".as_slice());
    go(&rt, &mut flat, 0, 1);
    let after = seen(&rt, &flat, 0).status;
    same(
        &rt,
        (before, after),
        (HartStatus::Running, HartStatus::Exited { code: 0 }),
    );
    Ok(())
}
