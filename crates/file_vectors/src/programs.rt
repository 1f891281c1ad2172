//! Whole runs on plain memory. In its turn each hart makes one step more than the one before it, so that harts drift
//! apart and meet in each other's rounds: in lockstep a program without its locks may lose no update.

use crate::asserts::{same, same_at};
use el_base::HartId;
use elf_image::{IMAGE_FILE_LIMIT, load};
use rv_flat::{Flat, HartStatus};
use std::alloc::Global;
use std::process::Abort;
use std::test::Fail;
use workload::*;

/// A run of a file by so many harts, until each has stopped.
fn run(rt: &impl Abort, alloc: Global, file: &[u8], harts: u8) -> Result<Flat, Fail> {
    assert!(rt; file.len() <= IMAGE_FILE_LIMIT as usize);
    assert!(rt; (1..=8).contains(&harts));
    let image = load(alloc, file, harts)?;
    let mut flat = Flat::make(alloc, &image)?;
    for _ in 0..1_000_000 {
        let mut running = false;
        for number in 0..harts {
            for _ in 0..=number {
                step(rt, &mut flat, number);
            }
            running |= status(rt, &flat, number) == HartStatus::Running;
        }
        if !running {
            return Ok(flat);
        }
    }
    Err("the run is too long".into())
}

fn step(rt: &impl Abort, flat: &mut Flat, number: u8) {
    let hart = HartId::new(number).expect(rt, "a hart");
    assert!(rt; usize::from(hart.number) < flat.harts());
    flat.step(hart);
}

fn status(rt: &impl Abort, flat: &Flat, number: u8) -> HartStatus {
    let hart = HartId::new(number).expect(rt, "a hart");
    assert!(rt; usize::from(hart.number) < flat.harts());
    flat.status(hart)
}

/// Where the words stand in a file: behind a header of 52 bytes and two program headers of 32.
const WORDS_PLACE: usize = 116;

/// The address of the first of the words that are counted in.
const WORDS_START: u32 = 0x1_14c0;

/// The word of this index among those that are counted in.
fn word(rt: &impl Abort, flat: &Flat, index: u32) -> u32 {
    let at = WORDS_START + 64 * (index % 64);
    let byte = |address| flat.byte(address).expect(rt, "a byte of memory");
    u32::from_le_bytes([byte(at), byte(at + 1), byte(at + 2), byte(at + 3)])
}

#[test]
fn hart_0_tells_the_sum(rt: HostRuntime) -> Result<(), Fail> {
    for (kind, number, harts, told) in [
        (Work::Counter, 1, 1, b"00000064\n"),
        (Work::Counter, 1, 8, b"00000320\n"),
        (Work::Bank, 7, 1, b"0000fa00\n"),
        (Work::Bank, 7, 8, b"0000fa00\n"),
        (Work::Buckets, 3, 1, b"000000c8\n"),
        (Work::Buckets, 3, 8, b"00000640\n"),
        (Work::Locks, 3, 1, b"000000c8\n"),
        (Work::Locks, 3, 8, b"00000640\n"),
        (Work::Overflow, 3, 1, b"00000190\n"),
        (Work::Overflow, 3, 8, b"00000c80\n"),
        (Work::Pairs, 1, 1, b"00000064\n"),
        (Work::Pairs, 1, 8, b"00000320\n"),
    ] {
        let file = build(rt.alloc(), kind, number)?;
        let flat = run(&rt, rt.alloc(), &file, harts)?;
        same_at(&rt, (kind, harts), flat.output(), told.as_slice());
        for hart in 0..harts {
            same(
                &rt,
                status(&rt, &flat, hart),
                HartStatus::Exited { code: 0 },
            );
        }
    }
    Ok(())
}

/// What the harts add to the buckets, by a program that draws the same numbers.
const COUNTS: [u32; 16] = [
    114, 95, 80, 102, 109, 119, 100, 100, 100, 104, 104, 104, 110, 93, 84, 82,
];

/// The same, where hart 0 begins with 1 in place of 0.
const COUNTS_FROM_1: [u32; 16] = [18, 17, 9, 9, 16, 14, 11, 14, 14, 11, 14, 10, 8, 12, 11, 12];

/// What is left in the accounts.
const BALANCES: [u32; 64] = [
    996, 1002, 1005, 1000, 993, 1012, 1012, 992, 993, 998, 984, 1002, 1005, 1000, 993, 992, 993,
    990, 1009, 993, 1011, 978, 1010, 991, 1009, 1005, 993, 996, 1010, 1006, 1015, 1007, 1011, 992,
    1014, 998, 1007, 995, 994, 1003, 1002, 1010, 995, 1013, 1002, 1008, 1005, 990, 1008, 994, 1014,
    995, 1008, 1000, 999, 1004, 991, 994, 994, 983, 998, 991, 993, 1000,
];

#[test]
fn harts_draw_what_another_program_draws(rt: HostRuntime) -> Result<(), Fail> {
    for (kind, number, harts, wanted) in [
        (Work::Buckets, 3, 8, COUNTS.as_slice()),
        (Work::Buckets, 0x9e37_79b9, 1, COUNTS_FROM_1.as_slice()),
        (Work::Bank, 7, 8, BALANCES.as_slice()),
    ] {
        let file = build(rt.alloc(), kind, number)?;
        let flat = run(&rt, rt.alloc(), &file, harts)?;
        for (index, count) in (0..).zip(wanted) {
            same_at(&rt, (kind, index), word(&rt, &flat, index), *count);
        }
    }
    Ok(())
}

#[test]
fn the_same_arguments_give_the_same_file(rt: HostRuntime) -> Result<(), Fail> {
    for kind in [
        Work::Counter,
        Work::Bank,
        Work::Buckets,
        Work::Locks,
        Work::Overflow,
        Work::Pairs,
    ] {
        let file = build(rt.alloc(), kind, 7)?;
        assert!(rt; file == build(rt.alloc(), kind, 7)?);
        assert!(rt; file != build(rt.alloc(), kind, 8)?);
    }
    Ok(())
}

/// The words of `Counter` as GNU as of binutils 2.40 writes them, of the same instructions with labels.
const COUNTER: [u32; 51] = [
    0x0000_0513,
    0x05d0_0893,
    0x0000_0073,
    0x0001_1937,
    0x0c09_0a93,
    0x4c09_0b93,
    0x0640_0993,
    0x0010_0293,
    0x000a_a303,
    0xfe03_1ee3,
    0x0c5a_a32f,
    0xfe03_1ae3,
    0x000b_a283,
    0x0012_8293,
    0x005b_a023,
    0x0a0a_a02f,
    0xfff9_8993,
    0xfc09_9ce3,
    0x0409_0293,
    0x0010_0313,
    0x0262_a02f,
    0xfa05_16e3,
    0x0409_2283,
    0xfeb2_9ee3,
    0x0ff0_000f,
    0x4c09_0b93,
    0x0010_0a13,
    0x0000_0d13,
    0x000b_a283,
    0x005d_0d33,
    0x040b_8b93,
    0xfffa_0a13,
    0xfe0a_18e3,
    0x0809_0293,
    0x0080_0313,
    0x01cd_5393,
    0x0123_83b3,
    0x0103_c383,
    0x0072_8023,
    0x004d_1d13,
    0x0012_8293,
    0xfff3_0313,
    0xfe03_12e3,
    0x00a0_0393,
    0x0072_8023,
    0x0010_0513,
    0x0809_0593,
    0x0090_0613,
    0x0400_0893,
    0x0000_0073,
    0xf39f_f06f,
];

#[test]
fn words_are_those_of_the_assembler(rt: HostRuntime) -> Result<(), Fail> {
    let mut wanted = Vec::new(rt.alloc());
    for word in COUNTER {
        wanted.extend_from_slice(&word.to_le_bytes())?;
    }
    let file = build(rt.alloc(), Work::Counter, 7)?;
    let words = file.get(WORDS_PLACE..WORDS_PLACE + 4 * COUNTER.len());
    same(&rt, words, Some(wanted.as_slice()));
    Ok(())
}
