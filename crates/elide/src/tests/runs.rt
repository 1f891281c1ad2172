//! Runs that end by themselves, or at their last step.
use crate::tests::support::{
    Ending, MISSED_ONE, REPORT, TOUCHED_NOTHING, answer, changed, image_of, report_of,
};
use std::test::Fail;
use worked_files::HELLO;

// Each hart exits with its number: addi a7, x0, 93; ecall.
const EXITS_WITH_ITS_NUMBER: [u32; 2] = [0x05d0_0893, 0x0000_0073];

// Writes 200 bytes from 0x10036 on, which is 10 bytes before the end of a line, and exits with what
// the call answered: lui a1, 0x10; addi a1, a1, 54; addi a0, x0, 1; addi a2, x0, 200; addi a7, x0, 64;
// ecall; addi a7, x0, 93; ecall.
const WRITES_OVER_A_LINE: [u32; 8] = [
    0x0001_05b7,
    0x0365_8593,
    0x0010_0513,
    0x0c80_0613,
    0x0400_0893,
    0x0000_0073,
    0x05d0_0893,
    0x0000_0073,
];

// lw a0, 2(x0): misaligned and outside memory.
const LOADS_MISALIGNED: [u32; 1] = [0x0020_2503];

// jal x0, 0: for ever.
const LOOPS: [u32; 1] = [0x0000_006f];

/// The program ended with this status and put these bytes.
fn ended(ending: &Ending, status: u8, out: &[u8], err: &str) -> bool {
    ending.status.number() == status
        && ending.out.as_slice() == out
        && ending.err.as_slice() == err.as_bytes()
}

/// Words, the status, what is put to out, and the lines of the report.
const WORKED_IMAGE: &[(&[&str], u8, &str, &str, &[(u32, &str, &str)], &str)] = &[
    (
        &["run", "a"],
        0,
        "A\n",
        "elide tlr harts 1 events 37",
        &[(9, MISSED_ONE, "exit 0")],
        "serial 9 out 2",
    ),
    (
        &["run", "a", "--steps", "37"],
        0,
        "A\n",
        "elide tlr harts 1 events 37",
        &[(9, MISSED_ONE, "exit 0")],
        "serial 9 out 2",
    ),
    (
        &["run", "a", "--steps", "36"],
        3,
        "A\n",
        "elide tlr harts 1 events 36",
        &[(8, MISSED_ONE, "running")],
        "serial 8 out 2",
    ),
    (
        &["run", "a", "--steps", "1"],
        3,
        "",
        "elide tlr harts 1 events 1",
        &[(1, TOUCHED_NOTHING, "running")],
        "serial 1 out 0",
    ),
    (
        &["run", "a", "--harts", "01"],
        0,
        "A\n",
        "elide tlr harts 1 events 37",
        &[(9, MISSED_ONE, "exit 0")],
        "serial 9 out 2",
    ),
    (
        &["run", "a", "--harts", "2"],
        0,
        "A\nA\n",
        "elide tlr harts 2 events 85",
        &[
            (9, MISSED_ONE, "exit 0"),
            (9, "missed 1 stalled 1 blocked 1", "exit 0"),
        ],
        "serial 18 out 4",
    ),
    (
        &["run", "a", "--steps", "16777216", "--harts", "1"],
        0,
        "A\n",
        "elide tlr harts 1 events 37",
        &[(9, MISSED_ONE, "exit 0")],
        "serial 9 out 2",
    ),
    (
        &["run", "a", "--mode", "plain"],
        0,
        "A\n",
        "elide plain harts 1 events 37",
        &[(9, MISSED_ONE, "exit 0")],
        "serial 9 out 2",
    ),
    (
        &["run", "a", "--mode", "plain", "--steps", "36"],
        3,
        "A\n",
        "elide plain harts 1 events 36",
        &[(8, MISSED_ONE, "running")],
        "serial 8 out 2",
    ),
    (
        &["run", "a", "--mode=sle"],
        0,
        "A\n",
        "elide sle harts 1 events 37",
        &[(9, MISSED_ONE, "exit 0")],
        "serial 9 out 2",
    ),
    (
        &[
            "run", "a", "--mode", "tlr", "--lines", "32", "--long", "65536",
        ],
        0,
        "A\n",
        "elide tlr harts 1 events 37",
        &[(9, MISSED_ONE, "exit 0")],
        "serial 9 out 2",
    ),
];

#[test]
fn the_worked_image_prints_and_exits(rt: HostRuntime) -> Result<(), Fail> {
    for (words, number, out, first, harts, last) in WORKED_IMAGE {
        let err = report_of(rt.alloc(), first, harts, last)?;
        let ending = answer(&rt, rt.alloc(), words, &HELLO, &[])?;
        assert!(rt; ended(&ending, *number, out.as_bytes(), &err), "{words:?}");
    }
    Ok(())
}

#[test]
fn total_store_order_is_no_fault(rt: HostRuntime) -> Result<(), Fail> {
    let image = changed(rt.alloc(), &HELLO, 36, 0x10)?;
    let ending = answer(&rt, rt.alloc(), &["run", "a"], &image, &[])?;
    assert!(rt; ended(&ending, 0, b"A\n", REPORT));
    Ok(())
}

/// A program, the number of harts, the status, what is put to out, and the lines of the report.
const PROGRAMS: &[(&[u32], &str, u8, &[u8], &str, &[(u32, &str, &str)], &str)] = &[
    (
        &EXITS_WITH_ITS_NUMBER,
        "1",
        0,
        &[],
        "elide tlr harts 1 events 5",
        &[(2, TOUCHED_NOTHING, "exit 0")],
        "serial 2 out 0",
    ),
    (
        &EXITS_WITH_ITS_NUMBER,
        "8",
        1,
        &[],
        "elide tlr harts 8 events 61",
        &[
            (2, TOUCHED_NOTHING, "exit 0"),
            (2, TOUCHED_NOTHING, "exit 1"),
            (2, TOUCHED_NOTHING, "exit 2"),
            (2, TOUCHED_NOTHING, "exit 3"),
            (2, TOUCHED_NOTHING, "exit 4"),
            (2, TOUCHED_NOTHING, "exit 5"),
            (2, TOUCHED_NOTHING, "exit 6"),
            (2, TOUCHED_NOTHING, "exit 7"),
        ],
        "serial 16 out 0",
    ),
    (
        &WRITES_OVER_A_LINE,
        "1",
        1,
        &[0, 0, 0, 0, 0, 0, 0, 0, 1, 0],
        "elide tlr harts 1 events 33",
        &[(8, MISSED_ONE, "exit 10")],
        "serial 8 out 10",
    ),
    (
        &LOADS_MISALIGNED,
        "1",
        1,
        &[],
        "elide tlr harts 1 events 1",
        &[(1, TOUCHED_NOTHING, "trap 4 at 00010054")],
        "serial 1 out 0",
    ),
];

#[test]
fn programs_end_as_their_harts_do(rt: HostRuntime) -> Result<(), Fail> {
    for (code, harts, number, out, first, stands, last) in PROGRAMS {
        let err = report_of(rt.alloc(), first, stands, last)?;
        let image = image_of(rt.alloc(), code)?;
        let ending = answer(
            &rt,
            rt.alloc(),
            &["run", "a", "--harts", harts],
            &image,
            &[],
        )?;
        assert!(rt; ended(&ending, *number, out, &err), "{code:?} on {harts}");
    }
    Ok(())
}

/// Words, and the lines of the report of a program that never ends. Without words for it, a run has 4,000,000 steps.
const ENDLESS: &[(&[&str], &str, &[(u32, &str, &str)], &str)] = &[
    (
        &["run", "a"],
        "elide tlr harts 1 events 4000000",
        &[(1000000, TOUCHED_NOTHING, "running")],
        "serial 1000000 out 0",
    ),
    (
        &["run", "a", "--harts", "3", "--steps", "400000"],
        "elide tlr harts 3 events 400000",
        &[
            (33334, TOUCHED_NOTHING, "running"),
            (33333, TOUCHED_NOTHING, "running"),
            (33333, TOUCHED_NOTHING, "running"),
        ],
        "serial 100000 out 0",
    ),
];

#[test]
fn a_program_that_never_ends_uses_up_its_steps(rt: HostRuntime) -> Result<(), Fail> {
    let image = image_of(rt.alloc(), &LOOPS)?;
    for (words, first, stands, last) in ENDLESS {
        let err = report_of(rt.alloc(), first, stands, last)?;
        let ending = answer(&rt, rt.alloc(), words, &image, &[])?;
        assert!(rt; ended(&ending, 3, b"", &err), "{words:?}");
    }
    Ok(())
}
