//! What is refused, each with its one line.
use crate::tests::support::{Ending, USAGE, answer, changed, resized};
use std::alloc::{AllocError, Global};
use std::test::Fail;
use worked_files::{BARE_TRACE, HELLO, TRACE};

/// The program refused with this line, and put nothing else.
fn is_refused(ending: &Ending, line: &str) -> bool {
    ending.status.number() == 2 && ending.out.is_empty() && ending.err.as_slice() == line.as_bytes()
}

const OUTSIDE_THE_GRAMMAR: &[&[&str]] = &[
    &[],
    &["walk", "x"],
    &["run"],
    &["run", "a", "a"],
    &["run", "-a"],
    &["run", "a", "--harts", "x"],
    &["run", "a", "--steps"],
    &["run", "a", "--steps", "4294967296"],
    &["run", "a", "--harts", "1", "--harts", "1"],
    &["run", "a", "--threads", "5"],
    &["run", "a", "--trace", "-t"],
    &["run", "a", "--mode", "walk"],
    &["run", "a", "--mode"],
    &["replay", "a"],
    &["replay", "a", "t", "--steps", "1"],
    &["gen", "counter", "x", "t"],
    &["gen", "nothing", "1", "t"],
    &["gen", "counter", "4294967296", "t"],
    &["gen", "counter", "1"],
    &["gen", "counter", "1", "t", "--harts", "1"],
];

#[test]
fn words_outside_the_grammar_are_the_usage_line(rt: HostRuntime) -> Result<(), Fail> {
    for words in OUTSIDE_THE_GRAMMAR {
        let ending = answer(&rt, rt.alloc(), words, &HELLO, &TRACE)?;
        assert!(rt; is_refused(&ending, USAGE), "{words:?}");
    }
    Ok(())
}

/// Words and the line of their refusal.
const CONFIGURATIONS: &[(&[&str], &str)] = &[
    (&["run", "a", "--harts", "9"], "config fault 1 Harts\n"),
    (&["run", "a", "--harts", "0"], "config fault 1 Harts\n"),
    (
        &["run", "a", "--harts", "4294967295"],
        "config fault 1 Harts\n",
    ),
    (&["run", "a", "--sets", "3"], "config fault 2 Sets\n"),
    (&["run", "a", "--ways=9"], "config fault 3 Ways\n"),
    (&["run", "a", "--lines", "0"], "config fault 4 Lines\n"),
    (&["run", "a", "--lines", "33"], "config fault 4 Lines\n"),
    (&["run", "a", "--long", "1"], "config fault 5 Long\n"),
    (&["run", "a", "--long", "65537"], "config fault 5 Long\n"),
    (&["run", "a", "--steps", "0"], "config fault 6 Steps\n"),
    (
        &["run", "a", "--steps", "16777217"],
        "config fault 6 Steps\n",
    ),
    (
        &["run", "a", "--steps", "0", "--harts", "0"],
        "config fault 1 Harts\n",
    ),
];

#[test]
fn configurations_are_judged_before_files(rt: HostRuntime) -> Result<(), Fail> {
    for (words, line) in CONFIGURATIONS {
        let ending = answer(&rt, rt.alloc(), words, &[], &[])?;
        assert!(rt; is_refused(&ending, line), "{words:?}");
    }
    Ok(())
}

/// The lengths that the image is cut to, up to and with the second, and the line of the refusal. Of the first the place is
/// the length.
const CUT_IMAGES: &[(usize, usize, &str)] = &[
    (52, 83, "image fault 9 Table at byte 28\n"),
    (84, 121, "image fault 11 Segment at byte 56\n"),
];

#[test]
fn cut_images_fault_where_they_end_or_point_outside(rt: HostRuntime) -> Result<(), Fail> {
    for length in 0..52usize {
        let image = resized(rt.alloc(), &HELLO, length, 0)?;
        let line = format!(in rt.alloc(); "image fault 1 Short at byte {length}\n")?;
        let ending = answer(&rt, rt.alloc(), &["run", "a"], &image, &[])?;
        assert!(rt; is_refused(&ending, line.as_str()), "cut to {length}");
    }
    for (least, most, line) in CUT_IMAGES {
        for length in *least..=*most {
            let image = resized(rt.alloc(), &HELLO, length, 0)?;
            let ending = answer(&rt, rt.alloc(), &["run", "a"], &image, &[])?;
            assert!(rt; is_refused(&ending, line), "cut to {length}");
        }
    }
    Ok(())
}

/// Places of the worked image, the bytes from there on, and the line of its refusal.
const CHANGED_IMAGES: &[(&[(usize, &[u8])], &str)] = &[
    (&[(44, &[0xff, 0xff])], "image fault 9 Table at byte 44\n"),
    (
        &[(28, &[0xff, 0xff, 0xff, 0xff])],
        "image fault 9 Table at byte 28\n",
    ),
    (&[(52, &[0x03])], "image fault 10 Dynamic at byte 52\n"),
    (&[(52, &[0x00])], "image fault 16 Empty at byte 44\n"),
    (
        &[
            (60, &[0x00, 0xff, 0xff, 0xff]),
            (72, &[0x00, 0x02, 0x00, 0x00]),
        ],
        "image fault 14 TooHigh at byte 28\n",
    ),
    (&[(72, &[0x79])], "image fault 11 Segment at byte 68\n"),
    (&[(76, &[0x04])], "image fault 15 Entry at byte 24\n"),
    (&[(24, &[0x56])], "image fault 15 Entry at byte 24\n"),
    (&[(24, &[0x78])], "image fault 15 Entry at byte 24\n"),
    (&[(36, &[0x01])], "image fault 8 Flags at byte 36\n"),
    (&[(0, &[0x7e])], "image fault 2 Magic at byte 0\n"),
];

/// The worked image with these bytes from these places on.
fn patched(alloc: Global, changes: &[(usize, &[u8])]) -> Result<Vec<u8>, AllocError> {
    let mut image = HELLO.to_vec(alloc)?;
    for (place, bytes) in changes {
        for (index, value) in bytes.iter().enumerate() {
            if let Some(byte) = image.get_mut(place.saturating_add(index)) {
                *byte = *value;
            }
        }
    }
    Ok(image)
}

#[test]
fn changed_images_have_their_first_fault(rt: HostRuntime) -> Result<(), Fail> {
    for (changes, line) in CHANGED_IMAGES {
        let image = patched(rt.alloc(), changes)?;
        let ending = answer(&rt, rt.alloc(), &["run", "a"], &image, &[])?;
        assert!(rt; is_refused(&ending, line), "{line}");
    }
    Ok(())
}

/// A file of so many zeros.
fn zeros(alloc: Global, count: usize) -> Result<Vec<u8>, AllocError> {
    vec![in alloc; 0; count]
}

/// Words, the lengths of the image and of the trace, and the line of the refusal.
const TOO_BIG: &[(&[&str], usize, usize, &str)] = &[
    (
        &["run", "a"],
        33_554_433,
        0,
        "file too big: limit 33554432\n",
    ),
    (
        &["replay", "a", "t"],
        0,
        167_772_183,
        "file too big: limit 167772182\n",
    ),
    (
        &["check", "a", "t"],
        0,
        118_490_211,
        "file too big: limit 118490210\n",
    ),
];

#[test]
fn files_over_their_limits_are_refused(rt: HostRuntime) -> Result<(), Fail> {
    for (words, image, trace, line) in TOO_BIG {
        let image = zeros(rt.alloc(), *image)?;
        let trace = zeros(rt.alloc(), *trace)?;
        let ending = answer(&rt, rt.alloc(), words, &image, &trace)?;
        assert!(rt; is_refused(&ending, line), "{words:?}");
    }
    Ok(())
}

/// A byte of the trace, the value that is set there, and the line of its refusal.
const TRACE_FAULTS: &[(usize, u8, &str)] = &[
    (1, 0, "trace fault 2 Magic at byte 1\n"),
    (4, 3, "trace fault 3 Version at byte 4\n"),
    (5, 0, "trace fault 4 Config at byte 5\n"),
    (6, 3, "trace fault 4 Config at byte 6\n"),
    (22, 8, "trace fault 5 Event at byte 22\n"),
    (22, 0x40, "trace fault 5 Event at byte 22\n"),
    (23, 0x0f, "trace fault 7 Outcome at byte 23\n"),
    (67, 0x04, "trace fault 7 Outcome at byte 64\n"),
    (70, 0x02, "trace fault 7 Outcome at byte 70\n"),
    (74, 0x10, "trace fault 7 Outcome at byte 74\n"),
];

#[test]
fn changed_traces_have_their_first_fault(rt: HostRuntime) -> Result<(), Fail> {
    for trace in [BARE_TRACE.as_slice(), TRACE.as_slice()] {
        for length in 0..trace.len() {
            let cut = resized(rt.alloc(), trace, length, 0)?;
            let line = format!(in rt.alloc(); "trace fault 1 Short at byte {length}\n")?;
            let ending = answer(&rt, rt.alloc(), &["replay", "a", "t"], &HELLO, &cut)?;
            assert!(rt; is_refused(&ending, line.as_str()), "cut to {length}");
        }
    }
    for (place, value, line) in TRACE_FAULTS {
        let trace = changed(rt.alloc(), &TRACE, *place, *value)?;
        let ending = answer(&rt, rt.alloc(), &["replay", "a", "t"], &HELLO, &trace)?;
        assert!(rt; is_refused(&ending, line), "byte {place} set to {value}");
    }
    Ok(())
}

/// A trace, and the line of its refusal where a byte stands behind it.
const LONGER_TRACES: &[(&[u8], &str)] = &[
    (&BARE_TRACE, "trace fault 6 Tail at byte 59\n"),
    (&TRACE, "trace fault 6 Tail at byte 116\n"),
];

#[test]
fn nothing_stands_behind_the_last_event(rt: HostRuntime) -> Result<(), Fail> {
    for (trace, line) in LONGER_TRACES {
        let longer = resized(rt.alloc(), trace, trace.len(), 1)?;
        let ending = answer(&rt, rt.alloc(), &["replay", "a", "t"], &HELLO, &longer)?;
        assert!(rt; is_refused(&ending, line), "one byte more");
    }
    Ok(())
}

/// A trace that is replayed on an empty image, and the line of the refusal.
const ON_AN_EMPTY_IMAGE: &[(&[u8], &str)] = &[
    (&[], "trace fault 1 Short at byte 0\n"),
    (&TRACE, "image fault 1 Short at byte 0\n"),
];

#[test]
fn a_trace_is_judged_before_its_image(rt: HostRuntime) -> Result<(), Fail> {
    for (trace, line) in ON_AN_EMPTY_IMAGE {
        let ending = answer(&rt, rt.alloc(), &["replay", "a", "t"], &[], trace)?;
        assert!(rt; is_refused(&ending, line), "{line}");
    }
    Ok(())
}
