//! Traces that are written, and played again.
use crate::tests::asserts::{same, same_at};
use crate::tests::support::{MISSED_ONE, REPORT, TIMES, answer, changed, report_of};
use std::test::Fail;
use worked_files::{BARE_TRACE, HELLO, TRACE};

#[test]
fn a_run_writes_its_trace_and_its_replay_is_the_same(rt: HostRuntime) -> Result<(), Fail> {
    let ran = answer(&rt, rt.alloc(), &["run", "a", "--trace", "t"], &HELLO, &[])?;
    same(&rt, ran.written.as_slice(), TRACE.as_slice());
    let played = answer(&rt, rt.alloc(), &["replay", "a", "t"], &HELLO, &ran.written)?;
    same(&rt, played.status, ran.status);
    same(&rt, played.out.as_slice(), ran.out.as_slice());
    same(&rt, played.err.as_slice(), ran.err.as_slice());
    same(&rt, played.out.as_slice(), b"A\n".as_slice());
    same(&rt, played.err.as_slice(), REPORT.as_bytes());
    same(&rt, played.written.as_slice(), TRACE.as_slice());
    Ok(())
}

// In both modes that have sections each hart begins some, at swaps by `counter` and behind an LR by `pairs`.
#[test]
fn a_replay_of_sections_says_what_the_run_said(rt: HostRuntime) -> Result<(), Fail> {
    for kind in ["counter", "pairs"] {
        let image = answer(&rt, rt.alloc(), &["gen", kind, "1", "t"], &[], &[])?.written;
        for mode in ["sle", "tlr"] {
            let words = ["run", "a", "--mode", mode, "--harts", "4", "--trace", "t"];
            let ran = answer(&rt, rt.alloc(), &words, &image, &[])?;
            let played = answer(&rt, rt.alloc(), &["replay", "a", "t"], &image, &ran.written)?;
            let report = String::from_utf8_lossy(rt.alloc(), &ran.err)?;
            assert!(rt; !report.contains("began 0 "), "{kind}: {report}");
            same_at(&rt, (kind, mode), ran.status.number(), 0);
            same_at(
                &rt,
                (kind, mode),
                ran.out.as_slice(),
                b"00000190\n".as_slice(),
            );
            same_at(&rt, (kind, mode), played.status, ran.status);
            same_at(&rt, (kind, mode), played.out.as_slice(), ran.out.as_slice());
            same_at(&rt, (kind, mode), played.err.as_slice(), ran.err.as_slice());
        }
    }
    Ok(())
}

// The trace says in which mode it ran and how many events there are, and not how many steps the run was given.
#[test]
fn a_replay_ends_where_its_trace_does(rt: HostRuntime) -> Result<(), Fail> {
    let mut short = changed(rt.alloc(), &BARE_TRACE, 18, 36)?;
    short.truncate(58);
    let plain = changed(rt.alloc(), &TRACE, 6, 0)?;
    let rows: [(&[u8], u8, &str, (u32, &str, &str), &str); 3] = [
        (
            &BARE_TRACE,
            0,
            "elide tlr harts 1 events 37",
            (9, MISSED_ONE, "exit 0"),
            "serial 9 out 2",
        ),
        (
            &short,
            3,
            "elide tlr harts 1 events 36",
            (8, MISSED_ONE, "running"),
            "serial 8 out 2",
        ),
        (
            &plain,
            0,
            "elide plain harts 1 events 37",
            (9, MISSED_ONE, "exit 0"),
            "serial 9 out 2",
        ),
    ];
    for (trace, number, first, hart, last) in rows {
        let report = report_of(rt.alloc(), first, &[hart], last)?;
        let played = answer(&rt, rt.alloc(), &["replay", "a", "t"], &HELLO, trace)?;
        let found = (
            played.status.number(),
            played.out.as_slice(),
            played.err.as_slice(),
        );
        same(&rt, found, (number, b"A\n".as_slice(), report.as_bytes()));
    }
    Ok(())
}

// What a trace without outcomes says is written with them.
#[test]
fn a_replay_writes_what_came_of_the_events(rt: HostRuntime) -> Result<(), Fail> {
    let words = ["replay", "a", "t", "--trace", "t"];
    for trace in [BARE_TRACE.as_slice(), TRACE.as_slice()] {
        let played = answer(&rt, rt.alloc(), &words, &HELLO, trace)?;
        same(&rt, played.status.number(), 0);
        same(&rt, played.out.as_slice(), b"A\n".as_slice());
        same(&rt, played.err.as_slice(), REPORT.as_bytes());
        same(&rt, played.written.as_slice(), TRACE.as_slice());
    }
    Ok(())
}

/// A byte of the trace, the value that is set there, and the line that a replay puts then.
const DIFFERENT: &[(usize, u8, &str)] = &[
    (
        23,
        0x00,
        "replay differs at event 0: recorded 00 found 04\n",
    ),
    (
        64,
        0x02,
        "replay differs at event 20: recorded 0202040000 found 0201040000\n",
    ),
    (
        70,
        0x01,
        "replay differs at event 21: recorded 090100000000000000 found 090000000000000000\n",
    ),
    (
        74,
        0x03,
        "replay differs at event 21: recorded 090000000003000000 found 090000000000000000\n",
    ),
];

#[test]
fn a_replay_says_where_another_outcome_came(rt: HostRuntime) -> Result<(), Fail> {
    for (place, value, line) in DIFFERENT {
        let trace = changed(rt.alloc(), &TRACE, *place, *value)?;
        let words = ["replay", "a", "t", "--trace", "t", "--times"];
        let played = answer(&rt, rt.alloc(), &words, &HELLO, &trace)?;
        assert!(rt;
            played.status.number() == 6
                && played.out.is_empty()
                && played.err.as_slice() == line.as_bytes()
                && played.written.as_slice() == trace.as_slice(),
            "byte {place} set to {value}"
        );
    }
    Ok(())
}

#[test]
fn times_stand_behind_the_report(rt: HostRuntime) -> Result<(), Fail> {
    let text = format!(in rt.alloc(); "{REPORT}{TIMES}")?;
    let words = ["run", "a", "--times", "--trace", "t"];
    let ran = answer(&rt, rt.alloc(), &words, &HELLO, &[])?;
    same(&rt, ran.status.number(), 0);
    same(&rt, ran.err.as_slice(), text.as_bytes());
    let played = answer(
        &rt,
        rt.alloc(),
        &["replay", "--times", "a", "t"],
        &HELLO,
        &ran.written,
    )?;
    same(&rt, played.status.number(), 0);
    same(&rt, played.err.as_slice(), text.as_bytes());
    Ok(())
}
