//! Places of a trace, and the places at which its hart comes to a pc.
//!
//! The worked run is five steps of the image, the sixth at event 24 after its line came, and the last three. Its
//! first instruction stands at 0x10054, and the exit leaves the pc as it is.
use crate::tests::support::{USAGE, answer, changed, strings};
use el_io::{MemShelf, MemSink, OpenGate};
use std::test::Fail;
use tool::tool;
use worked_files::{BARE_TRACE, HELLO, TRACE};

/// Words, and what is put to out.
const SHOWN: &[(&[&str], &str)] = &[
    (
        &["look", "a", "t", "20"],
        "hart 0 pc 00010068 running\nserial 5 out 0\n",
    ),
    (
        &["look", "a", "t", "37", "--back", "12"],
        "hart 0 pc 0001006c running\nserial 6 out 2\n",
    ),
    (
        &["look", "a", "t", "0"],
        "hart 0 pc 00010054 running\nserial 0 out 0\n",
    ),
    (
        &["look", "a", "t", "20", "--back", "20"],
        "hart 0 pc 00010054 running\nserial 0 out 0\n",
    ),
    (
        &["look", "a", "t", "1"],
        "hart 0 pc 00010058 running\nserial 1 out 0\n",
    ),
    (
        &["look", "a", "t", "24"],
        "hart 0 pc 00010068 running\nserial 5 out 0\n",
    ),
    (
        &["look", "--back=1", "a", "t", "37"],
        "hart 0 pc 00010074 running\nserial 8 out 2\n",
    ),
    (
        &["look", "a", "t", "37"],
        "hart 0 pc 00010074 exit 0\nserial 9 out 2\n",
    ),
    (&["find", "a", "t", "0", "65644"], "25\n"),
    (&["find", "a", "t", "0", "65624"], "1\n"),
    (&["find", "a", "t", "0", "65640"], "17\n"),
    (&["find", "a", "t", "0", "65652"], "33\n"),
    (&["find", "a", "t", "0", "65620"], ""),
    (&["find", "a", "t", "0", "65645"], ""),
    (&["find", "a", "t", "0", "4294967295"], ""),
];

// A trace without outcomes is taken as one with them, and outcomes that did not come are not looked at.
#[test]
fn a_trace_is_gone_over_back_and_forth(rt: HostRuntime) -> Result<(), Fail> {
    let other = changed(rt.alloc(), &TRACE, 23, 0)?;
    for trace in [TRACE.as_slice(), BARE_TRACE.as_slice(), other.as_slice()] {
        for (words, text) in SHOWN {
            let ending = answer(&rt, rt.alloc(), words, &HELLO, trace)?;
            assert!(rt;
                ending.status.number() == 0
                    && ending.out.as_slice() == text.as_bytes()
                    && ending.err.is_empty()
                    && ending.written.as_slice() == trace,
                "{words:?}"
            );
        }
    }
    Ok(())
}

/// Words, an image, a trace, and the line that is put to err.
const REFUSED: &[(&[&str], &[u8], &[u8], &str)] = &[
    (
        &["look", "a", "t", "38"],
        &HELLO,
        &TRACE,
        "place over the end: events 37\n",
    ),
    (
        &["look", "a", "t", "4294967295", "--back", "4294967295"],
        &HELLO,
        &BARE_TRACE,
        "place over the end: events 37\n",
    ),
    (
        &["look", "a", "t", "20", "--back", "21"],
        &HELLO,
        &TRACE,
        "back over the start: place 20\n",
    ),
    (
        &["look", "a", "t", "0", "--back", "1"],
        &HELLO,
        &BARE_TRACE,
        "back over the start: place 0\n",
    ),
    (
        &["find", "a", "t", "1", "65644"],
        &HELLO,
        &TRACE,
        "no such hart\n",
    ),
    (
        &["find", "a", "t", "256", "65644"],
        &HELLO,
        &TRACE,
        "no such hart\n",
    ),
    (
        &["find", "a", "t", "4294967295", "0"],
        &HELLO,
        &BARE_TRACE,
        "no such hart\n",
    ),
    (
        &["look", "a", "t", "38"],
        &[],
        &TRACE,
        "image fault 1 Short at byte 0\n",
    ),
    (
        &["find", "a", "t", "1", "0"],
        &[],
        &TRACE,
        "image fault 1 Short at byte 0\n",
    ),
    (
        &["look", "a", "t", "38"],
        &[],
        &[],
        "trace fault 1 Short at byte 0\n",
    ),
    (
        &["find", "a", "t", "1", "0"],
        &[],
        &[],
        "trace fault 1 Short at byte 0\n",
    ),
    (&["look", "a", "t", "-1"], &[], &[], USAGE),
    (&["look", "a", "t", "20", "--back"], &[], &[], USAGE),
    (&["find", "a", "t", "0", "0x1006c"], &[], &[], USAGE),
];

#[test]
fn places_and_harts_that_are_not_there_are_refused(rt: HostRuntime) -> Result<(), Fail> {
    for (words, image, trace, line) in REFUSED {
        let ending = answer(&rt, rt.alloc(), words, image, trace)?;
        assert!(rt;
            ending.status.number() == 2
                && ending.out.is_empty()
                && ending.err.as_slice() == line.as_bytes(),
            "{words:?}"
        );
    }
    Ok(())
}

/// Words, the calls of the shelf and of out that fail, and what out took.
const FAILED: &[(&[&str], &[u32], &[u32], &str)] = &[
    (&["look", "a", "t", "20"], &[1], &[], ""),
    (&["look", "a", "t", "20"], &[2], &[], ""),
    (&["look", "a", "t", "20"], &[], &[1], ""),
    (&["look", "a", "t", "20"], &[], &[6], "hart "),
    (&["find", "a", "t", "0", "65644"], &[1], &[], ""),
    (&["find", "a", "t", "0", "65644"], &[2], &[], ""),
    (&["find", "a", "t", "0", "65644"], &[], &[3], "25"),
];

#[test]
fn nothing_more_is_put_of_a_timeline_after_a_fault(rt: HostRuntime) -> Result<(), Fail> {
    for (words, shelf, out, text) in FAILED {
        let names = strings(rt.alloc(), &["a", "t"])?;
        let contents = [
            Vec::from_slice(rt.alloc(), &HELLO)?,
            Vec::from_slice(rt.alloc(), &TRACE)?,
        ];
        assert!(rt; names.len() == 2);
        let mut shelf = MemShelf::make(rt.alloc(), &names, &contents, shelf)?;
        let mut out = MemSink::make(rt.alloc(), 256, 1, out)?;
        let mut err = MemSink::make(rt.alloc(), 256, 1, &[1])?;
        let words = strings(rt.alloc(), words)?;
        let gate = OpenGate::new();
        let status = tool(
            &rt,
            rt.alloc(),
            &words,
            &mut shelf,
            &mut out,
            &mut err,
            &gate,
        );
        assert!(rt;
            status.number() == 4 && out.taken() == text.as_bytes() && err.taken().is_empty(),
            "{words:?}"
        );
    }
    Ok(())
}
