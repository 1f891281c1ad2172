//! The top call over files in memory. What a run of the worked image comes to is worked by hand: nine instructions, of which
//! the sixth, a write of two bytes, misses its line.

use crate::tests::asserts::same;
use el_io::{SureShelf, SureSink};
use lab_tool::{Status, laboratory};
use std::alloc::Global;
use std::test::Fail;
use worked_files::{HELLO, TRACE};

/// How the program ended, what it put, and the files behind it.
#[derive(Drop)]
struct Ending {
    status: Status,
    out: SureSink,
    err: SureSink,
    shelf: SureShelf,
}

/// Does what these words ask for, over the worked image `i`, a trace of it `t`, its first half `h`, one in which the second event
/// is recorded as a wait, `d`, an order `o`, and one that is none, `x`.
fn answer(alloc: Global, words: &[&str]) -> Result<Ending, Fail> {
    let words: Vec<String> = words
        .iter()
        .map(|word| String::from_str(alloc, word))
        .try_collect(alloc)?;
    let mut waits = TRACE;
    waits[25] = 0x01;
    let files: [(&str, &[u8]); 6] = [
        ("i", &HELLO),
        ("t", &TRACE),
        ("h", &TRACE[..60]),
        ("d", &waits),
        ("o", b"step 0\nstep 0 # the second instruction\n"),
        ("x", b"step 0\n\nstep 8\n"),
    ];
    let mut names = Vec::new(alloc);
    let mut contents = Vec::new(alloc);
    for (name, bytes) in files {
        names.push(String::from_str(alloc, name)?)?;
        contents.push(Vec::from_slice(alloc, bytes)?)?;
    }
    if names.len() != contents.len() {
        return Err("each file has a name".into());
    }
    let mut shelf = SureShelf::make(alloc, &names, &contents)?;
    let mut out = SureSink::make(alloc, 1 << 16)?;
    let mut err = SureSink::make(alloc, 1 << 12)?;
    let status = laboratory(alloc, &words, &mut shelf, &mut out, &mut err);
    Ok(Ending {
        status,
        out,
        err,
        shelf,
    })
}

/// Words, how the program ends, and how what it puts to `out` and to `err` begins.
const ROWS: &[(&[&str], Status, &str, &str)] = &[
    (&["--version"], Status::Done, "elide-lab 0.9.0\n", ""),
    (
        &["shows"],
        Status::Refused,
        "",
        "error: unrecognized subcommand 'shows'\n",
    ),
    (&["info", "t"], Status::Done, "version 2\n", ""),
    (
        &["info", "h"],
        Status::Refused,
        "",
        "error: h: trace fault 1 Short at byte 60\n",
    ),
    (
        &["info", "i"],
        Status::Refused,
        "",
        "error: i: trace fault 2 Magic at byte 0\n",
    ),
    (
        &["show", "t", "t"],
        Status::Refused,
        "",
        "error: t: image fault 2 Magic at byte 0\n",
    ),
    (
        &["info", "none"],
        Status::Refused,
        "",
        "error: none: trace fault 1 Short at byte 0\n",
    ),
    (
        &["show", "i", "t", "--to", "0"],
        Status::Done,
        "0 hart 0 step 00010054 li a0,1: a0 = 0x1\n",
        "",
    ),
    (
        &["show", "i", "t", "--hart", "1"],
        Status::Refused,
        "",
        "error: t: no such hart: harts 1\n",
    ),
    (
        &["show", "i", "t", "--from", "38"],
        Status::Refused,
        "",
        "error: t: place over the end: events 37\n",
    ),
    (
        &["state", "i", "t", "0"],
        Status::Done,
        "hart 0 at 00010054, running\n",
        "",
    ),
    (&["locks", "i", "t"], Status::Done, "no acquire\n", ""),
    (
        &["lines", "i", "t"],
        Status::Done,
        "line      missed_reads  served  owners\n00010040             1       1       1\n",
        "",
    ),
    (
        &["lines", "i", "d"],
        Status::Differs,
        "",
        "error: d: at event 1 another outcome came than the trace records: is this its image?\n",
    ),
    (
        &["state", "i", "t", "38"],
        Status::Refused,
        "",
        "error: t: place over the end: events 37\n",
    ),
    (
        &["run", "i", "--order", "x"],
        Status::Refused,
        "",
        "error: x: line 3 is no event: write 'step 0', 'order 0', 'serve 0' or 'deliver 0' with a hart that there is\n",
    ),
    (
        &["run", "i", "--order", "o"],
        Status::StillRuns,
        "",
        "elide tlr harts 1 events 2\nhart 0 ran 2 ",
    ),
    (
        &["run", "i", "--random", "1"],
        Status::Done,
        "A\n",
        "elide tlr harts 1 events ",
    ),
];

#[test]
fn each_command_ends_as_it_should(rt: HostRuntime) -> Result<(), Fail> {
    for (words, status, out, err) in ROWS {
        let ending = answer(rt.alloc(), words)?;
        assert!(rt;
            ending.status == *status
                && ending.out.taken().starts_with(out.as_bytes())
                && ending.err.taken().starts_with(err.as_bytes()),
            "{words:?}"
        );
    }
    Ok(())
}

/// The page goes to its file, and nothing is said.
#[test]
fn a_page_is_written(rt: HostRuntime) -> Result<(), Fail> {
    let ending = answer(rt.alloc(), &["page", "i", "t", "p"])?;
    assert!(rt;
        ending.status == Status::Done
            && ending.out.taken().is_empty()
            && ending.err.taken().is_empty()
            && ending.shelf.contents("p").starts_with(b"<!DOCTYPE html>\n")
    );
    Ok(())
}

/// The trace that a run writes says what it did: two events.
#[test]
fn a_trace_is_written(rt: HostRuntime) -> Result<(), Fail> {
    let ending = answer(rt.alloc(), &["run", "i", "--order", "o", "--trace", "w"])?;
    // The head with its configuration, the usual one, and the number of events; then two steps that ran.
    same(&rt, ending.shelf.contents("w").len(), 26);
    assert!(rt;
        ending
            .shelf
            .contents("w")
            .ends_with(&[2, 0, 0, 0, 0x00, 0x04, 0x00, 0x04])
    );
    Ok(())
}
