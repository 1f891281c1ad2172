//! A run of the program over files in memory.
use el_io::{OpenGate, SureShelf, SureSink};
use std::alloc::{AllocError, Global};
use std::sync::Wait;
use std::test::Fail;
use std::thread::Threads;
use tool::{Status, tool};
use worked_files::{HELLO, TRACE};

/// What `err` takes of a run of it to its end.
pub const REPORT: &str = "elide tlr harts 1 events 37\n\
hart 0 ran 9 began 0 committed 0 instr 0 conflict 0 room 0 lines 0 long 0 call 0 mixed 0 missed 1 stalled 0 blocked 0 exit 0\n\
serial 9 out 2\n";

/// What a run of it puts to err behind its report, where its times are asked for.
pub const TIMES: &str = "time 0 units 34 lost 0\ntime total 34\n";

/// What a report says of each hart after the number of its instructions, where there are no sections.
const NO_SECTIONS: &str =
    "began 0 committed 0 instr 0 conflict 0 room 0 lines 0 long 0 call 0 mixed 0";

/// What it says between that and its status of a hart that touched nothing, and of one that missed one line and got
/// it at once.
pub const TOUCHED_NOTHING: &str = "missed 0 stalled 0 blocked 0";

pub const MISSED_ONE: &str = "missed 1 stalled 0 blocked 0";

/// A report of these first and last lines, and of harts with so many instructions, such requests and such a status.
pub fn report_of(
    alloc: Global,
    first: &str,
    harts: &[(u32, &str, &str)],
    last: &str,
) -> Result<String, AllocError> {
    let mut text = format!(in alloc; "{first}\n")?;
    for (number, (ran, requests, status)) in harts.iter().enumerate() {
        writeln!(
            text,
            "hart {number} ran {ran} {NO_SECTIONS} {requests} {status}"
        )?;
    }
    writeln!(text, "{last}")?;
    Ok(text)
}

pub const USAGE: &str =
    "usage: elide run IMAGE [options], elide replay IMAGE TRACE, elide gen KIND NUMBER FILE\n";

/// Where the code of `HELLO` begins.
const CODE: usize = 84;

/// Where the two lengths of its segment stand.
const LENGTHS: [usize; 2] = [68, 72];

/// Bytes with one of them written over.
pub fn changed(
    alloc: Global,
    bytes: &[u8],
    place: usize,
    value: u8,
) -> Result<Vec<u8>, AllocError> {
    let mut file = bytes.to_vec(alloc)?;
    if let Some(byte) = file.get_mut(place) {
        *byte = value;
    }
    Ok(file)
}

/// The first bytes of a file, and so many zeros behind them.
pub fn resized(
    alloc: Global,
    bytes: &[u8],
    first: usize,
    zeros: usize,
) -> Result<Vec<u8>, AllocError> {
    let mut file = bytes.get(..first).unwrap_or(bytes).to_vec(alloc)?;
    for _ in 0..zeros {
        file.push(0)?;
    }
    Ok(file)
}

/// An image of these instructions, in one segment that is the whole file.
pub fn image_of(alloc: Global, code: &[u32]) -> Result<Vec<u8>, AllocError> {
    let mut file = HELLO[..CODE].to_vec(alloc)?;
    for word in code {
        file.extend_from_slice(&word.to_le_bytes())?;
    }
    let length = file.len().to_le_bytes();
    for place in LENGTHS {
        for (index, byte) in length[..4].iter().enumerate() {
            if let Some(field) = file.get_mut(place + index) {
                *field = *byte;
            }
        }
    }
    Ok(file)
}

pub fn strings(alloc: Global, words: &[&str]) -> Result<Vec<String>, AllocError> {
    words
        .iter()
        .map(|word| String::from_str(alloc, word))
        .try_collect(alloc)
}

/// How the program ended, what it put to out and to err, and the file `t` after it.
#[derive(Debug, Drop)]
pub struct Ending {
    pub status: Status,
    pub out: Vec<u8>,
    pub err: Vec<u8>,
    pub written: Vec<u8>,
}

/// The program's answer to these words, where the file `a` is an image and `t` a trace.
pub fn answer<R: Threads + Wait + Sync>(
    rt: &R,
    alloc: Global,
    words: &[&str],
    image: &[u8],
    trace: &[u8],
) -> Result<Ending, Fail> {
    let names = [String::from_str(alloc, "a")?, String::from_str(alloc, "t")?];
    let contents = [
        Vec::from_slice(alloc, image)?,
        Vec::from_slice(alloc, trace)?,
    ];
    let mut shelf = SureShelf::make(alloc, &names, &contents)?;
    let mut out = SureSink::make(alloc, 1024)?;
    let mut err = SureSink::make(alloc, 2048)?;
    let words = strings(alloc, words)?;
    let status = tool(
        rt,
        alloc,
        &words,
        &mut shelf,
        &mut out,
        &mut err,
        &OpenGate::new(),
    );
    Ok(Ending {
        status,
        out: Vec::from_slice(alloc, out.taken())?,
        err: Vec::from_slice(alloc, err.taken())?,
        written: Vec::from_slice(alloc, shelf.contents("t"))?,
    })
}
