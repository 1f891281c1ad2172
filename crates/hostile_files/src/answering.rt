//! What the program answers to a case.

use crate::case::Case;
use el_base::NoMemory;
use el_io::{OpenGate, SureShelf, SureSink};
use md5::{Digest, Md5};
use std::alloc::{AllocError, Global};
use std::sync::Wait;
use std::thread::Threads;
use tool::{Status, tool};

/// Room for what is put to out, in bytes: 20,000 steps put fewer.
const OUT_ROOM: usize = 1 << 20;

const ERR_ROOM: usize = 1 << 14;

/// What is printed of the program's answer to a case.
pub fn answer<R: Threads + Wait + Sync>(
    rt: &R,
    alloc: Global,
    case: &Case,
) -> Result<String, AllocError> {
    let names = [String::from_str(alloc, "a")?, String::from_str(alloc, "t")?];
    let contents = [
        Vec::from_slice(alloc, &case.image)?,
        Vec::from_slice(alloc, &case.trace)?,
    ];
    let mut shelf = SureShelf::make(alloc, &names, &contents).map_err(no_memory)?;
    let mut out = SureSink::make(alloc, OUT_ROOM).map_err(no_memory)?;
    let mut err = SureSink::make(alloc, ERR_ROOM).map_err(no_memory)?;
    let status = tool(
        rt,
        alloc,
        &case.words,
        &mut shelf,
        &mut out,
        &mut err,
        &OpenGate::new(),
    );
    if case.harts > 1 && has_run(status) {
        return String::from_str(alloc, "ran");
    }
    let number = status.number();
    let digest = hex::encode(alloc, &Md5::digest(out.taken()))?;
    let text = one_line(alloc, err.taken())?;
    format!(in alloc; "{number} {digest} {text}")
}

fn no_memory(_refused: NoMemory) -> AllocError {
    AllocError
}

/// Whether a run or a replay was made to its end.
fn has_run(status: Status) -> bool {
    matches!(
        status,
        Status::Done | Status::HartFailed | Status::StepLimit | Status::Differs
    )
}

/// Lines as one.
fn one_line(alloc: Global, bytes: &[u8]) -> Result<String, AllocError> {
    let text = String::from_utf8_lossy(alloc, bytes)?;
    let mut joined = String::new(alloc);
    for (index, line) in text.lines().enumerate() {
        if index > 0 {
            joined.push_str("; ")?;
        }
        joined.push_str(line)?;
    }
    Ok(joined)
}
