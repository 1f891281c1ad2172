//! The program `elide-lab`: its words, done over the files and streams of the system.
//!
//! It stands on `lab_tool` and `el_io`, and no contract speaks of it. It ends with the number of the top call's status.
#![tactic(auto)]

#[cfg(test)]
mod tests;

use el_io::{FolderShelf, StreamSink};
use lab_tool::{Status, laboratory};
use std::process::ExitCode;
use std::{env, io};

fn main(rt: HostRuntime) -> ExitCode {
    let words = match words(&rt) {
        Ok(words) => words,
        // A word that is no UTF-8 is in no command line, and no words are refused as one is.
        Err(error) if error.kind() == io::ErrorKind::InvalidData => Vec::new(rt.alloc()),
        // The only other error of the words is running out of memory.
        Err(_) => return ExitCode::from(Status::NoMemory.number()),
    };
    let mut shelf = FolderShelf::new(&rt, rt.alloc());
    let mut out = StreamSink::new(rt.stdout());
    let mut err = StreamSink::new(rt.stderr());
    let status = laboratory(rt.alloc(), &words, &mut shelf, &mut out, &mut err);
    ExitCode::from(status.number())
}

/// The words behind the program's name.
fn words(rt: &HostRuntime) -> io::Result<Vec<String>> {
    Ok(env::args(rt)?.skip(1).collect(rt.alloc())?)
}
