//! The program `worked_runs`: a machine makes the events of runs that another program has computed, and what
//! comes of each event and the state at the end are compared with what that program has found.
//!
//! `worked_runs FILE...` prints a line for each file. It ends with status 0 where the machine agrees with all of
//! them, with 1 where it does not, and with 2 where no file is named. It stands on `machine`, `elf_image` and
//! `serde_json`. The files are in `data/`; README.md tells their form.
#![tactic(auto)]

mod agreement;
mod caches;
mod difference;
mod ending;
mod field;
mod image;
mod making;
mod outcome;
mod requests;
mod worked;

use crate::difference::Difference;
use crate::making::agree;
use std::alloc::Global;
use std::process::ExitCode;
use std::{env, fs, io};

/// The status where no file is named.
const REFUSED: u8 = 2;

fn main(rt: HostRuntime) -> io::Result<ExitCode> {
    let names: Vec<String> = env::args(&rt)?.skip(1).collect(rt.alloc())?;
    if names.is_empty() {
        eprintln!(rt; "usage: worked_runs FILE...")?;
        return Ok(ExitCode::from(REFUSED));
    }
    let mut status = ExitCode::SUCCESS;
    for name in &names {
        let text = fs::read_to_string(&rt, name.as_str())?;
        match agree(rt.alloc(), text.as_str()) {
            Ok(agreement) => println!(rt; "{name}: {agreement}")?,
            Err(difference) => {
                println!(rt; "{name}: {difference}")?;
                status = ExitCode::FAILURE;
            }
        }
    }
    Ok(status)
}
