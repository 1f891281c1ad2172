//! The program `hostile_files`: files that were changed, cut or joined, given to the program.
//!
//! `hostile_files FIRST COUNT` draws a file from each number from FIRST on and prints a line for each: how the program
//! ended, what it put to out, as an MD5, and what it put to err. Where the file was accepted and more than one hart ran,
//! it prints only that it ran. `tools/hostile_files.py` finds the same lines with readers of its own.
//! It ends with status 2 where the words are no two numbers.
#![tactic(auto)]

mod answering;
mod case;
mod drawn;
mod making;

use crate::answering::answer;
use crate::case::{Case, REPLAYS, RUNS};
use std::alloc::Global;
use std::process::ExitCode;
use std::{env, fs, io};

/// The status where no numbers are given.
const REFUSED: u8 = 2;

fn main(rt: HostRuntime) -> io::Result<ExitCode> {
    let words: Vec<String> = env::args(&rt)?.skip(1).collect(rt.alloc())?;
    let Some((first, count)) = numbers(&words) else {
        eprintln!(rt; "usage: hostile_files FIRST COUNT")?;
        return Ok(ExitCode::from(REFUSED));
    };
    let runs = files(&rt, &RUNS)?;
    let replays = files(&rt, &REPLAYS)?;
    for number in first..first.saturating_add(count) {
        let case = Case::of(rt.alloc(), number, &runs, &replays)?;
        let text = answer(&rt, rt.alloc(), &case)?;
        println!(rt; "{number} {text}")?;
    }
    Ok(ExitCode::SUCCESS)
}

/// The two numbers of the words.
fn numbers(words: &[String]) -> Option<(u64, u64)> {
    match words {
        [first, count] => Some((first.parse().ok()?, count.parse().ok()?)),
        _ => None,
    }
}

/// The files of these names.
fn files(rt: &HostRuntime, names: &[&str]) -> io::Result<Vec<Vec<u8>>> {
    let mut files: Vec<Vec<u8>> = Vec::new(rt.alloc());
    for name in names {
        files.push(fs::read(rt, *name)?)?;
    }
    Ok(files)
}
