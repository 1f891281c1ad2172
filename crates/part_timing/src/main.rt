//! The program `part_timing`: it makes one kind of call so many times, for a clock around it to tell what the
//! call costs, as `bench/parts.sh` does.
//!
//! `part_timing PART COUNT` prints the part, the count and a number that the calls came to. Without words it
//! makes each part's call 2,000 times. Words that it refuses end it with status 2.
#![tactic(auto)]

mod caches;
mod holds;
mod one_line;
mod part;
mod steps;

use crate::part::Part;
use std::alloc::{AllocError, Global};
use std::process::ExitCode;
use std::{env, io};

/// How many calls each part makes where nothing is asked.
const FEW: u32 = 2_000;

/// The status where the words are refused.
const REFUSED: u8 = 2;

fn main(rt: HostRuntime) -> io::Result<ExitCode> {
    let words: Vec<String> = env::args(&rt)?.skip(1).collect(rt.alloc())?;
    match words.as_slice() {
        [] => {
            for part in Part::ALL {
                tell(&rt, part, FEW)?;
            }
            Ok(ExitCode::SUCCESS)
        }
        [name, count] => match (Part::with_name(name.as_str()), count.parse::<u32>()) {
            (Some(part), Ok(count)) => {
                tell(&rt, part, count)?;
                Ok(ExitCode::SUCCESS)
            }
            _ => refused(&rt, "no such part, or no count"),
        },
        _ => refused(&rt, "usage: part_timing PART COUNT"),
    }
}

/// Says on standard error why words are refused.
fn refused(rt: &HostRuntime, why: &str) -> io::Result<ExitCode> {
    eprintln!(rt; "{why}")?;
    Ok(ExitCode::from(REFUSED))
}

/// Makes a part's calls, and prints what they came to.
fn tell(rt: &HostRuntime, part: Part, count: u32) -> io::Result<()> {
    let name = part.name();
    let sum = calls(rt.alloc(), part, count)?;
    println!(rt; "{name} {count} {sum}")
}

/// Makes a part's calls, and gives the number that they came to.
fn calls(alloc: Global, part: Part, count: u32) -> Result<u32, AllocError> {
    match part {
        Part::Has => caches::has(alloc, count),
        Part::Letter => caches::letter(alloc, count),
        Part::Touch => caches::touch(alloc, count),
        Part::Room => caches::room(alloc, count),
        Part::Fill => caches::fill(alloc, count),
        Part::Store => holds::store(alloc, count),
        Part::Load => holds::load(alloc, count),
        Part::Drain => holds::drain(alloc, count),
        Part::Flat(insn) => steps::flat(alloc, insn, count),
        Part::Port(insn) => steps::port(alloc, insn, count),
    }
}
