//! The files and the words of a number.

use crate::drawn::Drawn;
use crate::making::{at, hostile};
use std::alloc::{AllocError, Global};

/// How many of the files are images, and of how many of these no instruction is atomic.
const IMAGES: usize = 6;

const PLAYED: usize = 2;

/// How many are traces.
const TRACES: usize = 3;

/// In which bytes the headers of an image stand, and those of a trace.
const IMAGE_HEAD: usize = 116;

const TRACE_HEAD: usize = 22;

/// The files that a run's image is made of: images, and then traces.
pub const RUNS: [&str; 9] = [
    "worked.elf",
    "hello.elf",
    "table.elf",
    "counter.elf",
    "lock_word.elf",
    "overflow.elf",
    "bare.trace",
    "worked.trace",
    "locks.trace",
];

/// The files that a trace is made of: traces, and then images.
pub const REPLAYS: [&str; 9] = [
    "bare.trace",
    "worked.trace",
    "locks.trace",
    "worked.elf",
    "hello.elf",
    "table.elf",
    "counter.elf",
    "lock_word.elf",
    "overflow.elf",
];

const MODES: [&str; 3] = ["plain", "sle", "tlr"];

/// A command over the files `a` and `t`.
#[derive(Drop)]
pub struct Case {
    pub image: Vec<u8>,
    pub trace: Vec<u8>,
    pub words: Vec<String>,
    /// How many harts it has, where its files are accepted.
    pub harts: usize,
}

impl Case {
    /// The case of a number: a run of a hostile image, or the replay of a hostile trace.
    pub fn of(
        alloc: Global,
        number: u64,
        runs: &[Vec<u8>],
        replays: &[Vec<u8>],
    ) -> Result<Case, AllocError> {
        let mut drawn = Drawn::new(number);
        if drawn.below(2) == 0 {
            run(alloc, &mut drawn, runs)
        } else {
            replay(alloc, &mut drawn, runs, replays)
        }
    }
}

/// A run, on one hart in the plain mode or on some in any mode.
fn run(alloc: Global, drawn: &mut Drawn, files: &[Vec<u8>]) -> Result<Case, AllocError> {
    let harts = if drawn.below(4) == 0 {
        drawn.below(8).saturating_add(1)
    } else {
        1
    };
    let mode = if harts == 1 { 0 } else { drawn.below(3) };
    let steps = drawn.below(20_000).saturating_add(1);
    let image = hostile(alloc, drawn, files, IMAGES, IMAGE_HEAD)?;
    let mut words = strings(alloc, &["run", "a", "--mode"])?;
    words.push(String::from_str(alloc, MODES.get(mode).unwrap_or(&""))?)?;
    words.push(format!(in alloc; "--harts={harts}")?)?;
    words.push(format!(in alloc; "--steps={steps}")?)?;
    Ok(Case {
        image,
        trace: Vec::new(alloc),
        words,
        harts,
    })
}

/// A replay on an image that was not changed.
fn replay(
    alloc: Global,
    drawn: &mut Drawn,
    runs: &[Vec<u8>],
    files: &[Vec<u8>],
) -> Result<Case, AllocError> {
    let image = at(runs, drawn.below(PLAYED)).to_vec(alloc)?;
    let trace = hostile(alloc, drawn, files, TRACES, TRACE_HEAD)?;
    let harts = usize::from(trace.get(5).copied().unwrap_or(0));
    Ok(Case {
        image,
        trace,
        words: strings(alloc, &["replay", "a", "t"])?,
        harts,
    })
}

fn strings(alloc: Global, words: &[&str]) -> Result<Vec<String>, AllocError> {
    words
        .iter()
        .map(|word| String::from_str(alloc, word))
        .try_collect(alloc)
}
