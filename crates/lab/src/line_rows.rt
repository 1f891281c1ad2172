//! The facts of each line, counted.

ghost use Rattle.std.specs.Prelude.{◌≡◌, IfOk, OnOk};
ghost use Rattle.lab.specs.Firsts.{firsts};
ghost use Rattle.lab.specs.LineRows.{AreCountsOf, AreLinesOf, AreSeenLines, all_lines, is_counted, same_line, times_in, with_line};

use crate::lines::{Fact, LineFact};
use el_base::{HartId, LineAddr, Need, NoMemory};
use std::alloc::Global;
use std::collections::{HashMap, HashSet};

/// What of a line is counted.
#[derive(Clone, Copy, Debug, PartialEq, Eq)]
pub enum LineCount {
    /// Requests that were raised for it, by their need.
    Missed { need: Need },
    /// Requests for it that were served.
    Served,
    /// Changes of its owner.
    Owner,
    /// Sections of one hart that were lost to another, which waited for it.
    Lost { winner: HartId, loser: HartId },
    /// Its bytes written back to main memory.
    WrittenBack,
}

/// How often something happened to each line.
#[derive(Drop)]
pub struct LineCounts {
    /// By the number of the line.
    times: HashMap<u32, u64>,
}

impl LineCounts {
    /// How often it happened to a line.
    pub fn times(&self, line: LineAddr) -> u64
        ensures { result ≡ times_in self.now line.number }
    {
        self.times.get(&line.number).copied().unwrap_or(0)
    }
}

/// How often this happened to each line. It goes through the facts once.
pub fn line_counts(alloc: Global, facts: &[Fact], what: LineCount) -> Result<LineCounts, NoMemory>
    ensures { IfOk result (λ counts. AreCountsOf what facts.now counts) }
{
    let mut times = HashMap::new(alloc);
    for fact in facts {
        if let Some(line) = fact.line {
            if is_counted(what, fact.what) {
                *times.entry(line.number)?.or_insert(0) += 1;
            }
        }
    }
    Ok(LineCounts { times })
}

/// Whether a fact is one that is counted.
fn is_counted(what: LineCount, fact: LineFact) -> bool
    ensures { result ≡ is_counted what fact }
{
    match fact {
        LineFact::Missed { need, .. } => what == LineCount::Missed { need },
        LineFact::Served { .. } => what == LineCount::Served,
        LineFact::Owner { .. } => what == LineCount::Owner,
        LineFact::Lost { winner, loser } => what == LineCount::Lost { winner, loser },
        LineFact::WroteBack { .. } => what == LineCount::WrittenBack,
    }
}

/// The lines of facts, each once, in the order of their first facts.
pub fn lines_of(alloc: Global, facts: &[Fact]) -> Result<Vec<LineAddr>, NoMemory>
    ensures lines { IfOk result (λ lines. AreLinesOf facts.now lines.items) }
    ensures order { IfOk result (λ lines. lines.items ≡ firsts same_line (all_lines facts.now)) }
{
    let mut lines = Vec::new(alloc);
    let mut seen = HashSet::new(alloc);
    for fact in facts {
        if let Some(line) = fact.line {
            put_line(&mut lines, &mut seen, line)?;
        }
    }
    Ok(lines)
}

/// Puts a line behind others, unless it is among them.
fn put_line(
    lines: &mut Vec<LineAddr>,
    seen: &mut HashSet<u32>,
    line: LineAddr,
) -> Result<(), NoMemory>
    requires { AreSeenLines lines.old.items seen.old }
    ensures put { OnOk result (lines.new.items ≡ with_line line lines.old.items) }
    ensures seen { OnOk result (AreSeenLines lines.new.items seen.new) }
{
    if seen.insert(line.number)? {
        lines.push(line)?;
    }
    Ok(())
}
