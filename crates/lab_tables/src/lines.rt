//! The rows of lines.

ghost use Rattle.std.specs.Prelude.{◌≡◌, All, IfOk, List, filter, length};
ghost use Rattle.lab.specs.declared.lines.Fact.{Fact};
ghost use Rattle.lab_tables.specs.LineCounts.{AreAllBeaten, AreBeatenBy, AreOf, ShowsAll, ShowsEach, is_loss};
ghost use Rattle.lab_tables.specs.LineRows.{AreLineRows, IsLineRow};

use el_base::{HartId, LineAddr, MAX_HARTS, Need, NoMemory};
use lab::{Fact, LineCount, LineCounts, LineFact, line_counts, lines_of};
use std::alloc::Global;

/// How often each hart beat each other one: by the number of the winner, and then by that of the loser.
pub type Beats = [[u64; MAX_HARTS as usize]; MAX_HARTS as usize];

/// What happened to one line.
#[derive(Clone, Copy, Debug, PartialEq, Eq)]
pub struct LineRow {
    pub line: LineAddr,
    /// Requests that were raised to read it.
    pub missed_reads: u64,
    /// Requests that were raised to write it.
    pub missed_writes: u64,
    /// Requests for it that were served.
    pub served: u64,
    /// Changes of its owner.
    pub owners: u64,
    /// Times that it left a cache in which it was modified or owned, and was written back.
    pub written_back: u64,
    /// Sections that were lost to a hart that waited for it.
    pub beats: Beats,
}

/// The counts of all lines.
#[derive(Drop)]
struct Counts {
    missed_reads: LineCounts,
    missed_writes: LineCounts,
    served: LineCounts,
    owners: LineCounts,
    written_back: LineCounts,
    /// By the number of the winner, and then by that of the loser.
    beaten: Vec<Vec<LineCounts>>,
}

/// The rows of all lines of these facts, each once, in the order of `lines_of`. The facts are gone through once for each
/// number, and those that tell of losses once for each two harts.
pub fn line_rows(alloc: Global, facts: &[Fact]) -> Result<Vec<LineRow>, NoMemory>
    ensures { IfOk result (λ rows. AreLineRows facts.now rows.items) }
{
    let lines = lines_of(alloc, facts)?;
    let counts = Counts::of(alloc, facts)?;
    let mut rows = Vec::new(alloc);
    for line in &lines {
        rows.push(counts.row(*line))?;
    }
    Ok(rows)
}

impl Counts {
    fn of(alloc: Global, facts: &[Fact]) -> Result<Counts, NoMemory>
        ensures { IfOk result (λ counts. AreOf facts.now counts) }
    {
        let losses = losses_of(alloc, facts)?;
        Ok(Counts {
            missed_reads: line_counts(alloc, facts, LineCount::Missed { need: Need::Read })?,
            missed_writes: line_counts(alloc, facts, LineCount::Missed { need: Need::Write })?,
            served: line_counts(alloc, facts, LineCount::Served)?,
            owners: line_counts(alloc, facts, LineCount::Owner)?,
            written_back: line_counts(alloc, facts, LineCount::WrittenBack)?,
            beaten: all_beaten(alloc, &losses)?,
        })
    }

    /// The row of a line.
    fn row(&self, line: LineAddr) -> LineRow
        requires eight { length self.now.beaten.items ≡ 8 }
        requires each { All (λ list. length list.items ≡ 8) self.now.beaten.items }
        ensures row { (facts : List Fact) → AreOf facts self.now → IsLineRow facts result }
        ensures line { result.line ≡ line }
    {
        LineRow {
            line,
            missed_reads: self.missed_reads.times(line),
            missed_writes: self.missed_writes.times(line),
            served: self.served.times(line),
            owners: self.owners.times(line),
            written_back: self.written_back.times(line),
            beats: all_of(&self.beaten, line),
        }
    }
}

/// Those facts that tell of losses.
fn losses_of(alloc: Global, facts: &[Fact]) -> Result<Vec<Fact>, NoMemory>
    ensures { IfOk result (λ losses. losses.items ≡ filter is_loss facts.now) }
{
    let losses = facts
        .iter()
        .filter(|fact| is_loss(fact))
        .copied()
        .collect(alloc)?;
    Ok(losses)
}

fn is_loss(fact: &Fact) -> bool
    ensures { result ≡ is_loss fact.now }
{
    matches!(fact.what, LineFact::Lost { .. })
}

/// How often each hart beat each other one, over each line.
fn all_beaten(alloc: Global, losses: &[Fact]) -> Result<Vec<Vec<LineCounts>>, NoMemory>
    ensures { IfOk result (λ lists. AreAllBeaten losses.now lists.items) }
{
    let mut lists = Vec::new(alloc);
    for number in 0..MAX_HARTS {
        let winner = HartId::at(number.into());
        lists.push(beaten_by(alloc, losses, winner)?)?;
    }
    Ok(lists)
}

/// How often this hart beat each other one, over each line.
fn beaten_by(alloc: Global, losses: &[Fact], winner: HartId) -> Result<Vec<LineCounts>, NoMemory>
    ensures { IfOk result (λ lists. AreBeatenBy losses.now winner lists.items) }
{
    let mut lists = Vec::new(alloc);
    for number in 0..MAX_HARTS {
        let loser = HartId::at(number.into());
        let what = LineCount::Lost { winner, loser };
        lists.push(line_counts(alloc, losses, what)?)?;
    }
    Ok(lists)
}

/// The number of a line in each of these.
fn all_of(lists: &[Vec<LineCounts>], line: LineAddr) -> Beats
    requires eight { length lists.now ≡ 8 }
    requires each { All (λ list. length list.items ≡ 8) lists.now }
    ensures { ShowsAll lists.now line.number result }
{
    let mut beats = [[0; MAX_HARTS as usize]; MAX_HARTS as usize];
    for (winner, lists) in lists.iter().enumerate() {
        beats[winner] = each_of(lists, line);
    }
    beats
}

/// The number of a line in each of these eight.
fn each_of(lists: &[LineCounts], line: LineAddr) -> [u64; MAX_HARTS as usize]
    requires { length lists.now ≡ 8 }
    ensures { ShowsEach lists.now line.number result }
{
    let mut numbers = [0; MAX_HARTS as usize];
    for (hart, counts) in lists.iter().enumerate() {
        numbers[hart] = counts.times(line);
    }
    numbers
}
