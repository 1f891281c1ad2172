//! The rows of acquires.

ghost use Rattle.std.specs.Prelude.{◌≡◌, ◌<◌, ◌^◌, IfOk, List, length};
ghost use Rattle.lab.specs.declared.swaps.PlainSwap.{PlainSwap};
ghost use Rattle.lab.specs.declared.tries.Try.{Try};
ghost use Rattle.lab_tables.specs.LockRows.{AreLockRows, IsLockRow};
ghost use Rattle.lab_tables.specs.LockCounts.{AreLossesTo, AreOf, ShowsEach};

use chronicle::Tally;
use el_base::{HartId, MAX_HARTS, NoMemory};
use lab::{
    Acquire, AcquireCounts, NotElided, PlainSwap, Tallies, Try, acquires_of, losses_to, lost_instr,
    plain_swaps, tally_acquires,
};
use std::alloc::Global;

/// What the acquires of a row are.
#[derive(Clone, Copy, Debug, PartialEq, Eq)]
pub enum LockKind {
    /// They take a lock.
    Take,
    /// They give it back, and were elided all the same.
    Release,
}

/// What the sections and the plain swaps of one acquire came to.
#[derive(Clone, Copy, Debug, PartialEq, Eq)]
pub struct LockRow {
    pub kind: LockKind,
    pub acquire: Acquire,
    /// Its sections: how many began, committed, were lost (`conflict`) and were rolled back for each cause, and the
    /// instructions that took effect (`instr`). The other numbers are 0.
    pub sections: Tally,
    /// How many of them were lost to each hart, by its number.
    pub lost_to: [u64; MAX_HARTS as usize],
    /// Instructions of sections that were lost or rolled back.
    pub in_vain: u64,
    pub plain: PlainRuns,
}

/// How often a swap ran outside of a section, by the reason. A pair of LR and SC is none.
#[derive(Clone, Copy, Debug, PartialEq, Eq)]
pub struct PlainRuns {
    /// The mode elides nothing.
    pub plain_mode: u64,
    /// The lock was taken after sections that were rolled back or lost too often.
    pub fallback: u64,
    /// The swap's place was not trusted enough.
    pub confidence: u64,
    /// The swap was no candidate.
    pub no_candidate: u64,
}

/// The counts of all acquires.
#[derive(Drop)]
struct Counts {
    sections: Tallies,
    /// One a hart, by its number.
    lost_to: Vec<AcquireCounts>,
    in_vain: AcquireCounts,
    plain_mode: AcquireCounts,
    fallback: AcquireCounts,
    confidence: AcquireCounts,
    no_candidate: AcquireCounts,
}

/// The rows of all acquires of these sections and swaps, each once, in the order of `acquires_of`. Each list is gone
/// through once for each number.
pub fn lock_rows(
    alloc: Global,
    kind: LockKind,
    tries: &[Try],
    swaps: &[PlainSwap],
) -> Result<Vec<LockRow>, NoMemory>
    requires { length tries.now < 2 ^ 32 }
    ensures { IfOk result (λ rows. AreLockRows kind tries.now swaps.now rows.items) }
{
    let acquires = acquires_of(alloc, tries, swaps)?;
    let counts = Counts::of(alloc, tries, swaps)?;
    let mut rows = Vec::new(alloc);
    for acquire in &acquires {
        rows.push(counts.row(kind, *acquire))?;
    }
    Ok(rows)
}

impl Counts {
    fn of(alloc: Global, tries: &[Try], swaps: &[PlainSwap]) -> Result<Counts, NoMemory>
        requires { length tries.now < 2 ^ 32 }
        ensures { IfOk result (λ counts. AreOf tries.now swaps.now counts) }
    {
        Ok(Counts {
            sections: tally_acquires(alloc, tries)?,
            lost_to: losses(alloc, tries)?,
            in_vain: lost_instr(alloc, tries)?,
            plain_mode: plain_swaps(alloc, swaps, NotElided::PlainMode)?,
            fallback: plain_swaps(alloc, swaps, NotElided::Fallback)?,
            confidence: plain_swaps(alloc, swaps, NotElided::Confidence)?,
            no_candidate: plain_swaps(alloc, swaps, NotElided::NoCandidate)?,
        })
    }

    /// The row of an acquire.
    fn row(&self, kind: LockKind, acquire: Acquire) -> LockRow
        requires { length self.now.lost_to.items ≡ 8 }
        ensures row { (tries : List Try) (swaps : List PlainSwap) → AreOf tries swaps self.now →
            IsLockRow kind tries swaps result }
        ensures acquire { result.acquire ≡ acquire }
    {
        LockRow {
            kind,
            acquire,
            sections: self.sections.of(acquire),
            lost_to: each_of(&self.lost_to, acquire),
            in_vain: self.in_vain.of(acquire),
            plain: PlainRuns {
                plain_mode: self.plain_mode.of(acquire),
                fallback: self.fallback.of(acquire),
                confidence: self.confidence.of(acquire),
                no_candidate: self.no_candidate.of(acquire),
            },
        }
    }
}

/// How many sections of each acquire were lost to each hart.
fn losses(alloc: Global, tries: &[Try]) -> Result<Vec<AcquireCounts>, NoMemory>
    requires { length tries.now < 2 ^ 32 }
    ensures { IfOk result (λ lists. AreLossesTo tries.now lists.items) }
{
    let mut lists = Vec::new(alloc);
    for number in 0..MAX_HARTS {
        lists.push(losses_to(alloc, tries, HartId { number })?)?;
    }
    Ok(lists)
}

/// The number of an acquire in each of these eight.
fn each_of(lists: &[AcquireCounts], acquire: Acquire) -> [u64; MAX_HARTS as usize]
    requires { length lists.now ≡ 8 }
    ensures { ShowsEach lists.now acquire result }
{
    let mut numbers = [0; MAX_HARTS as usize];
    for (hart, counts) in lists.iter().enumerate() {
        numbers[hart] = counts.of(acquire);
    }
    numbers
}
