//! The sections of each acquire, counted.

ghost use Rattle.std.specs.Prelude.{◌≡◌, ◌<◌, ◌^◌, [], IfOk, OnOk, length};
ghost use Rattle.chronicle.specs.Tally.{IsTallyOf, SumFits, plus};
ghost use Rattle.lab.specs.Counts.{of_end};
ghost use Rattle.lab.specs.Firsts.{firsts};
ghost use Rattle.lab.specs.Locks.{AreAcquiresOf, AreAmong, AreOnlyOf, AreSeen, all_acquires, of_acquire, same_acquire, tally_at, with_acquire};

use crate::swaps::PlainSwap;
use crate::tries::{Acquire, Ended, Tries, Try};
use chronicle::Tally;
use el_base::{Cause, NoMemory};
use std::alloc::Global;
use std::collections::HashSet;

impl Tries {
    /// The acquires of these sections, each once, in the order of their first sections.
    pub fn acquires(&self, alloc: Global) -> Result<Vec<Acquire>, NoMemory>
        ensures sections { IfOk result (λ acquires. AreAcquiresOf self.now acquires.items) }
        ensures only { IfOk result (λ acquires. AreOnlyOf self.now [] acquires.items) }
        ensures order { IfOk result (λ acquires. acquires.items ≡ firsts same_acquire (all_acquires self.now [])) }
    {
        acquires_of(alloc, self.as_slice(), &[])
    }

    /// What the sections of one acquire came to: how many began, committed, were lost (`conflict`) and were rolled back
    /// for each cause, and how many instructions took effect with them (`instr`). Its other numbers are 0. It goes
    /// through all sections; [`crate::tally_acquires`] makes the rows of all acquires in one pass.
    pub fn counts(&self, acquire: Acquire) -> Tally
        ensures { result ≡ tally_at acquire self.now }
    {
        counts_of(self.as_slice(), acquire)
    }
}

/// The acquires of sections and of swaps that ran outside of them, each once: first those of sections, each in the order
/// of its first one.
pub fn acquires_of(
    alloc: Global,
    tries: &[Try],
    swaps: &[PlainSwap],
) -> Result<Vec<Acquire>, NoMemory>
    ensures sections { IfOk result (λ acquires. AreAcquiresOf tries.now acquires.items) }
    ensures swaps { IfOk result (λ acquires. AreAmong swaps.now acquires.items) }
    ensures only { IfOk result (λ acquires. AreOnlyOf tries.now swaps.now acquires.items) }
    ensures order { IfOk result (λ acquires. acquires.items ≡ firsts same_acquire (all_acquires tries.now swaps.now)) }
{
    let mut acquires = Vec::new(alloc);
    let mut seen = HashSet::new(alloc);
    for begun in tries {
        put(&mut acquires, &mut seen, begun.acquire)?;
    }
    for swap in swaps {
        put(&mut acquires, &mut seen, swap.acquire)?;
    }
    Ok(acquires)
}

/// Puts an acquire behind others, unless it is among them.
fn put(
    acquires: &mut Vec<Acquire>,
    seen: &mut HashSet<(u32, u32)>,
    acquire: Acquire,
) -> Result<(), NoMemory>
    requires { AreSeen acquires.old.items seen.old }
    ensures put { OnOk result (acquires.new.items ≡ with_acquire acquire acquires.old.items) }
    ensures seen { OnOk result (AreSeen acquires.new.items seen.new) }
{
    if seen.insert((acquire.pc, acquire.word))? {
        acquires.push(acquire)?;
    }
    Ok(())
}

/// Whether two acquires are one: the same instruction on the same lock word.
fn is_same(a: Acquire, b: Acquire) -> bool
    ensures { result ≡ same_acquire a b }
{
    a.pc == b.pc && a.word == b.word
}

/// What the sections of an acquire came to.
#[tactic(auto, using(crate::proofs::Rows::row_laws))]
fn counts_of(tries: &[Try], acquire: Acquire) -> Tally
    requires { length tries.now < 2 ^ 32 }
    ensures { result ≡ tally_at acquire tries.now }
{
    let mut counts = Tally::default();
    for begun in tries {
        counts = sum(counts, of_acquire(acquire, begun));
    }
    counts
}

/// What a section counts for in the row of an acquire.
#[tactic(auto, unfolding(chronicle::specs::Tally::IsTallyOf))]
pub(crate) fn of_acquire(acquire: Acquire, begun: &Try) -> Tally
    ensures exact { result ≡ of_acquire acquire begun.now }
    ensures small { IsTallyOf 1 result }
{
    if is_same(begun.acquire, acquire) {
        Tally {
            began: 1,
            ..of_end(begun.ended)
        }
    } else {
        Tally::default()
    }
}

/// What the end of a section counts for.
#[tactic(auto, unfolding(chronicle::specs::Tally::IsTallyOf))]
fn of_end(ended: Ended) -> Tally
    ensures exact { result ≡ of_end ended }
    ensures small { IsTallyOf 1 result }
{
    let nothing = Tally::default();
    match ended {
        Ended::Live => nothing,
        Ended::Committed { count, .. } => Tally {
            committed: 1,
            instr: count.into(),
            ..nothing
        },
        Ended::LostTo { .. } => Tally {
            conflict: 1,
            ..nothing
        },
        Ended::RolledBack { cause, .. } => of_cause(cause),
    }
}

/// What a rollback counts for.
#[tactic(auto, unfolding(chronicle::specs::Tally::IsTallyOf))]
fn of_cause(cause: Cause) -> Tally
    ensures exact { result ≡ of_end (Ended.RolledBack 0 0 cause) }
    ensures small { IsTallyOf 1 result }
{
    let nothing = Tally::default();
    match cause {
        Cause::Room => Tally { room: 1, ..nothing },
        Cause::Lines => Tally {
            lines: 1,
            ..nothing
        },
        Cause::Long => Tally { long: 1, ..nothing },
        Cause::Call => Tally { call: 1, ..nothing },
        Cause::Mixed => Tally {
            mixed: 1,
            ..nothing
        },
    }
}

/// The sums of the numbers of two tallies.
#[tactic(auto, unfolding(chronicle::specs::Tally::plus, chronicle::specs::Tally::SumFits))]
pub(crate) fn sum(a: Tally, b: Tally) -> Tally
    requires { SumFits a b }
    ensures { result ≡ plus a b }
{
    Tally {
        ran: a.ran + b.ran,
        began: a.began + b.began,
        committed: a.committed + b.committed,
        instr: a.instr + b.instr,
        conflict: a.conflict + b.conflict,
        room: a.room + b.room,
        lines: a.lines + b.lines,
        long: a.long + b.long,
        call: a.call + b.call,
        mixed: a.mixed + b.mixed,
        missed: a.missed + b.missed,
        stalled: a.stalled + b.stalled,
        blocked: a.blocked + b.blocked,
    }
}
