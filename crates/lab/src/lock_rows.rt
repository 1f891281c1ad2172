//! Rows of acquires, each list gone through once.

ghost use Rattle.std.specs.Prelude.{◌≡◌, ◌<◌, ◌≤◌, ◌^◌, ◌+◌, IfOk, OnOk, if◌then◌else◌, length};
ghost use Rattle.lab.specs.Locks.{same_acquire};
ghost use Rattle.lab.specs.declared.tries.Acquire.{Acquire};
ghost use Rattle.lab.specs.LockRows.{AreInVain, AreLosses, ArePlain, AreRows, in_vain, lost_to, ran_for, row_at, times_at};

use crate::locks::{of_acquire, sum};
use crate::swaps::{NotElided, PlainSwap};
use crate::tries::{Acquire, Ended, Try};
use chronicle::Tally;
use el_base::{HartId, NoMemory};
use std::alloc::Global;
use std::collections::HashMap;

/// The rows of all acquires.
#[derive(Drop)]
pub struct Tallies {
    /// By the address of the acquire and its lock word.
    rows: HashMap<(u32, u32), Tally>,
}

impl Tallies {
    /// The row of an acquire: what its sections came to, as [`crate::Tries::counts`] has it.
    pub fn of(&self, acquire: Acquire) -> Tally
        ensures { result ≡ row_at self.now.rows acquire }
    {
        row_of(&self.rows, acquire)
    }
}

/// The row of an acquire among those that there are, and else one that says nothing.
fn row_of(rows: &HashMap<(u32, u32), Tally>, acquire: Acquire) -> Tally
    ensures { result ≡ row_at rows.now acquire }
{
    match rows.get(&(acquire.pc, acquire.word)) {
        Some(row) => *row,
        None => Tally::default(),
    }
}

/// The rows of all acquires of sections.
pub fn tally_acquires(alloc: Global, tries: &[Try]) -> Result<Tallies, NoMemory>
    requires { length tries.now < 2 ^ 32 }
    ensures { IfOk result (λ tallies. AreRows tries.now tallies.rows) }
{
    let mut rows = HashMap::new(alloc);
    for begun in tries {
        let acquire = begun.acquire;
        let row = sum(row_of(&rows, acquire), of_acquire(acquire, begun));
        rows.insert((acquire.pc, acquire.word), row)?;
    }
    Ok(Tallies { rows })
}

/// A number for each acquire.
#[derive(Drop)]
pub struct AcquireCounts {
    /// By the address of the acquire and its lock word.
    times: HashMap<(u32, u32), u64>,
}

impl AcquireCounts {
    /// The number of an acquire.
    pub fn of(&self, acquire: Acquire) -> u64
        ensures { result ≡ times_at self.now.times acquire }
    {
        times_of(&self.times, acquire)
    }
}

/// The number of an acquire among those that there are, and else 0.
fn times_of(times: &HashMap<(u32, u32), u64>, acquire: Acquire) -> u64
    ensures { result ≡ times_at times.now acquire }
{
    match times.get(&(acquire.pc, acquire.word)) {
        Some(times) => *times,
        None => 0,
    }
}

/// Adds to the number of an acquire.
fn add(times: &mut HashMap<(u32, u32), u64>, acquire: Acquire, amount: u32) -> Result<(), NoMemory>
    requires { times_at times.old acquire + amount < 2 ^ 64 }
    ensures { OnOk result ((other : Acquire) → times_at times.new other
        ≡ times_at times.old other + (if same_acquire acquire other then amount else 0)) }
{
    let now = times_of(times, acquire) + u64::from(amount);
    times.insert((acquire.pc, acquire.word), now)?;
    Ok(())
}

/// How many sections of each acquire were lost to this hart.
pub fn losses_to(alloc: Global, tries: &[Try], winner: HartId) -> Result<AcquireCounts, NoMemory>
    requires { length tries.now < 2 ^ 32 }
    ensures { IfOk result (λ counts. AreLosses winner.number tries.now counts.times) }
{
    let mut times = HashMap::new(alloc);
    for begun in tries {
        add(&mut times, begun.acquire, lost_to(begun.ended, winner))?;
    }
    Ok(AcquireCounts { times })
}

/// 1 where a section was lost to this hart, and else 0.
fn lost_to(ended: Ended, hart: HartId) -> u32
    ensures { result ≡ lost_to hart.number ended }
{
    match ended {
        Ended::LostTo { winner, .. } if winner.number == hart.number => 1,
        Ended::LostTo { .. } => 0,
        Ended::Live | Ended::Committed { .. } | Ended::RolledBack { .. } => 0,
    }
}

/// How many instructions the sections of each acquire have run in vain: those of sections that were lost or rolled back.
pub fn lost_instr(alloc: Global, tries: &[Try]) -> Result<AcquireCounts, NoMemory>
    requires { length tries.now < 2 ^ 32 }
    ensures { IfOk result (λ counts. AreInVain tries.now counts.times) }
{
    let mut times = HashMap::new(alloc);
    for begun in tries {
        add(&mut times, begun.acquire, in_vain(begun.ended))?;
    }
    Ok(AcquireCounts { times })
}

/// How many instructions of a section were run in vain.
fn in_vain(ended: Ended) -> u32
    ensures { result ≡ in_vain ended }
{
    match ended {
        Ended::LostTo { ran, .. } | Ended::RolledBack { ran, .. } => ran,
        Ended::Live | Ended::Committed { .. } => 0,
    }
}

/// How often the swap of each acquire ran outside of a section for this reason.
pub fn plain_swaps(
    alloc: Global,
    swaps: &[PlainSwap],
    why: NotElided,
) -> Result<AcquireCounts, NoMemory>
    ensures { IfOk result (λ counts. ArePlain why swaps.now counts.times) }
{
    let mut times = HashMap::new(alloc);
    for swap in swaps {
        add(&mut times, swap.acquire, ran_for(why, swap.why))?;
    }
    Ok(AcquireCounts { times })
}

/// 1 where a swap ran for this reason, and else 0.
fn ran_for(why: NotElided, reason: NotElided) -> u32
    ensures exact { result ≡ ran_for why reason }
    ensures small { result ≤ 1 }
{
    if reason == why { 1 } else { 0 }
}
