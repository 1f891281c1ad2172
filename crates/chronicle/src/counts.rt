//! What the entries of a history count for, one after another.

ghost use Rattle.std.specs.Prelude.{◌≡◌, [], ℕ, ◌+◌, ◌<◌, ◌≤◌, ◌^◌, is_some, length};
ghost use Rattle.chronicle.specs.Counting.{HasRoom, IsCounted, tally_at, with_loss};
ghost use Rattle.chronicle.specs.Serial.{most_effects, taking_effect};
ghost use Rattle.chronicle.specs.Tally.{IsTallyOf, has_lost, of_entry, of_outcome, plus};
ghost use Rattle.el_base.specs.Losers.{beaten_by};

use crate::tally::Tally;
use el_base::{Cause, Entry, HartId, Losers, MAX_HARTS, Outcome};

/// A tally for each hart that a machine can have, by its number.
type Tallies = [Tally; MAX_HARTS as usize];

/// What some entries count for.
#[derive(Clone, Copy)]
pub struct Counts {
    /// The tally of each hart.
    pub tallies: [Tally; MAX_HARTS as usize],
    /// The length of the serial order.
    pub steps: u64,
}

impl Counts {
    /// What no entries count for.
    pub fn none() -> Counts
        ensures { IsCounted [] result }
    {
        Counts {
            tallies: [Tally::default(); MAX_HARTS as usize],
            steps: 0,
        }
    }

    /// Counts an entry more.
    #[inline(always)]
    pub fn count(&mut self, entry: Entry)
        requires tallies { (hart : ℕ) → hart < 8 → HasRoom (tally_at self.old.tallies hart) }
        requires steps { self.old.steps + most_effects < 2 ^ 64 }
        ensures tallies { (hart : ℕ) → hart < 8 →
            tally_at self.new.tallies hart ≡ plus (tally_at self.old.tallies hart) (of_entry hart entry) }
        ensures small { (hart : ℕ) → IsTallyOf 1 (of_entry hart entry) }
        ensures steps { self.new.steps
            ≡ self.old.steps + length (taking_effect entry.event.hart.number entry.outcome) }
        ensures few { length (taking_effect entry.event.hart.number entry.outcome) ≤ most_effects }
    {
        self.steps += count(&mut self.tallies, entry);
    }
}

/// Counts an event, for its hart and for the harts whose sections lost in it, and says how many
/// instructions took effect in it.
///
/// An idle event counts for nothing, and is seen first: where harts seldom wait, most events are idle.
#[inline(always)]
fn count(tallies: &mut Tallies, entry: Entry) -> u64
    requires { (hart : ℕ) → hart < 8 → HasRoom (tally_at tallies.old hart) }
    ensures exact { (hart : ℕ) → hart < 8 →
        tally_at tallies.new hart ≡ plus (tally_at tallies.old hart) (of_entry hart entry) }
    ensures small { (hart : ℕ) → IsTallyOf 1 (of_entry hart entry) }
    ensures steps { result ≡ length (taking_effect entry.event.hart.number entry.outcome) }
    ensures few { result ≤ most_effects }
{
    if let Outcome::Idle = entry.outcome {
        return 0;
    }
    let own = entry.event.hart.number as usize;
    let steps = count_own(&mut tallies[own], entry.outcome);
    count_losses(tallies, entry.outcome);
    steps
}

/// Counts an event of a hart's own by its outcome, and says how many instructions took effect in it. It stands where the
/// event is recorded, so that the outcome's kind is told once for its counts and for its row.
#[inline(always)]
#[tactic(auto, unfolding(crate::specs::Tally::plus, crate::specs::Tally::IsTallyOf, crate::specs::Counting::HasRoom))]
fn count_own(tally: &mut Tally, outcome: Outcome) -> u64
    requires { HasRoom tally.old }
    ensures exact { tally.new ≡ plus tally.old (of_outcome outcome) }
    ensures small { IsTallyOf 1 (of_outcome outcome) }
    ensures steps { (h : ℕ) → result ≡ length (taking_effect h outcome) }
    ensures few { result ≤ most_effects }
{
    match outcome {
        Outcome::Ran => {
            tally.ran += 1;
            return 1;
        }
        Outcome::Began => tally.began += 1,
        Outcome::Committed { count } => {
            tally.committed += 1;
            tally.instr += u64::from(count);
            return count.into();
        }
        Outcome::LetGo { count } => return count.into(),
        Outcome::Ordered { freed, .. } | Outcome::Served { freed, .. } => return freed.total(),
        Outcome::RolledBack { cause: Cause::Room } => tally.room += 1,
        Outcome::RolledBack {
            cause: Cause::Lines,
        } => tally.lines += 1,
        Outcome::RolledBack { cause: Cause::Long } => tally.long += 1,
        Outcome::RolledBack { cause: Cause::Call } => tally.call += 1,
        Outcome::RolledBack {
            cause: Cause::Mixed,
        } => tally.mixed += 1,
        Outcome::Missed { .. } => tally.missed += 1,
        Outcome::Stalled => tally.stalled += 1,
        Outcome::Blocked { .. } => tally.blocked += 1,
        Outcome::Idle | Outcome::Buffered | Outcome::Delivered { .. } | Outcome::Armed => (),
    }
    0
}

/// Counts an event for the harts whose sections lost in it. Most outcomes name nobody, which is seen without a call.
#[inline(always)]
fn count_losses(tallies: &mut Tallies, outcome: Outcome)
    requires { (hart : ℕ) → hart < 8 → (tally_at tallies.old hart).conflict + 1 < 2 ^ 64 }
    ensures { (hart : ℕ) → hart < 8 →
        tally_at tallies.new hart ≡ with_loss (tally_at tallies.old hart) (has_lost hart outcome) }
{
    match outcome {
        Outcome::Ordered { losers, .. }
        | Outcome::Served { losers, .. }
        | Outcome::Delivered { losers } => count_losers(tallies, losers),
        _ => (),
    }
}

/// Counts a conflict for each of the losers.
fn count_losers(tallies: &mut Tallies, losers: Losers)
    requires { (hart : ℕ) → hart < 8 → (tally_at tallies.old hart).conflict + 1 < 2 ^ 64 }
    ensures { (hart : ℕ) → hart < 8 →
        tally_at tallies.new hart ≡ with_loss (tally_at tallies.old hart) (is_some (beaten_by losers hart)) }
{
    if losers == Losers::none() {
        return;
    }
    for number in 0..MAX_HARTS {
        if losers.winner_of(HartId { number }).is_some() {
            tallies[number as usize].conflict += 1;
        }
    }
}
