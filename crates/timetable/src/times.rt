//! The table of a history, in one pass.
ghost use Rattle.std.specs.Prelude.{◌≡◌, ℕ, ◌<◌, ◌≤◌, IsTrue, List, None, map, sum};
ghost use Rattle.std.specs.List.{range_with_len};
ghost use Rattle.chronicle.specs.Tally.{tally_of};
ghost use Rattle.el_base.specs.Winners.{winner_over};
ghost use Rattle.el_base.specs.declared.entries.Entry.{Entry};
ghost use Rattle.timetable.specs.Counting.{Follows, IsWithin, most_events, most_units};
ghost use Rattle.timetable.specs.Rows.{instr_in, lost_in, row_at, times_in, units_in};
ghost use Rattle.timetable.specs.Table.{instr_of, lost_of, table_of, times_of, units_of};
ghost use Rattle.timetable.specs.Unsettled.{freed_by};

use crate::hart_times::HartTimes;
use el_base::{Chronicled, Entry, Freed, HartId, Losers, MAX_HARTS};
use std::marker::Model;

/// A row for each hart that a machine can have, by its number.
type Rows = [HartTimes; MAX_HARTS as usize];

/// Units of work of each hart, and who lost how often to whom.
#[derive(Drop)]
pub struct Times {
    rows: Rows,
}

impl Model for Times {
    ghost use Rattle.std.specs.Prelude.{ℕ, ◌<◌, List};
    ghost use Rattle.timetable.specs.Counting.{IsWithin, most_events};
    ghost use Rattle.timetable.specs.Rows.{row_at};
    ghost use Rattle.timetable.specs.declared.hart_times.HartTimes.{HartTimes};

    ghost Value = { List HartTimes };

    ghost view = { λ times. times.rows };

    ghost invariant = { λ times. (h : ℕ) → h < 8 → IsWithin most_events (row_at times.rows h) };
}

/// The table of a history. It is made in one pass, takes no memory and refuses nothing.
pub fn tabulate<C: Chronicled>(history: &C) -> Times
    ensures { result ≡ table_of (C.entries history.now) }
{
    let mut rows = [HartTimes::nothing(); MAX_HARTS as usize];
    for place in 0..history.length() {
        count(&mut rows, history.entry(place));
    }
    Times { rows }
}

impl Times {
    /// The units of the hart's own events, and of the charges for its losses.
    pub fn units(&self, hart: HartId) -> u64
        ensures exact { result ≡ units_in self.now hart.number }
        ensures small { result ≤ most_units }
    {
        self.rows[hart.number as usize].units
    }

    /// The instructions that the hart lost, whoever won.
    pub fn lost(&self, hart: HartId) -> u64
        ensures { result ≡ lost_in self.now hart.number }
    {
        self.rows[hart.number as usize].lost
    }

    /// How often `loser` lost to `winner`.
    pub fn times(&self, loser: HartId, winner: HartId) -> u64
        ensures { result ≡ times_in self.now loser.number winner.number }
    {
        self.rows[loser.number as usize].to[winner.number as usize].times
    }

    /// The instructions that `loser` lost to `winner`.
    pub fn instr(&self, loser: HartId, winner: HartId) -> u64
        ensures { result ≡ instr_in self.now loser.number winner.number }
    {
        self.rows[loser.number as usize].to[winner.number as usize].instr
    }

    /// What the table of a history says of each hart, by sums over the history.
    #[tactic(auto, using(crate::proofs::Readings::readings))]
    pub fn says_what_the_history_does()
        ensures units { (entries : List Entry) (h : ℕ) → h < 8 → units_in (table_of entries) h ≡ units_of h entries }
        ensures lost { (entries : List Entry) (h : ℕ) → h < 8 → lost_in (table_of entries) h ≡ lost_of h entries }
        ensures times { (entries : List Entry) (h w : ℕ) → h < 8 → w < 8 →
            times_in (table_of entries) h w ≡ times_of h w entries }
        ensures instr { (entries : List Entry) (h w : ℕ) → h < 8 → w < 8 →
            instr_in (table_of entries) h w ≡ instr_of h w entries }
    {}

    /// The losses of a hart to all harts together are the conflicts of its tally.
    #[tactic(auto, using(crate::proofs::Conflicts::losses_are_conflicts))]
    pub fn losses_are_the_conflicts()
        ensures { (entries : List Entry) (h : ℕ) →
            sum (map (λ w. times_of h w entries) (range_with_len 0 8)) ≡ (tally_of h entries).conflict }
    {}
}

/// Counts an event for its hart, for those that lost in it and for those that it let go.
fn count(rows: &mut Rows, entry: Entry)
    requires { (h : ℕ) → h < 8 → IsWithin most_events (row_at rows.old h) }
    ensures { (h : ℕ) → h < 8 → Follows h entry (row_at rows.old h) (row_at rows.new h) }
{
    if is_of_its_hart_alone(entry) {
        let own = entry.event.hart;
        rows[own.number as usize].count(own, entry);
    } else {
        count_for_all(rows, entry);
    }
}

/// Whether no section lost in the event and no hart was let go by it.
fn is_of_its_hart_alone(entry: Entry) -> bool
    ensures nobody_lost { IsTrue result → (h : ℕ) → winner_over entry.outcome h ≡ None }
    ensures nobody_freed { IsTrue result → (h : ℕ) → freed_by entry.outcome h ≡ 0 }
{
    entry.outcome.losers() == Losers::none() && entry.outcome.freed() == Freed::none()
}

/// Counts an event for every hart.
fn count_for_all(rows: &mut Rows, entry: Entry)
    requires { (h : ℕ) → h < 8 → IsWithin most_events (row_at rows.old h) }
    ensures { (h : ℕ) → h < 8 → Follows h entry (row_at rows.old h) (row_at rows.new h) }
{
    for number in 0..MAX_HARTS {
        rows[number as usize].count(HartId { number }, entry);
    }
}
