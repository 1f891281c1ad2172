//! The rows in which a history keeps its entries, of eight bytes each.

ghost use Rattle.std.specs.Prelude.{◌≡◌, ◌↔◌, Some, length};
ghost use Rattle.chronicle.specs.Rows.{IsAmong, entry_of, outcome_of};

use el_base::{Entry, Event, HartId, Outcome, Why};
use std::mem::size_of;

/// An outcome that says at most two bytes beside its name, as most of a run's do.
#[derive(Clone, Copy)]
pub enum Brief {
    Idle,
    Stalled,
    Ran,
    Began,
    Buffered,
    Blocked { why: Why, by: HartId },
    Armed,
}

impl Brief {
    /// The outcome where it is brief, or `None` where it says more.
    #[inline(always)]
    pub fn of(outcome: Outcome) -> Option<Brief>
        ensures { (brief : Brief) → (result ≡ Some brief) ↔ (outcome_of brief ≡ outcome) }
    {
        match outcome {
            Outcome::Idle => Some(Brief::Idle),
            Outcome::Stalled => Some(Brief::Stalled),
            Outcome::Ran => Some(Brief::Ran),
            Outcome::Began => Some(Brief::Began),
            Outcome::Buffered => Some(Brief::Buffered),
            Outcome::Blocked { why, by } => Some(Brief::Blocked { why, by }),
            Outcome::Armed => Some(Brief::Armed),
            Outcome::Missed { .. }
            | Outcome::Committed { .. }
            | Outcome::RolledBack { .. }
            | Outcome::Ordered { .. }
            | Outcome::Served { .. }
            | Outcome::Delivered { .. }
            | Outcome::LetGo { .. } => None,
        }
    }

    /// The outcome that this is.
    fn outcome(self) -> Outcome
        ensures { result ≡ outcome_of self }
    {
        match self {
            Brief::Idle => Outcome::Idle,
            Brief::Stalled => Outcome::Stalled,
            Brief::Ran => Outcome::Ran,
            Brief::Began => Outcome::Began,
            Brief::Buffered => Outcome::Buffered,
            Brief::Blocked { why, by } => Outcome::Blocked { why, by },
            Brief::Armed => Outcome::Armed,
        }
    }
}

/// An entry as it is kept. An outcome that is not brief lies in a list of such outcomes, at `place`.
#[derive(Clone, Copy)]
pub enum Row {
    Short { event: Event, outcome: Brief },
    Listed { event: Event, place: u32 },
}

// Most steps of a run take a row alone, so its size is what a run pays the system for.
const _: () = prove!(size_of::<Brief>() == 3);

const _: () = prove!(size_of::<Row>() == 8);

impl Row {
    /// The entry that is kept in the row, beside the list of outcomes.
    pub fn entry(self, long: &[Outcome]) -> Entry
        requires { IsAmong (length long.now) self }
        ensures { result ≡ entry_of long.now self }
    {
        match self {
            Row::Short { event, outcome } => Entry {
                event,
                outcome: outcome.outcome(),
            },
            Row::Listed { event, place } => Entry {
                event,
                outcome: long[place as usize],
            },
        }
    }
}
