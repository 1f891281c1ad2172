ghost use Rattle.std.specs.Prelude.{◌≡◌, ◌<◌, List, Some, length, slice_get};

use crate::events::Event;
use crate::outcomes::Outcome;

/// One event of a machine with what came of it. It takes 16 bytes.
#[derive(Clone, Copy, Debug, PartialEq, Eq)]
pub struct Entry {
    pub event: Event,
    pub outcome: Outcome,
}

/// A value that keeps a history: what it began with, and the events that were made since, in their order, with
/// their outcomes.
///
/// What it began with is its opening, a list of numbers that no event changes and no call gives. Two values with
/// one opening have begun alike, so one history goes on from another exactly where their openings are one and its
/// entries begin with the other's.
pub trait Chronicled {
    ghost use Rattle.std.specs.Prelude.{List, ℕ};
    ghost use Rattle.el_base.specs.declared.entries.Entry.{Entry};

    ghost opening: { Self → List ℕ };

    ghost entries: { Self → List Entry };

    /// How many events were made.
    fn length(&self) -> u32
        ensures { result ≡ length (entries self.now) };

    /// The entry of the event at `place`, counted from 0.
    fn entry(&self, place: u32) -> Entry
        requires { place < length (entries self.now) }
        ensures { slice_get (entries self.now) place ≡ Some result };
}
