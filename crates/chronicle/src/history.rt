ghost use Rattle.std.specs.Prelude.{◌≡◌, ◌∷◌, ◌++◌, [], ◌<◌, ◌≤◌, length, IfOk};
ghost use Rattle.chronicle.specs.Chronicle.{Chronicle, spare_of};
ghost use Rattle.chronicle.specs.Serial.{serial};
ghost use Rattle.chronicle.specs.Tally.{tally_of};

use crate::counts::Counts;
use crate::entries::Entries;
use crate::tally::Tally;
use el_base::{Chronicled, Entry, HartId, NoMemory};
use std::alloc::Global;
use std::marker::Model;

/// The events that a machine has made, with their outcomes, and room for those that it may still
/// make. What they count for is kept beside them as they come.
#[derive(Drop)]
pub struct History {
    entries: Entries,
    counts: Counts,
}

impl Model for History {
    ghost use Rattle.chronicle.specs.Chronicle.{Chronicle};
    ghost use Rattle.chronicle.specs.Counting.{KeepsCounts};

    ghost Value = { Chronicle };

    ghost view = { λ h. h.entries };

    ghost invariant = { λ h. KeepsCounts h.entries h.counts };
}

impl History {
    /// A history of no events, with places for `steps` of them.
    pub fn make(alloc: Global, steps: u32) -> Result<History, NoMemory>
        ensures { IfOk result (λ history. history ≡ record { entries = []; places = steps }) }
    {
        Ok(History {
            entries: Entries::make(alloc, steps)?,
            counts: Counts::none(),
        })
    }

    /// How many more entries there is a place for.
    pub fn spare(&self) -> u32
        ensures exact { result ≡ spare_of self.now }
        ensures within { length self.now.entries ≤ self.now.places }
    {
        self.entries.spare()
    }

    /// Puts an entry behind all others.
    #[inline(always)]
    pub fn push(&mut self, entry: Entry)
        requires { 1 ≤ spare_of self.old }
        ensures { self.new ≡ record self.old { entries = self.old.entries ++ entry ∷ [] } }
    {
        self.counts.count(entry);
        self.entries.push(entry);
    }

    /// The length of the serial order: one for each instruction that ran outside of a section, the count
    /// of each commit and of each letting go, and those of the harts that an order or a serve let go.
    pub fn serial_len(&self) -> u64
        ensures { result ≡ length (serial self.now.entries) }
    {
        self.counts.steps
    }

    /// What the history says of a hart.
    pub fn tally(&self, hart: HartId) -> Tally
        ensures { result ≡ tally_of hart.number self.now.entries }
    {
        self.counts.tallies[usize::from(hart.number)]
    }
}

impl Chronicled for History {
    ghost use Rattle.std.specs.Prelude.{[]};

    ghost opening = { λ _. [] };

    ghost entries = { λ history. history.entries };

    fn length(&self) -> u32 {
        self.entries.length()
    }

    fn entry(&self, place: u32) -> Entry {
        self.entries.entry(place)
    }
}
