//! The entries of a history, each in a row.

ghost use Rattle.std.specs.Prelude.{◌≡◌, Some, ◌∷◌, ◌++◌, [], ◌≤◌, ◌<◌, length, slice_get, IfOk};
ghost use Rattle.chronicle.specs.Chronicle.{Chronicle, spare_of};

use crate::rows::{Brief, Row};
use el_base::{Entry, NoMemory, Outcome};
use std::alloc::Global;
use std::marker::Model;

/// Entries in their order, and room for more.
#[derive(Drop)]
pub struct Entries {
    rows: Vec<Row>,
    /// The outcomes that are not brief, each with its row.
    long: Vec<Outcome>,
    places: u32,
}

impl Model for Entries {
    ghost use Rattle.std.specs.Prelude.{◌<◌, ◌≤◌, ◌^◌, All, map, vec_len, vec_capacity};
    ghost use Rattle.chronicle.specs.Chronicle.{Chronicle};
    ghost use Rattle.chronicle.specs.Rows.{IsAmong, entry_of};

    ghost Value = { Chronicle };

    ghost view = { λ e. record { entries = map (entry_of e.long.items) e.rows.items; places = e.places } };

    ghost invariant = { λ e.
        (vec_len e.rows ≤ e.places) × (vec_len e.long ≤ vec_len e.rows) × (e.places < 2 ^ 32)
        × (e.places ≤ vec_capacity e.rows) × (e.places ≤ vec_capacity e.long)
        × All (IsAmong (vec_len e.long)) e.rows.items };
}

impl Entries {
    /// No entries, with places for `steps` of them.
    pub fn make(alloc: Global, steps: u32) -> Result<Entries, NoMemory>
        ensures { IfOk result (λ entries. entries ≡ record { entries = []; places = steps }) }
    {
        Ok(Entries {
            rows: Vec::with_capacity(alloc, steps as usize)?,
            long: Vec::with_capacity(alloc, steps as usize)?,
            places: steps,
        })
    }

    /// How many more entries there is a place for.
    pub fn spare(&self) -> u32
        ensures exact { result ≡ spare_of self.now }
        ensures within { length self.now.entries ≤ self.now.places }
    {
        self.places - self.length()
    }

    /// How many entries there are.
    pub fn length(&self) -> u32
        ensures { result ≡ length self.now.entries }
    {
        self.rows.len() as u32
    }

    /// The entry at a place.
    pub fn entry(&self, place: u32) -> Entry
        requires { place < length self.now.entries }
        ensures { slice_get self.now.entries place ≡ Some result }
    {
        self.rows[place as usize].entry(&self.long)
    }

    /// Puts an entry behind all others.
    #[inline(always)]
    pub fn push(&mut self, entry: Entry)
        requires { 1 ≤ spare_of self.old }
        ensures { self.new ≡ record self.old { entries = self.old.entries ++ entry ∷ [] } }
    {
        let Entry { event, outcome } = entry;
        match Brief::of(outcome) {
            Some(outcome) => self.rows.push_reserved(Row::Short { event, outcome }),
            None => self.push_listed(entry),
        }
    }

    /// Puts an entry behind all others, whatever its outcome, with that in the list of outcomes.
    #[inline(always)]
    fn push_listed(&mut self, entry: Entry)
        requires { 1 ≤ spare_of self.old }
        ensures { self.new ≡ record self.old { entries = self.old.entries ++ entry ∷ [] } }
    {
        let Entry { event, outcome } = entry;
        let place = self.long.len() as u32;
        self.long.push_reserved(outcome);
        self.rows.push_reserved(Row::Listed { event, place });
    }
}
