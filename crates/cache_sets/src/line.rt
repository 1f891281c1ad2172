ghost use Rattle.std.specs.Prelude.{◌≡◌};
ghost use Rattle.cache_sets.specs.Kept.{cleared_way, committed_way, with_way};

use crate::way::Way;
use line_pool::Slot;

/// A line in a set: what is known of it, and the slot of its bytes.
#[derive(Drop)]
pub struct Line {
    pub way: Way,
    pub slot: Slot,
}

impl Line {
    ghost use Rattle.cache_sets.specs.Kept.{shown_line};
    ghost use Rattle.residency.specs.Residency.{is_marked};

    /// Whether the line has a bit.
    pub fn is_marked(&self) -> bool
        ensures { result ≡ is_marked (shown_line self.now) }
    {
        self.way.is_marked()
    }

    /// The line has no bit any more.
    pub fn clear_bits(&mut self)
        ensures { self.new ≡ with_way cleared_way self.old }
    {
        self.way = self.way.cleared();
    }

    /// The line becomes modified where it is written, and has no bit any more.
    pub fn commit_bits(&mut self)
        ensures { self.new ≡ with_way committed_way self.old }
    {
        self.way = self.way.committed();
    }
}
