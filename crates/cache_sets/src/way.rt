ghost use Rattle.std.specs.Prelude.{◌≡◌};
ghost use Rattle.cache_sets.specs.Kept.{new_way};

use crate::bits::Bits;
use bitflags::Flags;
use el_base::{LineAddr, Need};
use moesi::Letter;

/// What is known of a line in a set.
#[derive(Clone, Copy, Debug, PartialEq, Eq)]
pub struct Way {
    pub line: LineAddr,
    pub letter: Letter,
    pub bits: Bits,
}

impl Way {
    ghost use Rattle.cache_sets.specs.Kept.{cleared_way, committed_way, shown_way};
    ghost use Rattle.residency.specs.Residency.{is_marked};

    /// The way of a line that comes: no bit is set.
    pub fn new(line: LineAddr, letter: Letter) -> Way
        ensures { result ≡ new_way line letter }
    {
        Way {
            line,
            letter,
            bits: Bits::empty(),
        }
    }

    /// Whether the way has a bit.
    pub fn is_marked(&self) -> bool
        ensures { result ≡ is_marked (shown_way self.now) }
    {
        self.bits.has(Need::Read) || self.bits.has(Need::Write)
    }

    /// The way without bits.
    pub fn cleared(self) -> Way
        ensures { result ≡ cleared_way self }
    {
        Way {
            bits: Bits::empty(),
            ..self
        }
    }

    /// The way after its hart's section committed: a written line is modified, and no bit is left.
    pub fn committed(self) -> Way
        ensures { result ≡ committed_way self }
    {
        let letter = if self.bits.has(Need::Write) {
            Letter::M
        } else {
            self.letter
        };
        Way {
            letter,
            ..self.cleared()
        }
    }
}
