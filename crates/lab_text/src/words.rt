//! The words for small things.

ghost use Rattle.std.specs.Prelude.{◌≡◌, ◌*◌};

use el_base::{Cause, Kind, LINE_BYTES, LineAddr, Need, Why};
use moesi::Letter;
use std::fmt;

/// The address of the first byte of a line.
pub(crate) fn first_byte(line: LineAddr) -> u32
    ensures { result ≡ line.number * 64 }
{
    line.number * LINE_BYTES
}

pub(crate) fn kind_word(kind: Kind) -> &'static str {
    match kind {
        Kind::Step => "step",
        Kind::Order => "order",
        Kind::Serve => "serve",
        Kind::Deliver => "deliver",
    }
}

pub(crate) fn need_word(need: Need) -> &'static str {
    match need {
        Need::Read => "read",
        Need::Write => "write",
    }
}

/// The word of a report for a cause.
pub(crate) fn cause_word(cause: Cause) -> &'static str {
    match cause {
        Cause::Room => "room",
        Cause::Lines => "lines",
        Cause::Long => "long",
        Cause::Call => "call",
        Cause::Mixed => "mixed",
    }
}

/// How the hart that is in the way stands to a request.
pub(crate) fn why_word(why: Why) -> &'static str {
    match why {
        Why::Behind => "behind",
        Why::Retained => "retained by",
        Why::Locked => "locked by",
    }
}

pub(crate) fn letter_word(letter: Letter) -> &'static str {
    match letter {
        Letter::M => "M",
        Letter::O => "O",
        Letter::E => "E",
        Letter::S => "S",
        Letter::I => "I",
    }
}

/// So many bytes.
pub(crate) fn bytes(count: u32) -> Counted {
    Counted {
        count: count.into(),
        noun: "byte",
    }
}

/// So many instructions.
pub(crate) fn instructions(count: u32) -> Counted {
    Counted {
        count: count.into(),
        noun: "instruction",
    }
}

/// So many of something: `1 byte`, `4 bytes`.
#[derive(Clone, Copy)]
pub(crate) struct Counted {
    pub(crate) count: u64,
    /// The word for one of them.
    pub(crate) noun: &'static str,
}

impl fmt::Display for Counted {
    fn fmt<W: fmt::Write>(&self, f: &mut fmt::Formatter<W>) -> fmt::Result {
        let count = self.count;
        let noun = self.noun;
        let ending = if count == 1 { "" } else { "s" };
        write!(f, "{count} {noun}{ending}")
    }
}
