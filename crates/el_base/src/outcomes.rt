ghost use Rattle.std.specs.Prelude.{◌≡◌, ℕ};
ghost use Rattle.el_base.specs.LetGo.{freed_of_outcome};
ghost use Rattle.el_base.specs.Losers.{beaten_by};
ghost use Rattle.el_base.specs.Winners.{winner_over};

use crate::freed::Freed;
use crate::hart_id::HartId;
use crate::line::LineAddr;
use crate::losers::Losers;

/// What a hart wants of a line.
#[derive(Clone, Copy, Debug, PartialEq, Eq)]
pub enum Need {
    Read,
    Write,
}

/// Why a section was rolled back by its own hart, with no other hart in its way.
#[derive(Clone, Copy, Debug, PartialEq, Eq)]
pub enum Cause {
    /// The cache has no room for a line beside the lines that the section has touched.
    Room,
    /// The section would write more lines than a hart can hold back.
    Lines,
    /// The section has run as many instructions as one may.
    Long,
    /// The next instruction is a call, or it stops the hart.
    Call,
    /// The section stores to its own lock word, and this is not its release.
    Mixed,
}

/// Why a request was not served.
#[derive(Clone, Copy, Debug, PartialEq, Eq)]
pub enum Why {
    /// Another request for the line comes first.
    Behind,
    /// A section keeps the line.
    Retained,
    /// Another hart holds the line until its next step.
    Locked,
}

/// What came of one event.
#[derive(Clone, Copy, Debug, PartialEq, Eq)]
pub enum Outcome {
    /// There was nothing to do.
    Idle,
    /// The hart waits for its request to be served.
    Stalled,
    /// The hart's next instruction needs a line that its cache does not give; a request was raised.
    Missed { line: LineAddr, need: Need },
    /// One instruction ran outside of a section.
    Ran,
    /// A section began: its acquire was elided.
    Began,
    /// One instruction ran in a section.
    Buffered,
    /// A section took effect as a whole, with all its `count` instructions, acquire and release
    /// included.
    Committed { count: u32 },
    /// A section left nothing behind, and its hart stands before the acquire again.
    RolledBack { cause: Cause },
    /// A request took its place in the order; these sections lost to it, and these harts were let go by it.
    Ordered { losers: Losers, freed: Freed },
    /// A request was served; these sections lost to the next one for its line, and these harts were let go
    /// by that.
    Served { losers: Losers, freed: Freed },
    /// A request was not served, because of the hart `by`.
    Blocked { why: Why, by: HartId },
    /// A message was taken; these sections lost by it.
    Delivered { losers: Losers },
    /// An `LR.W` ran, and what its hart runs from it on is kept private until an `SC.W` elides the acquire.
    Armed,
    /// The `count` instructions that the hart kept private since its `LR.W` took effect, and none is private
    /// any more.
    LetGo { count: u32 },
}

impl Outcome {
    /// The harts whose sections lost in the event, which are none where the outcome tells of none.
    pub fn losers(self) -> Losers
        ensures { (h : ℕ) → beaten_by result h ≡ winner_over self h }
    {
        match self {
            Outcome::Ordered { losers, .. }
            | Outcome::Served { losers, .. }
            | Outcome::Delivered { losers } => losers,
            _ => Losers::none(),
        }
    }

    /// The harts that were let go in the event, each with its instructions that took effect, which are none where the
    /// outcome tells of none.
    pub fn freed(self) -> Freed
        ensures { result ≡ freed_of_outcome self }
    {
        match self {
            Outcome::Ordered { freed, .. } | Outcome::Served { freed, .. } => freed,
            _ => Freed::none(),
        }
    }
}
