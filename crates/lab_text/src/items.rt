//! What an event did, one thing after another.

ghost use Rattle.std.specs.Prelude.{◌≡◌, []};
ghost use Rattle.lab_text.specs.Items.{items_of};

use crate::telling::{tell_outcome, tell_what};
use arrayvec::ArrayVec;
use bus_order::Request;
use el_base::{Cause, HartId, LineAddr, Need, Outcome, Why};
use lab::Shown;
use mail::Message;
use moesi::Letter;
use std::marker::Model;

/// One thing that an event did.
#[derive(Clone, Copy, Debug, PartialEq, Eq)]
pub enum Item {
    /// A section began: its lock word, what the word has, and what the section shows there.
    Began {
        word: u32,
        old: u32,
        new: u32,
    },
    /// The instruction ran in a section, and is kept private.
    Private,
    /// The section over this lock word took effect, with so many instructions.
    Committed {
        word: u32,
        count: u32,
    },
    /// The section over this lock word was rolled back by its own hart.
    RolledBack {
        word: u32,
        cause: Cause,
    },
    /// What the hart runs from this `LR.W` on is kept private.
    Armed,
    /// So many instructions that the hart kept private since its `LR.W` took effect.
    LetGo {
        count: u32,
    },
    /// `len` bytes of memory were read, 1, 2 or 4: the value as the register has it into which it went, `None` where that
    /// is register 0.
    Read {
        address: u32,
        len: u32,
        value: Option<u32>,
    },
    /// `len` bytes of memory were stored, 1, 2 or 4: their value, `None` of an atomic operation whose read value is not
    /// known.
    Stored {
        address: u32,
        len: u32,
        value: Option<u32>,
    },
    /// `len` bytes of memory were appended to the output.
    Appended {
        address: u32,
        len: u32,
    },
    /// The register x1 to x31 of this number has another value now.
    Register {
        index: u8,
        value: u32,
    },
    /// The hart went on elsewhere than at the next instruction in memory.
    Went {
        to: u32,
    },
    /// The hart made the exit call.
    Exited {
        code: u32,
    },
    /// The hart trapped.
    Trapped {
        cause: u8,
    },
    /// The step needs a line that its cache does not give, and a request was raised.
    Missed {
        line: LineAddr,
        need: Need,
    },
    /// The hart waits for its request to be served.
    Stalled,
    /// The request that was ordered or is to be served.
    Asked {
        request: Request,
    },
    /// The place that the request took in the order, from 0 on.
    At {
        place: usize,
    },
    /// A hart's cache knows something else of the line.
    Turned {
        hart: HartId,
        from: Letter,
        to: Letter,
    },
    /// The message that was taken.
    Took {
        message: Message,
    },
    /// The request of the probe's origin.
    About {
        request: Request,
    },
    /// The request was not served.
    Blocked {
        why: Why,
        by: HartId,
    },
    /// The section of `loser` was lost to `winner`.
    Lost {
        loser: HartId,
        winner: HartId,
    },
    /// So many instructions that the hart kept private since its `LR.W` took effect, by another hart's event.
    Freed {
        hart: HartId,
        count: u8,
    },
}

/// What stands in the places of a list that are not used. It tells nothing.
impl Default for Item {
    fn default() -> Item {
        Item::Stalled
    }
}

/// The most items of an event, and some more.
pub(crate) const PLACES: usize = 64;

/// Items, in their order.
pub(crate) type List = ArrayVec<Item, PLACES>;

/// What an event did, all of it.
#[derive(Drop)]
pub struct Items {
    list: List,
}

impl Model for Items {
    ghost use Rattle.std.specs.Prelude.{List};
    ghost use Rattle.lab_text.specs.declared.items.Item.{Item};

    ghost Value = { List Item };

    ghost view = { λ told. told.list.items };
}

impl Items {
    /// What an event did, in a fixed order: what it was about and what came of it, then whose section lost by it and who was
    /// let go.
    pub fn of(shown: &Shown) -> Items
        ensures { result ≡ items_of shown.now }
    {
        let mut list = ArrayVec::new();
        tell(&mut list, shown);
        Items { list }
    }

    /// The items, first to last.
    pub fn as_slice(&self) -> &[Item]
        ensures { result.now ≡ self.now }
    {
        &self.list
    }
}

/// Tells what an event did, behind nothing. Who only reads the items calls this with a list of its own: an `Items` that is
/// given back is copied whole.
#[tactic(auto, unfolding(crate::specs::Items::items_of))]
pub(crate) fn tell(list: &mut List, shown: &Shown)
    requires { list.old.items ≡ [] }
    ensures { list.new.items ≡ items_of shown.now }
{
    match shown.outcome {
        Outcome::Idle => (),
        outcome => {
            tell_what(list, outcome, &shown.what);
            tell_outcome(list, outcome);
        }
    }
}
