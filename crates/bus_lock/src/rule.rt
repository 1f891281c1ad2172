//! The rule of the lock's table, and the names of its steps.
ghost use Rattle.std.specs.Prelude.{length};
ghost use Rattle.bus_lock.specs.Locks.{boxed};
ghost use Rattle.bus_lock.specs.Rule.{Ticketed};
ghost use Rattle.bus_lock.specs.Steps.{drawn, joined, learned, left_half, looked, noted, opened, right_half, spent};

use crate::view::View;
use atomic_table::{Join, Play, Split, TableRule};
use el_base::Chronicled;
use std::snapshot::Snapshot;

/// The next ticket to be drawn.
pub(crate) const NEXT: usize = 0;

/// The ticket that is served.
pub(crate) const SERVING: usize = 1;

/// The length of the history.
pub(crate) const COUNT: usize = 2;

pub struct Ticketing;

impl<M: Chronicled> TableRule<Option<Box<M>>, View, Snapshot<M>> for Ticketing {
    ghost use Rattle.bus_lock.specs.Steps.{at_first};

    ghost holds = { λ key. Ticketed (boxed M.entries) (boxed M.opening) (M.opening key.value) (length (M.entries key.value)) };

    ghost first = { λ key. at_first (M.opening key.value) (M.entries key.value) };
}

pub(crate) struct Draw;

impl<M> Play<Option<M>, View> for Draw {
    ghost then = { drawn };
}

pub(crate) struct Look;

impl<M: Chronicled> Play<Option<Box<M>>, View> for Look {
    ghost then = { looked (boxed M.entries) (boxed M.opening) };
}

pub(crate) struct Note;

impl<M: Chronicled> Play<Option<Box<M>>, View> for Note {
    ghost then = { noted (boxed M.entries) };
}

pub(crate) struct Open;

impl<M> Play<Option<M>, View> for Open {
    ghost then = { opened };
}

pub(crate) struct Learn;

impl<M> Play<Option<M>, View> for Learn {
    ghost then = { learned };
}

pub(crate) struct Halves;

impl Split<View> for Halves {
    ghost left = { left_half };

    ghost right = { right_half };
}

pub(crate) struct Both;

impl Join<View> for Both {
    ghost both = { joined };

    ghost spent = { spent };
}
