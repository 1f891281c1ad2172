//! Sections as pieces of lanes.

ghost use Rattle.std.specs.Prelude.{◌≡◌, ◌<◌, IfOk, map};
ghost use Rattle.lab_page.specs.Pieces.{last_place, piece_of};

use crate::kinds::Kind;
use crate::scale::Scale;
use el_base::{HartId, NoMemory};
use lab::{Ended, Try};
use lab_tables::LockKind;
use std::alloc::Global;

/// A piece of a hart's lane, from one column to another.
#[derive(Clone, Copy, Debug, PartialEq, Eq)]
pub struct Piece {
    pub hart: HartId,
    pub first: u32,
    pub last: u32,
    pub kind: Kind,
}

/// The pieces of sections, one each, in their order. What their swaps do to the lock is the same of all.
pub fn section_pieces(
    alloc: Global,
    what: LockKind,
    tries: &[Try],
    scale: Scale,
) -> Result<Vec<Piece>, NoMemory>
    ensures { IfOk result (λ pieces. pieces.items ≡ map (piece_of what scale) tries.now) }
{
    let pieces = tries
        .iter()
        .map(|begun| piece_of(what, scale, begun))
        .collect(alloc)?;
    Ok(pieces)
}

/// The piece of a section: from the column of its first event to that of the event that ended it, or of the last one.
pub(crate) fn piece_of(what: LockKind, scale: Scale, begun: &Try) -> Piece
    ensures { result ≡ piece_of what scale begun.now }
{
    Piece {
        hart: begun.hart,
        first: scale.column(begun.first),
        last: scale.column(last_place(scale, begun.ended)),
        kind: Kind::of(what, begun.ended),
    }
}

/// The place of the event that ended a section, or of the last event.
fn last_place(scale: Scale, ended: Ended) -> u32
    ensures { result ≡ last_place scale ended }
{
    match ended {
        Ended::Live => scale.events - 1,
        Ended::Committed { at, .. } | Ended::LostTo { at, .. } | Ended::RolledBack { at, .. } => at,
    }
}
