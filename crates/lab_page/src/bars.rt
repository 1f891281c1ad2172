//! Pieces drawn together.

ghost use Rattle.std.specs.Prelude.{◌≡◌, ◌+◌, ◌<◌, ◌^◌, IfOk, length, slice_index, slice_set};
ghost use Rattle.lab_page.specs.Bars.{AreBars, bar_at, with_piece};
ghost use Rattle.lab_page.specs.Kinds.{kind_number};

use crate::kinds::{KINDS, Kind};
use crate::pieces::Piece;
use el_base::{HartId, NoMemory};
use std::alloc::Global;

/// The pieces of a lane that begin in one column.
#[derive(Clone, Copy, Debug, PartialEq, Eq)]
pub struct Bar {
    /// The greatest of their last columns.
    pub last: u32,
    /// How many there are of each kind, by its number.
    pub counts: [u64; KINDS],
}

/// The bars of a hart's lane, one a column: each piece of the hart is counted once, in the bar of the column in which it
/// begins, which reaches to its last column.
pub fn together(
    alloc: Global,
    hart: HartId,
    pieces: &[Piece],
    width: u32,
) -> Result<Vec<Bar>, NoMemory>
    ensures { IfOk result (λ bars. AreBars hart.number width pieces.now bars.items) }
{
    let nothing = Bar {
        last: 0,
        counts: [0; KINDS],
    };
    let mut bars = vec![in alloc; nothing; width as usize]?;
    for piece in pieces {
        let column = piece.first as usize;
        if piece.hart.number == hart.number && column < bars.len() {
            put(&mut bars, column, *piece);
        }
    }
    Ok(bars)
}

/// Puts a piece to the bar of a column.
fn put(bars: &mut Vec<Bar>, column: usize, piece: Piece)
    requires inside { column < length bars.old.items }
    requires fits { slice_index (bar_at bars.old.items column).counts (kind_number piece.kind) + 1 < 2 ^ 64 }
    ensures { bars.new.items ≡ slice_set bars.old.items column (with_piece (bar_at bars.old.items column) piece) }
{
    bars[column] = with_piece(bars[column], piece);
}

/// A bar with one piece more.
fn with_piece(bar: Bar, piece: Piece) -> Bar
    requires { slice_index bar.counts (kind_number piece.kind) + 1 < 2 ^ 64 }
    ensures { result ≡ with_piece bar piece }
{
    let number = piece.kind.number();
    let mut counts = bar.counts;
    counts[number] += 1;
    Bar {
        last: bar.last.max(piece.last),
        counts,
    }
}

impl Bar {
    /// The kind of most of its pieces, the first of several; none where it has no piece.
    pub(crate) fn most(&self) -> Option<Kind> {
        let mut most = None;
        let mut best = 0;
        for kind in Kind::ALL {
            let count = self.counts[kind.number()];
            if count > best {
                best = count;
                most = Some(kind);
            }
        }
        most
    }
}
