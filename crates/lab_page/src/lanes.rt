//! What is drawn beside sections: waits, the bus, and losses.

use crate::kinds::Kind;
use crate::pieces::Piece;
use crate::scale::Scale;
use el_base::{HartId, MAX_HARTS, NoMemory};
use lab::{Fact, LineFact};
use std::alloc::Global;

/// Losses in one column of one hart's sections to another.
#[derive(Clone, Copy, Debug, PartialEq, Eq)]
pub(crate) struct Arrow {
    pub(crate) column: u32,
    pub(crate) winner: HartId,
    pub(crate) loser: HartId,
    pub(crate) times: u32,
}

/// The waits of harts: each from the column in which a request was raised to the one in which a request of the hart was
/// served, or to the last one.
pub(crate) fn wait_pieces(
    alloc: Global,
    facts: &[Fact],
    scale: Scale,
) -> Result<Vec<Piece>, NoMemory> {
    let mut pieces = Vec::new(alloc);
    let mut since: [Option<u32>; MAX_HARTS as usize] = [None; MAX_HARTS as usize];
    for fact in facts {
        let column = scale.column(fact.place);
        match fact.what {
            LineFact::Missed { hart, .. } => since[usize::from(hart.number)] = Some(column),
            LineFact::Served { hart, .. } => {
                if let Some(first) = since[usize::from(hart.number)] {
                    pieces.push(waited(hart, first, column))?;
                }
                since[usize::from(hart.number)] = None;
            }
            _ => (),
        }
    }
    for number in 0..MAX_HARTS {
        if let Some(first) = since[usize::from(number)] {
            pieces.push(waited(HartId { number }, first, scale.width - 1))?;
        }
    }
    Ok(pieces)
}

fn waited(hart: HartId, first: u32, last: u32) -> Piece {
    let kind = Kind::Waited;
    Piece {
        hart,
        first,
        last,
        kind,
    }
}

/// What the bus did: requests that were served, and changes of owners. Its lane is told by hart 0.
pub(crate) fn bus_pieces(
    alloc: Global,
    facts: &[Fact],
    scale: Scale,
) -> Result<Vec<Piece>, NoMemory> {
    let mut pieces = Vec::new(alloc);
    for fact in facts {
        if let Some(kind) = bus_kind(fact.what) {
            let column = scale.column(fact.place);
            pieces.push(Piece {
                hart: HartId { number: 0 },
                first: column,
                last: column,
                kind,
            })?;
        }
    }
    Ok(pieces)
}

fn bus_kind(what: LineFact) -> Option<Kind> {
    match what {
        LineFact::Served { .. } => Some(Kind::Served),
        LineFact::Owner { .. } => Some(Kind::Moved),
        _ => None,
    }
}

/// The losses of facts that stand in the order of their places: those of one column to one winner are one arrow.
pub(crate) fn arrows(alloc: Global, facts: &[Fact], scale: Scale) -> Result<Vec<Arrow>, NoMemory> {
    let mut arrows = Vec::new(alloc);
    let mut times = [[0; MAX_HARTS as usize]; MAX_HARTS as usize];
    let mut standing = 0;
    for fact in facts {
        if let LineFact::Lost { winner, loser } = fact.what {
            let column = scale.column(fact.place);
            if column != standing {
                put_arrows(&mut arrows, standing, &times)?;
                times = [[0; MAX_HARTS as usize]; MAX_HARTS as usize];
                standing = column;
            }
            let count = &mut times[usize::from(winner.number)][usize::from(loser.number)];
            *count = count.saturating_add(1);
        }
    }
    put_arrows(&mut arrows, standing, &times)?;
    Ok(arrows)
}

/// Puts the arrows of one column.
fn put_arrows(
    arrows: &mut Vec<Arrow>,
    column: u32,
    times: &[[u32; MAX_HARTS as usize]; MAX_HARTS as usize],
) -> Result<(), NoMemory> {
    for winner in 0..MAX_HARTS {
        for loser in 0..MAX_HARTS {
            let times = times[usize::from(winner)][usize::from(loser)];
            if times > 0 {
                arrows.push(Arrow {
                    column,
                    winner: HartId { number: winner },
                    loser: HartId { number: loser },
                    times,
                })?;
            }
        }
    }
    Ok(())
}
