//! What a row shows.

use crate::lines::Beats;
use el_base::{MAX_HARTS, NoMemory};
use elf_symbols::Symbols;
use lab_names::Named;
use std::alloc::Global;
use std::fmt;

/// One thing that a row shows, under the name of its column.
#[derive(Clone, Copy)]
pub struct Column {
    pub name: &'static str,
    pub cell: Cell,
}

/// What stands in a column.
#[derive(Clone, Copy)]
pub enum Cell {
    Number(u64),
    Word(&'static str),
    /// An address, which is shown with its nearest symbol.
    Address(u32),
    /// How often each hart won, by its number.
    LostTo([u64; MAX_HARTS as usize]),
    /// How often each hart beat each other one.
    Beats(Beats),
}

/// A row of a table.
pub trait Row: Copy {
    /// A row that says nothing.
    fn nothing() -> Self;

    /// What the row shows, the first column first: the same columns of every row.
    fn columns(&self, alloc: Global) -> Result<Vec<Column>, NoMemory>;
}

impl Column {
    pub(crate) fn number(name: &'static str, number: u64) -> Column {
        let cell = Cell::Number(number);
        Column { name, cell }
    }
}

impl Cell {
    /// Whether it says nothing: 0, or no loss.
    pub fn is_nothing(&self) -> bool {
        match self {
            Cell::Number(number) => *number == 0,
            Cell::Word(word) => word.is_empty(),
            Cell::Address(_) => false,
            Cell::LostTo(times) => times.iter().all(|times| *times == 0),
            Cell::Beats(beats) => beats
                .iter()
                .all(|times| times.iter().all(|times| *times == 0)),
        }
    }
}

/// A cell that writes itself to be read: `31`, `00010540 <lock>`, `hart 3 31 times, hart 5 once`, `hart 2 beat hart 5 31
/// times`.
#[derive(Clone, Copy)]
pub struct CellText<'a> {
    pub cell: &'a Cell,
    pub symbols: &'a Symbols,
}

impl fmt::Display for CellText<'_> {
    fn fmt<W: fmt::Write>(&self, f: &mut fmt::Formatter<W>) -> fmt::Result {
        match self.cell {
            Cell::Number(number) => write!(f, "{number}"),
            Cell::Word(word) => f.write_str(word),
            Cell::Address(address) => {
                let address = *address;
                let symbols = self.symbols;
                write!(f, "{}", Named { address, symbols })
            }
            Cell::LostTo(times) => write_lost_to(f, times),
            Cell::Beats(beats) => write_beats(f, beats),
        }
    }
}

fn write_lost_to<W: fmt::Write>(
    f: &mut fmt::Formatter<W>,
    times: &[u64; MAX_HARTS as usize],
) -> fmt::Result {
    let mut separator = "";
    for (hart, times) in times.iter().enumerate() {
        if *times > 0 {
            write!(f, "{separator}hart {hart} ")?;
            write_times(f, *times)?;
            separator = ", ";
        }
    }
    Ok(())
}

fn write_beats<W: fmt::Write>(f: &mut fmt::Formatter<W>, beats: &Beats) -> fmt::Result {
    let mut separator = "";
    for (winner, losers) in beats.iter().enumerate() {
        for (loser, times) in losers.iter().enumerate() {
            if *times > 0 {
                write!(f, "{separator}hart {winner} beat hart {loser} ")?;
                write_times(f, *times)?;
                separator = ", ";
            }
        }
    }
    Ok(())
}

fn write_times<W: fmt::Write>(f: &mut fmt::Formatter<W>, times: u64) -> fmt::Result {
    match times {
        1 => f.write_str("once"),
        times => write!(f, "{times} times"),
    }
}
