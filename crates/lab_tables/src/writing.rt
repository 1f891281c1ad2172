//! Rows laid out as a table.

use crate::cells::{Cell, CellText, Column, Row};
use crate::lines::Beats;
use crate::marks::{put_csv, put_json};
use el_base::NoMemory;
use elf_symbols::Symbols;
use lab_words::Layout;
use std::alloc::Global;

/// Writes rows in a layout. The names of the columns are those of a row that says nothing.
///
/// As text, a line of names stands above a line for each row, and a column that says nothing in any row is left out. As
/// comma-separated values (RFC 4180), a row of names stands above the rows. As JSON, each row is an object on a line of
/// its own, with its losses as a list of objects.
pub fn write_table<R: Row>(
    alloc: Global,
    out: &mut String,
    rows: &[R],
    symbols: &Symbols,
    layout: Layout,
) -> Result<(), NoMemory> {
    let names = R::nothing().columns(alloc)?;
    match layout {
        Layout::Text => write_text(alloc, out, &names, rows, symbols),
        Layout::Json => write_json(alloc, out, rows, symbols),
        Layout::Csv => write_csv(alloc, out, &names, rows, symbols),
    }
}

/// How wide a column is, and whether it says anything.
#[derive(Clone, Copy)]
struct Fit {
    width: usize,
    is_shown: bool,
}

fn write_text<R: Row>(
    alloc: Global,
    out: &mut String,
    names: &[Column],
    rows: &[R],
    symbols: &Symbols,
) -> Result<(), NoMemory> {
    let mut fits = Vec::new(alloc);
    for column in names {
        fits.push(Fit {
            width: column.name.len(),
            is_shown: false,
        })?;
    }
    for row in rows {
        widen(alloc, &mut fits, &row.columns(alloc)?, symbols)?;
    }
    put_names(out, &fits, names)?;
    for row in rows {
        put_text(alloc, out, &fits, &row.columns(alloc)?, symbols)?;
    }
    Ok(())
}

/// Makes each column as wide as a row needs it.
fn widen(
    alloc: Global,
    fits: &mut Vec<Fit>,
    columns: &[Column],
    symbols: &Symbols,
) -> Result<(), NoMemory> {
    for (fit, column) in fits.iter_mut().zip(columns) {
        let text = text_of(alloc, &column.cell, symbols)?;
        *fit = Fit {
            width: fit.width.max(text.len()),
            is_shown: fit.is_shown || !column.cell.is_nothing(),
        };
    }
    Ok(())
}

/// A cell as it is read.
fn text_of(alloc: Global, cell: &Cell, symbols: &Symbols) -> Result<String, NoMemory> {
    Ok(format!(in alloc; "{}", CellText { cell, symbols })?)
}

/// Puts the line of names.
fn put_names(out: &mut String, fits: &[Fit], names: &[Column]) -> Result<(), NoMemory> {
    let mut gap = 0;
    for (fit, column) in fits.iter().zip(names) {
        if fit.is_shown {
            let is_right = is_number(&column.cell);
            gap = put_padded(out, gap, column.name, fit.width, is_right)?;
        }
    }
    out.push('\n')?;
    Ok(())
}

/// Puts the line of a row.
fn put_text(
    alloc: Global,
    out: &mut String,
    fits: &[Fit],
    columns: &[Column],
    symbols: &Symbols,
) -> Result<(), NoMemory> {
    let mut gap = 0;
    for (fit, column) in fits.iter().zip(columns) {
        if fit.is_shown {
            let text = text_of(alloc, &column.cell, symbols)?;
            let is_right = is_number(&column.cell);
            gap = put_padded(out, gap, &text, fit.width, is_right)?;
        }
    }
    out.push('\n')?;
    Ok(())
}

fn is_number(cell: &Cell) -> bool {
    matches!(cell, Cell::Number(_))
}

/// Puts a text behind a gap, on the right or the left of a width. Gives the gap before the next one: no space is put at
/// the end of a line.
fn put_padded(
    out: &mut String,
    gap: usize,
    text: &str,
    width: usize,
    is_right: bool,
) -> Result<usize, NoMemory> {
    let spare = width.saturating_sub(text.len());
    let (before, after) = if is_right { (spare, 0) } else { (0, spare) };
    if text.is_empty() {
        return Ok(gap.saturating_add(width).saturating_add(2));
    }
    put_spaces(out, gap)?;
    put_spaces(out, before)?;
    out.push_str(text)?;
    Ok(after.saturating_add(2))
}

fn put_spaces(out: &mut String, count: usize) -> Result<(), NoMemory> {
    for _ in 0..count {
        out.push(' ')?;
    }
    Ok(())
}

fn write_json<R: Row>(
    alloc: Global,
    out: &mut String,
    rows: &[R],
    symbols: &Symbols,
) -> Result<(), NoMemory> {
    for row in rows {
        let mut before = '{';
        for column in &row.columns(alloc)? {
            out.push(before)?;
            put_json(out, column.name)?;
            out.push(':')?;
            put_value(alloc, out, &column.cell, symbols)?;
            before = ',';
        }
        out.push_str("}\n")?;
    }
    Ok(())
}

/// Puts a cell as a value of JSON.
fn put_value(
    alloc: Global,
    out: &mut String,
    cell: &Cell,
    symbols: &Symbols,
) -> Result<(), NoMemory> {
    match cell {
        Cell::Number(number) => write!(out, "{number}")?,
        Cell::Word(_) | Cell::Address(_) => put_json(out, &text_of(alloc, cell, symbols)?)?,
        Cell::LostTo(times) => {
            let mut before = "";
            out.push('[')?;
            for (hart, times) in times.iter().enumerate() {
                if *times > 0 {
                    write!(out, "{before}{{\"hart\":{hart},\"times\":{times}}}")?;
                    before = ",";
                }
            }
            out.push(']')?;
        }
        Cell::Beats(beats) => put_beats(out, beats)?,
    }
    Ok(())
}

fn put_beats(out: &mut String, beats: &Beats) -> Result<(), NoMemory> {
    let mut before = "";
    out.push('[')?;
    for (winner, losers) in beats.iter().enumerate() {
        for (loser, times) in losers.iter().enumerate() {
            if *times > 0 {
                write!(
                    out,
                    "{before}{{\"winner\":{winner},\"loser\":{loser},\"times\":{times}}}"
                )?;
                before = ",";
            }
        }
    }
    out.push(']')?;
    Ok(())
}

fn write_csv<R: Row>(
    alloc: Global,
    out: &mut String,
    names: &[Column],
    rows: &[R],
    symbols: &Symbols,
) -> Result<(), NoMemory> {
    let mut before = "";
    for column in names {
        out.push_str(before)?;
        put_csv(out, column.name)?;
        before = ",";
    }
    out.push_str("\r\n")?;
    for row in rows {
        let mut before = "";
        for column in &row.columns(alloc)? {
            out.push_str(before)?;
            put_csv(out, &text_of(alloc, &column.cell, symbols)?)?;
            before = ",";
        }
        out.push_str("\r\n")?;
    }
    Ok(())
}
