//! Rows of `lab_tables` as a table of HTML.

use crate::escape::put_escaped;
use el_base::NoMemory;
use elf_symbols::Symbols;
use lab_tables::{Cell, CellText, Column, Row};
use std::alloc::Global;

/// The most rows that a table of a page has.
const MOST_ROWS: usize = 200;

/// Puts a table with its first rows, and says how many there are beside those. A column that says nothing in any of them is
/// left out.
pub(crate) fn put_table<R: Row>(
    alloc: Global,
    out: &mut String,
    rows: &[R],
    symbols: &Symbols,
) -> Result<(), NoMemory> {
    let names = R::nothing().columns(alloc)?;
    let mut says = Vec::new(alloc);
    for _ in &names {
        says.push(false)?;
    }
    for row in rows.iter().take(MOST_ROWS) {
        note_columns(&mut says, &row.columns(alloc)?);
    }
    out.push_str("<div class=\"wide\"><table>\n<tr>")?;
    for (column, says) in names.iter().zip(&says) {
        if *says {
            write!(out, "<th{}>{}</th>", class_of(&column.cell), column.name)?;
        }
    }
    out.push_str("</tr>\n")?;
    for row in rows.iter().take(MOST_ROWS) {
        put_row(alloc, out, &row.columns(alloc)?, &says, symbols)?;
    }
    out.push_str("</table></div>\n")?;
    if rows.len() > MOST_ROWS {
        let more = rows.len() - MOST_ROWS;
        writeln!(out, "<p>{more} more rows are not shown here.</p>")?;
    }
    Ok(())
}

/// Notes which columns say something.
fn note_columns(says: &mut Vec<bool>, columns: &[Column]) {
    for (says, column) in says.iter_mut().zip(columns) {
        if !column.cell.is_nothing() {
            *says = true;
        }
    }
}

fn put_row(
    alloc: Global,
    out: &mut String,
    columns: &[Column],
    says: &[bool],
    symbols: &Symbols,
) -> Result<(), NoMemory> {
    out.push_str("<tr>")?;
    for (column, says) in columns.iter().zip(says) {
        if *says {
            let cell = &column.cell;
            let text = format!(in alloc; "{}", CellText { cell, symbols })?;
            write!(out, "<td{}>", class_of(cell))?;
            put_escaped(out, &text)?;
            out.push_str("</td>")?;
        }
    }
    out.push_str("</tr>\n")?;
    Ok(())
}

fn class_of(cell: &Cell) -> &'static str {
    match cell {
        Cell::Number(_) => " class=\"number\"",
        _ => "",
    }
}
