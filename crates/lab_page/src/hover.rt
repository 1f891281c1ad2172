//! What a page says of what is pointed at.

use crate::bars::Bar;
use crate::escape::put_escaped;
use crate::kinds::Kind;
use crate::lanes::Arrow;
use el_base::{Cause, LINE_BYTES, NoMemory};
use elf_symbols::Symbols;
use lab::{Ended, Try};
use lab_names::Named;
use std::alloc::Global;

/// Puts what a section was: whose, at which acquire, in which events, and how it ended.
pub(crate) fn put_section(
    alloc: Global,
    out: &mut String,
    symbols: &Symbols,
    begun: &Try,
) -> Result<(), NoMemory> {
    write!(out, "hart {} at ", begun.hart.number)?;
    put_named(alloc, out, symbols, begun.acquire.pc)?;
    out.push_str(", lock word ")?;
    put_named(alloc, out, symbols, begun.acquire.word)?;
    write!(out, ", from event {} ", begun.first)?;
    put_end(alloc, out, symbols, begun.ended)
}

/// Puts how a section ended.
fn put_end(
    alloc: Global,
    out: &mut String,
    symbols: &Symbols,
    ended: Ended,
) -> Result<(), NoMemory> {
    match ended {
        Ended::Live => out.push_str("on: live at the end")?,
        Ended::Committed { at, count } => {
            write!(out, "to {at}: committed with {count} instructions")?;
        }
        Ended::LostTo {
            at,
            ran,
            winner,
            line,
        } => {
            let winner = winner.number;
            write!(
                out,
                "to {at}: lost to hart {winner} after {ran} instructions"
            )?;
            if let Some(line) = line {
                out.push_str(", over line ")?;
                put_named(alloc, out, symbols, line.number * LINE_BYTES)?;
            }
        }
        Ended::RolledBack { at, ran, cause } => {
            let why = words_of(cause);
            write!(out, "to {at}: rolled back after {ran} instructions: {why}")?;
        }
    }
    Ok(())
}

fn words_of(cause: Cause) -> &'static str {
    match cause {
        Cause::Room => "no room in the cache",
        Cause::Lines => "too many lines",
        Cause::Long => "too long",
        Cause::Call => "a call or a stop",
        Cause::Mixed => "another store to the lock",
    }
}

/// Puts an address with its symbol.
fn put_named(
    alloc: Global,
    out: &mut String,
    symbols: &Symbols,
    address: u32,
) -> Result<(), NoMemory> {
    let named = format!(in alloc; "{}", Named { address, symbols })?;
    put_escaped(out, &named)
}

/// Puts how many pieces of each kind a bar has.
pub(crate) fn put_bar(out: &mut String, bar: &Bar) -> Result<(), NoMemory> {
    let mut before = "";
    for kind in Kind::ALL {
        let count = bar.counts[kind.number()];
        if count > 0 {
            let words = kind.words();
            write!(out, "{before}{count} {words}")?;
            before = "; ";
        }
    }
    Ok(())
}

/// Puts who lost to whom.
pub(crate) fn put_arrow(out: &mut String, arrow: &Arrow) -> Result<(), NoMemory> {
    let winner = arrow.winner.number;
    let loser = arrow.loser.number;
    write!(out, "hart {winner} beat hart {loser}")?;
    if arrow.times > 1 {
        write!(out, " {} times", arrow.times)?;
    }
    Ok(())
}
