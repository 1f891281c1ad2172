//! What a hart waits for, as a line of text.

use crate::words::{Counted, first_byte};
use el_base::{HartId, MAX_HARTS, NoMemory};
use elf_symbols::Symbols;
use lab::{Times, Wait};
use lab_names::Named;

/// Puts behind a text where a hart stands after so many events, as a line: its pc, the line that it waits for, to whom its
/// sections were lost and how often, and since how many events no instruction of it took effect. What does not apply is left
/// out.
pub fn write_wait(
    out: &mut String,
    hart: HartId,
    wait: &Wait,
    times: &Times,
    events: u32,
    symbols: &Symbols,
) -> Result<(), NoMemory> {
    let number = hart.number;
    let at = Named {
        address: wait.pc,
        symbols,
    };
    write!(out, "hart {number} at {at}")?;
    if let Some(line) = wait.line {
        let line = Named {
            address: first_byte(line),
            symbols,
        };
        write!(out, " waits for line {line}")?;
    }
    write_losses(out, hart, times)?;
    write_standstill(out, wait.last, events)?;
    out.push('\n')?;
    Ok(())
}

/// To whom a hart lost, and how often.
fn write_losses(out: &mut String, hart: HartId, times: &Times) -> Result<(), NoMemory> {
    let mut lead = ", lost";
    for number in 0..MAX_HARTS {
        let count = times.times(hart, HartId { number });
        if count > 0 {
            let times = Counted {
                count,
                noun: "time",
            };
            write!(out, "{lead} {times} to hart {number}")?;
            lead = ",";
        }
    }
    Ok(())
}

/// In how many of the last events no instruction took effect.
fn write_standstill(out: &mut String, last: Option<u32>, events: u32) -> Result<(), NoMemory> {
    let since = events.saturating_sub(last.map_or(0, |last| last.saturating_add(1)));
    if since > 0 {
        let events = Counted {
            count: since.into(),
            noun: "event",
        };
        write!(out, "; no instruction took effect in the last {events}")?;
    }
    Ok(())
}
