//! The caches after the last event.

use crate::difference::Difference;
use crate::field::{element, list, member, text, truth, word};
use bitflags::Flags;
use cache_sets::{Bits, Sets};
use el_base::{HartId, LINE_BYTES, LineAddr, line_of};
use line_pool::Pool;
use machine::Machine;
use moesi::Letter;
use serde_json::Value;

/// Whether the cache of a hart has each line of a run's memory with the letter and the bits that are told of it,
/// no line that is not told of, and a slot of the pool for each. The order of the lines of a set shows in what it evicts.
pub fn cache_agrees(
    machine: &Machine,
    hart: HartId,
    run: &Value,
    told: &Value,
) -> Result<bool, Difference> {
    let bus = machine.bus();
    if usize::from(hart.number) >= bus.harts() {
        return Err(Difference::Form);
    }
    let memory = member(run, "memory")?;
    let base = word(member(memory, "base")?)?;
    let length = word(member(memory, "length")?)?;
    for index in 0..length / LINE_BYTES {
        let line = line_of(base.wrapping_add(LINE_BYTES * index));
        if !line_agrees(bus.sets(hart), line, told)? {
            return Ok(false);
        }
    }
    as_many_are_out(machine.pool(), hart, told)
}

/// Whether as many slots of the pool are out for a hart's cache as it is told to have lines.
fn as_many_are_out(pool: &Pool, hart: HartId, told: &Value) -> Result<bool, Difference> {
    let owner = u16::from(hart.number);
    if usize::from(owner) >= pool.owners() {
        return Err(Difference::Form);
    }
    let mut lines: usize = 0;
    for set in list(told)? {
        lines = lines.saturating_add(list(set)?.len());
    }
    Ok(usize::from(pool.out(owner)) == lines)
}

/// Whether a cache has a line as it is told of: a list of sets, each a list of its lines.
fn line_agrees(sets: &Sets, line: LineAddr, told: &Value) -> Result<bool, Difference> {
    for set in list(told)? {
        for way in list(set)? {
            if word(element(way, 0)?)? == line.number {
                return way_agrees(sets, line, way);
            }
        }
    }
    Ok(sets.letter(line) == Letter::I)
}

/// Whether a line has a letter and bits: a list of its number, its letter, and whether it has the read and the write bit.
fn way_agrees(sets: &Sets, line: LineAddr, told: &Value) -> Result<bool, Difference> {
    let bits = sets.bits(line);
    Ok(
        name(sets.letter(line)) == text(element(told, 1)?)?
            && bits.contains(Bits::READ) == truth(element(told, 2)?)?
            && bits.contains(Bits::WRITE) == truth(element(told, 3)?)?,
    )
}

fn name(letter: Letter) -> &'static str {
    match letter {
        Letter::M => "M",
        Letter::O => "O",
        Letter::E => "E",
        Letter::S => "S",
        Letter::I => "I",
    }
}
