//! The state after the last event.

use crate::caches::cache_agrees;
use crate::difference::Difference;
use crate::field::{byte, element, is_null, list, member, word};
use crate::requests::request_agrees;
use el_base::HartId;
use line_pool::Pool;
use machine::Machine;
use rv_alu::HartView;
use rv_word::Reg;
use section_ctl::{Armed, Live};
use serde_json::Value;

/// The stack pointer: it tells where memory ends, which a loader puts elsewhere. No program of a run uses it.
const STACK_POINTER: usize = 2;

/// Whether a machine has come to the end that a run tells.
pub fn end_agrees(machine: &Machine, run: &Value, end: &Value) -> Result<(), Difference> {
    for (number, hart) in list(member(end, "harts")?)?.iter().enumerate() {
        if !hart_agrees(machine, run, end, number, hart)? {
            return Err(Difference::Hart { number });
        }
    }
    match end.get("bytes_unlike_0") {
        Some(told) => bytes_agree(machine, run, list(told)?),
        None => Ok(()),
    }
}

/// Whether a hart has what an end tells of it.
fn hart_agrees(
    machine: &Machine,
    run: &Value,
    end: &Value,
    number: usize,
    told: &Value,
) -> Result<bool, Difference> {
    let number = u8::try_from(number).map_err(|_| Difference::Form)?;
    let hart = HartId::new(number).ok_or(Difference::Form)?;
    if hart.number >= machine.config().harts {
        return Err(Difference::Form);
    }
    let view = machine.hart(hart);
    let pc = member(told, "pc")?;
    let cache = member(told, "cache")?;
    Ok(
        (is_null(pc) || view.pc == word(pc)?)
            && registers_agree(&view, list(member(told, "registers")?)?)?
            && (is_null(cache) || cache_agrees(machine, hart, run, cache)?)
            && section_agrees(machine.section(hart), told)?
            && stores_agree(machine.pool(), hart, told)?
            && armed_agrees(machine.armed(hart), told)?
            && request_agrees(machine.request(hart), hart, end, told)?,
    )
}

/// Whether a live section is the one that is told of a hart, where that is told.
fn section_agrees(live: Option<Live>, told: &Value) -> Result<bool, Difference> {
    match told.get("section") {
        Some(told) if is_null(told) => Ok(live == None),
        Some(told) => Ok(live == Some(section(told)?)),
        None => Ok(true),
    }
}

/// Whether no slot of the pool is out for the stores of a hart that is told to have no live section.
fn stores_agree(pool: &Pool, hart: HartId, told: &Value) -> Result<bool, Difference> {
    let owner = 8 + u16::from(hart.number);
    if usize::from(owner) >= pool.owners() {
        return Err(Difference::Form);
    }
    match told.get("section") {
        Some(told) if is_null(told) => Ok(pool.out(owner) == 0),
        _ => Ok(true),
    }
}

/// A live section that is told.
fn section(told: &Value) -> Result<Live, Difference> {
    Ok(Live {
        count: word(member(told, "count")?)?,
        word: word(member(told, "word")?)?,
        old: word(member(told, "old")?)?,
        new: word(member(told, "new")?)?,
    })
}

/// Whether an armed section is the one that is told of a hart, where that is told.
fn armed_agrees(armed: Option<Armed>, told: &Value) -> Result<bool, Difference> {
    match told.get("armed") {
        Some(told) if is_null(told) => Ok(armed == None),
        Some(told) => Ok(
            armed
                == Some(Armed {
                    count: word(member(told, "count")?)?,
                    word: word(member(told, "word")?)?,
                }),
        ),
        None => Ok(true),
    }
}

/// Whether the registers of a view, but for the stack pointer, are those of a list.
fn registers_agree(view: &HartView, told: &Vec<Value>) -> Result<bool, Difference> {
    for (number, value) in told.iter().enumerate() {
        let reg = u8::try_from(number)
            .ok()
            .and_then(Reg::new)
            .ok_or(Difference::Form)?;
        let told = number != STACK_POINTER && !is_null(value);
        if told && view.regs.get(reg) != word(value)? {
            return Ok(false);
        }
    }
    Ok(true)
}

/// Whether each byte of memory is the one that is told of it, or 0.
fn bytes_agree(machine: &Machine, run: &Value, told: &Vec<Value>) -> Result<(), Difference> {
    let memory = member(run, "memory")?;
    let base = word(member(memory, "base")?)?;
    for index in 0..word(member(memory, "length")?)? {
        let address = base.wrapping_add(index);
        if machine.byte(address) != Some(byte_at(told, index)?) {
            return Err(Difference::Byte { address });
        }
    }
    Ok(())
}

/// The byte that is told of an index, in a list of those that are not 0.
fn byte_at(told: &Vec<Value>, index: u32) -> Result<u8, Difference> {
    for pair in told {
        if word(element(pair, 0)?)? == index {
            return byte(element(pair, 1)?);
        }
    }
    Ok(0)
}
