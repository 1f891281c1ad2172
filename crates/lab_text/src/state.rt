//! The state of a machine, as text.

ghost use Rattle.std.specs.Prelude.{◌<◌};

use crate::names::Names;
use crate::phrases::{MessageText, RequestText};
use crate::words::{Counted, first_byte, instructions, letter_word};
use bitflags::Flags;
use bus_agent::Agent;
use bus_order::Order;
use cache_sets::{Bits, Sets};
use el_base::{HartId, LINE_BYTES, LineAddr, MAX_HARTS, NoMemory};
use elf_symbols::Symbols;
use hart_state::HartState;
use lab::Machine;
use lab_names::Named;
use rv_alu::{HartStatus, HartView};
use section_ctl::{Armed, Live};

/// Puts the state of a machine behind a text: of each hart where it stands, its section, what it has learnt and what it has
/// at the bus; the requests in their order; and a grid of the lines that some cache has, with the letters and bits of each
/// hart.
pub fn write_state(out: &mut String, machine: &Machine, names: &Names) -> Result<(), NoMemory> {
    for number in 0..machine.config().harts {
        write_hart(out, machine, HartId { number }, names.symbols)?;
    }
    write_order(out, machine.bus().requests(), names.symbols)?;
    write_grid(out, machine, names)
}

fn write_hart(
    out: &mut String,
    machine: &Machine,
    hart: HartId,
    symbols: &Symbols,
) -> Result<(), NoMemory>
    requires { hart.number < machine.now.config.harts }
{
    write_view(out, hart, &machine.shown(hart), symbols)?;
    write_section(out, machine.section(hart), symbols)?;
    write_armed(out, machine.armed(hart), symbols)?;
    write_own(out, machine.own(hart))?;
    write_agent(out, machine.bus().agent(hart), symbols)
}

/// Where a hart stands, by what it sees itself.
fn write_view(
    out: &mut String,
    hart: HartId,
    view: &HartView,
    symbols: &Symbols,
) -> Result<(), NoMemory> {
    let number = hart.number;
    let at = Named {
        address: view.pc,
        symbols,
    };
    write!(out, "hart {number} at {at}")?;
    match view.status {
        HartStatus::Running => out.push_str(", running")?,
        HartStatus::Exited { code } => write!(out, ", exit {code}")?,
        HartStatus::Trapped { cause, .. } => write!(out, ", trap {cause}")?,
    }
    out.push('\n')?;
    Ok(())
}

fn write_section(
    out: &mut String,
    section: Option<Live>,
    symbols: &Symbols,
) -> Result<(), NoMemory> {
    if let Some(
        Live {
            count,
            word,
            old,
            new,
        },
    ) = section
    {
        let lock = Named {
            address: word,
            symbols,
        };
        let instructions = instructions(count);
        write!(out, "  section on {lock}, {old} to {new}, {instructions}\n")?;
    }
    Ok(())
}

/// What an armed hart keeps private.
fn write_armed(out: &mut String, armed: Option<Armed>, symbols: &Symbols) -> Result<(), NoMemory> {
    if let Some(Armed { count, word }) = armed {
        let lock = Named {
            address: word,
            symbols,
        };
        let instructions = instructions(count);
        write!(out, "  armed on {lock}, {instructions}\n")?;
    }
    Ok(())
}

/// What a hart has learnt, where it is not what it begins with.
fn write_own(out: &mut String, own: &HartState) -> Result<(), NoMemory> {
    let tries = own.tries();
    if tries > 0 {
        let sections = Counted {
            count: tries.into(),
            noun: "section",
        };
        write!(out, "  lost {sections} in a row\n")?;
    }
    if own.fallback() {
        out.push_str("  takes the next lock\n")?;
    }
    write_confidence(out, own)
}

/// How many counters a predictor has: a place in the program has that of its instruction's number, modulo this.
const COUNTERS: u32 = 64;

/// The counter of a place that nothing was learnt of.
const FIRST: u8 = 2;

/// The counters of the predictor that are not at their first value, each by the first place in memory that it is for.
fn write_confidence(out: &mut String, own: &HartState) -> Result<(), NoMemory> {
    for counter in 0..COUNTERS {
        let confidence = own.predictor().confidence(counter * 4);
        if confidence != FIRST {
            write!(out, "  confidence {confidence} at counter {counter}\n")?;
        }
    }
    Ok(())
}

/// What a hart has at the bus beside its cache.
fn write_agent(out: &mut String, agent: &Agent, symbols: &Symbols) -> Result<(), NoMemory> {
    if let Some(stamp) = agent.attempt() {
        let clock = stamp.clock;
        write!(out, "  attempt, stamp {clock}\n")?;
    }
    if let Some(request) = agent.raised() {
        let request = RequestText { request, symbols };
        write!(out, "  raised {request}\n")?;
    }
    if let Some(line) = agent.held_line() {
        let line = Named {
            address: first_byte(line),
            symbols,
        };
        write!(out, "  holds {line}\n")?;
    }
    write_mail(out, agent)?;
    write_neighbours(out, agent)
}

/// The messages of a mailbox, the oldest first.
fn write_mail(out: &mut String, agent: &Agent) -> Result<(), NoMemory> {
    for place in 0..usize::from(MAX_HARTS) {
        if let Some(message) = agent.message(place) {
            let message = MessageText { message };
            write!(out, "  mail {message}\n")?;
        }
    }
    Ok(())
}

/// The origins of probes that have reached a hart, and the harts that are before it.
fn write_neighbours(out: &mut String, agent: &Agent) -> Result<(), NoMemory> {
    for number in 0..MAX_HARTS {
        if agent.knows(HartId { number }) {
            write!(out, "  told of hart {number}\n")?;
        }
        if agent.is_behind(HartId { number }) {
            write!(out, "  behind hart {number}\n")?;
        }
    }
    Ok(())
}

/// The requests in their order, the first one first.
fn write_order(out: &mut String, order: &Order, symbols: &Symbols) -> Result<(), NoMemory> {
    for request in order.as_slice() {
        let hart = request.hart.number;
        let request = RequestText {
            request: *request,
            symbols,
        };
        write!(out, "ordered hart {hart} {request}\n")?;
    }
    Ok(())
}

/// A row for each line that some cache has.
fn write_grid(out: &mut String, machine: &Machine, names: &Names) -> Result<(), NoMemory> {
    for number in 0..machine.config().harts {
        write!(out, "{number}   ")?;
    }
    out.push_str("line\n")?;
    let first = names.image.base() / LINE_BYTES;
    let end = first + names.image.bytes().len() as u32 / LINE_BYTES;
    for number in first..end {
        write_row(out, machine, LineAddr { number }, names.symbols)?;
    }
    Ok(())
}

/// What each hart's cache knows of a line, with what its section has done to it; and the line. Nothing of a line that no cache
/// has.
fn write_row(
    out: &mut String,
    machine: &Machine,
    line: LineAddr,
    symbols: &Symbols,
) -> Result<(), NoMemory> {
    if is_cached(machine, line) {
        write_letters(out, machine, line)?;
        let named = Named {
            address: first_byte(line),
            symbols,
        };
        write!(out, "{named}\n")?;
    }
    Ok(())
}

/// Whether some cache has a line.
fn is_cached(machine: &Machine, line: LineAddr) -> bool {
    let bus = machine.bus();
    let harts = bus.harts();
    let mut cached = false;
    for number in 0..MAX_HARTS {
        if usize::from(number) < harts && bus.sets(HartId { number }).has(line) {
            cached = true;
        }
    }
    cached
}

fn write_letters(out: &mut String, machine: &Machine, line: LineAddr) -> Result<(), NoMemory> {
    let bus = machine.bus();
    let harts = bus.harts();
    for number in 0..MAX_HARTS {
        if usize::from(number) < harts {
            write_copy(out, bus.sets(HartId { number }), line)?;
        }
    }
    Ok(())
}

/// What a cache knows of a line.
fn write_copy(out: &mut String, sets: &Sets, line: LineAddr) -> Result<(), NoMemory> {
    let letter = letter_word(sets.letter(line));
    let bits = bits_word(sets.bits(line));
    write!(out, "{letter}{bits} ")?;
    Ok(())
}

/// What a section has done to a line: read it, written it, both or nothing.
fn bits_word(bits: Bits) -> &'static str {
    match (bits.contains(Bits::READ), bits.contains(Bits::WRITE)) {
        (true, true) => "rw",
        (true, false) => "r-",
        (false, true) => "-w",
        (false, false) => "--",
    }
}
