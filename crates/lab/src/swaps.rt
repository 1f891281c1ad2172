//! Swaps that ran outside of sections, and why they were not elided. A pair of LR and SC is none.

ghost use Rattle.std.specs.Prelude.{◌≡◌, ◌<◌, ◌≤◌, ◌+◌, ◌%◌, ◌++◌, None, OnOk, length};
ghost use Rattle.el_base.specs.declared.events.Kind.TheVariants as kinds;
ghost use Rattle.el_model.specs.State.{armed_of, section_of};
ghost use Rattle.lab.specs.Swaps.{first_no, if_ran, next_plain, why_not};
ghost use Rattle.machine.specs.Story.{committed, state_of};
ghost use Rattle.rv_alu.specs.Loaded.{loaded};
ghost use Rattle.rv_flat.specs.FlatState.{view_of};
ghost use Rattle.rv_flat.specs.Memory.{byte_in};

use crate::tries::Acquire;
use el_base::{Chronicled, Event, HartId, Kind, Mode, NoMemory, Outcome};
use machine::Machine;
use step_rules::swap_of;

/// How far a place must be trusted for its swap to be elided.
const LEAST_CONFIDENCE: u8 = 2;

/// The first test of the rule of elision that says no to a swap, in the order of the rule's tests. (That a predictor
/// chooses the acquires, and that after some losses the lock is taken: 'Speculative Lock Elision', MICRO 2001.)
#[derive(Clone, Copy, Debug, PartialEq, Eq)]
pub enum NotElided {
    /// In this mode no swap is elided.
    PlainMode,
    /// The hart's next candidate takes the lock, since its section was rolled back or lost too often.
    Fallback,
    /// The swap's place is not trusted enough to be an acquire whose release comes soon.
    Confidence,
    /// The swap leaves its word as it was.
    NoCandidate,
}

/// A swap that ran outside of a section.
#[derive(Clone, Copy, Debug, PartialEq, Eq)]
pub struct PlainSwap {
    /// The place of its event in the history.
    pub place: u32,
    pub hart: HartId,
    /// Its own address, and that of its word.
    pub acquire: Acquire,
    /// What it found in the word.
    pub old: u32,
    /// What it stored there.
    pub new: u32,
    pub why: NotElided,
}

/// The next instruction of an event's hart where it is a swap, and the event a step of a hart with neither a live nor an
/// armed section.
pub(crate) fn swap_before(machine: &Machine, event: Event) -> Option<PlainSwap>
    requires hart_exists { event.hart.number < machine.now.config.harts }
    ensures { event.kind ≡ kinds.Step → section_of (state_of machine.now) event.hart.number ≡ None →
        armed_of (state_of machine.now) event.hart.number ≡ None →
        result ≡ next_plain (state_of machine.now) (length machine.now.entries) event.hart }
{
    match event.kind {
        Kind::Step => swap_outside(machine, event.hart),
        Kind::Order | Kind::Serve | Kind::Deliver => None,
    }
}

/// The next instruction of a hart where it is a swap, and the hart has neither a live nor an armed section.
fn swap_outside(machine: &Machine, hart: HartId) -> Option<PlainSwap>
    requires hart_exists { hart.number < machine.now.config.harts }
    ensures { section_of (state_of machine.now) hart.number ≡ None → armed_of (state_of machine.now) hart.number ≡ None →
        result ≡ next_plain (state_of machine.now) (length machine.now.entries) hart }
{
    match machine.section(hart) {
        None => match machine.armed(hart) {
            None => next_swap(machine, hart),
            Some(_) => None,
        },
        Some(_) => None,
    }
}

/// The next instruction of a hart with neither a live nor an armed section, where it is a swap.
fn next_swap(machine: &Machine, hart: HartId) -> Option<PlainSwap>
    requires hart_exists { hart.number < machine.now.config.harts }
    requires outside { section_of (state_of machine.now) hart.number ≡ None }
    requires unarmed { armed_of (state_of machine.now) hart.number ≡ None }
    ensures { result ≡ next_plain (state_of machine.now) (length machine.now.entries) hart }
{
    let place = machine.history().length();
    let pc = machine.shown(hart).pc;
    let action = machine.next_action(hart);
    match swap_of(&action) {
        Some(exchange) => Some(PlainSwap {
            place,
            hart,
            acquire: Acquire {
                pc,
                word: exchange.word,
            },
            old: word_at(machine, exchange.word),
            new: exchange.new,
            why: why_not(machine, hart, pc),
        }),
        None => None,
    }
}

/// The first test of the rule that says no to a hart's next swap, which is at this pc and runs.
fn why_not(machine: &Machine, hart: HartId, pc: u32) -> NotElided
    requires hart_exists { hart.number < machine.now.config.harts }
    requires at_pc { pc ≡ (view_of (state_of machine.now).committed hart.number).pc }
    ensures { result ≡ why_not (state_of machine.now) hart.number }
{
    let own = machine.own(hart);
    let confidence = own.predictor().confidence(pc);
    first_no(machine.config().mode, own.fallback(), confidence)
}

/// The first test that says no, in this mode, with this fallback flag, at a place that is trusted so far.
fn first_no(mode: Mode, fallback: bool, confidence: u8) -> NotElided
    ensures { result ≡ first_no mode fallback confidence }
{
    match mode {
        Mode::Plain => NotElided::PlainMode,
        Mode::Sle | Mode::Tlr if fallback => NotElided::Fallback,
        Mode::Sle | Mode::Tlr if confidence < LEAST_CONFIDENCE => NotElided::Confidence,
        Mode::Sle | Mode::Tlr => NotElided::NoCandidate,
    }
}

/// The committed word at an address in memory.
fn word_at(machine: &Machine, address: u32) -> u32
    requires from_base { machine.now.program.base ≤ address }
    requires before_end { address + 4 ≤ machine.now.program.base + length machine.now.program.bytes }
    requires aligned { address % 4 ≡ 0 }
    ensures { result ≡ loaded (byte_in machine.now.program.base (committed machine.now).bytes) address 4 }
{
    let high = byte_at(machine, address + 2) + 256 * byte_at(machine, address + 3);
    byte_at(machine, address) + 256 * (byte_at(machine, address + 1) + 256 * high)
}

/// The committed byte at an address in memory.
fn byte_at(machine: &Machine, address: u32) -> u32
    requires from_base { machine.now.program.base ≤ address }
    requires before_end { address + 1 ≤ machine.now.program.base + length machine.now.program.bytes }
    ensures exact { result ≡ byte_in machine.now.program.base (committed machine.now).bytes address }
    ensures small { result < 256 }
{
    match machine.byte(address) {
        Some(byte) => byte.into(),
        None => unreachable!(),
    }
}

/// Notes the swap that an event has run, if it has run one.
pub(crate) fn note_swap(
    swaps: &mut Vec<PlainSwap>,
    outcome: Outcome,
    swap: Option<PlainSwap>,
) -> Result<(), NoMemory>
    ensures { OnOk result (swaps.new.items ≡ swaps.old.items ++ if_ran outcome swap) }
{
    match outcome {
        Outcome::Ran => {
            if let Some(swap) = swap {
                swaps.push(swap)?;
            }
        }
        _ => (),
    }
    Ok(())
}
