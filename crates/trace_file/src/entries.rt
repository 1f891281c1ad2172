//! The entries of a trace that tells outcomes.

ghost use Rattle.std.specs.Prelude.{◌≡◌, ℕ, ◌+◌, ◌^◌, ◌<◌, ◌≤◌, List, [], None, Some, length, slice_index, IfErr, IfOk, IfSome, OnOk, OnSome};
ghost use Rattle.chronicle.specs.Chronicle.{events};
ghost use Rattle.el_base.specs.declared.config.TheConstants.{MAX_STEPS};
ghost use Rattle.trace_file.specs.Faults.{entries_fault, entry_fault, field_fault, fields_fault};
ghost use Rattle.trace_file.specs.Fields.{byte_field, entry_width, event_field, fields_of, is_code, widths};
ghost use Rattle.trace_file.specs.Reading.{entries_in, entry_in, event_in, outcome_in};
ghost use Rattle.trace_file.specs.Spelling.{outcomes};

use crate::fault::FaultKind;
use crate::fields::{behind, expect, is_whole};
use crate::head::HEAD_BYTES;
use crate::outcome_fields::{
    blocking_of, cause_of, committed_of, freed_of, let_go_of, line_of, losers_of,
};
use crate::reading::{event_of, is_event};
use el_base::{Entry, Event, FileFault, Need, NoMemory, Outcome};
use std::alloc::Global;

/// The last code of an outcome.
const LAST_CODE: u8 = 14;

/// How many bytes stand behind a code.
fn width_of(code: u8) -> usize
    ensures exact { (harts : ℕ) → result ≡ widths (fields_of harts code) }
    ensures small { result ≤ 8 }
{
    match code {
        2 | 3 | 7 | 12 => 4,
        8 | 11 | 14 => 1,
        9 | 10 => 8,
        _ => 0,
    }
}

/// The outcome of a code, or the first fault of the fields behind it.
#[tactic(auto, unfolding(crate::specs::Reading::outcome_in))]
fn outcome_of(code: u8, bytes: &[u8], harts: u8, place: u32) -> Result<Outcome, FileFault>
    requires known { code ≤ 14 }
    requires fits { place + 8 < 2 ^ 32 }
    requires few { harts ≤ 8 }
    ensures value { IfOk result (λ outcome. outcome ≡ outcome_in code bytes.now) }
    ensures accepted { OnOk result (fields_fault place bytes.now (fields_of harts code) ≡ None) }
    ensures refused { IfErr result (λ fault. fields_fault place bytes.now (fields_of harts code) ≡ Some fault) }
{
    Ok(match code {
        0 => Outcome::Idle,
        1 => Outcome::Stalled,
        2 => Outcome::Missed {
            line: line_of(bytes, place)?,
            need: Need::Read,
        },
        3 => Outcome::Missed {
            line: line_of(bytes, place)?,
            need: Need::Write,
        },
        4 => Outcome::Ran,
        5 => Outcome::Began,
        6 => Outcome::Buffered,
        7 => Outcome::Committed {
            count: committed_of(bytes, place)?,
        },
        8 => Outcome::RolledBack {
            cause: cause_of(bytes, place)?,
        },
        9 => Outcome::Ordered {
            losers: losers_of(bytes, harts, place)?,
            freed: freed_of(behind(bytes, 4), harts, place + 4)?,
        },
        10 => Outcome::Served {
            losers: losers_of(bytes, harts, place)?,
            freed: freed_of(behind(bytes, 4), harts, place + 4)?,
        },
        11 => {
            let (why, by) = blocking_of(bytes, harts, place)?;
            Outcome::Blocked { why, by }
        }
        12 => Outcome::Delivered {
            losers: losers_of(bytes, harts, place)?,
        },
        13 => Outcome::Armed,
        _ => Outcome::LetGo {
            count: let_go_of(bytes, place)?,
        },
    })
}

/// The event that a byte says.
#[tactic(auto, unfolding(crate::specs::Faults::field_fault))]
fn event_at(bytes: &[u8], harts: u8, place: u32) -> Result<Event, FileFault>
    requires fits { place + 1 < 2 ^ 32 }
    requires few { harts ≤ 8 }
    ensures value { IfOk result (λ event. event ≡ event_in (slice_index bytes.now 0)) }
    ensures accepted { OnOk result (field_fault place bytes.now (event_field harts) ≡ None) }
    ensures refused { IfErr result (λ fault. field_fault place bytes.now (event_field harts) ≡ Some fault) }
    ensures whole { OnOk result (1 ≤ length bytes.now) }
{
    is_whole(bytes, 1, place)?;
    let byte = bytes[0];
    expect(is_event(byte, harts), FaultKind::Event, place)?;
    Ok(event_of(byte, harts))
}

/// The code of an outcome.
#[tactic(auto, unfolding(crate::specs::Faults::field_fault))]
fn code_at(bytes: &[u8], place: u32) -> Result<u8, FileFault>
    requires fits { place + 1 < 2 ^ 32 }
    ensures value { IfOk result (λ code. (code ≡ slice_index bytes.now 0) × (code ≤ 14)) }
    ensures accepted { OnOk result (field_fault place bytes.now (byte_field is_code) ≡ None) }
    ensures refused { IfErr result (λ fault. field_fault place bytes.now (byte_field is_code) ≡ Some fault) }
    ensures whole { OnOk result (1 ≤ length bytes.now) }
{
    is_whole(bytes, 1, place)?;
    let code = bytes[0];
    expect(code <= LAST_CODE, FaultKind::Outcome, place)?;
    Ok(code)
}

/// The outcome of a code behind which no fields stand.
#[tactic(auto, unfolding(crate::specs::Reading::outcome_in))]
fn bare_outcome(code: u8) -> Option<Outcome>
    ensures value { IfSome result (λ outcome. (bytes : List ℕ) → outcome ≡ outcome_in code bytes) }
    ensures fields { OnSome result ((harts : ℕ) → fields_of harts code ≡ []) }
    ensures known { OnSome result (code ≤ 14) }
{
    match code {
        0 => Some(Outcome::Idle),
        1 => Some(Outcome::Stalled),
        4 => Some(Outcome::Ran),
        5 => Some(Outcome::Began),
        6 => Some(Outcome::Buffered),
        13 => Some(Outcome::Armed),
        _ => None,
    }
}

/// The entry that the bytes begin with, where it has no fault and its outcome no fields, as most entries of a run.
#[inline]
#[tactic(auto, using(crate::proofs::EntryLaws::bare_passes, crate::proofs::EntryLaws::bare_width), unfolding(crate::specs::Reading::entry_in))]
fn bare_entry(bytes: &[u8], harts: u8) -> Option<Entry>
    requires few { harts ≤ 8 }
    ensures value { IfSome result (λ entry. entry ≡ entry_in bytes.now) }
    ensures whole { OnSome result (2 ≤ length bytes.now) }
    ensures width { OnSome result (entry_width harts bytes.now ≡ 2) }
    ensures faultless { OnSome result ((place : ℕ) → entry_fault harts place bytes.now ≡ None) }
{
    if bytes.len() < 2 || !is_event(bytes[0], harts) {
        return None;
    }
    let outcome = bare_outcome(bytes[1])?;
    Some(Entry {
        event: event_of(bytes[0], harts),
        outcome,
    })
}

/// `entry_of` field by field, for any entry.
#[tactic(auto, using(crate::proofs::FieldRows::fields_whole), unfolding(crate::specs::Faults::entry_fault, crate::specs::Fields::entry_width, crate::specs::Reading::entry_in))]
fn entry_by_fields(bytes: &[u8], harts: u8, place: u32) -> Result<(Entry, usize), FileFault>
    requires fits { place + 10 < 2 ^ 32 }
    requires few { harts ≤ 8 }
    ensures value { IfOk result (λ found. found.0 ≡ entry_in bytes.now) }
    ensures width { IfOk result (λ found. (found.1 ≡ entry_width harts bytes.now) × (found.1 ≤ 10)) }
    ensures whole { IfOk result (λ found. found.1 ≤ length bytes.now) }
    ensures accepted { OnOk result (entry_fault harts place bytes.now ≡ None) }
    ensures refused { IfErr result (λ fault. entry_fault harts place bytes.now ≡ Some fault) }
{
    let event = event_at(bytes, harts, place)?;
    let code = code_at(behind(bytes, 1), place + 1)?;
    let outcome = outcome_of(code, behind(bytes, 2), harts, place + 2)?;
    Ok((Entry { event, outcome }, 2 + width_of(code)))
}

/// The entry that the bytes begin with, and how many bytes it has, or its first fault.
#[inline]
fn entry_of(bytes: &[u8], harts: u8, place: u32) -> Result<(Entry, usize), FileFault>
    requires fits { place + 10 < 2 ^ 32 }
    requires few { harts ≤ 8 }
    ensures value { IfOk result (λ found. found.0 ≡ entry_in bytes.now) }
    ensures width { IfOk result (λ found. (found.1 ≡ entry_width harts bytes.now) × (found.1 ≤ 10)) }
    ensures whole { IfOk result (λ found. found.1 ≤ length bytes.now) }
    ensures accepted { OnOk result (entry_fault harts place bytes.now ≡ None) }
    ensures refused { IfErr result (λ fault. entry_fault harts place bytes.now ≡ Some fault) }
{
    match bare_entry(bytes, harts) {
        Some(entry) => Ok((entry, 2)),
        None => entry_by_fields(bytes, harts, place),
    }
}

/// That so many entries follow the head, and nothing behind them.
pub fn check_entries(bytes: &[u8], harts: u8, count: u32) -> Result<(), FileFault>
    requires few { harts ≤ 8 }
    requires steps { count ≤ MAX_STEPS }
    ensures accepted { OnOk result (entries_fault harts count 22 bytes.now ≡ None) }
    ensures refused { IfErr result (λ fault. entries_fault harts count 22 bytes.now ≡ Some fault) }
{
    let mut rest = bytes;
    let mut place = HEAD_BYTES;
    for _ in 0..count {
        let (_, width) = entry_of(rest, harts, place)?;
        rest = behind(rest, width);
        place += width as u32;
    }
    expect(rest.is_empty(), FaultKind::Tail, place)
}

/// The events and the outcomes of so many entries without a fault.
pub fn entries_of(
    alloc: Global,
    bytes: &[u8],
    harts: u8,
    count: u32,
) -> Result<(Vec<Event>, Vec<Outcome>), NoMemory>
    requires few { harts ≤ 8 }
    requires steps { count ≤ MAX_STEPS }
    requires faultless { entries_fault harts count 22 bytes.now ≡ None }
    ensures events { IfOk result (λ found. found.0.items ≡ events (entries_in harts count bytes.now)) }
    ensures outcomes { IfOk result (λ found. found.1.items ≡ outcomes (entries_in harts count bytes.now)) }
{
    let mut made = Vec::with_capacity(alloc, count as usize)?;
    let mut recorded = Vec::with_capacity(alloc, count as usize)?;
    let mut rest = bytes;
    let mut place = HEAD_BYTES;
    for _ in 0..count {
        let Ok((entry, width)) = entry_of(rest, harts, place) else {
            unreachable!()
        };
        made.push_reserved(entry.event);
        recorded.push_reserved(entry.outcome);
        rest = behind(rest, width);
        place += width as u32;
    }
    Ok((made, recorded))
}
