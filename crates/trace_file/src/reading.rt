//! From bytes to a trace.

ghost use Rattle.std.specs.Prelude.{◌≡◌, ◌≢◌, ℕ, List, ◌+◌, ◌<◌, ◌≤◌, Option, None, Some, Err, IsTrue, not, position, length, map, slice_index, take};
ghost use Rattle.std.specs.Prelude.{drop, All, IfErr, IfNone, IfOk, OnOk};
ghost use Rattle.el_base.specs.HartId.{hart_id};
ghost use Rattle.el_base.specs.declared.config.Config.{Config};
ghost use Rattle.el_base.specs.declared.config.TheConstants.{MAX_STEPS};
ghost use Rattle.el_base.specs.declared.events.Event.{Event};
ghost use Rattle.el_base.specs.declared.outcomes.Outcome.{Outcome};
ghost use Rattle.file_numbers.specs.Numbers.{number_at};
ghost use Rattle.trace_file.specs.Faults.{config_at, end_fault, entries_fault, event_fault, events_fault, trace_fault};
ghost use Rattle.trace_file.specs.Fields.{is_event};
ghost use Rattle.trace_file.specs.Reading.{event_in, events_at, recorded_at};
ghost use Rattle.trace_file.specs.Spelling.{listed, spelling, IsTrace};

use crate::codes::kind_of;
use crate::content::{Events, Trace};
use crate::entries::{check_entries, entries_of};
use crate::fault::{FaultKind, TraceFault};
use crate::fields::{behind, expect, reaches};
use crate::head::{HEAD_BYTES, Head, WITHOUT_OUTCOMES, head_of};
use el_base::{Event, FileFault, FormatFault, HartId, NoMemory};
use std::alloc::Global;

/// Whether a byte is an event of one of so many harts.
pub fn is_event(byte: u8, harts: u8) -> bool
    ensures { result ≡ is_event harts byte }
{
    byte / 16 <= 3 && byte % 16 < harts
}

/// The bytes from the front on, but no more than so many.
fn at_most(count: usize, bytes: &[u8]) -> &[u8]
    ensures { result.now ≡ take count bytes.now }
{
    if count < bytes.len() {
        &bytes[..count]
    } else {
        bytes
    }
}

/// The place of the first byte that is no event.
#[tactic(auto, using(crate::proofs::EventBytes::none_fails))]
fn first_other(bytes: &[u8], harts: u8) -> Option<usize>
    ensures exact { result ≡ position (λ byte. not (is_event harts byte)) bytes.now }
    ensures each { IfNone result (All (λ byte. IsTrue (is_event harts byte)) bytes.now) }
{
    bytes.iter().position(|byte| !is_event(*byte, harts))
}

#[tactic(auto, unfolding(crate::specs::Faults::event_fault))]
fn check_events(file: &[u8], harts: u8, count: u32) -> Result<(), FileFault>
    requires head { 22 ≤ length file.now }
    requires few { count ≤ MAX_STEPS }
    ensures accepted { OnOk result (event_fault harts count file.now ≡ None) }
    ensures refused { IfErr result (λ fault. event_fault harts count file.now ≡ Some fault) }
    ensures each { OnOk result (All (λ byte. IsTrue (is_event harts byte)) (take count (drop 22 file.now))) }
{
    let events = at_most(count as usize, behind(file, HEAD_BYTES as usize));
    match first_other(events, harts) {
        None => Ok(()),
        Some(place) => Err(FaultKind::Event.at(HEAD_BYTES + place as u32)),
    }
}

#[tactic(auto, unfolding(file_numbers::specs::Fields::short_or, crate::specs::Faults::end_fault))]
fn check_end(file: &[u8], count: u32) -> Result<(), FileFault>
    requires few { count ≤ MAX_STEPS }
    ensures accepted { OnOk result (end_fault count file.now ≡ None) }
    ensures refused { IfErr result (λ fault. end_fault count file.now ≡ Some fault) }
    ensures whole { OnOk result (length file.now ≡ 22 + count) }
{
    reaches(file, HEAD_BYTES + count)?;
    let ends = file.len() == (HEAD_BYTES + count) as usize;
    expect(ends, FaultKind::Tail, HEAD_BYTES + count)
}

fn hart_of(number: u8) -> HartId
    requires { number < 8 }
    ensures { result ≡ hart_id number }
{
    HartId { number }
}

/// The event of a byte.
pub fn event_of(byte: u8, harts: u8) -> Event
    requires known { IsTrue (is_event harts byte) }
    requires few { harts ≤ 8 }
    ensures { result ≡ event_in byte }
{
    Event {
        kind: kind_of(byte / 16),
        hart: hart_of(byte % 16),
    }
}

/// That so many events follow the head, and nothing behind them.
#[tactic(auto, using(crate::proofs::EventBytes::all_taken), unfolding(crate::specs::Faults::events_fault))]
fn check_bare_events(file: &[u8], harts: u8, count: u32) -> Result<(), FileFault>
    requires head { 22 ≤ length file.now }
    requires few { count ≤ MAX_STEPS }
    ensures accepted { OnOk result (events_fault harts count file.now ≡ None) }
    ensures refused { IfErr result (λ fault. events_fault harts count file.now ≡ Some fault) }
    ensures each { OnOk result (All (λ byte. IsTrue (is_event harts byte)) (drop 22 file.now)) }
{
    check_events(file, harts, count)?;
    check_end(file, count)?;
    Ok(())
}

/// The events that these bytes are, one each.
fn events_of(alloc: Global, bytes: &[u8], harts: u8) -> Result<Events, NoMemory>
    requires known { All (λ byte. IsTrue (is_event harts byte)) bytes.now }
    requires few { harts ≤ 8 }
    ensures { IfOk result (λ events. events ≡ map event_in bytes.now) }
{
    let mut list = Vec::with_capacity(alloc, bytes.len())?;
    for byte in bytes {
        let event = event_of(*byte, harts);
        list.push_reserved(event);
    }
    Ok(Events::of_list(list))
}

/// The head of a trace, or the first fault.
#[tactic(auto, unfolding(crate::specs::Faults::trace_fault, crate::specs::Faults::body_fault, crate::specs::Faults::config_at))]
fn checked(file: &[u8]) -> Result<Head, FileFault>
    ensures accepted { OnOk result (trace_fault file.now ≡ None) }
    ensures refused { IfErr result (λ fault. trace_fault file.now ≡ Some fault) }
    ensures fields { IfOk result (λ head. (head.config ≡ config_at file.now) × (head.count ≡ number_at file.now 18)
        × (head.version ≡ slice_index file.now 4) × (head.config.harts ≡ slice_index file.now 5)) }
    ensures few { IfOk result (λ head. (head.config.harts ≤ 8) × (head.count ≤ MAX_STEPS)) }
    ensures whole { OnOk result (22 ≤ length file.now) }
    ensures events { IfOk result (λ head. head.version ≡ 1 →
        All (λ byte. IsTrue (is_event head.config.harts byte)) (drop 22 file.now)) }
    ensures entries { IfOk result (λ head. head.version ≢ 1 →
        entries_fault head.config.harts head.count 22 (drop 22 file.now) ≡ None) }
{
    let head = head_of(file)?;
    if head.version == WITHOUT_OUTCOMES {
        check_bare_events(file, head.config.harts, head.count)?;
    } else {
        check_entries(
            behind(file, HEAD_BYTES as usize),
            head.config.harts,
            head.count,
        )?;
    }
    Ok(head)
}

/// What a file without a fault says, by its head.
#[tactic(auto, unfolding(crate::specs::Reading::events_at, crate::specs::Reading::recorded_at))]
fn contents_of(alloc: Global, file: &[u8], head: Head) -> Result<Trace, NoMemory>
    requires whole { 22 ≤ length file.now }
    requires config { head.config ≡ config_at file.now }
    requires count { head.count ≡ number_at file.now 18 }
    requires version { head.version ≡ slice_index file.now 4 }
    requires harts { head.config.harts ≡ slice_index file.now 5 }
    requires few { head.config.harts ≤ 8 }
    requires steps { head.count ≤ MAX_STEPS }
    requires events { head.version ≡ 1 → All (λ byte. IsTrue (is_event head.config.harts byte)) (drop 22 file.now) }
    requires entries { head.version ≢ 1 → entries_fault head.config.harts head.count 22 (drop 22 file.now) ≡ None }
    ensures config { IfOk result (λ trace. trace.config ≡ config_at file.now) }
    ensures events { IfOk result (λ trace. trace.events ≡ events_at file.now) }
    ensures recorded { IfOk result (λ trace. listed trace.recorded ≡ recorded_at file.now) }
{
    let bytes = behind(file, HEAD_BYTES as usize);
    if head.version == WITHOUT_OUTCOMES {
        let events = events_of(alloc, bytes, head.config.harts)?;
        return Ok(Trace {
            config: head.config,
            events,
            recorded: None,
        });
    }
    let (events, outcomes) = entries_of(alloc, bytes, head.config.harts, head.count)?;
    Ok(Trace {
        config: head.config,
        events: Events::of_list(events),
        recorded: Some(outcomes),
    })
}

/// The trace that the file spells, in either version, or its first fault. It takes no memory before the whole
/// file was found to be a trace, and then one place an event, and one an outcome where the file tells outcomes.
#[tactic(auto, using(crate::proofs::Laws::Spelled::faultless_again))]
pub fn read_trace(alloc: Global, file: &[u8]) -> Result<Trace, TraceFault>
    ensures accepted { IfOk result (λ trace. IsTrace trace.config trace.events (listed trace.recorded)
        × (file.now ≡ spelling trace.config trace.events (listed trace.recorded))) }
    ensures refused { (number place : ℕ) → result ≡ Err (TraceFault.Bad number place) →
        trace_fault file.now ≡ Some (record { number = number; place = place }) }
    ensures memory_after_faults { result ≡ Err TraceFault.NoMemory → trace_fault file.now ≡ None }
    // What is spelled is read as what it spells, unless memory runs out.
    ensures spelled { (config : Config) (events : List Event) (recorded : Option (List Outcome)) →
        IsTrace config events recorded → file.now ≡ spelling config events recorded →
        (trace_fault file.now ≡ None)
        × IfOk result (λ trace. (trace.config ≡ config) × (trace.events ≡ events) × (listed trace.recorded ≡ recorded)) }
{
    let head = checked(file)?;
    let trace = contents_of(alloc, file, head)?;
    Ok(trace)
}
