//! From a history to bytes.

ghost use Rattle.std.specs.Prelude.{◌≡◌, ◌≢◌, ◌+◌, ◌-◌, ◌++◌, ◌<◌, ◌≤◌, ◌*◌, ◌∷◌, [], Err, Some, length, vec_capacity, All, IfOk, OnOk};
ghost use Rattle.chronicle.specs.Chronicle.{events};
ghost use Rattle.el_base.specs.Config.{IsInRange};
ghost use Rattle.el_base.specs.Recordable.{IsRecordable};
ghost use Rattle.el_io.specs.Shelf.{Holds, KeepsOthers, Records};
ghost use Rattle.trace_file.specs.Outcomes.{most_committed, outcome_spelling};
ghost use Rattle.trace_file.specs.Spelling.{entry_bytes, event_byte, head, outcomes, spelling};
ghost use Rattle.trace_file.specs.Stretches.{between, bytes_of};

use crate::head::{HEAD_BYTES, MAGIC, WITH_OUTCOMES};
use crate::outcome_bytes;
use chronicle::History;
use el_base::{Chronicled, Config, Entry, Event, NoMemory, Outcome};
use el_io::{Call, Shelf, ShelfFault};
use std::alloc::Global;

fn event_byte(event: Event) -> u8
    ensures { result ≡ event_byte event }
{
    16 * event.kind.number() + event.hart.number
}

/// What stands before the events.
fn head_bytes(config: &Config, count: u32) -> [u8; 22]
    ensures { result ≡ head 2 config.now count }
{
    let [long_0, long_1, long_2, long_3] = config.long.to_le_bytes();
    let [steps_0, steps_1, steps_2, steps_3] = config.steps.to_le_bytes();
    let [count_0, count_1, count_2, count_3] = count.to_le_bytes();
    [
        MAGIC[0],
        MAGIC[1],
        MAGIC[2],
        MAGIC[3],
        WITH_OUTCOMES,
        config.harts,
        config.mode.number(),
        config.sets,
        config.ways,
        config.lines,
        long_0,
        long_1,
        long_2,
        long_3,
        steps_0,
        steps_1,
        steps_2,
        steps_3,
        count_0,
        count_1,
        count_2,
        count_3,
    ]
}

/// How many bytes the spelling of an outcome has.
fn width_of(outcome: Outcome) -> usize
    ensures exact { result ≡ length (outcome_spelling outcome) }
    ensures some { 1 ≤ result }
    ensures small { result ≤ 9 }
{
    match outcome {
        Outcome::Idle
        | Outcome::Stalled
        | Outcome::Ran
        | Outcome::Began
        | Outcome::Buffered
        | Outcome::Armed => 1,
        Outcome::RolledBack { .. } | Outcome::Blocked { .. } | Outcome::LetGo { .. } => 2,
        Outcome::Missed { .. } | Outcome::Committed { .. } | Outcome::Delivered { .. } => 5,
        Outcome::Ordered { .. } | Outcome::Served { .. } => 9,
    }
}

/// The code of an outcome whose spelling is its code alone.
fn lone_code(outcome: Outcome) -> u8
    requires { length (outcome_spelling outcome) ≡ 1 }
    ensures { outcome_spelling outcome ≡ result ∷ [] }
{
    match outcome {
        Outcome::Idle => 0,
        Outcome::Stalled => 1,
        Outcome::Ran => 4,
        Outcome::Began => 5,
        Outcome::Buffered => 6,
        Outcome::Armed => 13,
        _ => unreachable!(),
    }
}

/// Puts bytes behind others, in room that is there.
fn put_bytes(bytes: &mut Vec<u8>, more: &[u8])
    requires room { length bytes.old.items + length more.now ≤ vec_capacity bytes.old }
    ensures items { bytes.new.items ≡ bytes.old.items ++ more.now }
    ensures capacity { vec_capacity bytes.old ≤ vec_capacity bytes.new }
{
    match bytes.extend_from_slice(more) {
        Ok(()) => (),
        Err(_) => unreachable!(),
    }
}

/// The bytes and behind them the spelling of an outcome, in room that is there.
#[inline(never)]
fn with_spelling(mut bytes: Vec<u8>, outcome: Outcome) -> Vec<u8>
    requires room { length bytes.items + length (outcome_spelling outcome) ≤ vec_capacity bytes }
    ensures items { result.items ≡ bytes.items ++ outcome_spelling outcome }
    ensures capacity { vec_capacity bytes ≤ vec_capacity result }
{
    put_bytes(
        &mut bytes,
        outcome_bytes::outcome_spelling(outcome).as_bytes(),
    );
    bytes
}

/// `with_entry` for an outcome with fields, one of the rarer. The call for its spelling stands apart, and takes and
/// gives the bytes by value, so that the loops over the entries keep their place and length in registers.
fn with_long(mut bytes: Vec<u8>, entry: Entry) -> Vec<u8>
    requires room { length bytes.items + length (entry_bytes entry.event entry.outcome) ≤ vec_capacity bytes }
    ensures items { result.items ≡ bytes.items ++ entry_bytes entry.event entry.outcome }
    ensures capacity { vec_capacity bytes ≤ vec_capacity result }
{
    bytes.push_reserved(event_byte(entry.event));
    with_spelling(bytes, entry.outcome)
}

/// `with_entry` for an outcome whose spelling is its code alone, as that of most outcomes of a run is.
fn with_brief(mut bytes: Vec<u8>, entry: Entry) -> Vec<u8>
    requires brief { length (outcome_spelling entry.outcome) ≡ 1 }
    requires room { length bytes.items + 2 ≤ vec_capacity bytes }
    ensures items { result.items ≡ bytes.items ++ entry_bytes entry.event entry.outcome }
    ensures capacity { vec_capacity bytes ≤ vec_capacity result }
{
    bytes.push_reserved(event_byte(entry.event));
    bytes.push_reserved(lone_code(entry.outcome));
    bytes
}

/// The bytes and behind them an event and the spelling of its outcome, in room that is there.
fn with_entry(bytes: Vec<u8>, entry: Entry) -> Vec<u8>
    requires room { length bytes.items + length (entry_bytes entry.event entry.outcome) ≤ vec_capacity bytes }
    ensures items { result.items ≡ bytes.items ++ entry_bytes entry.event entry.outcome }
    ensures capacity { vec_capacity bytes ≤ vec_capacity result }
{
    if width_of(entry.outcome) == 1 {
        with_brief(bytes, entry)
    } else {
        with_long(bytes, entry)
    }
}

/// How many bytes the entries of a history between two places have.
fn length_of(history: &History, from: u32, to: u32) -> usize
    requires order { from ≤ to }
    requires inside { to ≤ length history.now.entries }
    ensures exact { result ≡ length (bytes_of (between from to history.now.entries)) }
    ensures small { result ≤ 10 * to }
{
    let mut total = 0;
    for place in from..to {
        let entry = history.entry(place);
        total += 1 + width_of(entry.outcome);
    }
    total
}

/// `with_entries` for entries that are all brief, where no entry has to be asked for its width.
fn with_brief_entries(mut bytes: Vec<u8>, history: &History, from: u32, to: u32) -> Vec<u8>
    requires order { from ≤ to }
    requires inside { to ≤ length history.now.entries }
    requires brief { length (bytes_of (between from to history.now.entries)) ≡ 2 * (to - from) }
    requires room { length bytes.items + length (bytes_of (between from to history.now.entries)) ≤ vec_capacity bytes }
    ensures items { result.items ≡ bytes.items ++ bytes_of (between from to history.now.entries) }
    ensures capacity { vec_capacity bytes ≤ vec_capacity result }
{
    for place in from..to {
        bytes = with_brief(bytes, history.entry(place));
    }
    bytes
}

/// The bytes and behind them those of the entries of a history between two places, in room that is there.
fn with_entries(mut bytes: Vec<u8>, history: &History, from: u32, to: u32) -> Vec<u8>
    requires order { from ≤ to }
    requires inside { to ≤ length history.now.entries }
    requires room { length bytes.items + length (bytes_of (between from to history.now.entries)) ≤ vec_capacity bytes }
    ensures items { result.items ≡ bytes.items ++ bytes_of (between from to history.now.entries) }
    ensures capacity { vec_capacity bytes ≤ vec_capacity result }
{
    for place in from..to {
        bytes = with_entry(bytes, history.entry(place));
    }
    bytes
}

/// `with_entries`, and quicker where all of the entries are brief: one test then stands for that of each.
fn with_stretch(bytes: Vec<u8>, history: &History, from: u32, to: u32) -> Vec<u8>
    requires order { from ≤ to }
    requires inside { to ≤ length history.now.entries }
    requires room { length bytes.items + length (bytes_of (between from to history.now.entries)) ≤ vec_capacity bytes }
    ensures items { result.items ≡ bytes.items ++ bytes_of (between from to history.now.entries) }
    ensures capacity { vec_capacity bytes ≤ vec_capacity result }
{
    if length_of(history, from, to) == 2 * (to - from) as usize {
        with_brief_entries(bytes, history, from, to)
    } else {
        with_entries(bytes, history, from, to)
    }
}

/// The spelling of a configuration and of the entries of a history. Its memory is taken at once. The entries are
/// put four by four: with so few the compiler writes each out, and a rare long one slows no more than three others.
fn spelled(alloc: Global, config: &Config, history: &History) -> Result<Vec<u8>, NoMemory>
    ensures { IfOk result (λ bytes. bytes.items ≡
        spelling config.now (events history.now.entries) (Some (outcomes history.now.entries))) }
{
    let count = history.length();
    let size = HEAD_BYTES as usize + length_of(history, 0, count);
    let mut bytes = Vec::with_capacity(alloc, size)?;
    put_bytes(&mut bytes, &head_bytes(config, count));
    for four in 0..count / 4 {
        bytes = with_stretch(bytes, history, 4 * four, 4 * four + 4);
    }
    Ok(with_entries(bytes, history, count / 4 * 4, count))
}

/// Makes the spelling in version 2 of the configuration and of the history's events, with their outcomes, the
/// contents of the name. Every other name keeps its contents.
///
/// `Failed` comes only where the shelf lists this write among its failed calls; what the name holds
/// is then unknown. After `NoMemory` no file has changed. It never answers `TooBig`.
pub fn write_trace<S: Shelf>(
    alloc: Global,
    shelf: &mut S,
    name: &str,
    config: &Config,
    history: &History,
) -> Result<(), ShelfFault>
    requires in_range { IsInRange config.now }
    requires few { length history.now.entries ≤ config.now.steps }
    requires harts { All (λ event. event.hart.number < config.now.harts) (events history.now.entries) }
    requires outcomes { All (IsRecordable config.now.harts most_committed) (outcomes history.now.entries) }
    ensures written { OnOk result (Holds (S.told shelf.new) name.now
        (spelling config.now (events history.now.entries) (Some (outcomes history.now.entries)))) }
    ensures others_stay { KeepsOthers (S.told shelf.old) (S.told shelf.new) name.now }
    ensures contents_stay_without_memory { result ≡ Err ShelfFault.NoMemory → S.told shelf.new ≡ S.told shelf.old }
    ensures never_too_big { result ≢ Err ShelfFault.TooBig }
    ensures failures_listed { Records result (S.failures shelf.old) (S.failures shelf.new) (Call.Write, name.now) }
{
    let Ok(bytes) = spelled(alloc, config, history) else {
        return Err(ShelfFault::NoMemory);
    };
    shelf.write(alloc, name, &bytes)
}
