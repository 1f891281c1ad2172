ghost use Rattle.std.specs.Prelude.{◌≡◌, ◌^◌, ◌<◌, length, IfOk};
ghost use Rattle.chronicle.specs.Chronicle.{events};
ghost use Rattle.trace_file.specs.Spelling.{outcomes};

use crate::asserts::{same, same_at};
use chronicle::History;
use el_base::{
    Cause, Config, Entry, Event, FileFault, FormatFault, HartId, Kind, Mode, Numbered, Outcome,
};
use el_io::{MemShelf, ShelfFault, SureShelf};
use std::alloc::Global;
use std::test::Fail;
use trace_file::*;

/// The head of the worked trace, a run of one hart in the usual mode with 37 events.
const HEAD: [u8; 22] = [
    0x45, 0x4c, 0x54, 0x52, 0x01, 0x01, 0x02, 0x10, 0x04, 0x10, 0xd0, 0x07, 0x00, 0x00, 0x00, 0x09,
    0x3d, 0x00, 0x25, 0x00, 0x00, 0x00,
];

const KINDS: [Kind; 4] = [Kind::Step, Kind::Order, Kind::Serve, Kind::Deliver];

/// The worked trace: the head, then nine times a round of the four kinds, then one step.
fn worked(alloc: Global) -> Result<Vec<u8>, Fail> {
    let mut file = Vec::from_slice(alloc, &HEAD)?;
    for _ in 0..9 {
        file.extend_from_slice(&[0x00, 0x10, 0x20, 0x30])?;
    }
    file.push(0x00)?;
    Ok(file)
}

/// The round of the four kinds in which an instruction runs.
const ROUND: [u8; 8] = [0x00, 0x04, 0x10, 0x00, 0x20, 0x00, 0x30, 0x00];

/// The round in which the line of the program's text is missed, ordered and served.
const MISS: [u8; 28] = [
    0x00, 0x02, 0x01, 0x04, 0x00, 0x00, 0x10, 0x09, 0x00, 0x00, 0x00, 0x00, 0x00, 0x00, 0x00, 0x00,
    0x20, 0x0a, 0x00, 0x00, 0x00, 0x00, 0x00, 0x00, 0x00, 0x00, 0x30, 0x00,
];

/// The worked trace with its outcomes, 116 bytes.
fn recorded(alloc: Global) -> Result<Vec<u8>, Fail> {
    let mut file = Vec::from_slice(alloc, &HEAD)?;
    change(&mut file, &[(4, 2)]);
    for _ in 0..5 {
        file.extend_from_slice(&ROUND)?;
    }
    file.extend_from_slice(&MISS)?;
    for _ in 0..3 {
        file.extend_from_slice(&ROUND)?;
    }
    file.extend_from_slice(&[0x00, 0x04])?;
    Ok(file)
}

/// A history of these events with these outcomes.
fn history_of(alloc: Global, made: &[Event], recorded: &[Outcome]) -> Result<History, Fail>
    requires few { length made.now < 2 ^ 32 }
    requires many { length recorded.now ≡ length made.now }
    ensures events { IfOk result (λ history. events history.entries ≡ made.now) }
    ensures outcomes { IfOk result (λ history. outcomes history.entries ≡ recorded.now) }
{
    let mut history = History::make(alloc, made.len() as u32)?;
    for place in 0..made.len() {
        history.push(Entry {
            event: made[place],
            outcome: recorded[place],
        });
    }
    Ok(history)
}

/// What is written of what was read of a file.
fn rewritten(alloc: Global, file: &[u8]) -> Result<Vec<u8>, Fail> {
    let trace = read_trace(alloc, file)?;
    let outcomes = trace.recorded.ok_or("no outcomes")?;
    let history = history_of(alloc, trace.events.as_slice(), &outcomes)?;
    let mut shelf = SureShelf::make(alloc, &[], &[])?;
    write_trace(alloc, &mut shelf, "t", &trace.config, &history)?;
    Ok(Vec::from_slice(alloc, shelf.contents("t"))?)
}

fn change(file: &mut [u8], changes: &[(usize, u8)]) {
    for (place, byte) in changes {
        if let Some(slot) = file.get_mut(*place) {
            *slot = *byte;
        }
    }
}

fn fault_of(alloc: Global, file: &[u8]) -> Option<FileFault> {
    match read_trace(alloc, file) {
        Err(TraceFault::Bad { number, place }) => Some(FileFault { number, place }),
        _ => None,
    }
}

/// The fault of a kind at a place, or none.
fn bad(fault: Option<(FaultKind, u32)>) -> Option<FileFault> {
    fault.map(|(kind, place)| kind.at(place))
}

#[test]
fn the_worked_trace_is_read(rt: HostRuntime) -> Result<(), Fail> {
    let trace = read_trace(rt.alloc(), &worked(rt.alloc())?)?;
    same(&rt, trace.config, Config::usual());
    same(&rt, trace.events.as_slice().len(), 37);
    assert!(rt; trace.recorded.is_none());
    let hart = HartId::new(0).ok_or("no hart 0")?;
    for (place, event) in trace.events.as_slice().iter().enumerate() {
        same_at(
            &rt,
            place,
            *event,
            Event {
                kind: KINDS[place % 4],
                hart,
            },
        );
    }
    Ok(())
}

/// Eight harts and each kind: the high half of a byte is the kind, the low half the hart.
#[test]
fn each_kind_and_hart_has_its_byte(rt: HostRuntime) -> Result<(), Fail> {
    let mut file = Vec::from_slice(rt.alloc(), &HEAD)?;
    assert_eq!(rt; file.len(), 22);
    file[5] = 8;
    file[18] = 32;
    for byte in 0..0x40_u8 {
        if byte % 16 < 8 {
            file.push(byte)?;
        }
    }
    let trace = read_trace(rt.alloc(), &file)?;
    same(&rt, trace.config.harts, 8);
    same(&rt, trace.events.as_slice().len(), 32);
    for (place, event) in trace.events.as_slice().iter().enumerate() {
        same_at(&rt, place, event.kind, KINDS[place / 8 % 4]);
        same_at(&rt, place, event.hart.number as usize, place % 8);
    }
    Ok(())
}

/// A mode's byte is read as that mode and written as that byte.
#[test]
fn each_mode_has_its_byte(rt: HostRuntime) -> Result<(), Fail> {
    for (byte, mode) in [(0, Mode::Plain), (1, Mode::Sle), (2, Mode::Tlr)] {
        let mut file = recorded(rt.alloc())?;
        change(&mut file, &[(6, byte)]);
        same_at(&rt, byte, read_trace(rt.alloc(), &file)?.config.mode, mode);
        same_at(&rt, byte, rewritten(rt.alloc(), &file)?, file);
    }
    Ok(())
}

/// The numbers that a user reads.
#[test]
fn each_kind_has_its_number(rt: HostRuntime) {
    for (kind, number) in [
        (FaultKind::Short, 1),
        (FaultKind::Magic, 2),
        (FaultKind::Version, 3),
        (FaultKind::Config, 4),
        (FaultKind::Event, 5),
        (FaultKind::Tail, 6),
        (FaultKind::Outcome, 7),
    ] {
        same_at(&rt, kind, kind.number(), number);
    }
}

#[test]
fn each_cut_is_short(rt: HostRuntime) -> Result<(), Fail> {
    let mut file = worked(rt.alloc())?;
    for len in 0..59_u32 {
        assert!(rt; len as usize <= file.len());
        let cut = fault_of(rt.alloc(), &file[..len as usize]);
        same_at(&rt, len, cut, Some(FaultKind::Short.at(len)));
    }
    file.push(0x00)?;
    same(
        &rt,
        fault_of(rt.alloc(), &file),
        Some(FaultKind::Tail.at(59)),
    );
    Ok(())
}

/// Changes of the worked trace, and its first fault then.
const FAULTS: &[(&[(usize, u8)], Option<(FaultKind, u32)>)] = &[
    (&[], None),
    (&[(0, 0x46)], Some((FaultKind::Magic, 0))),
    (&[(1, 0x00)], Some((FaultKind::Magic, 1))),
    (&[(2, 0x74)], Some((FaultKind::Magic, 2))),
    (&[(3, 0x53)], Some((FaultKind::Magic, 3))),
    (&[(3, 0x53), (1, 0x00)], Some((FaultKind::Magic, 1))),
    (&[(4, 0)], Some((FaultKind::Version, 4))),
    (&[(4, 2)], Some((FaultKind::Outcome, 23))),
    (&[(4, 3)], Some((FaultKind::Version, 4))),
    (&[(5, 0)], Some((FaultKind::Config, 5))),
    (&[(5, 8)], None),
    (&[(5, 9)], Some((FaultKind::Config, 5))),
    (&[(6, 0)], None),
    (&[(6, 1)], None),
    (&[(6, 3)], Some((FaultKind::Config, 6))),
    (&[(6, 255), (7, 0)], Some((FaultKind::Config, 6))),
    (&[(7, 0)], Some((FaultKind::Config, 7))),
    (&[(7, 3)], Some((FaultKind::Config, 7))),
    (&[(7, 128)], Some((FaultKind::Config, 7))),
    (&[(8, 0)], Some((FaultKind::Config, 8))),
    (&[(8, 9)], Some((FaultKind::Config, 8))),
    (&[(9, 0)], Some((FaultKind::Config, 9))),
    (&[(9, 33)], Some((FaultKind::Config, 9))),
    (&[(10, 1), (11, 0)], Some((FaultKind::Config, 10))),
    (&[(10, 0), (11, 0), (12, 1)], None),
    (&[(10, 1), (11, 0), (12, 1)], Some((FaultKind::Config, 10))),
    (&[(15, 0), (16, 0)], Some((FaultKind::Config, 14))),
    (
        &[(14, 1), (15, 0), (16, 0), (17, 1)],
        Some((FaultKind::Config, 14)),
    ),
    (&[(14, 0x25), (15, 0), (16, 0)], None),
    (
        &[(14, 0x24), (15, 0), (16, 0)],
        Some((FaultKind::Config, 18)),
    ),
    (&[(18, 0), (21, 0x21)], Some((FaultKind::Config, 18))),
    (&[(18, 0x26)], Some((FaultKind::Short, 59))),
    (&[(18, 0x24)], Some((FaultKind::Tail, 58))),
    (&[(22, 0x08)], Some((FaultKind::Event, 22))),
    (&[(22, 0x01)], Some((FaultKind::Event, 22))),
    (&[(22, 0x40)], Some((FaultKind::Event, 22))),
    (&[(58, 0xff), (18, 0x26)], Some((FaultKind::Event, 58))),
    (&[(5, 0), (7, 0), (22, 0xff)], Some((FaultKind::Config, 5))),
];

/// Changes of the worked trace with its outcomes, and its first fault then.
const RECORDED_FAULTS: &[(&[(usize, u8)], Option<(FaultKind, u32)>)] = &[
    (&[], None),
    (&[(5, 0)], Some((FaultKind::Config, 5))),
    (&[(18, 0x24)], Some((FaultKind::Tail, 114))),
    (&[(18, 0x26)], Some((FaultKind::Short, 116))),
    (&[(22, 0x08)], Some((FaultKind::Event, 22))),
    (&[(23, 0x0f)], Some((FaultKind::Outcome, 23))),
    (&[(23, 0x00)], None),
    (&[(67, 0x04)], Some((FaultKind::Outcome, 64))),
    (&[(70, 0x10)], Some((FaultKind::Outcome, 70))),
    (&[(77, 0x01)], Some((FaultKind::Outcome, 74))),
];

#[test]
fn the_first_fault_is_answered(rt: HostRuntime) -> Result<(), Fail> {
    for (changes, fault) in FAULTS {
        let mut file = worked(rt.alloc())?;
        change(&mut file, changes);
        same_at(&rt, changes, fault_of(rt.alloc(), &file), bad(*fault));
    }
    for (changes, fault) in RECORDED_FAULTS {
        let mut file = recorded(rt.alloc())?;
        change(&mut file, changes);
        same_at(&rt, changes, fault_of(rt.alloc(), &file), bad(*fault));
    }
    Ok(())
}

#[test]
fn each_cut_of_a_recorded_trace_is_short(rt: HostRuntime) -> Result<(), Fail> {
    let mut file = recorded(rt.alloc())?;
    for len in 0..116_u32 {
        assert!(rt; len as usize <= file.len());
        let cut = fault_of(rt.alloc(), &file[..len as usize]);
        same_at(&rt, len, cut, Some(FaultKind::Short.at(len)));
    }
    file.push(0x00)?;
    same(
        &rt,
        fault_of(rt.alloc(), &file),
        Some(FaultKind::Tail.at(116)),
    );
    Ok(())
}

#[test]
fn the_recorded_trace_is_written(rt: HostRuntime) -> Result<(), Fail> {
    let file = recorded(rt.alloc())?;
    same(&rt, rewritten(rt.alloc(), &file)?, file);
    Ok(())
}

/// A head of one hart in the usual mode and of version 2, and one entry behind it.
fn of_one_entry(alloc: Global, harts: u8, entry: &[u8]) -> Result<Vec<u8>, Fail> {
    let mut file = Vec::from_slice(alloc, &HEAD)?;
    change(&mut file, &[(4, 2), (5, harts), (18, 1)]);
    file.extend_from_slice(entry)?;
    Ok(file)
}

/// The bytes of each outcome once, and of each cause, need and why.
const OUTCOMES: &[&[u8]] = &[
    &[0],
    &[1],
    &[2, 0xff, 0xff, 0xff, 0x03],
    &[3, 0x01, 0x04, 0x00, 0x00],
    &[4],
    &[5],
    &[6],
    &[7, 0x01, 0x00, 0x00, 0x00],
    &[7, 0x00, 0x00, 0x01, 0x00],
    &[8, 0],
    &[8, 1],
    &[8, 2],
    &[8, 3],
    &[8, 4],
    &[9, 0x20, 0x00, 0x00, 0x80, 0x01, 0x00, 0x00, 0xf0],
    &[10, 0x00, 0x10, 0x00, 0x00, 0x00, 0x0f, 0x00, 0x00],
    &[11, 0x07],
    &[11, 0x10],
    &[11, 0x21],
    &[12, 0x00, 0x00, 0x00, 0x10],
    &[13],
    &[14, 1],
    &[14, 15],
];

/// Each outcome is read of its bytes, and spelled by them again.
#[test]
fn each_outcome_has_its_bytes(rt: HostRuntime) -> Result<(), Fail> {
    for bytes in OUTCOMES {
        let mut entry = vec![in rt.alloc(); 0x20_u8]?;
        entry.extend_from_slice(bytes)?;
        let file = of_one_entry(rt.alloc(), 8, &entry)?;
        let trace = read_trace(rt.alloc(), &file)?;
        let recorded = trace.recorded.ok_or("no outcomes")?;
        let outcome = *recorded.first().ok_or("no outcome")?;
        same_at(&rt, bytes, outcome_spelling(outcome).as_bytes(), *bytes);
    }
    Ok(())
}

/// Outcomes without harts, by their bytes.
#[test]
fn plain_outcomes_are_spelled(rt: HostRuntime) {
    let rows: [(&[u8], Outcome); 13] = [
        (&[0], Outcome::Idle),
        (&[1], Outcome::Stalled),
        (&[4], Outcome::Ran),
        (&[5], Outcome::Began),
        (&[6], Outcome::Buffered),
        (&[7, 0x02, 0x01, 0, 0], Outcome::Committed { count: 258 }),
        (&[8, 0], Outcome::RolledBack { cause: Cause::Room }),
        (
            &[8, 1],
            Outcome::RolledBack {
                cause: Cause::Lines,
            },
        ),
        (&[8, 2], Outcome::RolledBack { cause: Cause::Long }),
        (&[8, 3], Outcome::RolledBack { cause: Cause::Call }),
        (
            &[8, 4],
            Outcome::RolledBack {
                cause: Cause::Mixed,
            },
        ),
        (&[13], Outcome::Armed),
        (&[14, 3], Outcome::LetGo { count: 3 }),
    ];
    for (bytes, outcome) in rows {
        same_at(&rt, bytes, outcome_spelling(outcome).as_bytes(), bytes);
    }
}

/// One entry of one of so many harts, and its fault.
const ENTRY_FAULTS: &[(u8, &[u8], FaultKind, u32)] = &[
    (1, &[], FaultKind::Short, 22),
    (1, &[0x00], FaultKind::Short, 23),
    (1, &[0x08], FaultKind::Event, 22),
    (8, &[0x47], FaultKind::Event, 22),
    (1, &[0x00, 15], FaultKind::Outcome, 23),
    (1, &[0x00, 2, 0, 0, 0], FaultKind::Short, 27),
    (1, &[0x00, 2, 0, 0, 0, 4], FaultKind::Outcome, 24),
    (1, &[0x00, 3, 0, 0, 0, 4], FaultKind::Outcome, 24),
    (1, &[0x00, 7, 0, 0, 0, 0], FaultKind::Outcome, 24),
    (1, &[0x00, 7, 1, 0, 1, 0], FaultKind::Outcome, 24),
    (1, &[0x00, 8, 5], FaultKind::Outcome, 24),
    (
        2,
        &[0x00, 9, 0x00, 0x01, 0, 0, 0, 0, 0, 0],
        FaultKind::Outcome,
        24,
    ),
    (
        2,
        &[0x00, 9, 0x03, 0x00, 0, 0, 0, 0, 0, 0],
        FaultKind::Outcome,
        24,
    ),
    (
        2,
        &[0x00, 9, 0x02, 0x00, 0, 0, 0, 1, 0, 0],
        FaultKind::Outcome,
        28,
    ),
    (2, &[0x00, 10, 0, 0, 0, 0, 0, 0, 0], FaultKind::Short, 31),
    (2, &[0x00, 11, 0x02], FaultKind::Outcome, 24),
    (2, &[0x00, 11, 0x31], FaultKind::Outcome, 24),
    (2, &[0x00, 12, 0, 0x10, 0, 0], FaultKind::Outcome, 24),
    (1, &[0x00, 14, 0], FaultKind::Outcome, 24),
    (1, &[0x00, 14, 16], FaultKind::Outcome, 24),
    (1, &[0x00, 0, 0x00], FaultKind::Tail, 24),
];

#[test]
fn the_first_fault_of_an_entry_is_answered(rt: HostRuntime) -> Result<(), Fail> {
    for (harts, entry, kind, place) in ENTRY_FAULTS {
        let file = of_one_entry(rt.alloc(), *harts, entry)?;
        same_at(
            &rt,
            entry,
            fault_of(rt.alloc(), &file),
            Some(kind.at(*place)),
        );
    }
    Ok(())
}

#[test]
fn a_shelf_that_fails_is_told_of(rt: HostRuntime) -> Result<(), Fail> {
    let history = History::make(rt.alloc(), 1)?;
    let mut shelf = MemShelf::make(rt.alloc(), &[], &[], &[1])?;
    let first = write_trace(rt.alloc(), &mut shelf, "t", &Config::usual(), &history);
    same(&rt, first, Err(ShelfFault::Failed));
    write_trace(rt.alloc(), &mut shelf, "t", &Config::usual(), &history)?;
    same(&rt, shelf.contents("t").len(), 22);
    Ok(())
}
