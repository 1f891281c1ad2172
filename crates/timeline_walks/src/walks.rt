//! Walks back and forth at random over runs in each mode, beside a fresh run of each prefix on plain shared memory.
//!
//! Events and moves are drawn by `schedule`'s generator. What takes effect in an event is counted here anew, as the
//! profile's table of outcomes says it.

ghost use Rattle.std.specs.Prelude.{◌≤◌, IfOk};
ghost use Rattle.trace_file.specs.Spelling.{IsTrace, listed};

use chronicle::History;
use el_base::{Chronicled, Entry, Freed, HartId, MAX_HARTS, Outcome};
use elf_image::{Image, load};
use machine::{Machine, follow};
use rv_flat::Flat;
use schedule::{draw, drawn_at};
use std::alloc::Global;
use std::process::Abort;
use std::test::Fail;
use step_back::Timeline;
use trace_file::{Trace, read_trace};
use workload::{Work, build};

/// How many events each run has.
const EVENTS: u32 = 2_000;

/// How many moves each walk has.
const MOVES: u32 = 40;

/// The addresses whose bytes are compared: the data of a workload, behind which stand its stacks, which it leaves
/// as they are.
const DATA_START: u32 = 0x1_1000;

const DATA_END: u32 = 0x1_24c0;

/// The number of the mode in a trace, the harts, the image, and the seed of its events and moves.
const RUNS: &[(u8, u8, Work, u64)] = &[
    (0, 2, Work::Counter, 11),
    (0, 4, Work::Bank, 12),
    (1, 2, Work::Counter, 21),
    (1, 4, Work::Locks, 22),
    (2, 2, Work::Counter, 31),
    (2, 3, Work::Pairs, 32),
    (2, 4, Work::Bank, 33),
];

/// The trace of so many harts in the mode of this number, whose events are drawn.
fn trace_of(alloc: Global, mode: u8, harts: u8, seed: u64) -> Result<Trace, Fail>
    requires { (1 ≤ harts) × (harts ≤ 8) }
    ensures { IfOk result (λ trace. IsTrace trace.config trace.events (listed trace.recorded)) }
{
    let mut file = Vec::from_slice(alloc, b"ELTR\x01")?;
    file.extend_from_slice(&[harts, mode, 16, 4, 16])?;
    for number in [2_000, 4_000_000, EVENTS] {
        file.extend_from_slice(&number.to_le_bytes())?;
    }
    for place in 0..EVENTS {
        let event = drawn_at(seed, harts, place);
        file.push(event.kind.number() * 16 + event.hart.number)?;
    }
    Ok(read_trace(alloc, &file)?)
}

/// The harts whose instructions took effect in a run, one by one, and how many had by each place.
#[derive(Drop)]
struct Serial {
    harts: Vec<HartId>,
    counts: Vec<usize>,
}

/// What took effect in the run of an image that a trace tells of.
fn serial_of(rt: &impl Abort, alloc: Global, image: &Image, trace: &Trace) -> Result<Serial, Fail> {
    let image = image.copy(alloc)?;
    assert!(rt; image.harts() == trace.config.harts);
    let mut machine = Machine::make(alloc, image, trace.config).map_err(|_| "no machine")?;
    for event in trace.events.as_slice() {
        assert!(rt; machine.steps_left() >= 1);
        assert!(rt; event.hart.number < machine.config().harts);
        let _ = machine.step(*event);
    }
    let history = machine.history();
    let mut harts = Vec::new(alloc);
    let mut counts = vec![in alloc; 0]?;
    for place in 0..history.length() {
        push_effect(&mut harts, history.entry(place))?;
        counts.push(harts.len())?;
    }
    Ok(Serial { harts, counts })
}

/// Puts the harts whose instructions took effect in an event behind the others.
fn push_effect(harts: &mut Vec<HartId>, entry: Entry) -> Result<(), Fail> {
    match entry.outcome {
        Outcome::Ran => push_times(harts, entry.event.hart, 1),
        Outcome::Committed { count } | Outcome::LetGo { count } => {
            push_times(harts, entry.event.hart, count)
        }
        Outcome::Ordered { freed, .. } | Outcome::Served { freed, .. } => push_freed(harts, freed),
        _ => Ok(()),
    }
}

fn push_freed(harts: &mut Vec<HartId>, freed: Freed) -> Result<(), Fail> {
    for number in 0..MAX_HARTS {
        let hart = HartId { number };
        push_times(harts, hart, freed.count_of(hart).into())?;
    }
    Ok(())
}

fn push_times(harts: &mut Vec<HartId>, hart: HartId, count: u32) -> Result<(), Fail> {
    for _ in 0..count {
        harts.push(hart)?;
    }
    Ok(())
}

/// What a program comes to on plain shared memory, in the order of these harts.
fn run_afresh(
    rt: &impl Abort,
    alloc: Global,
    image: &Image,
    harts: &[HartId],
) -> Result<Flat, Fail> {
    let mut flat = Flat::make(alloc, image)?;
    for hart in harts {
        assert!(rt; usize::from(hart.number) < flat.harts());
        flat.step(*hart);
    }
    Ok(flat)
}

/// A timeline shows what the first instructions of a run come to, so many as had taken effect by its place.
fn shows_the_prefix(
    rt: &impl Abort,
    alloc: Global,
    timeline: &Timeline,
    image: &Image,
    serial: &Serial,
) -> Result<(), Fail> {
    let place = timeline.place();
    let count = serial
        .counts
        .get(place as usize)
        .copied()
        .ok_or("no such place")?;
    let harts = serial.harts.get(..count).ok_or("no such count")?;
    let flat = run_afresh(rt, alloc, image, harts)?;
    assert_eq!(rt; timeline.serial(), count as u64, "place {place}");
    assert!(rt;
        timeline.output() == flat.output(),
        "the output at place {place}"
    );
    for number in 0..timeline.harts() {
        let hart = HartId { number };
        assert!(rt; usize::from(number) < flat.harts());
        assert!(rt;
            timeline.view(hart) == flat.hart(hart),
            "hart {number} at place {place}"
        );
    }
    for address in DATA_START..DATA_END {
        assert!(rt;
            timeline.byte(address) == flat.byte(address),
            "byte {address} at place {place}"
        );
    }
    Ok(())
}

/// Makes the move that is drawn as this number: a place on, a place back, to any place, or on to where a hart comes
/// to the pc that it has at some place.
fn make_move(rt: &impl Abort, timeline: &mut Timeline, number: u64) {
    let start = timeline.place();
    let place = (number / 64 % (u64::from(timeline.places()) + 1)) as u32;
    match number % 4 {
        0 => {
            timeline.forward();
        }
        1 => {
            timeline.back();
        }
        2 => timeline.seek(place),
        _ => {
            let hart = HartId {
                number: (number / 4 % u64::from(timeline.harts())) as u8,
            };
            timeline.seek(place);
            let pc = timeline.view(hart).pc;
            assert!(rt; start <= timeline.places());
            timeline.seek(start);
            timeline.next_at(hart, pc);
        }
    }
}

#[test]
fn a_walk_shows_what_a_fresh_run_of_each_prefix_comes_to(rt: HostRuntime) -> Result<(), Fail> {
    for (mode, harts, work, seed) in RUNS {
        let file = build(rt.alloc(), *work, 1)?;
        assert!(rt; (1..=8).contains(harts));
        let image = load(rt.alloc(), &file, *harts)?;
        let trace = trace_of(rt.alloc(), *mode, *harts, *seed)?;
        let serial = serial_of(&rt, rt.alloc(), &image, &trace)?;
        assert!(rt; serial.harts.len() > 100, "{seed}");
        let copy = image.copy(rt.alloc())?;
        assert!(rt; copy.harts() == trace.config.harts);
        let mut timeline = Timeline::make(rt.alloc(), copy, &trace)?;
        for turn in 0..MOVES {
            make_move(&rt, &mut timeline, draw(*seed, turn));
            shows_the_prefix(&rt, rt.alloc(), &timeline, &image, &serial)?;
        }
    }
    Ok(())
}
