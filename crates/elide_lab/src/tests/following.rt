//! What comes of each event of a run is worked out by hand from the rules of steps and of the bus, and stands beside it.

mod reserves;
mod showing;

use crate::tests::asserts::same;
use chronicle::Tally;
use el_base::{Cause, Config, Event, HartId, Kind, LineAddr, Mode, Need, Outcome};
use elf_image::load;
use lab::LineFact::{Lost, Missed, Owner, Served, WroteBack};
use lab::*;
use machine::Machine;
use section_ctl::Live;
use std::alloc::{AllocError, Global};
use std::process::Abort;
use std::test::Fail;
use worked_files::HELLO;

/// A program that takes the lock at 0x11000 again and again, stores to 0x11040, and gives the lock back by a swap.
const SWAPS: &[u32] = &[
    0x000112b7, // 0x10054: lui x5,0x11
    0x00500313, // addi x6,x0,5
    0x0862a3af, // 0x1005c: amoswap.w x7,x6,(x5)
    0x04628023, // sb x6,64(x5)
    0x0802a3af, // 0x10064: amoswap.w x7,x0,(x5)
    0xff5ff06f, // jal x0,.-12
    0x00000013, // addi x0,x0,0
];

/// One whose section stores another value to its lock word, and which has a swap that leaves the word as it was.
const MIXES: &[u32] = &[
    0x000112b7, // 0x10054: lui x5,0x11
    0x00500313, // addi x6,x0,5
    0x0862a3af, // 0x1005c: amoswap.w x7,x6,(x5)
    0x0052a023, // sw x5,0(x5)
    0x0002a023, // sw x0,0(x5)
    0x0802a3af, // 0x10068: amoswap.w x7,x0,(x5)
    0xff1ff06f, // jal x0,.-16
];

/// Where in `HELLO` the code begins, and where the low bytes of the segment's two lengths stand.
const CODE: usize = 0x54;

const LENGTHS: [usize; 2] = [0x44, 0x48];

const FIRST: HartId = HartId { number: 0 };

const SECOND: HartId = HartId { number: 1 };

/// The line of the lock word, and that of the store.
const LOCK: LineAddr = LineAddr { number: 0x440 };

const DATA: LineAddr = LineAddr { number: 0x441 };

/// The swap that takes the lock, the one that gives it back, and the one that leaves it as it was.
const TAKE: Acquire = Acquire {
    pc: 0x1_005c,
    word: 0x1_1000,
};

const GIVE: Acquire = Acquire {
    pc: 0x1_0064,
    word: 0x1_1000,
};

const KEEP: Acquire = Acquire {
    pc: 0x1_0068,
    word: 0x1_1000,
};

/// Events of harts 0 and 1.
const STEP: (Kind, u8) = (Kind::Step, 0);

const ORDER: (Kind, u8) = (Kind::Order, 0);

const SERVE: (Kind, u8) = (Kind::Serve, 0);

const STEP_1: (Kind, u8) = (Kind::Step, 1);

const ORDER_1: (Kind, u8) = (Kind::Order, 1);

const SERVE_1: (Kind, u8) = (Kind::Serve, 1);

const DELIVER_1: (Kind, u8) = (Kind::Deliver, 1);

/// Events of a program on eight harts, of which only the first two make any.
#[derive(Clone, Copy)]
struct Run {
    code: &'static [u32],
    mode: Mode,
    sets: u8,
    ways: u8,
    events: &'static [(Kind, u8)],
}

/// Two harts under one lock, by lock elision.
const CONTENDED: Run = Run {
    code: SWAPS,
    mode: Mode::Sle,
    sets: 16,
    ways: 4,
    events: &[
        STEP, STEP, // ran
        STEP, ORDER, SERVE, // missed the lock's line, which comes as E
        STEP, // 5: began
        STEP, ORDER, SERVE, // missed the data's line, which comes as M
        STEP, // 9: buffered, the second instruction of the section
        STEP_1, STEP_1, // ran
        STEP_1, ORDER_1, SERVE_1, // missed the lock's line, of which both have S then
        STEP_1, // 15: began
        STEP_1, ORDER_1, SERVE_1, // missed the data's line: at 17 the section of hart 0, which wrote there, is lost
        STEP_1, STEP_1, // buffered; 20: committed by the swap that gives the lock back
        STEP, // 21: began again
        STEP, ORDER, SERVE, // missed the data's line
        STEP, STEP, // buffered; 26: committed
    ],
};

/// One hart whose cache has room for one line: its section has none for the store, and the lock is taken plainly.
const CROWDED: Run = Run {
    code: SWAPS,
    mode: Mode::Sle,
    sets: 1,
    ways: 1,
    events: &[
        STEP, STEP, // ran
        STEP, ORDER, SERVE, // missed the lock's line, which comes as E
        STEP, STEP, // 5: began; 6: rolled back, as the set is full
        STEP, // 7: ran, the swap in the fallback; the line is M then
        STEP, ORDER, SERVE, // missed the data's line: at 10 the lock's leaves for it
        STEP, // ran
        STEP, ORDER, SERVE, // missed the lock's line: at 14 the data's leaves for it
        STEP, STEP, STEP, // 15: began, by the swap that gives the lock back; 17: committed by the one that takes it
    ],
};

/// One hart whose section stores to its lock word: that acquire is trusted no more.
const MIXED: Run = Run {
    code: MIXES,
    mode: Mode::Sle,
    sets: 16,
    ways: 4,
    events: &[
        STEP, STEP, // ran
        STEP, ORDER, SERVE, // missed the lock's line, which comes as E
        STEP, STEP, // 5: began; 6: rolled back, as another value than the old one is next to be stored to the word
        STEP, // 7: ran, the swap in the fallback
        STEP, STEP, // ran: the first store takes another point from the swap
        STEP, // 10: ran, the swap of 0 for 0
        STEP, STEP, // the jump; 12: ran, the swap that is not trusted
    ],
};

/// One hart that takes the lock, since none is elided.
const PLAIN: Run = Run {
    code: SWAPS,
    mode: Mode::Plain,
    sets: 16,
    ways: 4,
    events: &[
        STEP, STEP, // ran
        STEP, ORDER, SERVE, // missed the lock's line, which comes as M
        STEP, // 5: ran
    ],
};

/// A section of the acquire that takes the lock.
const TRY: Try = Try {
    hart: FIRST,
    acquire: TAKE,
    old: 0,
    new: 5,
    first: 5,
    ended: Ended::Live,
};

/// The section of the crowded run that gives the lock back, and the swap that took it.
const GIVEN_BACK: Try = Try {
    hart: FIRST,
    acquire: GIVE,
    old: 5,
    new: 0,
    first: 15,
    ended: Ended::Committed { at: 17, count: 3 },
};

const TAKEN: PlainSwap = PlainSwap {
    place: 7,
    hart: FIRST,
    acquire: TAKE,
    old: 0,
    new: 5,
    why: NotElided::Fallback,
};

/// The file of these instructions, fewer than 40: the headers of `HELLO`, and one segment that is the whole file.
fn file_of(rt: &impl Abort, alloc: Global, code: &[u32]) -> Result<Vec<u8>, AllocError> {
    let mut file = HELLO[..CODE].to_vec(alloc)?;
    for word in code {
        file.extend_from_slice(&word.to_le_bytes())?;
    }
    assert!(rt; file.len() <= 255);
    let length = file.len() as u8;
    for place in LENGTHS {
        if let Some(byte) = file.get_mut(place) {
            *byte = length;
        }
    }
    Ok(file)
}

/// A machine of a run, with eight harts.
fn machine_of(rt: &impl Abort, alloc: Global, run: &Run) -> Result<Machine, Fail> {
    let file = file_of(rt, alloc, run.code)?;
    assert!(rt; file.len() <= 1_000);
    let image = load(alloc, &file, 8).map_err(|_| "no image")?;
    assert_eq!(rt; image.harts(), 8);
    let config = Config {
        harts: 8,
        mode: run.mode,
        sets: run.sets,
        ways: run.ways,
        steps: 100,
        ..Config::usual()
    };
    Ok(Machine::make(alloc, image, config).map_err(|_| "no machine")?)
}

fn event(row: (Kind, u8)) -> Result<Event, Fail> {
    let hart = HartId::new(row.1).ok_or("no such hart")?;
    Ok(Event { kind: row.0, hart })
}

/// Makes events, and tells what was seen of them.
fn watched(
    rt: &impl Abort,
    alloc: Global,
    machine: &mut Machine,
    rows: &[(Kind, u8)],
) -> Result<Watched, Fail> {
    let mut events = Vec::new(alloc);
    for row in rows {
        events.push(event(*row)?)?;
    }
    let harts = machine.config().harts;
    assert!(rt; events.iter().all(|event| event.hart.number < harts));
    assert!(rt; events.len() <= machine.steps_left() as usize);
    Ok(watch(alloc, machine, &events)?)
}

/// A machine after so many events of a run.
fn machine_after(rt: &impl Abort, alloc: Global, run: &Run, made: usize) -> Result<Machine, Fail> {
    let mut machine = machine_of(rt, alloc, run)?;
    assert!(rt; made <= run.events.len());
    watched(rt, alloc, &mut machine, &run.events[..made])?;
    Ok(machine)
}

/// What a run tells.
fn told(rt: &impl Abort, alloc: Global, run: &Run) -> Result<Watched, Fail> {
    let mut machine = machine_of(rt, alloc, run)?;
    watched(rt, alloc, &mut machine, run.events)
}

/// Each fact is that of its row: its place, its line, and what it is.
fn compare(rt: &impl Abort, facts: &[Fact], rows: &[(u32, LineAddr, LineFact)]) {
    same(rt, facts.len(), rows.len());
    for (fact, row) in facts.iter().zip(rows) {
        same(
            rt,
            (fact.place, fact.line, fact.what),
            (row.0, Some(row.1), row.2),
        );
    }
}

#[test]
fn a_section_is_lost_to_the_hart_that_waits_for_its_line(rt: HostRuntime) -> Result<(), Fail> {
    let told = told(&rt, rt.alloc(), &CONTENDED)?;
    let lost = Ended::LostTo {
        at: 17,
        ran: 2,
        winner: SECOND,
        line: Some(DATA),
    };
    let tries = [
        Try { ended: lost, ..TRY },
        Try {
            hart: SECOND,
            first: 15,
            ended: Ended::Committed { at: 20, count: 3 },
            ..TRY
        },
        Try {
            first: 21,
            ended: Ended::Committed { at: 26, count: 3 },
            ..TRY
        },
    ];
    same(&rt, told.tries.as_slice(), tries.as_slice());
    assert!(rt; told.swaps.is_empty());
    Ok(())
}

/// What becomes of the lines of the contended run: each fact with its place and its line.
const CONTENDED_FACTS: [(u32, LineAddr, LineFact); 16] = [
    (
        2,
        LOCK,
        Missed {
            hart: FIRST,
            need: Need::Read,
        },
    ),
    (
        4,
        LOCK,
        Served {
            hart: FIRST,
            need: Need::Read,
        },
    ),
    (
        4,
        LOCK,
        Owner {
            from: None,
            to: Some(FIRST),
        },
    ),
    (
        6,
        DATA,
        Missed {
            hart: FIRST,
            need: Need::Write,
        },
    ),
    (
        8,
        DATA,
        Served {
            hart: FIRST,
            need: Need::Write,
        },
    ),
    (
        8,
        DATA,
        Owner {
            from: None,
            to: Some(FIRST),
        },
    ),
    (
        12,
        LOCK,
        Missed {
            hart: SECOND,
            need: Need::Read,
        },
    ),
    (
        14,
        LOCK,
        Served {
            hart: SECOND,
            need: Need::Read,
        },
    ),
    (
        14,
        LOCK,
        Owner {
            from: Some(FIRST),
            to: None,
        },
    ),
    (
        16,
        DATA,
        Missed {
            hart: SECOND,
            need: Need::Write,
        },
    ),
    (
        17,
        DATA,
        Lost {
            winner: SECOND,
            loser: FIRST,
        },
    ),
    (
        18,
        DATA,
        Served {
            hart: SECOND,
            need: Need::Write,
        },
    ),
    (
        18,
        DATA,
        Owner {
            from: Some(FIRST),
            to: Some(SECOND),
        },
    ),
    (
        22,
        DATA,
        Missed {
            hart: FIRST,
            need: Need::Write,
        },
    ),
    (
        24,
        DATA,
        Served {
            hart: FIRST,
            need: Need::Write,
        },
    ),
    (
        24,
        DATA,
        Owner {
            from: Some(SECOND),
            to: Some(FIRST),
        },
    ),
];

#[test]
fn lines_of_two_harts_change_their_owners(rt: HostRuntime) -> Result<(), Fail> {
    let told = told(&rt, rt.alloc(), &CONTENDED)?;
    compare(&rt, &told.facts, &CONTENDED_FACTS);
    Ok(())
}

#[test]
fn a_full_cache_rolls_a_section_back(rt: HostRuntime) -> Result<(), Fail> {
    let told = told(&rt, rt.alloc(), &CROWDED)?;
    let full = Ended::RolledBack {
        at: 6,
        ran: 1,
        cause: Cause::Room,
    };
    let tries = [Try { ended: full, ..TRY }, GIVEN_BACK];
    same(&rt, told.tries.as_slice(), tries.as_slice());
    same(&rt, told.swaps.as_slice(), [TAKEN].as_slice());
    let parted = part_releases(rt.alloc(), told.tries.as_slice(), &told.swaps)?;
    same(&rt, parted.takes.as_slice(), &tries[..1]);
    same(&rt, parted.releases.as_slice(), &tries[1..]);
    Ok(())
}

/// What becomes of the lines of the crowded run.
const CROWDED_FACTS: [(u32, LineAddr, LineFact); 11] = [
    (
        2,
        LOCK,
        Missed {
            hart: FIRST,
            need: Need::Read,
        },
    ),
    (
        4,
        LOCK,
        Served {
            hart: FIRST,
            need: Need::Read,
        },
    ),
    (
        4,
        LOCK,
        Owner {
            from: None,
            to: Some(FIRST),
        },
    ),
    (
        8,
        DATA,
        Missed {
            hart: FIRST,
            need: Need::Write,
        },
    ),
    (
        10,
        DATA,
        Served {
            hart: FIRST,
            need: Need::Write,
        },
    ),
    (
        10,
        DATA,
        Owner {
            from: None,
            to: Some(FIRST),
        },
    ),
    (10, LOCK, WroteBack { hart: FIRST }),
    (
        12,
        LOCK,
        Missed {
            hart: FIRST,
            need: Need::Read,
        },
    ),
    (
        14,
        LOCK,
        Served {
            hart: FIRST,
            need: Need::Read,
        },
    ),
    (
        14,
        LOCK,
        Owner {
            from: None,
            to: Some(FIRST),
        },
    ),
    (14, DATA, WroteBack { hart: FIRST }),
];

#[test]
fn a_written_line_that_makes_room_is_written_back(rt: HostRuntime) -> Result<(), Fail> {
    let told = told(&rt, rt.alloc(), &CROWDED)?;
    compare(&rt, &told.facts, &CROWDED_FACTS);
    Ok(())
}

#[test]
fn swaps_that_run_say_why(rt: HostRuntime) -> Result<(), Fail> {
    let mixed = told(&rt, rt.alloc(), &MIXED)?;
    let ended = Ended::RolledBack {
        at: 6,
        ran: 1,
        cause: Cause::Mixed,
    };
    same(
        &rt,
        mixed.tries.as_slice(),
        [Try { ended, ..TRY }].as_slice(),
    );
    same(
        &rt,
        mixed.swaps.as_slice(),
        swaps_of_the_mixed_run().as_slice(),
    );
    let plain = told(&rt, rt.alloc(), &PLAIN)?;
    let swap = PlainSwap {
        place: 5,
        why: NotElided::PlainMode,
        ..TAKEN
    };
    assert!(rt; plain.tries.as_slice().is_empty());
    same(&rt, plain.swaps.as_slice(), [swap].as_slice());
    Ok(())
}

/// In the fallback, as no candidate, and as one that is not trusted.
fn swaps_of_the_mixed_run() -> [PlainSwap; 3] {
    let kept = PlainSwap {
        place: 10,
        acquire: KEEP,
        new: 0,
        why: NotElided::NoCandidate,
        ..TAKEN
    };
    let mistrusted = PlainSwap {
        place: 12,
        why: NotElided::Confidence,
        ..TAKEN
    };
    [TAKEN, kept, mistrusted]
}

#[test]
fn rows_count_the_sections_of_an_acquire(rt: HostRuntime) -> Result<(), Fail> {
    let told = told(&rt, rt.alloc(), &CONTENDED)?;
    let tries = told.tries.as_slice();
    let row = Tally {
        began: 3,
        committed: 2,
        instr: 6,
        conflict: 1,
        ..Tally::default()
    };
    same(
        &rt,
        told.tries.acquires(rt.alloc())?.as_slice(),
        [TAKE].as_slice(),
    );
    same(&rt, told.tries.counts(TAKE), row);
    let rows = tally_acquires(rt.alloc(), tries)?;
    same(&rt, (rows.of(TAKE), rows.of(GIVE)), (row, Tally::default()));
    for (winner, lost) in [(FIRST, 0), (SECOND, 1)] {
        same(&rt, losses_to(rt.alloc(), tries, winner)?.of(TAKE), lost);
    }
    same(&rt, lost_instr(rt.alloc(), tries)?.of(TAKE), 2);
    Ok(())
}

#[test]
fn rows_count_plain_swaps_by_their_reasons(rt: HostRuntime) -> Result<(), Fail> {
    let swaps = swaps_of_the_mixed_run();
    let acquires = acquires_of(rt.alloc(), &[GIVEN_BACK], &swaps)?;
    same(&rt, acquires.as_slice(), [GIVE, TAKE, KEEP].as_slice());
    for (why, take, keep) in [
        (NotElided::PlainMode, 0, 0),
        (NotElided::Fallback, 1, 0),
        (NotElided::Confidence, 1, 0),
        (NotElided::NoCandidate, 0, 1),
    ] {
        let counts = plain_swaps(rt.alloc(), &swaps, why)?;
        same(&rt, (counts.of(TAKE), counts.of(KEEP)), (take, keep));
    }
    Ok(())
}

#[test]
fn acquires_come_in_the_order_of_their_first_sections(rt: HostRuntime) -> Result<(), Fail> {
    for (run, acquires) in [(&CROWDED, [TAKE, GIVE]), (&MIXED, [TAKE, KEEP])] {
        let told = told(&rt, rt.alloc(), run)?;
        let found = acquires_of(rt.alloc(), told.tries.as_slice(), &told.swaps)?;
        same(&rt, found.as_slice(), acquires.as_slice());
    }
    Ok(())
}

#[test]
fn rows_count_the_facts_of_a_line(rt: HostRuntime) -> Result<(), Fail> {
    let lost = LineCount::Lost {
        winner: SECOND,
        loser: FIRST,
    };
    let read = LineCount::Missed { need: Need::Read };
    let write = LineCount::Missed { need: Need::Write };
    for (run, what, lock, data) in [
        (&CONTENDED, read, 2, 0),
        (&CONTENDED, write, 0, 3),
        (&CONTENDED, LineCount::Served, 2, 3),
        (&CONTENDED, LineCount::Owner, 2, 3),
        (&CONTENDED, lost, 0, 1),
        (&CONTENDED, LineCount::WrittenBack, 0, 0),
        (&CROWDED, LineCount::WrittenBack, 1, 1),
    ] {
        let facts = told(&rt, rt.alloc(), run)?.facts;
        same(
            &rt,
            lines_of(rt.alloc(), &facts)?.as_slice(),
            [LOCK, DATA].as_slice(),
        );
        let counts = line_counts(rt.alloc(), &facts, what)?;
        same(&rt, (counts.times(LOCK), counts.times(DATA)), (lock, data));
    }
    Ok(())
}

/// After two swaps, whether that section gives the lock back.
#[test]
fn a_section_after_its_own_harts_swap_gives_the_lock_back(rt: HostRuntime) -> Result<(), Fail> {
    let elsewhere = Acquire {
        pc: 0x1_005c,
        word: 0x1_1004,
    };
    let other = PlainSwap {
        place: 6,
        acquire: elsewhere,
        ..TAKEN
    };
    for (first, second, gives) in [
        (other, TAKEN, 1),
        (TAKEN, PlainSwap { place: 8, ..other }, 1),
        (
            other,
            PlainSwap {
                hart: SECOND,
                ..TAKEN
            },
            0,
        ),
        (other, PlainSwap { new: 6, ..TAKEN }, 0),
        (other, PlainSwap { old: 5, ..TAKEN }, 0),
        (other, PlainSwap { place: 15, ..TAKEN }, 0),
        (
            TAKEN,
            PlainSwap {
                place: 8,
                hart: SECOND,
                ..TAKEN
            },
            0,
        ),
    ] {
        let parted = part_releases(rt.alloc(), &[GIVEN_BACK], &[first, second])?;
        same(
            &rt,
            (parted.takes.len(), parted.releases.len()),
            (1 - gives, gives),
        );
    }
    Ok(())
}

#[test]
fn harts_stand_at_a_pc_and_a_line(rt: HostRuntime) -> Result<(), Fail> {
    for (made, first, second) in [
        (
            17,
            (0x1_0064, None, Some(1)),
            (0x1_0060, Some(DATA), Some(11)),
        ),
        (27, (0x1_0068, None, Some(26)), (0x1_0068, None, Some(20))),
    ] {
        let machine = machine_after(&rt, rt.alloc(), &CONTENDED, made)?;
        assert!(rt; machine.config().harts == 8);
        for (hart, row) in [(FIRST, first), (SECOND, second)] {
            let wait = wait_of(&machine, hart);
            same(&rt, (wait.pc, wait.line, wait.last), row);
        }
    }
    Ok(())
}
