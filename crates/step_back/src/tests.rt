//! What a small program comes to is worked out by hand from the RISC-V unprivileged manual.

ghost use Rattle.std.specs.Prelude.{◌≡◌, IfOk};

use super::*;
use chronicle::History;
use el_base::{
    Chronicled, Entry, Event, Freed, HartId, Kind, Losers, Need, NoMemory, Outcome, line_of,
};
use elf_image::{Image, load};
use std::alloc::Global;
use std::process::Abort;
use std::test::Fail;

/// A file that is one segment at 0x10000, to be read, written and executed, with the entry behind its
/// headers: `addi x6,x0,1; add x6,x6,x6; sw x6,-64(x2); jal x0,.-8`.
const FILE: [u8; 100] = [
    0x7f, 0x45, 0x4c, 0x46, 0x01, 0x01, 0x01, 0x00, 0x00, 0x00, 0x00, 0x00, 0x00, 0x00, 0x00, 0x00,
    0x02, 0x00, 0xf3, 0x00, 0x01, 0x00, 0x00, 0x00, 0x54, 0x00, 0x01, 0x00, 0x34, 0x00, 0x00, 0x00,
    0x00, 0x00, 0x00, 0x00, 0x00, 0x00, 0x00, 0x00, 0x34, 0x00, 0x20, 0x00, 0x01, 0x00, 0x00, 0x00,
    0x00, 0x00, 0x00, 0x00, 0x01, 0x00, 0x00, 0x00, 0x00, 0x00, 0x00, 0x00, 0x00, 0x00, 0x01, 0x00,
    0x00, 0x00, 0x01, 0x00, 0x64, 0x00, 0x00, 0x00, 0x64, 0x00, 0x00, 0x00, 0x07, 0x00, 0x00, 0x00,
    0x00, 0x10, 0x00, 0x00, 0x13, 0x03, 0x10, 0x00, 0x33, 0x03, 0x63, 0x00, 0x23, 0x20, 0x61, 0xfc,
    0x6f, 0xf0, 0x9f, 0xff,
];

/// What took effect at each place: the pcs of the first two harts, how many instructions, and the first byte
/// that hart 0 stores to.
const PLACES: &[(u32, u32, u32, u64, u8)] = &[
    (0, 0x10054, 0x10054, 0, 0),
    (1, 0x10058, 0x10054, 1, 0),
    (2, 0x10058, 0x10054, 1, 0),
    (3, 0x10058, 0x10058, 2, 0),
    (4, 0x10060, 0x1005c, 5, 2),
    (5, 0x10060, 0x1005c, 8, 4),
    (6, 0x10060, 0x10060, 9, 4),
    (7, 0x10060, 0x10060, 9, 4),
];

/// From a place on, where a hart comes to a pc next.
const NEXT: &[(u32, u8, u32, Option<u32>)] = &[
    (0, 0, 0x10060, Some(4)),
    (4, 0, 0x10060, None),
    (0, 1, 0x10060, Some(6)),
    (0, 0, 0x10054, None),
    (1, 1, 0x10058, Some(3)),
    (3, 1, 0x10058, None),
    (7, 0, 0x10060, None),
];

const FIRST: HartId = HartId { number: 0 };

const SECOND: HartId = HartId { number: 1 };

/// An event of a hart, and what came of it.
fn entry(kind: Kind, hart: HartId, outcome: Outcome) -> Entry {
    Entry {
        event: Event { kind, hart },
        outcome,
    }
}

/// Hart 1 lets both harts go, one of them after two instructions and the other after one.
fn history_of(alloc: Global) -> Result<History, Fail> {
    let losers = Losers::none();
    let line = line_of(0x90040);
    let freed = Freed::none().with(FIRST, 2).with(SECOND, 1);
    let entries = [
        entry(Kind::Step, FIRST, Outcome::Ran),
        entry(
            Kind::Step,
            SECOND,
            Outcome::Missed {
                line,
                need: Need::Read,
            },
        ),
        entry(Kind::Step, SECOND, Outcome::Ran),
        entry(Kind::Order, SECOND, Outcome::Ordered { losers, freed }),
        entry(Kind::Step, FIRST, Outcome::Committed { count: 3 }),
        entry(Kind::Step, SECOND, Outcome::LetGo { count: 1 }),
        entry(Kind::Deliver, FIRST, Outcome::Idle),
    ];
    let mut history = History::make(alloc, 7)?;
    for entry in entries {
        if history.spare() > 0 {
            history.push(entry);
        }
    }
    Ok(history)
}

/// The timeline of eight harts, of which the first two run.
fn timeline_of(rt: &impl Abort, alloc: Global) -> Result<Timeline, Fail>
    ensures { IfOk result (λ timeline. timeline.program.harts ≡ 8) }
{
    let image = load(alloc, &FILE, 8)?;
    assert!(rt; image.harts() == 8);
    let history = history_of(alloc)?;
    Ok(timeline_over(alloc, image, history)?)
}

/// The timeline of a history of an image for all eight harts.
fn timeline_over(alloc: Global, image: Image, history: History) -> Result<Timeline, NoMemory>
    requires { image.harts ≡ 8 }
    ensures { IfOk result (λ timeline. timeline.program.harts ≡ 8) }
{
    Timeline::of_history(alloc, image, history)
}

#[test]
fn each_place_shows_what_has_taken_effect(rt: HostRuntime) -> Result<(), Fail> {
    for start in [0, 7] {
        for row in PLACES {
            let mut timeline = timeline_of(&rt, rt.alloc())?;
            assert!(rt; timeline.places() == 7 && start <= 7 && row.0 <= 7);
            timeline.seek(start);
            timeline.seek(row.0);
            let pcs = (timeline.view(FIRST).pc, timeline.view(SECOND).pc);
            let byte = timeline.byte(0x90040).unwrap_or(0xff);
            let shown = (timeline.place(), pcs.0, pcs.1, timeline.serial(), byte);
            assert_eq!(rt; shown, *row, "from place {start}");
        }
    }
    Ok(())
}

#[test]
fn a_hart_comes_to_a_pc_where_it_was_not_there_before(rt: HostRuntime) -> Result<(), Fail> {
    for (start, number, pc, next) in NEXT {
        let hart = HartId::new(*number).expect(&rt, "a hart");
        let mut timeline = timeline_of(&rt, rt.alloc())?;
        assert!(rt; *start <= timeline.places());
        timeline.seek(*start);
        let found = timeline.next_at(hart, *pc);
        let place = found.then_some(timeline.place());
        assert_eq!(rt;
            (place, timeline.place()),
            (*next, next.unwrap_or(*start)),
            "from place {start}"
        );
    }
    Ok(())
}

#[test]
fn a_timeline_ends_at_both_ends(rt: HostRuntime) -> Result<(), Fail> {
    let mut timeline = timeline_of(&rt, rt.alloc())?;
    assert_eq!(rt; (timeline.back(), timeline.place()), (false, 0));
    assert!(rt; timeline.places() == 7);
    timeline.seek(7);
    assert_eq!(rt; (timeline.forward(), timeline.place()), (false, 7));
    assert_eq!(rt;
        (timeline.back(), timeline.place(), timeline.output().len()),
        (true, 6, 0)
    );
    Ok(())
}
