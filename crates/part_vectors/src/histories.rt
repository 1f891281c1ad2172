use crate::asserts::same;
use crate::harts::hart;
use chronicle::*;
use el_base::{
    Cause, Chronicled, Entry, Event, Freed, HartId, Kind, LineAddr, Losers, Need, Outcome, Why,
    line_of,
};
use std::alloc::Global;
use std::process::Abort;
use std::test::Fail;

const KINDS: [Kind; 4] = [Kind::Step, Kind::Order, Kind::Serve, Kind::Deliver];

/// The history of these events, each with its outcome, which has room for so many.
pub(crate) fn history_of(
    rt: &impl Abort,
    alloc: Global,
    room: u32,
    events: &[(Kind, HartId, Outcome)],
) -> Result<History, Fail> {
    let mut history = History::make(alloc, room)?;
    push_all(rt, &mut history, events);
    Ok(history)
}

/// Notes these events, each with its outcome.
fn push_all(rt: &impl Abort, history: &mut History, events: &[(Kind, HartId, Outcome)]) {
    for (kind, hart, outcome) in events {
        assert!(rt; history.spare() >= 1);
        history.push(Entry {
            event: Event {
                kind: *kind,
                hart: *hart,
            },
            outcome: *outcome,
        });
    }
}

/// What comes of the events of a run of ten steps of one hart, of which the sixth misses a line.
fn outcome_at(place: u8, kind: Kind) -> Outcome {
    let (losers, freed) = (Losers::none(), Freed::none());
    match place {
        20 => Outcome::Missed {
            line: line_of(0x1_0080),
            need: Need::Read,
        },
        21 => Outcome::Ordered { losers, freed },
        22 => Outcome::Served { losers, freed },
        _ if kind == Kind::Step => Outcome::Ran,
        _ => Outcome::Idle,
    }
}

#[test]
fn a_plain_run_is_told(rt: HostRuntime) -> Result<(), Fail> {
    let only = hart(0);
    let mut history = History::make(rt.alloc(), 40)?;
    for place in 0..37_u8 {
        let kind = KINDS[place as usize % 4];
        assert!(rt; history.spare() >= 1);
        history.push(Entry {
            event: Event { kind, hart: only },
            outcome: outcome_at(place, kind),
        });
    }
    let ran = Tally {
        ran: 9,
        missed: 1,
        ..Tally::default()
    };
    same(&rt, lengths(&history), (37, 3, 9));
    let tallies = [history.tally(only), history.tally(hart(1))];
    same(&rt, tallies, [ran, Tally::default()]);
    let last = Entry {
        event: Event {
            kind: Kind::Step,
            hart: only,
        },
        outcome: Outcome::Ran,
    };
    assert!(rt; history.length() > 36);
    same(&rt, history.entry(36), last);
    Ok(())
}

/// How many entries a history has, how many more it has room for, and how many instructions took effect.
fn lengths(history: &History) -> (u32, u32, u64) {
    (history.length(), history.spare(), history.serial_len())
}

/// Two harts whose sections meet at one line, up to where the second loses.
fn sections_meet(first: HartId, second: HartId) -> [(Kind, HartId, Outcome); 5] {
    let line = line_of(0x1_0040);
    let need = Need::Write;
    let freed = Freed::none();
    let first_loses = Losers::none().with(first, second);
    let second_loses = Losers::none().with(second, first);
    let (why, by) = (Why::Retained, first);
    [
        (Kind::Step, second, Outcome::Missed { line, need }),
        (
            Kind::Order,
            second,
            Outcome::Ordered {
                losers: first_loses,
                freed,
            },
        ),
        (Kind::Serve, second, Outcome::Blocked { why, by }),
        (
            Kind::Serve,
            second,
            Outcome::Served {
                losers: first_loses,
                freed,
            },
        ),
        (
            Kind::Deliver,
            second,
            Outcome::Delivered {
                losers: second_loses,
            },
        ),
    ]
}

/// Each way in which a section can begin and end: the first hart's commit, and the second's are rolled back.
fn sections_end(first: HartId, second: HartId) -> [(Kind, HartId, Outcome); 11] {
    let step = Kind::Step;
    [
        (step, first, Outcome::Stalled),
        (step, first, Outcome::Began),
        (step, first, Outcome::Buffered),
        (step, first, Outcome::Committed { count: 4 }),
        (step, first, Outcome::Ran),
        (step, first, Outcome::Committed { count: 2 }),
        (step, second, rolled_back(Cause::Room)),
        (step, second, rolled_back(Cause::Lines)),
        (step, second, rolled_back(Cause::Long)),
        (step, second, rolled_back(Cause::Call)),
        (step, second, rolled_back(Cause::Mixed)),
    ]
}

fn rolled_back(cause: Cause) -> Outcome {
    Outcome::RolledBack { cause }
}

/// Two harts whose sections meet at one line, and each way in which a section can end.
#[test]
fn each_outcome_has_its_count(rt: HostRuntime) -> Result<(), Fail> {
    let (first, second) = (hart(0), hart(1));
    let mut history = history_of(&rt, rt.alloc(), 16, &sections_meet(first, second))?;
    push_all(&rt, &mut history, &sections_end(first, second));
    let of_first = Tally {
        ran: 1,
        began: 1,
        committed: 2,
        instr: 6,
        conflict: 2,
        stalled: 1,
        ..Tally::default()
    };
    let of_second = Tally {
        conflict: 1,
        room: 1,
        lines: 1,
        long: 1,
        call: 1,
        mixed: 1,
        missed: 1,
        blocked: 1,
        ..Tally::default()
    };
    same(&rt, lengths(&history), (16, 0, 7));
    let tallies = [history.tally(first), history.tally(second)];
    same(&rt, tallies, [of_first, of_second]);
    Ok(())
}

#[test]
fn a_history_of_no_places_is_full(rt: HostRuntime) -> Result<(), Fail> {
    let history = History::make(rt.alloc(), 0)?;
    same(&rt, lengths(&history), (0, 0, 0));
    Ok(())
}

/// What a hart kept private since an `LR.W` counts where it takes effect, for whoever lets it go.
#[test]
fn what_was_let_go_counts_in_the_serial_order(rt: HostRuntime) -> Result<(), Fail> {
    let (first, second, third) = (hart(0), hart(1), hart(2));
    let losers = Losers::none();
    let freed = Freed::none().with(first, 2).with(third, 15);
    let last = Freed::none().with(third, 1);
    let events = [
        (Kind::Step, second, Outcome::Armed),
        (Kind::Step, second, Outcome::LetGo { count: 3 }),
        (Kind::Step, second, Outcome::Ordered { losers, freed }),
        (
            Kind::Step,
            second,
            Outcome::Served {
                losers,
                freed: last,
            },
        ),
    ];
    let history = history_of(&rt, rt.alloc(), 4, &events)?;
    same(
        &rt,
        (history.serial_len(), history.tally(third)),
        (21, Tally::default()),
    );
    Ok(())
}

/// Each hart has a tally of its own, the last of eight too, and a commit counts with all of its instructions, as many
/// as one can have.
#[test]
fn each_hart_has_a_tally(rt: HostRuntime) -> Result<(), Fail> {
    let (first, last) = (hart(0), hart(7));
    let both = Losers::none().with(last, first).with(first, last);
    let (why, count) = (Why::Locked, 4_294_967_295);
    let events = [
        (Kind::Deliver, last, Outcome::Delivered { losers: both }),
        (Kind::Step, first, Outcome::Committed { count }),
        (Kind::Serve, last, Outcome::Blocked { why, by: first }),
    ];
    let history = history_of(&rt, rt.alloc(), 3, &events)?;
    let of_first = Tally {
        committed: 1,
        instr: 4_294_967_295,
        conflict: 1,
        ..Tally::default()
    };
    let of_last = Tally {
        conflict: 1,
        blocked: 1,
        ..Tally::default()
    };
    same(&rt, history.serial_len(), 4_294_967_295);
    same(
        &rt,
        [history.tally(first), history.tally(last)],
        [of_first, of_last],
    );
    same(&rt, history.tally(hart(6)), Tally::default());
    assert!(rt; history.length() > 2);
    same(
        &rt,
        history.entry(2).outcome,
        Outcome::Blocked { why, by: first },
    );
    Ok(())
}
