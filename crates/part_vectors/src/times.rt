use crate::asserts::same;
use crate::harts::hart;
use crate::histories::history_of;
use el_base::{Cause, Freed, HartId, Kind, Losers, Need, Outcome, Why, line_of};
use std::alloc::Global;
use std::process::Abort;
use std::test::Fail;
use timetable::*;

/// What a table says of a hart: its units, the instructions that it lost, and for each of the harts 0 to 3
/// how often it lost to that one, and how many instructions by that.
#[derive(Clone, Copy)]
struct Row {
    units: u64,
    lost: u64,
    to: [(u64, u64); 4],
}

const NO_LOSS: [(u64, u64); 4] = [(0, 0); 4];

/// The table of a history of these events, each with its hart and its outcome.
fn table(
    rt: &impl Abort,
    alloc: Global,
    events: &[(Kind, HartId, Outcome)],
) -> Result<Times, Fail> {
    let history = history_of(rt, alloc, 40, events)?;
    Ok(tabulate(&history))
}

/// The table has these rows for the harts from 0 on.
fn check(rt: &impl Abort, times: &Times, rows: &[Row]) {
    for (number, row) in rows.iter().enumerate() {
        assert!(rt; number < 8);
        let loser = HartId::at(number);
        same(
            rt,
            (times.units(loser), times.lost(loser)),
            (row.units, row.lost),
        );
        for number in 0..4_u8 {
            let winner = HartId { number };
            let losses = (times.times(loser, winner), times.instr(loser, winner));
            same(rt, losses, row.to[number as usize]);
        }
    }
}

/// A run of ten steps of one hart, of which the sixth misses a line: nine run, and the miss is ordered and
/// served.
#[test]
fn a_plain_run_costs_its_units(rt: HostRuntime) -> Result<(), Fail> {
    let only = hart(0);
    let (losers, freed) = (Losers::none(), Freed::none());
    let (line, need) = (line_of(0x1_0080), Need::Read);
    let events = [
        (Kind::Step, only, Outcome::Ran),
        (Kind::Order, only, Outcome::Idle),
        (Kind::Step, only, Outcome::Ran),
        (Kind::Step, only, Outcome::Ran),
        (Kind::Step, only, Outcome::Ran),
        (Kind::Step, only, Outcome::Ran),
        (Kind::Step, only, Outcome::Missed { line, need }),
        (Kind::Order, only, Outcome::Ordered { losers, freed }),
        (Kind::Serve, only, Outcome::Served { losers, freed }),
        (Kind::Deliver, only, Outcome::Idle),
        (Kind::Step, only, Outcome::Ran),
        (Kind::Step, only, Outcome::Ran),
        (Kind::Step, only, Outcome::Ran),
        (Kind::Step, only, Outcome::Ran),
    ];
    let times = table(&rt, rt.alloc(), &events)?;
    let row = Row {
        units: 34,
        lost: 0,
        to: NO_LOSS,
    };
    check(&rt, &times, &[row]);
    Ok(())
}

#[test]
fn a_loss_is_charged_to_the_loser(rt: HostRuntime) -> Result<(), Fail> {
    let (first, second) = (hart(0), hart(1));
    let losers = Losers::none().with(second, first);
    let freed = Freed::none();
    let events = [
        (Kind::Step, second, Outcome::Began),
        (Kind::Step, second, Outcome::Buffered),
        (Kind::Order, first, Outcome::Ordered { losers, freed }),
    ];
    let times = table(&rt, rt.alloc(), &events)?;
    let of_first = Row {
        units: 4,
        lost: 0,
        to: NO_LOSS,
    };
    let of_second = Row {
        units: 12,
        lost: 2,
        to: [(1, 2), (0, 0), (0, 0), (0, 0)],
    };
    check(&rt, &times, &[of_first, of_second]);
    Ok(())
}

/// The first half of a history with every outcome: harts 1 and 2 both lose to hart 0 at one serve, with two
/// and three instructions.
fn two_losers() -> [(Kind, HartId, Outcome); 12] {
    let (zero, one, two, three) = (hart(0), hart(1), hart(2), hart(3));
    let line = line_of(0x1_0080);
    let need = Need::Write;
    let why = Why::Retained;
    let nobody = Losers::none();
    let losers = nobody.with(one, zero).with(two, zero);
    let freed = Freed::none();
    [
        (Kind::Order, zero, Outcome::Idle),
        (Kind::Step, zero, Outcome::Stalled),
        (Kind::Step, zero, Outcome::Missed { line, need }),
        (Kind::Step, zero, Outcome::Ran),
        (Kind::Step, one, Outcome::Began),
        (Kind::Step, one, Outcome::Buffered),
        (Kind::Step, two, Outcome::Armed),
        (Kind::Step, two, Outcome::Began),
        (Kind::Step, two, Outcome::Buffered),
        (Kind::Serve, three, Outcome::Blocked { why, by: one }),
        (Kind::Deliver, three, Outcome::Delivered { losers: nobody }),
        (Kind::Serve, zero, Outcome::Served { losers, freed }),
    ]
}

/// The second half: hart 1 loses right after a commit, with nothing, and again with the one instruction
/// since it let itself go; hart 2 was let go, and then loses with one.
fn settled_in_between() -> [(Kind, HartId, Outcome); 15] {
    let (zero, one, two, three) = (hart(0), hart(1), hart(2), hart(3));
    let cause = Cause::Room;
    let nobody = Losers::none();
    let to_three = nobody.with(one, three);
    let to_zero = nobody.with(two, zero);
    let to_two = nobody.with(one, two);
    let second = Freed::none().with(two, 1);
    [
        (Kind::Step, one, Outcome::Began),
        (Kind::Step, one, Outcome::Buffered),
        (Kind::Step, one, Outcome::Committed { count: 3 }),
        (Kind::Step, two, Outcome::Armed),
        (
            Kind::Order,
            three,
            Outcome::Ordered {
                losers: to_three,
                freed: second,
            },
        ),
        (Kind::Step, two, Outcome::Began),
        (Kind::Deliver, zero, Outcome::Delivered { losers: to_zero }),
        (Kind::Step, one, Outcome::Began),
        (Kind::Step, one, Outcome::RolledBack { cause }),
        (Kind::Step, one, Outcome::Armed),
        (Kind::Step, one, Outcome::Buffered),
        (Kind::Step, one, Outcome::LetGo { count: 2 }),
        (Kind::Step, one, Outcome::Armed),
        (
            Kind::Serve,
            zero,
            Outcome::Served {
                losers: to_two,
                freed: Freed::none(),
            },
        ),
        (Kind::Serve, one, Outcome::Idle),
    ]
}

#[test]
fn two_harts_lose_at_one_serve(rt: HostRuntime) -> Result<(), Fail> {
    let times = table(&rt, rt.alloc(), &two_losers())?;
    let winner = Row {
        units: 23,
        lost: 0,
        to: NO_LOSS,
    };
    let first = Row {
        units: 12,
        lost: 2,
        to: [(1, 2), (0, 0), (0, 0), (0, 0)],
    };
    let second = Row {
        units: 13,
        lost: 3,
        to: [(1, 3), (0, 0), (0, 0), (0, 0)],
    };
    let bystander = Row {
        units: 2,
        lost: 0,
        to: NO_LOSS,
    };
    check(&rt, &times, &[winner, first, second, bystander]);
    Ok(())
}

#[test]
fn what_was_settled_is_not_lost(rt: HostRuntime) -> Result<(), Fail> {
    let times = table(&rt, rt.alloc(), &settled_in_between())?;
    let winner = Row {
        units: 21,
        lost: 0,
        to: NO_LOSS,
    };
    let first = Row {
        units: 37,
        lost: 1,
        to: [(0, 0), (0, 0), (1, 1), (1, 0)],
    };
    let second = Row {
        units: 12,
        lost: 1,
        to: [(1, 1), (0, 0), (0, 0), (0, 0)],
    };
    let other = Row {
        units: 4,
        lost: 0,
        to: NO_LOSS,
    };
    check(&rt, &times, &[winner, first, second, other]);
    Ok(())
}
