use crate::asserts::{same, same_at};
use pair_table::*;

const NOTHING: Seen = Seen {
    release: false,
    touches: false,
    call_or_stop: false,
};

#[test]
fn counters_stay_from_0_to_3_and_are_shared(rt: HostRuntime) {
    let mut table = PairTable::new();
    let first = table.confidence(0x100);
    table.settle(0x100, Verdict::Up);
    let second = table.confidence(0x100);
    table.settle(0x100, Verdict::Up);
    let third = table.confidence(0x100);
    for _ in 0..4 {
        table.settle(0x100, Verdict::Down);
    }
    let shared = (table.confidence(0x100), table.confidence(0x200));
    same(
        &rt,
        ([first, second, third], shared, table.confidence(0x104)),
        ([2, 3, 3], (0, 0), 2),
    );
}

#[test]
fn a_watch_is_settled_when_it_is_too_long(rt: HostRuntime) {
    let mut table = PairTable::new();
    table.watch(0x100, 0x2_0000, 0);
    let watched = table.watched();
    let verdict = table.saw(NOTHING, 2);
    same(
        &rt,
        (watched, verdict, table.confidence(0x100), table.watched()),
        (Some((0x2_0000, 0)), Some(Verdict::Down), 1, None),
    );
    let mut table = PairTable::new();
    table.watch(0x100, 0x2_0000, 0);
    let first = table.saw(NOTHING, 3);
    let confidence = table.confidence(0x100);
    let (second, third) = (table.saw(NOTHING, 3), table.saw(NOTHING, 3));
    same(
        &rt,
        (first, confidence, second, third),
        (None, 2, Some(Verdict::Down), None),
    );
}

#[test]
fn a_release_comes_before_all_else(rt: HostRuntime) {
    let rows = [
        (
            Seen {
                release: true,
                ..NOTHING
            },
            Some(Verdict::Up),
            3,
        ),
        (
            Seen {
                touches: true,
                ..NOTHING
            },
            Some(Verdict::Down),
            1,
        ),
        (
            Seen {
                call_or_stop: true,
                ..NOTHING
            },
            Some(Verdict::Down),
            1,
        ),
        (
            Seen {
                release: true,
                touches: true,
                call_or_stop: false,
            },
            Some(Verdict::Up),
            3,
        ),
        (NOTHING, None, 2),
    ];
    for (seen, verdict, confidence) in rows {
        let mut table = PairTable::new();
        table.watch(0x1_0000, 0x2_0000, 7);
        let found = table.saw(seen, 2_000);
        same_at(
            &rt,
            seen,
            (found, table.confidence(0x1_0000), table.watched().is_some()),
            (verdict, confidence, verdict.is_none()),
        );
    }
}

#[test]
fn a_watch_that_is_ended_teaches_nothing(rt: HostRuntime) {
    let mut table = PairTable::new();
    table.watch(0x100, 0x2_0000, 0);
    table.unwatch();
    let (watched, verdict) = (table.watched(), table.saw(NOTHING, 2));
    same(
        &rt,
        (watched, verdict, table.confidence(0x100)),
        (None, None, 2),
    );
}
