//! Stamps that are just less, equal and greater, by clock and by hart.

use crate::asserts::same_at;
use crate::harts::hart;
use stamp::*;

/// A stamp of a clock and a hart's number.
fn stamp_of((clock, number): (u64, u8)) -> Stamp {
    Stamp {
        clock,
        hart: hart(number),
    }
}

#[test]
fn stamps_are_ordered_by_clock_and_then_by_hart(rt: HostRuntime) {
    let rows = [
        ((0, 0), (0, 0), false),
        ((0, 0), (0, 1), true),
        ((0, 1), (0, 0), false),
        ((1, 0), (0, 7), false),
        ((0, 7), (1, 0), true),
        ((4, 3), (5, 3), true),
        ((5, 3), (4, 3), false),
        ((u64::MAX, 6), (u64::MAX, 7), true),
        ((u64::MAX, 7), (u64::MAX, 7), false),
    ];
    for (left, right, before) in rows {
        let is_less = less(stamp_of(left), stamp_of(right));
        same_at(&rt, (left, right), is_less, before);
    }
}

#[test]
fn the_next_clock_is_one_more_than_the_greater(rt: HostRuntime) {
    for (own, seen, next) in [
        (0, 0, 1),
        (4, 4, 5),
        (4, 9, 10),
        (9, 4, 10),
        (0, u64::MAX - 1, u64::MAX),
    ] {
        same_at(&rt, (own, seen), next_clock(own, seen), next);
    }
}
