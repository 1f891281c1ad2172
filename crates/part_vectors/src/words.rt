use crate::asserts::{same, same_at};
use el_base::*;
use std::mem::size_of;
use std::process::Abort;

const FIRST: HartId = HartId { number: 0 };

const THIRD: HartId = HartId { number: 2 };

const LAST: HartId = HartId { number: 7 };

#[test]
fn harts_are_numbered_0_to_7(rt: HostRuntime) {
    for (number, known) in [(0, true), (1, true), (7, true), (8, false), (255, false)] {
        let found = match HartId::new(number) {
            Some(hart) => (true, hart.number()),
            None => (false, number),
        };
        same(&rt, found, (known, number));
    }
}

#[test]
fn lines_have_64_bytes(rt: HostRuntime) {
    for (address, line) in [
        (0, 0),
        (63, 0),
        (64, 1),
        (0x10000, 0x400),
        (0xffff_ffff, 0x03ff_ffff),
    ] {
        same_at(&rt, address, line_of(address).number, line);
    }
}

#[test]
fn a_set_keeps_each_hart_apart(rt: HostRuntime) {
    let (first, third, last) = (FIRST, THIRD, LAST);
    let ends = Harts::empty().with(first).with(last);
    for (hart, inside) in [(first, true), (third, false), (last, true)] {
        let (with, without) = (ends.with(hart), ends.without(hart));
        same(
            &rt,
            [ends.has(hart), with == ends, without == ends],
            [inside, inside, !inside],
        );
        let left = (Harts::empty().has(hart), without.has(hart));
        same(&rt, left, (false, false));
    }
}

#[test]
fn out_of_memory_is_one_answer(rt: HostRuntime) {
    let from_alloc: NoMemory = std::alloc::AllocError.into();
    same(&rt, from_alloc, NoMemory);
}

#[test]
fn a_hart_has_the_last_winner_given(rt: HostRuntime) {
    let (first, third, last) = (FIRST, THIRD, LAST);
    let losers = Losers::none()
        .with(third, last)
        .with(last, first)
        .with(third, first);
    for (loser, winner) in [(first, None), (third, Some(first)), (last, Some(first))] {
        let winners = (Losers::none().winner_of(loser), losers.winner_of(loser));
        same(&rt, winners, (None, winner));
    }
    let other_way_round = Losers::none().with(last, first).with(third, first);
    same(&rt, losers, other_way_round);
}

#[test]
fn a_hart_is_freed_with_the_last_count_given(rt: HostRuntime) {
    let (first, third, last) = (FIRST, THIRD, LAST);
    let freed = Freed::none().with(third, 15).with(last, 1).with(third, 4);
    for (hart, count) in [(first, 0), (third, 4), (last, 1)] {
        let counts = (Freed::none().count_of(hart), freed.count_of(hart));
        same(&rt, counts, (0, count));
    }
    same(&rt, freed, Freed::none().with(last, 1).with(third, 4));
}

/// The configuration is inside its ranges, or has this fault.
fn judge(rt: &impl Abort, config: Config, inside: bool, fault: ConfigFault) {
    let checked = if inside { Ok(()) } else { Err(fault) };
    same_at(rt, config, config.check(), checked);
}

#[test]
fn each_field_has_its_range(rt: HostRuntime) {
    let usual = Config::usual();
    same(&rt, usual.check(), Ok(()));
    for (harts, inside) in [(0, false), (1, true), (8, true), (9, false)] {
        judge(&rt, Config { harts, ..usual }, inside, ConfigFault::Harts);
    }
    for (ways, inside) in [(0, false), (1, true), (8, true), (9, false)] {
        judge(&rt, Config { ways, ..usual }, inside, ConfigFault::Ways);
    }
    for (lines, inside) in [(0, false), (1, true), (32, true), (33, false)] {
        judge(&rt, Config { lines, ..usual }, inside, ConfigFault::Lines);
    }
    for (long, inside) in [(1, false), (2, true), (65_536, true), (65_537, false)] {
        judge(&rt, Config { long, ..usual }, inside, ConfigFault::Long);
    }
    for (steps, inside) in [
        (0, false),
        (1, true),
        (16_777_216, true),
        (16_777_217, false),
    ] {
        judge(&rt, Config { steps, ..usual }, inside, ConfigFault::Steps);
    }
}

#[test]
fn sets_are_a_power_of_two_up_to_64(rt: HostRuntime) {
    let usual = Config::usual();
    for sets in 0..=255 {
        let known = [1, 2, 4, 8, 16, 32, 64].contains(&sets);
        same_at(&rt, sets, Config { sets, ..usual }.check().is_ok(), known);
    }
}

#[test]
fn the_first_fault_is_answered(rt: HostRuntime) {
    let nothing_right = Config {
        harts: 0,
        mode: Mode::Plain,
        sets: 0,
        ways: 0,
        lines: 0,
        long: 0,
        steps: 0,
    };
    let usual = Config::usual();
    let without_harts = Config {
        harts: usual.harts,
        ..nothing_right
    };
    let without_sets = Config {
        sets: usual.sets,
        ..without_harts
    };
    for (config, number) in [(nothing_right, 1), (without_harts, 2), (without_sets, 3)] {
        same(
            &rt,
            config.check().map_err(|fault| fault as u8),
            Err(number),
        );
    }
    same(
        &rt,
        [
            ConfigFault::Lines as u8,
            ConfigFault::Long as u8,
            ConfigFault::Steps as u8,
        ],
        [4, 5, 6],
    );
}

#[test]
fn an_entry_takes_16_bytes(rt: HostRuntime) {
    let sizes = [size_of::<Losers>(), size_of::<Freed>(), size_of::<Entry>()];
    same(&rt, sizes, [4, 4, 16]);
}

#[test]
fn kinds_are_numbered_0_to_3(rt: HostRuntime) {
    for (number, kind) in [
        (0, Some(Kind::Step)),
        (1, Some(Kind::Order)),
        (2, Some(Kind::Serve)),
        (3, Some(Kind::Deliver)),
        (4, None),
        (255, None),
    ] {
        let own = match kind {
            Some(kind) => kind.number(),
            None => number,
        };
        same(&rt, (Kind::with_number(number), own), (kind, number));
    }
}
