//! Sets of a few harts, worked by hand.

use crate::asserts::same_at;
use crate::harts::hart;
use defer_list::*;

#[test]
fn an_origin_is_new_once(rt: HostRuntime) {
    let mut told = Told::new();
    for (number, is_new) in [(3, true), (3, false), (0, true), (7, true), (0, false)] {
        same_at(&rt, number, told.add(hart(number)), is_new);
    }
    for (number, there) in [(0, true), (1, false), (3, true), (7, true)] {
        same_at(&rt, number, told.told(hart(number)), there);
    }
}

#[test]
fn a_purge_takes_one_origin_out(rt: HostRuntime) {
    let mut told = Told::new();
    for number in 0..8 {
        assert!(rt; told.add(hart(number)));
    }
    told.purge(hart(5));
    told.purge(hart(5));
    for number in 0..8 {
        same_at(&rt, number, told.told(hart(number)), number != 5);
    }
    assert!(rt; told.add(hart(5)));
}
