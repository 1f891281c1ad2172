//! Orders of a few requests, worked by hand.

use crate::asserts::same;
use crate::harts::hart;
use bus_order::*;
use el_base::{LineAddr, Need, line_of};

fn line(number: u8) -> LineAddr {
    line_of(u32::from(number) * 64)
}

/// A hart's request to write the line with this number.
fn asks(number: u8, line_number: u8) -> Request {
    Request {
        hart: hart(number),
        line: line(line_number),
        need: Need::Write,
        stamp: None,
    }
}

/// Puts a request in front of its line or behind all, where its hart has none yet.
fn put(order: &mut Order, request: Request, in_front: bool) {
    if order.of(request.hart).is_some() {
        return;
    }
    if in_front {
        order.in_front(request);
    } else {
        order.append(request);
    }
}

#[test]
fn a_request_goes_behind_all_or_in_front_of_its_line(rt: HostRuntime) {
    let mut order = Order::new();
    for (hart, number, in_front) in [
        (0, 5, false),
        (1, 6, false),
        (2, 5, false),
        (3, 6, true),
        (4, 7, true),
        (5, 5, true),
    ] {
        put(&mut order, asks(hart, number), in_front);
    }
    let wanted = [
        asks(5, 5),
        asks(0, 5),
        asks(3, 6),
        asks(1, 6),
        asks(2, 5),
        asks(4, 7),
    ];
    same(&rt, order.as_slice(), wanted.as_slice());
    for (number, first, last) in [(5, 5, 2), (6, 3, 1), (7, 4, 4)] {
        same(
            &rt,
            ends(&order, number),
            (Some(asks(first, number)), Some(asks(last, number))),
        );
    }
    same(&rt, ends(&order, 8), (None, None));
}

/// The first request of a line and its last one.
fn ends(order: &Order, number: u8) -> (Option<Request>, Option<Request>) {
    (order.first_of(line(number)), order.tail_of(line(number)))
}

#[test]
fn eight_harts_have_a_place_each(rt: HostRuntime) {
    let mut order = Order::new();
    for number in 0..8 {
        put(&mut order, asks(number, 1), false);
    }
    let head = asks(0, 1);
    let before = (order.as_slice().len(), order.of(head.hart));
    order.remove(head.hart);
    let after = (order.of(head.hart), order.first_of(head.line));
    order.remove(head.hart);
    same(
        &rt,
        (before, after, order.as_slice().len()),
        ((8, Some(head)), (None, Some(asks(1, 1))), 7),
    );
}
