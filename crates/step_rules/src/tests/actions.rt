use super::*;
use crate::{
    Exchange, Touch, calls_or_stops, conditional_of, exchange_of, is_conditional, is_quiet,
    is_release, reserve_of, seen_by, stores_to_word, swap_of, touch_of,
};
use pair_table::Seen;

/// What an action is to the rules, where the lock word found 0: what it touches, by the number of the line, what it
/// stores in exchange, and whether it is a release, a store to the lock word, a call or a stop.
#[derive(Clone, Copy)]
struct Row {
    action: Action,
    touch: Option<(u32, Need)>,
    new: Option<u32>,
    seen: Seen,
}

/// A row of an action that is neither an exchange nor a call.
fn other_row(action: Action, touch: Option<(u32, Need)>, release: bool, touches: bool) -> Row {
    Row {
        action,
        touch,
        new: None,
        seen: Seen {
            release,
            touches,
            call_or_stop: false,
        },
    }
}

/// A row of a swap at an address.
fn swap_row(address: u32, new: u32, release: bool, touches: bool) -> Row {
    Row {
        new: Some(new),
        ..other_row(
            swap(address, new),
            Some((0x401, Need::Write)),
            release,
            touches,
        )
    }
}

/// A row of a call or a stop.
fn end_row(action: Action, touch: Option<(u32, Need)>) -> Row {
    Row {
        seen: Seen {
            release: false,
            touches: false,
            call_or_stop: true,
        },
        ..other_row(action, touch, false, false)
    }
}

/// That an action is what its row says.
fn is_row(row: &Row) -> bool {
    let touch = touch_of(&row.action).map(|touch: Touch| (touch.line.number, touch.need));
    let new = exchange_of(&row.action).map(|exchange: Exchange| exchange.new);
    touch == row.touch && new == row.new && seen_by(&row.action, WORD, 0) == row.seen
}

#[test]
fn loads_and_stores_are_told_by_their_line(rt: HostRuntime) {
    let put = Action::Put { rd: X5, value: 7 };
    let read = Some((0x401, Need::Read));
    let written = Some((0x401, Need::Write));
    let half = Action::Store {
        address: WORD + 2,
        len: 2,
        value: 0,
    };
    let byte = Action::Store {
        address: WORD - 1,
        len: 1,
        value: 0,
    };
    let rows = [
        other_row(put, None, false, false),
        other_row(Action::Fail { rd: X5 }, None, false, false),
        other_row(load_word(WORD + 4), read, false, false),
        other_row(load_reserved(WORD), read, false, false),
        other_row(store(WORD, 0), written, true, true),
        other_row(store(WORD, 1), written, false, true),
        other_row(half, written, false, true),
        other_row(byte, Some((0x400, Need::Write)), false, false),
        other_row(store(WORD + 4, 0), written, false, false),
    ];
    for (number, row) in rows.iter().enumerate() {
        assert!(rt; is_row(row), "row {number}");
    }
}

#[test]
fn only_swaps_and_word_stores_release(rt: HostRuntime) {
    let written = Some((0x401, Need::Write));
    let conditional = Row {
        new: Some(0),
        ..other_row(store_conditional(WORD, 0), written, false, true)
    };
    let add = Action::Amo {
        op: AmoOp::Add,
        rd: X5,
        address: WORD,
        source: 0,
    };
    let rows = [
        swap_row(WORD, 0, true, true),
        swap_row(WORD, 1, false, true),
        swap_row(WORD + 4, 0, false, false),
        conditional,
        other_row(add, written, false, true),
    ];
    for (number, row) in rows.iter().enumerate() {
        assert!(rt; is_row(row), "row {number}");
    }
}

#[test]
fn calls_traps_and_exits_end_a_section(rt: HostRuntime) {
    let append = Action::Append {
        address: WORD,
        len: 5,
    };
    let rows = [
        end_row(Action::Trap { cause: 3 }, None),
        end_row(Action::Exit { code: 0 }, None),
        end_row(Action::Answer { value: 1 }, None),
        end_row(append, Some((0x401, Need::Read))),
    ];
    for (number, row) in rows.iter().enumerate() {
        assert!(rt; is_row(row), "row {number}");
        assert!(rt; calls_or_stops(&row.action), "row {number}");
        assert!(rt; !is_release(&row.action, WORD, 0), "row {number}");
        assert!(rt; !stores_to_word(&row.action, WORD), "row {number}");
    }
}

/// What an action is of an acquire: the word that a swap stores, the one that a store conditional stores, the address
/// of the word that it reserves, and whether it may stand between an LR and its SC.
type Acquire = (Option<u32>, Option<u32>, Option<u32>, bool);

/// That of an action.
fn acquire(action: Action) -> Acquire {
    (
        swap_of(&action).map(|exchange: Exchange| exchange.new),
        conditional_of(&action).map(|exchange: Exchange| exchange.new),
        reserve_of(&action),
        is_quiet(&action),
    )
}

#[test]
fn swaps_and_pairs_of_lr_and_sc_are_told_apart(rt: HostRuntime) {
    let add = Action::Amo {
        op: AmoOp::Add,
        rd: X5,
        address: WORD,
        source: 0,
    };
    let link = Action::JumpAndLink {
        rd: X5,
        target: WORD,
    };
    let none = (None, None, None, false);
    let private = (None, None, None, true);
    for (number, (action, expected)) in [
        (swap(WORD, 1), (Some(1), None, None, false)),
        (store_conditional(WORD, 1), (None, Some(1), None, false)),
        (load_reserved(WORD), (None, None, Some(WORD), false)),
        (Action::Put { rd: X5, value: 7 }, private),
        (link, private),
        (Action::Go { target: WORD }, private),
        (Action::Fail { rd: X5 }, none),
        (add, none),
        (load_word(WORD), none),
        (store(WORD, 1), none),
        (Action::Answer { value: 0 }, none),
        (Action::Trap { cause: 3 }, none),
    ]
    .iter()
    .enumerate()
    {
        assert_eq!(rt; acquire(*action), *expected, "row {number}");
    }
    assert!(rt; is_conditional(&store_conditional(WORD, 1)));
    assert!(rt; !is_conditional(&swap(WORD, 1)));
}
