//! The rows are those of the MOESI table: each letter against each event.

use crate::asserts::same_at;
use el_base::Need;
use moesi::*;

#[test]
fn each_letter_meets_each_event(rt: HostRuntime) {
    // letter, may read, may write, after another's read, after another's write, behind memory
    let rows = [
        (Letter::M, true, true, Letter::O, Letter::I, true),
        (Letter::O, true, false, Letter::O, Letter::I, true),
        (Letter::E, true, true, Letter::S, Letter::I, false),
        (Letter::S, true, false, Letter::S, Letter::I, false),
        (Letter::I, false, false, Letter::I, Letter::I, false),
    ];
    for (letter, reads, writes, after_read, after_write, dirty) in rows {
        let (may_read, may_write) = (may(letter, Need::Read), may(letter, Need::Write));
        same_at(
            &rt,
            letter,
            (
                may_read,
                may_write,
                on_read(letter),
                on_write(letter),
                is_dirty(letter),
            ),
            (reads, writes, after_read, after_write, dirty),
        );
    }
}

#[test]
fn a_line_is_filled_by_need_and_by_the_others(rt: HostRuntime) {
    for (need, others, letter) in [
        (Need::Read, false, Letter::E),
        (Need::Read, true, Letter::S),
        (Need::Write, false, Letter::M),
        (Need::Write, true, Letter::M),
    ] {
        same_at(&rt, (need, others), filled(need, others), letter);
    }
}
