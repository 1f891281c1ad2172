use super::*;
use crate::asserts::same_at;
use rv_word::Reg;
use std::process::Abort;

const A0: Reg = Reg { number: 10 };

const A1: Reg = Reg { number: 11 };

const A2: Reg = Reg { number: 12 };

const A7: Reg = Reg { number: 17 };

/// A hart at a system call.
fn caller(number: u32, [a0, a1, a2]: [u32; 3]) -> HartView {
    let mut regs = Regs::zero();
    regs.set(A7, number);
    regs.set(A0, a0);
    regs.set(A1, a1);
    regs.set(A2, a2);
    HartView {
        pc: PC,
        regs,
        reserved: Some(0x10000),
        status: HartStatus::Running,
    }
}

/// What the call does, and the hart after it.
fn called(rt: &impl Abort, mut view: HartView, room: u32) -> (Action, Transfers, HartView) {
    // ecall
    let action = Action::at(Some(0x0000_0073), &view, SPAN, room);
    assert_eq!(rt; action.loads(), None);
    let transfers = action.perform(&mut view, None);
    (action, transfers, view)
}

#[test]
fn writes_stop_at_their_line_and_at_the_room(rt: HostRuntime) {
    // errors 9 (bad file), 14 (bad address) and 28 (no space) of Linux, negative
    let (bad_file, bad_address, no_space) = (0xffff_fff7, 0xffff_fff2, 0xffff_ffe4);
    for (arguments, room, appends, answer) in [
        ([1, 0x10036, 200], ROOM, true, 10),
        ([2, 0x10036, 200], ROOM, true, 10),
        ([1, 0x10000, 64], ROOM, true, 64),
        ([1, 0x10000, 65], ROOM, true, 64),
        ([1, 0x10000, 63], ROOM, true, 63),
        ([1, 0x1007f, ONES], ROOM, true, 1),
        ([1, 0x10036, 200], 9, true, 9),
        ([1, 0x10036, 200], 11, true, 10),
        ([1, 0x10036, 3], 5, true, 3),
        ([0, 0x10000, 1], ROOM, false, bad_file),
        ([3, 0x10000, 1], ROOM, false, bad_file),
        ([ONES, 0x10000, 1], ROOM, false, bad_file),
        ([3, 0, 0], 0, false, bad_file),
        ([1, 0x10000, 0], ROOM, false, 0),
        ([2, 0, 0], 0, false, 0),
        ([1, 0, 1], ROOM, false, bad_address),
        ([1, 0xffff, 1], ROOM, false, bad_address),
        ([1, 0x10080, 1], ROOM, false, bad_address),
        ([1, ONES, 1], ROOM, false, bad_address),
        ([1, 0, 1], 0, false, bad_address),
        ([1, 0x10000, 1], 0, false, no_space),
    ] {
        let (address, len) = (arguments[1], answer);
        let (action, transfers, view) = called(&rt, caller(64, arguments), room);
        let (wanted, footprint) = if appends {
            (Some(Append { address, len }), Access::Read { address, len })
        } else {
            (None, Access::Nothing)
        };
        let mut after = caller(64, arguments);
        after.regs.set(A0, answer);
        after.pc = PC + 4;
        same_at(
            &rt,
            arguments,
            (action.footprint(), transfers.append, transfers.store, view),
            (footprint, wanted, None, after),
        );
    }
}

#[test]
fn only_write_and_exit_are_there(rt: HostRuntime) {
    // error 38 (no such call) of Linux, negative
    let no_such_call = 0xffff_ffda;
    for number in [0, 63, 65, 94, 0x8000_005d, ONES] {
        let (action, transfers, view) = called(&rt, caller(number, [1, 0x10000, 4]), ROOM);
        same_at(
            &rt,
            number,
            (
                action.footprint(),
                transfers.append,
                view.regs.get(A0),
                view.pc,
            ),
            (Access::Nothing, None, no_such_call, PC + 4),
        );
    }
    for code in [0, 1, LEAST, ONES] {
        let (action, _, view) = called(&rt, caller(93, [code, 0, 0]), ROOM);
        let mut after = caller(93, [code, 0, 0]);
        after.status = HartStatus::Exited { code };
        same_at(
            &rt,
            code,
            (action.footprint(), view),
            (Access::Exit { code }, after),
        );
    }
}
