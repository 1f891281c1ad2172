use super::*;

/// Instructions, an address in the line that each needs, and for what.
const REFUSED: [(u32, u32, Need); 5] = [
    // lw x8, 64(x5)
    (0x0402a403, 0x10088, Need::Read),
    // sb x6, -9(x5)
    (0xfe628ba3, 0x1003f, Need::Write),
    // lr.w.aq x8, (x5)
    (0x1402a42f, 0x10048, Need::Read),
    // sc.w x8, x6, (x5)
    (0x1862a42f, 0x10048, Need::Write),
    // amoadd.w x8, x6, (x5)
    (0x0062a42f, 0x10048, Need::Write),
];

/// Words at the pc, and the cause of their trap.
const TRAPS: [(Option<u32>, u8); 9] = [
    // jal x0, .+6
    (Some(0x0060006f), 0),
    (None, 1),
    (Some(0), 2),
    // ebreak
    (Some(0x00100073), 3),
    // lw x8, 2(x5)
    (Some(0x0022a403), 4),
    // lw x8, 0(x0)
    (Some(0x00002403), 5),
    // sh x6, 1(x5)
    (Some(0x006290a3), 6),
    // amoadd.w x8, x6, (x7)
    (Some(0x0063a42f), 6),
    // sw x6, 0(x0)
    (Some(0x00602023), 7),
];

/// `ecall`.
const ECALL: u32 = 0x0000_0073;

#[test]
fn lines_that_are_not_there_are_needed(rt: HostRuntime) {
    for (word, address, need) in REFUSED {
        let mut page = page_with(MEMORY, false, false);
        let mut view = hart(&rt);
        let ended = run(&rt, &mut page, &mut view, Some(word));
        let line = line_of(address);
        assert_eq!(rt; ended, Ended::Needs { line, need }, "{word:#x}");
        assert_eq!(rt; view, hart(&rt), "after {word:#x}");
        assert_eq!(rt; page, page_with(MEMORY, false, false), "after {word:#x}");
    }
}

#[test]
fn traps_stop_the_hart_and_need_nothing(rt: HostRuntime) {
    for (word, cause) in TRAPS {
        let mut page = page_with(MEMORY, false, false);
        let mut view = hart(&rt);
        let ended = run(&rt, &mut page, &mut view, word);
        let status = HartStatus::Trapped { cause, pc: PC };
        assert_eq!(rt; ended, Ended::Stops { status }, "{word:?}");
        let mut left = hart(&rt);
        left.status = status;
        assert_eq!(rt; view, left, "after {word:?}");
        assert_eq!(rt; page, page_with(MEMORY, false, false), "after {word:?}");
    }
}

#[test]
fn a_store_conditional_without_its_reservation_stores_nothing(rt: HostRuntime) {
    for reserved in [None, Some(ADDRESS + 4)] {
        for writes in [false, true] {
            let mut page = page_with(MEMORY, false, writes);
            let mut view = hart(&rt);
            view.reserved = reserved;
            // sc.w x8, x6, (x5)
            let ended = run(&rt, &mut page, &mut view, Some(0x1862_a42f));
            assert_eq!(rt; ended, Ended::Ran);
            let mut left = hart(&rt);
            left.regs.set(register(&rt, 8), 1);
            left.pc = PC + 4;
            left.reserved = None;
            assert_eq!(rt; view, left);
            assert_eq!(rt; page, page_with(MEMORY, false, writes));
        }
    }
}

/// A hart before a system call with this number, that writes five bytes from an address on to file 1.
fn caller(rt: &impl Abort, number: u32, address: u32) -> HartView {
    let mut view = hart(rt);
    view.regs.set(register(rt, 17), number);
    view.regs.set(register(rt, 10), 1);
    view.regs.set(register(rt, 11), address);
    view.regs.set(register(rt, 12), 5);
    view
}

#[test]
fn a_write_call_reads_what_it_appends(rt: HostRuntime) {
    let rows = [
        (ADDRESS, ROOM, Some(5)),
        (0x1007e, ROOM, Some(2)),
        (ADDRESS, 3, Some(3)),
        (ADDRESS, 0, None),
        (0x200, ROOM, None),
    ];
    for (address, room, len) in rows {
        let access = len.map(|len| Access::Read { address, len });
        let view = caller(&rt, 64, address);
        assert_eq!(rt; written(&view, SPAN, room), access, "{address:#x} {room}");
    }
    assert_eq!(rt; written(&caller(&rt, 93, ADDRESS), SPAN, ROOM), None);
}

#[test]
fn a_write_call_runs_where_its_line_may_be_read(rt: HostRuntime) {
    for reads in [false, true] {
        let mut page = page_with(MEMORY, reads, false);
        let mut view = caller(&rt, 64, 0x1007e);
        let ended = run(&rt, &mut page, &mut view, Some(ECALL));
        let mut left = caller(&rt, 64, 0x1007e);
        if reads {
            assert_eq!(rt; ended, Ended::Ran);
            left.regs.set(register(&rt, 10), 2);
            left.pc = PC + 4;
        } else {
            let line = line_of(ADDRESS);
            assert_eq!(rt;
                ended,
                Ended::Needs {
                    line,
                    need: Need::Read
                }
            );
        }
        assert_eq!(rt; view, left);
        assert_eq!(rt; page, page_with(MEMORY, reads, false));
    }
}

#[test]
fn an_exit_call_stops_the_hart(rt: HostRuntime) {
    let mut page = page_with(MEMORY, false, false);
    let mut view = caller(&rt, 93, ADDRESS);
    let ended = run(&rt, &mut page, &mut view, Some(ECALL));
    let status = HartStatus::Exited { code: 1 };
    assert_eq!(rt; ended, Ended::Stops { status });
    assert_eq!(rt; view.status, status);
}
