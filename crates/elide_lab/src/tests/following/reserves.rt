//! A lock that is taken by LR and SC.

use super::*;
use crate::tests::asserts::same;
use section_ctl::Armed;

/// A program that takes the lock at 0x11000 by LR and SC, and gives it back by a store.
const RESERVES: &[u32] = &[
    0x000112b7, // 0x10054: lui x5,0x11
    0x00500313, // addi x6,x0,5
    0x1002a3af, // 0x1005c: lr.w x7,(x5)
    0xfe039ee3, // bne x7,x0,.-4
    0x1862ae2f, // sc.w x28,x6,(x5)
    0x0002a023, // 0x10068: sw x0,0(x5)
    0xff1ff06f, // jal x0,.-16
];

/// One hart that takes the lock and gives it back.
const RESERVED: Run = Run {
    code: RESERVES,
    mode: Mode::Sle,
    sets: 16,
    ways: 4,
    events: &[
        STEP, STEP, // ran
        STEP, ORDER, SERVE, // missed the lock's line, which comes as E
        STEP, STEP, // 5: armed; 6: buffered
        STEP, STEP, // 7: began, by the SC; 8: committed
    ],
};

#[test]
fn a_section_that_begins_at_an_sc_stands_at_its_lr(rt: HostRuntime) -> Result<(), Fail> {
    let told = told(&rt, rt.alloc(), &RESERVED)?;
    let section = Try {
        first: 7,
        ended: Ended::Committed { at: 8, count: 4 },
        ..TRY
    };
    same(&rt, told.tries.as_slice(), [section].as_slice());
    assert!(rt; told.swaps.is_empty());
    Ok(())
}

#[test]
fn a_step_shows_that_its_hart_is_armed(rt: HostRuntime) -> Result<(), Fail> {
    let step = event(STEP)?;
    let mut machine = machine_after(&rt, rt.alloc(), &RESERVED, 5)?;
    assert!(rt; machine.steps_left() >= 1);
    assert!(rt; machine.config().harts == 8);
    let shown = show(&mut machine, step);
    same(&rt, shown.outcome, Outcome::Armed);
    let armed = Armed {
        count: 1,
        word: 0x1_1000,
    };
    match shown.what {
        What::Step { before, after, .. } => {
            same(&rt, (before.view.pc, before.armed), (0x1_005c, None));
            same(&rt, (after.view.pc, after.armed), (0x1_0060, Some(armed)));
        }
        _ => assert!(rt; false),
    }
    Ok(())
}
