//! Words are those of GNU as, and actions are worked out by hand from the RISC-V unprivileged manual. Each address is
//! fetched twice, so the second time its instruction may have been kept.

use crate::asserts::{same, same_at};
use crate::flat::{ENTRY, LIMIT, file_of};
use elf_image::load;
use fetch::Fetch;
use rv_alu::{Action, HartStatus, HartView, Regs, Span};
use rv_word::Reg;
use std::alloc::{AllocError, Global};
use std::process::Abort;
use std::test::Fail;

const X1: Reg = Reg { number: 1 };

const X5: Reg = Reg { number: 5 };

const SPAN: Span = Span {
    base: 0x10000,
    end: 0x20080,
};

const ROOM: u32 = 16_777_216;

/// An address 1,024 words behind the first instruction: their slots are one.
const FAR: u32 = ENTRY + 4096;

/// `addi x5,x5,1`, a word that is no instruction, 1,022 times `addi x0,x0,0`, and `jal x1,.-8` at [`FAR`].
fn code(alloc: Global) -> Result<Vec<u32>, AllocError> {
    let mut words = vec![in alloc; 0x0000_0013; 1025]?;
    for (place, word) in [(0, 0x0012_8293), (1, 0x0000_0000), (1024, 0xff9f_f0ef)] {
        if let Some(slot) = words.get_mut(place) {
            *slot = word;
        }
    }
    Ok(words)
}

/// What the harts of this code fetch from, before the first fetch.
fn fetch_of(rt: &impl Abort, alloc: Global) -> Result<Fetch, Fail> {
    let file = file_of(rt, alloc, &code(alloc)?)?;
    assert!(rt; file.len() <= LIMIT);
    let image = load(alloc, &file, 1)?;
    let shared = image.code().share().ok().ok_or("no memory")?;
    Ok(Fetch::make(alloc, shared).ok().ok_or("no memory")?)
}

/// The action of a hart at `pc` whose x5 is this number.
fn fetched(fetch: &mut Fetch, pc: u32, x5: u32) -> Action {
    let mut regs = Regs::zero();
    regs.set(X5, x5);
    let view = HartView {
        pc,
        regs,
        reserved: None,
        status: HartStatus::Running,
    };
    fetch.next(&view, SPAN, ROOM)
}

#[test]
fn what_was_kept_acts_on_the_registers_of_now(rt: HostRuntime) -> Result<(), Fail> {
    let mut fetch = fetch_of(&rt, rt.alloc())?;
    let (sum, back) = (
        |value| Action::Put { rd: X5, value },
        Action::JumpAndLink {
            rd: X1,
            target: 0x1104c,
        },
    );
    for (pc, x5, want) in [
        (ENTRY, 0, sum(1)),
        (ENTRY, 6, sum(7)),
        (FAR, 7, back),
        (FAR, 8, back),
        (ENTRY, 0xffff_ffff, sum(0)),
        (FAR, 0, back),
        (ENTRY, 1, sum(2)),
    ] {
        let action = fetched(&mut fetch, pc, x5);
        same_at(&rt, pc, action, want);
    }
    same(&rt, fetch.code().code_word(FAR), Some(0xff9f_f0ef));
    Ok(())
}

#[test]
fn what_is_no_instruction_traps_each_time(rt: HostRuntime) -> Result<(), Fail> {
    let mut fetch = fetch_of(&rt, rt.alloc())?;
    for (pc, cause) in [
        (ENTRY + 4, 2),
        (ENTRY + 4, 2),
        (FAR + 4, 1),
        (FAR + 4, 1),
        (ENTRY - 4096, 1),
        (0xffff_fffc, 1),
    ] {
        let action = fetched(&mut fetch, pc, 0);
        same_at(&rt, pc, action, Action::Trap { cause });
    }
    Ok(())
}
