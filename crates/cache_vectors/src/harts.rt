//! Harts whose sections are lost and rolled back, and whose watches are settled, worked by hand.

ghost use Rattle.std.specs.Prelude.{◌≡◌, ◌<◌, ◌-◌, IfOk, IsSome, None};
ghost use Rattle.rv_alu.specs.declared.view.HartStatus.TheVariants.{Running};
ghost use Rattle.write_hold.specs.Slotted.{IsLent};

use crate::asserts::{same, same_at};
use el_base::{Cause, Config, Mode};
use hart_state::*;
use line_pool::Pool;
use rv_alu::{Action, HartStatus, HartView, Regs};
use rv_word::{AmoOp, Reg};
use std::alloc::Global;
use std::test::Fail;
use step_rules::Swap;

/// Two places in the program, with counters of their own.
const HERE: u32 = 0x10000;

const THERE: u32 = 0x10010;

/// A lock word, and another.
const WORD: u32 = 0x20000;

const OTHER: u32 = 0x20040;

/// A swap of the lock word, which finds 7 there and would store 8.
const ACQUIRE: Swap = Swap {
    word: WORD,
    old: 7,
    new: 8,
};

/// The register that a swap puts its word into.
const FOUND: Reg = Reg { number: 5 };

/// An instruction that touches no memory.
const NOTHING: Action = Action::Go { target: 0x10004 };

/// A running hart at a place in the program.
fn view(pc: u32) -> HartView
    ensures { result.status ≡ Running }
{
    HartView {
        pc,
        regs: Regs::zero(),
        reserved: None,
        status: HartStatus::Running,
    }
}

/// A hart, and the pool that lends what it holds.
#[derive(Drop)]
struct Hart {
    pool: Pool,
    state: HartState,
    ghost lent: { IsLent pool state.section.hold },
}

/// A hart before its first event, at a place in the program.
fn hart_at(alloc: Global, pc: u32) -> Result<Hart, Fail>
    ensures idle { IfOk result (λ hart. hart.state.section.live ≡ None) }
    ensures unarmed { IfOk result (λ hart. hart.state.section.armed ≡ None) }
    ensures running { IfOk result (λ hart. hart.state.section.marks.present.status ≡ Running) }
    ensures unwatched { IfOk result (λ hart. hart.state.predictor.watch ≡ None) }
{
    let state = HartState::make(alloc, &Config::usual(), 0, view(pc))?;
    let pool = Pool::make(alloc, &[16])?;
    Ok(Hart { pool, state })
}

/// A swap of a word, and what it is to the rules.
fn swap_of(word: u32, old: u32, new: u32) -> (Action, Swap) {
    let action = Action::Amo {
        op: AmoOp::Swap,
        rd: FOUND,
        address: word,
        source: new,
    };
    (action, Swap { word, old, new })
}

/// A store of a word.
fn store(address: u32, value: u32) -> Action {
    Action::Store {
        address,
        len: 4,
        value,
    }
}

/// A section begins at a word, and is lost. Tells whether the hart may elide then.
fn lose(hart: &mut Hart, mode: Mode) -> bool
    requires idle { hart.old.state.section.live ≡ None }
    requires unarmed { hart.old.state.section.armed ≡ None }
    requires running { hart.old.state.section.marks.present.status ≡ Running }
    ensures idle { hart.new.state.section.live ≡ None }
    ensures unarmed { hart.new.state.section.armed ≡ None }
    ensures running { hart.new.state.section.marks.present.status ≡ Running }
{
    hart.state.begin(ACQUIRE, FOUND);
    hart.state.lose(&mut hart.pool, mode);
    hart.state.may_elide(mode)
}

#[test]
fn the_fourth_loss_in_a_row_takes_the_lock_where_attempts_have_no_stamps(
    rt: HostRuntime,
) -> Result<(), Fail> {
    for (mode, elides) in [
        (Mode::Sle, [true, true, true, false]),
        (Mode::Tlr, [true, true, true, true]),
    ] {
        let mut hart = hart_at(rt.alloc(), HERE)?;
        let found = [
            lose(&mut hart, mode),
            lose(&mut hart, mode),
            lose(&mut hart, mode),
            lose(&mut hart, mode),
        ];
        same_at(&rt, mode, found, elides);
    }
    Ok(())
}

/// A candidate at a place runs, which finds 7 in a word and stores 8 there.
fn run_candidate(hart: &mut Hart, pc: u32, word: u32)
    ensures { hart.new.state.section ≡ hart.old.state.section }
{
    let (action, swap) = swap_of(word, 7, 8);
    hart.state
        .has_run(&Config::usual(), pc, &action, Some(swap), false);
}

/// A live section is rolled back.
fn leave(hart: &mut Hart, cause: Cause)
    requires { IsSome hart.old.state.section.live }
    ensures { hart.new.state.section.live ≡ None }
{
    hart.state.roll_back(&mut hart.pool, cause);
}

/// A section begins at the hart's place, and is rolled back.
fn roll_back(hart: &mut Hart, found: Reg, cause: Cause)
    requires idle { hart.old.state.section.live ≡ None }
    requires unarmed { hart.old.state.section.armed ≡ None }
    requires running { hart.old.state.section.marks.present.status ≡ Running }
    ensures { hart.new.state.section.live ≡ None }
{
    hart.state.begin(ACQUIRE, found);
    leave(hart, cause);
}

#[test]
fn a_rollback_takes_the_next_lock_and_blames_the_section_alone(
    rt: HostRuntime,
) -> Result<(), Fail> {
    for (cause, trusted) in [
        (Cause::Room, true),
        (Cause::Lines, true),
        (Cause::Long, false),
        (Cause::Call, false),
        (Cause::Mixed, false),
    ] {
        let mut hart = hart_at(rt.alloc(), HERE)?;
        hart.state.begin(ACQUIRE, FOUND);
        let found = hart.state.shown().regs.get(FOUND);
        let committed = *hart.state.committed();
        leave(&mut hart, cause);
        let left = *hart.state.shown();
        let elides = hart.state.may_elide(Mode::Sle);
        run_candidate(&mut hart, THERE, WORD);
        same_at(
            &rt,
            cause,
            (
                found,
                committed,
                left,
                elides,
                hart.state.may_elide(Mode::Sle),
            ),
            (7, view(HERE), view(HERE), false, trusted),
        );
    }
    Ok(())
}

#[test]
fn a_watch_is_settled_by_what_comes_after_it(rt: HostRuntime) -> Result<(), Fail> {
    // whether the place is trusted then, and after one section there that was too long
    for (action, long, trusted, still) in [
        (store(WORD, 7), 2_000, true, true),
        (store(WORD, 9), 2_000, false, false),
        (Action::Exit { code: 0 }, 2_000, false, false),
        (NOTHING, 2_000, true, false),
        (NOTHING, 2, false, false),
    ] {
        let config = Config {
            long,
            ..Config::usual()
        };
        let mut hart = hart_at(rt.alloc(), HERE)?;
        run_candidate(&mut hart, HERE, WORD);
        hart.state.has_run(&config, THERE, &action, None, false);
        let elides = hart.state.may_elide(Mode::Tlr);
        roll_back(&mut hart, FOUND, Cause::Long);
        run_candidate(&mut hart, THERE, WORD);
        let elides = (elides, hart.state.may_elide(Mode::Tlr));
        same_at(&rt, action, elides, (trusted, still));
    }
    Ok(())
}

#[test]
fn a_candidate_is_watched_where_no_watch_stood(rt: HostRuntime) -> Result<(), Fail> {
    // the second candidate's word, and whether each place is trusted after later stores to both words
    for (second, here, there) in [(OTHER, false, true), (WORD, false, true)] {
        for (pc, trusted) in [(HERE, here), (THERE, there)] {
            let mut hart = hart_at(rt.alloc(), pc)?;
            run_candidate(&mut hart, HERE, WORD);
            run_candidate(&mut hart, THERE, second);
            hart.state
                .has_run(&Config::usual(), 0x10020, &store(OTHER, 9), None, false);
            hart.state
                .has_run(&Config::usual(), 0x10024, &store(WORD, 9), None, false);
            same_at(&rt, (second, pc), hart.state.may_elide(Mode::Sle), trusted);
        }
    }
    Ok(())
}

/// An instruction runs at the second place.
fn run_there(hart: &mut Hart, config: &Config, action: &Action, swap: Option<Swap>) {
    hart.state.has_run(config, THERE, action, swap, false);
}

#[test]
fn a_candidate_ends_the_fallback_where_locks_are_elided(rt: HostRuntime) -> Result<(), Fail> {
    for (mode, new, ends) in [
        (Mode::Sle, None, false),
        (Mode::Sle, Some(7), false),
        (Mode::Sle, Some(8), true),
        (Mode::Tlr, Some(8), true),
        (Mode::Plain, Some(8), false),
    ] {
        let config = Config {
            mode,
            ..Config::usual()
        };
        let mut hart = hart_at(rt.alloc(), HERE)?;
        roll_back(&mut hart, FOUND, Cause::Room);
        match new {
            None => run_there(&mut hart, &config, &NOTHING, None),
            Some(new) => {
                let (action, swap) = swap_of(WORD, 7, new);
                run_there(&mut hart, &config, &action, Some(swap));
            }
        }
        same_at(&rt, (mode, new), hart.state.may_elide(Mode::Sle), ends);
    }
    Ok(())
}

/// An LR of the lock word, and an SC of 8 to it, which finds 7 there.
const RESERVE: Action = Action::LoadReserved {
    rd: FOUND,
    address: WORD,
};

const CONDITIONAL: Action = Action::StoreConditional {
    rd: FOUND,
    address: WORD,
    value: 8,
};

/// An SC runs at a place, and then a store of a value that the SC did not find.
fn run_conditional(hart: &mut Hart, pc: u32) {
    let config = Config::usual();
    hart.state
        .has_run(&config, pc, &CONDITIONAL, Some(ACQUIRE), false);
    hart.state
        .has_run(&config, 0x10020, &store(WORD, 9), None, false);
}

/// How far each of the two places is trusted.
fn trust(hart: &Hart) -> (u8, u8) {
    let predictor = hart.state.predictor();
    (predictor.confidence(HERE), predictor.confidence(THERE))
}

#[test]
fn an_acquire_by_an_sc_is_watched_from_the_last_lr(rt: HostRuntime) -> Result<(), Fail> {
    for (reserved, trusted) in [(None, (2, 2)), (Some(HERE), (1, 2)), (Some(THERE), (2, 1))] {
        let mut hart = hart_at(rt.alloc(), HERE)?;
        if let Some(pc) = reserved {
            hart.state
                .has_run(&Config::usual(), pc, &RESERVE, None, true);
        }
        let before = hart.state.last_lr();
        run_conditional(&mut hart, THERE);
        same(
            &rt,
            (before, trust(&hart), hart.state.last_lr()),
            (reserved, trusted, reserved),
        );
    }
    Ok(())
}

#[test]
fn an_lr_that_is_let_go_is_the_last_one(rt: HostRuntime) -> Result<(), Fail> {
    let mut hart = hart_at(rt.alloc(), HERE)?;
    hart.state.arm(WORD, 7, FOUND);
    let before = hart.state.last_lr();
    hart.state.let_go();
    let after = hart.state.last_lr();
    let (pc, found) = (
        hart.state.committed().pc,
        hart.state.shown().regs.get(FOUND),
    );
    run_conditional(&mut hart, THERE);
    same(
        &rt,
        (before, after, pc, found, trust(&hart)),
        (None, Some(HERE), 0x10004, 7, (1, 2)),
    );
    Ok(())
}

#[test]
fn a_section_that_an_sc_begins_blames_its_lr(rt: HostRuntime) -> Result<(), Fail> {
    let mut hart = hart_at(rt.alloc(), HERE)?;
    hart.state.arm(WORD, 7, FOUND);
    hart.state.begin_armed(8, FOUND);
    let found = hart.state.shown().regs.get(FOUND);
    leave(&mut hart, Cause::Long);
    same(
        &rt,
        (
            found,
            *hart.state.shown(),
            hart.state.last_lr(),
            trust(&hart),
        ),
        (0, view(HERE), None, (1, 2)),
    );
    Ok(())
}
