//! A few sections, worked by hand. The lock word is at 0x10040, in line 0x401; a cache has each line of a section
//! with at each place the number of the place.

ghost use Rattle.residency.specs.Cache.{write_bit};
ghost use Rattle.el_base.specs.declared.outcomes.Need.TheVariants.{Read};
ghost use Rattle.el_model.specs.InSection.{is_covered};
ghost use Rattle.rv_alu.specs.Footprint.{IsSize};
ghost use Rattle.std.specs.Prelude.{◌≡◌, ◌≤◌, ◌+◌, ◌⊎◌, [], IfOk, None, true};
ghost use Rattle.rv_alu.specs.declared.view.HartStatus.TheVariants.{Running};
ghost use Rattle.section_ctl.specs.Lent.{LendsBoth};
ghost use Rattle.section_view.specs.KeptRun.{HoldsMarked};
ghost use Rattle.write_hold.specs.Slotted as holds;

use crate::asserts::{same, same_at};
use bitflags::Flags;
use cache_sets::{Bits, Letter, Sets};
use el_base::{Config, LineAddr, Need, line_of};
use line_pool::Pool;
use rv_alu::{Action, HartStatus, HartView, Regs, Span};
use rv_word::{Insn, Reg, decode};
use section_ctl::*;
use std::alloc::Global;
use std::process::Abort;
use std::test::Fail;

/// The lock word, what the acquire finds there, and what it would store.
const LOCK: u32 = 0x10040;

const FREE: u32 = 0x1111_1111;

const TAKEN: u32 = 0x2222_2222;

const X5: Reg = Reg { number: 5 };

const X6: Reg = Reg { number: 6 };

const X7: Reg = Reg { number: 7 };

const X8: Reg = Reg { number: 8 };

/// A running hart with a reservation.
fn view(reserved: Option<u32>) -> HartView
    ensures { result.status ≡ Running }
{
    HartView {
        pc: 0x10000,
        regs: Regs::zero(),
        reserved,
        status: HartStatus::Running,
    }
}

/// A cache, and the pool that lends it and a hold of two lines, of which none is held.
#[derive(Drop)]
struct Cache {
    pool: Pool,
    sets: Sets,
    ghost lent: { LendsBoth pool sets (record { limit = 2; owner = 1; entries = [] }) },
}

/// A hart: a section of at most two written lines, which each have the write bit in its cache, and the pool that lends
/// both.
#[derive(Drop)]
struct Hart {
    pool: Pool,
    sets: Sets,
    section: Section,
    ghost lent: { LendsBoth pool sets section.hold },
    ghost marked: { HoldsMarked sets.residency (holds.lent pool section.hold).entries },
    ghost limit: { section.hold.limit ≡ 2 },
}

/// A cache with some lines, which each have at each place the number of the place, and a bit.
fn cache_with(alloc: Global, lines: &[(u32, Need)]) -> Result<Cache, Fail> {
    let mut cache = empty(alloc)?;
    let mut bytes = [0; 64];
    for place in 0..64 {
        bytes[place as usize] = place;
    }
    for (address, need) in lines {
        put_line(&mut cache, line_of(*address), *need, &bytes);
    }
    Ok(cache)
}

/// A cache without lines.
fn empty(alloc: Global) -> Result<Cache, Fail> {
    let config = Config::usual();
    let sets = Sets::make(alloc, &config, 0)?;
    let pool = Pool::make(alloc, &[64, 2])?;
    Ok(Cache { pool, sets })
}

/// Puts a line with a bit into a cache.
fn put_line(cache: &mut Cache, line: LineAddr, need: Need, bytes: &[u8; 64]) {
    if !cache.sets.has(line) && cache.sets.room(line) {
        let _gone = cache.sets.fill(&mut cache.pool, line, Letter::E, bytes);
    }
    if cache.sets.has(line) {
        cache.sets.set_bit(line, need);
    }
}

/// A hart with a view and such a cache, without a section.
fn idle(alloc: Global, view: HartView, lines: &[(u32, Need)]) -> Result<Hart, Fail>
    requires { view.status ≡ Running }
    ensures running { IfOk result (λ hart. hart.section.marks.present.status ≡ Running) }
    ensures none { IfOk result (λ hart. (hart.section.live ≡ None) × (hart.section.armed ≡ None)) }
{
    let config = Config {
        lines: 2,
        ..Config::usual()
    };
    let Cache { pool, sets } = cache_with(alloc, lines)?;
    let section = Section::make(alloc, &config, 1, view)?;
    Ok(Hart {
        pool,
        sets,
        section,
    })
}

/// A hart that has begun a section.
fn begun(alloc: Global, reserved: Option<u32>, lines: &[(u32, Need)]) -> Result<Hart, Fail> {
    let mut hart = idle(alloc, view(reserved), lines)?;
    hart.section.begin(LOCK, FREE, TAKEN, X5);
    Ok(hart)
}

/// A hart that has armed at an LR of the lock word into a register, with the reservation of it.
fn armed(alloc: Global, rd: Reg, lines: &[(u32, Need)]) -> Result<Hart, Fail> {
    let mut hart = idle(alloc, view(None), lines)?;
    hart.section.arm(LOCK, FREE, rd);
    Ok(hart)
}

/// Whether a store may have so many bytes.
fn is_size(len: u32) -> bool
    ensures { result ≡ true → IsSize len }
{
    len == 1 || len == 2 || len == 4
}

/// Whether up to four bytes from an address on are none of the lock word's.
fn is_beside_lock(address: u32) -> bool
    ensures { result ≡ true → (address + 4 ≤ 65600) ⊎ (65604 ≤ address) }
{
    address <= LOCK - 4 || address >= LOCK + 4
}

/// Whether a line has the write bit.
fn is_written(sets: &Sets, line: LineAddr) -> bool
    ensures { result ≡ write_bit sets.now.residency line.number }
{
    sets.bits(line).contains(Bits::WRITE)
}

/// Whether a line has either bit.
fn is_touched(sets: &Sets, line: LineAddr) -> bool
    ensures { result ≡ is_covered sets.now.residency line.number Read }
{
    sets.bits(line) != Bits::empty()
}

/// Stores the low bytes of a value in a live section, whose cache has the write bit on their line.
fn store(hart: &mut Hart, address: u32, len: u32, value: u32) -> Result<(), Fail> {
    let Some(live) = hart.section.live() else {
        return Err("no section is live".into());
    };
    if live.count > 1000 || live.word != LOCK || hart.sets.write_bits() > 2 {
        return Err("no more room".into());
    }
    if !is_size(len) || !is_beside_lock(address) {
        return Err("no such store".into());
    }
    if address % len != 0 {
        return Err("not aligned".into());
    }
    if !is_written(&hart.sets, line_of(address)) {
        return Err("no write bit".into());
    }
    let action = Action::Store {
        address,
        len,
        value,
    };
    hart.section
        .spec_action(&mut hart.pool, &mut hart.sets, action);
    Ok(())
}

/// Loads a word, in a live section whose cache has a bit on its line, into x6.
fn load(hart: &mut Hart, address: u32) -> Result<u32, Fail> {
    let Some(live) = hart.section.live() else {
        return Err("no section is live".into());
    };
    if live.count > 1000 || hart.sets.write_bits() > 2 {
        return Err("no more room".into());
    }
    if address % 4 != 0 {
        return Err("not aligned".into());
    }
    if !is_touched(&hart.sets, line_of(address)) {
        return Err("no bit".into());
    }
    hart.section.spec_action(
        &mut hart.pool,
        &mut hart.sets,
        Action::LoadReserved { rd: X6, address },
    );
    Ok(word_in(hart, X6))
}

/// Runs the instruction of a word, if it computes from a register and a number.
fn compute(hart: &mut Hart, code: u32) -> Result<(), Fail> {
    let Some(live) = hart.section.live() else {
        return Err("no section is live".into());
    };
    if live.count > 1000 || hart.sets.write_bits() > 2 {
        return Err("no more room".into());
    }
    let Some(Insn::OpImm { .. }) = decode(code) else {
        return Err("no such instruction".into());
    };
    let span = Span {
        base: 0x10000,
        end: 0x10100,
    };
    hart.section
        .spec_insn(&mut hart.pool, &mut hart.sets, code, span);
    Ok(())
}

/// Commits by the instruction of a word, if it stores or is atomic.
fn commit(hart: &mut Hart, code: u32) -> Result<(), Fail> {
    if hart.section.live().is_none() {
        return Err("no section is live".into());
    }
    match decode(code) {
        Some(Insn::Store { .. }) => {
            hart.section.commit(&mut hart.pool, &mut hart.sets, code);
            Ok(())
        }
        Some(Insn::Amo { .. }) => {
            hart.section.commit(&mut hart.pool, &mut hart.sets, code);
            Ok(())
        }
        _ => Err("no release".into()),
    }
}

/// Puts a value into a register, in an armed hart.section.
fn put(hart: &mut Hart, rd: Reg, value: u32) -> Result<(), Fail> {
    let Some(armed) = hart.section.armed() else {
        return Err("no section is armed".into());
    };
    if armed.count > 1000 || hart.sets.write_bits() > 2 {
        return Err("no more room".into());
    }
    hart.section
        .spec_action(&mut hart.pool, &mut hart.sets, Action::Put { rd, value });
    Ok(())
}

/// Elides the SC of an armed section, which would store TAKEN.
fn elide(hart: &mut Hart, rd: Reg) -> Result<(), Fail> {
    if hart.section.armed().is_none() {
        return Err("no section is armed".into());
    }
    hart.section.begin_armed(TAKEN, rd);
    Ok(())
}

/// Lets an armed section go.
fn let_go(hart: &mut Hart) {
    if hart.section.armed().is_some() {
        hart.section.let_go();
    }
}

/// Rolls a live section back.
fn roll_back(hart: &mut Hart) {
    if hart.section.live().is_some() {
        hart.section.roll_back(&mut hart.pool);
    }
}

/// The bytes of a line of a cache.
fn bytes_at(hart: &Hart, address: u32) -> Option<[u8; 64]> {
    let line = line_of(address);
    if hart.sets.has(line) {
        Some(*hart.sets.bytes(&hart.pool, line))
    } else {
        None
    }
}

/// `addi x6, x5, 1`.
const ADD_ONE: u32 = 0x0012_8313;

/// `sw x5, 0(x6)` and `amoswap.w x7, x5, (x6)`.
const STORE_WORD: u32 = 0x0053_2023;

const SWAP: u32 = 0x0853_23af;

/// The word in a register, as the section shows it.
fn word_in(hart: &Hart, reg: Reg) -> u32 {
    hart.section.shown().regs.get(reg)
}

/// The pc that the section shows, and the one that a rollback leads to.
fn pcs(hart: &Hart) -> (u32, u32) {
    (hart.section.shown().pc, hart.section.committed().pc)
}

/// The reservation that the section shows, and the one that a rollback leads to.
fn reservations(hart: &Hart) -> (Option<u32>, Option<u32>) {
    (
        hart.section.shown().reserved,
        hart.section.committed().reserved,
    )
}

/// How many instructions a live section has run.
fn count(hart: &Hart) -> Option<u32> {
    Some(hart.section.live()?.count)
}

/// Whether the section wrote the line of an address.
fn wrote(hart: &Hart, address: u32) -> bool {
    hart.section.wrote(line_of(address))
}

/// Loads have these words, each from its address, in this order.
fn loads(rt: &impl Abort, hart: &mut Hart, words: &[(u32, u32)]) -> Result<(), Fail> {
    for &(address, word) in words {
        let loaded = load(hart, address)?;
        same_at(rt, address, loaded, word);
    }
    Ok(())
}

#[test]
fn an_acquire_and_a_release_alone_leave_memory_as_it_was(rt: HostRuntime) -> Result<(), Fail> {
    for (code, found) in [(STORE_WORD, 0), (SWAP, TAKEN)] {
        let mut hart = begun(rt.alloc(), None, &[(LOCK, Need::Read)])?;
        let before = bytes_at(&hart, LOCK);
        let written = (wrote(&hart, LOCK + 60), wrote(&hart, LOCK + 64));
        same(
            &rt,
            (pcs(&hart), word_in(&hart, X5), written),
            ((0x10004, 0x10000), FREE, (true, false)),
        );
        commit(&mut hart, code)?;
        same(
            &rt,
            (pcs(&hart), word_in(&hart, X7), hart.section.live()),
            ((0x10008, 0x10008), found, None),
        );
        let letter = hart.sets.letter(line_of(LOCK));
        same(
            &rt,
            (bytes_at(&hart, LOCK), letter, hart.sets.marked()),
            (before, Letter::E, false),
        );
    }
    Ok(())
}

#[test]
fn a_load_sees_what_was_stored_over_the_bytes_under_it(rt: HostRuntime) -> Result<(), Fail> {
    let lines = [(LOCK, Need::Read), (0x10080, Need::Write)];
    let mut hart = begun(rt.alloc(), None, &lines)?;
    loads(&rt, &mut hart, &[(LOCK, TAKEN), (LOCK + 4, 0x0706_0504)])?;
    store(&mut hart, 0x10086, 2, 0xffff_bbaa)?;
    loads(
        &rt,
        &mut hart,
        &[(0x10084, 0xbbaa_0504), (0x10088, 0x0b0a_0908)],
    )?;
    same(&rt, count(&hart), Some(6));
    Ok(())
}

#[test]
fn an_instruction_of_a_word_runs_on_the_live_view(rt: HostRuntime) -> Result<(), Fail> {
    let mut hart = begun(rt.alloc(), None, &[(LOCK, Need::Read)])?;
    compute(&mut hart, ADD_ONE)?;
    same(
        &rt,
        (word_in(&hart, X6), pcs(&hart), count(&hart)),
        (FREE + 1, (0x10008, 0x10000), Some(2)),
    );
    Ok(())
}

/// The bytes at the places 7 to 12 of a line, if the cache has it.
fn middle(hart: &Hart, address: u32) -> Option<[u8; 6]> {
    let bytes = bytes_at(hart, address)?;
    Some([
        bytes[7], bytes[8], bytes[9], bytes[10], bytes[11], bytes[12],
    ])
}

#[test]
fn the_last_of_two_stores_to_a_word_is_committed(rt: HostRuntime) -> Result<(), Fail> {
    let lines = [(LOCK, Need::Read), (0x10080, Need::Write)];
    let mut hart = begun(rt.alloc(), None, &lines)?;
    for value in [0x1111_1111, 0x4433_2211] {
        store(&mut hart, 0x10088, 4, value)?;
    }
    let before = middle(&hart, 0x10080);
    commit(&mut hart, STORE_WORD)?;
    let after = middle(&hart, 0x10080);
    same(
        &rt,
        (before, after),
        (
            Some([7, 8, 9, 10, 11, 12]),
            Some([7, 0x11, 0x22, 0x33, 0x44, 12]),
        ),
    );
    let written = hart.sets.letter(line_of(0x10080));
    let read = hart.sets.letter(line_of(LOCK));
    same(
        &rt,
        (written, read, hart.section.hold().first()),
        (Letter::M, Letter::E, None),
    );
    Ok(())
}

/// Where stores of 0x44332211 go, how many bytes they have, and the word at 0x10080 after each.
const OVER_ONE_ANOTHER: &[(u32, u32, u32)] = &[
    (0x10082, 2, 0x2211_0100),
    (0x10083, 1, 0x1111_0100),
    (0x10080, 4, 0x4433_2211),
    (0x10080, 1, 0x4433_2211),
];

#[test]
fn a_byte_a_half_and_a_word_over_one_another_are_gone_after_a_rollback(
    rt: HostRuntime,
) -> Result<(), Fail> {
    let lines = [(LOCK, Need::Read), (0x10080, Need::Write)];
    let mut hart = begun(rt.alloc(), None, &lines)?;
    for &(address, len, word) in OVER_ONE_ANOTHER {
        store(&mut hart, address, len, 0x4433_2211)?;
        loads(&rt, &mut hart, &[(0x10080, word)])?;
    }
    roll_back(&mut hart);
    same(
        &rt,
        (hart.section.live(), pcs(&hart), hart.section.hold().len()),
        (None, (0x10000, 0x10000), 0),
    );
    Ok(())
}

#[test]
fn the_last_line_that_may_be_written_is_held(rt: HostRuntime) -> Result<(), Fail> {
    let lines = [(0x10080, Need::Write), (0x100c0, Need::Write)];
    let mut hart = begun(rt.alloc(), None, &lines)?;
    for (address, held) in [(0x10080, 1), (0x100fc, 2), (0x10084, 2)] {
        store(&mut hart, address, 4, 0x5555_5555)?;
        same_at(&rt, address, hart.section.hold().len(), held);
    }
    assert!(rt; wrote(&hart, 0x100c0));
    loads(&rt, &mut hart, &[(0x100fc, 0x5555_5555)])
}

#[test]
fn a_checkpoint_loses_its_reservation_and_the_live_view_keeps_its_own(
    rt: HostRuntime,
) -> Result<(), Fail> {
    let mut hart = begun(rt.alloc(), Some(0x10088), &[(0x10080, Need::Read)])?;
    let _word = load(&mut hart, 0x1008c)?;
    hart.section.unreserve(line_of(0x10080));
    same(&rt, reservations(&hart), (Some(0x1008c), None));
    Ok(())
}

#[test]
fn an_armed_section_becomes_a_live_one_and_commits(rt: HostRuntime) -> Result<(), Fail> {
    let mut hart = armed(rt.alloc(), X5, &[(LOCK, Need::Read)])?;
    let before = bytes_at(&hart, LOCK);
    let reserved = hart.section.shown().reserved;
    for value in [7, 9] {
        put(&mut hart, X8, value)?;
    }
    let (count, word) = (3, LOCK);
    same(
        &rt,
        (
            reserved,
            hart.section.armed(),
            hart.section.live(),
            wrote(&hart, LOCK),
        ),
        (Some(LOCK), Some(Armed { count, word }), None, false),
    );
    elide(&mut hart, X6)?;
    let live = Live {
        count: 4,
        word,
        old: FREE,
        new: TAKEN,
    };
    same(
        &rt,
        (
            hart.section.armed(),
            hart.section.live(),
            hart.section.shown().reserved,
        ),
        (None, Some(live), None),
    );
    same(
        &rt,
        (
            word_in(&hart, X6),
            word_in(&hart, X8),
            hart.section.committed().pc,
        ),
        (0, 9, 0x10000),
    );
    commit(&mut hart, STORE_WORD)?;
    same(
        &rt,
        (
            hart.section.committed().pc,
            hart.section.live(),
            bytes_at(&hart, LOCK),
        ),
        (0x10014, None, before),
    );
    Ok(())
}

#[test]
fn an_armed_section_that_is_let_go_keeps_its_view(rt: HostRuntime) -> Result<(), Fail> {
    let mut hart = armed(rt.alloc(), X5, &[(LOCK, Need::Read)])?;
    put(&mut hart, X8, 7)?;
    let before = hart.section.committed().pc;
    let_go(&mut hart);
    let HartView {
        pc,
        regs,
        reserved,
        ..
    } = hart.section.committed();
    same(
        &rt,
        (before, hart.section.armed(), *pc, *reserved),
        (0x10000, None, 0x10008, Some(LOCK)),
    );
    same(&rt, (regs.get(X5), regs.get(X8)), (FREE, 7));
    Ok(())
}

#[test]
fn a_register_that_is_written_over_after_its_lr_does_not_change_the_old_value(
    rt: HostRuntime,
) -> Result<(), Fail> {
    for value in [0, TAKEN] {
        let mut hart = armed(rt.alloc(), X5, &[(LOCK, Need::Read)])?;
        put(&mut hart, X5, value)?;
        elide(&mut hart, X5)?;
        same_at(&rt, value, old_value(&hart), Some(FREE));
    }
    Ok(())
}

/// The value that a live section found in the lock word.
fn old_value(hart: &Hart) -> Option<u32> {
    Some(hart.section.live()?.old)
}
