//! Instructions over a cache of one set with two ways. Instructions are the words that LLVM's assembler makes of
//! the text beside them; what they leave behind was worked by hand from the RISC-V unprivileged manual and the
//! table of the letters.

ghost use Rattle.std.specs.Prelude.{◌≡◌};
ghost use Rattle.cache_sets.specs.Slotted.{IsLent};
ghost use Rattle.rv_alu.specs.declared.view.HartStatus.TheVariants.{Running};

use crate::asserts::same_at;
use cache_sets::Sets;
use cached_step::*;
use core_step::Ended;
use el_base::{Config, Need, line_of};
use line_pool::Pool;
use moesi::Letter;
use rv_alu::{Action, HartStatus, HartView, Regs, Span};
use rv_word::Reg;
use std::alloc::Global;
use std::process::Abort;
use std::test::Fail;

const SPAN: Span = Span {
    base: 0x10000,
    end: 0x10100,
};

/// The room of an output that has taken nothing.
const ROOM: u32 = 16_777_216;

const PC: u32 = 0x10000;

/// What x5 has, an address in the second line of memory.
const ADDRESS: u32 = 0x10048;

/// An address in the other line that the cache has, and one in a line that it has not.
const OTHER: u32 = 0x10080;

const THIRD: u32 = 0x100c0;

/// The word at the address in x5.
const MEMORY: u32 = 0x80ff_7f01;

/// Each letter, and whether it may be read and written.
const LETTERS: [(Letter, bool, bool); 5] = [
    (Letter::M, true, true),
    (Letter::O, true, false),
    (Letter::E, true, true),
    (Letter::S, true, false),
    (Letter::I, false, false),
];

/// Loads, and x8 after them.
const LOADS: [(u32, u32); 6] = [
    // lb x8, 2(x5)
    (0x00228403, 0xffff_ffff),
    // lh x8, 2(x5)
    (0x00229403, 0xffff_80ff),
    // lw x8, 0(x5)
    (0x0002a403, 0x80ff_7f01),
    // lbu x8, 3(x5)
    (0x0032c403, 0x80),
    // lhu x8, 2(x5)
    (0x0022d403, 0x80ff),
    // lr.w.aq x8, (x5)
    (0x1402a42f, 0x80ff_7f01),
];

/// Stores and atomic operations, x8 after them, and the word at the address in x5.
const WRITES: [(u32, u32, u32); 5] = [
    // sb x6, 1(x5)
    (0x006280a3, 0, 0x80ff_2101),
    // sh x6, 2(x5)
    (0x00629123, 0, 0x4321_7f01),
    // sw x6, 0(x5)
    (0x0062a023, 0, 0x8765_4321),
    // sc.w.rl x8, x6, (x5)
    (0x1a62a42f, 0, 0x8765_4321),
    // amoswap.w x8, x6, (x5)
    (0x0862a42f, 0x80ff_7f01, 0x8765_4321),
];

/// A register by its number.
fn register(rt: &impl Abort, number: u8) -> Reg {
    Reg::new(number).expect(rt, "a register")
}

/// A running hart that has reserved the word at the address in x5.
fn hart(rt: &impl Abort) -> HartView {
    let mut regs = Regs::zero();
    regs.set(register(rt, 5), ADDRESS);
    regs.set(register(rt, 6), 0x8765_4321);
    HartView {
        pc: PC,
        regs,
        reserved: Some(ADDRESS),
        status: HartStatus::Running,
    }
}

/// The line of the address in x5, of bytes 0xaa but for a word there.
fn line_with(word: u32) -> [u8; 64] {
    let mut bytes = [0xaa; 64];
    bytes[8..12].copy_from_slice(&word.to_le_bytes());
    bytes
}

/// A cache and the pool that lends it.
#[derive(Drop)]
struct Cache {
    pool: Pool,
    sets: Sets,
    ghost lent: { IsLent pool sets },
}

/// Fills a line where that may be. Tells the number of a line that left.
fn fill(cache: &mut Cache, address: u32, letter: Letter, bytes: &[u8; 64]) -> Option<u32> {
    let line = line_of(address);
    if letter == Letter::I || cache.sets.has(line) || !cache.sets.room(line) {
        return None;
    }
    let gone = cache.sets.fill(&mut cache.pool, line, letter, bytes)?;
    Some(gone.line.number)
}

/// A cache that has the line of the address in x5 with a letter, and another one that is more recent.
fn cache_with(alloc: Global, letter: Letter) -> Result<Cache, Fail> {
    let config = Config {
        sets: 1,
        ways: 2,
        ..Config::usual()
    };
    if config.check().is_err() {
        return Err("no such cache".into());
    }
    let mut cache = Cache {
        pool: Pool::make(alloc, &[2])?,
        sets: Sets::make(alloc, &config, 0)?,
    };
    fill(&mut cache, ADDRESS, letter, &line_with(MEMORY));
    fill(&mut cache, OTHER, Letter::S, &[0x55; 64]);
    Ok(cache)
}

/// The letter and the bytes of a line, if the cache has it.
fn copy(cache: &Cache, address: u32) -> (Letter, Option<[u8; 64]>) {
    let line = line_of(address);
    let sets = &cache.sets;
    if sets.has(line) {
        (sets.letter(line), Some(*sets.bytes(&cache.pool, line)))
    } else {
        (Letter::I, None)
    }
}

/// Runs one instruction over a cache.
fn step(cache: &mut Cache, view: &mut HartView, word: u32, span: Span, room: u32) -> Ended
    requires { view.old.status ≡ Running }
{
    let action = Action::at(Some(word), view, span, room);
    step_in_cache(&mut cache.pool, &mut cache.sets, view, action)
}

/// Runs one instruction of a running hart.
fn run(rt: &impl Abort, cache: &mut Cache, view: &mut HartView, word: u32) -> Ended {
    assert_eq!(rt; view.status, HartStatus::Running);
    step(cache, view, word, SPAN, ROOM)
}

/// The cache has the line of the address in x5 with this letter and these bytes, the other line is as it was, and
/// this line is the least recent one.
fn looks(rt: &impl Abort, cache: &mut Cache, letter: Letter, memory: u32, least: u32, word: u32) {
    let (bytes, gone) = match letter {
        Letter::I => (None, None),
        _ => (Some(line_with(memory)), Some(line_of(least).number)),
    };
    let copies = [copy(cache, ADDRESS), copy(cache, OTHER)];
    let other = (Letter::S, Some([0x55; 64]));
    same_at(
        rt,
        word,
        (copies, fill(cache, THIRD, Letter::E, &[0; 64])),
        ([(letter, bytes), other], gone),
    );
}

/// The hart after an instruction that put a value into x8.
fn moved(rt: &impl Abort, value: u32, reserved: Option<u32>) -> HartView {
    let mut left = hart(rt);
    left.regs.set(register(rt, 8), value);
    left.pc = PC + 4;
    left.reserved = reserved;
    left
}

/// A line that is not as an instruction needs it.
fn needs(need: Need) -> Ended {
    let line = line_of(ADDRESS);
    Ended::Needs { line, need }
}

#[test]
fn what_a_letter_permits_to_read_is_read(rt: HostRuntime) -> Result<(), Fail> {
    for (letter, reads, _) in LETTERS {
        for (word, value) in LOADS {
            let mut cache = cache_with(rt.alloc(), letter)?;
            let mut view = hart(&rt);
            let ended = run(&rt, &mut cache, &mut view, word);
            let wanted = if reads {
                (Ended::Ran, moved(&rt, value, Some(ADDRESS)))
            } else {
                (needs(Need::Read), hart(&rt))
            };
            same_at(&rt, (letter, word), (ended, view), wanted);
            // it is the more recent line now, where it is there
            looks(&rt, &mut cache, letter, MEMORY, OTHER, word);
        }
    }
    Ok(())
}

#[test]
fn what_a_letter_permits_to_write_is_modified(rt: HostRuntime) -> Result<(), Fail> {
    for (letter, _, writes) in LETTERS {
        for (word, value, memory) in WRITES {
            let mut cache = cache_with(rt.alloc(), letter)?;
            let mut view = hart(&rt);
            let ended = run(&rt, &mut cache, &mut view, word);
            let wanted = if writes {
                (Ended::Ran, moved(&rt, value, None))
            } else {
                (needs(Need::Write), hart(&rt))
            };
            same_at(&rt, (letter, word), (ended, view), wanted);
            if writes {
                looks(&rt, &mut cache, Letter::M, memory, OTHER, word);
            } else {
                looks(&rt, &mut cache, letter, MEMORY, ADDRESS, word);
            }
        }
    }
    Ok(())
}

#[test]
fn what_touches_nothing_leaves_the_cache(rt: HostRuntime) -> Result<(), Fail> {
    for (word, value, reserved, ended) in [
        // addi x8, x6, -5
        (0xffb3_0413, 0x8765_431c, Some(ADDRESS), Ended::Ran),
        // sc.w x8, x6, (x5) of a hart that has reserved another word
        (0x1862_a42f, 1, None, Ended::Ran),
        // ebreak
        (
            0x0010_0073,
            0,
            Some(ADDRESS + 4),
            Ended::Stops {
                status: HartStatus::Trapped { cause: 3, pc: PC },
            },
        ),
    ] {
        let mut cache = cache_with(rt.alloc(), Letter::E)?;
        let mut view = hart(&rt);
        if word != 0xffb3_0413 {
            view.reserved = Some(ADDRESS + 4);
        }
        let found = run(&rt, &mut cache, &mut view, word);
        same_at(
            &rt,
            word,
            (found, view.regs.get(register(&rt, 8)), view.reserved),
            (ended, value, reserved),
        );
        looks(&rt, &mut cache, Letter::E, MEMORY, ADDRESS, word);
    }
    Ok(())
}
