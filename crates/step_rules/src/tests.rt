//! What each instruction is to the rules, and each row of the three tables of rules once. Expected values are those of
//! the tables, worked by hand. The harts' caches have one set of two ways.

ghost use Rattle.std.specs.Prelude.{◌≡◌, ◌<◌, length};
ghost use Rattle.cache_sets.specs.Slotted.{IsLent};
ghost use Rattle.coherence.specs.Lent.{slotted_at};
ghost use Rattle.line_pool.specs.Pooled.{Pooled};
ghost use Rattle.snoop.specs.Shows.{bus_state};

mod actions;
mod rules;

use cache_sets::Sets;
use el_base::{Config, HartId, Mode, Need, line_of};
use elf_image::load;
use line_pool::Pool;
use moesi::Letter;
use rv_alu::Action;
use rv_word::{AmoOp, LoadWidth, Reg};
use snoop::Bus;
use std::alloc::Global;
use std::test::Fail;

/// An image of one segment of 256 bytes at 0x10000, of which the first 128 stand in the file: byte 84 of
/// the file, where the code begins, is at 0x10054.
const HEADER: [u8; 88] = [
    0x7f, 0x45, 0x4c, 0x46, 0x01, 0x01, 0x01, 0x00, 0x00, 0x00, 0x00, 0x00, 0x00, 0x00, 0x00, 0x00,
    0x02, 0x00, 0xf3, 0x00, 0x01, 0x00, 0x00, 0x00, 0x54, 0x00, 0x01, 0x00, 0x34, 0x00, 0x00, 0x00,
    0x00, 0x00, 0x00, 0x00, 0x00, 0x00, 0x00, 0x00, 0x34, 0x00, 0x20, 0x00, 0x01, 0x00, 0x00, 0x00,
    0x00, 0x00, 0x00, 0x00, 0x01, 0x00, 0x00, 0x00, 0x00, 0x00, 0x00, 0x00, 0x00, 0x00, 0x01, 0x00,
    0x00, 0x00, 0x01, 0x00, 0x58, 0x00, 0x00, 0x00, 0x00, 0x01, 0x00, 0x00, 0x05, 0x00, 0x00, 0x00,
    0x00, 0x10, 0x00, 0x00, 0x73, 0x00, 0x00, 0x00,
];

/// The lock word, on the second line of memory.
const WORD: u32 = 0x10040;

const X5: Reg = Reg { number: 5 };

/// The hart whose rules are asked for.
const HART: HartId = HartId { number: 0 };

/// A swap that stores this at an address.
fn swap(address: u32, new: u32) -> Action {
    Action::Amo {
        op: AmoOp::Swap,
        rd: X5,
        address,
        source: new,
    }
}

/// A store of a word.
fn store(address: u32, value: u32) -> Action {
    Action::Store {
        address,
        len: 4,
        value,
    }
}

/// A store conditional that stores this at an address.
fn store_conditional(address: u32, value: u32) -> Action {
    Action::StoreConditional {
        rd: X5,
        address,
        value,
    }
}

/// An LR of the word at an address.
fn load_reserved(address: u32) -> Action {
    Action::LoadReserved { rd: X5, address }
}

/// A load of a word.
fn load_word(address: u32) -> Action {
    Action::Load {
        width: LoadWidth::Word,
        rd: X5,
        address,
    }
}

/// A line of a cache, by an address in it, with its letter and what the hart's section has done to it. Its first byte
/// is 5, and the others are 0.
#[derive(Clone, Copy)]
struct Line {
    address: u32,
    letter: Letter,
    bit: Option<Need>,
}

/// Two harts that may write one line in a section.
fn config() -> Config
    ensures { (result.harts ≡ 2) × (result.sets ≡ 1) × (result.ways ≡ 2) }
{
    Config {
        harts: 2,
        mode: Mode::Sle,
        sets: 1,
        ways: 2,
        lines: 1,
        long: 10,
        ..Config::usual()
    }
}

/// The bus of two harts, and the pool that lends the first one's cache.
#[derive(Drop)]
struct Harts {
    pool: Pool,
    bus: Bus,
    ghost there: { 0 < length (bus_state bus).copies.caches },
    ghost lent: { IsLent pool (slotted_at (bus_state bus).copies.caches 0) },
}

/// Two harts, of which the first has these lines in its cache.
fn two_harts(alloc: Global, lines: &[Line]) -> Result<Harts, Fail> {
    let Harts { mut pool, mut bus } = empty_harts(alloc)?;
    fill(&mut pool, bus.sets_mut(HART), lines)?;
    Ok(Harts { pool, bus })
}

/// Two harts without lines.
fn empty_harts(alloc: Global) -> Result<Harts, Fail> {
    let config = config();
    if config.check().is_err() {
        return Err("no such bus".into());
    }
    let image = load(alloc, &HEADER, config.harts).map_err(|_| "no image")?;
    if image.harts() != config.harts {
        return Err("an image for other harts".into());
    }
    let bus = Bus::make(alloc, &image, &config)?;
    if bus.harts() != 2 {
        return Err("harts that are not there".into());
    }
    let pool = Pool::make(alloc, &[2, 2])?;
    Ok(Harts { pool, bus })
}

/// A cache, and the pool that lends it.
#[derive(Drop)]
struct Cache {
    pool: Pool,
    sets: Sets,
    ghost lent: { IsLent pool sets },
}

/// A cache that has these lines.
fn cache_of(alloc: Global, lines: &[Line]) -> Result<Cache, Fail> {
    let config = config();
    if config.check().is_err() {
        return Err("no such cache".into());
    }
    let mut sets = Sets::make(alloc, &config, 0)?;
    let mut pool = Pool::make(alloc, &[2])?;
    fill(&mut pool, &mut sets, lines)?;
    Ok(Cache { pool, sets })
}

/// Puts lines into a cache.
fn fill(pool: &mut Pool, sets: &mut Sets, lines: &[Line]) -> Result<(), Fail>
    requires { IsLent pool.old sets.old }
    ensures { IsLent pool.new sets.new }
{
    for line in lines {
        put(pool, sets, line)?;
    }
    Ok(())
}

/// Puts one line into a cache that has it not.
fn put(pool: &mut Pool, sets: &mut Sets, line: &Line) -> Result<(), Fail>
    requires { IsLent pool.old sets.old }
    ensures { IsLent pool.new sets.new }
{
    let place = line_of(line.address);
    if line.letter == Letter::I || sets.has(place) || !sets.room(place) {
        return Err("a line that cannot come".into());
    }
    let mut bytes = [0; 64];
    bytes[0] = 5;
    sets.fill(pool, place, line.letter, &bytes);
    mark(sets, line)
}

/// The hart's section has done to a line what it says.
fn mark(sets: &mut Sets, line: &Line) -> Result<(), Fail>
    ensures { (pool : Pooled) → IsLent pool sets.old → IsLent pool sets.new }
{
    let place = line_of(line.address);
    if !sets.has(place) {
        return Err("a line that is not there".into());
    }
    if let Some(need) = line.bit {
        sets.set_bit(place, need);
    }
    Ok(())
}
