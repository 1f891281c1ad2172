//! Two harts on the lines of a small image: letters, bytes and main memory after each request, worked by
//! hand from the table of the letters.

ghost use Rattle.std.specs.Prelude.{◌≡◌, ◌<◌, ℕ, List, IfOk, Some, length, slice_set, true};
ghost use Rattle.residency.specs.Cache.{letter_of};
ghost use Rattle.cache_sets.specs.Cached.{bytes_of};
ghost use Rattle.cache_sets.specs.Slotted.{lent};
ghost use Rattle.coherence.specs.GivenBack.{bytes_with};
ghost use Rattle.coherence.specs.Lent.{IsLentTo, slotted_at};
ghost use Rattle.coherence.specs.Served.{IsCoherent, TellsOf, caches_of, shown_copies};
ghost use Rattle.el_base.specs.Line.{line_number};
ghost use Rattle.moesi.specs.Letters.{may_write};

use crate::asserts::{same, same_at};
use cache_sets::{Letter, Sets};
use coherence::*;
use el_base::{Config, HartId, LineAddr, Mode, Need, line_of};
use elf_image::load;
use line_pool::Pool;
use std::alloc::Global;
use std::process::Abort;
use std::test::Fail;

/// An image of one segment of 256 bytes at 0x10000, of which the first 128 stand in the file: byte 84 of
/// the file, where the code begins, is at 0x10054.
const HEADER: [u8; 88] = [
    0x7f, 0x45, 0x4c, 0x46, 0x01, 0x01, 0x01, 0x00, 0x00, 0x00, 0x00, 0x00, 0x00, 0x00, 0x00, 0x00,
    0x02, 0x00, 0xf3, 0x00, 0x01, 0x00, 0x00, 0x00, 0x54, 0x00, 0x01, 0x00, 0x34, 0x00, 0x00, 0x00,
    0x00, 0x00, 0x00, 0x00, 0x00, 0x00, 0x00, 0x00, 0x34, 0x00, 0x20, 0x00, 0x01, 0x00, 0x00, 0x00,
    0x00, 0x00, 0x00, 0x00, 0x01, 0x00, 0x00, 0x00, 0x00, 0x00, 0x00, 0x00, 0x00, 0x00, 0x01, 0x00,
    0x00, 0x00, 0x01, 0x00, 0x58, 0x00, 0x00, 0x00, 0x00, 0x01, 0x00, 0x00, 0x05, 0x00, 0x00, 0x00,
    0x00, 0x10, 0x00, 0x00, 0x73, 0x00, 0x00, 0x00,
];

/// The number of the first line of its memory, 0x10000 divided by 64.
const FIRST: u32 = 1024;

const ZERO: HartId = HartId { number: 0 };

const ONE: HartId = HartId { number: 1 };

/// Main memory and the caches of two harts, and the pool that lends these.
#[derive(Drop)]
struct Memory {
    hierarchy: Hierarchy,
    pool: Pool,
    ghost lent: { IsLentTo pool (caches_of hierarchy) },
}

/// Main memory and the caches of two harts, each of one set with so many ways.
fn made(alloc: Global, ways: u8) -> Result<Memory, Fail>
    ensures { IfOk result (λ memory. IsCoherent (shown_copies memory.pool memory.hierarchy)) }
{
    let config = Config {
        harts: 2,
        mode: Mode::Plain,
        sets: 1,
        ways,
        ..Config::usual()
    };
    if config.check().is_err() {
        return Err("no such caches".into());
    }
    let image = load(alloc, &HEADER, config.harts).map_err(|_| "no image")?;
    if image.harts() != config.harts {
        return Err("an image for other harts".into());
    }
    let pool = Pool::make(alloc, &[ways.into(), ways.into()])?;
    let hierarchy = Hierarchy::make(alloc, &image, &config)?;
    Ok(Memory { hierarchy, pool })
}

/// Serves a request, where that may be.
fn serve(memory: &mut Memory, hart: HartId, line: LineAddr, need: Need) -> bool
    requires { IsCoherent (shown_copies memory.old.pool memory.old.hierarchy) }
    ensures { IsCoherent (shown_copies memory.new.pool memory.new.hierarchy) }
{
    let hierarchy = &mut memory.hierarchy;
    let served = usize::from(hart.number) < hierarchy.harts()
        && hierarchy.has_in_memory(line)
        && hierarchy.cache(hart).room(line);
    if served {
        hierarchy.serve(&mut memory.pool, hart, line, need);
    }
    served
}

/// Writes a byte of a line.
fn write(bytes: &mut [u8; 64], at: u8, byte: u8)
    requires { at < 64 }
    ensures written { bytes.new ≡ slice_set bytes.old at byte }
    ensures long { length bytes.old ≡ 64 }
{
    bytes[usize::from(at)] = byte;
}

/// Puts a byte into the copy of a line that the hart may write, as a store does: the line is touched and
/// modified.
fn put(memory: &mut Memory, hart: HartId, line: LineAddr, at: u8, byte: u8)
    requires hart_exists { hart.number < length (caches_of memory.old.hierarchy) }
    requires may { may_write
        (letter_of (slotted_at (caches_of memory.old.hierarchy) hart.number).residency line.number) ≡ true }
    requires within { at < 64 }
    ensures tells { (bytes : ℕ → List ℕ) → TellsOf (shown_copies memory.old.pool memory.old.hierarchy) bytes →
        TellsOf (shown_copies memory.new.pool memory.new.hierarchy)
        (bytes_with bytes line.number (slice_set (bytes line.number) at byte)) }
    ensures place { (memory.new.hierarchy.first ≡ memory.old.hierarchy.first)
        × (memory.new.hierarchy.lines ≡ memory.old.hierarchy.lines) }
    ensures long { length (bytes_of
        (lent memory.old.pool (slotted_at (caches_of memory.old.hierarchy) hart.number)) line.number) ≡ 64 }
{
    let cache = memory.hierarchy.cache_mut(hart);
    cache.touch(line);
    cache.set_letter(line, Letter::M);
    write(Sets::bytes_mut(&mut memory.pool, cache, line), at, byte);
}

/// Stores a byte at an address of a line that the hart may write, and tells which byte is there then.
fn store(memory: &mut Memory, hart: HartId, address: u32, byte: u8) -> Option<u8>
    requires hart_exists { hart.number < length (caches_of memory.old.hierarchy) }
    requires may { may_write
        (letter_of (slotted_at (caches_of memory.old.hierarchy) hart.number).residency (line_number address)) ≡ true }
    requires coherent { IsCoherent (shown_copies memory.old.pool memory.old.hierarchy) }
    ensures there { result ≡ Some byte }
    ensures coherent { IsCoherent (shown_copies memory.new.pool memory.new.hierarchy) }
{
    put(memory, hart, line_of(address), (address % 64) as u8, byte);
    memory.hierarchy.byte(&memory.pool, address)
}

/// Stores a byte, where the hart may write the line, and tells which byte is there then.
fn try_store(memory: &mut Memory, hart: HartId, address: u32, byte: u8) -> Option<u8>
    requires { IsCoherent (shown_copies memory.old.pool memory.old.hierarchy) }
    ensures { IsCoherent (shown_copies memory.new.pool memory.new.hierarchy) }
{
    if usize::from(hart.number) >= memory.hierarchy.harts() {
        return None;
    }
    match memory.hierarchy.cache(hart).letter(line_of(address)) {
        Letter::M | Letter::E => store(memory, hart, address, byte),
        Letter::O | Letter::S | Letter::I => None,
    }
}

/// The byte at an address.
fn byte(memory: &Memory, address: u32) -> Option<u8>
    requires { IsCoherent (shown_copies memory.now.pool memory.now.hierarchy) }
{
    memory.hierarchy.byte(&memory.pool, address)
}

/// Sets a bit of a line, where the hart's cache has it.
fn mark(memory: &mut Memory, hart: HartId, line: LineAddr, need: Need) -> bool
    requires { IsCoherent (shown_copies memory.old.pool memory.old.hierarchy) }
    ensures { IsCoherent (shown_copies memory.new.pool memory.new.hierarchy) }
{
    let hierarchy = &mut memory.hierarchy;
    let marked = usize::from(hart.number) < hierarchy.harts() && hierarchy.cache(hart).has(line);
    if marked {
        hierarchy.mark(hart, line, need);
    }
    marked
}

/// Clears a hart's bits, where there is such a hart.
fn clear(memory: &mut Memory, hart: HartId)
    requires { IsCoherent (shown_copies memory.old.pool memory.old.hierarchy) }
    ensures { IsCoherent (shown_copies memory.new.pool memory.new.hierarchy) }
{
    if usize::from(hart.number) < memory.hierarchy.harts() {
        memory.hierarchy.clear(hart);
    }
}

/// Whether some line of a hart's cache has a bit, and how many are written.
fn marks(memory: &Memory, hart: HartId) -> (bool, u16) {
    if usize::from(hart.number) < memory.hierarchy.harts() {
        let cache = memory.hierarchy.cache(hart);
        (cache.marked(), cache.write_bits())
    } else {
        (false, 0)
    }
}

/// Whether a hart's cache has room for a line.
fn room(memory: &Memory, hart: HartId, line: LineAddr) -> bool {
    usize::from(hart.number) < memory.hierarchy.harts() && memory.hierarchy.cache(hart).room(line)
}

/// The byte at an address in main memory.
fn main_byte(memory: &Memory, address: u32) -> Option<u8> {
    memory
        .hierarchy
        .has_in_memory(line_of(address))
        .then(|| memory.hierarchy.main_byte(address))
}

/// What a hart knows of a line.
fn letter(memory: &Memory, hart: HartId, line: LineAddr) -> Letter {
    if usize::from(hart.number) < memory.hierarchy.harts() {
        memory.hierarchy.cache(hart).letter(line)
    } else {
        Letter::I
    }
}

/// What both harts know of a line.
fn letters(memory: &Memory, line: LineAddr) -> (Letter, Letter) {
    (letter(memory, ZERO, line), letter(memory, ONE, line))
}

/// The request is served.
fn serves(rt: &impl Abort, memory: &mut Memory, hart: HartId, line: LineAddr, need: Need)
    requires { IsCoherent (shown_copies memory.old.pool memory.old.hierarchy) }
    ensures { IsCoherent (shown_copies memory.new.pool memory.new.hierarchy) }
{
    let served = serve(memory, hart, line, need);
    assert!(rt; served, "{hart:?} {line:?} {need:?}");
}

/// A store of 0x11 by hart 0 is answered so.
fn stores(rt: &impl Abort, memory: &mut Memory, address: u32, answer: Option<u8>)
    requires { IsCoherent (shown_copies memory.old.pool memory.old.hierarchy) }
    ensures { IsCoherent (shown_copies memory.new.pool memory.new.hierarchy) }
{
    let stored = try_store(memory, ZERO, address, 0x11);
    same_at(rt, address, stored, answer);
}

/// A bit of a line is set, or it is not, as this says.
fn marks_line(
    rt: &impl Abort,
    memory: &mut Memory,
    hart: HartId,
    line: LineAddr,
    need: Need,
    sets: bool,
)
    requires { IsCoherent (shown_copies memory.old.pool memory.old.hierarchy) }
    ensures { IsCoherent (shown_copies memory.new.pool memory.new.hierarchy) }
{
    let marked = mark(memory, hart, line, need);
    same_at(rt, (hart, line, need), marked, sets);
}

#[test]
fn letters_follow_requests_of_two_harts(rt: HostRuntime) -> Result<(), Fail> {
    let line = line_of(FIRST * 64);
    let mut memory = made(rt.alloc(), 2)?;
    // who asks for it, for what, and the letters of both harts then
    for (hart, need, wanted) in [
        (ZERO, Need::Read, (Letter::E, Letter::I)),
        (ONE, Need::Read, (Letter::S, Letter::S)),
        (ZERO, Need::Write, (Letter::M, Letter::I)),
        (ZERO, Need::Read, (Letter::M, Letter::I)),
        (ONE, Need::Read, (Letter::O, Letter::S)),
        (ONE, Need::Write, (Letter::I, Letter::M)),
        (ZERO, Need::Write, (Letter::M, Letter::I)),
    ] {
        serves(&rt, &mut memory, hart, line, need);
        let seen = (letters(&memory, line), byte(&memory, FIRST * 64));
        same_at(&rt, (hart, need), seen, (wanted, Some(0x7f)));
    }
    Ok(())
}

/// Addresses and the bytes there: in the first line, at the code, behind memory with two stacks, and before memory.
const BYTES: &[(u32, Option<u8>)] = &[
    (FIRST * 64 + 1, Some(0x45)),
    (0x10054, Some(0x73)),
    (0x10000 + 256 + 2 * 65536, None),
    (0xffff, None),
];

#[test]
fn a_line_leaves_for_another(rt: HostRuntime) -> Result<(), Fail> {
    let mut memory = made(rt.alloc(), 1)?;
    let here = line_of(FIRST * 64);
    let next = line_of(FIRST * 64 + 64);
    serves(&rt, &mut memory, ZERO, here, Need::Write);
    serves(&rt, &mut memory, ONE, next, Need::Read);
    // the only way of hart 0 is for the other line then, which both harts have
    serves(&rt, &mut memory, ZERO, next, Need::Read);
    let seen = (letter(&memory, ZERO, here), letters(&memory, next));
    same(&rt, seen, (Letter::I, (Letter::S, Letter::S)));
    for &(address, wanted) in BYTES {
        same_at(&rt, address, byte(&memory, address), wanted);
    }
    Ok(())
}

/// What hart 0 knows of the line of an address; the bytes there, before it and behind it; and what main memory has there
/// and behind it.
fn look(memory: &Memory, address: u32) -> (Letter, [Option<u8>; 3], [Option<u8>; 2])
    requires { IsCoherent (shown_copies memory.now.pool memory.now.hierarchy) }
{
    let before = address.saturating_sub(1);
    let behind = address.saturating_add(1);
    (
        letter(memory, ZERO, line_of(address)),
        [
            byte(memory, address),
            byte(memory, before),
            byte(memory, behind),
        ],
        [main_byte(memory, address), main_byte(memory, behind)],
    )
}

#[test]
fn a_store_reaches_main_memory_as_its_line_leaves(rt: HostRuntime) -> Result<(), Fail> {
    let mut memory = made(rt.alloc(), 1)?;
    let address = FIRST * 64 + 1;
    let here = line_of(address);
    let next = line_of(FIRST * 64 + 64);
    let (old, new, before, behind) = (Some(0x45), Some(0x11), Some(0x7f), Some(0x4c));
    // not before the line is there, nor to a copy that others have too
    stores(&rt, &mut memory, address, None);
    serves(&rt, &mut memory, ZERO, here, Need::Read);
    serves(&rt, &mut memory, ONE, here, Need::Read);
    stores(&rt, &mut memory, address, None);
    let shared = look(&memory, address);
    // the only copy is written and modified, and main memory is behind it
    serves(&rt, &mut memory, ONE, next, Need::Read);
    serves(&rt, &mut memory, ONE, here, Need::Write);
    serves(&rt, &mut memory, ONE, next, Need::Read);
    serves(&rt, &mut memory, ZERO, here, Need::Read);
    let alone = look(&memory, address);
    stores(&rt, &mut memory, address, new);
    let written = look(&memory, address);
    // the only way of hart 0 is for the other line then
    serves(&rt, &mut memory, ZERO, next, Need::Read);
    let (unwritten, in_memory) = ([old, before, behind], [old, behind]);
    same(
        &rt,
        [shared, alone, written, look(&memory, address)],
        [
            (Letter::S, unwritten, in_memory),
            (Letter::E, unwritten, in_memory),
            (Letter::M, [new, before, behind], in_memory),
            (Letter::I, [new, before, behind], [new, behind]),
        ],
    );
    Ok(())
}

#[test]
fn bits_are_set_and_cleared_in_one_cache(rt: HostRuntime) -> Result<(), Fail> {
    let mut memory = made(rt.alloc(), 1)?;
    let here = line_of(FIRST * 64);
    let next = line_of(FIRST * 64 + 64);
    marks_line(&rt, &mut memory, ZERO, here, Need::Read, false);
    serves(&rt, &mut memory, ZERO, here, Need::Read);
    serves(&rt, &mut memory, ONE, here, Need::Read);
    marks_line(&rt, &mut memory, ZERO, here, Need::Read, true);
    marks_line(&rt, &mut memory, ONE, here, Need::Write, true);
    let read = (marks(&memory, ZERO), marks(&memory, ONE));
    marks_line(&rt, &mut memory, ZERO, here, Need::Write, true);
    let written = marks(&memory, ZERO);
    // a line with a bit does not leave for another
    let rooms = (room(&memory, ZERO, here), room(&memory, ZERO, next));
    clear(&mut memory, ZERO);
    same(
        &rt,
        (read, written, rooms),
        (((true, 0), (true, 1)), (true, 1), (true, false)),
    );
    same(
        &rt,
        (
            room(&memory, ZERO, next),
            marks(&memory, ZERO),
            marks(&memory, ONE),
        ),
        (true, (false, 0), (true, 1)),
    );
    same(
        &rt,
        (letters(&memory, here), byte(&memory, FIRST * 64)),
        ((Letter::S, Letter::S), Some(0x7f)),
    );
    Ok(())
}
