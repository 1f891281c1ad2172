ghost use Rattle.std.specs.Prelude.{◌≡◌, ◌≢◌, ◌<◌, ◌%◌, ◌↔◌, ℕ, true, false, IfOk, IsNone, List, Some, is_some, length, option_map};
ghost use Rattle.el_base.specs.Config.{IsInRange};
ghost use Rattle.el_base.specs.declared.config.Config.{Config};
ghost use Rattle.line_pool.specs.Calls.{IsWritten};
ghost use Rattle.line_pool.specs.Lending.{LendsBytes};
ghost use Rattle.line_pool.specs.Others.{LeavesOthers};
ghost use Rattle.line_pool.specs.Pooled.{Pooled};
ghost use Rattle.line_pool.specs.Pooled as pools;
ghost use Rattle.moesi.specs.declared.letter.Letter.TheVariants.{I};
ghost use Rattle.cache_sets.specs.Bits.{bits_of};
ghost use Rattle.residency.specs.Cache.{evicted_by, has_marks, is_resident, letter_of, room_of, set_of, way_of, write_bits_of};
ghost use Rattle.cache_sets.specs.Cached.{bytes_of};
ghost use Rattle.cache_sets.specs.Calls.{IsCached, IsCleared, IsCommitted, IsFilledWith, IsLettered, IsMarked, IsTouched, IsWithout};
ghost use Rattle.cache_sets.specs.declared.line.Line as code;
ghost use Rattle.cache_sets.specs.Kept.{AreChanged, AreEmpty, IsGivenBack, IsVacated, MayVacate, cleared_way, committed_way, line_at, lines_of};
ghost use Rattle.cache_sets.specs.Kept.{set_at, slot_in_use};
ghost use Rattle.cache_sets.specs.Slotted.{IsLent, IsWrittenIn, empty_slotted, lent, slot_of};
ghost use Rattle.std.specs.Borrow.{sem};
ghost use Rattle.std.specs.Int.{IsPowerOfTwo};

use crate::bits::Bits;
use crate::evicted::Evicted;
use crate::line::Line;
use crate::set::Set;
use crate::way::Way;
use bitflags::Flags;
use el_base::{Config, LineAddr, Need, NoMemory};
use line_pool::{Pool, Slot};
use moesi::Letter;
use std::alloc::Global;
use std::marker::Model;

/// One hart's cache, whose lines have their bytes in slots of a pool. Contracts see it as `Slotted`: how many ways a
/// set has, the lines of each set, most recent first, the owner of its slots, and the slot of each line.
#[derive(Drop)]
pub struct Sets {
    sets: Vec<Set>,
    ways: u8,
    owner: u16,
    /// How many lines have a bit, and how many are written.
    marked: u16,
    written: u16,
}

impl Model for Sets {
    ghost use Rattle.cache_sets.specs.Slotted.{Slotted};

    ghost Value = { Slotted };

    ghost use Rattle.cache_sets.specs.Kept.{CacheStands, lines_of, shown_cache};

    ghost view = { λ s. shown_cache s.ways s.owner (lines_of s.sets.items) };

    ghost invariant = { λ s. CacheStands s.ways s.sets.items s.marked s.written };
}

impl Sets {
    /// A cache without lines, of a configuration's sets and ways, which takes its slots as this owner of a pool.
    pub fn make(alloc: Global, config: &Config, owner: u16) -> Result<Sets, NoMemory>
        requires { IsInRange config.now }
        ensures { IfOk result (λ cache. cache ≡ empty_slotted config.now.ways config.now.sets owner) }
    {
        let ways = config.ways;
        let sets = empty_sets(alloc, config.sets, ways)?;
        Ok(Sets {
            sets,
            ways,
            owner,
            marked: 0,
            written: 0,
        })
    }

    /// Whether the cache has a line.
    pub fn has(&self, line: LineAddr) -> bool
        ensures { result ≡ is_resident self.now.residency line.number }
    {
        set_of(self.sets.as_slice(), line).has(line)
    }

    /// What the cache knows of a line; it is I exactly where the cache has not the line.
    pub fn letter(&self, line: LineAddr) -> Letter
        ensures exact { result ≡ letter_of self.now.residency line.number }
        ensures absent_exactly { (result ≡ I) ↔ (is_resident self.now.residency line.number ≡ false) }
    {
        match find(self.sets.as_slice(), line) {
            Some(way) => way.letter,
            None => Letter::I,
        }
    }

    /// What the hart's section has done to a line: nothing to a line that the cache has not.
    pub fn bits(&self, line: LineAddr) -> Bits
        ensures { result ≡ bits_of (way_of self.now.residency line.number) }
    {
        match find(self.sets.as_slice(), line) {
            Some(way) => way.bits,
            None => Bits::empty(),
        }
    }

    /// Whether there is room for a line: it is there, its set has fewer lines than ways, or some line
    /// of its set has no bit.
    pub fn room(&self, line: LineAddr) -> bool
        ensures exact { result ≡ room_of self.now.ways self.now.residency line.number }
        ensures cached { (pool : Pooled) → IsCached (lent pool self.now) }
    {
        set_of(self.sets.as_slice(), line).has_room_for(self.ways, line)
    }

    /// The line that would leave if this one came: the least recent line without bits of its set, where the set has as
    /// many lines as ways; none where it has fewer, or where each of its lines has a bit.
    pub fn victim(&self, line: LineAddr) -> Option<LineAddr>
        ensures { option_map (λ gone. gone.number) result
            ≡ option_map (λ way. way.line) (evicted_by self.now.ways self.now.residency line.number) }
    {
        set_of(self.sets.as_slice(), line).victim(self.ways)
    }

    /// Whether some line has a bit.
    pub fn marked(&self) -> bool
        ensures { result ≡ has_marks self.now.residency }
    {
        self.marked > 0
    }

    /// How many lines the hart's section has written.
    pub fn write_bits(&self) -> u16
        ensures { result ≡ write_bits_of self.now.residency }
    {
        self.written
    }

    /// A line becomes the most recent one of its set.
    pub fn touch(&mut self, line: LineAddr)
        requires { is_resident self.old.residency line.number ≡ true }
        ensures touched { (pool : Pooled) → IsTouched (lent pool self.old) (lent pool self.new) line.number }
        ensures lent { (pool : Pooled) → IsLent pool self.old → IsLent pool self.new }
        ensures owner { self.new.owner ≡ self.old.owner }
    {
        let number = set_number(self.sets.as_slice(), line);
        let set = &mut self.sets[number];
        set.touch(line);
    }

    /// A line gets another letter.
    pub fn set_letter(&mut self, line: LineAddr, letter: Letter)
        requires resident { is_resident self.old.residency line.number ≡ true }
        requires valid { letter ≢ I }
        ensures lettered { (pool : Pooled) → IsLettered (lent pool self.old) (lent pool self.new) line.number letter }
        ensures lent { (pool : Pooled) → IsLent pool self.old → IsLent pool self.new }
        ensures owner { self.new.owner ≡ self.old.owner }
    {
        let number = set_number(self.sets.as_slice(), line);
        let set = &mut self.sets[number];
        set.set_letter(line, letter);
    }

    /// The hart's section has done to a line what it needed.
    pub fn set_bit(&mut self, line: LineAddr, need: Need)
        requires { is_resident self.old.residency line.number ≡ true }
        ensures marked { (pool : Pooled) → IsMarked (lent pool self.old) (lent pool self.new) line.number need }
        ensures lent { (pool : Pooled) → IsLent pool self.old → IsLent pool self.new }
        ensures owner { self.new.owner ≡ self.old.owner }
    {
        let before = self.bits(line);
        let number = set_number(self.sets.as_slice(), line);
        let set = &mut self.sets[number];
        set.set_bit(line, need);
        let after = before.with(need);
        self.marked = self.marked - before.marks() + after.marks();
        self.written = self.written - before.writes() + after.writes();
    }

    /// A line comes, with its bytes, as the most recent one of its set. Where the set has as many lines
    /// as ways, the least recent line without bits leaves, and is told with its bytes.
    pub fn fill(
        &mut self,
        pool: &mut Pool,
        line: LineAddr,
        letter: Letter,
        bytes: &[u8; 64],
    ) -> Option<Evicted>
        requires lent { IsLent pool.old self.old }
        requires room { room_of self.old.ways self.old.residency line.number ≡ true }
        requires absent { is_resident self.old.residency line.number ≡ false }
        requires valid { letter ≢ I }
        ensures filled { IsFilledWith (lent pool.old self.old) (lent pool.new self.new) line.number letter bytes.now result }
        ensures none_leaves { IsNone result ↔ (length (set_of self.old.residency line.number) < self.old.ways) }
        ensures lent { IsLent pool.new self.new }
        ensures others { LeavesOthers self.old.owner pool.old pool.new }
        ensures owner { self.new.owner ≡ self.old.owner }
    {
        let (ways, owner) = (self.ways, self.owner);
        let number = set_number(self.sets.as_slice(), line);
        let set = &mut self.sets[number];
        let gone = set.make_room(ways);
        let Vacancy { slot, evicted } = vacated(pool, owner, gone);
        write(pool, &slot, bytes);
        set.put_first(Line {
            way: Way::new(line, letter),
            slot,
        });
        evicted
    }

    /// A line leaves.
    pub fn drop_line(&mut self, pool: &mut Pool, line: LineAddr)
        requires lent { IsLent pool.old self.old }
        requires resident { is_resident self.old.residency line.number ≡ true }
        ensures without { IsWithout (lent pool.old self.old) (lent pool.new self.new) line.number }
        ensures lent { IsLent pool.new self.new }
        ensures others { LeavesOthers self.old.owner pool.old pool.new }
        ensures owner { self.new.owner ≡ self.old.owner }
    {
        let before = self.bits(line);
        let number = set_number(self.sets.as_slice(), line);
        let set = &mut self.sets[number];
        let gone = set.remove(line);
        give_back(pool, gone);
        self.marked -= before.marks();
        self.written -= before.writes();
    }

    /// No line has a bit any more.
    pub fn clear_bits(&mut self)
        ensures cleared { (pool : Pooled) → IsCleared (lent pool self.old) (lent pool self.new) }
        ensures lent { (pool : Pooled) → IsLent pool self.old → IsLent pool self.new }
        ensures owner { self.new.owner ≡ self.old.owner }
    {
        clear(self.sets.as_mut_slice());
        self.marked = 0;
        self.written = 0;
    }

    /// The hart's section committed: the lines that it wrote are modified, and no line has a bit any
    /// more.
    pub fn commit_bits(&mut self)
        ensures committed { (pool : Pooled) → IsCommitted (lent pool self.old) (lent pool self.new) }
        ensures lent { (pool : Pooled) → IsLent pool self.old → IsLent pool self.new }
        ensures owner { self.new.owner ≡ self.old.owner }
    {
        commit(self.sets.as_mut_slice());
        self.marked = 0;
        self.written = 0;
    }

    /// The bytes of a line that the cache has.
    pub fn bytes<'a>(&self, pool: &'a Pool, line: LineAddr) -> &'a [u8; 64]
        requires lent { IsLent pool.now self.now }
        requires resident { is_resident self.now.residency line.number ≡ true }
        ensures { result.now ≡ bytes_of (lent pool.now self.now) line.number }
    {
        pool.bytes(slot_in_use(self.sets.as_slice(), line))
    }

    /// The bytes of a line that a cache has, to be written. What is written becomes the line's bytes, and all else stays
    /// as it was. It is the pool that lends them.
    pub fn bytes_mut<'a>(pool: &'a mut Pool, cache: &Sets, line: LineAddr) -> &'a mut [u8; 64]
        requires lent { IsLent pool.old cache.now }
        requires resident { is_resident cache.now.residency line.number ≡ true }
        ensures* lends { sem 𝓛 (LendsBytes pool.entry (slot_of cache.now line.number) result) }
        ensures value { result.now ≡ bytes_of (lent pool.old cache.now) line.number }
        ensures written { (bytes : List ℕ) →
            IsWrittenIn pool.old (pools.with_bytes pool.old (slot_of cache.now line.number) bytes) cache.now line.number bytes }
    {
        let slot = slot_in_use(cache.sets.as_slice(), line);
        pool.bytes_mut(slot)
    }
}

/// Sets of so many ways without lines.
fn empty_sets(alloc: Global, count: u8, ways: u8) -> Result<Vec<Set>, NoMemory>
    ensures { IfOk result (λ sets. AreEmpty ways count sets.items) }
{
    let mut sets = Vec::with_capacity(alloc, count.into())?;
    for _ in 0..count {
        sets.push(Set::empty(alloc, ways)?)?;
    }
    Ok(sets)
}

/// The number of the set of a line: the last bits of the line's number.
///
/// A remainder would give the same by a division, and each event that looks into a cache asks for one.
fn set_number(sets: &[Set], line: LineAddr) -> usize
    requires { IsPowerOfTwo (length sets.now) }
    ensures exact { result ≡ line.number % length sets.now }
    ensures within { result < length sets.now }
{
    line.number as usize & (sets.len() - 1)
}

/// The set of a line.
fn set_of(sets: &[Set], line: LineAddr) -> &Set
    requires { IsPowerOfTwo (length sets.now) }
    ensures { result.now.lines.items ≡ set_at (lines_of sets.now) line.number }
{
    &sets[set_number(sets, line)]
}

/// The way of a line.
fn find(sets: &[Set], line: LineAddr) -> Option<Way>
    requires { IsPowerOfTwo (length sets.now) }
    ensures { result ≡ option_map (λ l. l.way) (line_at (lines_of sets.now) line.number) }
{
    set_of(sets, line).find(line)
}

/// The slot of a line that is there.
fn slot_in_use(sets: &[Set], line: LineAddr) -> &Slot
    requires binary { IsPowerOfTwo (length sets.now) }
    requires there { is_some (line_at (lines_of sets.now) line.number) ≡ true }
    ensures { result.now ≡ slot_in_use (lines_of sets.now) line.number }
{
    let set = set_of(sets, line);
    match set.place_of(line) {
        Some(place) => &set.lines[place].slot,
        None => unreachable!(),
    }
}

/// What a line that comes finds: a slot for its bytes, and what is told of the line that left for it, if one did.
struct Vacancy {
    slot: Slot,
    evicted: Option<Evicted>,
}

/// A slot for a line that comes: that of the line that left, whose bytes are told, else one that is taken.
fn vacated(pool: &mut Pool, owner: u16, gone: Option<Line>) -> Vacancy
    requires { MayVacate pool.old owner gone }
    ensures { IsVacated owner pool.old pool.new gone result.slot result.evicted }
{
    match gone {
        Some(line) => {
            let evicted = told(pool, &line);
            Vacancy {
                slot: line.slot,
                evicted: Some(evicted),
            }
        }
        None => match pool.take(owner) {
            Some(slot) => Vacancy {
                slot,
                evicted: None,
            },
            None => unreachable!(),
        },
    }
}

/// What is told of a line that left, and of its bytes.
fn told(pool: &Pool, line: &Line) -> Evicted
    requires { pools.is_out pool.now line.now.slot ≡ true }
    ensures line { result.line ≡ line.now.way.line }
    ensures letter { result.letter ≡ line.now.way.letter }
    ensures bytes { result.bytes ≡ pools.bytes_of pool.now line.now.slot }
{
    Evicted {
        line: line.way.line,
        letter: line.way.letter,
        bytes: *pool.bytes(&line.slot),
    }
}

/// Writes the bytes of a slot.
fn write(pool: &mut Pool, slot: &Slot, bytes: &[u8; 64])
    requires { pools.is_out pool.old slot.now ≡ true }
    ensures { IsWritten pool.old pool.new slot.now bytes.now }
{
    *pool.bytes_mut(slot) = *bytes;
}

/// Gives the slot of a line that left back, if one did.
fn give_back(pool: &mut Pool, gone: Option<Line>)
    requires { (line : code.Line) → gone ≡ Some line → pools.is_out pool.old line.slot ≡ true }
    ensures { IsGivenBack pool.old pool.new gone }
{
    if let Some(line) = gone {
        pool.give(line.slot);
    }
}

/// No line of any set has a bit any more.
fn clear(sets: &mut [Set])
    ensures { AreChanged cleared_way sets.old sets.new }
{
    for set in sets.iter_mut() {
        set.clear_bits();
    }
}

/// The written lines of all sets become modified, and none has a bit any more.
fn commit(sets: &mut [Set])
    ensures { AreChanged committed_way sets.old sets.new }
{
    for set in sets.iter_mut() {
        set.commit_bits();
    }
}
