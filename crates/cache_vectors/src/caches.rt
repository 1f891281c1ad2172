//! The letters by the MOESI table, and caches of one set with two ways, worked by hand.

ghost use Rattle.cache_sets.specs.Slotted.{IsLent};

use crate::asserts::{same, same_at};
use bitflags::Flags;
use cache_sets::*;
use el_base::{Config, LineAddr, Need, line_of};
use line_pool::Pool;
use moesi::{on_read, on_write};
use std::alloc::Global;
use std::marker::Model;
use std::test::Fail;

/// A cache and the pool that its lines are in.
#[derive(Drop)]
struct Lent {
    pool: Pool,
    sets: Sets,
}

impl Model for Lent {
    ghost use Rattle.cache_sets.specs.Slotted.{IsLent, Slotted};

    ghost Value = { Slotted };

    ghost view = { λ lent. lent.sets };

    ghost invariant = { λ lent. IsLent lent.pool lent.sets };
}

fn line(number: u8) -> LineAddr {
    line_of(u32::from(number) * 64)
}

/// A cache of so many sets, each with two ways, that has all slots of a pool.
fn cache(alloc: Global, sets: u8) -> Result<Lent, Fail> {
    let config = Config {
        sets,
        ways: 2,
        ..Config::usual()
    };
    if config.check().is_err() {
        return Err("no such cache".into());
    }
    let sets = Sets::make(alloc, &config, 0)?;
    let pool = Pool::make(alloc, &[u16::from(config.sets) * 2])?;
    Ok(Lent { pool, sets })
}

impl Lent {
    /// Fills a line with bytes that are its number, where that may be. Tells the number, the letter and the
    /// first and last byte of a line that left.
    fn fill(&mut self, number: u8, letter: Letter) -> Option<(u32, Letter, u8, u8)> {
        let line = line(number);
        if letter == Letter::I || self.sets.has(line) || !self.sets.room(line) {
            return None;
        }
        let gone = self.sets.fill(&mut self.pool, line, letter, &[number; 64])?;
        Some((gone.line.number, gone.letter, gone.bytes[0], gone.bytes[63]))
    }

    /// Does one thing to a line, where the cache has it.
    fn touch(&mut self, number: u8) {
        let line = line(number);
        if self.sets.has(line) {
            self.sets.touch(line);
        }
    }

    fn set_bit(&mut self, number: u8, need: Need) {
        let line = line(number);
        if self.sets.has(line) {
            self.sets.set_bit(line, need);
        }
    }

    fn drop_line(&mut self, number: u8) {
        let line = line(number);
        if self.sets.has(line) {
            self.sets.drop_line(&mut self.pool, line);
        }
    }

    /// Another hart's request for a line is served: its letter changes, or it goes.
    fn meet(&mut self, number: u8, need: Need) {
        let line = line(number);
        let letter = match need {
            Need::Read => on_read(self.sets.letter(line)),
            Need::Write => on_write(self.sets.letter(line)),
        };
        if !self.sets.has(line) {
            return;
        }
        if letter == Letter::I {
            self.sets.drop_line(&mut self.pool, line);
        } else {
            self.sets.set_letter(line, letter);
        }
    }

    /// The section ends, and commits or not.
    fn end(&mut self, commits: bool) {
        if commits {
            self.sets.commit_bits();
        } else {
            self.sets.clear_bits();
        }
    }

    /// Writes a byte of a line, where the cache has it.
    fn write(&mut self, number: u8, at: u8, byte: u8) {
        let line = line(number);
        if self.sets.has(line) {
            let bytes = Sets::bytes_mut(&mut self.pool, &self.sets, line);
            bytes[usize::from(at % 64)] = byte;
        }
    }

    /// A byte of a line, if the cache has it.
    fn read(&self, number: u8, at: u8) -> Option<u8> {
        let line = line(number);
        if self.sets.has(line) {
            Some(self.sets.bytes(&self.pool, line)[usize::from(at % 64)])
        } else {
            None
        }
    }

    /// How many slots of the pool are out.
    fn out(&self) -> u16 {
        if self.pool.owners() == 0 {
            return 0;
        }
        self.pool.out(0)
    }
}

/// A letter, and what becomes of it: after another's read, after a commit of a line that was read, and of one that was
/// written.
const LETTERS: &[(Letter, Letter, Letter, Letter)] = &[
    (Letter::M, Letter::O, Letter::M, Letter::M),
    (Letter::O, Letter::O, Letter::O, Letter::M),
    (Letter::E, Letter::S, Letter::E, Letter::M),
    (Letter::S, Letter::S, Letter::S, Letter::M),
];

#[test]
fn each_letter_meets_each_request(rt: HostRuntime) -> Result<(), Fail> {
    for &(letter, after_read, _, _) in LETTERS {
        for (need, after) in [(Need::Read, after_read), (Need::Write, Letter::I)] {
            let mut cache = cache(rt.alloc(), 1)?;
            cache.fill(3, letter);
            cache.meet(3, need);
            same_at(
                &rt,
                (letter, need),
                (cache.sets.letter(line(3)), cache.out()),
                (after, u16::from(after != Letter::I)),
            );
        }
    }
    Ok(())
}

#[test]
fn each_letter_meets_each_commit(rt: HostRuntime) -> Result<(), Fail> {
    for &(letter, _, committed, written) in LETTERS {
        for (need, after) in [(Need::Read, committed), (Need::Write, written)] {
            let mut cache = cache(rt.alloc(), 1)?;
            cache.fill(3, letter);
            cache.set_bit(3, need);
            let marked = cache.sets.marked();
            cache.end(true);
            same_at(
                &rt,
                (letter, need),
                (marked, cache.sets.marked(), cache.sets.letter(line(3))),
                (true, false, after),
            );
        }
    }
    Ok(())
}

/// Lines that come into a set of two ways, each as modified, what is done to a line after it, and the line that it
/// makes leave, if it does.
struct Turn {
    comes: u8,
    leaves: Option<u32>,
    then: Then,
}

#[derive(Clone, Copy)]
enum Then {
    Nothing,
    Touch(u8),
    Mark(u8, Need),
    Drop(u8),
    Clear,
}

const TURNS: &[Turn] = &[
    Turn {
        comes: 5,
        leaves: None,
        then: Then::Nothing,
    },
    // most recent first: 5, 6 after the touch
    Turn {
        comes: 6,
        leaves: None,
        then: Then::Touch(5),
    },
    // 7, and 5 with a bit
    Turn {
        comes: 7,
        leaves: Some(6),
        then: Then::Mark(5, Need::Read),
    },
    // 8 and 5, of which both have bits
    Turn {
        comes: 8,
        leaves: Some(7),
        then: Then::Mark(8, Need::Write),
    },
    // there is no room for 9, and neither has a bit after it
    Turn {
        comes: 9,
        leaves: None,
        then: Then::Clear,
    },
    // 9 alone
    Turn {
        comes: 9,
        leaves: Some(5),
        then: Then::Drop(8),
    },
    // 10, 9
    Turn {
        comes: 10,
        leaves: None,
        then: Then::Nothing,
    },
    Turn {
        comes: 11,
        leaves: Some(9),
        then: Then::Nothing,
    },
];

impl Lent {
    fn does(&mut self, then: Then) {
        match then {
            Then::Nothing => (),
            Then::Touch(number) => self.touch(number),
            Then::Mark(number, need) => self.set_bit(number, need),
            Then::Drop(number) => self.drop_line(number),
            Then::Clear => self.end(false),
        }
    }
}

#[test]
fn the_last_line_without_bits_leaves(rt: HostRuntime) -> Result<(), Fail> {
    let mut cache = cache(rt.alloc(), 1)?;
    for turn in TURNS {
        let victim = cache.sets.victim(line(turn.comes)).map(|line| line.number);
        let gone = cache.fill(turn.comes, Letter::M).map(|gone| gone.0);
        same_at(&rt, turn.comes, (victim, gone), (turn.leaves, turn.leaves));
        cache.does(turn.then);
    }
    same(&rt, cache.out(), 2);
    Ok(())
}

#[test]
fn a_set_full_of_bits_has_no_room(rt: HostRuntime) -> Result<(), Fail> {
    let mut cache = cache(rt.alloc(), 1)?;
    cache.fill(5, Letter::E);
    cache.fill(8, Letter::M);
    cache.set_bit(5, Need::Read);
    let of_read = cache.sets.write_bits();
    cache.set_bit(8, Need::Write);
    same(&rt, (of_read, cache.sets.write_bits()), (0, 1));
    for (number, room, bits) in [
        (5, true, Bits::READ),
        (8, true, Bits::WRITE),
        (9, false, Bits::empty()),
    ] {
        let line = line(number);
        same_at(
            &rt,
            number,
            (cache.sets.room(line), cache.sets.bits(line)),
            (room, bits),
        );
    }
    let victim = cache.sets.victim(line(9));
    cache.end(false);
    same(&rt, (victim, cache.sets.room(line(9))), (None, true));
    Ok(())
}

#[test]
fn what_is_written_is_read_from_that_line_alone(rt: HostRuntime) -> Result<(), Fail> {
    let mut cache = cache(rt.alloc(), 2)?;
    // lines 2 and 4 are in one set, line 3 in the other
    for number in [2, 3, 4] {
        same(&rt, cache.fill(number, Letter::M), None);
    }
    cache.write(2, 0, 0x55);
    cache.write(2, 63, 0xaa);
    for (number, first, middle, last) in [(2, 0x55, 2, 0xaa), (3, 3, 3, 3), (4, 4, 4, 4)] {
        for (at, byte) in [(0, first), (31, middle), (63, last)] {
            same_at(&rt, (number, at), cache.read(number, at), Some(byte));
        }
    }
    let gone = cache.fill(6, Letter::E);
    same(
        &rt,
        (gone, cache.read(2, 0), cache.out()),
        (Some((2, Letter::M, 0x55, 0xaa)), None, 3),
    );
    Ok(())
}

/// Two caches of one line each, with slots of one pool.
#[derive(Drop)]
struct Pair {
    pool: Pool,
    first: Sets,
    second: Sets,
}

impl Model for Pair {
    ghost use Rattle.std.specs.Prelude.{◌≢◌};
    ghost use Rattle.cache_sets.specs.Slotted.{IsLent, Slotted};

    ghost Value = { Slotted };

    ghost view = { λ pair. pair.first };

    ghost invariant = { λ pair. IsLent pair.pool pair.first × IsLent pair.pool pair.second × (pair.first.owner ≢ pair.second.owner) };
}

impl Pair {
    /// Two caches without lines.
    fn make(alloc: Global) -> Result<Pair, Fail> {
        let config = Config {
            sets: 1,
            ways: 1,
            ..Config::usual()
        };
        if config.check().is_err() {
            return Err("no such cache".into());
        }
        let first = Sets::make(alloc, &config, 0)?;
        let second = Sets::make(alloc, &config, 1)?;
        let pool = Pool::make(alloc, &[1, 1])?;
        Ok(Pair {
            pool,
            first,
            second,
        })
    }

    /// Fills a line of the first cache, and of the second, with bytes that are all one. Tells the first byte of a line
    /// that left.
    fn fill_first(&mut self, number: u8, byte: u8) -> Option<u8> {
        let line = line(number);
        if self.first.has(line) || !self.first.room(line) {
            return None;
        }
        let gone = self
            .first
            .fill(&mut self.pool, line, Letter::E, &[byte; 64]);
        first_byte(gone)
    }

    fn fill_second(&mut self, number: u8, byte: u8) -> Option<u8> {
        let line = line(number);
        if self.second.has(line) || !self.second.room(line) {
            return None;
        }
        let gone = self
            .second
            .fill(&mut self.pool, line, Letter::E, &[byte; 64]);
        first_byte(gone)
    }
}

/// The first byte of a line that left, if one did.
fn first_byte(gone: Option<Evicted>) -> Option<u8> {
    Some(gone?.bytes[0])
}

#[test]
fn two_caches_have_a_slot_each(rt: HostRuntime) -> Result<(), Fail> {
    let mut pair = Pair::make(rt.alloc())?;
    let gone = [
        pair.fill_first(4, 0x11),
        pair.fill_second(4, 0x22),
        pair.fill_first(5, 0x33),
        pair.fill_second(6, 0x44),
        pair.fill_first(6, 0x55),
        pair.fill_second(7, 0x66),
    ];
    let wanted = [None, None, Some(0x11), Some(0x22), Some(0x33), Some(0x44)];
    same(&rt, gone, wanted);
    Ok(())
}
