//! A few holds, worked by hand. The lines under them have at each place the number of the place.

use crate::asserts::{same, same_at};
use el_base::{Config, line_of};
use line_pool::Pool;
use std::alloc::Global;
use std::marker::Model;
use std::process::Abort;
use std::test::Fail;
use write_hold::*;

/// A hold and the pool that its lines are in.
#[derive(Drop)]
struct Lent {
    pool: Pool,
    hold: Hold,
}

impl Model for Lent {
    ghost use Rattle.write_hold.specs.Slotted.{IsLent, Slotted};

    ghost Value = { Slotted };

    ghost view = { λ lent. lent.hold };

    ghost invariant = { λ lent. IsLent lent.pool lent.hold };
}

/// What comes of bytes that are put into a line.
#[derive(Clone, Copy, Debug, PartialEq, Eq)]
enum Put {
    Held,
    /// One line more than those that are held, so many, is too many.
    TooMany(u8),
    /// There are no such bytes in a line.
    NoPlace,
}

fn line(number: u8) -> LineAddr {
    line_of(u32::from(number) * 64)
}

/// A hold of at most so many lines, which has all slots of a pool.
fn hold(alloc: Global, lines: u8) -> Result<Lent, Fail> {
    let config = Config {
        lines,
        ..Config::usual()
    };
    let hold = Hold::make(alloc, &config, 0)?;
    let pool = Pool::make(alloc, &[u16::from(lines)])?;
    Ok(Lent { pool, hold })
}

impl Lent {
    /// Puts bytes into a line.
    fn put(&mut self, number: u8, offset: u8, bytes: &[u8]) -> Put {
        if bytes.is_empty() || bytes.len() > 64 || usize::from(offset) + bytes.len() > 64 {
            return Put::NoPlace;
        }
        match self.hold.put(&mut self.pool, line(number), offset, bytes) {
            Ok(()) => Put::Held,
            Err(lines) => Put::TooMany(lines.have),
        }
    }

    /// The word at a place of a line, over the line under it.
    fn read(&self, number: u8, offset: u8) -> u32 {
        self.hold
            .read_over(&self.pool, line(number), &under(), offset % 61)
    }

    /// Drains a line, if it is held, over the line under it.
    fn drained(&mut self, number: u8) -> Option<[u8; 64]> {
        let line = line(number);
        if !self.hold.has(line) {
            return None;
        }
        let mut target = under();
        self.hold.drain_into(&mut self.pool, line, &mut target);
        Some(target)
    }

    fn forget(&mut self) {
        self.hold.forget(&mut self.pool);
    }

    /// How many slots of the pool are out.
    fn out(&self) -> u16 {
        if self.pool.owners() == 0 {
            return 0;
        }
        self.pool.out(0)
    }
}

/// The line under a hold: at each place the number of the place.
fn under() -> [u8; 64] {
    let mut bytes = [0; 64];
    for place in 0..64 {
        bytes[place as usize] = place;
    }
    bytes
}

/// A line's number, a place in it, and the word there.
type Word = (u8, u8, u32);

/// The bytes are put into a line, or there is too little room, as this says.
fn puts(rt: &impl Abort, hold: &mut Lent, number: u8, offset: u8, bytes: &[u8], answer: Put) {
    let put = hold.put(number, offset, bytes);
    same_at(rt, (number, offset), put, answer);
}

/// These words are read.
fn reads(rt: &impl Abort, hold: &Lent, words: &[Word]) {
    for &(number, offset, word) in words {
        same_at(rt, (number, offset), hold.read(number, offset), word);
    }
}

/// So many lines are held, of which this is the first.
fn holds(rt: &impl Abort, hold: &Lent, len: usize, first: Option<u8>) {
    let wanted = match first {
        Some(number) => Some(line(number)),
        None => None,
    };
    same(rt, (hold.hold.len(), hold.hold.first()), (len, wanted));
}

/// A line is drained, or it is not held, as this says.
fn drains(rt: &impl Abort, hold: &mut Lent, number: u8, is_held: bool) {
    let drained = hold.drained(number).is_some();
    same_at(rt, number, drained, is_held);
}

/// Words over bytes 4 and 5 of line 3.
const OVER_TWO_BYTES: &[Word] = &[
    (3, 0, 0x0302_0100),
    (3, 2, 0xbbaa_0302),
    (3, 3, 0x06bb_aa03),
    (3, 4, 0x0706_bbaa),
    (3, 5, 0x0807_06bb),
    (3, 6, 0x0908_0706),
    (2, 4, 0x0706_0504),
];

#[test]
fn a_word_takes_each_byte_from_the_hold_or_from_under_it(rt: HostRuntime) -> Result<(), Fail> {
    let mut hold = hold(rt.alloc(), 4)?;
    puts(&rt, &mut hold, 3, 4, &[0xaa, 0xbb], Put::Held);
    reads(&rt, &hold, OVER_TWO_BYTES);
    Ok(())
}

/// Words over the first four bytes of a line and its last two, and over all of it.
const AT_THE_ENDS: &[Word] = &[
    (0, 0, 0xa3a2_a1a0),
    (0, 1, 0x04a3_a2a1),
    (0, 59, 0xb03d_3c3b),
    (0, 60, 0xb1b0_3d3c),
];

const OVER_ALL: &[Word] = &[
    (0, 0, 0xcccc_cccc),
    (0, 31, 0xcccc_cccc),
    (0, 60, 0xcccc_cccc),
];

#[test]
fn the_first_bytes_the_last_and_all_of_a_line(rt: HostRuntime) -> Result<(), Fail> {
    let mut hold = hold(rt.alloc(), 4)?;
    puts(&rt, &mut hold, 0, 0, &[0xa0, 0xa1, 0xa2, 0xa3], Put::Held);
    puts(&rt, &mut hold, 0, 62, &[0xb0, 0xb1], Put::Held);
    reads(&rt, &hold, AT_THE_ENDS);
    puts(&rt, &mut hold, 0, 0, &[0xcc; 64], Put::Held);
    reads(&rt, &hold, OVER_ALL);
    holds(&rt, &hold, 1, Some(0));
    Ok(())
}

/// Three stores to a line, each a place, how many bytes of 0x11 0x22 0x33 0x44, and the word at place 16 after it.
const STORES: &[&[(u8, usize, u32)]] = &[
    &[
        (16, 4, 0x4433_2211),
        (18, 2, 0x2211_2211),
        (18, 1, 0x2211_2211),
    ],
    &[
        (18, 1, 0x1311_1110),
        (18, 2, 0x2211_1110),
        (16, 4, 0x4433_2211),
    ],
    &[
        (17, 2, 0x1322_1110),
        (16, 4, 0x4433_2211),
        (19, 1, 0x1133_2211),
    ],
    &[
        (16, 4, 0x4433_2211),
        (16, 4, 0x4433_2211),
        (17, 1, 0x4433_1111),
    ],
];

#[test]
fn the_last_store_to_a_byte_is_the_one_that_is_held(rt: HostRuntime) -> Result<(), Fail> {
    for &stores in STORES {
        let mut hold = hold(rt.alloc(), 1)?;
        for &(offset, len, word) in stores {
            let bytes = &[0x11, 0x22, 0x33, 0x44][..len.min(4)];
            puts(&rt, &mut hold, 7, offset, bytes, Put::Held);
            reads(&rt, &hold, &[(7, 16, word)]);
        }
        holds(&rt, &hold, 1, Some(7));
    }
    Ok(())
}

#[test]
fn the_same_word_twice(rt: HostRuntime) -> Result<(), Fail> {
    let mut hold = hold(rt.alloc(), 1)?;
    puts(&rt, &mut hold, 9, 8, &[1, 2, 3, 4], Put::Held);
    puts(&rt, &mut hold, 9, 8, &[5, 6, 7, 8], Put::Held);
    reads(&rt, &hold, &[(9, 8, 0x0807_0605), (9, 12, 0x0f0e_0d0c)]);
    holds(&rt, &hold, 1, Some(9));
    Ok(())
}

/// Lines into which a byte is put, what comes of it, and how many are held then.
const AT_THE_LIMIT: &[(u8, Put, usize)] = &[
    (1, Put::Held, 1),
    (2, Put::Held, 2),
    (3, Put::TooMany(2), 2),
    (1, Put::Held, 2),
    (2, Put::Held, 2),
    (3, Put::TooMany(2), 2),
];

#[test]
fn a_new_line_is_refused_at_the_limit_and_an_old_one_is_not(rt: HostRuntime) -> Result<(), Fail> {
    let mut hold = hold(rt.alloc(), 2)?;
    for &(number, put, held) in AT_THE_LIMIT {
        let answer = hold.put(number, number, &[0xff]);
        same_at(&rt, number, (answer, hold.hold.len()), (put, held));
    }
    assert!(rt; !hold.hold.has(line(3)));
    reads(&rt, &hold, &[(3, 3, 0x0605_0403)]);
    drains(&rt, &mut hold, 1, true);
    puts(&rt, &mut hold, 3, 3, &[0xff], Put::Held);
    reads(&rt, &hold, &[(3, 3, 0x0605_04ff)]);
    Ok(())
}

/// The bytes of a line at some places, if it is there.
fn at_places(line: Option<[u8; 64]>) -> Option<[u8; 6]> {
    let bytes = line?;
    Some([
        bytes[0], bytes[1], bytes[31], bytes[61], bytes[62], bytes[63],
    ])
}

#[test]
fn a_drain_merges_one_line_and_removes_it(rt: HostRuntime) -> Result<(), Fail> {
    let mut hold = hold(rt.alloc(), 3)?;
    for (number, offset, byte) in [(5, 0, 0x70), (5, 62, 0x90), (6, 1, 0x10), (5, 63, 0x80)] {
        puts(&rt, &mut hold, number, offset, &[byte], Put::Held);
    }
    let drained = at_places(hold.drained(5));
    same(&rt, drained, Some([0x70, 1, 31, 61, 0x90, 0x80]));
    assert!(rt; !hold.hold.has(line(5)));
    drains(&rt, &mut hold, 5, false);
    reads(&rt, &hold, &[(5, 60, 0x3f3e_3d3c), (6, 0, 0x0302_1000)]);
    holds(&rt, &hold, 1, Some(6));
    drains(&rt, &mut hold, 6, true);
    holds(&rt, &hold, 0, None);
    Ok(())
}

#[test]
fn a_hold_forgets_all_that_it_holds_and_goes_on(rt: HostRuntime) -> Result<(), Fail> {
    let mut hold = hold(rt.alloc(), 2)?;
    holds(&rt, &hold, 0, None);
    for number in [1, 2] {
        puts(&rt, &mut hold, number, 0, &[0xff; 4], Put::Held);
    }
    let has_first = hold.hold.first().is_some();
    hold.forget();
    holds(&rt, &hold, 0, None);
    let (has_one, has_two) = (hold.hold.has(line(1)), hold.hold.has(line(2)));
    same(&rt, (has_first, has_one, has_two), (true, false, false));
    reads(&rt, &hold, &[(1, 0, 0x0302_0100), (2, 0, 0x0302_0100)]);
    for (number, put) in [(3, Put::Held), (4, Put::Held), (1, Put::TooMany(2))] {
        puts(&rt, &mut hold, number, 0, &[0xee], put);
    }
    reads(&rt, &hold, &[(3, 0, 0x0302_01ee)]);
    Ok(())
}

#[test]
fn sixteen_lines_are_held_and_a_seventeenth_is_not(rt: HostRuntime) -> Result<(), Fail> {
    let mut hold = hold(rt.alloc(), 16)?;
    for number in 0..16 {
        puts(&rt, &mut hold, number, number, &[number], Put::Held);
    }
    puts(&rt, &mut hold, 16, 0, &[1], Put::TooMany(16));
    let out = hold.out();
    // a line that is held may be written further
    puts(&rt, &mut hold, 15, 63, &[2], Put::Held);
    for number in 0..16 {
        drains(&rt, &mut hold, number, true);
    }
    same(&rt, (out, hold.out()), (16, 0));
    puts(&rt, &mut hold, 16, 0, &[1], Put::Held);
    Ok(())
}

/// Two holds of one line each, with slots of one pool.
#[derive(Drop)]
struct Pair {
    pool: Pool,
    first: Hold,
    second: Hold,
}

impl Model for Pair {
    ghost use Rattle.std.specs.Prelude.{◌≢◌};
    ghost use Rattle.write_hold.specs.Slotted.{IsLent, Slotted};

    ghost Value = { Slotted };

    ghost view = { λ pair. pair.first };

    ghost invariant = { λ pair. IsLent pair.pool pair.first × IsLent pair.pool pair.second × (pair.first.owner ≢ pair.second.owner) };
}

impl Pair {
    /// Two holds without lines.
    fn make(alloc: Global) -> Result<Pair, Fail> {
        let config = Config {
            lines: 1,
            ..Config::usual()
        };
        let first = Hold::make(alloc, &config, 0)?;
        let second = Hold::make(alloc, &config, 1)?;
        let pool = Pool::make(alloc, &[1, 1])?;
        Ok(Pair {
            pool,
            first,
            second,
        })
    }

    /// Puts one byte into a line of the first hold, and of the second. Tells whether there was a slot for it.
    fn put_first(&mut self, number: u8, byte: u8) -> bool {
        self.first
            .put(&mut self.pool, line(number), 0, &[byte])
            .is_ok()
    }

    fn put_second(&mut self, number: u8, byte: u8) -> bool {
        self.second
            .put(&mut self.pool, line(number), 0, &[byte])
            .is_ok()
    }

    /// The words that both holds have at the first place of a line.
    fn words(&self, number: u8) -> (u32, u32) {
        (
            self.first.read_over(&self.pool, line(number), &[0; 64], 0),
            self.second.read_over(&self.pool, line(number), &[0; 64], 0),
        )
    }
}

#[test]
fn two_holds_have_a_slot_each(rt: HostRuntime) -> Result<(), Fail> {
    let mut pair = Pair::make(rt.alloc())?;
    let (first, second) = (pair.put_first(4, 0x11), pair.put_second(4, 0x22));
    same(&rt, (first, second), (true, true));
    let (first, second) = (pair.put_first(5, 0x33), pair.put_second(6, 0x44));
    same(&rt, (first, second), (false, false));
    let words = pair.words(4);
    let put = pair.put_first(4, 0x55);
    same(
        &rt,
        (words, put, pair.words(4)),
        ((0x11, 0x22), true, (0x55, 0x22)),
    );
    Ok(())
}
