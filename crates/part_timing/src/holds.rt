//! Calls of a write hold of the usual configuration, of 16 lines.

ghost use Rattle.write_hold.specs.Slotted.{IsLent};

use el_base::{Config, LineAddr, line_of};
use line_pool::Pool;
use std::alloc::{AllocError, Global};
use write_hold::Hold;

/// How many lines it may hold.
const LINES: u32 = 16;

/// A hold, and the pool that lends it its lines.
#[derive(Drop)]
struct Stores {
    pool: Pool,
    hold: Hold,
    ghost lent: { IsLent pool hold },
}

/// The line that comes at a turn.
fn line_at(turn: u32) -> LineAddr {
    line_of(turn % LINES * 64)
}

/// The hold, of nothing.
fn empty_hold(alloc: Global) -> Result<Stores, AllocError> {
    let config = Config::usual();
    Ok(Stores {
        pool: Pool::make(alloc, &[16]).map_err(|_| AllocError)?,
        hold: Hold::make(alloc, &config, 0).map_err(|_| AllocError)?,
    })
}

/// Holds a word of a line. Tells whether it may.
fn put(stores: &mut Stores, line: LineAddr) -> bool {
    stores
        .hold
        .put(&mut stores.pool, line, 8, &[1, 2, 3, 4])
        .is_ok()
}

/// The hold, with a word of each line.
fn full_hold(alloc: Global) -> Result<Stores, AllocError> {
    let mut stores = empty_hold(alloc)?;
    for turn in 0..LINES {
        put(&mut stores, line_at(turn));
    }
    Ok(stores)
}

/// How often a word was put.
pub fn store(alloc: Global, count: u32) -> Result<u32, AllocError> {
    let mut stores = full_hold(alloc)?;
    let mut sum: u32 = 0;
    for turn in 0..count {
        sum = sum.wrapping_add(u32::from(put(&mut stores, line_at(turn))));
    }
    Ok(sum)
}

/// The sum of the words that are read over zeros.
pub fn load(alloc: Global, count: u32) -> Result<u32, AllocError> {
    let stores = full_hold(alloc)?;
    let mut sum: u32 = 0;
    for turn in 0..count {
        let word = stores
            .hold
            .read_over(&stores.pool, line_at(turn), &[0; 64], 8);
        sum = sum.wrapping_add(word);
    }
    Ok(sum)
}

/// Puts a word of each of 16 lines, and drains them all. Tells the sum of a byte of each.
fn store_and_drain(stores: &mut Stores) -> u32 {
    for turn in 0..LINES {
        put(stores, line_at(turn));
    }
    let mut sum = 0_u32;
    for turn in 0..LINES {
        let line = line_at(turn);
        if stores.hold.has(line) {
            let mut target = [0; 64];
            stores.hold.drain_into(&mut stores.pool, line, &mut target);
            sum = sum.wrapping_add(u32::from(target[8]));
        }
    }
    sum
}

/// The sum of a byte of each line that is drained, 16 a turn.
pub fn drain(alloc: Global, count: u32) -> Result<u32, AllocError> {
    let mut stores = empty_hold(alloc)?;
    let mut sum: u32 = 0;
    for _ in 0..count {
        sum = sum.wrapping_add(store_and_drain(&mut stores));
    }
    Ok(sum)
}
