//! Calls of a cache of the usual configuration: 16 sets of 4 lines, all of which have a line.

ghost use Rattle.cache_sets.specs.Slotted.{IsLent};

use cache_sets::{Letter, Sets};
use el_base::{Config, LineAddr, line_of};
use line_pool::Pool;
use std::alloc::{AllocError, Global};

/// How many lines the cache has.
const LINES: u32 = 64;

/// A cache, and the pool that lends it its lines.
#[derive(Drop)]
struct Cache {
    pool: Pool,
    sets: Sets,
    ghost lent: { IsLent pool sets },
}

/// The line that comes at a turn: those that the cache has, one after the other, over and over.
fn line_at(turn: u32) -> LineAddr {
    line_of(turn % LINES * 64)
}

/// The cache, without lines.
fn empty_cache(alloc: Global) -> Result<Cache, AllocError> {
    let config = Config::usual();
    Ok(Cache {
        pool: Pool::make(alloc, &[64]).map_err(|_| AllocError)?,
        sets: Sets::make(alloc, &config, 0).map_err(|_| AllocError)?,
    })
}

/// The cache, with its lines.
fn full_cache(alloc: Global) -> Result<Cache, AllocError> {
    let mut cache = empty_cache(alloc)?;
    for turn in 0..LINES {
        fill_where_room(&mut cache, line_at(turn));
    }
    Ok(cache)
}

/// Fills a line that the cache has not. Tells whether one left.
fn fill_where_room(cache: &mut Cache, line: LineAddr) -> bool {
    if cache.sets.has(line) || !cache.sets.room(line) {
        return false;
    }
    let gone = cache.sets.fill(&mut cache.pool, line, Letter::E, &[7; 64]);
    gone.is_some()
}

/// How often the cache had the line.
pub fn has(alloc: Global, count: u32) -> Result<u32, AllocError> {
    let cache = full_cache(alloc)?;
    let mut sum: u32 = 0;
    for turn in 0..count {
        sum = sum.wrapping_add(u32::from(cache.sets.has(line_at(turn))));
    }
    Ok(sum)
}

/// The sum of the letters' numbers.
pub fn letter(alloc: Global, count: u32) -> Result<u32, AllocError> {
    let cache = full_cache(alloc)?;
    let mut sum: u32 = 0;
    for turn in 0..count {
        sum = sum.wrapping_add(cache.sets.letter(line_at(turn)) as u32);
    }
    Ok(sum)
}

/// Touches a line that the cache has. Tells whether it has it.
fn touch_where_there(cache: &mut Cache, line: LineAddr) -> bool {
    let is_there = cache.sets.has(line);
    if is_there {
        cache.sets.touch(line);
    }
    is_there
}

/// How often a line was touched. The lines of a set come in turn, so each is the least recent one.
pub fn touch(alloc: Global, count: u32) -> Result<u32, AllocError> {
    let mut cache = full_cache(alloc)?;
    let mut sum: u32 = 0;
    for turn in 0..count {
        sum = sum.wrapping_add(u32::from(touch_where_there(&mut cache, line_at(turn))));
    }
    Ok(sum)
}

/// How often there was room for a line that the cache has not.
pub fn room(alloc: Global, count: u32) -> Result<u32, AllocError> {
    let cache = full_cache(alloc)?;
    let mut sum: u32 = 0;
    for turn in 0..count {
        let line = line_of((LINES + turn % LINES) * 64);
        sum = sum.wrapping_add(u32::from(!cache.sets.has(line) && cache.sets.room(line)));
    }
    Ok(sum)
}

/// How often a line left for another. Twice as many lines as the cache has come in turn.
pub fn fill(alloc: Global, count: u32) -> Result<u32, AllocError> {
    let mut cache = full_cache(alloc)?;
    let mut sum: u32 = 0;
    for turn in 0..count {
        let line = line_of((LINES + turn % (2 * LINES)) % (2 * LINES) * 64);
        sum = sum.wrapping_add(u32::from(fill_where_room(&mut cache, line)));
    }
    Ok(sum)
}
