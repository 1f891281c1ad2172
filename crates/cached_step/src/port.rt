//! A cache as a way to memory.

ghost use Rattle.cache_sets.specs.Slotted.{IsLent};

use crate::line_bytes::{put_at, word_at};
use cache_sets::Sets;
use core_step::Port;
use el_base::{LINE_BYTES, LineAddr, Need, line_of};
use line_pool::Pool;
use moesi::may;

/// The lines of a cache that a pool lends. A line is permitted for what its letter permits, and its words are read
/// and stored in the line's own bytes.
#[derive(Drop)]
pub struct CachePort<'a> {
    pub pool: &'a mut Pool,
    pub sets: &'a Sets,
    ghost lent: { IsLent pool.now sets.now },
}

impl Port for CachePort<'_> {
    ghost use Rattle.std.specs.Prelude.{◌≡◌};
    ghost use Rattle.cache_sets.specs.Cached.{cached_byte};
    ghost use Rattle.cache_sets.specs.Slotted.{lent};
    ghost use Rattle.cached_step.specs.CacheRun.{PutsInPool, permitted_in};

    ghost byte = { λ port. cached_byte (lent port.pool.now port.sets.now) };

    ghost permits = { λ port. permitted_in port.sets.now.residency };

    ghost put = { λ before after address len value. (after.pool.ghost_name ≡ before.pool.ghost_name)
        × (after.sets ≡ before.sets) × PutsInPool before.sets.now before.pool.now after.pool.now address len value };

    fn ask(&self, line: LineAddr, need: Need) -> bool {
        may(self.sets.letter(line), need)
    }

    fn word(&self, address: u32) -> u32 {
        word_at(
            self.sets.bytes(self.pool, line_of(address)),
            (address % LINE_BYTES) as u8,
        )
    }

    fn store(&mut self, address: u32, len: u32, value: u32) {
        let bytes = Sets::bytes_mut(self.pool, self.sets, line_of(address));
        put_at(bytes, (address % LINE_BYTES) as u8, len, value);
    }
}
