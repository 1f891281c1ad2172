//! A line comes into the cache of a hart that has it not.

ghost use Rattle.std.specs.Prelude.{◌≡◌, ◌<◌, ℕ, true, false, length};
ghost use Rattle.residency.specs.Cache.{is_resident, room_of};
ghost use Rattle.coherence.specs.Caches.{IsInMemory};
ghost use Rattle.coherence.specs.Lent.{IsLentTo, LeavesHolds, lent_all, slotted_at};
ghost use Rattle.coherence.specs.Served.{IsFetched, written_back};
ghost use Rattle.coherence.specs.Writing.{GoneIsInMemory};

use crate::found::current;
use crate::others::{others_give_up, others_have};
use cache_sets::{Evicted, Sets};
use el_base::{HartId, LineAddr, Need};
use line_pool::Pool;
use moesi::{filled, is_dirty};

/// Writes the line that left a cache, if one did, to main memory where that is behind.
fn write_back(first: u32, lines: &mut Vec<[u8; 64]>, evicted: Option<Evicted>)
    requires { GoneIsInMemory first (length lines.old.items) evicted }
    ensures { lines.new.items ≡ written_back first lines.old.items evicted }
{
    if let Some(gone) = evicted {
        if is_dirty(gone.letter) {
            let place = (gone.line.number - first) as usize;
            let bytes = gone.bytes;
            lines[place] = bytes;
        }
    }
}

/// A line comes into the cache of a hart that has it not, with the bytes that are found for it; the
/// other harts give it up, and a line that leaves the cache is written back.
pub fn fetch(
    pool: &mut Pool,
    first: u32,
    lines: &mut Vec<[u8; 64]>,
    caches: &mut Vec<Sets>,
    hart: HartId,
    line: LineAddr,
    need: Need,
)
    requires hart_exists { hart.number < length caches.old.items }
    requires lent { IsLentTo pool.old caches.old.items }
    requires absent { is_resident (slotted_at caches.old.items hart.number).residency line.number ≡ false }
    requires room { room_of (slotted_at caches.old.items hart.number).ways
        (slotted_at caches.old.items hart.number).residency line.number ≡ true }
    requires in_memory { IsInMemory first (length lines.old.items) line.number }
    requires inside { (h l : ℕ) → is_resident (slotted_at caches.old.items h).residency l ≡ true →
        IsInMemory first (length lines.old.items) l }
    ensures fetched { IsFetched need hart.number line.number
        (record { first = first; lines = lines.old.items; caches = lent_all pool.old caches.old.items })
        (record { first = first; lines = lines.new.items; caches = lent_all pool.new caches.new.items }) }
    ensures lent { IsLentTo pool.new caches.new.items }
    ensures holds { LeavesHolds pool.old pool.new }
{
    let shared = others_have(caches.as_slice(), hart, line);
    let bytes = current(pool, first, lines.as_slice(), caches.as_slice(), line);
    others_give_up(pool, caches, hart, line, need);
    let cache = &mut caches[usize::from(hart.number)];
    let evicted = cache.fill(pool, line, filled(need, shared), &bytes);
    write_back(first, lines, evicted);
}
