//! Where the bytes of a line are found.

ghost use Rattle.std.specs.Prelude.{◌≡◌, ◌<◌, length, position, true};
ghost use Rattle.residency.specs.Cache.{is_resident, letter_of};
ghost use Rattle.cache_sets.specs.Cached.{bytes_of};
ghost use Rattle.cache_sets.specs.Slotted.{IsLent, lent};
ghost use Rattle.coherence.specs.Caches.{IsInMemory, behind_of, copies_of};
ghost use Rattle.coherence.specs.Lent.{IsLentTo, lent_all, slotted_at};
ghost use Rattle.coherence.specs.Line.{IsFound};
ghost use Rattle.moesi.specs.Letters.{is_dirty};

use cache_sets::Sets;
use el_base::LineAddr;
use line_pool::Pool;
use moesi::is_dirty;

/// The place among the caches of the first whose copy of a line main memory may be behind.
fn owner(caches: &[Sets], line: LineAddr) -> Option<usize>
    ensures { result ≡ position (λ cache. is_dirty (letter_of cache.residency line.number)) caches.now }
{
    caches.iter().position(|cache| is_dirty(cache.letter(line)))
}

/// The bytes of a line in one of the caches, which has it.
fn bytes_at(pool: &Pool, caches: &[Sets], place: usize, line: LineAddr) -> [u8; 64]
    requires inside { place < length caches.now }
    requires lent { IsLent pool.now (slotted_at caches.now place) }
    requires resident { is_resident (slotted_at caches.now place).residency line.number ≡ true }
    ensures { result ≡ bytes_of (lent pool.now (slotted_at caches.now place)) line.number }
{
    *caches[place].bytes(pool, line)
}

/// The bytes of a line of memory, whose first line is `first`: those of the copy that main memory may
/// be behind, and where there is none, those of main memory.
pub fn current(
    pool: &Pool,
    first: u32,
    lines: &[[u8; 64]],
    caches: &[Sets],
    line: LineAddr,
) -> [u8; 64]
    requires in_memory { IsInMemory first (length lines.now) line.number }
    requires lent { IsLentTo pool.now caches.now }
    ensures { IsFound (copies_of (lent_all pool.now caches.now) line.number)
        (behind_of first lines.now line.number) result }
{
    match owner(caches, line) {
        Some(place) => bytes_at(pool, caches, place, line),
        None => lines[(line.number - first) as usize],
    }
}
