//! One cache changes, and no line comes or leaves: its slots stay, and so does what a pool owes it.

ghost use Rattle.std.specs.Prelude.{◌≡◌, ◌≢◌, ◌<◌, length, true};
ghost use Rattle.residency.specs.Cache.{is_resident};
ghost use Rattle.cache_sets.specs.Calls.{IsCleared, IsLettered, IsTouched};
ghost use Rattle.coherence.specs.Changed.{GetsBit};
ghost use Rattle.coherence.specs.Lent.{IsReplacedIn, slotted_at};
ghost use Rattle.moesi.specs.declared.letter.Letter.TheVariants.{I};

use cache_sets::Sets;
use el_base::{HartId, LineAddr, Need};
use moesi::Letter;

/// A line of a hart's cache becomes the most recent one of its set.
pub fn touch(caches: &mut Vec<Sets>, hart: HartId, line: LineAddr)
    requires hart_exists { hart.number < length caches.old.items }
    requires resident { is_resident (slotted_at caches.old.items hart.number).residency line.number ≡ true }
    ensures { IsReplacedIn (λ old new. IsTouched old new line.number) hart.number caches.old.items caches.new.items }
{
    let cache = &mut caches[usize::from(hart.number)];
    cache.touch(line);
}

/// A line of a hart's cache gets another letter.
pub fn set_letter(caches: &mut Vec<Sets>, hart: HartId, line: LineAddr, letter: Letter)
    requires hart_exists { hart.number < length caches.old.items }
    requires resident { is_resident (slotted_at caches.old.items hart.number).residency line.number ≡ true }
    requires valid { letter ≢ I }
    ensures { IsReplacedIn (λ old new. IsLettered old new line.number letter) hart.number
        caches.old.items caches.new.items }
{
    let cache = &mut caches[usize::from(hart.number)];
    cache.set_letter(line, letter);
}

/// A line of a hart's cache gets the bit of a need.
pub fn mark(caches: &mut Vec<Sets>, hart: HartId, line: LineAddr, need: Need)
    requires hart_exists { hart.number < length caches.old.items }
    requires resident { is_resident (slotted_at caches.old.items hart.number).residency line.number ≡ true }
    ensures { IsReplacedIn (GetsBit line.number need) hart.number caches.old.items caches.new.items }
{
    let cache = &mut caches[usize::from(hart.number)];
    cache.set_bit(line, need);
}

/// No line of a hart's cache has a bit any more.
pub fn clear(caches: &mut Vec<Sets>, hart: HartId)
    requires { hart.number < length caches.old.items }
    ensures { IsReplacedIn IsCleared hart.number caches.old.items caches.new.items }
{
    let cache = &mut caches[usize::from(hart.number)];
    cache.clear_bits();
}
