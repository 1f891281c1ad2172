//! A request for a line that the hart has already.

ghost use Rattle.std.specs.Prelude.{◌≡◌, ◌<◌, true, length};
ghost use Rattle.residency.specs.Cache.{is_resident, letter_of};
ghost use Rattle.cache_sets.specs.Calls.{IsLettered};
ghost use Rattle.coherence.specs.Kept.{IsKept};
ghost use Rattle.coherence.specs.Lent.{IsLentTo, IsReplacedIn, LeavesHolds, lent_all, slotted_at};
ghost use Rattle.el_base.specs.declared.outcomes.Need.TheVariants.{Write};

use crate::changing::set_letter;
use crate::others::others_give_up;
use cache_sets::Sets;
use el_base::{HartId, LineAddr, Need};
use line_pool::Pool;
use moesi::Letter;

/// The hart keeps its copy: with its letter for a read, and as the only one, modified, for a write.
pub fn keep(pool: &mut Pool, caches: &mut Vec<Sets>, hart: HartId, line: LineAddr, need: Need)
    requires hart_exists { hart.number < length caches.old.items }
    requires lent { IsLentTo pool.old caches.old.items }
    requires resident { is_resident (slotted_at caches.old.items hart.number).residency line.number ≡ true }
    ensures kept { IsKept need hart.number line.number
        (lent_all pool.old caches.old.items) (lent_all pool.new caches.new.items) }
    ensures lent { IsLentTo pool.new caches.new.items }
    ensures holds { LeavesHolds pool.old pool.new }
{
    match need {
        Need::Read => keep_letter(caches, hart, line),
        Need::Write => modify(pool, caches, hart, line),
    }
}

/// The copy keeps its letter.
fn keep_letter(caches: &mut Vec<Sets>, hart: HartId, line: LineAddr)
    requires hart_exists { hart.number < length caches.old.items }
    requires resident { is_resident (slotted_at caches.old.items hart.number).residency line.number ≡ true }
    ensures { IsReplacedIn (λ old new. IsLettered old new line.number (letter_of old.residency line.number))
        hart.number caches.old.items caches.new.items }
{
    let letter = caches[usize::from(hart.number)].letter(line);
    set_letter(caches, hart, line, letter);
}

/// The copy is modified, and no other hart has one.
fn modify(pool: &mut Pool, caches: &mut Vec<Sets>, hart: HartId, line: LineAddr)
    requires hart_exists { hart.number < length caches.old.items }
    requires lent { IsLentTo pool.old caches.old.items }
    requires resident { is_resident (slotted_at caches.old.items hart.number).residency line.number ≡ true }
    ensures kept { IsKept Write hart.number line.number
        (lent_all pool.old caches.old.items) (lent_all pool.new caches.new.items) }
    ensures lent { IsLentTo pool.new caches.new.items }
    ensures holds { LeavesHolds pool.old pool.new }
{
    others_give_up(pool, caches, hart, line, Need::Write);
    set_letter(caches, hart, line, Letter::M);
}
