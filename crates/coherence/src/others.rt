//! What becomes of the copies of the other harts as a request is served.

ghost use Rattle.std.specs.Prelude.{◌≡◌, ◌==◌, ◌&&◌, not};
ghost use Rattle.residency.specs.Cache.{is_resident};
ghost use Rattle.cache_sets.specs.Slotted.{IsLent, lent};
ghost use Rattle.coherence.specs.Caches.{GivesUp, OthersGiveUp, others_have};
ghost use Rattle.coherence.specs.Lent.{IsLentTo, LeavesHolds, lent_all};
ghost use Rattle.line_pool.specs.Others.{LeavesOthers};
ghost use Rattle.line_pool.specs.Pooled.{Pooled};

use cache_sets::Sets;
use el_base::{HartId, LineAddr, Need};
use line_pool::Pool;
use moesi::{Letter, on_read};

/// Whether a cache, of the hart of this number, is another hart's and has a copy of a line.
fn is_other_copy(cache: &Sets, number: usize, hart: HartId, line: LineAddr) -> bool
    ensures { result ≡ (not (number == hart.number) && is_resident cache.now.residency line.number) }
{
    number != usize::from(hart.number) && cache.letter(line) != Letter::I
}

/// Whether a hart other than this one has a copy of a line.
pub fn others_have(caches: &[Sets], hart: HartId, line: LineAddr) -> bool
    ensures { (pool : Pooled) → result ≡ others_have (lent_all pool caches.now) hart.number line.number }
{
    let mut some = false;
    let mut number = caches.len();
    while number > 0 {
        number -= 1;
        some = is_other_copy(&caches[number], number, hart, line) || some;
    }
    some
}

/// A copy goes as another hart's write is served, and its letter changes as a read is.
#[tactic(auto, using(crate::proofs::Stays::nothing_given_up))]
fn give_up(pool: &mut Pool, cache: &mut Sets, line: LineAddr, need: Need)
    requires { IsLent pool.old cache.old }
    ensures gives { GivesUp need (lent pool.old cache.old) (lent pool.new cache.new) line.number }
    ensures lent { IsLent pool.new cache.new }
    ensures others { LeavesOthers cache.old.owner pool.old pool.new }
    ensures owner { cache.new.owner ≡ cache.old.owner }
{
    let letter = cache.letter(line);
    if letter != Letter::I {
        match need {
            Need::Read => cache.set_letter(line, on_read(letter)),
            Need::Write => cache.drop_line(pool, line),
        }
    }
}

/// All harts but one give a line up.
pub fn others_give_up(
    pool: &mut Pool,
    caches: &mut Vec<Sets>,
    hart: HartId,
    line: LineAddr,
    need: Need,
)
    requires { IsLentTo pool.old caches.old.items }
    ensures gave { OthersGiveUp need hart.number line.number
        (lent_all pool.old caches.old.items) (lent_all pool.new caches.new.items) }
    ensures lent { IsLentTo pool.new caches.new.items }
    ensures holds { LeavesHolds pool.old pool.new }
{
    for number in 0..caches.len() {
        if number != usize::from(hart.number) {
            give_up(pool, &mut caches[number], line, need);
        }
    }
}
