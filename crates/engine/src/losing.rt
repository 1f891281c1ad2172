//! What an event of the bus leaves to the harts: sections that are lost by conflicts, and armed ones that are let go.

ghost use Rattle.std.specs.Prelude.{◌≡◌, ◌≤◌, ◌<◌, ℕ, IsSome, None, Option, Some, length, true};
ghost use Rattle.std.specs.Option.{option_map};
ghost use Rattle.el_base.specs.Freed.{count_in};
ghost use Rattle.el_base.specs.LetGo.{freed_of_outcome};
ghost use Rattle.el_base.specs.Losers.{beaten_by};
ghost use Rattle.el_base.specs.Winners.{winner_over};
ghost use Rattle.engine.specs.Lent.{LeavesKept, LendsHolds};
ghost use Rattle.engine.specs.Parts.{own_at};
ghost use Rattle.engine.specs.Restored.{AreRestored, freed_own, own_after};
ghost use Rattle.engine.specs.Restored.{TellsOfNobody};
ghost use Rattle.line_pool.specs.Others.{LeavesOthers};
ghost use Rattle.write_hold.specs.Slotted.{IsLent};

use el_base::{Freed, HartId, Losers, Mode, Outcome};
use hart_state::HartState;
use line_pool::Pool;

/// A hart is let go, where some of its instructions take effect.
fn free(hart: &mut HartState, count: u8)
    requires armed { 1 ≤ count → IsSome hart.old.section.armed }
    ensures { hart.new ≡ freed_own count hart.old }
{
    if count != 0 {
        hart.let_go();
    }
}

/// A hart loses its section, where it has lost to one, or is let go, where some of its instructions take effect.
fn restore(pool: &mut Pool, hart: &mut HartState, mode: Mode, winner: Option<HartId>, count: u8)
    requires lent { IsLent pool.old hart.old.section.hold }
    requires live { IsSome winner → IsSome hart.old.section.live }
    requires armed { 1 ≤ count → IsSome hart.old.section.armed }
    ensures own { hart.new ≡ own_after mode (option_map (λ h. h.number) winner) count hart.old }
    ensures lent { IsLent pool.new hart.new.section.hold }
    ensures others { LeavesOthers hart.old.section.hold.owner pool.old pool.new }
    ensures kept { winner ≡ None → pool.new ≡ pool.old }
{
    match winner {
        Some(_) => hart.lose(pool, mode),
        None => free(hart, count),
    }
}

/// Each hart that is among the losers loses its section, and each that is among the freed is let go. Each of those has
/// a live section, and each of these an armed one.
fn restore_all(
    pool: &mut Pool,
    harts: &mut Vec<HartState>,
    mode: Mode,
    losers: Losers,
    freed: Freed,
)
    requires lent { LendsHolds pool.old harts.old.items }
    requires few { length harts.old.items ≤ 8 }
    requires live { (g winner : ℕ) → g < length harts.old.items → beaten_by losers g ≡ Some winner →
        IsSome (own_at harts.old.items g).section.live }
    requires armed { (g : ℕ) → g < length harts.old.items → 1 ≤ count_in freed g →
        IsSome (own_at harts.old.items g).section.armed }
    ensures restored { AreRestored mode (beaten_by losers) (λ g. count_in freed g) harts.old.items harts.new.items }
    ensures lent { LendsHolds pool.new harts.new.items }
    ensures kept { LeavesKept (beaten_by losers) pool.old pool.new }
{
    for number in 0..harts.len() {
        let hart = HartId::at(number);
        restore(
            pool,
            &mut harts[number],
            mode,
            losers.winner_of(hart),
            freed.count_of(hart),
        );
    }
}

/// Whether an outcome names no hart that has lost its section, and none that was let go.
#[tactic(auto, using(el_base::proofs::Laws::MadeLosers::none_in_no_one))]
fn tells_of_nobody(outcome: Outcome) -> bool
    ensures { result ≡ true → TellsOfNobody outcome }
{
    outcome.losers() == Losers::none() && outcome.freed() == Freed::none()
}

/// What an event of the bus leaves to the harts, by its outcome: a hart that it names among its losers loses its section,
/// and one that it names among the freed is let go. Each of those has a live section, and each of these an armed one. Most
/// outcomes name nobody.
pub(crate) fn restore_by(pool: &mut Pool, harts: &mut Vec<HartState>, mode: Mode, outcome: Outcome)
    requires lent { LendsHolds pool.old harts.old.items }
    requires few { length harts.old.items ≤ 8 }
    requires live { (g winner : ℕ) → g < length harts.old.items → winner_over outcome g ≡ Some winner →
        IsSome (own_at harts.old.items g).section.live }
    requires armed { (g : ℕ) → g < length harts.old.items → 1 ≤ count_in (freed_of_outcome outcome) g →
        IsSome (own_at harts.old.items g).section.armed }
    ensures restored { AreRestored mode (winner_over outcome) (λ g. count_in (freed_of_outcome outcome) g)
        harts.old.items harts.new.items }
    ensures lent { LendsHolds pool.new harts.new.items }
    ensures kept { LeavesKept (winner_over outcome) pool.old pool.new }
{
    if !tells_of_nobody(outcome) {
        restore_all(pool, harts, mode, outcome.losers(), outcome.freed());
    }
}
