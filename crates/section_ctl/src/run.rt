ghost use Rattle.std.specs.Prelude.{◌≡◌, ◌≤◌, ◌<◌, ◌+◌, ◌%◌, ℕ, None};
ghost use Rattle.residency.specs.Cache.{write_bits_of};
ghost use Rattle.cache_sets.specs.Cached.{cached_byte};
ghost use Rattle.cache_sets.specs.Slotted as caches;
ghost use Rattle.core_step.specs.Run.{IsAligned, ended_of, lacking, store_when, view_when};
ghost use Rattle.el_model.specs.Upcoming.{touch_of};
ghost use Rattle.line_pool.specs.Others.{LeavesOthers};
ghost use Rattle.line_pool.specs.Pooled.{Pooled};
ghost use Rattle.section_view.specs.PrivateRun.{HasItsBit};
ghost use Rattle.rv_alu.specs.Execution.{perform, store_in, view_after};
ghost use Rattle.rv_alu.specs.Footprint.{footprint};
ghost use Rattle.rv_alu.specs.declared.view.HartStatus.TheVariants.{Running};
ghost use Rattle.section_ctl.specs.Calls.{IsCoveredIn};
ghost use Rattle.section_ctl.specs.Lent.{LendsBoth, MayPut};
ghost use Rattle.section_ctl.specs.Shown.{IsTouchedLine, action_over, permits_one};
ghost use Rattle.section_view.specs.KeptRun.{HoldsMarked, section_byte};
ghost use Rattle.section_view.specs.Laws.{HoldsAfter};
ghost use Rattle.write_hold.specs.Held.{held};
ghost use Rattle.write_hold.specs.Slotted as holds;

use crate::live::Live;
use crate::port::SectionPort;
use cache_sets::Sets;
use core_step::{Ended, run_action};
use el_base::{LineAddr, line_of};
use line_pool::Pool;
use rv_alu::{Access, Action, HartView};
use write_hold::Hold;

/// Runs an action of a live section: on its view, over what it has stored, its lock word's new value and
/// its hart's cache. What it stores is held.
pub(crate) fn run_over(
    pool: &mut Pool,
    hold: &mut Hold,
    view: &mut HartView,
    sets: &Sets,
    live: Live,
    action: Action,
)
    requires lent { LendsBoth pool.old sets.now hold.old }
    requires running { view.old.status ≡ Running }
    requires lock_aligned { live.word % 4 ≡ 0 }
    requires free { (address : ℕ) → live.word ≤ address → address < live.word + 4 →
        held (holds.lent pool.old hold.old).entries address ≡ None }
    requires aligned { IsAligned action }
    requires bit { HasItsBit sets.now.residency (touch_of (footprint action)) }
    requires marked { HoldsMarked sets.now.residency (holds.lent pool.old hold.old).entries }
    requires few { write_bits_of sets.now.residency ≤ hold.old.limit }
    ensures view { view.new ≡ view_after (perform action view.old (section_byte (holds.lent pool.old hold.old).entries
        live.word live.new (cached_byte (caches.lent pool.old sets.now)))) view.old }
    ensures hold { HoldsAfter (store_in (perform action view.old (section_byte (holds.lent pool.old hold.old).entries
        live.word live.new (cached_byte (caches.lent pool.old sets.now)))))
        (holds.lent pool.old hold.old) (holds.lent pool.new hold.new) }
    ensures limit { hold.new.limit ≡ hold.old.limit }
    ensures lent { LendsBoth pool.new sets.now hold.new }
    ensures owner { hold.new.owner ≡ hold.old.owner }
    ensures others { LeavesOthers hold.old.owner pool.old pool.new }
{
    // the clause of this call says that no line is held twice
    prove!(hold.len() <= usize::MAX);
    run_in_line(pool, hold, view, sets, touched_line(action), live, action);
}

/// Runs an action over the port of one line.
fn run_in_line(
    pool: &mut Pool,
    hold: &mut Hold,
    view: &mut HartView,
    sets: &Sets,
    line: LineAddr,
    live: Live,
    action: Action,
) -> Ended
    requires lent { LendsBoth pool.old sets.now hold.old }
    requires running { view.old.status ≡ Running }
    requires lock_aligned { live.word % 4 ≡ 0 }
    requires aligned { IsAligned action }
    ensures ended { result ≡ ended_of (lacking (permits_one line.number sets.now.residency (holds.lent pool.old hold.old))
        (footprint action)) (action_over pool.old hold.old sets.now live view.old action) }
    ensures view { view.new ≡ view_when result (action_over pool.old hold.old sets.now live view.old action) view.old }
    ensures put { MayPut sets.now pool.old pool.new hold.old hold.new
        (store_when result (action_over pool.old hold.old sets.now live view.old action)) }
{
    let mut port = SectionPort {
        pool,
        hold,
        sets,
        line,
        word: live.word,
        new: live.new,
    };
    run_action(&mut port, view, action)
}

/// The line that an action touches, if it touches one.
fn touched_line(action: Action) -> LineAddr
    ensures { IsTouchedLine (footprint action) result.number }
{
    match action.footprint() {
        Access::Read { address, .. } | Access::Write { address, .. } => line_of(address),
        _ => line_of(0),
    }
}

/// The line that an action touches becomes the most recent one of its set.
pub(crate) fn touch(sets: &mut Sets, action: Action)
    requires { HasItsBit sets.old.residency (touch_of (footprint action)) }
    ensures covered { (pool : Pooled) →
        IsCoveredIn (caches.lent pool sets.old) (caches.lent pool sets.new) (touch_of (footprint action)) }
    ensures lent { (pool : Pooled) → caches.IsLent pool sets.old → caches.IsLent pool sets.new }
    ensures owner { sets.new.owner ≡ sets.old.owner }
{
    match action.footprint() {
        Access::Read { address, .. } | Access::Write { address, .. } => sets.touch(line_of(
            address,
        )),
        _ => (),
    }
}
