ghost use Rattle.std.specs.Prelude.{◌≡◌, MatchOption, None, is_some, true};
ghost use Rattle.residency.specs.Cache.{is_resident};
ghost use Rattle.cache_sets.specs.Cached.{cached_byte};
ghost use Rattle.cache_sets.specs.Slotted.{IsLent, lent};
ghost use Rattle.cached_step.specs.CacheRun.{HasRun, IsModified, IsUsed, PutsInPool, permitted, permitted_in};
ghost use Rattle.core_step.specs.Run.{IsAligned, ended_of, lacking, store_when, view_when};
ghost use Rattle.line_pool.specs.Others.{LeavesOthers};
ghost use Rattle.line_pool.specs.Pooled.{Pooled};
ghost use Rattle.rv_alu.specs.Execution.{perform, store_in};
ghost use Rattle.rv_alu.specs.Footprint.{footprint};
ghost use Rattle.rv_alu.specs.declared.view.HartStatus.TheVariants.{Running};

use crate::port::CachePort;
use cache_sets::Sets;
use core_step::{Ended, run_action};
use el_base::{LineAddr, line_of};
use line_pool::Pool;
use moesi::Letter;
use rv_alu::{Access, Action, HartView};

/// Runs an action over a cache, and leaves the order and the letters of its lines.
fn run_over(pool: &mut Pool, sets: &Sets, view: &mut HartView, action: Action) -> Ended
    requires running { view.old.status ≡ Running }
    requires aligned { IsAligned action }
    requires lent { IsLent pool.old sets.now }
    ensures ended { result ≡ ended_of (lacking (permitted (lent pool.old sets.now)) (footprint action))
        (perform action view.old (cached_byte (lent pool.old sets.now))) }
    ensures view { view.new ≡
        view_when result (perform action view.old (cached_byte (lent pool.old sets.now))) view.old }
    ensures put { MatchOption (store_when result (perform action view.old (cached_byte (lent pool.old sets.now))))
        (pool.new ≡ pool.old) (λ store. PutsInPool sets.now pool.old pool.new store.address store.len store.value) }
{
    let mut port = CachePort { pool, sets };
    run_action(&mut port, view, action)
}

/// The line of an access that the cache permits becomes the most recent one of its set, and a written one is
/// modified.
fn use_line(sets: &mut Sets, access: Access)
    requires { lacking (permitted_in sets.old.residency) access ≡ None }
    ensures used { (pool : Pooled) → IsUsed access (lent pool sets.old) (lent pool sets.new) }
    ensures lent { (pool : Pooled) → IsLent pool sets.old → IsLent pool sets.new }
    ensures owner { sets.new.owner ≡ sets.old.owner }
{
    match access {
        Access::Read { address, .. } => sets.touch(line_of(address)),
        Access::Write { address, .. } => modify(sets, line_of(address)),
        _ => (),
    }
}

/// A line becomes the most recent one of its set, and is modified.
fn modify(sets: &mut Sets, line: LineAddr)
    requires { is_resident sets.old.residency line.number ≡ true }
    ensures modified { (pool : Pooled) → IsModified (lent pool sets.old) (lent pool sets.new) line.number }
    ensures lent { (pool : Pooled) → IsLent pool sets.old → IsLent pool sets.new }
    ensures owner { sets.new.owner ≡ sets.old.owner }
{
    sets.touch(line);
    sets.set_letter(line, Letter::M);
}

/// Runs what a hart does next ([`Action::at`]) over the lines of its cache.
///
/// `Needs` comes exactly where the action touches a line whose letter does not permit it, and the cache, its pool and
/// the hart's view are the old ones then. Else the action ran: the line that it touched is the most recent one of
/// its set, a written one has its new bytes and the letter M, and all else is as it was. The pool lends the cache then
/// as before, and keeps what other owners have of it. (The letters are those of the MOESI table; the order of lines is
/// this project's profile.)
pub fn step_in_cache(pool: &mut Pool, sets: &mut Sets, view: &mut HartView, action: Action) -> Ended
    requires running { view.old.status ≡ Running }
    requires aligned { IsAligned action }
    requires lent { IsLent pool.old sets.old }
    ensures ended { result ≡ ended_of (lacking (permitted (lent pool.old sets.old)) (footprint action))
        (perform action view.old (cached_byte (lent pool.old sets.old))) }
    ensures view { view.new ≡
        view_when result (perform action view.old (cached_byte (lent pool.old sets.old))) view.old }
    ensures lacks { is_some (lacking (permitted (lent pool.old sets.old)) (footprint action)) ≡ true →
        (sets.new ≡ sets.old) × (pool.new ≡ pool.old) }
    ensures ran { lacking (permitted (lent pool.old sets.old)) (footprint action) ≡ None →
        HasRun (lent pool.old sets.old) (lent pool.new sets.new) action
        (store_in (perform action view.old (cached_byte (lent pool.old sets.old)))) }
    ensures lent { IsLent pool.new sets.new }
    ensures others { LeavesOthers sets.old.owner pool.old pool.new }
    ensures owner { sets.new.owner ≡ sets.old.owner }
{
    let access = action.footprint();
    match run_over(pool, sets, view, action) {
        Ended::Needs { line, need } => Ended::Needs { line, need },
        ended => {
            use_line(sets, access);
            ended
        }
    }
}
