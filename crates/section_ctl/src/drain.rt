ghost use Rattle.cache_sets.specs.Slotted as caches;
ghost use Rattle.residency.specs.Cache.{is_resident};
ghost use Rattle.section_ctl.specs.Calls.{HasCommitted};
ghost use Rattle.section_ctl.specs.Drains.{AreDrainedIn, IsDrainedIn};
ghost use Rattle.section_ctl.specs.Lent.{LeavesBeside, LendsBoth};
ghost use Rattle.section_view.specs.KeptRun.{HoldsMarked};
ghost use Rattle.std.specs.Prelude.{◌≡◌, [], true};
ghost use Rattle.write_hold.specs.Held.{holds as is_held};
ghost use Rattle.write_hold.specs.Slotted as holds;

use cache_sets::Sets;
use el_base::LineAddr;
use line_pool::Pool;
use write_hold::Hold;

/// Puts all that is held into the cache, whose held lines each have the write bit.
pub(crate) fn drain(pool: &mut Pool, hold: &mut Hold, sets: &Sets)
    requires lent { LendsBoth pool.old sets.now hold.old }
    requires marked { HoldsMarked sets.now.residency (holds.lent pool.old hold.old).entries }
    ensures drained { AreDrainedIn sets.now pool.old pool.new hold.old hold.new }
    ensures nothing { hold.new.entries ≡ [] }
{
    while let Some(line) = hold.first() {
        drain_line(pool, hold, sets, line);
    }
}

/// Puts what is held of a line over its bytes in the cache.
fn drain_line(pool: &mut Pool, hold: &mut Hold, sets: &Sets, line: LineAddr)
    requires lent { LendsBoth pool.old sets.now hold.old }
    requires held { is_held (holds.lent pool.old hold.old).entries line.number ≡ true }
    requires resident { is_resident sets.now.residency line.number ≡ true }
    ensures { IsDrainedIn sets.now pool.old pool.new hold.old hold.new line.number }
{
    let mut bytes = *sets.bytes(pool, line);
    hold.drain_into(pool, line, &mut bytes);
    *Sets::bytes_mut(pool, sets, line) = bytes;
}

/// What is held is put into the cache, its lines are modified, and no line has a bit any more.
pub(crate) fn commit_into(pool: &mut Pool, hold: &mut Hold, sets: &mut Sets)
    requires lent { LendsBoth pool.old sets.old hold.old }
    requires marked { HoldsMarked sets.old.residency (holds.lent pool.old hold.old).entries }
    ensures cache { HasCommitted (caches.lent pool.old sets.old) (caches.lent pool.new sets.new)
        (holds.lent pool.old hold.old).entries }
    ensures nothing { hold.new ≡ record hold.old { entries = [] } }
    ensures lent { LendsBoth pool.new sets.new hold.new }
    ensures owner { sets.new.owner ≡ sets.old.owner }
    ensures beside { LeavesBeside sets.old.owner hold.old.owner pool.old pool.new }
{
    drain(pool, hold, sets);
    sets.commit_bits();
}
