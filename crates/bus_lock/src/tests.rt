ghost use Rattle.std.specs.Prelude.{◌≡◌, ◌+◌, ◌<◌, ◌≤◌};
ghost use Rattle.std.specs.Thread.{IsSync};
ghost use Rattle.bus_lock.specs.Locks.{lock_id};

use super::*;
use chronicle::History;
use el_base::{Chronicled, Entry, Event, HartId, Kind, Outcome};
use std::sync::Wait;
use std::test::Fail;
use std::thread::{Threads, join};

/// An entry that no other of this hart is like.
fn entry(hart: HartId, count: u32) -> Entry {
    Entry {
        event: Event {
            kind: Kind::Step,
            hart,
        },
        outcome: Outcome::Committed { count },
    }
}

/// Puts an entry behind the history, in a turn of its own, if there is a place for it.
fn push<R: Wait>(rt: &R, lock: &BusLock<History>, pass: Pass, entry: Entry) -> Pass
    requires { pass.lock ≡ lock_id lock.now }
    ensures { (result.lock ≡ pass.lock) × (result.share ≡ pass.share) }
{
    let mut held = lock.hold(rt, pass);
    if held.look().spare() == 0 {
        return held.release();
    }
    held.change().push(entry);
    held.release()
}

/// As many entries of one hart, each in a turn of its own.
fn push_all<R: Wait>(
    rt: &R,
    lock: &BusLock<History>,
    pass: Pass,
    hart: HartId,
    entries: u32,
) -> Pass
    requires { pass.lock ≡ lock_id lock.now }
    ensures { (result.lock ≡ pass.lock) × (result.share ≡ pass.share) }
{
    let mut pass = pass;
    for count in 0..entries {
        pass = push(rt, lock, pass, entry(hart, count));
    }
    pass
}

/// Entries of so many harts from `first` on, each hart in a thread of its own.
fn push_by_harts<R: Threads + Wait + Sync>(
    rt: &R,
    lock: &BusLock<History>,
    pass: Pass,
    first: u8,
    harts: u8,
    entries: u32,
) -> Pass
    requires own { pass.lock ≡ lock_id lock.now }
    requires some { 1 ≤ harts }
    requires few { first + harts ≤ 8 }
    ensures { (result.lock ≡ pass.lock) × (result.share ≡ pass.share) }
{
    if harts == 1 {
        return push_all(rt, lock, pass, HartId::at(first.into()), entries);
    }
    let half = harts / 2;
    let Ok((left, right)) = lock.split(pass) else {
        unreachable!()
    };
    let (left, right) = join(
        rt,
        || -> Pass
            requires { IsSync R.row × (left.lock ≡ lock_id lock.now) × (1 ≤ half) × (first + half ≤ 8) }
            ensures { (result.lock ≡ left.lock) × (result.share ≡ left.share) }
        { push_by_harts(rt, lock, left, first, half, entries) },
        || -> Pass
            requires { IsSync R.row × (right.lock ≡ lock_id lock.now) × (half < harts) × (first + harts ≤ 8) }
            ensures { (result.lock ≡ right.lock) × (result.share ≡ right.share) }
        { push_by_harts(rt, lock, right, first + half, harts - half, entries) },
    );
    lock.join(left, right)
}

/// A pass that is released splits, the right half pushes, and the joined pass has seen the entry.
#[test]
fn a_joined_pass_has_seen_what_its_half_made(rt: HostRuntime) -> Result<(), Fail> {
    let history = History::make(rt.alloc(), 2).map_err(|_| "no history")?;
    let Ok((lock, pass)) = BusLock::make(rt.alloc(), history) else {
        return Err("no lock".into());
    };
    let first = HartId::at(0);
    let pass = push(&rt, &lock, pass, entry(first, 7));
    let Ok((left, right)) = lock.split(pass) else {
        return Err("no halves".into());
    };
    let right = push(&rt, &lock, right, entry(first, 8));
    let whole = lock.join(left, right);
    let history = lock.close(whole);
    assert_eq!(rt; history.length(), 2);
    assert_eq!(rt; history.entry(0), entry(first, 7));
    assert_eq!(rt; history.entry(1), entry(first, 8));
    Ok(())
}

/// Each entry of eight threads is in the history once, and those of each thread in its own order.
#[test]
fn no_entry_of_eight_threads_is_lost(rt: HostRuntime) -> Result<(), Fail> {
    let history = History::make(rt.alloc(), 100_000).map_err(|_| "no history")?;
    let Ok((lock, pass)) = BusLock::make(rt.alloc(), history) else {
        return Err("no lock".into());
    };
    let whole = push_by_harts(&rt, &lock, pass, 0, 8, 12_500);
    let history = lock.close(whole);
    assert_eq!(rt; history.length(), 100_000);
    let mut next = [0u32; 8];
    for place in 0..history.length() {
        let found = history.entry(place);
        let hart = found.event.hart;
        let count = &mut next[usize::from(hart.number)];
        assert_eq!(rt; found, entry(hart, *count));
        *count = count.saturating_add(1);
    }
    assert_eq!(rt; next, [12_500; 8]);
    Ok(())
}
