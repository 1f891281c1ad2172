//! Pools whose takes, counts and bytes were worked by hand.

ghost use Rattle.std.specs.Prelude.{IfSome, IsTrue};
ghost use Rattle.line_pool.specs.Calls.{IsTaken};
ghost use Rattle.line_pool.specs.Pooled.{is_out};

use super::*;
use std::alloc::Global;
use std::test::Fail;

/// Owners that take in turn, each with whether it gets a slot, and how many slots of each owner are out then,
/// where each that was taken is dropped.
struct Row {
    quotas: &'static [u16],
    takes: &'static [(u16, bool)],
    outs: &'static [u16],
}

const ROWS: &[Row] = &[
    Row {
        quotas: &[2, 0, 1],
        takes: &[(0, true), (0, true), (0, false), (1, false), (2, true)],
        outs: &[2, 0, 1],
    },
    Row {
        quotas: &[1, 1],
        takes: &[(0, true), (0, false), (1, true), (1, false), (0, false)],
        outs: &[1, 1],
    },
    Row {
        quotas: &[0],
        takes: &[(0, false)],
        outs: &[0],
    },
    Row {
        quotas: &[],
        takes: &[],
        outs: &[],
    },
];

/// A pool with an owner for each of these quotas.
fn pool_of(alloc: Global, quotas: &[u16]) -> Result<Pool, Fail> {
    if quotas.len() > MAX_OWNERS {
        return Err("too many owners".into());
    }
    Ok(Pool::make(alloc, quotas)?)
}

/// A slot that an owner takes, if the pool has the owner and a slot for it.
fn take(pool: &mut Pool, owner: u16) -> Option<Slot>
    ensures { IfSome result (IsTaken pool.old pool.new owner) }
{
    if usize::from(owner) < pool.owners() {
        pool.take(owner)
    } else {
        None
    }
}

/// How many slots of an owner are out.
fn out(pool: &Pool, owner: u16) -> Result<u16, Fail> {
    if usize::from(owner) >= pool.owners() {
        return Err("no such owner".into());
    }
    Ok(pool.out(owner))
}

/// Two slots that are out, if the pool has them for these owners.
#[tactic(auto, using(crate::proofs::Laws::stays_out))]
fn take_two(pool: &mut Pool, owner: u16, other: u16) -> Option<(Slot, Slot)>
    ensures { IfSome result (λ slots. IsTrue (is_out pool.new slots.0) × IsTrue (is_out pool.new slots.1)) }
{
    let first = take(pool, owner)?;
    let second = take(pool, other)?;
    Some((first, second))
}

/// What the first and the last byte of two slots are after all of the first slot were written.
fn ends_after(pool: &mut Pool, written: &Slot, beside: &Slot, byte: u8) -> [u8; 4]
    requires written { IsTrue (is_out pool.old written.now) }
    requires beside { IsTrue (is_out pool.old beside.now) }
{
    *pool.bytes_mut(written) = [byte; 64];
    let first = pool.bytes(written);
    let second = pool.bytes(beside);
    [first[0], first[63], second[0], second[63]]
}

#[test]
fn each_owner_takes_within_its_quota(rt: HostRuntime) -> Result<(), Fail> {
    for row in ROWS {
        let mut pool = pool_of(rt.alloc(), row.quotas)?;
        for &(owner, is_some) in row.takes {
            assert_eq!(rt; take(&mut pool, owner).is_some(), is_some, "{owner}");
        }
        for (owner, &count) in row.outs.iter().enumerate() {
            assert_eq!(rt; out(&pool, owner as u16)?, count, "{owner}");
        }
    }
    Ok(())
}

#[test]
fn what_is_given_may_be_taken_again(rt: HostRuntime) -> Result<(), Fail> {
    let mut pool = pool_of(rt.alloc(), &[2, 0, 1])?;
    assert!(rt; take(&mut pool, 0).is_some());
    let second = take(&mut pool, 0).ok_or("no slot")?;
    assert!(rt; take(&mut pool, 2).is_some());
    pool.give(second);
    assert_eq!(rt; (out(&pool, 0)?, out(&pool, 2)?), (1, 1));
    assert!(rt; take(&mut pool, 0).is_some());
    assert!(rt; take(&mut pool, 0).is_none());
    Ok(())
}

#[test]
fn sixteen_owners_take_turns(rt: HostRuntime) -> Result<(), Fail> {
    let mut pool = pool_of(rt.alloc(), &[1; 16])?;
    for turn in 0..48_u16 {
        let slot = take(&mut pool, turn % 16).ok_or("no slot")?;
        pool.give(slot);
        assert_eq!(rt; out(&pool, turn % 16)?, 0);
    }
    for owner in 0..16 {
        assert!(rt; take(&mut pool, owner).is_some());
        assert!(rt; take(&mut pool, owner).is_none());
    }
    Ok(())
}

#[test]
fn a_write_changes_one_slot_alone(rt: HostRuntime) -> Result<(), Fail> {
    for (owner, other) in [(0, 0), (0, 1), (1, 0)] {
        let mut pool = pool_of(rt.alloc(), &[2, 1])?;
        let (first, second) = take_two(&mut pool, owner, other).ok_or("no slot")?;
        assert_eq!(rt; ends_after(&mut pool, &first, &second, 7), [7, 7, 0, 0]);
    }
    Ok(())
}
