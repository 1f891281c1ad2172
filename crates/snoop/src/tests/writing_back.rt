//! A line that was written reaches main memory as it leaves the cache.

ghost use Rattle.std.specs.Prelude.{◌≡◌, ◌<◌, length, true};
ghost use Rattle.residency.specs.Cache.{letter_of};
ghost use Rattle.coherence.specs.Lent.{slotted_at};
ghost use Rattle.moesi.specs.Letters.{may_write};
ghost use Rattle.snoop.specs.Asking.{HasNoRequest};
ghost use Rattle.snoop.specs.Shows.{IsTold, bus_state};

use super::events::*;
use super::*;
use crate::asked::Asked;
use cache_sets::{Letter, Sets};
use std::process::Abort;

/// Writes a byte of a line.
fn write(bytes: &mut [u8; 64], at: u8, byte: u8)
    requires { at < 64 }
{
    bytes[usize::from(at)] = byte;
}

/// Puts a byte into the copy of a line that the hart may write, as a store does: the line is touched and modified.
fn put(rig: &mut Rig, hart: HartId, line: LineAddr, at: u8, byte: u8)
    requires hart_exists { hart.number < length (bus_state rig.old.bus).copies.caches }
    requires told { IsTold rig.old.pool (bus_state rig.old.bus) }
    requires no_request { HasNoRequest (bus_state rig.old.bus) hart.number }
    requires may { may_write
        (letter_of (slotted_at (bus_state rig.old.bus).copies.caches hart.number).residency line.number) ≡ true }
    requires within { at < 64 }
    ensures { IsTold rig.new.pool (bus_state rig.new.bus) }
{
    let cache = rig.bus.sets_mut(hart);
    cache.touch(line);
    cache.set_letter(line, Letter::M);
    write(Sets::bytes_mut(&mut rig.pool, cache, line), at, byte);
}

/// Whether a hart has asked for nothing.
fn has_no_request(rig: &Rig, hart: HartId) -> bool
    requires { hart.number < length (bus_state rig.now.bus).agents }
    ensures { result ≡ true → HasNoRequest (bus_state rig.now.bus) hart.number }
{
    match rig.bus.request(hart) {
        Asked::Nothing => true,
        Asked::Raised { .. } | Asked::Placed { .. } => false,
    }
}

/// Stores a byte, where the hart has asked for nothing and may write the line, and tells whether it did.
fn store(rig: &mut Rig, hart: HartId, address: u32, byte: u8) -> bool
    requires { IsTold rig.old.pool (bus_state rig.old.bus) }
    ensures { IsTold rig.new.pool (bus_state rig.new.bus) }
{
    let line = line_of(address);
    if usize::from(hart.number) >= rig.bus.harts() || !has_no_request(rig, hart) {
        return false;
    }
    match rig.bus.sets(hart).letter(line) {
        Letter::M | Letter::E => (),
        Letter::O | Letter::S | Letter::I => return false,
    }
    put(rig, hart, line, (address % 64) as u8, byte);
    true
}

#[test]
fn a_store_reaches_main_memory_as_its_line_leaves(rt: HostRuntime) -> Result<(), Fail> {
    let zero = hart(0);
    let address = 0x10001;
    let config = Config {
        harts: 1,
        mode: Mode::Plain,
        sets: 1,
        ways: 1,
        ..Config::usual()
    };
    let mut rig = first_rig(rt.alloc(), &config)?;
    // not before the line is there
    let too_early = store(&mut rig, zero, address, 0x11);
    serve_line(&rt, &mut rig, line(), Need::Write);
    let got = look(&rig, address);
    // the copy has the byte, and main memory is behind it
    let stored = store(&mut rig, zero, address, 0x11);
    let written = look(&rig, address);
    // the only way is for the other line then
    serve_line(&rt, &mut rig, next_line(), Need::Read);
    let left = look(&rig, address);
    // and it comes back as it was written
    serve_line(&rt, &mut rig, line(), Need::Read);
    assert_eq!(rt; (too_early, stored), (false, true));
    let (old, new) = (Some(0x45), Some(0x11));
    let behind = (Some(0x4c), Some(0x4c));
    assert_eq!(rt;
        [got, written, left, look(&rig, address)],
        [
            (Letter::M, (old, old), behind),
            (Letter::M, (new, old), behind),
            (Letter::I, (new, new), behind),
            (Letter::E, (new, new), behind),
        ]
    );
    Ok(())
}

/// Hart 0 gets a line, and holds it no more.
fn serve_line(rt: &impl Abort, rig: &mut Rig, line: LineAddr, need: Need)
    requires { IsTold rig.old.pool (bus_state rig.old.bus) }
    ensures { IsTold rig.new.pool (bus_state rig.new.bus) }
{
    let outcome = get(rig, hart(0), line, need);
    give_up(rig, hart(0));
    assert_eq!(rt; outcome, served(&[]), "{line:?} {need:?}");
}

/// What hart 0 knows of the line of an address, and what caches and main memory have there and behind it.
fn look(rig: &Rig, address: u32) -> (Letter, Told, Told)
    requires { IsTold rig.now.pool (bus_state rig.now.bus) }
{
    (
        letter(rig, hart(0), line_of(address)),
        bytes(rig, address),
        bytes(rig, address.saturating_add(1)),
    )
}

/// A byte that caches and main memory tell, and main memory's.
type Told = (Option<u8>, Option<u8>);
