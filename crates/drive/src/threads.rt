ghost use Rattle.std.specs.Prelude.{◌≡◌, ◌+◌, ◌-◌, ◌<◌, ◌≤◌, IfOk, IfErr, true, false};
ghost use mathlib.Core.List.{IsPrefix};
ghost use Rattle.bus_lock.specs.Locks.{lock_id, started_with};
ghost use Rattle.drive.specs.Drivers.{MakesTurns};
ghost use Rattle.drive.specs.Turns.{HasEnded, IsRound, WasEnded, WereEnded, round_at, round_opening, turns_of};
ghost use Rattle.std.specs.Thread.{IsSync};

use crate::round::Round;
use bus_lock::{BusLock, Pass};
use el_base::{HartId, Kept};
use el_io::Gate;
use machine::{Machine, openings_tell_beginnings};
use std::alloc::Global;
use std::sync::Wait;
use std::thread::{Threads, join};

/// Runs a machine by drivers, one a hart, each in a thread of its own where the system gives one.
///
/// Turn t of a driver is the event of kind t mod 4 of its hart, and each driver makes so many turns, in
/// order. It ends early exactly where it finds that every hart has stopped or no step is left. A driver
/// passes the gate before each turn. Which driver comes next is the threads' affair; the history tells it
/// afterwards, and what the machine has done is one run in that history's order.
///
/// All memory is taken before the first event. The error says that memory ran out, with the machine as it was.
pub fn by_threads<R: Threads + Wait + Sync, G: Gate + Sync>(
    rt: &R,
    alloc: Global,
    machine: Machine,
    turns: u32,
    gate: &G,
) -> Result<Machine, Kept<Machine>>
    ensures made { IfOk result (λ later. MakesTurns turns machine later) }
    ensures refused { IfErr result (λ refused. refused.value ≡ machine) }
{
    let harts = machine.config().harts;
    let (lock, pass) = match BusLock::make(alloc, Round::begin(machine, turns)) {
        Ok(made) => made,
        Err(Kept { value }) => {
            return Err(Kept {
                value: value.into_machine(),
            });
        }
    };
    let pass = drive_all(rt, &lock, pass, gate, 0, harts, turns);
    openings_tell_beginnings();
    Ok(lock.close(pass).into_machine())
}

/// The drivers of so many harts from `first` on, in threads of their own.
fn drive_all<R: Threads + Wait + Sync, G: Gate + Sync>(
    rt: &R,
    lock: &BusLock<Round>,
    pass: Pass,
    gate: &G,
    first: u8,
    harts: u8,
    turns: u32,
) -> Pass
    requires own { pass.lock ≡ lock_id lock.now }
    requires opening { pass.opening ≡ round_opening (started_with lock.now) }
    requires round { IsRound (round_at (started_with lock.now) pass.seen) }
    requires turns { turns ≡ (started_with lock.now).turns }
    requires some { 1 ≤ harts }
    requires few { first + harts ≤ 8 }
    requires harts_exist { first + harts ≤ (started_with lock.now).now.config.harts }
    ensures same { (result.lock ≡ pass.lock) × (result.opening ≡ pass.opening) × (result.share ≡ pass.share) }
    ensures seen { IsPrefix pass.seen result.seen }
    ensures round { IsRound (round_at (started_with lock.now) result.seen) }
    ensures ended { WereEnded (started_with lock.now) first harts result.seen }
{
    if harts == 1 {
        return drive(rt, lock, pass, gate, HartId::at(first.into()), turns);
    }
    let half = harts / 2;
    let Ok((left, right)) = lock.split(pass) else {
        unreachable!()
    };
    let (left, right) = join(
        rt,
        || -> Pass
            requires { IsSync R.row × IsSync G.row × (left.lock ≡ lock_id lock.now)
                × (left.opening ≡ round_opening (started_with lock.now))
                × IsRound (round_at (started_with lock.now) left.seen)
                × (turns ≡ (started_with lock.now).turns) × (1 ≤ half) × (first + half ≤ 8)
                × (first + half ≤ (started_with lock.now).now.config.harts) }
            ensures { (result.lock ≡ left.lock) × (result.opening ≡ left.opening) × (result.share ≡ left.share)
                × IsPrefix left.seen result.seen × IsRound (round_at (started_with lock.entry.now) result.seen)
                × WereEnded (started_with lock.entry.now) first half result.seen }
        { drive_all(rt, lock, left, gate, first, half, turns) },
        || -> Pass
            requires { IsSync R.row × IsSync G.row × (right.lock ≡ lock_id lock.now)
                × (right.opening ≡ round_opening (started_with lock.now))
                × IsRound (round_at (started_with lock.now) right.seen)
                × (turns ≡ (started_with lock.now).turns) × (half < harts) × (first + harts ≤ 8)
                × (first + harts ≤ (started_with lock.now).now.config.harts) }
            ensures { (result.lock ≡ right.lock) × (result.opening ≡ right.opening) × (result.share ≡ right.share)
                × IsPrefix right.seen result.seen × IsRound (round_at (started_with lock.entry.now) result.seen)
                × WereEnded (started_with lock.entry.now) (first + half) (harts - half) result.seen }
        { drive_all(rt, lock, right, gate, first + half, harts - half, turns) },
    );
    lock.join(left, right)
}

/// One driver: the turns of its hart, in order.
fn drive<R: Wait, G: Gate>(
    rt: &R,
    lock: &BusLock<Round>,
    pass: Pass,
    gate: &G,
    driver: HartId,
    turns: u32,
) -> Pass
    requires own { pass.lock ≡ lock_id lock.now }
    requires opening { pass.opening ≡ round_opening (started_with lock.now) }
    requires round { IsRound (round_at (started_with lock.now) pass.seen) }
    requires turns { turns ≡ (started_with lock.now).turns }
    requires hart_exists { driver.number < (started_with lock.now).now.config.harts }
    ensures same { (result.lock ≡ pass.lock) × (result.opening ≡ pass.opening) × (result.share ≡ pass.share) }
    ensures seen { IsPrefix pass.seen result.seen }
    ensures round { IsRound (round_at (started_with lock.now) result.seen) }
    ensures ended { WasEnded (started_with lock.now) driver.number result.seen }
{
    let mut pass = pass;
    for turn in 0..turns {
        gate.pass(rt, driver, turn);
        let (next, ended) = take_turn(rt, lock, pass, driver);
        pass = next;
        if ended {
            return pass;
        }
    }
    pass
}

/// Holds the machine once, and makes the hart's next turn, unless there is none to be made. It answers
/// whether there was none.
fn take_turn<R: Wait>(rt: &R, lock: &BusLock<Round>, pass: Pass, driver: HartId) -> (Pass, bool)
    requires own { pass.lock ≡ lock_id lock.now }
    requires opening { pass.opening ≡ round_opening (started_with lock.now) }
    requires round { IsRound (round_at (started_with lock.now) pass.seen) }
    requires hart_exists { driver.number < (started_with lock.now).now.config.harts }
    ensures same { (result.0.lock ≡ pass.lock) × (result.0.opening ≡ pass.opening) × (result.0.share ≡ pass.share) }
    ensures seen { IsPrefix pass.seen result.0.seen }
    ensures round { IsRound (round_at (started_with lock.now) result.0.seen) }
    ensures ended { result.1 ≡ true → HasEnded (round_at (started_with lock.now) result.0.seen) driver.number }
    ensures made { result.1 ≡ false →
        turns_of (round_at (started_with lock.now) pass.seen) driver.number + 1
        ≤ turns_of (round_at (started_with lock.now) result.0.seen) driver.number }
{
    openings_tell_beginnings();
    let mut held = lock.hold(rt, pass);
    if held.look().has_ended(driver) {
        return (held.release(), true);
    }
    held.change().make_turn(driver);
    (held.release(), false)
}
