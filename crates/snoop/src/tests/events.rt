//! Whole events of the bus, and what may be seen after them. A hart that is not there does nothing.

ghost use Rattle.std.specs.Prelude.{◌≡◌, None};
ghost use Rattle.bus_agent.specs.Agent.{agent_at, with_agent};
ghost use Rattle.snoop.specs.Shows.{IsTold, bus_state};

use super::*;
use cache_sets::Letter;
use el_base::{Freed, Losers};
use std::process::Abort;

/// The line after the first one of memory.
pub(super) fn next_line() -> LineAddr {
    line_of(0x10040)
}

/// These losers, each with its winner.
fn losers(pairs: &[(u8, u8)]) -> Losers {
    let mut losers = Losers::none();
    for (loser, winner) in pairs {
        losers = losers.with(hart(*loser), hart(*winner));
    }
    losers
}

/// These freed harts, each with the number of its instructions, which is from 1 to 15.
fn freed(counts: &[(u8, u8)]) -> Freed {
    let mut freed = Freed::none();
    for (number, count) in counts {
        if (1..=15).contains(count) {
            freed = freed.with(hart(*number), *count);
        }
    }
    freed
}

/// What Order says where each of these losers is beaten by its winner, and these harts are let go.
pub(super) fn ordered_and_freed(pairs: &[(u8, u8)], counts: &[(u8, u8)]) -> Option<Outcome> {
    Some(Outcome::Ordered {
        losers: losers(pairs),
        freed: freed(counts),
    })
}

/// The same where nobody is let go.
pub(super) fn ordered(pairs: &[(u8, u8)]) -> Option<Outcome> {
    ordered_and_freed(pairs, &[])
}

/// What Serve says where each of these losers is beaten by its winner, and these harts are let go.
pub(super) fn served_and_freed(pairs: &[(u8, u8)], counts: &[(u8, u8)]) -> Option<Outcome> {
    Some(Outcome::Served {
        losers: losers(pairs),
        freed: freed(counts),
    })
}

/// The same where nobody is let go.
pub(super) fn served(pairs: &[(u8, u8)]) -> Option<Outcome> {
    served_and_freed(pairs, &[])
}

/// What Deliver says where each of these losers is beaten by its winner.
pub(super) fn delivered(pairs: &[(u8, u8)]) -> Option<Outcome> {
    Some(Outcome::Delivered {
        losers: losers(pairs),
    })
}

/// A hart asks for a line, where it may.
pub(super) fn ask_for(rig: &mut Rig, hart: HartId, line: LineAddr, need: Need) -> bool
    requires { IsTold rig.old.pool (bus_state rig.old.bus) }
    ensures { IsTold rig.new.pool (bus_state rig.new.bus) }
{
    if usize::from(hart.number) >= rig.bus.agents.len() || rig.bus.order.of(hart).is_some() {
        return false;
    }
    if !rig.bus.hierarchy.has_in_memory(line) || !has_room(rig, hart, line) {
        return false;
    }
    let stamp = rig.bus.agent(hart).attempt();
    let request = Request {
        hart,
        line,
        need,
        stamp,
    };
    raise(&mut rig.bus.agents, request);
    true
}

/// What Serve says, under the policy of the mode.
pub(super) fn serve(rig: &mut Rig, hart: HartId) -> Option<Outcome>
    requires { IsTold rig.old.pool (bus_state rig.old.bus) }
    ensures { IsTold rig.new.pool (bus_state rig.new.bus) }
{
    if usize::from(hart.number) >= rig.bus.agents.len() {
        return None;
    }
    match rig.bus.mode {
        Mode::Plain => Some(rig.bus.serve(&mut rig.pool, hart, &SlePolicy)),
        Mode::Sle => Some(rig.bus.serve(&mut rig.pool, hart, &SlePolicy)),
        Mode::Tlr => Some(rig.bus.serve(&mut rig.pool, hart, &TlrPolicy)),
    }
}

/// What Deliver says.
pub(super) fn deliver(rig: &mut Rig, hart: HartId) -> Option<Outcome>
    requires { IsTold rig.old.pool (bus_state rig.old.bus) }
    ensures { IsTold rig.new.pool (bus_state rig.new.bus) }
{
    if usize::from(hart.number) >= rig.bus.agents.len() {
        return None;
    }
    Some(rig.bus.deliver(hart))
}

/// A hart's request for a line is raised and ordered, and what Serve says of it then.
pub(super) fn get(rig: &mut Rig, hart: HartId, line: LineAddr, need: Need) -> Option<Outcome>
    requires { IsTold rig.old.pool (bus_state rig.old.bus) }
    ensures { IsTold rig.new.pool (bus_state rig.new.bus) }
{
    ask_for(rig, hart, line, need);
    order(rig, hart);
    serve(rig, hart)
}

/// A hart holds no line any more.
pub(super) fn give_up(rig: &mut Rig, hart: HartId)
    requires { IsTold rig.old.pool (bus_state rig.old.bus) }
    ensures { IsTold rig.new.pool (bus_state rig.new.bus) }
{
    hold_nothing(&mut rig.bus.agents, hart);
}

/// The same, of its agent.
fn hold_nothing(agents: &mut Vec<Agent>, hart: HartId)
    ensures { agents.new.items ≡ with_agent agents.old.items hart.number
        (record (agent_at agents.old.items hart.number) { held_line = None }) }
{
    if let Some(agent) = agents.get_mut(usize::from(hart.number)) {
        agent.give_up();
    }
}

/// A hart's section ends, and leaves no bit.
pub(super) fn end_section(rig: &mut Rig, hart: HartId)
    requires { IsTold rig.old.pool (bus_state rig.old.bus) }
    ensures { IsTold rig.new.pool (bus_state rig.new.bus) }
{
    if usize::from(hart.number) < rig.bus.hierarchy.harts() {
        rig.bus.hierarchy.clear(hart);
    }
}

/// What a hart has of a line.
pub(super) fn letter(rig: &Rig, hart: HartId, line: LineAddr) -> Letter {
    if usize::from(hart.number) < rig.bus.hierarchy.harts() {
        rig.bus.hierarchy.cache(hart).letter(line)
    } else {
        Letter::I
    }
}

/// The byte at an address that caches and main memory tell, and main memory's.
pub(super) fn bytes(rig: &Rig, address: u32) -> (Option<u8>, Option<u8>)
    requires { IsTold rig.now.pool (bus_state rig.now.bus) }
{
    let main = rig
        .bus
        .hierarchy
        .has_in_memory(line_of(address))
        .then(|| rig.bus.hierarchy.main_byte(address));
    (rig.bus.byte(&rig.pool, address), main)
}

/// A hart asks for a line, which it may.
pub(super) fn asks_for(rt: &impl Abort, rig: &mut Rig, hart: HartId, line: LineAddr, need: Need)
    requires { IsTold rig.old.pool (bus_state rig.old.bus) }
    ensures { IsTold rig.new.pool (bus_state rig.new.bus) }
{
    let asked = ask_for(rig, hart, line, need);
    assert!(rt; asked, "{hart:?} {need:?}");
}

/// A hart asks for a line, and its request is ordered with no loser.
pub(super) fn comes(rt: &impl Abort, rig: &mut Rig, hart: HartId, line: LineAddr, need: Need)
    requires { IsTold rig.old.pool (bus_state rig.old.bus) }
    ensures { IsTold rig.new.pool (bus_state rig.new.bus) }
{
    asks_for(rt, rig, hart, line, need);
    order_says(rt, rig, hart, ordered(&[]));
}

/// Order says this of a hart.
pub(super) fn order_says(rt: &impl Abort, rig: &mut Rig, hart: HartId, outcome: Option<Outcome>)
    requires { IsTold rig.old.pool (bus_state rig.old.bus) }
    ensures { IsTold rig.new.pool (bus_state rig.new.bus) }
{
    let said = order(rig, hart);
    let mode = rig.bus.mode;
    assert_eq!(rt; said, outcome, "{mode:?} {hart:?}");
}

/// Serve says this of a hart.
pub(super) fn serve_says(rt: &impl Abort, rig: &mut Rig, hart: HartId, outcome: Option<Outcome>)
    requires { IsTold rig.old.pool (bus_state rig.old.bus) }
    ensures { IsTold rig.new.pool (bus_state rig.new.bus) }
{
    let said = serve(rig, hart);
    let mode = rig.bus.mode;
    assert_eq!(rt; said, outcome, "{mode:?} {hart:?}");
}

/// Deliver says this of a hart.
pub(super) fn deliver_says(rt: &impl Abort, rig: &mut Rig, hart: HartId, outcome: Option<Outcome>)
    requires { IsTold rig.old.pool (bus_state rig.old.bus) }
    ensures { IsTold rig.new.pool (bus_state rig.new.bus) }
{
    let said = deliver(rig, hart);
    let mode = rig.bus.mode;
    assert_eq!(rt; said, outcome, "{mode:?} {hart:?}");
}
