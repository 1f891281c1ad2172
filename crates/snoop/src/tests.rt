//! Four harts at one bus, worked by hand. Each hart's cache has one set of two ways; in lock removal each hart has an
//! open attempt with the clock 0, so a hart of a less number comes before one of a greater.

ghost use Rattle.std.specs.Prelude.{◌≡◌, ◌<◌, ◌≤◌, ◌*◌, ℕ, IfOk, None, Some, length};
ghost use Rattle.bus_agent.specs.Agent.{agent_at, with_agent};
ghost use Rattle.bus_order.specs.Order.{numbered};
ghost use Rattle.residency.specs.WellFormed.{IsWellFormed};
ghost use Rattle.coherence.specs.Lent.{IsLentTo, Offers, slotted_at};
ghost use Rattle.coherence.specs.Served.{IsCoherent, caches_of, shown_copies};
ghost use Rattle.el_base.specs.Config.{IsInRange};
ghost use Rattle.snoop.specs.Shows.{IsReady, IsTold, has_room_in, bus_state};

mod delivering;
mod events;
mod letting_go;
mod making;
mod ordering;
mod readiness;
mod serving;
mod writing_back;

use crate::bus::Bus;
use bus_agent::{Agent, take_message};
use bus_order::{Order, Request};
use coherence::Hierarchy;
use el_base::{Config, HartId, LineAddr, Mode, Need, Outcome, line_of};
use elf_image::{Image, load};
use line_pool::Pool;
use mail::Message;
use policy::{SlePolicy, TlrPolicy};
use std::alloc::Global;
use std::test::Fail;

/// An image of one segment of 256 bytes at 0x10000, of which the first 128 stand in the file: byte 84 of
/// the file, where the code begins, is at 0x10054.
const HEADER: [u8; 88] = [
    0x7f, 0x45, 0x4c, 0x46, 0x01, 0x01, 0x01, 0x00, 0x00, 0x00, 0x00, 0x00, 0x00, 0x00, 0x00, 0x00,
    0x02, 0x00, 0xf3, 0x00, 0x01, 0x00, 0x00, 0x00, 0x54, 0x00, 0x01, 0x00, 0x34, 0x00, 0x00, 0x00,
    0x00, 0x00, 0x00, 0x00, 0x00, 0x00, 0x00, 0x00, 0x34, 0x00, 0x20, 0x00, 0x01, 0x00, 0x00, 0x00,
    0x00, 0x00, 0x00, 0x00, 0x01, 0x00, 0x00, 0x00, 0x00, 0x00, 0x00, 0x00, 0x00, 0x00, 0x01, 0x00,
    0x00, 0x00, 0x01, 0x00, 0x58, 0x00, 0x00, 0x00, 0x00, 0x01, 0x00, 0x00, 0x05, 0x00, 0x00, 0x00,
    0x00, 0x10, 0x00, 0x00, 0x73, 0x00, 0x00, 0x00,
];

/// The hart of a number, of which eight are the first again. It cannot fail, since each early return beside a bus costs
/// its proof a path.
fn hart(number: u8) -> HartId {
    HartId::at(usize::from(number % 8))
}

/// The line that the harts ask for: the first one of memory.
fn line() -> LineAddr {
    line_of(0x10000)
}

/// The image, where this is a configuration for it.
fn image(alloc: Global, config: &Config) -> Result<Image, Fail>
    ensures in_range { IfOk result (λ image. IsInRange config.now) }
    ensures one_hart_each { IfOk result (λ image. image.harts ≡ config.now.harts) }
{
    if config.check().is_err() {
        return Err("no such caches".into());
    }
    let image = load(alloc, &HEADER, config.harts).map_err(|_| "no image")?;
    if image.harts() != config.harts {
        return Err("an image for other harts".into());
    }
    Ok(image)
}

/// A pool from which the caches of a configuration take their slots.
fn pool(alloc: Global, config: &Config) -> Result<Pool, Fail>
    requires { IsInRange config.now }
    ensures { IfOk result (λ pool. Offers pool config.now.harts (config.now.sets * config.now.ways)) }
{
    let slots = u16::from(config.sets) * u16::from(config.ways);
    Ok(Pool::make(alloc, &[slots; 8])?)
}

/// A bus that is ready, and a pool for its caches.
#[derive(Drop)]
struct Rig {
    bus: Bus,
    pool: Pool,
    ghost ready: { IsReady (bus_state bus) },
}

/// The bus before its first event.
fn first_rig(alloc: Global, config: &Config) -> Result<Rig, Fail>
    ensures { IfOk result (λ rig. IsTold rig.pool (bus_state rig.bus)) }
{
    let image = image(alloc, config)?;
    let pool = pool(alloc, config)?;
    let bus = Bus::make(alloc, &image, config)?;
    Ok(Rig { bus, pool })
}

/// Main memory and caches, and the pool that lends these.
#[derive(Drop)]
struct Memory {
    hierarchy: Hierarchy,
    pool: Pool,
    ghost lent: { IsLentTo pool (caches_of hierarchy) },
}

/// Four harts in this mode.
fn four_harts(mode: Mode) -> Config {
    Config {
        harts: 4,
        mode,
        sets: 1,
        ways: 2,
        ..Config::usual()
    }
}

/// Main memory and four caches, of which those of these harts have read the line in a section.
fn read_by(alloc: Global, mode: Mode, readers: &[u8]) -> Result<Memory, Fail>
    ensures { IfOk result (λ memory. IsCoherent (shown_copies memory.pool memory.hierarchy)) }
{
    let config = four_harts(mode);
    let image = image(alloc, &config)?;
    let pool = pool(alloc, &config)?;
    let hierarchy = Hierarchy::make(alloc, &image, &config)?;
    let mut memory = Memory { hierarchy, pool };
    for reader in readers {
        if !read_in_section(&mut memory, hart(*reader)) {
            return Err("a line that is not there".into());
        }
    }
    Ok(memory)
}

/// A hart reads the line in its section, where that may be.
fn read_in_section(memory: &mut Memory, hart: HartId) -> bool
    requires { IsCoherent (shown_copies memory.old.pool memory.old.hierarchy) }
    ensures { IsCoherent (shown_copies memory.new.pool memory.new.hierarchy) }
{
    let line = line();
    let hierarchy = &mut memory.hierarchy;
    if usize::from(hart.number) >= hierarchy.harts() || !hierarchy.has_in_memory(line) {
        return false;
    }
    if !hierarchy.cache(hart).room(line) {
        return false;
    }
    hierarchy.serve(&mut memory.pool, hart, line, Need::Read);
    hierarchy.mark(hart, line, Need::Read);
    true
}

/// Four agents, of which that of hart 1 was told of hart 0 where this says so.
#[tactic(auto, using(bus_agent::proofs::Laws::Agents::none_raised_more, bus_agent::proofs::Laws::Agents::few_armed_more))]
fn agents(alloc: Global, mode: Mode, told: bool) -> Result<Vec<Agent>, Fail>
    ensures none_raised { IfOk result (λ agents. (h : ℕ) → (agent_at agents.items h).raised ≡ None) }
    ensures few_armed { IfOk result (λ agents. (h : ℕ) → (agent_at agents.items h).armed ≤ 15) }
{
    let mut agents = Vec::with_capacity(alloc, 4)?;
    for number in 0..4 {
        agents.push(agent(alloc, mode, HartId::at(number), told && number == 1)?)?;
    }
    Ok(agents)
}

/// A hart's agent, told of hart 0 where this says so.
fn agent(alloc: Global, mode: Mode, hart: HartId, told: bool) -> Result<Agent, Fail>
    ensures none_raised { IfOk result (λ agent. agent.raised ≡ None) }
    ensures not_armed { IfOk result (λ agent. agent.armed ≡ 0) }
{
    let mut agent = Agent::make(alloc)?;
    agent.open_attempt(mode, hart);
    if told {
        agent.tell(HartId::at(0));
    }
    Ok(agent)
}

/// No cache has a line twice, as its type says.
fn well_formed(hierarchy: &Hierarchy)
    requires { length (caches_of hierarchy.now) ≤ 8 }
    ensures { (h : ℕ) → h < length (caches_of hierarchy.now) →
        IsWellFormed (slotted_at (caches_of hierarchy.now) h).ways
        (slotted_at (caches_of hierarchy.now) h).residency }
{
    for number in 0..hierarchy.harts() {
        hierarchy.cache(HartId::at(number)).room(line());
    }
}

/// The bus of four harts that have asked for nothing yet. In the plain mode none has read the line, nor was told.
fn made(alloc: Global, mode: Mode, readers: &[u8], told: bool) -> Result<Rig, Fail>
    ensures { IfOk result (λ rig. IsTold rig.pool (bus_state rig.bus)) }
{
    match mode {
        Mode::Plain => return first_rig(alloc, &four_harts(mode)),
        Mode::Sle | Mode::Tlr => (),
    }
    let Memory { hierarchy, pool } = read_by(alloc, mode, readers)?;
    let agents = agents(alloc, mode, told)?;
    if hierarchy.harts() != 4 || agents.len() != 4 {
        return Err("harts without a cache".into());
    }
    well_formed(&hierarchy);
    let bus = Bus {
        mode,
        hierarchy,
        agents,
        order: Order::new(),
    };
    Ok(Rig { bus, pool })
}

/// A hart asks for the line, where it may.
fn ask(rig: &mut Rig, hart: HartId, need: Need) -> bool
    requires { IsTold rig.old.pool (bus_state rig.old.bus) }
    ensures { IsTold rig.new.pool (bus_state rig.new.bus) }
{
    events::ask_for(rig, hart, line(), need)
}

/// Whether a hart's cache has room for a line.
fn has_room(rig: &Rig, hart: HartId, line: LineAddr) -> bool
    requires { hart.number < length (bus_state rig.now.bus).agents }
    ensures { result ≡ has_room_in (bus_state rig.now.bus).copies hart.number line.number }
{
    rig.bus.hierarchy.cache(hart).room(line)
}

/// A hart has raised a request.
fn raise(agents: &mut Vec<Agent>, request: Request)
    ensures { agents.new.items ≡ with_agent agents.old.items request.hart.number
        (record (agent_at agents.old.items request.hart.number) { raised = Some (numbered request) }) }
{
    if let Some(agent) = agents.get_mut(usize::from(request.hart.number)) {
        agent.raise(request);
    }
}

/// What Order says, under the policy of the mode, or nothing where the hart is not there.
fn order(rig: &mut Rig, hart: HartId) -> Option<Outcome>
    requires { IsTold rig.old.pool (bus_state rig.old.bus) }
    ensures { IsTold rig.new.pool (bus_state rig.new.bus) }
{
    let bus = &mut rig.bus;
    if usize::from(hart.number) >= bus.agents.len() {
        return None;
    }
    match bus.mode {
        Mode::Plain => Some(bus.order(hart, &SlePolicy)),
        Mode::Sle => Some(bus.order(hart, &SlePolicy)),
        Mode::Tlr => Some(bus.order(hart, &TlrPolicy)),
    }
}

/// Asks for the line for a hart, where it may, and tells what Order says then.
fn asks(rig: &mut Rig, hart: HartId, need: Need) -> Option<Outcome>
    requires { IsTold rig.old.pool (bus_state rig.old.bus) }
    ensures { IsTold rig.new.pool (bus_state rig.new.bus) }
{
    if ask(rig, hart, need) {
        order(rig, hart)
    } else {
        None
    }
}

/// Whether a hart's cache has a bit.
fn is_marked(rig: &Rig, hart: HartId) -> bool {
    usize::from(hart.number) < rig.bus.hierarchy.harts() && rig.bus.hierarchy.cache(hart).marked()
}

/// A marker that a hart sends.
fn marker(from: u8) -> Message {
    Message::Marker { from: hart(from) }
}

/// Takes the oldest message of a hart.
fn message(rig: &mut Rig, hart: HartId) -> Option<Message> {
    let agents = &mut rig.bus.agents;
    if usize::from(hart.number) >= agents.len() {
        return None;
    }
    take_message(agents, hart)
}
