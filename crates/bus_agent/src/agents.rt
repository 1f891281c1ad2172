//! One of the agents of all harts is changed, or each of them. `post`, `unraise` and `see` change none where the hart
//! is not there; the other calls need it.

ghost use Rattle.std.specs.Prelude.{◌≡◌, ◌<◌, ℕ, IfOk, None, Some, length, replicate};
ghost use Rattle.std.specs.Option.{option_map};
ghost use Rattle.bus_agent.specs.Agent.{
  agent_at,
  agent_behind,
  agent_claiming,
  agent_closed,
  agent_forgetting,
  agent_heard,
  agent_noted,
  agent_opened,
  agent_posted,
  agent_seeing,
  agent_served,
  agent_taken,
  new_agent,
  with_agent,
};
ghost use Rattle.bus_order.specs.Order as order;
ghost use Rattle.mail.specs.Mailbox.{numbered, oldest};
ghost use Rattle.stamp.specs.Stamps.{numbered_stamp};

use crate::agent::Agent;
use bus_order::Request;
use el_base::{HartId, Mode, NoMemory};
use mail::Message;
use stamp::Stamp;
use std::alloc::Global;

/// The agents of so many harts that have asked for nothing yet, as they are before the first event.
pub fn new_agents(alloc: Global, harts: u8) -> Result<Vec<Agent>, NoMemory>
    ensures { IfOk result (λ agents. agents.items ≡ replicate harts new_agent) }
{
    let mut agents = Vec::with_capacity(alloc, usize::from(harts))?;
    for _hart in 0..harts {
        agents.push(Agent::make(alloc)?)?;
    }
    Ok(agents)
}

/// The hart of a request raises it, as a step of it misses its line.
pub fn raise(agents: &mut Vec<Agent>, request: Request)
    requires { request.hart.number < length agents.old.items }
    ensures { agents.new.items ≡ with_agent agents.old.items request.hart.number
        (record (agent_at agents.old.items request.hart.number) { raised = Some (order.numbered request) }) }
{
    let agent = &mut agents[usize::from(request.hart.number)];
    agent.raise(request);
}

/// A hart holds no line any more, as it takes its next step.
pub fn give_up(agents: &mut Vec<Agent>, hart: HartId)
    requires { hart.number < length agents.old.items }
    ensures { agents.new.items ≡
        with_agent agents.old.items hart.number (record (agent_at agents.old.items hart.number) { held_line = None }) }
{
    let agent = &mut agents[usize::from(hart.number)];
    agent.give_up();
}

/// In lock removal an attempt of a hart opens, where none is open.
pub fn open_attempt(agents: &mut Vec<Agent>, mode: Mode, hart: HartId)
    requires { hart.number < length agents.old.items }
    ensures { agents.new.items ≡ with_agent agents.old.items hart.number
        (agent_opened mode hart.number (agent_at agents.old.items hart.number)) }
{
    let agent = &mut agents[usize::from(hart.number)];
    agent.open_attempt(mode, hart);
}

/// The open attempt of a hart closes, where one is open.
pub fn close_attempt(agents: &mut Vec<Agent>, hart: HartId)
    requires hart_exists { hart.number < length agents.old.items }
    requires clock_below_the_last { (agent_at agents.old.items hart.number).clock < u64.MAX }
    requires seen_below_the_last { (agent_at agents.old.items hart.number).seen < u64.MAX }
    ensures { agents.new.items ≡
        with_agent agents.old.items hart.number (agent_closed (agent_at agents.old.items hart.number)) }
{
    let agent = &mut agents[usize::from(hart.number)];
    agent.close_attempt();
}

/// A hart is noted as armed, with the number of instructions that its section has run; 0 where it is not.
pub fn note_armed(agents: &mut Vec<Agent>, hart: HartId, count: u8)
    requires { hart.number < length agents.old.items }
    ensures { agents.new.items ≡
        with_agent agents.old.items hart.number (agent_noted count (agent_at agents.old.items hart.number)) }
{
    let agent = &mut agents[usize::from(hart.number)];
    agent.note_armed(count);
}

/// A message comes into the mailbox of a hart.
pub fn post(agents: &mut Vec<Agent>, to: HartId, message: Message)
    ensures { agents.new.items ≡
        with_agent agents.old.items to.number (agent_posted (numbered message) (agent_at agents.old.items to.number)) }
{
    if let Some(agent) = agents.get_mut(usize::from(to.number)) {
        agent.post(message);
    }
}

/// All harts forget what came with an origin's request, as that is served.
#[tactic(auto, using(crate::proofs::EachAgent::none_changed, crate::proofs::EachAgent::one_changed))]
pub fn forget(agents: &mut Vec<Agent>, origin: HartId)
    ensures count { length agents.new.items ≡ length agents.old.items }
    ensures each { (g : ℕ) → g < length agents.old.items →
        agent_at agents.new.items g ≡ agent_forgetting origin.number (agent_at agents.old.items g) }
{
    for number in 0..agents.len() {
        let agent = &mut agents[number];
        agent.forget(origin);
    }
}

/// The hart of a request that is served is behind none any more, and holds its line where it has no live section.
pub fn claim(agents: &mut Vec<Agent>, request: Request, live: bool)
    requires { request.hart.number < length agents.old.items }
    ensures { agents.new.items ≡
        with_agent agents.old.items request.hart.number
        (agent_claiming live request.line.number (agent_served (agent_at agents.old.items request.hart.number))) }
{
    let agent = &mut agents[usize::from(request.hart.number)];
    agent.be_served();
    if !live {
        agent.hold(request.line);
    }
}

/// A hart has no raised request any more, as that takes its place in the order.
pub fn unraise(agents: &mut Vec<Agent>, hart: HartId)
    ensures { agents.new.items ≡
        with_agent agents.old.items hart.number (record (agent_at agents.old.items hart.number) { raised = None }) }
{
    if let Some(agent) = agents.get_mut(usize::from(hart.number)) {
        agent.take_raised();
    }
}

/// The oldest message is taken out of the mailbox of a hart; `None` comes where that is empty.
pub fn take_message(agents: &mut Vec<Agent>, hart: HartId) -> Option<Message>
    requires { hart.number < length agents.old.items }
    ensures oldest { option_map numbered result ≡ oldest (agent_at agents.old.items hart.number).mail }
    ensures rest { agents.new.items ≡
        with_agent agents.old.items hart.number (agent_taken (agent_at agents.old.items hart.number)) }
{
    let agent = &mut agents[usize::from(hart.number)];
    agent.next()
}

/// A hart knows from now on that another is before it, as it takes the marker of that one.
pub fn come_behind(agents: &mut Vec<Agent>, hart: HartId, other: HartId)
    requires { hart.number < length agents.old.items }
    ensures { agents.new.items ≡
        with_agent agents.old.items hart.number (agent_behind other.number (agent_at agents.old.items hart.number)) }
{
    let agent = &mut agents[usize::from(hart.number)];
    agent.come_behind(other);
}

/// A hart is told of an origin, and sees a stamp, if there is one.
pub fn hear(agents: &mut Vec<Agent>, hart: HartId, origin: HartId, stamp: Option<Stamp>)
    requires { hart.number < length agents.old.items }
    ensures { agents.new.items ≡ with_agent agents.old.items hart.number
        (agent_heard origin.number (option_map numbered_stamp stamp) (agent_at agents.old.items hart.number)) }
{
    let agent = &mut agents[usize::from(hart.number)];
    agent.tell(origin);
    agent.see(stamp);
}

/// A hart sees a stamp, if there is one.
pub fn see(agents: &mut Vec<Agent>, hart: HartId, stamp: Option<Stamp>)
    ensures { agents.new.items ≡ with_agent agents.old.items hart.number
        (agent_seeing (option_map numbered_stamp stamp) (agent_at agents.old.items hart.number)) }
{
    if let Some(agent) = agents.get_mut(usize::from(hart.number)) {
        agent.see(stamp);
    }
}
