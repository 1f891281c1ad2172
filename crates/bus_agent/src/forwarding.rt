//! A probe goes on to the harts that are before the one that has it.

ghost use Rattle.std.specs.Prelude.{◌≡◌, ◌<◌, ◌≤◌, length};
ghost use Rattle.bus_agent.specs.Agent.{agent_at, with_agent};
ghost use Rattle.bus_agent.specs.Forwarding.{AreForwarded, agent_forwarded};

use crate::agent::Agent;
use crate::agents::post;
use el_base::HartId;
use mail::Message;

/// A probe that a hart has taken is forwarded to the harts that are before it, but to its origin.
#[tactic(auto, using(crate::proofs::EachAgent::none_changed, crate::proofs::EachForwarded::one_forwarded, crate::proofs::EachForwarded::all_forwarded))]
pub fn forward_all(agents: &mut Vec<Agent>, hart: HartId, origin: HartId)
    requires hart_exists { hart.number < length agents.old.items }
    requires few { length agents.old.items ≤ 8 }
    ensures { AreForwarded (agent_at agents.old.items hart.number).upstream origin.number
        agents.old.items agents.new.items }
{
    for number in 0..agents.len() {
        forward_one(agents, hart, origin, HartId::at(number));
    }
}

/// A probe is forwarded to a hart, if that is before another and is not the origin.
#[tactic(auto, using(crate::proofs::EachForwarded::not_forwarded))]
fn forward_one(agents: &mut Vec<Agent>, hart: HartId, origin: HartId, to: HartId)
    requires { hart.number < length agents.old.items }
    ensures { agents.new.items ≡ with_agent agents.old.items to.number (agent_forwarded
        (agent_at agents.old.items hart.number).upstream origin.number to.number
        (agent_at agents.old.items to.number)) }
{
    if to != origin && agents[usize::from(hart.number)].is_behind(to) {
        post(agents, to, Message::Probe { origin });
    }
}
