//! What a hart has at the bus beside its cache: its agent, and the calls on the agents of all harts.
//!
//! It stands on `bus_order`, `mail`, `defer_list` and `stamp`, of which an agent has its parts, and on the words of
//! `el_model`. An [`Agent`] is seen as a record whose fields are those of the definition's hart, and each call as a
//! function on such a record, in `specs/Agent.antt`. Which call an event of the bus makes, and with what, the bus says.
//! Only [`Agent::make`] and [`new_agents`] take memory.
//!
//! The ideas of markers, probes and timestamps are those of R. Rajwar and J. R. Goodman, 'Transactional Lock-Free
//! Execution of Lock-Based Programs', ASPLOS 2002; where a doc comment names no other source, its rule is this
//! project's profile.
#![tactic(auto)]

mod agent;
mod agents;
mod forwarding;

pub use agent::Agent;
pub use agents::{
    claim, close_attempt, come_behind, forget, give_up, hear, new_agents, note_armed, open_attempt,
    post, raise, see, take_message, unraise,
};
pub use forwarding::forward_all;
