//! Where a machine can get on: laws of the machine's definition on its single states.
//!
//! An event is progress where there was something to do and nothing to wait for. The ready event of a state is the
//! first that is progress, by ascending hart and then by kind. In lock removal the line that the hart of the least open
//! stamp waits for is served, once the messages about it are delivered and no hart holds it. The functions of this crate
//! do nothing; each says one law, as its contract. Nothing is said of more than one event: neither that a hart comes to its end, nor that it is
//! ever its turn.
#![tactic(auto)]

mod theorems;

pub use theorems::{
    line_of_least_stamp_moves_on, no_section_retains_without_stamps, no_state_is_stuck,
    none_is_ready_where_none_gets_on, ready_event_gets_on,
};
