//! The machine: a program on several harts, one event at a time, with a history of what came of each.
//!
//! It stands on `engine` (the bus with the caches, the harts and the output), on the history of `chronicle` and on
//! the definition of `el_model`. A machine is seen as its story: the program, the configuration, and the events
//! made so far with their outcomes. Whatever the events, each outcome is the one that the definition gives, and
//! registers, memory and output are those of one run of the program on plain shared memory, in the serial order
//! that the history shows. `make` takes all memory of a run: main memory and the image that it was copied from, the
//! caches, the rows of the history, and room for the output. No event is refused. `follow` makes events that are given,
//! `follow_recorded` also says where an outcome is not the recorded one, and `history_of_run` tells what comes of a run
//! by them; of all calls that one and `make` alone take memory.
//!
//! Where a doc comment names no other source, its rule is this project's profile.
#![tactic(auto)]

mod copies;
mod fault;
mod following;
mod lent;
mod machine;
mod ready;
mod theorems;

pub use engine::{Armed, Asked, Live};
pub use fault::MakeFault;
pub use following::{follow, follow_recorded, history_of_run};
pub use lent::Lent;
pub use machine::Machine;
pub use theorems::{
    continued_story_reaches_the_state_after, openings_tell_beginnings, outcomes_can_be_recorded,
    stories_go_on_event_by_event,
};

#[cfg(test)]
mod tests;
