//! A run, gone over back and forth.
//!
//! The crate stands on the histories of `chronicle` and the plain shared memory of `rv_flat`. A
//! [`Timeline`] shows the committed state at any place of a run: what the program comes to on plain
//! shared memory in the serial order of the events up to there. It goes forward by running instructions,
//! of which each notes what it overwrites, and back by undoing them.
//!
//! Where a doc comment names no other source, its rule is this project's profile.
#![tactic(auto)]

mod effect;
mod making;
mod theorems;
mod timeline;
mod trail;

pub use machine::Machine;
pub use theorems::shows_what_a_machine_has_committed;
pub use timeline::Timeline;

#[cfg(test)]
mod tests;
