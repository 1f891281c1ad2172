//! Drivers: which events a machine is made to do, and in which order.
//!
//! They stand on `machine`. `round_robin` runs a machine to its end, or to its last step; `by_threads` has
//! drivers on threads make turns of it. Each makes exactly the events that its contract names. `follow` and
//! `follow_recorded` of `machine`, which make events that are given, are passed on.
//!
//! Where a doc comment names no other source, its rule is this project's profile.
#![tactic(auto)]

mod round;
mod rounds;
mod theorems;
mod threads;

pub use machine::{Machine, MakeFault, follow, follow_recorded};
pub use rounds::round_robin;
pub use theorems::one_round_robin;
pub use threads::by_threads;

#[cfg(test)]
mod tests;
#[cfg(test)]
mod thread_tests;
