//! Runs by other schedules than the round robin: drawn from a number, or listed.
//!
//! It stands on `machine` and on the events of `schedule`, and takes no memory. [`run_drawn`] makes the events that a
//! seed draws until every hart has stopped or no step is left, so two runs with one seed are one
//! ([`one_run_of_a_seed`]); [`run_listed`] makes those of a list, as many as there are steps.
//!
//! Where a doc comment names no other source, its rule is this project's profile.
#![tactic(auto)]

mod drawn;
mod listed;
mod theorems;

pub use drawn::run_drawn;
pub use listed::run_listed;
pub use theorems::one_run_of_a_seed;
