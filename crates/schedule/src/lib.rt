//! Which events another schedule than the round robin makes: drawn from a number, or read from a text.
//!
//! It stands on `el_base`. [`drawn_at`] gives the event at a place of the sequence that a seed begins, so two runs with one
//! seed make the same events. [`read_order`] reads a list of events from a text and takes memory for it.
//!
//! Where a doc comment names no other source, its rule is this project's profile.
#![tactic(auto)]

mod drawing;
mod generator;
mod line;
mod text;

pub use drawing::drawn_at;
pub use generator::draw;
pub use text::{OrderFault, read_order};
