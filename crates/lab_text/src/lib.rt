//!
//! It stands on `lab` and `machine`. What an event did is data first: [`Items::of`] gives all of it as a list, which is proved to be the
//! definition's (`specs/Items.antt`), so it is a function of the event, its outcome and what was seen before and after it. The
//! printers write that list, as a line of text or as an object of JSON, behind what a string already has. A line of
//! memory is shown by the address of its first byte. The printers take memory for the text alone.
//!
//! Where a doc comment names no other source, its rule is this project's profile.
#![tactic(auto)]

mod about;
mod events;
mod items;
mod json;
mod names;
mod phrases;
mod state;
mod steps;
mod telling;
mod waits;
mod words;

pub use about::{did_something, is_about};
pub use events::write_event;
pub use items::{Item, Items};
pub use json::{Member, write_event_json};
pub use names::Names;
pub use phrases::Phrase;
pub use state::write_state;
pub use waits::write_wait;
