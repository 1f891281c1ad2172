//! The history of a machine: each event that was made, with its outcome, in the order in which they
//! were made.
//!
//! It stands on `el_base`. A history is seen as its list of entries and its number of places. All
//! places are taken when it is made, and no other call takes memory. Entries are kept in rows of eight
//! bytes, and the outcomes that do not fit there in a list beside them; what they count for is kept as
//! they come. What is read from a history is defined over the whole list of entries: the serial order is
//! a concatenation over them, and a tally the sum of what each counts for. It says nothing of whether an
//! outcome is right.
//!
//! Where a doc comment names no other source, its rule is this project's profile.
#![tactic(auto)]

mod counts;
mod entries;
mod history;
mod rows;
mod tally;

pub use history::History;
pub use tally::Tally;
