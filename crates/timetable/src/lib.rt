//! What a run costs in units of work, and who lost how often to whom.
//!
//! It stands on `el_base` and `chronicle`, and no call of it takes memory. The units are a stated
//! convention (`specs/Costs.antt`): they are no cycles, and no claim on time rests on them. A table is
//! seen as one row for each hart, and what a row says is defined over the whole history by sums over its
//! entries and its places, in `specs/Table.antt`; the code makes one pass with counters.
//!
//! Where a doc comment names no other source, its rule is this project's profile.
#![tactic(auto)]

mod hart_times;
mod times;

pub use times::{Times, tabulate};
