//! The words that every crate of the simulator speaks: harts and sets of harts, lines of memory, the
//! configuration of a machine, its events with their outcomes, and the one answer that says that memory ran out.
//!
//! It stands on nothing but std, and no call of it takes memory. Contracts see a hart and a line by
//! their `number`, a set of harts by the test `has_hart` on hart numbers, the losers of an event by
//! the map `beaten_by`, the harts that it let go by the map `count_in`, and anything that keeps a
//! history by its list of entries. Definitions make harts, lines, losers and freed harts of plain
//! numbers by `hart_id`, `line_addr`, `losers_of` and `freed_of`. The number of
//! harts, the bytes of a line and the ranges of a configuration stand here and nowhere else. It says
//! what the words are, and nothing of what a machine does.
//!
//! Where a doc comment names no other source, its rule is this project's profile.
#![tactic(auto)]

mod config;
mod entries;
mod events;
mod file_fault;
mod freed;
mod hart_id;
mod harts;
mod kept;
mod line;
mod losers;
mod nibbles;
mod no_memory;
mod numbered;
mod outcomes;
mod stamped;

pub use config::{Config, ConfigFault, MAX_STEPS, Mode};
pub use entries::{Chronicled, Entry};
pub use events::{Event, Kind};
pub use file_fault::{FileFault, FormatFault};
pub use freed::Freed;
pub use hart_id::{HartId, MAX_HARTS};
pub use harts::Harts;
pub use kept::Kept;
pub use line::{LINE_BYTES, LineAddr, line_of};
pub use losers::Losers;
pub use no_memory::NoMemory;
pub use numbered::Numbered;
pub use outcomes::{Cause, Need, Outcome, Why};
pub use stamped::Stamped;
