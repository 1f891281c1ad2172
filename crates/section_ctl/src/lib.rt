//! One hart's live section, its armed one, or neither: its checkpoint, its buffered stores and its private run.
//!
//! It stands on `reg_mark` (the views), `write_hold` (the stores), `cache_sets` (the hart's cache), `line_lanes` (words in
//! lines) and `core_step` (an action over a port), and on the laws of `section_view`. A section is seen as a
//! `SectionState`. Its calls ask nothing of the machine's state: their clauses named `shows` say, for every
//! committed state in which the relation `KeepsRun` stands, that it stands after the call, and at the commit
//! that the private run takes effect. Likewise the view of an armed section, with the value that its LR found,
//! keeps `KeepsArmed`, until an SC makes it a live one or it is let go. No instruction is run twice, and only
//! `make` takes memory.
//!
//! The idea is that of R. Rajwar and J. R. Goodman, 'Speculative Lock Elision', MICRO 2001; where a doc
//! comment names no other source, its rule is this project's profile.
#![tactic(auto)]

mod armed;
mod bytes;
mod drain;
mod live;
mod port;
mod private;
mod run;
mod section;

pub use armed::Armed;
pub use live::Live;
pub use section::Section;
