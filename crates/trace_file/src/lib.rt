//! Traces: the configuration of a run, the events that it made and their outcomes, as a file.
//!
//! It stands on `el_base`, `chronicle`, `el_io`, `file_numbers`, `byteorder` and `thiserror`. The form
//! is this project's own, in two versions: 22 bytes of head, and then one byte an event, in version 2
//! with the outcome behind it, of 1 to 9 bytes. A trace has one spelling, and each file that is no
//! spelling has one first fault, read from left to right. `read_trace` answers one or the other for
//! every string of bytes, and `write_trace` writes the spelling in version 2.
//!
//! Where a doc comment names no other source, its rule is this project's profile.
#![tactic(auto)]

mod codes;
mod content;
mod entries;
mod fault;
mod fields;
mod head;
mod outcome_bytes;
mod outcome_fields;
mod reading;
mod theorems;
mod writing;

pub use content::{Events, Trace};
pub use fault::{FaultKind, TraceFault};
pub use head::MAX_FILE_BYTES;
pub use outcome_bytes::{SpelledOutcome, outcome_spelling};
pub use reading::read_trace;
pub use theorems::grammar;
pub use writing::write_trace;
