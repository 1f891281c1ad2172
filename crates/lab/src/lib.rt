//! What a run tells: its sections, its locks, its lines, and what each event did.
//!
//! It stands on `machine`. A run is followed once, event by event, and everything that is told of it is a definition
//! over its story: a section is told from the event that began it to the first event that ended it (`specs/Tries.antt`),
//! and each number of a table is a count over those sections or over the history.
//!
//! Where a doc comment names no other source, its rule is this project's profile.
#![tactic(auto)]

mod follow;
mod line_rows;
mod lines;
mod lock_rows;
mod locks;
mod releases;
mod showing;
mod swaps;
mod theorems;
mod tries;
mod waits;

pub use follow::{Watched, watch};
pub use line_rows::{LineCount, LineCounts, line_counts, lines_of};
pub use lines::{Fact, LineFact};
pub use lock_rows::{AcquireCounts, Tallies, losses_to, lost_instr, plain_swaps, tally_acquires};
pub use locks::acquires_of;
pub use machine::Machine;
pub use releases::{Parted, part_releases};
pub use showing::{Letters, Shown, Sight, What, show};
pub use swaps::{NotElided, PlainSwap};
pub use theorems::{parts_sum_to_all, rows_sum_to_the_report, sections_are_those_of_the_report};
pub use timetable::{Times, tabulate};
pub use tries::{Acquire, Ended, Tries, Try};
pub use waits::{Wait, wait_of};
