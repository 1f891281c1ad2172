//! The tables of a run: its locks, its lines, and what its trace says of itself.
//!
//! It stands on `lab`. A row is data first ([`LockRow`], [`LineRow`]), each of its numbers a count of `lab` over the
//! sections, swaps and facts of a run; then [`write_table`] lays rows out as text, as JSON or as comma-separated values.
//! What a row shows is said once, by its columns.
//!
//! Where a doc comment names no other source, its rule is this project's profile.
#![tactic(auto)]

mod cells;
mod info;
mod lines;
mod locks;
mod marks;
mod tables;
mod writing;

pub use cells::{Cell, CellText, Column, Row};
pub use info::write_info;
pub use lines::{Beats, LineRow, line_rows};
pub use locks::{LockKind, LockRow, PlainRuns, lock_rows};
pub use writing::write_table;
