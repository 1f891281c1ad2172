//! One page about a run: a picture of its sections, waits, bus and losses over the events, and the tables of its locks and
//! lines.
//!
//! It stands on `lab` and `lab_tables`. What is drawn is data first: each section is a [`Piece`] of a lane, from the column
//! of its first event to that of its last one ([`section_pieces`]). Of a run with few sections each piece is drawn by
//! itself; of one with many, those of a lane that begin in one column are one [`Bar`] ([`together`]), which counts each of
//! them. The page is one file of HTML that is XML too, with its style inside and without a script, and every coordinate in
//! it is a whole number.
//!
//! Where a doc comment names no other source, its rule is this project's profile.
#![tactic(auto)]

mod bars;
mod columns;
mod escape;
mod hover;
mod kinds;
mod lanes;
mod page;
mod picture;
mod pieces;
mod rows;
mod scale;
mod style;

pub use bars::{Bar, together};
pub use kinds::{KINDS, Kind};
pub use page::{Run, write_page};
pub use pieces::{Piece, section_pieces};
pub use scale::Scale;
