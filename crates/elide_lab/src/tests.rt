//! The top call over files in memory, and examples of the crates of the laboratory, worked by hand.
//!
//! They stand here, and not in those crates, since the tests of a crate prove all of it once more.

mod asserts;
mod commands;
mod following;
mod names;
mod pages;
mod schedules;
mod tables;
mod texts;
