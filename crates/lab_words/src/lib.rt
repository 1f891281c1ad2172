//! What the words of a command line ask of the laboratory.
//!
//! The crate stands on `el_base` and the kit's `clap`, whose words it takes for `--help`, `--version` and what is wrong
//! with a command line. It opens no file and says nothing of what a command does.
//!
//! Where a doc comment names no other source, its rule is this project's profile.
#![tactic(auto)]

mod command;
mod fault;
mod form;
mod numbers;
mod reading;

pub use command::{Command, Layout, Range, RunCommand, Schedule, ShowCommand, Traced};
pub use fault::WordsFault;
pub use reading::read_words;
