//! What the words of a command line ask for.
//!
//! The crate stands on `el_base`, the kinds of `workload` and the kit's `clap`. It knows which words
//! there are, `run`, `replay`, `look`, `find`, `check` and `gen` with their positional words, options and flags, and
//! what they mean: a command with the names of its files and its numbers, and the configuration of its machine. It
//! opens no file and says nothing of what a command does.
//!
//! Where a doc comment names no other source, its rule is this project's profile.
#![tactic(auto)]

mod command;
mod fault;
mod form;
mod matching;
mod numbers;
mod reading;
mod settings;

pub use command::{Command, FindCommand, LookCommand, MAX_TURNS, ReplayCommand, RunCommand};
pub use fault::WordsFault;
pub use reading::read_words;
pub use workload::Work;
