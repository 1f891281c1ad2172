//! The top call of the laboratory: the words of a command line, done over a shelf of files and two sinks.
//!
//! It stands on the devices of `el_io`, the words of `lab_words`, what `lab` tells of a run, its text in `lab_text`,
//! `lab_tables` and `lab_page`, and the schedules of `lab_run`. [`laboratory`] does what the words ask for. Its contract says
//! which files a command may change; which status a command ends with is in clauses of the calls that it makes.
//!
//! Where a doc comment names no other source, its rule is this project's profile.
#![tactic(auto)]

mod files;
mod recorded;
mod refusal;
mod running;
mod shows;
mod status;
mod stop;
mod tables;
mod top_call;
mod waiting;

pub use status::Status;
pub use top_call::{laboratory, perform};
