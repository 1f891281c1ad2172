//! The top call: the words of a command line, done over a shelf of files and two sinks.
//!
//! It stands on the devices of `el_io`, the words of `command_line`, the images of `elf_image` and of
//! `workload`, the machine with its drivers, the traces of `trace_file`, the timelines of `step_back` and the
//! text of `report`.
//! `specs/Jobs.antt` says what the program answers to its words over its files, and [`tool`] promises
//! that exactly this is put and written. `doing` makes what the words ask for, a run that has ended or
//! an image, `telling` puts and writes it, and `refusal` has every line of a refusal.
//!
//! Where a doc comment names no other source, its rule is this project's profile.
#![tactic(auto)]

mod difference;
mod doing;
mod ended;
mod ending;
mod looking;
mod made;
mod refusal;
mod status;
mod stop;
mod telling;
mod theorems;
mod top_call;

pub use status::Status;
pub use theorems::replay_repeats_run;
pub use top_call::tool;
