//! The worked command lines of both programs: words, with the command that they are or the fault that they have.
//!
//! The crate stands on `command_line` and `lab_words` and holds nothing but tests. It is a crate of its own since the tests
//! of a crate prove all of that crate once more.
#![tactic(auto)]

#[cfg(test)]
mod laboratory;
#[cfg(test)]
mod program;
