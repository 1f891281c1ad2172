//! One instruction of a hart over any memory that gives words with permission.
//!
//! The crate stands on the instructions of `rv_alu` and the lines of `el_base`, and no call of it takes
//! memory. A [`Port`] tells which lines it permits to be read or written, gives aligned words and stores
//! up to a word. [`run_insn`] runs one instruction over it, or says which line it needs before anything
//! has changed; it answers with the execution that `rv_alu` defines over the port's bytes. [`run_action`]
//! does so where it is known already what the instruction does. [`written`] tells beforehand which bytes a
//! write call appends to the output.
//!
//! Where a doc comment names no other source, its rule is this project's profile.
#![tactic(auto)]

mod ended;
mod port;
mod run;
mod want;
mod words;
mod write_call;

pub use ended::Ended;
pub use port::Port;
pub use run::{run_action, run_insn};
pub use write_call::written;

#[cfg(test)]
mod tests;
