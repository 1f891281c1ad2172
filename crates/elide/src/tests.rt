//! The worked examples of the program: words and files, with the status that the top call ends with and the bytes that it
//! puts, over devices in memory.
//!
//! Their values were worked out by hand from the RISC-V manual, the ELF specification and this project's profile, and never
//! taken from what the program printed.

mod asserts;
mod certificates;
mod devices;
mod generated;
mod linked;
mod refusals;
mod runs;
mod spelled;
mod support;
mod timelines;
mod traces;
