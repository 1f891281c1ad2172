//! Worked files: traces, certificates, generated programs, symbols, and the devices that files are read from and written to.
//!
//! The crate stands on `trace_file`, `run_check`, `workload`, `elf_symbols` and `el_io`, and holds nothing but tests of their public calls. It
//! is a crate of its own since the tests of a crate prove all of that crate once more.
#![tactic(auto)]

#[cfg(test)]
mod asserts;
#[cfg(test)]
mod certificates;
#[cfg(test)]
mod devices;
#[cfg(test)]
mod programs;
#[cfg(test)]
mod symbols;
#[cfg(test)]
mod traces;
