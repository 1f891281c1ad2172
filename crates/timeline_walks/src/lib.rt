//! Walks of a timeline, back and forth at random, beside a fresh run of each prefix.
//!
//! The crate stands on `step_back`, `machine`, `rv_flat`, the drawn events of `schedule` and the programs of `workload`. It holds
//! nothing but a test of their public calls. It is a crate of its own since the tests of a crate prove all of that crate once more, and
//! so that nothing above `step_back` waits for `schedule` and `workload`.
#![tactic(auto)]

#[cfg(test)]
mod walks;
