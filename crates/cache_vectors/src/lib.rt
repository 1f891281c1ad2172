//! Worked examples of caches, write holds, the memory hierarchy, steps in a cache, sections and what a hart keeps.
//!
//! The crate stands on `cache_sets`, `write_hold`, `coherence`, `cached_step`, `section_ctl` and `hart_state`, and holds nothing
//! but tests of their public calls. It is a crate of its own since the tests of a crate prove all of that crate once more.
#![tactic(auto)]

#[cfg(test)]
mod asserts;
#[cfg(test)]
mod caches;
#[cfg(test)]
mod harts;
#[cfg(test)]
mod hierarchies;
#[cfg(test)]
mod holds;
#[cfg(test)]
mod sections;
#[cfg(test)]
mod steps;
