//! Worked examples of words, histories and schedules, and of the parts of a cache, a bus and a section.
//!
//! The crate stands on the crates that hold these and holds nothing but tests of their public calls. It is a crate of its own
//! since the tests of a crate prove all of that crate once more.
#![tactic(auto)]

#[cfg(test)]
mod asserts;
#[cfg(test)]
mod deferred;
#[cfg(test)]
mod harts;
#[cfg(test)]
mod histories;
#[cfg(test)]
mod lanes;
#[cfg(test)]
mod letters;
#[cfg(test)]
mod mailboxes;
#[cfg(test)]
mod marks;
#[cfg(test)]
mod orders;
#[cfg(test)]
mod pairs;
#[cfg(test)]
mod policies;
#[cfg(test)]
mod schedules;
#[cfg(test)]
mod stamps;
#[cfg(test)]
mod times;
#[cfg(test)]
mod words;
