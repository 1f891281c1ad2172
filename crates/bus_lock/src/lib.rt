//! A lock round a value that keeps a history, whose passes know the history that they have seen.
//!
//! It stands on `el_base`, for what a history is, and on the kit's `atomic_table`. A [`BusLock`] keeps
//! one value. Who has a [`Pass`] may hold the value: it waits for its turn, changes the value by one
//! entry at most, and gives it back. What a pass has seen begins the history that it finds, so nothing
//! that was made under the lock is ever lost, and a pass counts the places of the entries that were made
//! under it. A pass splits into halves for two threads, and the halves join again; who has the only pass
//! closes the lock, and has the value with exactly the history that the pass has seen.
//!
//! Inside is a ticket lock: a word for the next ticket, one for the ticket that is served, and one for
//! the length of the history. It is safe code. It promises nothing of time, of fairness or of the order
//! in which passes are served, nor that a call that waits ever returns.
//!
//! Where a doc comment names no other source, its rule is this project's profile.
#![tactic(auto)]

mod halves;
mod held;
mod lends;
mod lock;
mod pass;
mod rule;
mod turns;
mod view;

pub use held::Held;
pub use lock::BusLock;
pub use pass::Pass;

#[cfg(test)]
mod tests;
