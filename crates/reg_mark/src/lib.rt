//! A hart's view with at most one checkpoint of it: what a section runs on, and what it goes back to.
//!
//! It stands on `el_base` and `rv_alu`, and no call of it takes memory. Contracts see a [`Marked`] by
//! its two fields, and each call as the definition's function on them, in `specs/Marks.antt`. What the
//! committed and the present view are after each call stands as lemmas in `proofs/Laws/Views.antt`.
//!
//! Where a doc comment names no other source, its rule is this project's profile.
#![tactic(auto)]

mod marked;

pub use marked::Marked;
