//! Sets of harts: the origins that a hart was told of, and likewise the harts before it.
//!
//! It stands on `el_base` and `arrayvec`, and no call of it takes memory. A set is seen as the list of
//! its harts' numbers, each once, the last one that was added first, and each call as the definition's
//! function on that list, in `specs/HartSet.antt`. What a look-up finds after each call stands as lemmas
//! in `proofs/Laws/LookUps.antt`.
//!
//! Where a doc comment names no other source, its rule is this project's profile.
#![tactic(auto)]

mod told;

pub use el_base::HartId;
pub use told::Told;
