//! What a hart keeps beside the bus: its live or armed section, the place of its last LR, its predictor, its fallback
//! flag and its count of tries.
//!
//! It stands on `section_ctl` and `pair_table`, on the actions and swaps of `step_rules`, and on the words of
//! `el_model`. Contracts see a [`HartState`] as an `OwnState` (`specs/Own.antt`), and each call as one equation on it
//! (`specs/Deeds.antt`). That an `OwnState` which is the definition's before such a deed is the definition's after it
//! stands as a lemma of each deed in `proofs/Laws/Harts.antt`. Only [`HartState::make`] takes memory.
//!
//! The ideas are those of R. Rajwar and J. R. Goodman, 'Speculative Lock Elision', MICRO 2001, and
//! 'Transactional Lock-Free Execution of Lock-Based Programs', ASPLOS 2002; where a doc comment names no
//! other source, its rule is this project's profile.
#![tactic(auto)]

mod reserves;
mod state;

pub use reserves::is_load_reserved;
pub use state::HartState;
