//! The predictor of one hart: how far each place in the program may be trusted to be a lock's acquire
//! whose release comes soon.
//!
//! It stands on std alone, and no call of it takes memory. A [`PairTable`] is seen as the predictor of
//! `specs/Predictor.antt`: 64 counters, and at most one watch. It says what is learnt, and nothing of
//! whether that helps. The idea of predicting which stores are a silent pair is that of R. Rajwar and
//! J. R. Goodman, 'Speculative Lock Elision', MICRO 2001; the counters and the watch are this project's
//! profile.
#![tactic(auto)]

mod seen;
mod table;
mod verdict;

pub use seen::Seen;
pub use table::PairTable;
pub use verdict::Verdict;
