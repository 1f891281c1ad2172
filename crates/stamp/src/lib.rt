//! The order of stamps, and how a hart's clock goes on.
//!
//! It stands on `el_base` alone, and no call of it takes memory. `specs/Stamps.antt` has a stamp as two
//! numbers, with the order; that it is a strict total one is a lemma of `proofs/Laws/StampOrder.antt`.
//!
//! The idea of timestamps that settle conflicts is that of R. Rajwar and J. R. Goodman, 'Transactional
//! Lock-Free Execution of Lock-Based Programs', ASPLOS 2002; the rules are this project's profile.
#![tactic(auto)]

mod order;

pub use el_base::Stamped as Stamp;
pub use order::{less, next_clock};
