//! Who wins where a request meets another hart's section.
//!
//! It stands on `stamp`, and no call of it takes memory. In speculative lock elision (R. Rajwar and
//! J. R. Goodman, 'Speculative Lock Elision', MICRO 2001) the request wins; in lock removal (the same,
//! 'Transactional Lock-Free Execution of Lock-Based Programs', ASPLOS 2002) the earlier stamp does.
//! Whoever is generic over a policy sees its answers as the trait's ghost member `beats`, a test on two
//! stamps as `specs/Stamps.antt` of `stamp` has them.
//!
//! Where a doc comment names no other source, its rule is this project's profile.
#![tactic(auto)]

mod policy;
mod sle;
mod tlr;

pub use policy::Policy;
pub use sle::SlePolicy;
pub use stamp::Stamp;
pub use tlr::TlrPolicy;
