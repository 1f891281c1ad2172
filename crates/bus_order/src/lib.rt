//! The order of the requests on the bus.
//!
//! It stands on `el_base`, `stamp` and `arrayvec`, and no call of it takes memory. An order is seen as
//! the list of its requests, first to last, and each call as the definition's function on that list, in
//! `specs/Order.antt`. A hart's request is found without a search. What a look-up finds after each call
//! stands as lemmas in `proofs/Laws/LookUps.antt` and `proofs/Laws/Queues.antt`.
//!
//! Where a doc comment names no other source, its rule is this project's profile.
#![tactic(auto)]

mod order;
mod request;

pub use order::Order;
pub use request::Request;
