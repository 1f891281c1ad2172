//! Numbers of four bytes in a file, the lowest first.
//!
//! It stands on `byteorder` and `el_base`, and no call of it takes memory. `specs/Numbers.antt` has the
//! number at a place of a file. That four bytes are those of their number, and that such a number is below
//! 2³², are lemmas of `proofs/Laws/Numbers.antt`. `specs/Fields.antt` and `proofs/Laws/Fields.antt` have the fields of a
//! file that is judged from left to right, over the faults of any format.
//!
//! Traces and certificates have their numbers in this form: it is this project's profile.
#![tactic(auto)]

mod numbers;

pub use numbers::number_at;
