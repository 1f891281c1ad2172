//! Runs of the machine's definition that the prover computes, and nothing else.
//!
//! `proofs/Runs` has runs that another program has computed from the rules, `proofs/Rows` short ones whose outcomes
//! the rules give in words: each outcome, and of the first kind the last state, is computed here from `next` of
//! `el_model`. The other folders have the laws of the crates that they are named for at worked states, with no law
//! cited, and wrong statements that such a state refutes.
//!
//! No crate stands on this one, so no build of the program computes them. It promises nothing that runs.
#![tactic(auto)]
