//! The bus: the order of requests, what is served, and the messages of lock removal.
//!
//! It stands on `coherence` (main memory and the copies of lines in the caches), on `bus_agent` (what a hart has at the
//! bus beside its cache), on the small parts `bus_order`, `mail`, `defer_list` and `policy`, and on the words of
//! `el_model`. The bus has no state of its own in contracts: each of its three events makes it show the state that the
//! machine's definition gives, whatever state it shows before (`Shows` in `specs/Shows.antt`), with the definition's
//! outcome. It is built for all three modes at once. What a call needs of the bus and leaves is one word, `IsReady`.
//! Only `make` takes memory.
//!
//! Of a hart's section the bus has the bits of its cache, and whether it is live or armed: an armed one is an acquire by
//! `LR.W` and `SC.W` of which the `SC.W` has not come yet, and its instructions are counted ([`Bus::note_armed`]). A
//! write request that becomes the first of its line lets go the armed sections that have read the line, before it
//! faces the live ones. That such a section stores nothing is not the bus's to know: [`Bus::order`] and [`Bus::serve`]
//! show the definition's state where its memory stays.
//!
//! The ideas are those of R. Rajwar and J. R. Goodman, 'Speculative Lock Elision', MICRO 2001, and
//! 'Transactional Lock-Free Execution of Lock-Based Programs', ASPLOS 2002; where a doc comment names no
//! other source, its rule is this project's profile.
#![tactic(auto)]

mod asked;
mod bus;
mod delivering;
mod face;
mod fates;
mod letting_go;
mod meeting;
mod obstacle;
mod ordering;
mod readiness;
mod serving;
mod settling;
mod wanting;

pub use asked::Asked;
pub use bus::Bus;

#[cfg(test)]
mod tests;
