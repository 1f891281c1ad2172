//! Which lines are in a cache, as lists: sets of ways, most recent first, each with its letter and its access bits.
//!
//! It stands on `el_base` and `moesi`. These are words and their laws alone, without code: `specs/Residency.antt` has
//! one set, `specs/Cache.antt` a cache of sets, with what a touch, a new letter, a bit, a fill, a drop and a commit
//! make of it, and `specs/WellFormed.antt` what holds of every cache. The machine's definition in `el_model` speaks in
//! them, and the code in `cache_sets` is proved to do as they say. The letters are those of the MOESI protocol; the rule
//! of the victim and the bits are this project's profile.
#![tactic(auto)]
