//! The parts of a machine that its events change: the pool of all lines, the bus with main memory and the caches, what
//! each hart keeps beside it, what instructions are fetched from, and the output.
//!
//! It stands on `line_pool` (the pool), `snoop` (the bus), `hart_state` (a hart's section, predictor and tries),
//! `step_rules` (which rule a step follows), `cached_step` (one instruction over a hart's cache), `fetch` (what
//! instructions are fetched from), `rv_flat` (a hart's first view, the output), and on the definition of `el_model`
//! with its laws. The parts have no state of their own in contracts: each event makes them be in the state that the
//! definition gives, whatever state they are in before, with the definition's outcome (`IsInState` in `specs/Parts.antt`).
//! What a call needs of them is one word, `EngineStands` in `specs/Reached.antt`. Only `make` takes memory. Most instructions
//! outside of a section touch no memory, and no watch sees them: such a step changes its hart's view alone.
//!
//! Where a doc comment names no other source, its rule is this project's profile.
#![tactic(auto)]

mod acting_armed;
mod acting_inside;
mod acting_outside;
mod arming;
mod beginning;
mod beginning_section;
mod buffering;
mod committing;
mod effects;
mod engine;
mod losing;
mod missing;
mod mode_policy;
mod on_bus;
mod others_reservations;
mod reservations;
mod resting;
mod rolling_back;
mod running;
mod running_quiet;
mod step;

pub use engine::Engine;
pub use hart_state::HartState;
pub use section_ctl::{Armed, Live, Section};
pub use snoop::{Asked, Bus};
