//! Plain shared memory: the machine without caches, buffers, sections and locks.
//!
//! The crate stands on the images of `elf_image` and the instructions of `rv_alu`. It has one
//! state, `Flat`, whose `step` is one instruction of one hart, the whole of it at once: the meaning
//! that every other machine of this project is measured by. What another machine shares with it,
//! a hart's first view and the program's `Output`, has its home here too. Its definitions `start`,
//! `flat`, `run` and `alone` stand in `specs/`. `make` takes all memory of a run; `step` takes none
//! and refuses nothing. `step_noting` also tells what the step overwrites, and `undo` puts it back.
#![tactic(auto)]

mod beginning;
mod change;
mod flat_state;
mod memory;
mod output;
mod reservations;
mod theorems;

pub use beginning::first_view;
pub use change::Change;
pub use flat_state::Flat;
pub use output::Output;
pub use rv_alu::{HartStatus, HartView};
pub use theorems::{
    alone_of_a_sum, run_forgets_a_lost_reservation, run_keeps_shape, run_of_two_lists,
    start_has_registers, step_depends_on_what_its_hart_sees, step_ignores_output_outside_calls,
    step_keeps_other_views, step_keeps_register_zero, step_keeps_shape, step_touches_one_line,
    step_writes_only_its_footprint, step_writes_only_one_line, stopped_hart_changes_nothing,
};
