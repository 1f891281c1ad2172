//! A timeline of a trace: a machine follows the trace, and its history is kept.

ghost use Rattle.std.specs.Prelude.{◌≡◌, ◌<◌, ◌≤◌, [], All, IfOk, length};
ghost use Rattle.el_base.specs.Config.{IsInRange};
ghost use Rattle.el_model.specs.Next.{entries_from};
ghost use Rattle.el_model.specs.State.{begin};

use crate::timeline::Timeline;
use el_base::NoMemory;
use elf_image::Image;
use machine::history_of_run;
use std::alloc::Global;
use trace_file::Trace;

impl Timeline {
    /// The run of a program that a trace tells of, before its first event. It takes all memory, of which a
    /// machine that follows the trace is given back.
    #[tactic(auto, using(crate::proofs::Laws::Existing::run_exists))]
    pub fn make(alloc: Global, image: Image, trace: &Trace) -> Result<Timeline, NoMemory>
        requires in_range { IsInRange trace.now.config }
        requires one_hart_each { image.harts ≡ trace.now.config.harts }
        requires enough_steps { length trace.now.events ≤ trace.now.config.steps }
        requires harts_exist { All (λ event. event.hart.number < trace.now.config.harts) trace.now.events }
        ensures { IfOk result (λ timeline. timeline ≡ record {
          program = image;
          entries = entries_from (begin image trace.now.config) trace.now.events;
          place = 0;
        }) }
    {
        let copy = image.copy(alloc)?;
        let history = history_of_run(alloc, image, trace.config, trace.events.as_slice())?;
        Timeline::of_history(alloc, copy, history)
    }
}
