//! What a timeline shows, and what a machine does. The law is the contract of a function that does nothing.

ghost use Rattle.std.specs.Prelude.{◌≡◌, ℕ, List, take};
ghost use Rattle.el_base.specs.declared.config.Config.{Config};
ghost use Rattle.el_base.specs.declared.events.Event.{Event};
ghost use Rattle.el_model.specs.Next.{after, entries_from};
ghost use Rattle.el_model.specs.State.{begin};
ghost use Rattle.elf_image.specs.Program.{Program};
ghost use Rattle.step_back.specs.Standing.{state_at};

/// The state at a place of a run is what a machine of the same program and configuration has committed after
/// the events up to there.
#[tactic(auto, using(crate::proofs::Replayed::replayed))]
pub fn shows_what_a_machine_has_committed()
    ensures { (program : Program) (config : Config) (events : List Event) (place : ℕ) →
        state_at program (entries_from (begin program config) events) place
        ≡ (after program config (take place events)).committed }
{}
