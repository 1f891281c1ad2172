//! Laws of stories. Each is the contract of a function that does nothing.

ghost use Rattle.std.specs.Prelude.{◌≡◌, ◌++◌, List};
ghost use Rattle.el_base.specs.declared.config.Config.{Config};
ghost use Rattle.elf_image.specs.Program.{Program};
ghost use Rattle.machine.specs.Opening.{opening_of};
ghost use Rattle.machine.specs.Recording.{OutcomesCanBeRecorded};
ghost use Rattle.el_base.specs.declared.events.Event.{Event};
ghost use Rattle.el_model.specs.Next.{state_after};
ghost use Rattle.machine.specs.Story.{Story, continued, state_of};

/// A story that goes on by some events is in the state that they lead to.
#[tactic(auto, using(crate::proofs::Laws::Continued::state_of_continued))]
pub fn continued_story_reaches_the_state_after()
    ensures { (story : Story) (made : List Event) →
        state_of (continued story made) ≡ state_after (state_of story) made }
{}

/// To go on by some events and then by others is to go on by all of them.
#[tactic(auto, using(crate::proofs::Laws::Continued::continued_twice))]
pub fn stories_go_on_event_by_event()
    ensures { (story : Story) (first second : List Event) →
        continued (continued story first) second ≡ continued story (first ++ second) }
{}

/// Two machines with one opening were made with the same program and the same configuration.
#[tactic(auto, using(crate::proofs::Openings::openings_apart))]
pub fn openings_tell_beginnings()
    ensures { (program other : Program) (config settings : Config) →
        opening_of program config ≡ opening_of other settings → (program ≡ other) × (config ≡ settings) }
{}

/// From a program with as many harts as its configuration has, where that is in range, whatever the events: each outcome
/// can be recorded in a trace. A commit has 1 to `long` instructions, a letting go 1 to 15, and each hart that lost, that
/// won, that is in the way or that was let go is one of the machine's.
#[tactic(auto, using(crate::proofs::Laws::Recording::outcomes_can_be_recorded))]
pub fn outcomes_can_be_recorded()
    ensures { OutcomesCanBeRecorded }
{}
