//! An instruction that runs outside of a section and changes its hart's view alone.

ghost use Rattle.std.specs.Prelude.{◌≡◌, is_none, true};
ghost use Rattle.el_model.specs.Plain.{plain_turn};
ghost use Rattle.engine.specs.Acting.{ActsOutside, next_action};
ghost use Rattle.engine.specs.Outside.{OutsideSomewhere};
ghost use Rattle.engine.specs.Parts.{own_at, parts};
ghost use Rattle.engine.specs.Turns.{TakesTurn};
ghost use Rattle.snoop.specs.Asking.{HasNoRequest};
ghost use Rattle.step_rules.specs.Actions.{quiet};

use crate::engine::Engine;
use el_base::{HartId, Outcome};
use rv_alu::Action;

impl Engine {
    /// Runs a quiet action that no watch sees. It touches no memory, exchanges and reserves nothing and makes no call,
    /// so the caches, the predictor, the other harts and the output stay as they are.
    pub(crate) fn run_quiet(&mut self, hart: HartId, action: Action) -> Outcome
        requires some { OutsideSomewhere (parts self.old) hart.number }
        requires no_request { HasNoRequest (parts self.old).bus hart.number }
        requires action { action ≡ next_action (parts self.old) hart.number }
        requires quiet { quiet action ≡ true }
        requires unwatched { is_none (own_at (parts self.old).harts hart.number).predictor.watch ≡ true }
        ensures { TakesTurn (λ from. ActsOutside (parts self.old) hart.number from)
            (λ from. plain_turn from hart.number) (parts self.old) (parts self.new) result }
    {
        action.perform(self.harts[usize::from(hart.number)].view_mut(), None);
        Outcome::Ran
    }
}
