//! Rollbacks of a live section by its own hart.

ghost use Rattle.el_model.specs.InSection.{RollsBack, section_turn};
ghost use Rattle.el_model.specs.State.{Section};
ghost use Rattle.engine.specs.Inside.{FollowsRule, FollowsSomewhere};
ghost use Rattle.engine.specs.Parts.{parts};
ghost use Rattle.engine.specs.Turns.{TakesTurn};

use crate::engine::Engine;
use el_base::{Cause, HartId, Outcome};

impl Engine {
    /// A hart rolls its live section back, for a cause that lies with it: its lines lose their bits, its attempt
    /// closes, and it is back at the checkpoint.
    pub(crate) fn roll_back(&mut self, hart: HartId, cause: Cause) -> Outcome
        requires { FollowsSomewhere (parts self.old) hart.number (RollsBack cause) }
        ensures { (section : Section) →
            TakesTurn (λ from. FollowsRule (parts self.old) hart.number from section (RollsBack cause))
            (λ from. section_turn from hart.number section) (parts self.old) (parts self.new) result }
    {
        self.bus.close_attempt(hart);
        self.bus.sets_mut(hart).clear_bits();
        self.harts[usize::from(hart.number)].roll_back(&mut self.pool, cause);
        Outcome::RolledBack { cause }
    }
}
