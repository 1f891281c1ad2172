//! What a hart does outside of a section, which waits for nothing and holds nothing.

ghost use Rattle.std.specs.Prelude.{◌≡◌, ◌<◌, is_none, length};
ghost use Rattle.el_model.specs.Plain.{plain_turn};
ghost use Rattle.el_model.specs.State.{ModelState};
ghost use Rattle.engine.specs.Acting.{ActsOutside, next_action};
ghost use Rattle.engine.specs.Outside.{IsItsRule, OutsideSomewhere};
ghost use Rattle.engine.specs.Parts.{own_at, parts, room_in};
ghost use Rattle.engine.specs.Turns.{TakesTurn};
ghost use Rattle.rv_alu.specs.Footprint.{IsInPlace};
ghost use Rattle.snoop.specs.Asking.{HasNoRequest};
ghost use Rattle.step_rules.specs.Rules.{TellsOld, definition_plain};

use crate::engine::Engine;
use el_base::{HartId, Outcome};
use rv_alu::Action;
use step_rules::{PlainRule, is_quiet, plain_rule};

impl Engine {
    /// A step of a hart with neither a live nor an armed section, whose next action this is.
    pub(crate) fn act_outside(&mut self, hart: HartId, action: Action) -> Outcome
        requires some { OutsideSomewhere (parts self.old) hart.number }
        requires no_request { HasNoRequest (parts self.old).bus hart.number }
        requires action { action ≡ next_action (parts self.old) hart.number }
        requires in_place { IsInPlace (parts self.old).span (room_in (parts self.old)) action }
        ensures { TakesTurn (λ from. ActsOutside (parts self.old) hart.number from)
            (λ from. plain_turn from hart.number) (parts self.old) (parts self.new) result }
    {
        if is_quiet(&action) && self.is_unwatched(hart) {
            return self.run_quiet(hart, action);
        }
        match self.rule_outside(hart, action) {
            PlainRule::Runs { .. } => self.run_next(hart, action),
            PlainRule::Misses { line, need } => self.miss(hart, line, need),
            PlainRule::Begins { swap } => self.begin_section(hart, action, swap),
            PlainRule::Arms { word, old } => self.arm(hart, action, word, old),
        }
    }

    /// The rule of that step.
    fn rule_outside(&self, hart: HartId, action: Action) -> PlainRule
        requires some { OutsideSomewhere (parts self.now) hart.number }
        requires action { action ≡ next_action (parts self.now) hart.number }
        ensures rule { IsItsRule (parts self.now) hart.number (definition_plain result) }
        ensures old { (from : ModelState) → ActsOutside (parts self.now) hart.number from →
            TellsOld result from.committed }
    {
        let may_elide = self.harts[usize::from(hart.number)].may_elide(self.config.mode);
        plain_rule(&self.pool, &self.bus, hart, &action, may_elide)
    }

    /// Whether no watch stands in a hart's predictor, which would see what the hart runs.
    fn is_unwatched(&self, hart: HartId) -> bool
        requires { hart.number < length (parts self.now).harts }
        ensures { result ≡ is_none (own_at (parts self.now).harts hart.number).predictor.watch }
    {
        self.harts[usize::from(hart.number)]
            .predictor()
            .watched()
            .is_none()
    }
}
