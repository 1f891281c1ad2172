//! Steps of a hart with an armed section.

ghost use Rattle.std.specs.Prelude.{◌≡◌, ◌<◌, ◌+◌};
ghost use Rattle.el_model.specs.Armed.{ArmedRule, Continues, Elides, LetsGo, armed_rule, armed_turn};
ghost use Rattle.el_model.specs.State.{ModelState};
ghost use Rattle.engine.specs.Acting.{ActsArmed, next_action};
ghost use Rattle.engine.specs.Armed.{ArmedSomewhere, FollowsArmed, FollowsArmedSomewhere};
ghost use Rattle.engine.specs.Parts.{parts};
ghost use Rattle.engine.specs.Turns.{TakesTurn};
ghost use Rattle.rv_alu.specs.Loaded.{loaded};
ghost use Rattle.rv_flat.specs.Memory.{byte_in};
ghost use Rattle.section_ctl.specs.State.{armed_of};
ghost use Rattle.step_rules.specs.Actions.{numbered_swap};
ghost use Rattle.step_rules.specs.Rules.{definition_armed};

use crate::engine::Engine;
use el_base::{HartId, Outcome, line_of};
use rv_alu::Action;
use section_ctl::Armed;
use step_rules::{ArmedRule, Progress, Swap, armed_rule, word_in};

impl Engine {
    /// A step of a hart with an armed section, which waits for nothing and holds nothing: what it does next completes
    /// the acquire, is kept private too, or lets the section go.
    pub(crate) fn act_armed(&mut self, hart: HartId, action: Action, armed: Armed) -> Outcome
        requires some { ArmedSomewhere (parts self.old) hart.number (armed_of armed) }
        requires action { action ≡ next_action (parts self.old) hart.number }
        ensures { TakesTurn (λ from. ActsArmed (parts self.old) hart.number from (armed_of armed))
            (λ from. armed_turn from hart.number (armed_of armed)) (parts self.old) (parts self.new) result }
    {
        match self.rule_armed(hart, &action, armed) {
            ArmedRule::Elides { swap } => self.elide(hart, action, armed, swap),
            ArmedRule::Continues => self.keep_private(hart, action, armed),
            ArmedRule::LetsGo => self.let_go(hart, armed),
        }
    }

    /// The rule of that step.
    fn rule_armed(&self, hart: HartId, action: &Action, armed: Armed) -> ArmedRule
        requires some { ArmedSomewhere (parts self.now) hart.number (armed_of armed) }
        requires action { action.now ≡ next_action (parts self.now) hart.number }
        ensures { (from : ModelState) → ActsArmed (parts self.now) hart.number from (armed_of armed) →
            armed_rule from hart.number (armed_of armed) ≡ definition_armed result }
    {
        let progress = Progress {
            count: armed.count,
            word: armed.word,
            old: self.word_of(hart, armed),
        };
        armed_rule(&self.bus, hart, action, progress, self.config.long)
    }

    /// The value of an armed section's word, whose line the hart's cache has.
    fn word_of(&self, hart: HartId, armed: Armed) -> u32
        requires { ArmedSomewhere (parts self.now) hart.number (armed_of armed) }
        ensures { (from : ModelState) → ActsArmed (parts self.now) hart.number from (armed_of armed) →
            result ≡ loaded (byte_in from.committed.base from.committed.bytes) armed.word 4 }
    {
        word_in(
            self.bus.sets(hart).bytes(&self.pool, line_of(armed.word)),
            armed.word,
        )
    }

    /// The acquire of the armed section is elided by the store conditional that comes next, and a live section begins: the
    /// line of its word keeps the read bit and becomes the most recent one, and an attempt opens.
    fn elide(&mut self, hart: HartId, action: Action, armed: Armed, swap: Swap) -> Outcome
        requires follows { FollowsArmedSomewhere (parts self.old) hart.number (armed_of armed)
            (Elides (numbered_swap swap)) }
        requires action { action ≡ next_action (parts self.old) hart.number }
        ensures { TakesTurn
            (FollowsArmed (parts self.old) hart.number (armed_of armed) (Elides (numbered_swap swap)))
            (λ from. armed_turn from hart.number (armed_of armed)) (parts self.old) (parts self.new) result }
    {
        match action {
            Action::StoreConditional { rd, .. } => {
                self.mark_read(hart, line_of(armed.word));
                self.bus.note_armed(hart, 0);
                self.harts[usize::from(hart.number)].begin_armed(swap.new, rd);
                self.bus.open_attempt(hart);
                Outcome::Began
            }
            _ => unreachable!(),
        }
    }

    /// One more instruction of the armed section is kept private.
    fn keep_private(&mut self, hart: HartId, action: Action, armed: Armed) -> Outcome
        requires follows { FollowsArmedSomewhere (parts self.old) hart.number (armed_of armed) Continues }
        requires action { action ≡ next_action (parts self.old) hart.number }
        ensures { TakesTurn (FollowsArmed (parts self.old) hart.number (armed_of armed) Continues)
            (λ from. armed_turn from hart.number (armed_of armed)) (parts self.old) (parts self.new) result }
    {
        self.run_privately(hart, action);
        self.bus.note_armed(hart, one_more(armed));
        Outcome::Buffered
    }

    /// The armed section is let go: all that it kept private takes effect, its line loses the read bit, and the bus
    /// notes the hart as not armed.
    fn let_go(&mut self, hart: HartId, armed: Armed) -> Outcome
        requires follows { FollowsArmedSomewhere (parts self.old) hart.number (armed_of armed) LetsGo }
        ensures { TakesTurn (FollowsArmed (parts self.old) hart.number (armed_of armed) LetsGo)
            (λ from. armed_turn from hart.number (armed_of armed)) (parts self.old) (parts self.new) result }
    {
        self.bus.sets_mut(hart).clear_bits();
        self.bus.note_armed(hart, 0);
        self.harts[usize::from(hart.number)].let_go();
        Outcome::LetGo { count: armed.count }
    }
}

/// How many instructions an armed section has with one more, as the bus notes it.
fn one_more(armed: Armed) -> u8
    requires { armed.count < 15 }
    ensures { result ≡ armed.count + 1 }
{
    armed.count as u8 + 1
}
