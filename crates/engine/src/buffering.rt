//! Instructions of a section that run privately.

ghost use Rattle.std.specs.Prelude.{◌≡◌, ◌<◌, Some, length, true};
ghost use Rattle.std.specs.Option.{option_map};
ghost use Rattle.residency.specs.Cache.{is_resident};
ghost use Rattle.el_model.specs.InSection.{Buffers, section_turn};
ghost use Rattle.el_model.specs.State.{Section};
ghost use Rattle.engine.specs.Acting.{next_action, sets_in};
ghost use Rattle.engine.specs.Covered.{HasItsBitNow, IsTouchedThere};
ghost use Rattle.engine.specs.Inside.{FollowsRule, FollowsSomewhere};
ghost use Rattle.engine.specs.Parts.{parts};
ghost use Rattle.engine.specs.Private.{BuffersIn, HasCovered, MayRunPrivately, RanPrivately};
ghost use Rattle.engine.specs.Turns.{TakesTurn};
ghost use Rattle.step_rules.specs.Actions.{numbered_touch};

use crate::engine::Engine;
use cache_sets::Sets;
use el_base::{HartId, Outcome};
use rv_alu::Action;
use step_rules::{Touch, is_covered};

impl Engine {
    /// An action of a hart's live section runs: what it touches has its bit from then on, and what it stores is held.
    pub(crate) fn buffer(&mut self, hart: HartId, action: Action, touch: Option<Touch>) -> Outcome
        requires follows { FollowsSomewhere (parts self.old) hart.number (Buffers (option_map numbered_touch touch)) }
        requires action { action ≡ next_action (parts self.old) hart.number }
        ensures { (section : Section) → TakesTurn
            (λ from. FollowsRule (parts self.old) hart.number from section (Buffers (option_map numbered_touch touch)))
            (λ from. section_turn from hart.number section) (parts self.old) (parts self.new) result }
    {
        self.buffer_in_cache(hart, action, touch);
        Outcome::Buffered
    }

    /// What the action touches gets its bit in the hart's cache, over which the action runs.
    fn buffer_in_cache(&mut self, hart: HartId, action: Action, touch: Option<Touch>)
        requires follows { FollowsSomewhere (parts self.old) hart.number (Buffers (option_map numbered_touch touch)) }
        requires action { action ≡ next_action (parts self.old) hart.number }
        ensures { BuffersIn (parts self.old) (parts self.new) hart.number (option_map numbered_touch touch) action }
    {
        self.cover(hart, touch);
        self.run_privately(hart, action);
    }

    /// A line that is touched gets the bit of its need in a hart's cache, where it has it not.
    fn cover(&mut self, hart: HartId, touch: Option<Touch>)
        requires cache_exists { hart.number < length (parts self.old).bus.copies.caches }
        requires there { IsTouchedThere (sets_in (parts self.old) hart.number) (option_map numbered_touch touch) }
        ensures { HasCovered (parts self.old) (parts self.new) hart.number (option_map numbered_touch touch) }
    {
        cover(self.bus.sets_mut(hart), touch);
    }

    /// An action runs in a hart's live or armed section: what it stores is held.
    pub(crate) fn run_privately(&mut self, hart: HartId, action: Action)
        requires may { MayRunPrivately (parts self.old) hart.number action }
        ensures { RanPrivately (parts self.old) (parts self.new) hart.number action }
    {
        self.harts[usize::from(hart.number)].buffer(
            &mut self.pool,
            self.bus.sets_mut(hart),
            action,
        );
    }
}

/// A line that is touched gets the bit of its need, where it has it not.
fn cover(sets: &mut Sets, touch: Option<Touch>)
    requires { IsTouchedThere sets.old (option_map numbered_touch touch) }
    ensures { HasItsBitNow sets.old sets.new (option_map numbered_touch touch) }
{
    if let Some(touch) = touch {
        cover_line(sets, touch);
    }
}

/// The same of a line.
fn cover_line(sets: &mut Sets, touch: Touch)
    requires { is_resident sets.old.residency touch.line.number ≡ true }
    ensures { HasItsBitNow sets.old sets.new (option_map numbered_touch (Some touch)) }
{
    if !is_covered(sets, touch) {
        sets.set_bit(touch.line, touch.need);
    }
}
