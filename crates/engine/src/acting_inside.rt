//! Steps of a hart inside of a section.

ghost use Rattle.std.specs.Prelude.{◌≡◌, ◌<◌, Some, length};
ghost use Rattle.std.specs.Option.{option_map};
ghost use Rattle.el_model.specs.InSection.{section_rule, section_turn};
ghost use Rattle.el_model.specs.State.{ModelState, Section};
ghost use Rattle.engine.specs.Acting.{ActsInside, next_action};
ghost use Rattle.engine.specs.Inside.{ActsInSection};
ghost use Rattle.engine.specs.Parts.{own_at, parts, room_in};
ghost use Rattle.engine.specs.Turns.{TakesTurn};
ghost use Rattle.rv_alu.specs.Footprint.{IsInPlace};
ghost use Rattle.section_ctl.specs.State.{section_of};
ghost use Rattle.step_rules.specs.Rules.{definition_in_section};

use crate::engine::Engine;
use el_base::{HartId, Outcome};
use rv_alu::Action;
use section_ctl::Live;
use step_rules::{Progress, SectionRule, section_rule};

impl Engine {
    /// A step of a hart with a live section, which waits for nothing and holds nothing: what it does next ends its
    /// section, is buffered, or misses a line.
    pub(crate) fn act_inside(&mut self, hart: HartId, action: Action) -> Outcome
        requires some { ActsInSection (parts self.old) hart.number }
        requires action { action ≡ next_action (parts self.old) hart.number }
        requires in_place { IsInPlace (parts self.old).span (room_in (parts self.old)) action }
        ensures { (section : Section) → TakesTurn (λ from. ActsInside (parts self.old) hart.number from section)
            (λ from. section_turn from hart.number section) (parts self.old) (parts self.new) result }
    {
        let Some(live) = self.harts[usize::from(hart.number)].section().live() else {
            unreachable!()
        };
        match self.rule_inside(hart, &action, live) {
            SectionRule::RollsBack { cause } => self.roll_back(hart, cause),
            SectionRule::Commits => self.commit(hart, action),
            SectionRule::Buffers { touch } => self.buffer(hart, action, touch),
            SectionRule::Misses { line, need } => self.miss(hart, line, need),
        }
    }

    /// The rule of that step.
    fn rule_inside(&self, hart: HartId, action: &Action, live: Live) -> SectionRule
        requires cache_exists { hart.number < length (parts self.now).bus.copies.caches }
        requires action { action.now ≡ next_action (parts self.now) hart.number }
        requires live { option_map section_of (Some live) ≡ (own_at (parts self.now).harts hart.number).section.live }
        ensures { (from : ModelState) (section : Section) → ActsInside (parts self.now) hart.number from section →
            section_rule from hart.number section ≡ definition_in_section result }
    {
        let progress = Progress {
            count: live.count,
            word: live.word,
            old: live.old,
        };
        section_rule(&self.bus, hart, action, progress, &self.config)
    }
}
