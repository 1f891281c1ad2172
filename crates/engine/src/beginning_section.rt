//! A section that begins.

ghost use Rattle.std.specs.Prelude.{◌≡◌, ◌<◌, ◌%◌, None, length, true};
ghost use Rattle.residency.specs.Cache.{is_resident};
ghost use Rattle.el_base.specs.Line.{line_number};
ghost use Rattle.el_model.specs.Plain.{Begins, by_plain_rule};
ghost use Rattle.engine.specs.Acting.{ActsOutside, next_action, sets_in};
ghost use Rattle.engine.specs.Beginning.{BeganIn, HasMarked};
ghost use Rattle.engine.specs.Outside.{IsItsRule, OutsideSomewhere};
ghost use Rattle.engine.specs.Parts.{own_at, parts, present_at, room_in};
ghost use Rattle.engine.specs.Turns.{TakesTurn};
ghost use Rattle.rv_alu.specs.Footprint.{IsInPlace};
ghost use Rattle.rv_alu.specs.declared.action.Action.TheVariants.{Amo};
ghost use Rattle.rv_alu.specs.declared.view.HartStatus.TheVariants.{Running};
ghost use Rattle.snoop.specs.Asking.{HasNoRequest};
ghost use Rattle.step_rules.specs.Actions.{numbered_swap};

use crate::engine::Engine;
use el_base::{HartId, LineAddr, Need, Outcome, line_of};
use rv_alu::Action;
use rv_word::Reg;
use step_rules::Swap;

impl Engine {
    /// The acquire that comes next is elided, and a section begins at it.
    pub(crate) fn begin_section(&mut self, hart: HartId, action: Action, swap: Swap) -> Outcome
        requires some { OutsideSomewhere (parts self.old) hart.number }
        requires no_request { HasNoRequest (parts self.old).bus hart.number }
        requires action { action ≡ next_action (parts self.old) hart.number }
        requires in_place { IsInPlace (parts self.old).span (room_in (parts self.old)) action }
        requires begins { IsItsRule (parts self.old) hart.number (Begins (numbered_swap swap)) }
        ensures { TakesTurn (λ from. ActsOutside (parts self.old) hart.number from)
            (λ from. by_plain_rule from hart.number (Begins (numbered_swap swap))) (parts self.old) (parts self.new)
            result }
    {
        match action {
            Action::Amo { rd, .. } => {
                self.enter(hart, swap, rd);
                self.bus.open_attempt(hart);
                Outcome::Began
            }
            _ => unreachable!(),
        }
    }

    /// The lock's line gets the read bit, and the hart's section begins.
    fn enter(&mut self, hart: HartId, swap: Swap, rd: Reg)
        requires hart_exists { hart.number < length (parts self.old).harts }
        requires cache_exists { hart.number < length (parts self.old).bus.copies.caches }
        requires no_section { (own_at (parts self.old).harts hart.number).section.live ≡ None }
        requires no_armed { (own_at (parts self.old).harts hart.number).section.armed ≡ None }
        requires running { (present_at (parts self.old).harts hart.number).status ≡ Running }
        requires aligned { swap.word % 4 ≡ 0 }
        requires resident { is_resident (sets_in (parts self.old) hart.number).residency (line_number swap.word)
            ≡ true }
        ensures { BeganIn (parts self.old) (parts self.new) hart.number (numbered_swap swap) rd.number }
    {
        self.mark_read(hart, line_of(swap.word));
        self.harts[usize::from(hart.number)].begin(swap, rd);
    }

    /// A line gets the read bit in a hart's cache, and becomes the most recent one of its set.
    pub(crate) fn mark_read(&mut self, hart: HartId, line: LineAddr)
        requires cache_exists { hart.number < length (parts self.old).bus.copies.caches }
        requires resident { is_resident (sets_in (parts self.old) hart.number).residency line.number ≡ true }
        ensures { HasMarked (parts self.old) (parts self.new) hart.number line.number }
    {
        let sets = self.bus.sets_mut(hart);
        sets.set_bit(line, Need::Read);
        sets.touch(line);
    }
}
