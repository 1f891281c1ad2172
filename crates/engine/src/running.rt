//! An instruction that runs outside of a section.

ghost use Rattle.std.specs.Prelude.{◌≡◌, ◌<◌, None, length, slice_set};
ghost use Rattle.std.specs.Option.{option_map};
ghost use Rattle.cache_sets.specs.Slotted.{IsLent};
ghost use Rattle.cached_step.specs.CacheRun.{permitted};
ghost use Rattle.core_step.specs.Run.{IsAligned, lacking};
ghost use Rattle.el_model.specs.Plain.{Runs, by_plain_rule};
ghost use Rattle.el_model.specs.State.{ModelState};
ghost use Rattle.el_model.specs.Upcoming.{next_exchange, touch_of};
ghost use Rattle.engine.specs.Acting.{ActsOutside, cache_in, next_action, sets_in};
ghost use Rattle.engine.specs.Outside.{IsItsRule, OutsideSomewhere, RanIn};
ghost use Rattle.engine.specs.Parts.{own_at, parts, present_at, room_in};
ghost use Rattle.engine.specs.Turns.{TakesTurn};
ghost use Rattle.hart_state.specs.Deeds.{ran_own};
ghost use Rattle.rv_alu.specs.Footprint.{IsInPlace, footprint};
ghost use Rattle.rv_alu.specs.declared.view.HartStatus.TheVariants.{Running};
ghost use Rattle.snoop.specs.Asking.{HasNoRequest};
ghost use Rattle.step_rules.specs.Actions.{numbered_swap};

use crate::engine::Engine;
use cached_step::step_in_cache;
use el_base::{HartId, Outcome, line_of};
use hart_state::is_load_reserved;
use rv_alu::Action;
use step_rules::{Swap, exchange_of, word_in};

impl Engine {
    /// The instruction that comes next runs: it is one step of plain shared memory.
    pub(crate) fn run_next(&mut self, hart: HartId, action: Action) -> Outcome
        requires some { OutsideSomewhere (parts self.old) hart.number }
        requires no_request { HasNoRequest (parts self.old).bus hart.number }
        requires action { action ≡ next_action (parts self.old) hart.number }
        requires in_place { IsInPlace (parts self.old).span (room_in (parts self.old)) action }
        requires runs { IsItsRule (parts self.old) hart.number (Runs (touch_of (footprint action))) }
        ensures { TakesTurn (λ from. ActsOutside (parts self.old) hart.number from)
            (λ from. by_plain_rule from hart.number (Runs (touch_of (footprint action)))) (parts self.old)
            (parts self.new) result }
    {
        let exchange = self.next_exchange(hart, action);
        self.learn(hart, action, exchange);
        self.run_in_cache(hart, action);
        self.take_effect(hart, action);
        Outcome::Ran
    }

    /// The swap that an action is, if it exchanges a word, with what it finds there: a swap, or a store conditional
    /// that succeeds. Its line is there.
    fn next_exchange(&self, hart: HartId, action: Action) -> Option<Swap>
        requires some { OutsideSomewhere (parts self.now) hart.number }
        requires action { action ≡ next_action (parts self.now) hart.number }
        requires in_place { IsInPlace (parts self.now).span (room_in (parts self.now)) action }
        requires permitted { lacking (permitted (cache_in (parts self.now) hart.number)) (footprint action) ≡ None }
        ensures { (from : ModelState) → ActsOutside (parts self.now) hart.number from →
            option_map numbered_swap result ≡ next_exchange from.committed hart.number }
    {
        match exchange_of(&action) {
            None => None,
            Some(exchange) => Some(Swap {
                word: exchange.word,
                old: word_in(
                    self.bus
                        .sets(hart)
                        .bytes(&self.pool, line_of(exchange.word)),
                    exchange.word,
                ),
                new: exchange.new,
            }),
        }
    }

    /// The hart's predictor sees the instruction, a candidate ends the fallback, and the place of a load reserved is kept.
    fn learn(&mut self, hart: HartId, action: Action, exchange: Option<Swap>)
        requires some { OutsideSomewhere (parts self.old) hart.number }
        requires action { action ≡ next_action (parts self.old) hart.number }
        requires exchange { (from : ModelState) → ActsOutside (parts self.old) hart.number from →
            option_map numbered_swap exchange ≡ next_exchange from.committed hart.number }
        ensures { (from : ModelState) → ActsOutside (parts self.old) hart.number from →
            parts self.new ≡ record (parts self.old) {
              harts = slice_set (parts self.old).harts hart.number
                  (ran_own from hart.number (own_at (parts self.old).harts hart.number));
            } }
    {
        let own = &mut self.harts[usize::from(hart.number)];
        let pc = own.committed().pc;
        let reserves = is_load_reserved(self.code.code(), pc, &action);
        own.has_run(&self.config, pc, &action, exchange, reserves);
    }

    /// Runs an action in a hart's cache, which has what the action needs.
    fn run_in_cache(&mut self, hart: HartId, action: Action)
        requires hart_exists { hart.number < length (parts self.old).harts }
        requires cache_exists { hart.number < length (parts self.old).bus.copies.caches }
        requires no_section { (own_at (parts self.old).harts hart.number).section.live ≡ None }
        requires no_armed { (own_at (parts self.old).harts hart.number).section.armed ≡ None }
        requires running { (present_at (parts self.old).harts hart.number).status ≡ Running }
        requires aligned { IsAligned action }
        requires permitted { lacking (permitted (cache_in (parts self.old) hart.number)) (footprint action) ≡ None }
        requires lent { IsLent (parts self.old).pool (sets_in (parts self.old) hart.number) }
        ensures { RanIn (parts self.old) (parts self.new) hart.number action }
    {
        step_in_cache(
            &mut self.pool,
            self.bus.sets_mut(hart),
            self.harts[usize::from(hart.number)].view_mut(),
            action,
        );
    }
}
