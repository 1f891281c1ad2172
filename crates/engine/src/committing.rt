//! Commits of a live section.

ghost use Rattle.std.specs.Prelude.{◌≡◌, ◌<◌, ◌+◌, IfSome, IsSome, length};
ghost use Rattle.el_model.specs.InSection.{Commits, section_turn};
ghost use Rattle.el_model.specs.State.{Section};
ghost use Rattle.engine.specs.Acting.{next_action};
ghost use Rattle.engine.specs.Inside.{FollowsRule, FollowsSomewhere};
ghost use Rattle.engine.specs.Parts.{own_at, parts};
ghost use Rattle.engine.specs.Private.{CommitsIn, MayTakeEffect};
ghost use Rattle.engine.specs.Turns.{TakesTurn};

use crate::engine::Engine;
use crate::others_reservations::unreserve_others;
use el_base::{HartId, Outcome};
use rv_alu::Action;

impl Engine {
    /// A hart's live section takes effect, whose release this action is: its stores are in the cache, whose lines lose
    /// their bits, other harts' reservations of words on the written lines end, and its attempt closes.
    pub(crate) fn commit(&mut self, hart: HartId, action: Action) -> Outcome
        requires follows { FollowsSomewhere (parts self.old) hart.number Commits }
        requires action { action ≡ next_action (parts self.old) hart.number }
        ensures { (section : Section) →
            TakesTurn (λ from. FollowsRule (parts self.old) hart.number from section Commits)
            (λ from. section_turn from hart.number section) (parts self.old) (parts self.new) result }
    {
        let count = self.count_with_release(hart);
        unreserve_others(&mut self.harts, hart);
        self.bus.close_attempt(hart);
        self.commit_in_cache(hart, action);
        Outcome::Committed { count }
    }

    /// What a hart's live section has stored goes into its cache, whose lines lose their bits.
    fn commit_in_cache(&mut self, hart: HartId, action: Action)
        requires may { MayTakeEffect (parts self.old) hart.number action }
        ensures { CommitsIn (parts self.old) (parts self.new) hart.number action }
    {
        self.harts[usize::from(hart.number)].commit(
            &mut self.pool,
            self.bus.sets_mut(hart),
            action,
        );
    }

    /// How many instructions a hart's live section has with its release.
    fn count_with_release(&self, hart: HartId) -> u32
        requires hart_exists { hart.number < length (parts self.now).harts }
        requires live { IsSome (own_at (parts self.now).harts hart.number).section.live }
        requires counted { IfSome (own_at (parts self.now).harts hart.number).section.live
            (λ section. section.count + 1 < 4294967296) }
        ensures { IfSome (own_at (parts self.now).harts hart.number).section.live
            (λ section. result ≡ section.count + 1) }
    {
        let Some(live) = self.harts[usize::from(hart.number)].section().live() else {
            unreachable!()
        };
        live.count + 1
    }
}
