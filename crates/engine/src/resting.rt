//! Events that leave all as it is: those of the bus that find nothing to do, and the whole turn of a hart that waits.

ghost use Rattle.std.specs.Prelude.{◌≡◌, ◌<◌, length};
ghost use Rattle.el_model.specs.State.{ModelState};
ghost use Rattle.engine.specs.Parts.{IsInState, parts};
ghost use Rattle.engine.specs.Reached.{EngineStands};
ghost use Rattle.engine.specs.Resting.{finds_nothing, is_quiet, is_still, waiting_of};

use crate::engine::Engine;
use el_base::{Event, HartId, Kind, Outcome};

impl Engine {
    /// Whether an event of the bus finds nothing to do, as most of a run do: the hart has raised nothing that an order
    /// would place, has nothing in the order that a serve would look at, or has no message that would be delivered. A
    /// step is none of these. It stands in each caller's loop, so that such an event costs no call.
    #[inline(always)]
    #[tactic(auto, using(crate::proofs::Laws::BusEvents::hart_exists))]
    pub(crate) fn finds_nothing(&self, event: Event) -> bool
        requires hart_exists { event.hart.number < length (parts self.now).harts }
        requires stands { EngineStands (parts self.now) }
        ensures { (state : ModelState) → IsInState (parts self.now) state → result ≡ finds_nothing state event }
    {
        match event.kind {
            Kind::Step => false,
            Kind::Order => self.bus.agent(event.hart).raised().is_none(),
            Kind::Serve => self.bus.requests().of(event.hart).is_none(),
            Kind::Deliver => !self.bus.agent(event.hart).has_mail(),
        }
    }

    /// Whether the bus is quiet for a hart: all three events of the bus in the hart's turn, an order, a serve and a
    /// delivery, find nothing to do.
    #[inline(always)]
    #[tactic(auto, using(crate::proofs::Laws::BusEvents::hart_exists))]
    pub fn is_quiet(&self, hart: HartId) -> bool
        requires hart_exists { hart.number < length (parts self.now).harts }
        requires stands { EngineStands (parts self.now) }
        ensures { (state : ModelState) → IsInState (parts self.now) state → result ≡ is_quiet state hart.number }
    {
        self.bus.agent(hart).raised().is_none()
            && self.bus.requests().of(hart).is_none()
            && !self.bus.agent(hart).has_mail()
    }

    /// What comes of a serve in the turn of a hart that waits in all of it: it runs, has raised nothing, no message has come
    /// to it, and something is in the way of its request in the order. `None` where it does not wait so.
    #[inline(always)]
    pub fn waiting(&self, hart: HartId) -> Option<Outcome>
        requires hart_exists { hart.number < length (parts self.now).harts }
        requires stands { EngineStands (parts self.now) }
        ensures { (state : ModelState) → IsInState (parts self.now) state → result ≡ waiting_of state hart.number }
    {
        let request = self.bus.requests().of(hart)?;
        if self.is_still(hart) {
            self.bus.blocked(request)
        } else {
            None
        }
    }

    /// Whether a hart runs, has raised nothing, and no message has come to it.
    #[inline(always)]
    #[tactic(auto, using(crate::proofs::Laws::BusEvents::hart_exists))]
    fn is_still(&self, hart: HartId) -> bool
        requires hart_exists { hart.number < length (parts self.now).harts }
        requires stands { EngineStands (parts self.now) }
        ensures { (state : ModelState) → IsInState (parts self.now) state → result ≡ is_still state hart.number }
    {
        let agent = self.bus.agent(hart);
        self.runs(hart) && agent.raised().is_none() && !agent.has_mail()
    }
}
