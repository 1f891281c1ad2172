//! Events of the bus.

ghost use Rattle.std.specs.Prelude.{◌≡◌, ◌≢◌, ◌<◌, length};
ghost use Rattle.coherence.specs.Beginning.{line_of};
ghost use Rattle.coherence.specs.Lent.{LeavesHolds};
ghost use Rattle.el_base.specs.declared.events.Kind.TheVariants.{Step};
ghost use Rattle.el_model.specs.Next.{next};
ghost use Rattle.el_model.specs.State.{ModelState};
ghost use Rattle.engine.specs.MainMemory.{lines_from};
ghost use Rattle.engine.specs.Parts.{IsInState, parts};
ghost use Rattle.engine.specs.Reached.{IsReached, EngineStands};
ghost use Rattle.engine.specs.Turns.{TakesEvent};
ghost use Rattle.snoop.specs.Shows.{IsReady, Shows, Tells};

use crate::engine::Engine;
use crate::losing::restore_by;
use crate::mode_policy::ModePolicy;
use el_base::{Event, Kind, Outcome};

impl Engine {
    /// An event at the bus, by its kind. What the harts keep beside it has not changed.
    #[tactic(auto, unfolding(el_model::specs::Next::next), using(crate::proofs::Laws::BusEvents::hart_exists, crate::proofs::Laws::BusEvents::mode_wins))]
    fn pass_to_bus(&mut self, event: Event) -> Outcome
        requires hart_exists { event.hart.number < length (parts self.old).harts }
        requires stands { EngineStands (parts self.old) }
        requires no_step { event.kind ≢ Step }
        ensures ready { IsReady (parts self.new).bus }
        ensures rest_stays { parts self.new ≡
            record (parts self.old) { pool = (parts self.new).pool; bus = (parts self.new).bus } }
        ensures shows { (state : ModelState) → IsReached state → IsInState (parts self.old) state →
            Shows (parts self.new).bus (next state event).state }
        ensures told { (state : ModelState) → IsReached state → IsInState (parts self.old) state →
            Tells (parts self.new).pool (parts self.new).bus (line_of (next state event).state.committed) }
        ensures holds { LeavesHolds (parts self.old).pool (parts self.new).pool }
        ensures outcome { (state : ModelState) → IsInState (parts self.old) state → result ≡ (next state event).outcome }
        ensures memory { (state : ModelState) → IsInState (parts self.old) state →
            (parts self.new).bus.copies.lines ≡ lines_from state event (parts self.old).bus.copies.lines }
    {
        let policy = ModePolicy {
            mode: self.config.mode,
        };
        match event.kind {
            Kind::Order => self.bus.order(event.hart, &policy),
            Kind::Serve => self.bus.serve(&mut self.pool, event.hart, &policy),
            Kind::Deliver => self.bus.deliver(event.hart),
            Kind::Step => unreachable!(),
        }
    }

    /// An event of the bus: the hart's raised request takes its place in the order, its ordered request is served,
    /// or the oldest message of its mailbox takes effect. A hart that the outcome names among its losers is at the
    /// checkpoint of its section again, in the same event, and what one kept private that is among the freed takes
    /// effect.
    pub(crate) fn on_bus(&mut self, event: Event) -> Outcome
        requires hart_exists { event.hart.number < length (parts self.old).harts }
        requires stands { EngineStands (parts self.old) }
        requires no_step { event.kind ≢ Step }
        ensures { TakesEvent event (parts self.old) (parts self.new) result }
    {
        let outcome = self.pass_to_bus(event);
        restore_by(&mut self.pool, &mut self.harts, self.config.mode, outcome);
        outcome
    }
}
