//! Which events of a hart get something done at the bus.

ghost use Rattle.std.specs.Prelude.{◌≡◌, ◌≢◌, ◌<◌, ◌↔◌, [], length, true};
ghost use Rattle.bus_agent.specs.Agent.{agent_at};
ghost use Rattle.bus_order.specs.Order.{numbered};
ghost use Rattle.el_model.specs.Deliver.{deliver_turn};
ghost use Rattle.el_model.specs.Serve.{Free, obstacle_to, serve_turn};
ghost use Rattle.el_model.specs.State.{ModelState, hart_of, ordered_of};
ghost use Rattle.snoop.specs.Readiness.{NothingBlocks, is_delivered, is_served};
ghost use Rattle.snoop.specs.Shows.{IsReady, Shows, bus_state};

use crate::bus::Bus;
use crate::obstacle::Obstacle;
use bus_order::Request;
use el_base::HartId;

impl Bus {
    /// Whether `serve` would serve a request of the hart: it has one in the order, and nothing is in its way.
    #[tactic(auto, unfolding(el_model::specs::Serve::serve_turn))]
    pub fn serves(&self, hart: HartId) -> bool
        requires hart_exists { hart.number < length (bus_state self.now).agents }
        requires ready { IsReady (bus_state self.now) }
        ensures exact { (state : ModelState) → Shows (bus_state self.now) state →
            (result ≡ true) ↔ NothingBlocks state (ordered_of state hart.number) }
        ensures outcome { (state : ModelState) → Shows (bus_state self.now) state →
            result ≡ is_served (serve_turn state hart.number).outcome }
    {
        match self.order.of(hart) {
            Some(request) => self.is_free(request),
            None => false,
        }
    }

    /// Whether nothing is in the way of a request.
    fn is_free(&self, request: Request) -> bool
        requires { IsReady (bus_state self.now) }
        ensures { (state : ModelState) → Shows (bus_state self.now) state →
            (result ≡ true) ↔ (obstacle_to state (numbered request) ≡ Free) }
    {
        match self.obstacle_to(request) {
            Obstacle::Free => true,
            Obstacle::Blocks { .. } => false,
        }
    }

    /// Whether `deliver` would take a message: the hart's mailbox is not empty.
    #[tactic(auto, unfolding(el_model::specs::Deliver::deliver_turn))]
    pub fn has_mail(&self, hart: HartId) -> bool
        requires { hart.number < length (bus_state self.now).agents }
        ensures exact { (result ≡ true) ↔ ((agent_at (bus_state self.now).agents hart.number).mail ≢ []) }
        ensures shown { (state : ModelState) → Shows (bus_state self.now) state →
            (result ≡ true) ↔ ((hart_of state hart.number).mail ≢ []) }
        ensures outcome { (state : ModelState) → Shows (bus_state self.now) state →
            result ≡ is_delivered (deliver_turn state hart.number).outcome }
    {
        self.agent(hart).has_mail()
    }
}
