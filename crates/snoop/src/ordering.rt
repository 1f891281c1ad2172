//! A raised request takes its place in the order.

ghost use Rattle.std.specs.Prelude.{◌≡◌, ◌<◌, None, Some, length};
ghost use Rattle.bus_agent.specs.Agent.{agent_at};
ghost use Rattle.bus_order.specs.Order.{numbered};
ghost use Rattle.el_model.specs.Order.{
  Alone,
  Behind,
  InFront,
  before_face,
  marked_from,
  order_freed,
  order_losers,
  order_turn,
  place_for,
  placed,
  placed_in_front,
  placed_last,
};
ghost use Rattle.el_model.specs.State.{ModelState};
ghost use Rattle.snoop.specs.Deciding.{DecidesIn};
ghost use Rattle.snoop.specs.Leaving.{EndsSections, LeavesCopies};
ghost use Rattle.snoop.specs.Places.{definition_place};
ghost use Rattle.snoop.specs.Shows.{IsReady, Shows, bus_state};

use crate::bus::Bus;
use crate::face::Met;
use bus_agent::{post, unraise};
use bus_order::Request;
use el_base::{HartId, Mode, Need, Outcome};
use mail::Message;
use policy::Policy;

/// Where a request goes among the requests of its line.
#[derive(Clone, Copy, Debug, PartialEq, Eq)]
enum Place {
    /// Before all of them: its own hart has a live section with a bit there.
    InFront,
    /// Behind all of them.
    Behind,
    /// The line has no other one.
    Alone,
}

impl Bus {
    /// Where a request goes.
    #[tactic(auto, using(crate::proofs::Laws::Living::lives_shown))]
    fn place_for(&self, request: Request) -> Place
        requires hart_exists { request.hart.number < length (bus_state self.now).agents }
        requires ready { IsReady (bus_state self.now) }
        ensures { (state : ModelState) → Shows (bus_state self.now) state →
            definition_place result ≡ place_for state (numbered request) }
    {
        if self.meets_section(request.hart, request.line, Need::Write) {
            return Place::InFront;
        }
        match self.order.first_of(request.line) {
            Some(_) => Place::Behind,
            None => Place::Alone,
        }
    }

    /// In lock removal a hart sends another a marker.
    fn send_marker(&mut self, from: HartId, to: HartId)
        requires { IsReady (bus_state self.old) }
        ensures { LeavesCopies (λ state. marked_from state.config.mode state from.number to.number)
            (bus_state self.old) (bus_state self.new) }
    {
        match self.mode {
            Mode::Tlr => post(&mut self.agents, to, Message::Marker { from }),
            Mode::Sle | Mode::Plain => (),
        }
    }

    /// The request goes before all requests of its line, or last where there are none.
    fn put_in_front(&mut self, request: Request)
        requires ready { IsReady (bus_state self.old) }
        requires raised { (agent_at (bus_state self.old).agents request.hart.number).raised ≡ Some (numbered request) }
        ensures { LeavesCopies (λ state. placed_in_front state (numbered request))
            (bus_state self.old) (bus_state self.new) }
    {
        unraise(&mut self.agents, request.hart);
        self.order.in_front(request);
    }

    /// The request goes behind all others.
    fn put_last(&mut self, request: Request)
        requires ready { IsReady (bus_state self.old) }
        requires raised { (agent_at (bus_state self.old).agents request.hart.number).raised ≡ Some (numbered request) }
        ensures { LeavesCopies (λ state. placed_last state (numbered request))
            (bus_state self.old) (bus_state self.new) }
    {
        unraise(&mut self.agents, request.hart);
        self.order.append(request);
    }

    /// The request goes before all requests of its line, of which the first one's hart is sent a marker.
    fn go_in_front(&mut self, request: Request)
        requires ready { IsReady (bus_state self.old) }
        requires raised { (agent_at (bus_state self.old).agents request.hart.number).raised ≡ Some (numbered request) }
        ensures { LeavesCopies (λ state. before_face state (numbered request) InFront)
            (bus_state self.old) (bus_state self.new) }
    {
        let former = self.order.first_of(request.line);
        self.put_in_front(request);
        if let Some(former) = former {
            self.send_marker(request.hart, former.hart);
        }
    }

    /// The request goes behind all others, and the hart of the last one of its line sends it a marker.
    fn go_behind(&mut self, request: Request)
        requires ready { IsReady (bus_state self.old) }
        requires raised { (agent_at (bus_state self.old).agents request.hart.number).raised ≡ Some (numbered request) }
        ensures { LeavesCopies (λ state. before_face state (numbered request) Behind)
            (bus_state self.old) (bus_state self.new) }
    {
        let last = self.order.tail_of(request.line);
        self.put_last(request);
        if let Some(last) = last {
            self.send_marker(last.hart, request.hart);
        }
    }

    /// The request takes its place, and is met where it is the first of its line.
    #[tactic(auto, unfolding(el_model::specs::Order::placed))]
    fn place<P: Policy>(&mut self, request: Request, policy: &P) -> Met
        requires ready { IsReady (bus_state self.old) }
        requires raised { (agent_at (bus_state self.old).agents request.hart.number).raised ≡ Some (numbered request) }
        requires policy { DecidesIn (bus_state self.old).mode (P.beats policy.now) }
        ensures leaves { EndsSections (λ state. placed state (numbered request) (place_for state (numbered request)))
            (bus_state self.old) (bus_state self.new) }
        ensures losers { (state : ModelState) → Shows (bus_state self.old) state →
            result.losers ≡ order_losers state (numbered request) }
        ensures freed { (state : ModelState) → Shows (bus_state self.old) state →
            result.freed ≡ order_freed state (numbered request) }
    {
        match self.place_for(request) {
            Place::InFront => {
                self.go_in_front(request);
                self.meet(request, policy)
            }
            Place::Behind => {
                self.go_behind(request);
                Met::nobody()
            }
            Place::Alone => {
                self.put_last(request);
                self.meet(request, policy)
            }
        }
    }

    /// The request that a hart has raised takes its place in the order: before all requests of its line where the
    /// hart's own live section has a bit there, else behind them. Where it is the first of its line then, it is met:
    /// if it is to write, each armed section that has read the line is let go, and the live sections that conflict
    /// with it lose or stay. The outcome tells which sections lost, and who was let go, with the number of
    /// instructions. It is `Idle` exactly where the hart has raised no request. In the plain mode the policy is never
    /// asked.
    ///
    /// In lock removal a request that goes in front sends the hart of the former first one a marker, and the
    /// hart of the former last one sends one to the hart of a request that goes behind.
    #[tactic(auto, unfolding(el_model::specs::Order::order_turn))]
    pub fn order<P: Policy>(&mut self, hart: HartId, policy: &P) -> Outcome
        requires hart_exists { hart.number < length (bus_state self.old).agents }
        requires ready { IsReady (bus_state self.old) }
        requires policy { DecidesIn (bus_state self.old).mode (P.beats policy.now) }
        ensures leaves { EndsSections (λ state. (order_turn state hart.number).state)
            (bus_state self.old) (bus_state self.new) }
        ensures outcome { (state : ModelState) → Shows (bus_state self.old) state →
            result ≡ (order_turn state hart.number).outcome }
    {
        match self.agent(hart).raised() {
            Some(request) => {
                let Met { losers, freed } = self.place(request, policy);
                Outcome::Ordered { losers, freed }
            }
            None => Outcome::Idle,
        }
    }
}
