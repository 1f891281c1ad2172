//! What is in the way of a request.

ghost use Rattle.std.specs.Prelude.{◌≡◌, ◌<◌, ◌==◌, ◌&&◌, not, length, IfSome, Some, true};
ghost use Rattle.std.specs.Option.{option_map};
ghost use Rattle.bus_order.specs.Order.{numbered};
ghost use Rattle.el_model.specs.Conflicts as model;
ghost use Rattle.el_model.specs.Serve as serving;
ghost use Rattle.el_model.specs.State.{ModelState, hart_of, is_held};
ghost use Rattle.snoop.specs.Obstacles.{blocked_by, first_conflict_of, held_by, is_blocked, numbered_obstacle, number_of, obstacle_by};
ghost use Rattle.snoop.specs.Shows.{IsReady, Shows, bus_state};

use crate::bus::Bus;
use bus_order::Request;
use el_base::{HartId, Mode, Outcome, Why};

/// What is in the way of a request: nothing, or a hart.
#[derive(Clone, Copy)]
pub(crate) enum Obstacle {
    Free,
    Blocks { why: Why, by: HartId },
}

impl Bus {
    /// What a serve of an ordered request comes to where something is in its way, and `None` where nothing is. It stands
    /// in its callers, which so know the kind of the outcome where they record it.
    #[inline(always)]
    pub fn blocked(&self, request: Request) -> Option<Outcome>
        requires ready { IsReady (bus_state self.now) }
        ensures exact { (state : ModelState) → Shows (bus_state self.now) state →
            result ≡ blocked_by (serving.obstacle_to state (numbered request)) }
        ensures is_blocked { IfSome result (λ outcome. is_blocked outcome ≡ true) }
    {
        match self.obstacle_to(request) {
            Obstacle::Free => None,
            Obstacle::Blocks { why, by } => Some(Outcome::Blocked { why, by }),
        }
    }

    /// The first of these that holds of an ordered request: another hart's request for its line comes first, a
    /// section retains the line, or another hart holds it.
    pub(crate) fn obstacle_to(&self, request: Request) -> Obstacle
        requires ready { IsReady (bus_state self.now) }
        ensures { (state : ModelState) → Shows (bus_state self.now) state →
            numbered_obstacle result ≡ serving.obstacle_to state (numbered request) }
    {
        match self.order.first_of(request.line) {
            Some(head) => self.obstacle_by(head, request),
            None => self.other_holder(request),
        }
    }

    /// The same, by the head of the line.
    fn obstacle_by(&self, head: Request, request: Request) -> Obstacle
        requires ready { IsReady (bus_state self.now) }
        ensures { (state : ModelState) → Shows (bus_state self.now) state →
            numbered_obstacle result ≡ obstacle_by state (numbered request) (Some (numbered head)) }
    {
        if head.hart != request.hart {
            return Obstacle::Blocks {
                why: Why::Behind,
                by: head.hart,
            };
        }
        match self.retainer(head) {
            Some(by) => Obstacle::Blocks {
                why: Why::Retained,
                by,
            },
            None => self.other_holder(request),
        }
    }

    /// Another hart that holds the line of a request, where there is one.
    fn other_holder(&self, request: Request) -> Obstacle
        requires ready { IsReady (bus_state self.now) }
        ensures { (state : ModelState) → Shows (bus_state self.now) state →
            numbered_obstacle result ≡ held_by state (numbered request) }
    {
        match self.holder(request) {
            Some(by) => Obstacle::Blocks {
                why: Why::Locked,
                by,
            },
            None => Obstacle::Free,
        }
    }

    /// The least hart whose section conflicts with the head of a line, and so retains the line. In the plain mode there
    /// are no sections.
    fn retainer(&self, head: Request) -> Option<HartId>
        requires ready { IsReady (bus_state self.now) }
        ensures { (state : ModelState) → Shows (bus_state self.now) state →
            option_map number_of result ≡ first_conflict_of state (numbered head) }
    {
        match self.mode {
            Mode::Plain => None,
            Mode::Sle | Mode::Tlr => self.first_conflict(head),
        }
    }

    /// The least hart whose section conflicts with a request.
    #[tactic(auto, using(crate::proofs::Firsts::first_past))]
    fn first_conflict(&self, request: Request) -> Option<HartId>
        requires ready { IsReady (bus_state self.now) }
        ensures { (state : ModelState) → Shows (bus_state self.now) state →
            option_map number_of result ≡ first_conflict_of state (numbered request) }
    {
        for number in 0..self.agents.len() {
            let hart = HartId::at(number);
            if self.conflicts(request, hart) {
                return Some(hart);
            }
        }
        None
    }

    /// The least other hart that holds the line of a request.
    #[tactic(auto, using(crate::proofs::Firsts::first_past))]
    fn holder(&self, request: Request) -> Option<HartId>
        requires ready { IsReady (bus_state self.now) }
        ensures { (state : ModelState) → Shows (bus_state self.now) state →
            option_map number_of result ≡ model.holder_of state request.hart.number request.line.number }
    {
        for number in 0..self.agents.len() {
            let hart = HartId::at(number);
            if self.is_other_holder(request, hart) {
                return Some(hart);
            }
        }
        None
    }

    /// Whether a hart is another than that of a request, and holds its line.
    fn is_other_holder(&self, request: Request, hart: HartId) -> bool
        requires { hart.number < length (bus_state self.now).agents }
        ensures { (state : ModelState) → Shows (bus_state self.now) state → result
            ≡ (not (hart.number == request.hart.number)
            && is_held (hart_of state hart.number).held_line request.line.number) }
    {
        hart != request.hart && self.agents[usize::from(hart.number)].holds(request.line)
    }
}
