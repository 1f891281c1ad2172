//! An ordered request is served, or something is in its way.

ghost use Rattle.std.specs.Prelude.{◌≡◌, ◌<◌, Some, length, true};
ghost use Rattle.bus_order.specs.Order.{numbered, request_of};
ghost use Rattle.coherence.specs.Lent.{IsLentTo, LeavesHolds};
ghost use Rattle.coherence.specs.Served.{HasLine, IsCoherent, caches_of, has_room, lines_after, shown_copies};
ghost use Rattle.el_model.specs.Serve as serving;
ghost use Rattle.el_model.specs.Serve.{Free};
ghost use Rattle.el_model.specs.Face.{freed_if, met_if, met_losers_if};
ghost use Rattle.el_model.specs.State.{ModelState, head_of};
ghost use Rattle.snoop.specs.Deciding.{DecidesIn};
ghost use Rattle.snoop.specs.Leaving.{EndsSections, LeavesTold, MovesAndEnds};
ghost use Rattle.snoop.specs.MainMemory.{lines_served};
ghost use Rattle.snoop.specs.Serving.{CopiesServe, Serves};
ghost use Rattle.snoop.specs.Shows.{IsReady, IsTold, Shows, bus_state, lent_copies};

use crate::bus::Bus;
use crate::face::Met;
use bus_agent::{claim, forget};
use bus_order::Request;
use coherence::Hierarchy;
use el_base::{HartId, LineAddr, Outcome};
use line_pool::Pool;
use policy::Policy;

impl Bus {
    /// The request that the hart has ordered is served, where it is the head of its line, no section retains the line
    /// and no other hart holds it: the line comes into the hart's cache with the letter that its need gives, the
    /// other copies give it up, and a line that leaves for it is written back where main memory is behind. A live
    /// section gets its bit on the line, and a hart without one holds the line until its next step. The next request
    /// of the line, if there is one, is met, as by `order`, and the outcome tells which sections lost, and who was let
    /// go, with the number of instructions. `Blocked` tells the first thing that is in the way, with its hart, and then
    /// nothing changes. It is `Idle` exactly where the hart has nothing in the order. In the plain mode the policy is
    /// never asked.
    #[tactic(auto, unfolding(el_model::specs::Serve::serve_turn))]
    pub fn serve<P: Policy>(&mut self, pool: &mut Pool, hart: HartId, policy: &P) -> Outcome
        requires hart_exists { hart.number < length (bus_state self.old).agents }
        requires ready { IsReady (bus_state self.old) }
        requires told { IsTold pool.old (bus_state self.old) }
        requires policy { DecidesIn (bus_state self.old).mode (P.beats policy.now) }
        ensures leaves { MovesAndEnds (λ state. (serving.serve_turn state hart.number).state) pool.old pool.new
            (bus_state self.old) (bus_state self.new) }
        ensures outcome { (state : ModelState) → Shows (bus_state self.old) state →
            result ≡ (serving.serve_turn state hart.number).outcome }
        ensures memory { (bus_state self.new).copies.lines ≡ lines_served pool.old (bus_state self.old) hart.number result }
    {
        match self.order.of(hart) {
            Some(request) => self.serve_past(pool, request, policy),
            None => Outcome::Idle,
        }
    }

    /// A request is served where nothing is in its way.
    fn serve_past<P: Policy>(&mut self, pool: &mut Pool, request: Request, policy: &P) -> Outcome
        requires ready { IsReady (bus_state self.old) }
        requires told { IsTold pool.old (bus_state self.old) }
        requires ordered { request_of (bus_state self.old).order request.hart.number ≡ Some (numbered request) }
        requires policy { DecidesIn (bus_state self.old).mode (P.beats policy.now) }
        ensures leaves { MovesAndEnds
            (λ state. (serving.serve_past state (numbered request) (serving.obstacle_to state (numbered request))).state)
            pool.old pool.new (bus_state self.old) (bus_state self.new) }
        ensures outcome { (state : ModelState) → Shows (bus_state self.old) state → result
            ≡ (serving.serve_past state (numbered request) (serving.obstacle_to state (numbered request))).outcome }
        ensures memory { (bus_state self.new).copies.lines ≡ lines_served pool.old (bus_state self.old) request.hart.number result }
    {
        match self.blocked(request) {
            Some(outcome) => outcome,
            None => {
                let Met { losers, freed } = self.serve_free(pool, request, policy);
                Outcome::Served { losers, freed }
            }
        }
    }

    /// A request that nothing is in the way of is served, and the next one of its line is met.
    fn serve_free<P: Policy>(&mut self, pool: &mut Pool, request: Request, policy: &P) -> Met
        requires ready { IsReady (bus_state self.old) }
        requires told { IsTold pool.old (bus_state self.old) }
        requires ordered { request_of (bus_state self.old).order request.hart.number ≡ Some (numbered request) }
        requires free { (state : ModelState) → Shows (bus_state self.old) state →
            serving.obstacle_to state (numbered request) ≡ Free }
        requires policy { DecidesIn (bus_state self.old).mode (P.beats policy.now) }
        ensures leaves { MovesAndEnds (λ state. (serving.served_turn state (numbered request)).state)
            pool.old pool.new (bus_state self.old) (bus_state self.new) }
        ensures losers { (state : ModelState) → Shows (bus_state self.old) state →
            result.losers ≡ serving.serve_losers state (numbered request) }
        ensures freed { (state : ModelState) → Shows (bus_state self.old) state →
            result.freed ≡ serving.serve_freed state (numbered request) }
        ensures memory { (bus_state self.new).copies.lines ≡
            lines_after request.hart.number request.line.number (lent_copies pool.old (bus_state self.old).copies) }
    {
        self.give_line(pool, request);
        self.meet_head(request.line, policy)
    }

    /// The head of a line is met, if there is one.
    fn meet_head<P: Policy>(&mut self, line: LineAddr, policy: &P) -> Met
        requires ready { IsReady (bus_state self.old) }
        requires policy { DecidesIn (bus_state self.old).mode (P.beats policy.now) }
        ensures leaves { EndsSections (λ state. met_if state (head_of state line.number))
            (bus_state self.old) (bus_state self.new) }
        ensures losers { (state : ModelState) → Shows (bus_state self.old) state →
            result.losers ≡ met_losers_if state (head_of state line.number) }
        ensures freed { (state : ModelState) → Shows (bus_state self.old) state →
            result.freed ≡ freed_if state (head_of state line.number) }
    {
        match self.order.first_of(line) {
            Some(head) => self.meet(head, policy),
            None => Met::nobody(),
        }
    }

    /// The line of a request comes to its hart, and what came with the request is forgotten. The request is the
    /// head of its line, and nothing is in its way.
    fn give_line(&mut self, pool: &mut Pool, request: Request)
        requires ready { IsReady (bus_state self.old) }
        requires told { IsTold pool.old (bus_state self.old) }
        requires ordered { request_of (bus_state self.old).order request.hart.number ≡ Some (numbered request) }
        requires free { (state : ModelState) → Shows (bus_state self.old) state →
            serving.obstacle_to state (numbered request) ≡ Free }
        ensures leaves { LeavesTold (Shows (bus_state self.old)) (λ state. serving.served state (numbered request))
            pool.old pool.new (bus_state self.old) (bus_state self.new) }
        ensures mode { (bus_state self.new).mode ≡ (bus_state self.old).mode }
        ensures memory { (bus_state self.new).copies.lines ≡
            lines_after request.hart.number request.line.number (lent_copies pool.old (bus_state self.old).copies) }
    {
        self.serve_parts(pool, request);
    }

    /// The same, part by part.
    fn serve_parts(&mut self, pool: &mut Pool, request: Request)
        requires ready { IsReady (bus_state self.old) }
        requires told { IsTold pool.old (bus_state self.old) }
        requires ordered { request_of (bus_state self.old).order request.hart.number ≡ Some (numbered request) }
        ensures { Serves (numbered request) pool.old pool.new (bus_state self.old) (bus_state self.new) }
    {
        let live = self.is_live(request.hart);
        fill(&mut self.hierarchy, pool, request, live);
        forget(&mut self.agents, request.hart);
        claim(&mut self.agents, request, live);
        self.order.remove(request.hart);
    }
}

/// The line of a request comes into its hart's cache, with a bit where the hart has a live section.
fn fill(hierarchy: &mut Hierarchy, pool: &mut Pool, request: Request, live: bool)
    requires hart_exists { request.hart.number < length (caches_of hierarchy.old) }
    requires lent { IsLentTo pool.old (caches_of hierarchy.old) }
    requires in_memory { HasLine (shown_copies pool.old hierarchy.old) request.line.number }
    requires room { has_room (shown_copies pool.old hierarchy.old) request.hart.number request.line.number ≡ true }
    requires coherent { IsCoherent (shown_copies pool.old hierarchy.old) }
    ensures served { CopiesServe live (numbered request) (shown_copies pool.old hierarchy.old) (shown_copies pool.new hierarchy.new) }
    ensures lent { IsLentTo pool.new (caches_of hierarchy.new) }
    ensures holds { LeavesHolds pool.old pool.new }
{
    hierarchy.serve(pool, request.hart, request.line, request.need);
    if live {
        hierarchy.mark(request.hart, request.line, request.need);
    }
}
