//! One event.

ghost use Rattle.std.specs.Prelude.{◌≡◌, ◌<◌, ◌↔◌, length, true, false};
ghost use Rattle.el_model.specs.Next.{going_turn, step_turn};
ghost use Rattle.el_model.specs.State.{ModelState, has_request, section_of};
ghost use Rattle.engine.specs.Acting.{MayAct, MayActSomewhere, next_action};
ghost use Rattle.engine.specs.Parts.{IsInState, committed_at, parts, room_in};
ghost use Rattle.engine.specs.Reached.{IsReached, EngineStands};
ghost use Rattle.engine.specs.Turns.{TakesEvent, TakesTurn};
ghost use Rattle.rv_alu.specs.Footprint.{IsInPlace};
ghost use Rattle.rv_alu.specs.declared.view.HartStatus.TheVariants.{Running};
ghost use Rattle.snoop.specs.Shows.{Shows};

use crate::engine::Engine;
use el_base::{Event, HartId, Kind, Outcome};
use rv_alu::{Action, HartStatus};
use snoop::Asked;

impl Engine {
    /// One event: whatever state that a program reaches the parts are in, they are in the state after the event then,
    /// with its outcome. It takes no memory.
    #[inline(always)]
    pub fn step(&mut self, event: Event) -> Outcome
        requires hart_exists { event.hart.number < length (parts self.old).harts }
        requires stands { EngineStands (parts self.old) }
        ensures { TakesEvent event (parts self.old) (parts self.new) result }
    {
        if self.finds_nothing(event) {
            Outcome::Idle
        } else {
            self.turn(event)
        }
    }

    /// The same, by the kind of the event. Its body is large, and apart from the small one of `step`.
    #[inline(never)]
    #[tactic(auto, unfolding(el_model::specs::Next::next))]
    fn turn(&mut self, event: Event) -> Outcome
        requires hart_exists { event.hart.number < length (parts self.old).harts }
        requires stands { EngineStands (parts self.old) }
        ensures { TakesEvent event (parts self.old) (parts self.new) result }
    {
        match event.kind {
            Kind::Step => self.step_of(event.hart),
            Kind::Order | Kind::Serve | Kind::Deliver => self.on_bus(event),
        }
    }

    /// A step of a hart: one that has stopped has nothing to do.
    fn step_of(&mut self, hart: HartId) -> Outcome
        requires hart_exists { hart.number < length (parts self.old).harts }
        requires stands { EngineStands (parts self.old) }
        ensures { TakesTurn (λ state. IsReached state × IsInState (parts self.old) state)
            (λ state. step_turn state hart.number) (parts self.old) (parts self.new) result }
    {
        if self.runs(hart) {
            self.go_on(hart)
        } else {
            Outcome::Idle
        }
    }

    /// Whether a hart has not stopped, by its committed view.
    pub(crate) fn runs(&self, hart: HartId) -> bool
        requires { hart.number < length (parts self.now).harts }
        ensures { (result ≡ true) ↔ ((committed_at (parts self.now).harts hart.number).status ≡ Running) }
    {
        self.harts[usize::from(hart.number)].committed().status == HartStatus::Running
    }

    /// A step of a hart that runs: one whose request stands waits for it.
    fn go_on(&mut self, hart: HartId) -> Outcome
        requires hart_exists { hart.number < length (parts self.old).harts }
        requires stands { EngineStands (parts self.old) }
        requires running { (committed_at (parts self.old).harts hart.number).status ≡ Running }
        ensures { TakesTurn (λ state. IsReached state × IsInState (parts self.old) state)
            (λ state. step_turn state hart.number) (parts self.old) (parts self.new) result }
    {
        if self.waits(hart) {
            Outcome::Stalled
        } else {
            self.give_up_and_act(hart)
        }
    }

    /// Whether a hart waits for a request of its own.
    #[tactic(auto, using(crate::proofs::Laws::BusEvents::hart_exists))]
    fn waits(&self, hart: HartId) -> bool
        requires hart_exists { hart.number < length (parts self.now).harts }
        requires stands { EngineStands (parts self.now) }
        ensures { (state : ModelState) → Shows (parts self.now).bus state → result ≡ has_request state hart.number }
    {
        match self.bus.request(hart) {
            Asked::Nothing => false,
            Asked::Raised { .. } => true,
            Asked::Placed { .. } => true,
        }
    }

    /// A step of a hart that waits for nothing: it gives up the line that it holds, if it holds one, and does what
    /// comes next.
    #[tactic(auto, using(crate::proofs::Laws::BusEvents::hart_exists))]
    fn give_up_and_act(&mut self, hart: HartId) -> Outcome
        requires hart_exists { hart.number < length (parts self.old).harts }
        requires stands { EngineStands (parts self.old) }
        requires running { (committed_at (parts self.old).harts hart.number).status ≡ Running }
        requires free { (state : ModelState) → Shows (parts self.old).bus state → has_request state hart.number ≡ false }
        ensures { TakesTurn (λ state. IsReached state × IsInState (parts self.old) state)
            (λ state. step_turn state hart.number) (parts self.old) (parts self.new) result }
    {
        self.bus.give_up(hart);
        self.act(hart)
    }

    /// What a hart does next that waits for nothing and holds nothing: outside of a section, in its armed one, or in its
    /// live one.
    fn act(&mut self, hart: HartId) -> Outcome
        requires { MayActSomewhere (parts self.old) hart.number }
        ensures { TakesTurn (λ from. MayAct (parts self.old) hart.number from)
            (λ from. going_turn from hart.number (section_of from hart.number)) (parts self.old) (parts self.new)
            result }
    {
        let action = self.fetch_action(hart);
        let section = self.harts[usize::from(hart.number)].section();
        match (section.live(), section.armed()) {
            (Some(_), _) => self.act_inside(hart, action),
            (None, Some(armed)) => self.act_armed(hart, action, armed),
            (None, None) => self.act_outside(hart, action),
        }
    }

    /// The action that a hart comes to next, as it sees itself. Its instruction is kept decoded.
    fn fetch_action(&mut self, hart: HartId) -> Action
        requires { hart.number < length (parts self.old).harts }
        ensures value { result ≡ next_action (parts self.old) hart.number }
        ensures in_place { IsInPlace (parts self.old).span (room_in (parts self.old)) result }
        ensures same { parts self.new ≡ parts self.old }
    {
        let view = self.harts[usize::from(hart.number)].shown();
        self.code.next(view, self.span, self.output.room())
    }
}
