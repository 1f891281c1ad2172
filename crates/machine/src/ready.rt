//! Where a machine can get on.

ghost use Rattle.std.specs.Prelude.{◌≡◌, ◌<◌, ◌≤◌, ◌↔◌, IfSome, None, length, true};
ghost use Rattle.std.specs.List.{find};
ghost use Rattle.el_base.specs.declared.events.Kind.TheVariants as kinds;
ghost use Rattle.el_model.specs.Next.{is_over};
ghost use Rattle.el_model.specs.State.{has_request};
ghost use Rattle.machine.specs.Story.{state_of};
ghost use Rattle.progress_laws.specs.Ready.{events_of, gets_on, ready_event};
ghost use Rattle.rv_alu.specs.declared.view.HartStatus.TheVariants.{Running};
ghost use Rattle.rv_flat.specs.FlatState.{status_of};

use crate::machine::Machine;
use el_base::{Event, HartId, Kind};
use engine::Asked;
use rv_alu::HartStatus;

impl Machine {
    /// The first event that is progress, by ascending hart and then as `Step`, `Order`, `Serve`, `Deliver`: one with
    /// something to do and nothing to wait for, whose outcome is none of `Idle`, `Stalled` and `Blocked`. `None`
    /// exactly where every hart has stopped. It makes no event.
    pub fn ready(&self) -> Option<Event>
        ensures first { result ≡ ready_event (state_of self.now) }
        ensures none_exactly_where_over { (result ≡ None) ↔ (is_over (state_of self.now) ≡ true) }
        ensures hart_exists { IfSome result (λ event. event.hart.number < self.now.config.harts) }
    {
        let harts = self.config().harts;
        self.first_ready(harts)
    }

    /// The same, hart by hart.
    fn first_ready(&self, harts: u8) -> Option<Event>
        requires few { harts ≤ 8 }
        requires configured { harts ≡ self.now.config.harts }
        requires all { harts ≡ length (state_of self.now).harts }
        ensures first { result ≡ ready_event (state_of self.now) }
        ensures hart_exists { IfSome result (λ event. event.hart.number < self.now.config.harts) }
    {
        for number in 0..harts {
            let found = self.ready_of(HartId { number });
            if found.is_some() {
                return found;
            }
        }
        None
    }

    /// The first event of a hart that is progress.
    fn ready_of(&self, hart: HartId) -> Option<Event>
        requires { hart.number < self.now.config.harts }
        ensures first { result ≡ find (gets_on (state_of self.now)) (events_of hart.number) }
        ensures own { IfSome result (λ event. event.hart.number ≡ hart.number) }
    {
        if self.steps(hart) {
            Some(event(Kind::Step, hart))
        } else if self.raises(hart) {
            Some(event(Kind::Order, hart))
        } else if self.serves(hart) {
            Some(event(Kind::Serve, hart))
        } else if self.has_mail(hart) {
            Some(event(Kind::Deliver, hart))
        } else {
            None
        }
    }

    /// Whether a step of a hart is progress.
    fn steps(&self, hart: HartId) -> bool
        requires { hart.number < self.now.config.harts }
        ensures { result ≡ gets_on (state_of self.now) (record { kind = kinds.Step; hart = hart }) }
    {
        if self.runs(hart) {
            !self.waits(hart)
        } else {
            false
        }
    }

    /// Whether a hart has not stopped, by its committed view.
    fn runs(&self, hart: HartId) -> bool
        requires { hart.number < self.now.config.harts }
        ensures { (result ≡ true) ↔ (status_of (state_of self.now).committed hart.number ≡ Running) }
    {
        self.engine.hart(hart).status == HartStatus::Running
    }

    /// Whether a hart waits for a request of its own.
    fn waits(&self, hart: HartId) -> bool
        requires { hart.number < self.now.config.harts }
        ensures { result ≡ has_request (state_of self.now) hart.number }
    {
        match self.request(hart) {
            Asked::Nothing => false,
            Asked::Raised { .. } => true,
            Asked::Placed { .. } => true,
        }
    }

    /// Whether an order of a hart is progress: it has raised a request that has no place in the order yet.
    #[tactic(auto, using(crate::proofs::Readiness::order_goes))]
    fn raises(&self, hart: HartId) -> bool
        requires { hart.number < self.now.config.harts }
        ensures { result ≡ gets_on (state_of self.now) (record { kind = kinds.Order; hart = hart }) }
    {
        match self.request(hart) {
            Asked::Raised { .. } => true,
            Asked::Nothing => false,
            Asked::Placed { .. } => false,
        }
    }
    /// Whether a serve of a hart is progress: nothing is in the way of its ordered request.
    fn serves(&self, hart: HartId) -> bool
        requires { hart.number < self.now.config.harts }
        ensures { result ≡ gets_on (state_of self.now) (record { kind = kinds.Serve; hart = hart }) }
    {
        self.engine.bus().serves(hart)
    }

    /// Whether a delivery to a hart is progress: there is a message in its mailbox.
    fn has_mail(&self, hart: HartId) -> bool
        requires { hart.number < self.now.config.harts }
        ensures { result ≡ gets_on (state_of self.now) (record { kind = kinds.Deliver; hart = hart }) }
    {
        self.engine.bus().has_mail(hart)
    }
}

/// The event of a kind and a hart.
fn event(kind: Kind, hart: HartId) -> Event
    ensures { result ≡ record { kind = kind; hart = hart } }
{
    Event { kind, hart }
}
