//! A hart takes the oldest message of its mailbox.

ghost use Rattle.std.specs.Prelude.{◌≡◌, ◌<◌, ◌≤◌, ◌&&◌, Option, None, Some};
ghost use Rattle.std.specs.Prelude.{is_some, length, if◌then◌else◌};
ghost use Rattle.std.specs.Option.{option_map};
ghost use Rattle.bus_agent.specs.Agent.{agent_at};
ghost use Rattle.bus_order.specs.Order.{numbered, request_of};
ghost use Rattle.defer_list.specs.HartSet.{has};
ghost use Rattle.el_model.specs.Conflicts.{retains, stamp_in};
ghost use Rattle.el_model.specs.Deliver as delivery;
ghost use Rattle.el_model.specs.State.{ModelState, for_line, hart_of, ordered_of, with_hart};
ghost use Rattle.mail.specs.Mailbox as mailbox;
ghost use Rattle.mail.specs.Mailbox.{Marker, Probe};
ghost use Rattle.snoop.specs.Delivering.{IsForwarded, IsLostTo, asks_on, marker_taken, numbers_from, passes};
ghost use Rattle.snoop.specs.Delivering.{probe_sent, probes_sent};
ghost use Rattle.snoop.specs.Leaving.{LeavesCopies, LosesSections};
ghost use Rattle.snoop.specs.Settled.{in_removal};
ghost use Rattle.snoop.specs.Shows.{IsReady, Shows, bus_state};
ghost use Rattle.stamp.specs.Stamps as stamps;

use crate::bus::Bus;
use crate::fates::is_before;
use bus_agent::{come_behind, forward_all, hear, post, take_message};
use bus_order::Request;
use el_base::{HartId, LineAddr, Losers, Mode, Outcome};
use mail::Message;
use stamp::Stamp;

impl Bus {
    /// The oldest message of the hart's mailbox is taken out, and takes effect. After a marker its sender is before
    /// the hart, and is sent a probe of the hart, and of each origin that the hart was told of and that is ordered on
    /// the line of the hart's own request. A probe tells the hart of its origin, where it was not told before: a
    /// section that retains the line of the origin's request loses to an earlier stamp, and the outcome tells it;
    /// and where the hart has itself a request there, the probe is forwarded to the harts before it. It is `Idle`
    /// exactly where the mailbox is empty.
    ///
    /// The idea of markers and probes is that of R. Rajwar and J. R. Goodman, 'Transactional Lock-Free Execution of
    /// Lock-Based Programs', ASPLOS 2002.
    pub fn deliver(&mut self, hart: HartId) -> Outcome
        requires hart_exists { hart.number < length (bus_state self.old).agents }
        requires ready { IsReady (bus_state self.old) }
        ensures leaves { LosesSections (λ state. (delivery.deliver_turn state hart.number).state)
            (bus_state self.old) (bus_state self.new) }
        ensures outcome { (state : ModelState) → Shows (bus_state self.old) state →
            result ≡ (delivery.deliver_turn state hart.number).outcome }
    {
        match self.take_message(hart) {
            Some(message) => Outcome::Delivered {
                losers: self.take_effect(hart, message),
            },
            None => Outcome::Idle,
        }
    }

    /// The oldest message is taken out of the hart's mailbox.
    fn take_message(&mut self, hart: HartId) -> Option<Message>
        requires hart_exists { hart.number < length (bus_state self.old).agents }
        requires ready { IsReady (bus_state self.old) }
        ensures leaves { LeavesCopies
            (λ state. delivery.taken state hart.number (mailbox.without_oldest (hart_of state hart.number).mail))
            (bus_state self.old) (bus_state self.new) }
        ensures hart_exists { hart.number < length (bus_state self.new).agents }
        ensures message { (state : ModelState) → Shows (bus_state self.old) state →
            option_map mailbox.numbered result ≡ mailbox.oldest (hart_of state hart.number).mail }
    {
        take_message(&mut self.agents, hart)
    }

    /// A message that was taken takes effect.
    #[tactic(auto, unfolding(el_model::specs::Deliver::delivered))]
    fn take_effect(&mut self, hart: HartId, message: Message) -> Losers
        requires hart_exists { hart.number < length (bus_state self.old).agents }
        requires ready { IsReady (bus_state self.old) }
        ensures leaves { LosesSections (λ state. delivery.delivered state hart.number (mailbox.numbered message))
            (bus_state self.old) (bus_state self.new) }
        ensures losers { (state : ModelState) → Shows (bus_state self.old) state →
            result ≡ delivery.losers_by state hart.number (mailbox.numbered message) }
    {
        match message {
            Message::Marker { from } => {
                self.take_marker(hart, from);
                Losers::none()
            }
            Message::Probe { origin } => self.take_probe(hart, origin),
        }
    }

    /// The sender of a marker is before the hart from now on, and is sent what the hart knows.
    fn take_marker(&mut self, hart: HartId, sender: HartId)
        requires hart_exists { hart.number < length (bus_state self.old).agents }
        requires ready { IsReady (bus_state self.old) }
        ensures { LeavesCopies (λ state. delivery.after_marker state hart.number sender.number)
            (bus_state self.old) (bus_state self.new) }
    {
        self.answer_marker(hart, sender);
    }

    /// The same, agent by agent.
    fn answer_marker(&mut self, hart: HartId, sender: HartId)
        requires hart_exists { hart.number < length (bus_state self.old).agents }
        requires few { length (bus_state self.old).agents ≤ 8 }
        ensures { bus_state self.new ≡ record (bus_state self.old) {
          agents = marker_taken (bus_state self.old) hart.number sender.number;
        } }
    {
        come_behind(&mut self.agents, hart, sender);
        post(&mut self.agents, sender, Message::Probe { origin: hart });
        if let Some(own) = self.order.of(hart) {
            self.pass_on(hart, sender, own.line);
        }
    }

    /// A hart passes on to another what it was told of a line, one origin after another.
    #[tactic(auto, using(crate::proofs::Delivers::none_passed, crate::proofs::Delivers::one_passed, crate::proofs::Delivers::all_passed))]
    fn pass_on(&mut self, hart: HartId, to: HartId, line: LineAddr)
        requires hart_exists { hart.number < length (bus_state self.old).agents }
        requires few { length (bus_state self.old).agents ≤ 8 }
        ensures { bus_state self.new ≡ record (bus_state self.old) {
          agents = probes_sent
              (passes (agent_at (bus_state self.old).agents hart.number).told (bus_state self.old).order to.number line.number)
              (numbers_from 0 (length (bus_state self.old).agents)) to.number (bus_state self.old).agents;
        } }
    {
        for number in 0..self.agents.len() {
            self.pass_one(hart, to, line, HartId::at(number));
        }
    }

    /// A hart is sent a probe of an origin, if another was told of that and it is ordered on a line.
    fn pass_one(&mut self, hart: HartId, to: HartId, line: LineAddr, origin: HartId)
        requires { hart.number < length (bus_state self.old).agents }
        ensures { bus_state self.new ≡ record (bus_state self.old) {
          agents = probe_sent
              (passes (agent_at (bus_state self.old).agents hart.number).told (bus_state self.old).order
              to.number line.number origin.number)
              origin.number to.number (bus_state self.old).agents;
        } }
    {
        if origin != to && self.agent(hart).knows(origin) && self.is_ordered_on(line, origin) {
            post(&mut self.agents, to, Message::Probe { origin });
        }
    }

    /// A probe tells the hart of its origin, where it was not told before.
    fn take_probe(&mut self, hart: HartId, origin: HartId) -> Losers
        requires hart_exists { hart.number < length (bus_state self.old).agents }
        requires ready { IsReady (bus_state self.old) }
        ensures leaves { LosesSections
            (λ state. if has (hart_of state hart.number).told origin.number then state
            else delivery.after_probe state hart.number origin.number (ordered_of state origin.number))
            (bus_state self.old) (bus_state self.new) }
        ensures losers { (state : ModelState) → Shows (bus_state self.old) state → result
            ≡ (if has (hart_of state hart.number).told origin.number then delivery.nobody
            else delivery.probe_losers state hart.number origin.number (ordered_of state origin.number)) }
    {
        if self.agent(hart).knows(origin) {
            return Losers::none();
        }
        let request = self.order.of(origin);
        let losers = self.hear_of(hart, origin, request);
        self.forward(hart, origin, request);
        losers
    }

    /// The hart is told of an origin, whose request may cost it its section.
    fn hear_of(&mut self, hart: HartId, origin: HartId, request: Option<Request>) -> Losers
        requires hart_exists { hart.number < length (bus_state self.old).agents }
        requires ready { IsReady (bus_state self.old) }
        ensures leaves { LosesSections
            (λ state. with_hart state hart.number
            (delivery.told_of state hart.number origin.number (option_map numbered request)))
            (bus_state self.old) (bus_state self.new) }
        ensures losers { (state : ModelState) → Shows (bus_state self.old) state →
            result ≡ delivery.probe_losers state hart.number origin.number (option_map numbered request) }
        ensures hart_exists { hart.number < length (bus_state self.new).agents }
    {
        if self.loses_to_origin(hart, request) {
            self.lose_to(hart, origin, request);
            Losers::none().with(hart, origin)
        } else {
            hear(&mut self.agents, hart, origin, None);
            Losers::none()
        }
    }

    /// The hart is told of an origin, and its section has lost to the origin's request: its cache has no bits any
    /// more, and in lock removal the hart has seen the request's stamp.
    fn lose_to(&mut self, hart: HartId, origin: HartId, request: Option<Request>)
        requires hart_exists { hart.number < length (bus_state self.old).agents }
        requires ready { IsReady (bus_state self.old) }
        ensures { IsLostTo hart.number origin.number (option_map numbered request) (bus_state self.old) (bus_state self.new) }
    {
        let stamp = self.stamp_to_see(request);
        hear(&mut self.agents, hart, origin, stamp);
        self.hierarchy.clear(hart);
    }

    /// The stamp that is seen of a request, in lock removal.
    fn stamp_to_see(&self, request: Option<Request>) -> Option<Stamp>
        ensures { option_map stamps.numbered_stamp result ≡
            in_removal (bus_state self.now).mode (stamp_in (option_map numbered request)) }
    {
        match (self.mode, request) {
            (Mode::Tlr, Some(request)) => request.stamp,
            _ => None,
        }
    }

    /// Whether the hart's section retains the line of an origin's request and has the greater stamp.
    fn loses_to_origin(&self, hart: HartId, request: Option<Request>) -> bool
        requires hart_exists { hart.number < length (bus_state self.now).agents }
        requires ready { IsReady (bus_state self.now) }
        ensures { (state : ModelState) → Shows (bus_state self.now) state →
            result ≡ delivery.loses_to_origin state hart.number (option_map numbered request) }
    {
        match request {
            Some(request) => {
                self.retains(hart, request.line)
                    && is_before(request.stamp, self.agent(hart).attempt())
            }
            None => false,
        }
    }

    /// Whether the hart's section conflicts with the head of a line.
    fn retains(&self, hart: HartId, line: LineAddr) -> bool
        requires hart_exists { hart.number < length (bus_state self.now).agents }
        requires ready { IsReady (bus_state self.now) }
        ensures { (state : ModelState) → Shows (bus_state self.now) state →
            result ≡ retains state hart.number line.number }
    {
        match self.order.first_of(line) {
            Some(head) => self.conflicts(head, hart),
            None => false,
        }
    }

    /// The probe is forwarded to the harts before this one, where this one has itself a request on the line of the
    /// origin's.
    fn forward(&mut self, hart: HartId, origin: HartId, request: Option<Request>)
        requires hart_exists { hart.number < length (bus_state self.old).agents }
        requires few { length (bus_state self.old).agents ≤ 8 }
        ensures { IsForwarded hart.number origin.number (option_map numbered request) (bus_state self.old) (bus_state self.new) }
    {
        if self.asks_on(hart, request) {
            forward_all(&mut self.agents, hart, origin);
        }
    }

    /// Whether the hart is ordered on the line of a request.
    fn asks_on(&self, hart: HartId, request: Option<Request>) -> bool
        ensures { result ≡ asks_on (bus_state self.now).order hart.number (option_map numbered request) }
    {
        match request {
            Some(request) => self.is_ordered_on(request.line, hart),
            None => false,
        }
    }

    /// Whether a hart has a request in order on a line.
    fn is_ordered_on(&self, line: LineAddr, hart: HartId) -> bool
        ensures { result ≡ is_some (for_line line.number (request_of (bus_state self.now).order hart.number)) }
    {
        match self.order.of(hart) {
            Some(request) => request.line.number == line.number,
            None => false,
        }
    }
}
