//! What a hart has at the bus beside its cache.

ghost use Rattle.std.specs.Prelude.{◌≡◌, ◌<◌, ◌==◌, IfOk, None, Some, length, not, slice_get};
ghost use Rattle.std.specs.Option.{option_map};
ghost use Rattle.bus_agent.specs.Agent.{
  agent_behind,
  agent_closed,
  agent_forgetting,
  agent_noted,
  agent_opened,
  agent_posted,
  agent_seeing,
  agent_served,
  agent_taken,
  agent_told,
  new_agent,
};
ghost use Rattle.bus_order.specs.Order as order;
ghost use Rattle.defer_list.specs.HartSet.{has};
ghost use Rattle.el_model.specs.State.{is_held};
ghost use Rattle.mail.specs.Mailbox as mailbox;
ghost use Rattle.stamp.specs.Stamps.{numbered_stamp};

use bus_order::Request;
use defer_list::Told;
use el_base::{HartId, LineAddr, Mode, NoMemory};
use mail::{Mail, Message};
use stamp::{Stamp, next_clock};
use std::alloc::Global;
use std::marker::Model;

/// A hart's agent at the bus.
#[derive(Drop)]
pub struct Agent {
    /// The request that the hart has raised, until it is in the order.
    raised: Option<Request>,
    /// The line that it was served, until its next step.
    held_line: Option<LineAddr>,
    /// The messages that have come to it.
    mail: Mail,
    /// The origins of probes that have reached it.
    told: Told,
    /// The harts that are before it, from which it took a marker.
    upstream: Told,
    /// The clock of its next attempt.
    clock: u64,
    /// The greatest clock of another hart's stamp that it has met.
    seen: u64,
    /// The stamp of its open attempt.
    attempt: Option<Stamp>,
    /// How many instructions its armed section has run; 0 where it is not armed.
    armed: u8,
}

impl Model for Agent {
    ghost use Rattle.std.specs.Option.{option_map};
    ghost use Rattle.bus_order.specs.Order.{numbered};
    ghost use Rattle.stamp.specs.Stamps.{numbered_stamp};
    ghost use Rattle.bus_agent.specs.Agent as definition;

    ghost Value = { definition.Agent };

    ghost view = { λ agent. record {
      raised = option_map numbered agent.raised;
      held_line = option_map (λ line. line.number) agent.held_line;
      mail = agent.mail;
      told = agent.told;
      upstream = agent.upstream;
      clock = agent.clock;
      seen = agent.seen;
      attempt = option_map numbered_stamp agent.attempt;
      armed = agent.armed;
    } };
}

impl Agent {
    /// The agent of a hart that has asked for nothing yet.
    pub fn make(alloc: Global) -> Result<Agent, NoMemory>
        ensures { IfOk result (λ agent. agent ≡ new_agent) }
    {
        let mail = Mail::make(alloc)?;
        Ok(Agent {
            raised: None,
            held_line: None,
            mail,
            told: Told::new(),
            upstream: Told::new(),
            clock: 0,
            seen: 0,
            attempt: None,
            armed: 0,
        })
    }

    /// The request that the hart has raised, if it is not ordered yet.
    pub fn raised(&self) -> Option<Request>
        ensures { option_map order.numbered result ≡ self.now.raised }
    {
        self.raised
    }

    /// Whether the hart holds a line until its next step.
    pub fn holds(&self, line: LineAddr) -> bool
        ensures { result ≡ is_held self.now.held_line line.number }
    {
        match self.held_line {
            Some(held_line) => held_line == line,
            None => false,
        }
    }

    /// The line that the hart holds until its next step, if it holds one.
    pub fn held_line(&self) -> Option<LineAddr>
        ensures { option_map (λ line. line.number) result ≡ self.now.held_line }
    {
        self.held_line
    }

    /// The clock of the hart's next attempt.
    pub fn clock(&self) -> u64
        ensures { result ≡ self.now.clock }
    {
        self.clock
    }

    /// The greatest clock of another hart's stamp that the hart has met.
    pub fn seen(&self) -> u64
        ensures { result ≡ self.now.seen }
    {
        self.seen
    }

    /// The message at a place of the hart's mailbox, of which the oldest has 0; `None` past the last one.
    pub fn message(&self, place: usize) -> Option<Message>
        ensures { option_map mailbox.numbered result ≡ slice_get self.now.mail place }
    {
        self.mail.message(place)
    }

    /// The stamp of the hart's open attempt.
    pub fn attempt(&self) -> Option<Stamp>
        ensures { option_map numbered_stamp result ≡ self.now.attempt }
    {
        self.attempt
    }

    /// How many instructions the hart's armed section is noted to have run; 0 where the hart is not armed.
    pub fn armed(&self) -> u8
        ensures { result ≡ self.now.armed }
    {
        self.armed
    }

    /// Whether the hart was told of an origin.
    pub fn knows(&self, origin: HartId) -> bool
        ensures { result ≡ has self.now.told origin.number }
    {
        self.told.told(origin)
    }

    /// Whether the hart is known to be behind another.
    pub fn is_behind(&self, other: HartId) -> bool
        ensures { result ≡ has self.now.upstream other.number }
    {
        self.upstream.told(other)
    }

    /// Whether there is a message in the hart's mailbox.
    pub fn has_mail(&self) -> bool
        ensures { result ≡ not (length self.now.mail == 0) }
    {
        !self.mail.is_empty()
    }

    /// The hart raises a request.
    pub fn raise(&mut self, request: Request)
        ensures { self.new ≡ record self.old { raised = Some (order.numbered request) } }
    {
        self.raised = Some(request);
    }

    /// The request that the hart has raised is taken, if there is one.
    pub fn take_raised(&mut self) -> Option<Request>
        ensures taken { option_map order.numbered result ≡ self.old.raised }
        ensures rest { self.new ≡ record self.old { raised = None } }
    {
        let request = self.raised;
        self.raised = None;
        request
    }

    /// The hart holds a line.
    pub fn hold(&mut self, line: LineAddr)
        ensures { self.new ≡ record self.old { held_line = Some line.number } }
    {
        self.held_line = Some(line);
    }

    /// The hart holds no line any more.
    pub fn give_up(&mut self)
        ensures { self.new ≡ record self.old { held_line = None } }
    {
        self.held_line = None;
    }

    /// A message comes into the hart's mailbox.
    pub fn post(&mut self, message: Message)
        ensures { self.new ≡ agent_posted (mailbox.numbered message) self.old }
    {
        self.mail.post(message);
    }

    /// The oldest message is taken out of the mailbox.
    pub fn next(&mut self) -> Option<Message>
        ensures oldest { option_map mailbox.numbered result ≡ mailbox.oldest self.old.mail }
        ensures rest { self.new ≡ agent_taken self.old }
    {
        self.mail.next()
    }

    /// What came with an origin's request is forgotten, as that is served.
    pub fn forget(&mut self, origin: HartId)
        ensures { self.new ≡ agent_forgetting origin.number self.old }
    {
        self.mail.purge(origin);
        self.told.purge(origin);
    }

    /// The hart's own request is served: no hart is before it any more.
    pub fn be_served(&mut self)
        ensures { self.new ≡ agent_served self.old }
    {
        self.mail.purge_markers();
        self.upstream = Told::new();
    }

    /// The hart is told of an origin.
    pub fn tell(&mut self, origin: HartId)
        ensures { self.new ≡ agent_told origin.number self.old }
    {
        self.told.add(origin);
    }

    /// The hart knows from now on that another is before it.
    pub fn come_behind(&mut self, other: HartId)
        ensures { self.new ≡ agent_behind other.number self.old }
    {
        self.upstream.add(other);
    }

    /// The hart has seen a stamp, if there is one.
    pub fn see(&mut self, stamp: Option<Stamp>)
        ensures { self.new ≡ agent_seeing (option_map numbered_stamp stamp) self.old }
    {
        if let Some(stamp) = stamp {
            self.seen = self.seen.max(stamp.clock);
        }
    }

    /// In lock removal an attempt opens, with the hart's clock, where none is open.
    pub fn open_attempt(&mut self, mode: Mode, hart: HartId)
        ensures { self.new ≡ agent_opened mode hart.number self.old }
    {
        if mode == Mode::Tlr && self.attempt.is_none() {
            self.attempt = Some(Stamp {
                clock: self.clock,
                hart,
            });
        }
    }

    /// The hart is noted as armed, with the number of instructions that its section has run; 0 where it is not.
    pub fn note_armed(&mut self, count: u8)
        ensures { self.new ≡ agent_noted count self.old }
    {
        self.armed = count;
    }

    /// The open attempt closes, if there is one, and the clock goes on.
    pub fn close_attempt(&mut self)
        requires clock_below_the_last { self.old.clock < u64.MAX }
        requires seen_below_the_last { self.old.seen < u64.MAX }
        ensures { self.new ≡ agent_closed self.old }
    {
        if self.attempt.is_some() {
            self.clock = next_clock(self.clock, self.seen);
            self.attempt = None;
        }
    }
}
