//! What a trace says.

ghost use Rattle.std.specs.Prelude.{◌≡◌};

use el_base::{Config, Event, Outcome};
use std::marker::Model;

/// Events in the order in which they were made.
#[derive(Debug, Drop)]
pub struct Events {
    list: Vec<Event>,
}

impl Model for Events {
    ghost use Rattle.std.specs.Prelude.{List};
    ghost use Rattle.el_base.specs.declared.events.Event.{Event};

    ghost Value = { List Event };

    ghost view = { λ events. events.list.items };
}

impl Events {
    pub(crate) fn of_list(list: Vec<Event>) -> Events
        ensures { result ≡ list.items }
    {
        Events { list }
    }

    /// The events, the first one first.
    pub fn as_slice(&self) -> &[Event]
        ensures { result.now ≡ self.now }
    {
        &self.list
    }
}

/// The configuration of a run, the events that it made, and what came of each, where the trace tells that.
#[derive(Debug, Drop)]
pub struct Trace {
    pub config: Config,
    pub events: Events,
    /// One outcome an event, in the order of the events. `None` exactly where the file is of version 1.
    pub recorded: Option<Vec<Outcome>>,
}
