use std::fmt::{self, Display, Formatter};

/// What of a run a machine agrees with: this many events, and the end where the run tells one.
#[derive(Clone, Copy, Debug, PartialEq, Eq)]
pub enum Agreement {
    Events(usize),
    EventsAndEnd(usize),
}

impl Display for Agreement {
    fn fmt<W: fmt::Write>(&self, f: &mut Formatter<W>) -> fmt::Result {
        match self {
            Agreement::Events(count) => write!(f, "{count} events agree"),
            Agreement::EventsAndEnd(count) => write!(f, "{count} events and the end agree"),
        }
    }
}
