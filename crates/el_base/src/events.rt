ghost use Rattle.std.specs.Prelude.{◌≡◌, ◌<◌, ◌≤◌, ◌↔◌, IsNone, IfSome};
ghost use Rattle.el_base.specs.Kinds.{kind_number};

use crate::hart_id::HartId;

/// What a hart does in one event of a machine.
///
/// The kinds, and their order, are this project's profile: drivers make the events of a hart in it.
#[derive(Clone, Copy, Debug, PartialEq, Eq)]
pub enum Kind {
    /// The hart runs its next instruction, or tries to.
    Step,
    /// The hart's raised request takes its place in the order of the bus.
    Order,
    /// The hart's ordered request is served.
    Serve,
    /// The hart takes the oldest message from its mailbox.
    Deliver,
}

impl Kind {
    /// The number of the kind, 0 to 3: its place in a hart's turn, and its code in a trace.
    pub fn number(self) -> u8
        ensures exact { result ≡ kind_number self }
        ensures small { result ≤ 3 }
    {
        match self {
            Kind::Step => 0,
            Kind::Order => 1,
            Kind::Serve => 2,
            Kind::Deliver => 3,
        }
    }

    /// The kind of this number, or `None` where the number is above 3.
    pub fn with_number(number: u8) -> Option<Kind>
        ensures none_exactly_above_3 { IsNone result ↔ (3 < number) }
        ensures number_kept { IfSome result (λ kind. kind_number kind ≡ number) }
    {
        match number {
            0 => Some(Kind::Step),
            1 => Some(Kind::Order),
            2 => Some(Kind::Serve),
            3 => Some(Kind::Deliver),
            _ => None,
        }
    }
}

/// One atomic step of a machine: what is done, and by which hart.
#[derive(Clone, Copy, Debug, PartialEq, Eq)]
pub struct Event {
    pub kind: Kind,
    pub hart: HartId,
}
