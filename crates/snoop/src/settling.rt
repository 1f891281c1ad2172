//! Each hart has its fate as the head of a line is faced.

ghost use Rattle.std.specs.Prelude.{◌≡◌, ◌<◌, ◌≤◌, ◌==◌, ℕ, None, if◌then◌else◌, length};
ghost use Rattle.std.specs.Option.{option_map};
ghost use Rattle.bus_order.specs.Order.{numbered};
ghost use Rattle.el_base.specs.Losers.{beaten_by, losers_of};
ghost use Rattle.el_model.specs.Face.{winner_in};
ghost use Rattle.snoop.specs.Changing.{ClearsIf};
ghost use Rattle.snoop.specs.Fates.{fate_in, numbered_fate};
ghost use Rattle.snoop.specs.Settled.{AreSettledBelow, IsSettledAt, loses, marker_sent, markers_sent, stamp_seen};
ghost use Rattle.snoop.specs.Shows.{IsReady, holding_of, bus_state};
ghost use Rattle.stamp.specs.Stamps.{numbered_stamp};

use crate::bus::Bus;
use crate::fates::Fate;
use bus_agent::{Agent, post, see};
use bus_order::Request;
use coherence::Hierarchy;
use el_base::{HartId, Losers, Mode};
use mail::Message;
use stamp::Stamp;

/// A loser's cache has no bits any more.
fn clear_loser(hierarchy: &mut Hierarchy, hart: HartId, fate: Fate)
    requires { hart.number < length (holding_of hierarchy.old).caches }
    ensures { ClearsIf (loses (numbered_fate fate)) hart.number (holding_of hierarchy.old) (holding_of hierarchy.new) }
{
    match fate {
        Fate::LosesTo { .. } => hierarchy.clear(hart),
        Fate::Unmet | Fate::Stays => (),
    }
}

/// A hart that stays sends a marker.
fn send_marker(agents: &mut Vec<Agent>, from: HartId, to: HartId, fate: Fate)
    ensures { agents.new.items ≡ marker_sent (numbered_fate fate) from.number to.number agents.old.items }
{
    match fate {
        Fate::Stays => post(agents, to, Message::Marker { from }),
        Fate::Unmet | Fate::LosesTo { .. } => (),
    }
}

/// The harts that stay send their markers, in ascending order.
pub fn send_markers(agents: &mut Vec<Agent>, to: HartId, fates: &[Fate])
    requires { length fates.now ≤ 8 }
    ensures { agents.new.items ≡ markers_sent 0 fates.now to.number agents.old.items }
{
    for number in 0..fates.len() {
        send_marker(agents, HartId::at(number), to, fates[number]);
    }
}

/// These losers and a hart, if it loses.
fn with_loser(losers: Losers, hart: HartId, fate: Fate) -> Losers
    requires { beaten_by losers hart.number ≡ None }
    ensures { (h : ℕ) →
        beaten_by result h ≡ (if h == hart.number then winner_in (numbered_fate fate) else beaten_by losers h) }
{
    match fate {
        Fate::LosesTo { winner } => losers.with(hart, winner),
        Fate::Unmet | Fate::Stays => losers,
    }
}

/// The harts that lose, each with its winner.
pub fn losers_by(fates: &[Fate]) -> Losers
    requires { length fates.now ≤ 8 }
    ensures { result ≡ losers_of (λ h. winner_in (fate_in fates.now h)) }
{
    let mut losers = Losers::none();
    for number in 0..fates.len() {
        losers = with_loser(losers, HartId::at(number), fates[number]);
    }
    losers
}

impl Bus {
    /// The stamp that a hart sees as it has its fate, in lock removal.
    fn stamp_seen(&self, head: Request, fate: Fate) -> Option<Stamp>
        ensures { option_map numbered_stamp result ≡
            stamp_seen (bus_state self.now).mode (bus_state self.now).order (numbered head) (numbered_fate fate) }
    {
        match (self.mode, fate) {
            (Mode::Tlr, Fate::LosesTo { winner }) => self.stamp_on(head.line, winner),
            (Mode::Tlr, Fate::Stays) => head.stamp,
            _ => None,
        }
    }

    /// A hart has its fate: a loser has no bits any more, and in lock removal it has seen its winner's stamp; a
    /// hart that stays has seen the head's there.
    fn settle(&mut self, head: Request, hart: HartId, fate: Fate)
        requires { hart.number < length (bus_state self.old).copies.caches }
        ensures { IsSettledAt (numbered head) (numbered_fate fate) hart.number (bus_state self.old) (bus_state self.new) }
    {
        let stamp = self.stamp_seen(head, fate);
        see(&mut self.agents, hart, stamp);
        clear_loser(&mut self.hierarchy, hart, fate);
    }

    /// Each hart has its fate.
    pub(crate) fn settle_all(&mut self, head: Request, fates: &[Fate])
        requires count { length fates.now ≡ length (bus_state self.old).agents }
        requires ready { IsReady (bus_state self.old) }
        ensures { AreSettledBelow (numbered head) (fate_in fates.now) (length fates.now)
            (bus_state self.old) (bus_state self.new) }
    {
        for number in 0..fates.len() {
            self.settle(head, HartId::at(number), fates[number]);
        }
    }
}
