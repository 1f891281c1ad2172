//! What becomes of each section as the head of a line is faced.

ghost use Rattle.std.specs.Prelude.{◌≡◌, ◌<◌, ℕ, Some, length};
ghost use Rattle.bus_agent.specs.Agent.{agent_at};
ghost use Rattle.bus_order.specs.Order.{numbered};
ghost use Rattle.el_model.specs.Conflicts.{earlier, told_winner};
ghost use Rattle.el_model.specs.Face.{deferring_fate, fate_at, told_fate};
ghost use Rattle.el_model.specs.State.{ModelState, hart_of};
ghost use Rattle.snoop.specs.Deciding.{DecidesIn};
ghost use Rattle.snoop.specs.Fates.{earlier_told, fate_in, nobody_met, number_of, numbered_fate, stamp_on};
ghost use Rattle.snoop.specs.Shows.{IsReady, Shows, bus_state};
ghost use Rattle.stamp.specs.Stamps as stamps;
ghost use Rattle.std.specs.Option.{option_map};

use crate::bus::Bus;
use arrayvec::ArrayVec;
use bus_order::Request;
use el_base::{HartId, LineAddr, Mode};
use policy::Policy;
use stamp::{Stamp, less};

/// What becomes of a hart's section as the head of a line is faced.
#[derive(Clone, Copy, Debug, PartialEq, Eq)]
pub enum Fate {
    /// The head does not meet it.
    Unmet,
    /// It does not lose, and defers the head.
    Stays,
    /// It loses to a hart.
    LosesTo { winner: HartId },
}

/// What stands in the places of a list of fates that are not used. It tells nothing.
impl Default for Fate {
    fn default() -> Fate {
        Fate::Unmet
    }
}

/// Whether the head meets no section.
pub fn nobody_met(fates: &[Fate]) -> bool
    ensures { result ≡ nobody_met fates.now }
{
    fates.iter().all(|fate| matches!(fate, Fate::Unmet))
}

/// In lock removal a section that does not lose to the head may lose to an origin.
fn told_fate(winner: Option<HartId>) -> Fate
    ensures { numbered_fate result ≡ told_fate (number_of winner) }
{
    match winner {
        Some(winner) => Fate::LosesTo { winner },
        None => Fate::Stays,
    }
}

/// Whether both stamps are there, and the first comes before the second.
pub fn is_before(first: Option<Stamp>, second: Option<Stamp>) -> bool
    ensures { result ≡
        stamps.is_before (option_map stamps.numbered_stamp first) (option_map stamps.numbered_stamp second) }
{
    match (first, second) {
        (Some(first), Some(second)) => less(first, second),
        _ => false,
    }
}

impl Bus {
    /// The stamp of the request that a hart has ordered on a line, if it has one there, and that has one.
    pub(crate) fn stamp_on(&self, line: LineAddr, hart: HartId) -> Option<Stamp>
        ensures { option_map stamps.numbered_stamp result ≡ stamp_on (bus_state self.now).order line.number hart.number }
    {
        match self.order.of(hart) {
            Some(request) if request.line.number == line.number => request.stamp,
            _ => None,
        }
    }

    /// The earlier of two origins by the stamps of their requests on a line. The second, if it is there, comes
    /// after the first in ascending order.
    fn earlier(&self, line: LineAddr, origin: HartId, later: Option<HartId>) -> Option<HartId>
        ensures { number_of result ≡
            earlier (stamp_on (bus_state self.now).order line.number) (Some origin.number) (number_of later) }
    {
        let stamp = self.stamp_on(line, origin);
        match later {
            Some(other) if is_before(self.stamp_on(line, other), stamp) => later,
            _ => Some(origin),
        }
    }

    /// The earlier of an origin, if a hart's section loses to it, and another that comes after it.
    fn earlier_told(
        &self,
        hart: HartId,
        line: LineAddr,
        origin: HartId,
        later: Option<HartId>,
    ) -> Option<HartId>
        requires { hart.number < length (bus_state self.now).agents }
        ensures { number_of result ≡ earlier_told
            (agent_at (bus_state self.now).agents hart.number) (bus_state self.now).order
            line.number origin.number (number_of later) }
    {
        let agent = self.agent(hart);
        if agent.knows(origin) && is_before(self.stamp_on(line, origin), agent.attempt()) {
            self.earlier(line, origin, later)
        } else {
            later
        }
    }

    /// The earliest of the origins that a hart was told of and whose requests on a line are before its section.
    #[tactic(auto, using(crate::proofs::Facing::none_told))]
    fn told_winner(&self, hart: HartId, line: LineAddr) -> Option<HartId>
        requires hart_exists { hart.number < length (bus_state self.now).agents }
        requires ready { IsReady (bus_state self.now) }
        ensures { (state : ModelState) → Shows (bus_state self.now) state →
            number_of result ≡ told_winner state (hart_of state hart.number) line.number }
    {
        let mut winner = None;
        let mut number = self.agents.len();
        while number > 0 {
            number -= 1;
            winner = self.earlier_told(hart, line, HartId::at(number), winner);
        }
        winner
    }

    /// What becomes of a section that does not lose to the head: it stays, or in lock removal it may lose to an
    /// origin that its hart was told of.
    fn deferring_fate(&self, head: Request, hart: HartId) -> Fate
        requires hart_exists { hart.number < length (bus_state self.now).agents }
        requires ready { IsReady (bus_state self.now) }
        ensures { (state : ModelState) → Shows (bus_state self.now) state →
            numbered_fate result ≡ deferring_fate state.config.mode state (numbered head) (hart_of state hart.number) }
    {
        match self.mode {
            Mode::Tlr => told_fate(self.told_winner(hart, head.line)),
            Mode::Sle | Mode::Plain => Fate::Stays,
        }
    }

    /// What becomes of a hart's section as the head of a line is faced.
    #[tactic(auto, using(crate::proofs::Facing::wins_where_met))]
    fn fate<P: Policy>(&self, head: Request, hart: HartId, policy: &P) -> Fate
        requires hart_exists { hart.number < length (bus_state self.now).agents }
        requires ready { IsReady (bus_state self.now) }
        requires policy { DecidesIn (bus_state self.now).mode (P.beats policy.now) }
        ensures { (state : ModelState) → Shows (bus_state self.now) state →
            numbered_fate result ≡ fate_at state (numbered head) hart.number }
    {
        if !self.conflicts(head, hart) {
            return Fate::Unmet;
        }
        if policy.wins(head.stamp, self.agent(hart).attempt()) {
            return Fate::LosesTo { winner: head.hart };
        }
        self.deferring_fate(head, hart)
    }

    /// What becomes of each hart's section as the head of a line is faced.
    #[tactic(auto, using(crate::proofs::Facing::no_fates))]
    pub(crate) fn fates<P: Policy>(&self, head: Request, policy: &P) -> ArrayVec<Fate, 8>
        requires ready { IsReady (bus_state self.now) }
        requires policy { DecidesIn (bus_state self.now).mode (P.beats policy.now) }
        ensures count { length result.items ≡ length (bus_state self.now).agents }
        ensures each { (state : ModelState) → Shows (bus_state self.now) state →
            (h : ℕ) → fate_in result.items h ≡ fate_at state (numbered head) h }
    {
        let mut fates = ArrayVec::new();
        for number in 0..self.agents.len() {
            fates.push(self.fate(head, HartId::at(number), policy));
        }
        fates
    }
}
