//! The head of a line meets the sections of other harts.

ghost use Rattle.std.specs.Prelude.{◌≡◌, ◌≤◌, None, length};
ghost use Rattle.bus_order.specs.Order.{numbered};
ghost use Rattle.el_base.specs.Freed.{no_one_freed};
ghost use Rattle.el_base.specs.Losers.{losers_of};
ghost use Rattle.el_model.specs.Armed.{freed_by};
ghost use Rattle.el_model.specs.Face.{face_losers, faced, met, met_losers};
ghost use Rattle.el_model.specs.State.{ModelState};
ghost use Rattle.snoop.specs.Deciding.{DecidesIn};
ghost use Rattle.snoop.specs.Leaving.{EndsSections, LosesSections};
ghost use Rattle.snoop.specs.Settled.{sent_in};
ghost use Rattle.snoop.specs.Shows.{IsReady, Shows, bus_state};

use crate::bus::Bus;
use crate::fates::{Fate, nobody_met};
use crate::settling::{losers_by, send_markers};
use bus_order::Request;
use el_base::{Freed, HartId, Losers, Mode};
use policy::Policy;

/// What came of a head that met the sections of other harts.
pub(crate) struct Met {
    /// The harts whose live sections were lost, each with its winner.
    pub(crate) losers: Losers,
    /// The harts whose armed sections were let go, each with the number of its instructions.
    pub(crate) freed: Freed,
}

impl Met {
    /// Nobody was met.
    pub(crate) fn nobody() -> Met
        ensures losers { result.losers ≡ losers_of (λ h. None) }
        ensures freed { result.freed ≡ no_one_freed }
    {
        Met {
            losers: Losers::none(),
            freed: Freed::none(),
        }
    }
}

impl Bus {
    /// The head of a line meets the sections of other harts: it lets the armed ones go that it is to let go, and faces
    /// the live ones then.
    pub(crate) fn meet<P: Policy>(&mut self, head: Request, policy: &P) -> Met
        requires ready { IsReady (bus_state self.old) }
        requires policy { DecidesIn (bus_state self.old).mode (P.beats policy.now) }
        ensures leaves { EndsSections (λ state. met state (numbered head)) (bus_state self.old) (bus_state self.new) }
        ensures losers { (state : ModelState) → Shows (bus_state self.old) state →
            result.losers ≡ met_losers state (numbered head) }
        ensures freed { (state : ModelState) → Shows (bus_state self.old) state →
            result.freed ≡ freed_by state (numbered head) }
    {
        let freed = self.let_go(head);
        let losers = self.face(head, policy);
        Met { losers, freed }
    }

    /// In lock removal the harts that stay send a marker each to the head's.
    fn answer_head(&mut self, head: HartId, fates: &[Fate])
        requires { length fates.now ≤ 8 }
        ensures { bus_state self.new ≡ record (bus_state self.old) {
          agents = sent_in (bus_state self.old).mode fates.now head.number (bus_state self.old).agents;
        } }
    {
        match self.mode {
            Mode::Tlr => send_markers(&mut self.agents, head, fates),
            Mode::Sle | Mode::Plain => (),
        }
    }

    /// The head of a line faces the sections that conflict with it, of which there are none in the plain mode.
    fn face<P: Policy>(&mut self, head: Request, policy: &P) -> Losers
        requires ready { IsReady (bus_state self.old) }
        requires policy { DecidesIn (bus_state self.old).mode (P.beats policy.now) }
        ensures leaves { LosesSections (λ state. faced state (numbered head))
            (bus_state self.old) (bus_state self.new) }
        ensures losers { (state : ModelState) → Shows (bus_state self.old) state →
            result ≡ face_losers state (numbered head) }
    {
        match self.mode {
            Mode::Plain => Losers::none(),
            Mode::Sle | Mode::Tlr => self.face_live(head, policy),
        }
    }

    /// The head of a line faces the sections that conflict with it: each loses to it where the head wins. Else in
    /// lock removal it loses to the earliest of the origins that its hart was told of, that are ordered on the line
    /// and that are before it; and where there is none such, it stays, and sends the head's hart a marker. Who wins
    /// is settled by what stands before any section is lost. Where the head meets
    /// none, nothing changes.
    fn face_live<P: Policy>(&mut self, head: Request, policy: &P) -> Losers
        requires ready { IsReady (bus_state self.old) }
        requires policy { DecidesIn (bus_state self.old).mode (P.beats policy.now) }
        ensures leaves { LosesSections (λ state. faced state (numbered head))
            (bus_state self.old) (bus_state self.new) }
        ensures losers { (state : ModelState) → Shows (bus_state self.old) state →
            result ≡ face_losers state (numbered head) }
    {
        let fates = self.fates(head, policy);
        if nobody_met(&fates) {
            return Losers::none();
        }
        self.settle_all(head, &fates);
        self.answer_head(head.hart, &fates);
        losers_by(&fates)
    }
}
