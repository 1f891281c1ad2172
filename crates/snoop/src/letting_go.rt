//! The armed sections that the head of a line lets go.

ghost use Rattle.std.specs.Prelude.{◌≡◌, ◌<◌, ◌≤◌, ◌==◌, ℕ, if◌then◌else◌, length};
ghost use Rattle.bus_order.specs.Order.{numbered};
ghost use Rattle.el_base.specs.Freed.{count_in};
ghost use Rattle.el_model.specs.Armed as model;
ghost use Rattle.el_model.specs.State.{ModelState};
ghost use Rattle.snoop.specs.Leaving.{EndsSections};
ghost use Rattle.snoop.specs.LettingGo.{AreLetGo, IsLetGo, freed_at, frees, with_committed};
ghost use Rattle.snoop.specs.Shows.{IsReady, Shows, bus_state};

use crate::bus::Bus;
use crate::meeting::meets;
use crate::wanting::writes;
use bus_agent::note_armed;
use bus_order::Request;
use el_base::{Freed, HartId, Need};

/// These freed harts, and a hart with this number of instructions, where it is not 0.
fn with_freed(freed: Freed, hart: HartId, count: u8) -> Freed
    requires fits { count ≤ 15 }
    requires new { count_in freed hart.number ≡ 0 }
    ensures { (h : ℕ) → count_in result h ≡ (if h == hart.number then count else count_in freed h) }
{
    if count == 0 {
        freed
    } else {
        freed.with(hart, count)
    }
}

impl Bus {
    /// Whether a head lets the armed section of a hart go: it is another hart's, it is to write, and the section has
    /// read its line.
    fn frees(&self, head: Request, hart: HartId) -> bool
        requires hart_exists { hart.number < length (bus_state self.now).agents }
        requires ready { IsReady (bus_state self.now) }
        ensures { result ≡ frees (bus_state self.now) (numbered head) hart.number }
    {
        writes(head.need)
            && head.hart != hart
            && self.agent(hart).armed() != 0
            && meets(self.hierarchy.cache(hart), head.line, Need::Write)
    }

    /// How many instructions of a hart take effect as it is let go; 0 where it is not.
    fn freed_count(&self, head: Request, hart: HartId) -> u8
        requires hart_exists { hart.number < length (bus_state self.now).agents }
        requires ready { IsReady (bus_state self.now) }
        ensures exact { result ≡ freed_at (bus_state self.now) (numbered head) hart.number }
        ensures small { result ≤ 15 }
    {
        if self.frees(head, hart) {
            self.agent(hart).armed()
        } else {
            0
        }
    }

    /// The harts that a head lets go, each with the number of its instructions.
    fn freed_by(&self, head: Request) -> Freed
        requires ready { IsReady (bus_state self.now) }
        ensures { (h : ℕ) → count_in result h ≡ freed_at (bus_state self.now) (numbered head) h }
    {
        if !writes(head.need) {
            return Freed::none();
        }
        let mut freed = Freed::none();
        for number in 0..self.agents.len() {
            let hart = HartId::at(number);
            freed = with_freed(freed, hart, self.freed_count(head, hart));
        }
        freed
    }

    /// A hart is let go, where this says so: it has no bits any more, and is noted as not armed.
    fn let_one_go(&mut self, hart: HartId, test: bool)
        requires hart_exists { hart.number < length (bus_state self.old).agents }
        requires each { length (bus_state self.old).copies.caches ≡ length (bus_state self.old).agents }
        ensures { IsLetGo test hart.number (bus_state self.old) (bus_state self.new) }
    {
        if test {
            self.hierarchy.clear(hart);
            note_armed(&mut self.agents, hart, 0);
        }
    }

    /// Each of these harts is let go.
    fn let_each_go(&mut self, freed: Freed)
        requires ready { IsReady (bus_state self.old) }
        ensures { AreLetGo freed (length (bus_state self.old).agents) (bus_state self.old) (bus_state self.new) }
    {
        if freed == Freed::none() {
            return;
        }
        for number in 0..self.agents.len() {
            let hart = HartId::at(number);
            self.let_one_go(hart, freed.count_of(hart) != 0);
        }
    }

    /// A head lets go the armed section of each other hart that has read its line, where it is to write: their bits are
    /// cleared, and they are noted as not armed. What their sections ran takes effect, and stores nothing; the bus
    /// cannot know that, so it shows the definition's state where the memory of that is as before, and in any case that
    /// state over the committed part of before.
    pub(crate) fn let_go(&mut self, head: Request) -> Freed
        requires ready { IsReady (bus_state self.old) }
        ensures leaves { EndsSections (λ state. model.let_go state (numbered head)) (bus_state self.old) (bus_state self.new) }
        ensures mode { (bus_state self.new).mode ≡ (bus_state self.old).mode }
        ensures parts { (state : ModelState) → Shows (bus_state self.old) state →
            Shows (bus_state self.new) (with_committed state.committed (model.let_go state (numbered head))) }
        ensures freed { (state : ModelState) → Shows (bus_state self.old) state →
            result ≡ model.freed_by state (numbered head) }
    {
        let freed = self.freed_by(head);
        self.let_each_go(freed);
        freed
    }
}
