//! Where a request meets the sections of other harts.

ghost use Rattle.std.specs.Prelude.{◌≡◌, ◌<◌, ◌==◌, ◌&&◌, length};
ghost use Rattle.bus_order.specs.Order.{numbered};
ghost use Rattle.coherence.specs.Lent.{slotted_at};
ghost use Rattle.el_model.specs.Conflicts as model;
ghost use Rattle.el_model.specs.State.{ModelState, hart_of};
ghost use Rattle.snoop.specs.Meets.{meets_in};
ghost use Rattle.snoop.specs.Shows.{IsReady, Shows, bus_state, lives_at};

use crate::bus::Bus;
use bus_order::Request;
use cache_sets::Sets;
use el_base::{HartId, LineAddr, Need};

impl Bus {
    /// Whether a hart has a live section: some line of its cache has a bit, and it is not noted as armed.
    pub(crate) fn is_live(&self, hart: HartId) -> bool
        requires hart_exists { hart.number < length (bus_state self.now).agents }
        requires ready { IsReady (bus_state self.now) }
        ensures { result ≡ lives_at (bus_state self.now) hart.number }
    {
        self.hierarchy.cache(hart).marked() && self.agent(hart).armed() == 0
    }

    /// Whether a hart has a live section, and a line has a bit there that a request of this need conflicts with.
    pub(crate) fn meets_section(&self, hart: HartId, line: LineAddr, need: Need) -> bool
        requires hart_exists { hart.number < length (bus_state self.now).agents }
        requires ready { IsReady (bus_state self.now) }
        ensures { result ≡ (lives_at (bus_state self.now) hart.number
            && meets_in (slotted_at (bus_state self.now).copies.caches hart.number).residency line.number need) }
    {
        self.is_live(hart) && meets(self.hierarchy.cache(hart), line, need)
    }

    /// Whether a request conflicts with the live section of a hart.
    #[tactic(auto, using(crate::proofs::Conflicts::conflicts_shown))]
    pub(crate) fn conflicts(&self, request: Request, hart: HartId) -> bool
        requires hart_exists { hart.number < length (bus_state self.now).agents }
        requires ready { IsReady (bus_state self.now) }
        ensures { (state : ModelState) → Shows (bus_state self.now) state →
            result ≡ model.conflicts (numbered request) hart.number (hart_of state hart.number) }
    {
        request.hart != hart && self.meets_section(hart, request.line, request.need)
    }
}

/// Whether a line has a bit that a request of this need conflicts with.
#[tactic(auto, using(cache_sets::proofs::Laws::BitsOfWays::read_need, cache_sets::proofs::Laws::BitsOfWays::write_need))]
pub fn meets(cache: &Sets, line: LineAddr, need: Need) -> bool
    ensures { result ≡ meets_in cache.now.residency line.number need }
{
    let bits = cache.bits(line);
    match need {
        Need::Read => bits.has(Need::Write),
        Need::Write => bits.has(Need::Read) || bits.has(Need::Write),
    }
}
