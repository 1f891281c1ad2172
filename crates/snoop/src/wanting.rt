//! Where another hart's request is in the way of a new bit.

ghost use Rattle.std.specs.Prelude.{◌≡◌, ◌==◌, ◌&&◌, ◌||◌, not};
ghost use Rattle.std.specs.List.{list_any};
ghost use Rattle.el_model.specs.Conflicts as model;
ghost use Rattle.el_model.specs.State.{ModelState};
ghost use Rattle.snoop.specs.Shows.{Shows, bus_state};

use crate::bus::Bus;
use bus_order::Request;
use el_base::{HartId, LineAddr, Need};

impl Bus {
    /// Whether another hart's request that would conflict with a new bit of this need is ordered on a line: a write
    /// with a read bit, any with a write bit.
    pub fn is_wanted(&self, hart: HartId, line: LineAddr, need: Need) -> bool
        ensures { (state : ModelState) → Shows (bus_state self.now) state →
            result ≡ model.is_wanted state hart.number line.number need }
    {
        is_asked(self.order.as_slice(), hart, line, need)
    }
}

/// Whether one of these requests is another hart's for a line and would conflict with a new bit of this need.
fn is_asked(requests: &[Request], hart: HartId, line: LineAddr, need: Need) -> bool
    ensures { result ≡ list_any
        (λ request. (request.line.number == line.number) && not (request.hart.number == hart.number)
        && (model.writes need || model.writes request.need)) requests.now }
{
    requests.iter().any(|request| {
        request.line.number == line.number
            && request.hart.number != hart.number
            && (writes(need) || writes(request.need))
    })
}

/// Whether a need is to write.
pub fn writes(need: Need) -> bool
    ensures { result ≡ model.writes need }
{
    need == Need::Write
}
