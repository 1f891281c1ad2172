//! Misses.

ghost use Rattle.std.specs.Prelude.{◌≡◌};
ghost use Rattle.el_model.specs.Plain.{missed, missed_hart};
ghost use Rattle.el_model.specs.State.{hart_of, with_hart};
ghost use Rattle.engine.specs.Acting.{MayAct};
ghost use Rattle.engine.specs.Missing.{MayMiss};
ghost use Rattle.engine.specs.Parts.{parts};
ghost use Rattle.engine.specs.Turns.{TakesTurn};
ghost use Rattle.snoop.specs.Leaving.{LeavesCopies};

use crate::engine::Engine;
use el_base::{HartId, LineAddr, Need, Outcome};

impl Engine {
    /// A hart misses a line: it raises a request for it.
    pub(crate) fn miss(&mut self, hart: HartId, line: LineAddr, need: Need) -> Outcome
        requires may { MayMiss (parts self.old) hart.number line.number }
        ensures { TakesTurn (λ from. MayAct (parts self.old) hart.number from)
            (λ from. missed from hart.number line.number need) (parts self.old) (parts self.new) result }
    {
        self.ask(hart, line, need);
        Outcome::Missed { line, need }
    }

    /// Raises the request for the line. Nothing else changes.
    fn ask(&mut self, hart: HartId, line: LineAddr, need: Need)
        requires may { MayMiss (parts self.old) hart.number line.number }
        ensures leaves { LeavesCopies (λ state. with_hart state hart.number
            (missed_hart hart.number line.number need (hart_of state hart.number))) (parts self.old).bus (parts self.new).bus }
        ensures rest_stays { parts self.new ≡ record (parts self.old) { bus = (parts self.new).bus } }
    {
        self.bus.raise(hart, line, need);
    }
}
