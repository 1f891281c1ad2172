//! A hart that arms.

ghost use Rattle.std.specs.Prelude.{◌≡◌};
ghost use Rattle.el_model.specs.Plain.{Arms, by_plain_rule};
ghost use Rattle.engine.specs.Acting.{ActsOutside, next_action};
ghost use Rattle.engine.specs.Outside.{FindsWord, IsItsRule, OutsideSomewhere};
ghost use Rattle.engine.specs.Parts.{parts};
ghost use Rattle.engine.specs.Turns.{TakesTurn};
ghost use Rattle.snoop.specs.Asking.{HasNoRequest};

use crate::engine::Engine;
use el_base::{HartId, Outcome, line_of};
use rv_alu::Action;

impl Engine {
    /// The hart arms at the load reserved of `word` that comes next, which finds `old` there: the bus notes the hart as
    /// armed with one instruction, the word's line gets the read bit, and what the hart runs is kept private.
    pub(crate) fn arm(&mut self, hart: HartId, action: Action, word: u32, old: u32) -> Outcome
        requires some { OutsideSomewhere (parts self.old) hart.number }
        requires no_request { HasNoRequest (parts self.old).bus hart.number }
        requires action { action ≡ next_action (parts self.old) hart.number }
        requires arms { IsItsRule (parts self.old) hart.number (Arms word) }
        requires found { FindsWord (parts self.old) hart.number word old }
        ensures { TakesTurn (λ from. ActsOutside (parts self.old) hart.number from)
            (λ from. by_plain_rule from hart.number (Arms word)) (parts self.old) (parts self.new) result }
    {
        match action {
            Action::LoadReserved { rd, .. } => {
                self.bus.note_armed(hart, 1);
                self.mark_read(hart, line_of(word));
                self.harts[usize::from(hart.number)].arm(word, old, rd);
                Outcome::Armed
            }
            _ => unreachable!(),
        }
    }
}
