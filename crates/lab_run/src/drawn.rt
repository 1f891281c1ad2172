//! The events that a seed draws, one after another.

ghost use Rattle.std.specs.Prelude.{◌≡◌, ◌≤◌};
ghost use Rattle.lab_run.specs.Drawn.{MakesDrawn};
ghost use Rattle.machine.specs.Story.{left_of};

use machine::Machine;
use schedule::drawn_at;

/// Makes the events that a seed draws, from its first on, until every hart has stopped or no step is left.
pub fn run_drawn(machine: &mut Machine, seed: u64)
    ensures { MakesDrawn seed machine.old machine.new }
{
    let harts = machine.config().harts;
    let steps = machine.steps_left();
    go_drawn(machine, seed, harts, steps);
}

/// Makes the drawn events of so many harts, and of so many steps at most.
#[tactic(auto, using(crate::proofs::Drawing::none_made, crate::proofs::Drawing::one_made))]
fn go_drawn(machine: &mut Machine, seed: u64, harts: u8, steps: u32)
    requires some { 1 ≤ harts }
    requires few { harts ≤ 8 }
    requires harts_are { harts ≡ machine.old.config.harts }
    requires steps_are { steps ≡ left_of machine.old }
    ensures { MakesDrawn seed machine.old machine.new }
{
    for place in 0..steps {
        if machine.over() {
            break;
        }
        machine.step(drawn_at(seed, harts, place));
    }
}
