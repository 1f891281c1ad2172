//! The events of a list.

ghost use Rattle.std.specs.Prelude.{◌≡◌, ◌<◌, All, take};
ghost use Rattle.machine.specs.Story.{continued, left_of};

use el_base::Event;
use machine::{Machine, follow};

/// Makes the events of a list, in their order, as many of them as there are steps left.
pub fn run_listed(machine: &mut Machine, events: &[Event])
    requires harts_exist { All (λ event. event.hart.number < machine.old.config.harts) events.now }
    ensures { machine.new ≡ continued machine.old (take (left_of machine.old) events.now) }
{
    let steps = machine.steps_left() as usize;
    follow(machine, first_of(events, steps));
}

/// The first events of a list, so many at most.
fn first_of(events: &[Event], count: usize) -> &[Event]
    ensures { result.now ≡ take count events.now }
{
    if count <= events.len() {
        &events[..count]
    } else {
        events
    }
}
