//! A text that lists events.

ghost use Rattle.std.specs.Prelude.{◌≡◌, ◌≢◌, ℕ, ◌<◌, ◌≤◌, ◌++◌, ◌∷◌, [], All, Err, IfOk, OnOk, length};
ghost use Rattle.schedule.specs.Lines.{IsBadLine};

use crate::line::{Line, read_line};
use el_base::{Event, MAX_STEPS};
use std::alloc::{AllocError, Global};

/// Why a text is no list of events.
#[derive(Clone, Copy, Debug, PartialEq, Eq)]
pub enum OrderFault {
    /// The line of this number, from 1 on, is neither blank nor an event of a hart that there is.
    BadLine { number: usize },
    /// There are more events than a run may have steps.
    TooLong,
    /// Out of memory.
    NoMemory,
}

impl From<AllocError> for OrderFault {
    ghost use Rattle.std.specs.Prelude.{◌≡◌};
    ghost use Rattle.schedule.specs.declared.text.OrderFault.TheVariants.{NoMemory};

    ghost from_gives = { λ _ fault. fault ≡ NoMemory };

    fn from(_error: AllocError) -> OrderFault {
        OrderFault::NoMemory
    }
}

/// The events that a text lists, of so many harts: one a line, as `step 0`, `order 1`, `serve 0`, `deliver 1`. A `#` begins
/// a comment, and blank lines say nothing.
pub fn read_order(alloc: Global, text: &[u8], harts: u8) -> Result<Vec<Event>, OrderFault>
    requires { harts ≤ 8 }
    ensures harts_exist { IfOk result (λ events. All (λ event. event.hart.number < harts) events.items) }
    ensures few { IfOk result (λ events. length events.items ≤ MAX_STEPS) }
{
    let lines: Vec<&[u8]> = text.split(|byte| *byte == b'\n').collect(alloc)?;
    read_lines(alloc, lines.as_slice(), harts)
}

/// The events that lines list.
fn read_lines(alloc: Global, lines: &[&[u8]], harts: u8) -> Result<Vec<Event>, OrderFault>
    requires { harts ≤ 8 }
    ensures harts_exist { IfOk result (λ events. All (λ event. event.hart.number < harts) events.items) }
    ensures few { IfOk result (λ events. length events.items ≤ MAX_STEPS) }
    ensures told { (number : ℕ) → result ≡ Err (OrderFault.BadLine number) → IsBadLine harts lines.now number }
{
    let mut events = Vec::new(alloc);
    for index in 0..lines.len() {
        match read_line(lines[index], harts) {
            Line::Nothing => (),
            Line::Makes(event) => push(&mut events, event)?,
            Line::Bad => return Err(OrderFault::BadLine { number: index + 1 }),
        }
    }
    Ok(events)
}

/// Puts an event behind others, of which there are as many as a run may have steps at most.
fn push(events: &mut Vec<Event>, event: Event) -> Result<(), OrderFault>
    requires { length events.old.items ≤ MAX_STEPS }
    ensures pushed { OnOk result (events.new.items ≡ events.old.items ++ event ∷ []) }
    ensures few { OnOk result (length events.new.items ≤ MAX_STEPS) }
    ensures no_line { (number : ℕ) → result ≢ Err (OrderFault.BadLine number) }
{
    if events.len() >= MAX_STEPS as usize {
        return Err(OrderFault::TooLong);
    }
    match events.push(event) {
        Ok(()) => Ok(()),
        Err(_) => Err(OrderFault::NoMemory),
    }
}
