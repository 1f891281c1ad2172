//! The events of a random schedule.

ghost use Rattle.std.specs.Prelude.{◌≡◌, ◌<◌, ◌≤◌, ◌%◌};
ghost use Rattle.el_base.specs.Kinds.{kind_number};
ghost use Rattle.schedule.specs.Drawn.{IsDrawnAt};

use crate::generator::draw;
use el_base::{Event, HartId, Kind};

/// The event of so many harts that is drawn at a place of a seed's sequence: its number there, modulo four times the
/// harts, of which the quotient by four is the hart and the rest the kind.
pub fn drawn_at(seed: u64, harts: u8, place: u32) -> Event
    requires some { 1 ≤ harts }
    requires few { harts ≤ 8 }
    ensures drawn { IsDrawnAt seed harts place result }
    ensures hart_exists { result.hart.number < harts }
{
    let choice = (draw(seed, place) % (4 * u64::from(harts))) as u8;
    Event {
        kind: kind_of(choice),
        hart: HartId { number: choice / 4 },
    }
}

/// The kind of an event that was drawn as this number.
fn kind_of(choice: u8) -> Kind
    ensures { kind_number result ≡ choice % 4 }
{
    Kind::with_number(choice % 4).unwrap()
}
