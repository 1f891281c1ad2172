//! Reservations of harts, which a store to their line ends.

ghost use Rattle.std.specs.Prelude.{◌≡◌, map};
ghost use Rattle.hart_state.specs.Deeds.{unreserved_own};

use el_base::LineAddr;
use hart_state::HartState;

/// Takes the committed reservations of words on a line from all harts. A live section keeps its own.
pub(crate) fn unreserve_all(harts: &mut [HartState], line: LineAddr)
    ensures { harts.new ≡ map (unreserved_own line.number) harts.old }
{
    for hart in harts.iter_mut() {
        hart.unreserve(line);
    }
}
