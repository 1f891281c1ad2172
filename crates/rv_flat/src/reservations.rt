ghost use Rattle.std.specs.Prelude.{◌≡◌, map};
ghost use Rattle.rv_alu.specs.Reservations.{unreserved};

use el_base::LineAddr;
use rv_alu::HartView;

/// Takes the reservations of words on a line from all harts.
pub fn unreserve_all(harts: &mut [HartView], line: LineAddr)
    ensures { harts.new ≡ map (unreserved line.number) harts.old }
{
    for hart in harts.iter_mut() {
        hart.unreserve(line);
    }
}
