//! Reservations of other harts, which a commit ends.

ghost use Rattle.std.specs.Prelude.{◌≡◌, ◌<◌, ◌==◌, None, Some, if◌then◌else◌, length, slice_set};
ghost use Rattle.std.specs.Option.{option_map};
ghost use Rattle.engine.specs.Parts.{own_at};
ghost use Rattle.engine.specs.Unreserved.{AreUnreserved, line_among, unreserved_beside, unreserved_line, written_by};
ghost use Rattle.line_pool.specs.Pooled.{Pooled};

use el_base::{HartId, LineAddr, line_of};
use hart_state::HartState;

/// The line, where the live section of a hart has written it.
fn written_line(hart: &HartState, line: LineAddr) -> Option<LineAddr>
    ensures { (pool : Pooled) → option_map (λ l. l.number) result ≡
        (if written_by pool hart.now line.number then Some line.number else None) }
{
    if hart.wrote(line) { Some(line) } else { None }
}

/// The line of a reserved word, where the live section of a hart has written it.
fn lost_line(hart: &HartState, reserved: Option<u32>) -> Option<LineAddr>
    ensures { (pool : Pooled) →
        option_map (λ line. line.number) result ≡ line_among (written_by pool hart.now) reserved }
{
    match reserved {
        None => None,
        Some(word) => written_line(hart, line_of(word)),
    }
}

/// A hart's committed view loses its reservation of a word on a line, if there is one.
fn unreserve(hart: &mut HartState, line: Option<LineAddr>)
    ensures { hart.new ≡ unreserved_line (option_map (λ l. l.number) line) hart.old }
{
    match line {
        None => (),
        Some(line) => hart.unreserve(line),
    }
}

/// A hart loses its reservation where it is of a word on a line that another hart's live section has written.
fn unreserve_one(harts: &mut Vec<HartState>, hart: usize, other: usize)
    requires hart_exists { hart < length harts.old.items }
    requires other_exists { other < length harts.old.items }
    ensures { (pool : Pooled) → harts.new.items ≡ (if other == hart then harts.old.items
        else slice_set harts.old.items other
        (unreserved_beside (written_by pool (own_at harts.old.items hart)) (own_at harts.old.items other))) }
{
    if other != hart {
        let line = lost_line(&harts[hart], harts[other].committed().reserved);
        unreserve(&mut harts[other], line);
    }
}

/// Each hart but one loses its reservation where it is of a word on a line that the live section of that one has
/// written. A live section of another hart keeps its own.
pub(crate) fn unreserve_others(harts: &mut Vec<HartState>, hart: HartId)
    requires { hart.number < length harts.old.items }
    ensures { (pool : Pooled) →
        AreUnreserved hart.number (written_by pool (own_at harts.old.items hart.number)) harts.old.items harts.new.items }
{
    for other in 0..harts.len() {
        unreserve_one(harts, usize::from(hart.number), other);
    }
}
