//! The serial order of a history in stretches.

ghost use Rattle.std.specs.Prelude.{◌≡◌, ◌+◌, ◌++◌, ◌≤◌, IfOk, length, replicate};
ghost use Rattle.chronicle.specs.Serial.{serial, taking_effect};
ghost use Rattle.el_base.specs.Freed.{order_of};
ghost use Rattle.run_check.specs.Certified.{stretches_of, with_pending, IsGrowing};
ghost use Rattle.run_check.specs.Content.{written_out};
ghost use Rattle.run_check.specs.Rules.{most_steps};

use crate::content::Stretch;
use el_base::{Chronicled, Entry, Freed, HartId, MAX_HARTS, NoMemory, Outcome};
use std::alloc::Global;

/// Puts some steps of a hart behind the stretches, of which the last one is still pending: into that one, where it is
/// the hart's, and else into one of their own.
fn extend(
    stretches: &mut Vec<Stretch>,
    pending: Option<Stretch>,
    hart: HartId,
    count: u32,
) -> Result<Option<Stretch>, NoMemory>
    requires growing { IsGrowing stretches.old.items pending }
    requires few { length (written_out (with_pending stretches.old.items pending)) + count ≤ most_steps }
    ensures growing { IfOk result (IsGrowing stretches.new.items) }
    ensures grown { IfOk result (λ now. written_out (with_pending stretches.new.items now)
        ≡ written_out (with_pending stretches.old.items pending) ++ replicate count hart.number) }
{
    if count == 0 {
        return Ok(pending);
    }
    let Some(last) = pending else {
        return Ok(Some(Stretch { hart, count }));
    };
    if last.hart == hart {
        let count = last.count + count;
        return Ok(Some(Stretch { hart, count }));
    }
    stretches.push(last)?;
    Ok(Some(Stretch { hart, count }))
}

/// Puts the steps of the freed harts behind the stretches, in the ascending order in which they took effect.
fn extend_by_freed(
    stretches: &mut Vec<Stretch>,
    pending: Option<Stretch>,
    freed: Freed,
) -> Result<Option<Stretch>, NoMemory>
    requires growing { IsGrowing stretches.old.items pending }
    requires few { length (written_out (with_pending stretches.old.items pending))
        + length (order_of freed) ≤ most_steps }
    ensures growing { IfOk result (IsGrowing stretches.new.items) }
    ensures grown { IfOk result (λ now. written_out (with_pending stretches.new.items now)
        ≡ written_out (with_pending stretches.old.items pending) ++ order_of freed) }
{
    let mut pending = pending;
    for number in 0..MAX_HARTS {
        let hart = HartId::at(number as usize);
        pending = extend(stretches, pending, hart, u32::from(freed.count_of(hart)))?;
    }
    Ok(pending)
}

/// Puts the steps that took effect in an entry behind the stretches.
fn extend_by_entry(
    stretches: &mut Vec<Stretch>,
    pending: Option<Stretch>,
    entry: Entry,
) -> Result<Option<Stretch>, NoMemory>
    requires growing { IsGrowing stretches.old.items pending }
    requires few { length (written_out (with_pending stretches.old.items pending))
        + length (taking_effect entry.event.hart.number entry.outcome) ≤ most_steps }
    ensures growing { IfOk result (IsGrowing stretches.new.items) }
    ensures grown { IfOk result (λ now. written_out (with_pending stretches.new.items now)
        ≡ written_out (with_pending stretches.old.items pending)
        ++ taking_effect entry.event.hart.number entry.outcome) }
{
    let hart = entry.event.hart;
    match entry.outcome {
        Outcome::Ran => extend(stretches, pending, hart, 1),
        Outcome::Committed { count } | Outcome::LetGo { count } => {
            extend(stretches, pending, hart, count)
        }
        Outcome::Ordered { freed, .. } | Outcome::Served { freed, .. } => {
            extend_by_freed(stretches, pending, freed)
        }
        _ => Ok(pending),
    }
}

/// The serial order of a history, in stretches. It goes once over the entries.
pub fn stretches_of<C: Chronicled>(alloc: Global, history: &C) -> Result<Vec<Stretch>, NoMemory>
    requires { length (serial (C.entries history.now)) ≤ most_steps }
    ensures { IfOk result (λ stretches. stretches.items ≡ stretches_of (serial (C.entries history.now))) }
{
    let mut stretches = Vec::new(alloc);
    let mut pending = None;
    for place in 0..history.length() {
        pending = extend_by_entry(&mut stretches, pending, history.entry(place))?;
    }
    if let Some(last) = pending {
        stretches.push(last)?;
    }
    Ok(stretches)
}
