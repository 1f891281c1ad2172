//! Single fields of a certificate, each judged as soon as it is whole.

ghost use Rattle.std.specs.Prelude.{◌≡◌, ◌<◌, ◌≤◌, None, Some, false, length, IfErr, OnOk};
ghost use Rattle.el_base.specs.Firsts.{some_if};
ghost use Rattle.run_check.specs.FaultKinds.{fault_of};
ghost use Rattle.run_check.specs.Faults.{field};

use crate::fault::FaultKind;
use el_base::{FileFault, FormatFault};

/// That the file does not end before this place.
#[tactic(auto, unfolding(file_numbers::specs::Fields::short_or))]
pub fn reaches(file: &[u8], end: u32) -> Result<(), FileFault>
    ensures whole { OnOk result (end ≤ length file.now) }
    ensures refused { IfErr result (λ fault.
        (length file.now < end) × (fault ≡ fault_of FaultKind.Short (length file.now))) }
{
    if file.len() < end as usize {
        return Err(FaultKind::Short.at(file.len() as u32));
    }
    Ok(())
}

/// That a field is not wrong. Where it is, the place shows the fault.
pub fn expect(wrong: bool, kind: FaultKind, place: u32) -> Result<(), FileFault>
    ensures right { OnOk result (wrong ≡ false) }
    ensures accepted { OnOk result (some_if wrong (fault_of kind place) ≡ None) }
    ensures refused { IfErr result (λ fault. some_if wrong (fault_of kind place) ≡ Some fault) }
{
    if wrong { Err(kind.at(place)) } else { Ok(()) }
}
