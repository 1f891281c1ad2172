//! Single fields of a trace, each judged as soon as it is whole.

ghost use Rattle.std.specs.Prelude.{◌≡◌, ◌+◌, ◌^◌, ◌<◌, ◌≤◌, None, Some, IsTrue, not, drop, length, slice_index, IfErr, IfOk, OnOk};
ghost use Rattle.el_base.specs.Config.{allows};
ghost use Rattle.el_base.specs.Firsts.{some_if};
ghost use Rattle.file_numbers.specs.Numbers.{number_at};
ghost use Rattle.trace_file.specs.FaultKinds.{fault_of};
ghost use Rattle.trace_file.specs.Faults.{IsShort, byte_fault, number_fault};

use crate::fault::FaultKind;
use el_base::{ConfigFault, FileFault, FormatFault};
use file_numbers::number_at;

/// That a field of so many bytes is whole, where these bytes stand at a place of the file.
pub fn is_whole(bytes: &[u8], width: usize, place: u32) -> Result<(), FileFault>
    requires { place + width < 2 ^ 32 }
    ensures whole { OnOk result (width ≤ length bytes.now) }
    ensures refused { IfErr result (IsShort bytes.now width place) }
{
    if bytes.len() < width {
        return Err(FaultKind::Short.at(place + bytes.len() as u32));
    }
    Ok(())
}

/// That the file does not end before this place.
pub fn reaches(file: &[u8], end: u32) -> Result<(), FileFault>
    ensures whole { OnOk result (end ≤ length file.now) }
    ensures refused { IfErr result (IsShort file.now end 0) }
{
    is_whole(file, end as usize, 0)
}

/// What stands behind so many bytes.
#[tactic(auto, using(crate::proofs::EventBytes::all_behind))]
pub fn behind(bytes: &[u8], count: usize) -> &[u8]
    requires { count ≤ length bytes.now }
    ensures { result.now ≡ drop count bytes.now }
{
    &bytes[count..]
}

/// That a condition holds. Where it does not, the place shows the fault.
pub fn expect(holds: bool, kind: FaultKind, place: u32) -> Result<(), FileFault>
    ensures held { OnOk result (IsTrue holds) }
    ensures accepted { OnOk result (some_if (not holds) (fault_of kind place) ≡ None) }
    ensures refused { IfErr result (λ fault. some_if (not holds) (fault_of kind place) ≡ Some fault) }
{
    if holds { Ok(()) } else { Err(kind.at(place)) }
}

/// The byte at a place, which a field of the configuration is to allow.
#[tactic(auto, unfolding(file_numbers::specs::Fields::short_or, crate::specs::Faults::byte_fault))]
pub fn setting_byte(file: &[u8], place: u32, setting: ConfigFault) -> Result<u8, FileFault>
    requires { place < 22 }
    ensures value { IfOk result (λ byte. byte ≡ slice_index file.now place) }
    ensures accepted { OnOk result (byte_fault file.now place (allows setting) ≡ None) }
    ensures refused { IfErr result (λ fault. byte_fault file.now place (allows setting) ≡ Some fault) }
{
    reaches(file, place + 1)?;
    let byte = file[place as usize];
    expect(setting.allows(byte.into()), FaultKind::Config, place)?;
    Ok(byte)
}

/// The number of the four bytes at a place, which a field of the configuration is to allow.
#[tactic(auto, unfolding(file_numbers::specs::Fields::short_or, crate::specs::Faults::number_fault))]
pub fn setting_number(file: &[u8], place: u32, setting: ConfigFault) -> Result<u32, FileFault>
    requires { place < 22 }
    ensures value { IfOk result (λ number. number ≡ number_at file.now place) }
    ensures accepted { OnOk result (number_fault file.now place (allows setting) ≡ None) }
    ensures refused { IfErr result (λ fault. number_fault file.now place (allows setting) ≡ Some fault) }
{
    reaches(file, place + 4)?;
    let number = number_at(file, place);
    expect(setting.allows(number), FaultKind::Config, place)?;
    Ok(number)
}
