//! From a certificate to bytes.

ghost use Rattle.std.specs.Prelude.{◌≡◌, ◌≢◌, ℕ, ◌++◌, ◌<◌, Err, drop, length, IfOk, OnOk, slice_index_or};
ghost use Rattle.std.specs.List.{flat_map};
ghost use Rattle.byteorder.specs.Endian.{little_bytes};
ghost use Rattle.el_io.specs.Shelf.{Holds, KeepsOthers, Records};
ghost use Rattle.rv_flat.specs.FlatState.{no_hart};
ghost use Rattle.run_check.specs.Certified.{certificate_of, IsHistoryOf, IsStateOf};
ghost use Rattle.run_check.specs.Spelling.{patch_bytes, reserved_bytes, spelling, status_bytes, stretch_bytes, view_bytes, IsCertificate, IsView};

use crate::certifying::certify;
use crate::content::{Certificate, Patch, Stretch};
use crate::judging::{MAGIC, VERSION};
use crate::reached::Reached;
use el_base::{Chronicled, NoMemory};
use el_io::{Call, Shelf, ShelfFault};
use elf_image::Image;
use rv_flat::{HartStatus, HartView};
use rv_word::Reg;
use std::alloc::Global;

/// Four bytes of a number, the lowest first, behind others.
fn put_number(bytes: &mut Vec<u8>, number: u32) -> Result<(), NoMemory>
    ensures { OnOk result (bytes.new.items ≡ bytes.old.items ++ little_bytes 4 number) }
{
    bytes.extend_from_slice(&number.to_le_bytes())?;
    Ok(())
}

fn put_stretch(bytes: &mut Vec<u8>, stretch: Stretch) -> Result<(), NoMemory>
    ensures { OnOk result (bytes.new.items ≡ bytes.old.items ++ stretch_bytes stretch) }
{
    bytes.push(stretch.hart.number)?;
    put_number(bytes, stretch.count)
}

fn put_reserved(bytes: &mut Vec<u8>, reserved: Option<u32>) -> Result<(), NoMemory>
    ensures { OnOk result (bytes.new.items ≡ bytes.old.items ++ reserved_bytes reserved) }
{
    bytes.push(u8::from(reserved.is_some()))?;
    put_number(bytes, reserved.unwrap_or(0))
}

fn put_status(bytes: &mut Vec<u8>, status: HartStatus) -> Result<(), NoMemory>
    ensures { OnOk result (bytes.new.items ≡ bytes.old.items ++ status_bytes status) }
{
    let (kind, number) = match status {
        HartStatus::Running => (0, 0),
        HartStatus::Exited { code } => (1, code),
        HartStatus::Trapped { cause, .. } => (2, u32::from(cause)),
    };
    bytes.push(kind)?;
    put_number(bytes, number)
}

/// x1 to x31.
fn put_registers(bytes: &mut Vec<u8>, view: &HartView) -> Result<(), NoMemory>
    requires { length view.now.regs ≡ 32 }
    ensures { OnOk result (bytes.new.items ≡ bytes.old.items ++ flat_map (little_bytes 4) (drop 1 view.now.regs)) }
{
    for number in 1..32_u8 {
        put_number(bytes, view.regs.get(Reg { number }))?;
    }
    Ok(())
}

fn put_view(bytes: &mut Vec<u8>, view: &HartView) -> Result<(), NoMemory>
    requires { length view.now.regs ≡ 32 }
    ensures { OnOk result (bytes.new.items ≡ bytes.old.items ++ view_bytes view.now) }
{
    put_number(bytes, view.pc)?;
    put_registers(bytes, view)?;
    put_reserved(bytes, view.reserved)?;
    put_status(bytes, view.status)
}

fn put_patch(bytes: &mut Vec<u8>, patch: &Patch) -> Result<(), NoMemory>
    ensures { OnOk result (bytes.new.items ≡ bytes.old.items ++ patch_bytes patch.now) }
{
    put_number(bytes, patch.line.number)?;
    bytes.extend_from_slice(&patch.bytes)?;
    Ok(())
}

fn put_stretches(bytes: &mut Vec<u8>, stretches: &[Stretch]) -> Result<(), NoMemory>
    ensures { OnOk result (bytes.new.items ≡ bytes.old.items ++ flat_map stretch_bytes stretches.now) }
{
    for stretch in stretches {
        put_stretch(bytes, *stretch)?;
    }
    Ok(())
}

fn put_views(bytes: &mut Vec<u8>, views: &[HartView]) -> Result<(), NoMemory>
    requires { (hart : ℕ) → hart < length views.now → IsView (slice_index_or views.now hart no_hart) }
    ensures { OnOk result (bytes.new.items ≡ bytes.old.items ++ flat_map view_bytes views.now) }
{
    for view in views {
        put_view(bytes, view)?;
    }
    Ok(())
}

fn put_lines(bytes: &mut Vec<u8>, lines: &[Patch]) -> Result<(), NoMemory>
    ensures { OnOk result (bytes.new.items ≡ bytes.old.items ++ flat_map patch_bytes lines.now) }
{
    for patch in lines {
        put_patch(bytes, patch)?;
    }
    Ok(())
}

/// The spelling of a certificate.
fn spelled(alloc: Global, certificate: &Certificate) -> Result<Vec<u8>, NoMemory>
    ensures { IfOk result (λ bytes. bytes.items ≡ spelling certificate.now) }
{
    let mut bytes = Vec::from_slice(alloc, &MAGIC)?;
    bytes.push(VERSION)?;
    bytes.push(certificate.harts())?;
    put_number(&mut bytes, certificate.stretches().len() as u32)?;
    put_stretches(&mut bytes, certificate.stretches())?;
    put_views(&mut bytes, certificate.views())?;
    put_number(&mut bytes, certificate.output().len() as u32)?;
    bytes.extend_from_slice(certificate.output())?;
    put_number(&mut bytes, certificate.lines().len() as u32)?;
    put_lines(&mut bytes, certificate.lines())?;
    Ok(bytes)
}

/// Makes the certificate of a history and of what was reached the contents of the name. Every other name keeps
/// its contents.
///
/// `Failed` comes only where the shelf lists this write among its failed calls; what the name holds is then
/// unknown. After `NoMemory` no file has changed. It never answers `TooBig`.
pub fn write_certificate<S: Shelf, C: Chronicled, R: Reached>(
    alloc: Global,
    shelf: &mut S,
    name: &str,
    image: &Image,
    history: &C,
    reached: &R,
) -> Result<(), ShelfFault>
    requires history { IsHistoryOf image.now (C.entries history.now) }
    requires reached { IsStateOf image.now (R.state reached.now) }
    ensures written { OnOk result (Holds (S.told shelf.new) name.now
        (spelling (certificate_of image.now (C.entries history.now) (R.state reached.now)))) }
    ensures valid { OnOk result
        (IsCertificate (certificate_of image.now (C.entries history.now) (R.state reached.now))) }
    ensures others_stay { KeepsOthers (S.told shelf.old) (S.told shelf.new) name.now }
    ensures contents_stay_without_memory { result ≡ Err ShelfFault.NoMemory → S.told shelf.new ≡ S.told shelf.old }
    ensures never_too_big { result ≢ Err ShelfFault.TooBig }
    ensures failures_listed { Records result (S.failures shelf.old) (S.failures shelf.new) (Call.Write, name.now) }
{
    let Ok(certificate) = certify(alloc, image, history, reached) else {
        return Err(ShelfFault::NoMemory);
    };
    certificate.harts();
    let Ok(bytes) = spelled(alloc, &certificate) else {
        return Err(ShelfFault::NoMemory);
    };
    shelf.write(alloc, name, &bytes)
}
