//! Whether a certificate holds.

ghost use Rattle.std.specs.Prelude.{◌≡◌, ◌≢◌, ℕ, ◌+◌, ◌*◌, ◌<◌, ◌≤◌, false, true, length, slice_get, slice_index, IfNone, IfOk, IfSome};
ghost use Rattle.el_base.specs.declared.line.TheConstants.{LINE_BYTES};
ghost use Rattle.rv_flat.specs.FlatState.{output_limit};
ghost use Rattle.rv_flat.specs.Memory.{byte_in};
ghost use Rattle.rv_flat.specs.Run.{run};
ghost use Rattle.run_check.specs.Check.{reached, Agrees, IsVerdict, LineHolds};
ghost use Rattle.run_check.specs.Content.{steps_in, written_out};
ghost use Rattle.run_check.specs.Differences.{number_of};
ghost use Rattle.run_check.specs.Rules.{count_wrong, line_wrong};
ghost use Rattle.run_check.specs.Spelling.{count_in, hart_in, line_in};

use crate::content::{Certificate, Patch, Stretch};
use crate::verdict::{Difference, Verdict};
use el_base::{HartId, LINE_BYTES, NoMemory, Numbered};
use elf_image::Image;
use rv_flat::{Flat, HartView};
use std::alloc::Global;

/// Makes the steps of a stretch over plain memory, all of its hart, which memory has. By this project's profile.
pub fn run_stretch(flat: &mut Flat, stretch: Stretch)
    requires { stretch.hart.number < length flat.old.harts }
    ensures ran { flat.new ≡ run flat.old (steps_in stretch) }
    ensures harts { length flat.new.harts ≡ length flat.old.harts }
{
    for _step in 0..stretch.count {
        flat.step(stretch.hart);
    }
}

/// The steps of all stretches. Gives their number.
fn run_stretches(flat: &mut Flat, stretches: &[Stretch]) -> u64
    requires harts { (index : ℕ) → index < length stretches.now → hart_in stretches.now index < length flat.old.harts }
    requires counts { (index : ℕ) → index < length stretches.now → count_wrong (count_in stretches.now) index ≡ false }
    ensures ran { flat.new ≡ run flat.old (written_out stretches.now) }
    ensures serial { result ≡ length (written_out stretches.now) }
{
    let mut serial = 0;
    for stretch in stretches {
        run_stretch(flat, *stretch);
        serial += u64::from(stretch.count);
    }
    serial
}

/// Whether two views are the same.
fn same_view(left: HartView, right: HartView) -> bool
    ensures same { result ≡ true → left ≡ right }
    ensures other { result ≡ false → left ≢ right }
{
    left == right
}

/// The least hart whose view differs.
fn first_view(flat: &Flat, views: &[HartView]) -> Option<u8>
    requires one_each { length views.now ≡ length flat.now.harts }
    requires few { length views.now ≤ 8 }
    ensures none { IfNone result ((hart : ℕ) → slice_get flat.now.harts hart ≡ slice_get views.now hart) }
    ensures first { IfSome result (λ hart. (slice_get flat.now.harts hart ≢ slice_get views.now hart)
        × ((before : ℕ) → before < hart → slice_get flat.now.harts before ≡ slice_get views.now before)) }
{
    for number in 0..views.len() as u8 {
        if !same_view(flat.hart(HartId { number }), views[usize::from(number)]) {
            return Some(number);
        }
    }
    None
}

/// The first index at which two outputs differ, or the shorter length.
fn first_index(left: &[u8], right: &[u8]) -> Option<u32>
    requires left_few { length left.now ≤ output_limit }
    requires right_few { length right.now ≤ output_limit }
    ensures none { IfNone result ((index : ℕ) → slice_get left.now index ≡ slice_get right.now index) }
    ensures first { IfSome result (λ index. (slice_get left.now index ≢ slice_get right.now index)
        × ((before : ℕ) → before < index → slice_get left.now before ≡ slice_get right.now before)) }
{
    let shorter = left.len().min(right.len());
    for index in 0..shorter {
        if left[index] != right[index] {
            return Some(index as u32);
        }
    }
    if left.len() == right.len() {
        None
    } else {
        Some(shorter as u32)
    }
}

/// The first address, of these, at which memory is not as in the image.
fn first_unlike(flat: &Flat, image: &Image, from: u32, to: u32) -> Option<u32>
    requires base { flat.now.base ≡ image.now.base }
    requires size { length flat.now.bytes ≡ length image.now.bytes }
    requires from_base { image.now.base ≤ from }
    requires to_end { to ≤ image.now.base + length image.now.bytes }
    ensures none { IfNone result ((address : ℕ) → from ≤ address → address < to →
        byte_in image.now.base flat.now.bytes address ≡ byte_in image.now.base image.now.bytes address) }
    ensures first { IfSome result (λ found. (from ≤ found) × (found < to)
        × (byte_in image.now.base flat.now.bytes found ≢ byte_in image.now.base image.now.bytes found)
        × ((address : ℕ) → from ≤ address → address < found →
        byte_in image.now.base flat.now.bytes address ≡ byte_in image.now.base image.now.bytes address)) }
{
    let base = image.base();
    let bytes = image.bytes();
    for address in from..to {
        if flat.byte(address) != Some(bytes[(address - base) as usize]) {
            return Some(address);
        }
    }
    None
}

/// The first index at which a line of memory has not these bytes.
fn first_other(flat: &Flat, line: u32, bytes: &[u8; 64]) -> Option<u32>
    requires from_base { flat.now.base ≤ LINE_BYTES * line }
    requires to_end { LINE_BYTES * line + LINE_BYTES ≤ flat.now.base + length flat.now.bytes }
    requires small { flat.now.base + length flat.now.bytes < 4294967296 }
    ensures none { IfNone result ((index : ℕ) → index < LINE_BYTES →
        byte_in flat.now.base flat.now.bytes (LINE_BYTES * line + index) ≡ slice_index bytes.now index) }
    ensures found { IfSome result (λ index. (index < LINE_BYTES)
        × (byte_in flat.now.base flat.now.bytes (LINE_BYTES * line + index) ≢ slice_index bytes.now index)) }
{
    for index in 0..LINE_BYTES {
        if flat.byte(LINE_BYTES * line + index) != Some(bytes[index as usize]) {
            return Some(index);
        }
    }
    None
}

/// The least line that differs or lies outside memory.
fn first_line(flat: &Flat, image: &Image, lines: &[Patch]) -> Option<u32>
    requires base { flat.now.base ≡ image.now.base }
    requires size { length flat.now.bytes ≡ length image.now.bytes }
    requires ascends { (index : ℕ) → index < length lines.now → line_wrong (line_in lines.now) index ≡ false }
    ensures none { IfNone result ((line : ℕ) → LineHolds image.now lines.now flat.now.bytes line) }
    ensures first { IfSome result (λ line. (¬ LineHolds image.now lines.now flat.now.bytes line)
        × ((before : ℕ) → before < line → LineHolds image.now lines.now flat.now.bytes before)) }
{
    let first = image.base() / LINE_BYTES;
    let end = first + image.bytes().len() as u32 / LINE_BYTES;
    if let Some(patch) = lines.first() {
        if patch.line.number < first {
            return Some(patch.line.number);
        }
    }
    let mut next = first;
    for patch in lines {
        let line = patch.line.number;
        let between = LINE_BYTES * line.min(end);
        if let Some(address) = first_unlike(flat, image, LINE_BYTES * next, between) {
            return Some(address / LINE_BYTES);
        }
        if end <= line {
            return Some(line);
        }
        if let Some(_index) = first_other(flat, line, &patch.bytes) {
            return Some(line);
        }
        next = line + 1;
    }
    let address = first_unlike(flat, image, LINE_BYTES * next, LINE_BYTES * end)?;
    Some(address / LINE_BYTES)
}

/// The least place at which a certificate and what its run reached differ in one kind.
fn first_difference(
    kind: Difference,
    flat: &Flat,
    image: &Image,
    certificate: &Certificate,
) -> Option<u32>
    requires ran { flat.now ≡ reached image.now certificate.now }
    requires one_hart_each { image.now.harts ≡ certificate.now.harts }
    ensures none { IfNone result ((place : ℕ) → Agrees kind image.now certificate.now flat.now place) }
    ensures first { IfSome result (λ place. (¬ Agrees kind image.now certificate.now flat.now place)
        × ((before : ℕ) → before < place → Agrees kind image.now certificate.now flat.now before)) }
{
    match kind {
        Difference::View => first_view(flat, certificate.views()).map(u32::from),
        Difference::Output => first_index(flat.output(), certificate.output()),
        Difference::Memory => first_line(flat, image, certificate.lines()),
    }
}

/// The verdict on a certificate after its run of so many steps.
fn verdict_on(flat: &Flat, image: &Image, certificate: &Certificate, serial: u64) -> Verdict
    requires ran { flat.now ≡ reached image.now certificate.now }
    requires one_hart_each { image.now.harts ≡ certificate.now.harts }
    requires serial { serial ≡ length (written_out certificate.now.stretches) }
    ensures { IsVerdict image.now certificate.now result }
{
    if let Some(hart) = first_difference(Difference::View, flat, image, certificate) {
        return fails(Difference::View, hart);
    }
    if let Some(index) = first_difference(Difference::Output, flat, image, certificate) {
        return fails(Difference::Output, index);
    }
    if let Some(line) = first_difference(Difference::Memory, flat, image, certificate) {
        return fails(Difference::Memory, line);
    }
    Verdict::Holds { serial }
}

fn fails(kind: Difference, place: u32) -> Verdict
    ensures { result ≡ Verdict.Fails (number_of kind) place }
{
    Verdict::Fails {
        number: kind.number(),
        place,
    }
}

/// Runs the certificate's serial order on plain memory, and says whether its views, its output and its memory
/// come of it, or which difference comes first. It takes one memory, and room for the whole output.
pub fn check(alloc: Global, image: &Image, certificate: &Certificate) -> Result<Verdict, NoMemory>
    requires one_hart_each { image.now.harts ≡ certificate.now.harts }
    ensures exact { IfOk result (IsVerdict image.now certificate.now) }
{
    let mut flat = Flat::make(alloc, image)?;
    let serial = run_stretches(&mut flat, certificate.stretches());
    Ok(verdict_on(&flat, image, certificate, serial))
}
