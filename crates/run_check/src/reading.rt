//! From bytes to a certificate.

ghost use Rattle.std.specs.Prelude.{◌≡◌, ℕ, ◌+◌, ◌*◌, ◌<◌, ◌≤◌, None, Some, Err, false, length, take, drop, IfOk};
ghost use Rattle.el_base.specs.declared.hart_id.TheConstants.{MAX_HARTS};
ghost use Rattle.run_check.specs.Content.{Content};
ghost use Rattle.run_check.specs.Faults.{
  certificate_fault,
  content_of,
  hart_at,
  harts_of,
  line_at,
  line_count,
  line_place,
  lines_at,
  lines_place,
  output_at,
  output_length,
  output_place,
  patch_at,
  registers_at,
  reserved_at,
  status_at,
  stretch_at,
  stretch_count,
  stretch_place,
  stretches_at,
  view_at,
  view_place,
  view_wrong,
  views_at,
};
ghost use Rattle.run_check.specs.Rules.{line_limit, most_lines, most_steps, status_wrong};
ghost use Rattle.run_check.specs.Spelling.{spelling, IsCertificate};
ghost use Rattle.rv_flat.specs.FlatState.{output_limit};

use crate::content::{Certificate, Patch, Stretch};
use crate::fault::CertFault;
use crate::judging::{self, Counts, VIEW_BYTES, line_place, stretch_place};
use el_base::{HartId, LineAddr, NoMemory};
use file_numbers::number_at;
use rv_alu::{HartStatus, HartView, Regs};
use rv_word::Reg;
use std::alloc::Global;

/// A stretch of a hart that there can be.
fn stretch_at(file: &[u8], index: u32) -> Stretch
    requires few { index ≤ most_steps }
    requires whole { stretch_place index + 5 ≤ length file.now }
    requires hart { hart_at file.now index < MAX_HARTS }
    ensures { result ≡ stretch_at file.now index }
{
    let place = stretch_place(index);
    Stretch {
        hart: HartId {
            number: file[place as usize],
        },
        count: number_at(file, place + 1),
    }
}

fn stretches_of(alloc: Global, file: &[u8], count: u32) -> Result<Vec<Stretch>, NoMemory>
    requires all { count ≡ stretch_count file.now }
    requires few { count ≤ most_steps }
    requires whole { stretch_place count ≤ length file.now }
    requires harts { (index : ℕ) → index < count → hart_at file.now index < MAX_HARTS }
    ensures { IfOk result (λ stretches. stretches.items ≡ stretches_at file.now) }
{
    let mut stretches = Vec::with_capacity(alloc, count as usize)?;
    for index in 0..count {
        stretches.push(stretch_at(file, index))?;
    }
    Ok(stretches)
}

/// The registers of the view at a place.
fn registers_at(file: &[u8], place: u32) -> Regs
    requires whole { place + 138 ≤ length file.now }
    requires low { place ≤ 16 + 6 * most_steps }
    ensures { result ≡ registers_at file.now place }
{
    let mut regs = Regs::zero();
    for number in 1..32_u8 {
        let reg = Reg { number };
        regs.set(reg, number_at(file, place + 4 * u32::from(number)));
    }
    regs
}

/// The reservation of a flag and a word.
fn reserved_at(flag: u8, word: u32) -> Option<u32>
    ensures { result ≡ reserved_at flag word }
{
    if flag == 0 { None } else { Some(word) }
}

/// The status of two numbers, of a hart that stands at this pc.
fn status_at(status: u8, number: u32, pc: u32) -> HartStatus
    requires { status_wrong status number ≡ false }
    ensures { result ≡ status_at status number pc }
{
    match status {
        0 => HartStatus::Running,
        1 => HartStatus::Exited { code: number },
        _ => HartStatus::Trapped {
            cause: number as u8,
            pc,
        },
    }
}

/// The view at a place.
#[tactic(auto, unfolding(crate::specs::Faults::view_at))]
fn view_at(file: &[u8], place: u32) -> HartView
    requires whole { place + 138 ≤ length file.now }
    requires low { place ≤ 16 + 6 * most_steps }
    requires right { view_wrong file.now place ≡ false }
    ensures { result ≡ view_at file.now place }
{
    let pc = number_at(file, place);
    let flag = file[place as usize + 128];
    let status = file[place as usize + 133];
    HartView {
        pc,
        regs: registers_at(file, place),
        reserved: reserved_at(flag, number_at(file, place + 129)),
        status: status_at(status, number_at(file, place + 134), pc),
    }
}

/// The views, from a place on.
fn views_of(alloc: Global, file: &[u8], views: u32, harts: u8) -> Result<Vec<HartView>, NoMemory>
    requires all { harts ≡ harts_of file.now }
    requires place { views ≡ stretch_place (stretch_count file.now) }
    requires few { harts ≤ 8 }
    requires low { views ≤ 10 + 5 * most_steps }
    requires whole { views + 138 * harts ≤ length file.now }
    requires right { (hart : ℕ) → hart < harts → view_wrong file.now (view_place file.now hart) ≡ false }
    ensures { IfOk result (λ list. list.items ≡ views_at file.now) }
{
    let mut list = Vec::with_capacity(alloc, usize::from(harts))?;
    for hart in 0..harts {
        list.push(view_at(file, views + VIEW_BYTES * u32::from(hart)))?;
    }
    Ok(list)
}

/// The 64 bytes at a place.
fn line_bytes(file: &[u8], place: u32) -> [u8; 64]
    requires { place + 64 ≤ length file.now }
    ensures { result ≡ take 64 (drop place file.now) }
{
    let mut bytes = [0; 64];
    bytes.copy_from_slice(&file[place as usize..place as usize + 64]);
    bytes
}

/// A line whose number there can be.
fn patch_at(file: &[u8], lines: u32, index: u32) -> Patch
    requires few { index ≤ most_lines }
    requires low { lines ≤ 3000 + 6 * most_steps }
    requires whole { line_place lines index + 68 ≤ length file.now }
    requires number { line_at file.now lines index < line_limit }
    ensures { result ≡ patch_at file.now lines index }
{
    let place = line_place(lines, index);
    Patch {
        line: LineAddr {
            number: number_at(file, place),
        },
        bytes: line_bytes(file, place + 4),
    }
}

/// The output, of so many bytes, where its length stands at a place.
fn output_of(alloc: Global, file: &[u8], place: u32, len: u32) -> Result<Vec<u8>, NoMemory>
    requires all { len ≡ output_length file.now }
    requires place { place ≡ output_place file.now }
    requires low { place + 4 + len ≤ 3000 + 6 * most_steps }
    requires whole { place + 4 + len ≤ length file.now }
    ensures { IfOk result (λ output. output.items ≡ output_at file.now) }
{
    let from = place as usize + 4;
    Ok(Vec::from_slice(alloc, &file[from..from + len as usize])?)
}

/// The lines, where their number stands at a place.
fn lines_of(alloc: Global, file: &[u8], lines: u32, count: u32) -> Result<Vec<Patch>, NoMemory>
    requires all { count ≡ line_count file.now }
    requires place { lines ≡ lines_place file.now }
    requires few { count ≤ most_lines }
    requires low { lines ≤ 3000 + 6 * most_steps }
    requires whole { line_place lines count ≤ length file.now }
    requires numbers { (index : ℕ) → index < count → line_at file.now lines index < line_limit }
    ensures { IfOk result (λ list. list.items ≡ lines_at file.now) }
{
    let mut list = Vec::with_capacity(alloc, count as usize)?;
    for index in 0..count {
        list.push(patch_at(file, lines, index))?;
    }
    Ok(list)
}

/// The certificate of a file that is one.
fn built(alloc: Global, file: &[u8], counts: Counts) -> Result<Certificate, NoMemory>
    requires counts { (counts.harts ≡ harts_of file.now)
        × (counts.stretches ≡ stretch_count file.now)
        × (counts.output ≡ output_length file.now)
        × (counts.lines ≡ line_count file.now) }
    requires few { (counts.harts ≤ 8)
        × (counts.stretches ≤ most_steps)
        × (counts.output ≤ output_limit)
        × (counts.lines ≤ most_lines) }
    requires harts { (index : ℕ) → index < stretch_count file.now → hart_at file.now index < 8 }
    requires views { (hart : ℕ) → hart < harts_of file.now → view_wrong file.now (view_place file.now hart) ≡ false }
    requires lines { (index : ℕ) → index < line_count file.now →
        line_at file.now (lines_place file.now) index < line_limit }
    requires whole { line_place (lines_place file.now) (line_count file.now) ≤ length file.now }
    requires none { certificate_fault file.now ≡ None }
    ensures { IfOk result (λ certificate. certificate ≡ content_of file.now) }
{
    let stretches = stretches_of(alloc, file, counts.stretches)?;
    let first_view = stretch_place(counts.stretches);
    let views = views_of(alloc, file, first_view, counts.harts)?;
    let output_place = first_view + VIEW_BYTES * u32::from(counts.harts);
    let output = output_of(alloc, file, output_place, counts.output)?;
    let lines_place = output_place + 4 + counts.output;
    let lines = lines_of(alloc, file, lines_place, counts.lines)?;
    Ok(Certificate::new(counts.harts, stretches, views, output, lines))
}

/// The certificate that the file spells, or its first fault. It takes no memory before the whole file was
/// found to be a certificate.
pub fn read_certificate(alloc: Global, file: &[u8]) -> Result<Certificate, CertFault>
    ensures accepted { IfOk result (λ certificate. IsCertificate certificate × (file.now ≡ spelling certificate)) }
    ensures refused { (number place : ℕ) → result ≡ Err (CertFault.Bad number place) →
        certificate_fault file.now ≡ Some (record { number = number; place = place }) }
    ensures memory_after_faults { result ≡ Err CertFault.NoMemory → certificate_fault file.now ≡ None }
    // What is spelled is read as what it spells, unless memory runs out.
    ensures spelled { (content : Content) → IsCertificate content → file.now ≡ spelling content →
        (certificate_fault file.now ≡ None) × IfOk result (λ certificate. certificate ≡ content) }
{
    let counts = judging::checked(file)?;
    Ok(built(alloc, file, counts)?)
}
