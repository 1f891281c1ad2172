//! The faults of a file, read from left to right.

ghost use Rattle.std.specs.Prelude.{◌≡◌, ℕ, ◌+◌, ◌*◌, ◌<◌, ◌≤◌, ◌||◌, None, Some, false, length, IfErr, IfOk, OnOk};
ghost use Rattle.file_numbers.specs.Numbers.{number_at};
ghost use Rattle.rv_flat.specs.FlatState.{output_limit};
ghost use Rattle.run_check.specs.Faults.{
  certificate_fault,
  count_at,
  first_below,
  hart_at,
  harts_of,
  head_fault,
  line_at,
  line_count,
  line_count_fault,
  line_fault,
  line_place,
  lines_place,
  magic_fault,
  output_fault,
  output_length,
  output_place,
  stretch_count,
  stretch_fault,
  stretch_place,
  tail_fault,
  view_fault,
  view_place,
  view_wrong,
};
ghost use Rattle.run_check.specs.Rules.{hart_wrong, line_limit, line_wrong, most_lines, most_steps, reservation_wrong, status_wrong, steps_before};

use crate::fault::FaultKind;
use crate::fields::{expect, reaches};
use el_base::{FileFault, MAX_HARTS, MAX_STEPS};
use file_numbers::number_at;

/// The first four bytes of a certificate.
pub const MAGIC: [u8; 4] = [b'E', b'L', b'C', b'T'];

/// The version of the format.
pub const VERSION: u8 = 1;

/// The place of the number of stretches, and of the first stretch.
const STRETCH_COUNT: u32 = 6;

pub const STRETCHES: u32 = 10;

/// The bytes of a stretch, of a view, and of a line with its number.
const STRETCH_BYTES: u32 = 5;

pub const VIEW_BYTES: u32 = 138;

const PATCH_BYTES: u32 = 68;

/// The most bytes that a program may write (this project's profile).
const MAX_OUTPUT: u32 = 16_777_216;

/// The most lines of a certificate: those of the largest memory.
const MAX_LINES: u32 = 262_144;

/// The numbers of lines are below this one.
const LINE_LIMIT: u32 = 0x0400_0000;

/// The most bytes of a certificate: as many stretches as steps, eight views, the longest output and the
/// most lines.
pub const MAX_FILE_BYTES: u32 = STRETCHES
    + STRETCH_BYTES * MAX_STEPS
    + VIEW_BYTES * 8
    + 4
    + MAX_OUTPUT
    + 4
    + PATCH_BYTES * MAX_LINES;

/// How many of each there are in a certificate.
#[derive(Clone, Copy)]
pub struct Counts {
    pub harts: u8,
    pub stretches: u32,
    pub output: u32,
    pub lines: u32,
}

/// The first four bytes, of a file that has as many.
fn check_magic(file: &[u8]) -> Result<(), FileFault>
    requires { 4 ≤ length file.now }
    ensures accepted { OnOk result (magic_fault file.now ≡ None) }
    ensures refused { IfErr result (λ fault. magic_fault file.now ≡ Some fault) }
{
    expect(file[0] != MAGIC[0], FaultKind::Magic, 0)?;
    expect(file[1] != MAGIC[1], FaultKind::Magic, 1)?;
    expect(file[2] != MAGIC[2], FaultKind::Magic, 2)?;
    expect(file[3] != MAGIC[3], FaultKind::Magic, 3)
}

/// The fields before the stretches. Gives the number of harts.
#[tactic(auto, unfolding(file_numbers::specs::Fields::short_or, crate::specs::Faults::head_fault))]
fn check_head(file: &[u8]) -> Result<u8, FileFault>
    ensures value { IfOk result (λ harts. (harts ≡ harts_of file.now) × (1 ≤ harts) × (harts ≤ 8)) }
    ensures accepted { OnOk result (head_fault file.now ≡ None) }
    ensures refused { IfErr result (λ fault. head_fault file.now ≡ Some fault) }
    ensures whole { OnOk result (10 ≤ length file.now) }
{
    reaches(file, 4)?;
    check_magic(file)?;
    reaches(file, 5)?;
    expect(file[4] != VERSION, FaultKind::Version, 4)?;
    reaches(file, 6)?;
    let harts = file[5];
    expect(!(1..=MAX_HARTS).contains(&harts), FaultKind::Harts, 5)?;
    reaches(file, STRETCHES)?;
    Ok(harts)
}

/// The place of a stretch.
pub fn stretch_place(index: u32) -> u32
    requires { index ≤ most_steps }
    ensures { result ≡ stretch_place index }
{
    STRETCHES + STRETCH_BYTES * index
}

/// Whether a stretch is of no hart of the machine, or of the hart of the stretch before.
fn hart_wrong(file: &[u8], harts: u8, index: u32) -> bool
    requires few { index ≤ most_steps }
    requires whole { stretch_place index + 1 ≤ length file.now }
    ensures { result ≡ hart_wrong harts (hart_at file.now) index }
{
    let hart = file[stretch_place(index) as usize];
    harts <= hart || (index > 0 && hart == file[stretch_place(index - 1) as usize])
}

/// One stretch, where so many steps stand before it. Gives the steps with its own.
#[tactic(auto, unfolding(file_numbers::specs::Fields::short_or, crate::specs::Faults::stretch_fault))]
fn check_stretch(file: &[u8], harts: u8, index: u32, steps: u32) -> Result<u32, FileFault>
    requires before { steps ≡ steps_before (count_at file.now) index }
    requires few { steps ≤ most_steps }
    requires each_has_one { index ≤ steps }
    ensures accepted { OnOk result (stretch_fault file.now harts index ≡ None) }
    ensures refused { IfErr result (λ fault. stretch_fault file.now harts index ≡ Some fault) }
    ensures steps { IfOk result (λ after. (after ≡ steps + count_at file.now index)
        × (after ≤ most_steps)
        × (index + 1 ≤ after)) }
    ensures hart { OnOk result (hart_at file.now index < harts) }
    ensures whole { OnOk result (stretch_place index + 5 ≤ length file.now) }
{
    let place = stretch_place(index);
    reaches(file, place + 1)?;
    expect(hart_wrong(file, harts, index), FaultKind::Stretch, place)?;
    reaches(file, place + STRETCH_BYTES)?;
    let count = number_at(file, place + 1);
    expect(
        count == 0 || MAX_STEPS - steps < count,
        FaultKind::Stretch,
        place,
    )?;
    Ok(steps + count)
}

/// All stretches.
#[tactic(auto, using(crate::proofs::FirstBelow::found_at))]
fn check_stretches(file: &[u8], harts: u8, count: u32) -> Result<(), FileFault>
    requires { 10 ≤ length file.now }
    ensures accepted { OnOk result (first_below count (stretch_fault file.now harts) ≡ None) }
    ensures refused { IfErr result (λ fault. first_below count (stretch_fault file.now harts) ≡ Some fault) }
    ensures few { OnOk result (count ≤ most_steps) }
    ensures harts { OnOk result ((index : ℕ) → index < count → hart_at file.now index < harts) }
    ensures whole { OnOk result (stretch_place count ≤ length file.now) }
{
    let mut steps = 0;
    for index in 0..count {
        steps = check_stretch(file, harts, index, steps)?;
    }
    Ok(())
}

/// The view at a place.
#[tactic(auto, unfolding(file_numbers::specs::Fields::short_or, crate::specs::Faults::view_fault))]
fn check_view(file: &[u8], views: u32, hart: u8) -> Result<(), FileFault>
    requires few { hart < 8 }
    requires low { views ≤ 10 + 5 * most_steps }
    ensures accepted { OnOk result (view_fault file.now views hart ≡ None) }
    ensures refused { IfErr result (λ fault. view_fault file.now views hart ≡ Some fault) }
    ensures right { OnOk result (view_wrong file.now (views + 138 * hart) ≡ false) }
    ensures whole { OnOk result (views + 138 * hart + 138 ≤ length file.now) }
{
    let place = views + VIEW_BYTES * u32::from(hart);
    reaches(file, place + VIEW_BYTES)?;
    expect(view_wrong(file, place), FaultKind::View, place)
}

/// Whether a view's reservation or status is none that a hart can have.
fn view_wrong(file: &[u8], place: u32) -> bool
    requires whole { place + 138 ≤ length file.now }
    requires low { place ≤ 16 + 6 * most_steps }
    ensures { result ≡ view_wrong file.now place }
{
    let flag = file[place as usize + 128];
    let status = file[place as usize + 133];
    reservation_wrong(flag, number_at(file, place + 129))
        || status_wrong(status, number_at(file, place + 134))
}

fn reservation_wrong(flag: u8, word: u32) -> bool
    ensures { result ≡ reservation_wrong flag word }
{
    1 < flag || (flag == 0 && 0 < word)
}

fn status_wrong(status: u8, number: u32) -> bool
    ensures { result ≡ status_wrong status number }
{
    2 < status || (status == 0 && 0 < number) || (status == 2 && 255 < number)
}

/// All views.
#[tactic(auto, using(crate::proofs::FirstBelow::found_at))]
fn check_views(file: &[u8], views: u32, harts: u8) -> Result<(), FileFault>
    requires few { harts ≤ 8 }
    requires low { views ≤ 10 + 5 * most_steps }
    requires start { views ≤ length file.now }
    ensures accepted { OnOk result (first_below harts (view_fault file.now views) ≡ None) }
    ensures refused { IfErr result (λ fault. first_below harts (view_fault file.now views) ≡ Some fault) }
    ensures right { OnOk result ((hart : ℕ) → hart < harts → view_wrong file.now (views + 138 * hart) ≡ false) }
    ensures whole { OnOk result (views + 138 * harts ≤ length file.now) }
{
    for hart in 0..harts {
        check_view(file, views, hart)?;
    }
    Ok(())
}

/// The output. Gives its length.
#[tactic(auto, unfolding(file_numbers::specs::Fields::short_or, crate::specs::Faults::output_fault))]
fn check_output(file: &[u8], place: u32) -> Result<u32, FileFault>
    requires low { place ≤ 2000 + 5 * most_steps }
    ensures value { IfOk result (λ len. (len ≡ number_at file.now place) × (len ≤ output_limit)) }
    ensures accepted { OnOk result (output_fault file.now place ≡ None) }
    ensures refused { IfErr result (λ fault. output_fault file.now place ≡ Some fault) }
    ensures whole { IfOk result (λ len. place + 4 + len ≤ length file.now) }
{
    reaches(file, place + 4)?;
    let len = number_at(file, place);
    expect(MAX_OUTPUT < len, FaultKind::Output, place)?;
    reaches(file, place + 4 + len)?;
    Ok(len)
}

/// The number of lines.
#[tactic(auto, unfolding(file_numbers::specs::Fields::short_or, crate::specs::Faults::line_count_fault))]
fn check_line_count(file: &[u8], place: u32) -> Result<u32, FileFault>
    requires low { place ≤ 3000 + 6 * most_steps }
    ensures value { IfOk result (λ count. (count ≡ number_at file.now place) × (count ≤ most_lines)) }
    ensures accepted { OnOk result (line_count_fault file.now place ≡ None) }
    ensures refused { IfErr result (λ fault. line_count_fault file.now place ≡ Some fault) }
    ensures whole { OnOk result (place + 4 ≤ length file.now) }
{
    reaches(file, place + 4)?;
    let count = number_at(file, place);
    expect(MAX_LINES < count, FaultKind::Lines, place)?;
    Ok(count)
}

/// The place of a line, where the number of lines stands at the first place.
pub fn line_place(lines: u32, index: u32) -> u32
    requires few { index ≤ most_lines }
    requires low { lines ≤ 3000 + 6 * most_steps }
    ensures { result ≡ line_place lines index }
{
    lines + 4 + PATCH_BYTES * index
}

/// Whether a line has no line's number, or does not come after the one before.
fn line_wrong(file: &[u8], lines: u32, index: u32) -> bool
    requires few { index < most_lines }
    requires low { lines ≤ 3000 + 6 * most_steps }
    requires whole { line_place lines index + 4 ≤ length file.now }
    ensures { result ≡ line_wrong (line_at file.now lines) index }
{
    let line = number_at(file, line_place(lines, index));
    LINE_LIMIT <= line || (index > 0 && line <= number_at(file, line_place(lines, index - 1)))
}

/// One line.
#[tactic(auto, unfolding(file_numbers::specs::Fields::short_or, crate::specs::Faults::line_fault))]
fn check_line(file: &[u8], lines: u32, index: u32) -> Result<(), FileFault>
    requires few { index < most_lines }
    requires low { lines ≤ 3000 + 6 * most_steps }
    ensures accepted { OnOk result (line_fault file.now lines index ≡ None) }
    ensures refused { IfErr result (λ fault. line_fault file.now lines index ≡ Some fault) }
    ensures number { OnOk result (line_at file.now lines index < line_limit) }
    ensures whole { OnOk result (line_place lines index + 68 ≤ length file.now) }
{
    let place = line_place(lines, index);
    reaches(file, place + 4)?;
    expect(line_wrong(file, lines, index), FaultKind::Lines, place)?;
    reaches(file, place + PATCH_BYTES)
}

/// All lines.
#[tactic(auto, using(crate::proofs::FirstBelow::found_at))]
fn check_lines(file: &[u8], lines: u32, count: u32) -> Result<(), FileFault>
    requires few { count ≤ most_lines }
    requires low { lines ≤ 3000 + 6 * most_steps }
    requires start { lines + 4 ≤ length file.now }
    ensures accepted { OnOk result (first_below count (line_fault file.now lines) ≡ None) }
    ensures refused { IfErr result (λ fault. first_below count (line_fault file.now lines) ≡ Some fault) }
    ensures numbers { OnOk result ((index : ℕ) → index < count → line_at file.now lines index < line_limit) }
    ensures whole { OnOk result (line_place lines count ≤ length file.now) }
{
    for index in 0..count {
        check_line(file, lines, index)?;
    }
    Ok(())
}

/// That no bytes follow the last line.
#[tactic(auto, unfolding(crate::specs::Faults::tail_fault))]
fn check_tail(file: &[u8], end: u32) -> Result<(), FileFault>
    ensures accepted { OnOk result (tail_fault file.now end ≡ None) }
    ensures refused { IfErr result (λ fault. tail_fault file.now end ≡ Some fault) }
{
    expect((end as usize) < file.len(), FaultKind::Tail, end)
}

/// How many of each there are in a file that is a certificate, or its first fault.
#[tactic(auto, unfolding(crate::specs::Faults::certificate_fault))]
pub fn checked(file: &[u8]) -> Result<Counts, FileFault>
    ensures accepted { OnOk result (certificate_fault file.now ≡ None) }
    ensures refused { IfErr result (λ fault. certificate_fault file.now ≡ Some fault) }
    ensures counts { IfOk result (λ counts. (counts.harts ≡ harts_of file.now)
        × (counts.stretches ≡ stretch_count file.now)
        × (counts.output ≡ output_length file.now)
        × (counts.lines ≡ line_count file.now)) }
    ensures few { IfOk result (λ counts. (counts.harts ≤ 8)
        × (counts.stretches ≤ most_steps)
        × (counts.output ≤ output_limit)
        × (counts.lines ≤ most_lines)) }
    ensures harts { OnOk result ((index : ℕ) → index < stretch_count file.now → hart_at file.now index < 8) }
    ensures views { OnOk result ((hart : ℕ) → hart < harts_of file.now →
        view_wrong file.now (view_place file.now hart) ≡ false) }
    ensures lines { OnOk result ((index : ℕ) → index < line_count file.now →
        line_at file.now (lines_place file.now) index < line_limit) }
    ensures whole { OnOk result (line_place (lines_place file.now) (line_count file.now) ≤ length file.now) }
{
    let harts = check_head(file)?;
    let stretches = number_at(file, STRETCH_COUNT);
    check_stretches(file, harts, stretches)?;
    let views = stretch_place(stretches);
    check_views(file, views, harts)?;
    let output_place = views + VIEW_BYTES * u32::from(harts);
    let output = check_output(file, output_place)?;
    let lines_place = output_place + 4 + output;
    let lines = check_line_count(file, lines_place)?;
    check_lines(file, lines_place, lines)?;
    check_tail(file, line_place(lines_place, lines))?;
    Ok(Counts {
        harts,
        stretches,
        output,
        lines,
    })
}
