//! The certificate of a history and of what a run reached.

ghost use Rattle.std.specs.Prelude.{◌≡◌, ℕ, ◌+◌, ◌*◌, ◌/◌, ◌<◌, ◌≤◌, IfOk, length, slice_index_or};
ghost use Rattle.std.specs.Str.{bytes_eq};
ghost use Rattle.el_base.specs.declared.line.TheConstants.{LINE_BYTES};
ghost use Rattle.rv_flat.specs.FlatState.{no_hart};
ghost use Rattle.run_check.specs.Certified.{certificate_of, changed_lines, line_of_memory, IsHistoryOf, IsStateOf, StandsAtTrap};
ghost use Rattle.run_check.specs.Spelling.{IsView};

use crate::content::{Certificate, Patch};
use crate::reached::Reached;
use crate::stretches::stretches_of;
use el_base::{Chronicled, HartId, LINE_BYTES, NoMemory, line_of};
use elf_image::Image;
use rv_flat::HartView;
use std::alloc::Global;

/// The line at an index of memory, each byte of which is asked for once.
fn line_at<R: Reached>(reached: &R, base: u32, index: u32) -> [u8; 64]
    requires base { base ≡ (R.state reached.now).base }
    requires inside { LINE_BYTES * index + LINE_BYTES ≤ length (R.state reached.now).bytes }
    requires small { base + length (R.state reached.now).bytes < 4294967296 }
    ensures { result ≡ line_of_memory (R.state reached.now).bytes index }
{
    let from = base + LINE_BYTES * index;
    let mut bytes = [0; 64];
    for place in 0..LINE_BYTES {
        bytes[place as usize] = reached.byte(from + place).unwrap();
    }
    bytes
}

/// Whether two lines have the same bytes.
fn same_bytes(left: &[u8], right: &[u8]) -> bool
    ensures { result ≡ bytes_eq left.now right.now }
{
    left == right
}

/// The lines of memory that have a byte unlike the image's. It goes once over memory.
fn changed_lines<R: Reached>(
    alloc: Global,
    image: &Image,
    reached: &R,
) -> Result<Vec<Patch>, NoMemory>
    requires { IsStateOf image.now (R.state reached.now) }
    ensures { IfOk result (λ lines. lines.items ≡ changed_lines image.now (R.state reached.now).bytes) }
{
    let base = image.base();
    let bytes = image.bytes();
    let mut lines = Vec::new(alloc);
    for index in 0..bytes.len() as u32 / LINE_BYTES {
        let line = line_at(reached, base, index);
        let from = (LINE_BYTES * index) as usize;
        if !same_bytes(&line, &bytes[from..from + 64]) {
            lines.push(Patch {
                line: line_of(base + LINE_BYTES * index),
                bytes: line,
            })?;
        }
    }
    Ok(lines)
}

/// The view of one hart.
fn view_at<R: Reached>(reached: &R, hart: HartId) -> HartView
    requires there { hart.number < length (R.state reached.now).harts }
    requires trap { let view = slice_index_or (R.state reached.now).harts hart.number no_hart in
        StandsAtTrap view.pc view.status }
    ensures exact { result ≡ slice_index_or (R.state reached.now).harts hart.number no_hart }
    ensures valid { IsView result }
{
    reached.view(hart)
}

/// The views of all harts.
fn views_of<R: Reached>(
    alloc: Global,
    image: &Image,
    reached: &R,
) -> Result<Vec<HartView>, NoMemory>
    requires { IsStateOf image.now (R.state reached.now) }
    ensures exact { IfOk result (λ views. views.items ≡ (R.state reached.now).harts) }
    ensures valid { IfOk result (λ views. (hart : ℕ) → hart < length (R.state reached.now).harts →
        IsView (slice_index_or (R.state reached.now).harts hart no_hart)) }
{
    let mut views = Vec::new(alloc);
    for number in 0..image.harts() {
        views.push(view_at(reached, HartId { number }))?;
    }
    Ok(views)
}

/// The certificate of a history and of what was reached: the stretches are those of the serial order, the views
/// and the output those that were reached, and the lines those that have a byte unlike the image's.
pub fn certify<C: Chronicled, R: Reached>(
    alloc: Global,
    image: &Image,
    history: &C,
    reached: &R,
) -> Result<Certificate, NoMemory>
    requires history { IsHistoryOf image.now (C.entries history.now) }
    requires reached { IsStateOf image.now (R.state reached.now) }
    ensures { IfOk result (λ certificate. certificate
        ≡ certificate_of image.now (C.entries history.now) (R.state reached.now)) }
{
    let stretches = stretches_of(alloc, history)?;
    let views = views_of(alloc, image, reached)?;
    let output = Vec::from_slice(alloc, reached.output())?;
    let lines = changed_lines(alloc, image, reached)?;
    Ok(Certificate::new(image.harts(), stretches, views, output, lines))
}
