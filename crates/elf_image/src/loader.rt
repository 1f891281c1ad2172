//! Loading: from the bytes of a file to an image.

ghost use Rattle.std.specs.Prelude.{◌≡◌, ◌≤◌, ℕ, IfOk, IfErr, OnOk, Some, None, Err, length};
ghost use Rattle.elf_image.specs.Faults.{fault};
ghost use Rattle.elf_image.specs.declared.loader.ImageFault.TheVariants.{Bad, NoMemory};
ghost use Rattle.elf_image.specs.Header.{file_header};
ghost use Rattle.elf_image.specs.Layout.{layout_of, segments_of};
ghost use Rattle.elf_image.specs.Limits.{file_limit};
ghost use Rattle.elf_image.specs.Loaded.{IsLoadable, program_of};
ghost use Rattle.elf_image.specs.Program.{IsProgram};

use crate::header::{FileHeader, check_ident};
use crate::image::Image;
use crate::layout::{Layout, check_memory};
use crate::loaded::{load_bytes, load_code};
use crate::table::{ProgramHeaders, check_headers, headers_at, segments_of};
use el_base::FileFault;
use std::alloc::Global;
use thiserror::Error;

/// Why a file gives no image.
#[derive(Clone, Copy, Debug, PartialEq, Eq, Error)]
pub enum ImageFault {
    /// The file is no image. `number` is that of its first fault, a [`FaultKind`](crate::FaultKind),
    /// and `place` the place in the file that shows it.
    #[error("image fault {number} at byte {place}")]
    Bad { number: u8, place: u32 },
    /// An allocation failed, and the file has no fault.
    #[error("no memory for the image")]
    NoMemory,
}

impl From<FileFault> for ImageFault {
    ghost from_gives = { λ found error. error ≡ Bad found.number found.place };

    fn from(found: FileFault) -> ImageFault {
        ImageFault::Bad {
            number: found.number,
            place: found.place,
        }
    }
}

impl From<el_base::NoMemory> for ImageFault {
    ghost from_gives = { λ _ error. error ≡ NoMemory };

    fn from(_error: el_base::NoMemory) -> ImageFault {
        ImageFault::NoMemory
    }
}

/// What loading needs of a file without a fault.
#[derive(Drop)]
struct Accepted {
    entry: u32,
    segments: ProgramHeaders,
    layout: Layout,
}

/// Judges a file. Its headers are read once.
#[tactic(auto, unfolding(crate::specs::Faults::fault, crate::specs::Layout::segments_of, crate::specs::Header::program_headers))]
fn judge(file: &[u8], harts: u8) -> Result<Accepted, FileFault>
    requires { length file.now ≤ file_limit }
    ensures accepted { OnOk result (fault file.now harts ≡ None) }
    ensures refused { IfErr result (λ found. fault file.now harts ≡ Some found) }
    ensures entry { IfOk result (λ parts. parts.entry ≡ (file_header file.now).e_entry) }
    ensures segments { IfOk result (λ parts. parts.segments.items ≡ segments_of file.now) }
    ensures layout { IfOk result (λ parts. parts.layout ≡ layout_of (segments_of file.now) harts) }
{
    check_ident(file)?;
    let header = FileHeader::read(file);
    header.check(file.len())?;
    let headers = headers_at(file, header.e_phoff, header.e_phnum);
    check_headers(&headers, file.len())?;
    let segments = segments_of(&headers);
    let layout = Layout::of(&segments, harts);
    check_memory(&segments, layout, header.e_entry)?;
    Ok(Accepted {
        entry: header.e_entry,
        segments,
        layout,
    })
}

/// The program that a file without a fault loads.
#[tactic(auto, unfolding(crate::specs::Loaded::program_of, crate::specs::Loaded::loaded_bytes))]
fn load_program(
    alloc: Global,
    file: &[u8],
    parts: &Accepted,
    harts: u8,
) -> Result<Image, el_base::NoMemory>
    requires entry { parts.now.entry ≡ (file_header file.now).e_entry }
    requires segments { parts.now.segments.items ≡ segments_of file.now }
    requires layout { parts.now.layout ≡ layout_of parts.now.segments.items harts }
    requires loadable { IsLoadable (length file.now) parts.now.segments.items parts.now.layout }
    requires valid { IsProgram (program_of file.now harts) }
    ensures { IfOk result (λ image. image ≡ program_of file.now harts) }
{
    let base = parts.layout.base as u32;
    let size = parts.layout.size() as usize;
    let bytes = load_bytes(alloc, file, &parts.segments, base, size)?;
    let code = load_code(alloc, &bytes, &parts.segments, base)?;
    Ok(Image::new(base, bytes, parts.entry, harts, code))
}

/// The image of a program for 1 to 8 harts, of a file of at most 33,554,432 bytes: an ELF32
/// executable for RISC-V.
///
/// The file is judged before any memory is taken. An error is the first of its sixteen faults, or
/// that an allocation failed where it has none.
pub fn load(alloc: Global, file: &[u8], harts: u8) -> Result<Image, ImageFault>
    requires harts_in_range { (1 ≤ harts) × (harts ≤ 8) }
    requires within_limit { length file.now ≤ file_limit }
    ensures accepted { IfOk result (λ image.
        (fault file.now harts ≡ None) × (image ≡ program_of file.now harts)) }
    ensures refused { (number place : ℕ) → result ≡ Err (Bad number place) →
        fault file.now harts ≡ Some (record { number = number; place = place }) }
    ensures memory_after_faults { result ≡ Err NoMemory → fault file.now harts ≡ None }
{
    let parts = judge(file, harts)?;
    let image = load_program(alloc, file, &parts, harts)?;
    Ok(image)
}
