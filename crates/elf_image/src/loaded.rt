//! What a file without a fault puts into memory.

ghost use Rattle.std.specs.Prelude.{◌≡◌, ◌<◌, ◌+◌, ℕ, None, All, IfOk, if◌then◌else◌};
ghost use Rattle.std.specs.Prelude.{filter, length, map, replicate, slice_index};
ghost use Rattle.std.specs.List.{range_with_len};
ghost use Rattle.elf_image.specs.Layout.{first_overlap, is_executable};
ghost use Rattle.elf_image.specs.Loaded.{Fits, IsInside, code_segment, file_byte, is_filled, loaded_byte};

use crate::code::Code;
use crate::code_segment::CodeSegment;
use crate::program_header::ProgramHeader;
use el_base::NoMemory;
use std::alloc::Global;

/// Memory of `size` bytes from `base` on, with the bytes of the segments that stand in the file.
pub fn load_bytes(
    alloc: Global,
    file: &[u8],
    segments: &[ProgramHeader],
    base: u32,
    size: usize,
) -> Result<Vec<u8>, NoMemory>
    requires fits { All (Fits (length file.now) base size) segments.now }
    requires apart { first_overlap segments.now ≡ None }
    ensures exact { IfOk result (λ bytes.
        bytes.items ≡ map (loaded_byte file.now segments.now) (range_with_len base size)) }
    ensures len { IfOk result (λ bytes. length bytes.items ≡ size) }
{
    let mut bytes = vec![in alloc; 0; size]?;
    fill(&mut bytes, base, file, segments);
    Ok(bytes)
}

/// Writes the bytes of the segments that stand in the file into memory of zeros.
fn fill(bytes: &mut [u8], base: u32, file: &[u8], segments: &[ProgramHeader])
    requires zeros { bytes.old ≡ replicate (length bytes.old) 0 }
    requires fits { All (Fits (length file.now) base (length bytes.old)) segments.now }
    requires apart { first_overlap segments.now ≡ None }
    ensures { bytes.new ≡ map (loaded_byte file.now segments.now) (range_with_len base (length bytes.old)) }
{
    for segment in segments {
        fill_segment(bytes, base, file, segment);
    }
}

/// Writes the bytes of a segment that stand in the file.
fn fill_segment(bytes: &mut [u8], base: u32, file: &[u8], segment: &ProgramHeader)
    requires { Fits (length file.now) base (length bytes.old) segment.now }
    ensures { (k : ℕ) → k < length bytes.old →
        slice_index bytes.new k ≡
        (if is_filled (base + k) segment.now
        then file_byte file.now (base + k) segment.now
        else slice_index bytes.old k) }
{
    // The place in the file of no bytes at all may lie anywhere.
    if segment.p_filesz == 0 {
        return;
    }
    let from = (segment.p_vaddr - base) as usize;
    let offset = segment.p_offset as usize;
    let len = segment.p_filesz as usize;
    bytes[from..from + len].copy_from_slice(&file[offset..offset + len]);
}

/// Copies the executable segments from memory.
pub fn load_code(
    alloc: Global,
    bytes: &[u8],
    segments: &[ProgramHeader],
    base: u32,
) -> Result<Code, NoMemory>
    requires { All (IsInside base (length bytes.now)) segments.now }
    ensures { IfOk result (λ code.
        code ≡ map (code_segment base bytes.now) (filter is_executable segments.now)) }
{
    let mut code = Vec::new(alloc);
    for segment in segments {
        if segment.is_executable() {
            let from = (segment.p_vaddr - base) as usize;
            let bytes = &bytes[from..from + segment.p_memsz as usize];
            let copy = Vec::from_slice(alloc, bytes)?;
            code.push(CodeSegment::new(segment.p_vaddr, copy))?;
        }
    }
    Code::new(alloc, code)
}
