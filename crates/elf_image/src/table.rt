//! The table of program headers.

ghost use Rattle.std.specs.Prelude.{◌≡◌, ◌≤◌, ◌+◌, ◌*◌, None, Some, All, IfErr, OnOk, filter, length};
ghost use Rattle.elf_image.specs.Header as header;
ghost use Rattle.elf_image.specs.Layout.{is_segment};
ghost use Rattle.elf_image.specs.Faults as faults;
ghost use Rattle.elf_image.specs.Limits.{file_limit, header_limit};

use crate::fault::FaultKind;
use crate::limits::PROGRAM_HEADER_LIMIT;
use crate::program_header::{PROGRAM_HEADER_LEN, ProgramHeader};
use arrayvec::ArrayVec;
use el_base::{FileFault, FormatFault};

/// Program headers, in the order of their table.
pub type ProgramHeaders = ArrayVec<ProgramHeader, PROGRAM_HEADER_LIMIT>;

/// So many program headers, the first of them at a place of the file.
#[tactic(auto, unfolding(crate::specs::Header::headers_at))]
pub fn headers_at(file: &[u8], place: u32, count: u16) -> ProgramHeaders
    requires within_limit { length file.now ≤ file_limit }
    requires few { count ≤ header_limit }
    requires inside { place + 32 * count ≤ length file.now }
    ensures exact { result.items ≡ header.headers_at file.now place count }
    ensures places { All (λ header. header.place ≤ file_limit) result.items }
{
    let mut headers = ProgramHeaders::new();
    for index in 0..count {
        let at = place + PROGRAM_HEADER_LEN as u32 * index as u32;
        headers.push(ProgramHeader::read(file, at));
    }
    headers
}

/// Judges the headers: none asks for a dynamic linker, and what is loaded lies in a file of `file_len`
/// bytes.
#[tactic(auto, unfolding(crate::specs::Faults::headers_fault))]
pub fn check_headers(headers: &[ProgramHeader], file_len: usize) -> Result<(), FileFault>
    requires { All (λ header. header.place ≤ file_limit) headers.now }
    ensures accepted { OnOk result (faults.headers_fault headers.now file_len ≡ None) }
    ensures refused { IfErr result (λ fault. faults.headers_fault headers.now file_len ≡ Some fault) }
{
    if let Some(place) = first_dynamic(headers) {
        return Err(FaultKind::Dynamic.at(place));
    }
    check_segments(headers, file_len)
}

/// The place of the first header that asks for a dynamic linker.
fn first_dynamic(headers: &[ProgramHeader]) -> Option<u32>
    ensures { result ≡ faults.first_dynamic headers.now }
{
    headers
        .iter()
        .find(|header| header.is_dynamic())
        .map(|header| header.place)
}

/// Judges each header of type PT_LOAD.
fn check_segments(headers: &[ProgramHeader], file_len: usize) -> Result<(), FileFault>
    requires { All (λ header. header.place ≤ file_limit) headers.now }
    ensures accepted { OnOk result (faults.segments_fault headers.now file_len ≡ None) }
    ensures refused { IfErr result (λ fault. faults.segments_fault headers.now file_len ≡ Some fault) }
{
    for header in headers {
        header.check(file_len)?;
    }
    Ok(())
}

/// The headers of the segments: those of type PT_LOAD that have memory.
pub fn segments_of(headers: &[ProgramHeader]) -> ProgramHeaders
    requires { length headers.now ≤ header_limit }
    ensures { result.items ≡ filter is_segment headers.now }
{
    let mut segments = ProgramHeaders::new();
    for header in headers {
        if header.is_segment() {
            segments.push(*header);
        }
    }
    segments
}
