//! Where the segments lie in memory. The lines, the stacks and the limits are this project's profile.

ghost use Rattle.std.specs.Prelude.{◌≡◌, ◌≤◌, ◌^◌, None, Some, IfErr, OnOk};
ghost use Rattle.std.specs.List.{list_any};
ghost use Rattle.elf_image.specs.Layout as layout;
ghost use Rattle.elf_image.specs.Faults as faults;

use crate::fault::FaultKind;
use crate::header::{E_ENTRY, E_PHNUM, E_PHOFF};
use crate::limits::{MEMORY_END_LIMIT, MEMORY_LIMIT, STACK_BYTES};
use crate::program_header::ProgramHeader;
use el_base::{FileFault, FormatFault, LINE_BYTES};

/// The bytes of a line of memory. Memory begins and ends on a line.
const LINE: u64 = LINE_BYTES as u64;

/// Where memory lies: the address of its first byte and the address behind its last.
#[derive(Clone, Copy, Debug, PartialEq, Eq)]
pub struct Layout {
    pub base: u64,
    pub end: u64,
}

impl Layout {
    /// Memory of these segments, which ends with a stack for each hart.
    #[tactic(auto, unfolding(crate::specs::Layout::memory_base, crate::specs::Layout::memory_end))]
    pub fn of(segments: &[ProgramHeader], harts: u8) -> Layout
        ensures exact { result ≡ layout.layout_of segments.now harts }
    {
        let top = (highest(segments) + (LINE - 1)) / LINE * LINE;
        Layout {
            base: lowest(segments) / LINE * LINE,
            end: top + STACK_BYTES as u64 * harts as u64,
        }
    }

    /// How many bytes memory has.
    pub fn size(&self) -> u64
        ensures { result ≡ layout.size_of self.now }
    {
        self.end.saturating_sub(self.base)
    }
}

/// The least address of a segment.
fn lowest(segments: &[ProgramHeader]) -> u64
    ensures exact { result ≡ layout.lowest segments.now }
    ensures bound { result ≤ 2 ^ 32 }
{
    let mut low = 1 << 32;
    for segment in segments {
        low = low.min(segment.p_vaddr as u64);
    }
    low
}

/// The greatest end of a segment.
fn highest(segments: &[ProgramHeader]) -> u64
    ensures exact { result ≡ layout.highest segments.now }
    ensures bound { result ≤ 2 ^ 33 }
{
    let mut high = 0;
    for segment in segments {
        high = high.max(segment.end());
    }
    high
}

/// Judges the segments in memory: they are apart, memory with the stacks is not too large and does not
/// end too high, and the entry is an instruction's.
#[tactic(auto, unfolding(crate::specs::Faults::memory_fault))]
pub fn check_memory(segments: &[ProgramHeader], layout: Layout, entry: u32) -> Result<(), FileFault>
    ensures accepted { OnOk result (faults.memory_fault segments.now layout entry ≡ None) }
    ensures refused { IfErr result (λ fault. faults.memory_fault segments.now layout entry ≡ Some fault) }
{
    check_overlap(segments)?;
    if segments.is_empty() {
        return Err(FaultKind::Empty.at(E_PHNUM));
    }
    if layout.size() > MEMORY_LIMIT as u64 {
        return Err(FaultKind::TooWide.at(E_PHOFF));
    }
    if layout.end > MEMORY_END_LIMIT as u64 {
        return Err(FaultKind::TooHigh.at(E_PHOFF));
    }
    if !is_entry(segments, entry) {
        return Err(FaultKind::Entry.at(E_ENTRY));
    }
    Ok(())
}

/// Judges whether no two segments share a byte.
fn check_overlap(segments: &[ProgramHeader]) -> Result<(), FileFault>
    ensures accepted { OnOk result (faults.overlap_fault segments.now ≡ None) }
    ensures refused { IfErr result (λ fault. faults.overlap_fault segments.now ≡ Some fault) }
{
    for (i, segment) in segments.iter().enumerate() {
        if shares_byte(segment, &segments[..i]) {
            return Err(FaultKind::Overlap.at(segment.place));
        }
    }
    Ok(())
}

/// Whether a segment shares a byte with one of others.
fn shares_byte(segment: &ProgramHeader, others: &[ProgramHeader]) -> bool
    ensures { result ≡ list_any (layout.shares_byte segment.now) others.now }
{
    others.iter().any(|other| segment.shares_byte(other))
}

/// Whether an address is that of a whole instruction of one executable segment.
fn is_entry(segments: &[ProgramHeader], entry: u32) -> bool
    ensures { result ≡ faults.is_entry segments.now entry }
{
    entry % 4 == 0 && has_instruction(segments, entry)
}

/// Whether one executable segment has the four bytes at an address.
fn has_instruction(segments: &[ProgramHeader], address: u32) -> bool
    ensures { result ≡ list_any (layout.has_instruction address) segments.now }
{
    segments
        .iter()
        .any(|segment| segment.has_instruction(address))
}
