//! Single fields of an outcome, each judged as soon as it is whole.
//!
//! Each function is given the bytes of the file from the field on, and the field's place in the file.

ghost use Rattle.std.specs.Prelude.{◌≡◌, ℕ, ◌+◌, ◌/◌, ◌%◌, ◌^◌, ◌<◌, ◌≤◌, ◌==◌, None, Some, length, slice_index, IfErr, IfOk, OnOk};
ghost use Rattle.byteorder.specs.Endian.{little_number};
ghost use Rattle.el_base.specs.Config.{within};
ghost use Rattle.el_base.specs.HartId.{hart_id};
ghost use Rattle.el_base.specs.LineAddr.{line_addr};
ghost use Rattle.el_base.specs.NibblePairs.{nibble_in};
ghost use Rattle.el_base.specs.Recordable.{most_let_go};
ghost use Rattle.trace_file.specs.Codes.{cause_at, why_at};
ghost use Rattle.trace_file.specs.Faults.{IsShort, field_fault};
ghost use Rattle.trace_file.specs.Fields.{are_nibbles, byte_field, freed_field, is_blocking, is_cause, is_line, losers_field, most_for, number_field};
ghost use Rattle.trace_file.specs.Outcomes.{most_committed};
ghost use Rattle.trace_file.specs.Reading.{freed_in, losers_in};

use crate::codes::{self, why_of};
use crate::fault::FaultKind;
use crate::fields::{expect, is_whole};
use byteorder::{ByteOrder, LittleEndian};
use el_base::{Cause, FileFault, Freed, HartId, LineAddr, Losers, MAX_HARTS, Why};

/// The most instructions that a section commits.
const MAX_COMMITTED: u32 = 65_536;

/// The most instructions that one letting go makes take effect.
const MAX_LET_GO: u8 = 15;

/// The highest number of a line of memory.
const LAST_LINE: u32 = 0x03ff_ffff;

/// The last number of a cause.
const LAST_CAUSE: u8 = 4;

/// The byte of a field of one byte, and the number of one of four.
fn byte_of(bytes: &[u8], place: u32) -> Result<u8, FileFault>
    requires { place + 1 < 2 ^ 32 }
    ensures whole { IfOk result (λ byte. (1 ≤ length bytes.now) × (byte ≡ slice_index bytes.now 0)) }
    ensures refused { IfErr result (IsShort bytes.now 1 place) }
{
    is_whole(bytes, 1, place)?;
    Ok(bytes[0])
}

fn number_of(bytes: &[u8], place: u32) -> Result<u32, FileFault>
    requires { place + 4 < 2 ^ 32 }
    ensures whole { IfOk result (λ number. (4 ≤ length bytes.now) × (number ≡ little_number 4 bytes.now)) }
    ensures refused { IfErr result (IsShort bytes.now 4 place) }
{
    is_whole(bytes, 4, place)?;
    Ok(LittleEndian::read_u32(bytes))
}

#[tactic(auto, unfolding(crate::specs::Faults::field_fault))]
pub fn line_of(bytes: &[u8], place: u32) -> Result<LineAddr, FileFault>
    requires { place + 4 < 2 ^ 32 }
    ensures value { IfOk result (λ line. line ≡ line_addr (little_number 4 bytes.now)) }
    ensures accepted { OnOk result (field_fault place bytes.now (number_field is_line) ≡ None) }
    ensures refused { IfErr result (λ fault. field_fault place bytes.now (number_field is_line) ≡ Some fault) }
{
    let number = number_of(bytes, place)?;
    expect(number <= LAST_LINE, FaultKind::Outcome, place)?;
    Ok(LineAddr { number })
}

#[tactic(auto, unfolding(crate::specs::Faults::field_fault))]
pub fn committed_of(bytes: &[u8], place: u32) -> Result<u32, FileFault>
    requires { place + 4 < 2 ^ 32 }
    ensures value { IfOk result (λ count. count ≡ little_number 4 bytes.now) }
    ensures accepted { OnOk result (field_fault place bytes.now (number_field (within 1 most_committed)) ≡ None) }
    ensures refused { IfErr result (λ fault. field_fault place bytes.now (number_field (within 1 most_committed)) ≡ Some fault) }
{
    let count = number_of(bytes, place)?;
    expect(
        (1..=MAX_COMMITTED).contains(&count),
        FaultKind::Outcome,
        place,
    )?;
    Ok(count)
}

#[tactic(auto, unfolding(crate::specs::Faults::field_fault))]
pub fn let_go_of(bytes: &[u8], place: u32) -> Result<u32, FileFault>
    requires { place + 1 < 2 ^ 32 }
    ensures value { IfOk result (λ count. count ≡ slice_index bytes.now 0) }
    ensures accepted { OnOk result (field_fault place bytes.now (byte_field (within 1 most_let_go)) ≡ None) }
    ensures refused { IfErr result (λ fault. field_fault place bytes.now (byte_field (within 1 most_let_go)) ≡ Some fault) }
{
    let count = byte_of(bytes, place)?;
    expect((1..=MAX_LET_GO).contains(&count), FaultKind::Outcome, place)?;
    Ok(count.into())
}

#[tactic(auto, unfolding(crate::specs::Faults::field_fault))]
pub fn cause_of(bytes: &[u8], place: u32) -> Result<Cause, FileFault>
    requires { place + 1 < 2 ^ 32 }
    ensures value { IfOk result (λ cause. cause ≡ cause_at (slice_index bytes.now 0)) }
    ensures accepted { OnOk result (field_fault place bytes.now (byte_field is_cause) ≡ None) }
    ensures refused { IfErr result (λ fault. field_fault place bytes.now (byte_field is_cause) ≡ Some fault) }
{
    let code = byte_of(bytes, place)?;
    expect(code <= LAST_CAUSE, FaultKind::Outcome, place)?;
    Ok(codes::cause_of(code))
}

/// Why a request was not served, and because of which hart.
#[tactic(auto, unfolding(crate::specs::Faults::field_fault))]
pub fn blocking_of(bytes: &[u8], harts: u8, place: u32) -> Result<(Why, HartId), FileFault>
    requires fits { place + 1 < 2 ^ 32 }
    requires few { harts ≤ 8 }
    ensures why { IfOk result (λ found. found.0 ≡ why_at (slice_index bytes.now 0 / 16)) }
    ensures by { IfOk result (λ found. found.1 ≡ hart_id (slice_index bytes.now 0 % 16)) }
    ensures accepted { OnOk result (field_fault place bytes.now (byte_field (is_blocking harts)) ≡ None) }
    ensures refused { IfErr result (λ fault. field_fault place bytes.now (byte_field (is_blocking harts)) ≡ Some fault) }
{
    let byte = byte_of(bytes, place)?;
    expect(
        byte / 16 <= 2 && byte % 16 < harts,
        FaultKind::Outcome,
        place,
    )?;
    Ok((why_of(byte / 16), HartId { number: byte % 16 }))
}

/// The four bits of a hart.
fn nibble_at(bytes: &[u8], hart: u8) -> u8
    requires few { hart < 8 }
    requires whole { 4 ≤ length bytes.now }
    ensures exact { result ≡ nibble_in bytes.now hart }
    ensures small { result ≤ 15 }
{
    let pair = bytes[(hart / 2) as usize];
    if hart % 2 == 0 { pair % 16 } else { pair / 16 }
}

/// The most that the four bits of a hart may say.
fn most_for(harts: u8, most: u8, hart: u8) -> u8
    ensures { result ≡ most_for harts most hart }
{
    if hart < harts { most } else { 0 }
}

/// Whether each of so many harts has no more than `most`, and each other hart 0.
#[tactic(auto, using(crate::proofs::Nibbles::nibbles_fail, crate::proofs::Nibbles::nibbles_pass))]
fn are_nibbles(bytes: &[u8], harts: u8, most: u8) -> bool
    requires whole { 4 ≤ length bytes.now }
    ensures { result ≡ are_nibbles harts most bytes.now }
{
    for hart in 0..MAX_HARTS {
        if nibble_at(bytes, hart) > most_for(harts, most, hart) {
            return false;
        }
    }
    true
}

/// The losers that four bytes say.
fn losers_in(bytes: &[u8]) -> Losers
    requires whole { 4 ≤ length bytes.now }
    requires harts { (h : ℕ) → h < 8 → nibble_in bytes.now h ≤ 8 }
    ensures { result ≡ losers_in bytes.now }
{
    let mut losers = Losers::none();
    for hart in 0..MAX_HARTS {
        if let Some(winner) = nibble_at(bytes, hart).checked_sub(1) {
            losers = losers.with(HartId { number: hart }, HartId { number: winner });
        }
    }
    losers
}

/// The freed harts that four bytes say.
fn freed_in(bytes: &[u8]) -> Freed
    requires whole { 4 ≤ length bytes.now }
    requires counts { (h : ℕ) → h < 8 → nibble_in bytes.now h ≤ 15 }
    ensures { result ≡ freed_in bytes.now }
{
    let mut freed = Freed::none();
    for hart in 0..MAX_HARTS {
        let count = nibble_at(bytes, hart);
        if count > 0 {
            freed = freed.with(HartId { number: hart }, count);
        }
    }
    freed
}

#[tactic(auto, using(crate::proofs::Nibbles::nibbles_small), unfolding(crate::specs::Faults::field_fault))]
pub fn losers_of(bytes: &[u8], harts: u8, place: u32) -> Result<Losers, FileFault>
    requires fits { place + 4 < 2 ^ 32 }
    requires few { harts ≤ 8 }
    ensures value { IfOk result (λ losers. losers ≡ losers_in bytes.now) }
    ensures whole { OnOk result (4 ≤ length bytes.now) }
    ensures accepted { OnOk result (field_fault place bytes.now (losers_field harts) ≡ None) }
    ensures refused { IfErr result (λ fault. field_fault place bytes.now (losers_field harts) ≡ Some fault) }
{
    is_whole(bytes, 4, place)?;
    expect(are_nibbles(bytes, harts, harts), FaultKind::Outcome, place)?;
    Ok(losers_in(bytes))
}

#[tactic(auto, using(crate::proofs::Nibbles::counts_small), unfolding(crate::specs::Faults::field_fault))]
pub fn freed_of(bytes: &[u8], harts: u8, place: u32) -> Result<Freed, FileFault>
    requires { place + 4 < 2 ^ 32 }
    ensures value { IfOk result (λ freed. freed ≡ freed_in bytes.now) }
    ensures accepted { OnOk result (field_fault place bytes.now (freed_field harts) ≡ None) }
    ensures refused { IfErr result (λ fault. field_fault place bytes.now (freed_field harts) ≡ Some fault) }
{
    is_whole(bytes, 4, place)?;
    expect(
        are_nibbles(bytes, harts, MAX_LET_GO),
        FaultKind::Outcome,
        place,
    )?;
    Ok(freed_in(bytes))
}
