ghost use Rattle.std.specs.Prelude.{◌≡◌, ◌<◌, ◌≤◌, ◌+◌, ◌↔◌, ℕ, IsTrue, slice_index};
ghost use Rattle.std.specs.Int.{byte_at};
ghost use Rattle.line_lanes.specs.Lanes.{IsMergedFrom, IsPutAt, lane_of};
ghost use Rattle.line_lanes.specs.Merged.{merged_byte};
ghost use Rattle.line_lanes.specs.Words.{put_byte, word_at};

use crate::lanes::merge_lane;

/// Takes the bytes of `over` into the line at each place whose bit is set in the mask.
pub fn merge(line: &mut [u8; 64], over: &[u8; 64], mask: u64)
    ensures { (place : ℕ) → place < 64 → slice_index line.new place ≡ merged_byte line.old over.now mask place }
{
    for lane in 0..8 {
        merge_at(line, over, mask, 8 * lane);
    }
}

/// The little-endian word at a place of the line.
pub fn word_at(line: &[u8; 64], offset: u8) -> u32
    requires { offset ≤ 60 }
    ensures word { result ≡ word_at (slice_index line.now) offset }
    ensures bytes { (place : ℕ) → offset ≤ place → place < offset + 4 → slice_index line.now place < 256 }
{
    let start = usize::from(offset);
    u32::from_le_bytes([
        line[start],
        line[start + 1],
        line[start + 2],
        line[start + 3],
    ])
}

/// Puts a word at a place of the line, the lowest byte first.
pub fn put_word(line: &mut [u8; 64], offset: u8, word: u32)
    requires { offset ≤ 60 }
    ensures { (place : ℕ) → slice_index line.new place ≡ put_byte line.old offset word place }
{
    let start = usize::from(offset);
    let [first, second, third, fourth] = word.to_le_bytes();
    line[start] = first;
    line[start + 1] = second;
    line[start + 2] = third;
    line[start + 3] = fourth;
}

/// The little-endian word at a place of the line, as it is once it is merged.
pub fn merged_word(line: &[u8; 64], over: &[u8; 64], mask: u64, offset: u8) -> u32
    requires { offset ≤ 60 }
    ensures word { result ≡ word_at (merged_byte line.now over.now mask) offset }
    ensures bytes { (place : ℕ) → offset ≤ place → place < offset + 4 → merged_byte line.now over.now mask place < 256 }
{
    word_of(merged_half(line, over, mask, offset))
}

/// Whether two lines have the same bytes, all 64 of them.
pub fn same(left: &[u8; 64], right: &[u8; 64]) -> bool
    ensures { IsTrue result ↔ (left.now ≡ right.now) }
{
    for lane in 0..8 {
        if lane_at(left, 8 * lane) != lane_at(right, 8 * lane) {
            return false;
        }
    }
    true
}

/// Merges the eight bytes at a place.
fn merge_at(line: &mut [u8; 64], over: &[u8; 64], mask: u64, place: usize)
    requires { place + 8 ≤ 64 }
    ensures { IsMergedFrom place line.old line.new over.now mask }
{
    let merged = merged_lane(line, over, mask, place);
    put_lane(line, place, merged);
}

/// The eight merged bytes at a place.
#[tactic(auto, using(crate::proofs::Puts::bit_after))]
fn merged_lane(line: &[u8; 64], over: &[u8; 64], mask: u64, place: usize) -> u64
    requires { place + 8 ≤ 64 }
    ensures { (k : ℕ) → k < 8 → byte_at k result ≡ merged_byte line.now over.now mask (place + k) }
{
    merge_lane(lane_at(line, place), lane_at(over, place), mask >> place)
}

/// The four merged bytes at a place, as the first half of a lane.
fn merged_half(line: &[u8; 64], over: &[u8; 64], mask: u64, offset: u8) -> u64
    requires { offset ≤ 60 }
    ensures { (k : ℕ) → k < 4 → byte_at k result ≡ merged_byte line.now over.now mask (offset + k) }
{
    merge_lane(
        word_at(line, offset).into(),
        word_at(over, offset).into(),
        mask >> offset,
    )
}

/// The first half of a lane as a word.
fn word_of(lane: u64) -> u32
    ensures { (byte : ℕ → ℕ) (place : ℕ) → ((k : ℕ) → k < 4 → byte_at k lane ≡ byte (place + k)) → result ≡ word_at byte place }
{
    let bytes = lane.to_le_bytes();
    u32::from_le_bytes([bytes[0], bytes[1], bytes[2], bytes[3]])
}

/// The eight bytes at a place, the first lowest.
fn lane_at(line: &[u8; 64], place: usize) -> u64
    requires { place + 8 ≤ 64 }
    ensures value { result ≡ lane_of line.now place }
    ensures bytes { (k : ℕ) → k < 8 → byte_at k result ≡ slice_index line.now (place + k) }
{
    u64::from_le_bytes([
        line[place],
        line[place + 1],
        line[place + 2],
        line[place + 3],
        line[place + 4],
        line[place + 5],
        line[place + 6],
        line[place + 7],
    ])
}

/// Puts eight bytes at a place, the lowest first.
fn put_lane(line: &mut [u8; 64], place: usize, lane: u64)
    requires { place + 8 ≤ 64 }
    ensures { IsPutAt place line.old line.new lane }
{
    line[place..place + 8].copy_from_slice(&lane.to_le_bytes());
}
