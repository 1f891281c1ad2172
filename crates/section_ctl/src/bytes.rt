ghost use Rattle.std.specs.Prelude.{◌≡◌, ◌≤◌, ◌<◌, ◌+◌, ℕ, length, slice_index};
ghost use Rattle.core_step.specs.Port.{byte_of, stored};

use line_lanes::put_word;

/// The bytes of a word, the lowest first.
pub(crate) fn low_bytes(word: u32) -> [u8; 4]
    ensures four { length result ≡ 4 }
    ensures each { (place : ℕ) → place < 4 → slice_index result place ≡ byte_of word place }
{
    word.to_le_bytes()
}

/// A line with a word at a place, the lowest byte first.
#[tactic(auto, using(line_lanes::proofs::Laws::put_divided))]
pub(crate) fn with_word(line: &[u8; 64], place: u8, word: u32) -> [u8; 64]
    requires { place + 4 ≤ 64 }
    ensures { (at : ℕ) → slice_index result at ≡ stored (slice_index line.now) place 4 word at }
{
    let mut shown = *line;
    put_word(&mut shown, place, word);
    shown
}
