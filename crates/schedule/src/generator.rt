//! The numbers that a random schedule is drawn from.

ghost use Rattle.std.specs.Prelude.{◌≡◌};
ghost use Rattle.schedule.specs.Generator as generator;

/// How far the state of the generator moves for each number.
const GOLDEN: u64 = 0x9e37_79b9_7f4a_7c15;

const FIRST_FACTOR: u64 = 0xbf58_476d_1ce4_e5b9;

const SECOND_FACTOR: u64 = 0x94d0_49bb_1331_11eb;

/// The number at a place of the sequence that a seed begins: SplitMix64 (G. L. Steele, D. Lea and C. H. Flood, 'Fast
/// Splittable Pseudorandom Number Generators', OOPSLA 2014), with the seed as its first state.
#[tactic(auto, unfolding(crate::specs::Generator::draw))]
pub fn draw(seed: u64, place: u32) -> u64
    ensures { result ≡ generator.draw seed place }
{
    let state = seed.wrapping_add(GOLDEN.wrapping_mul(u64::from(place) + 1));
    let first = (state ^ (state >> 30)).wrapping_mul(FIRST_FACTOR);
    let second = (first ^ (first >> 27)).wrapping_mul(SECOND_FACTOR);
    second ^ (second >> 31)
}
