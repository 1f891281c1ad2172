ghost use Rattle.std.specs.Prelude.{◌≡◌, ◌<◌};
ghost use Rattle.stamp.specs.Stamps.{less_of, next_clock_of, numbered_stamp};

use el_base::Stamped as Stamp;

/// Whether the first stamp comes before the second: the less clock does, and of equal clocks the less
/// hart.
pub fn less(left: Stamp, right: Stamp) -> bool
    ensures { result ≡ less_of (numbered_stamp left) (numbered_stamp right) }
{
    left.clock < right.clock || left.clock == right.clock && left.hart.number < right.hart.number
}

/// A hart's clock after an attempt has closed, by its clock and the clock that it has seen: one more
/// than the greater.
pub fn next_clock(own: u64, seen: u64) -> u64
    requires own_below_the_last { own < u64.MAX }
    requires seen_below_the_last { seen < u64.MAX }
    ensures { result ≡ next_clock_of own seen }
{
    own.max(seen) + 1
}
