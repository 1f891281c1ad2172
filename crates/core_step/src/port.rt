ghost use Rattle.std.specs.Prelude.{◌≡◌, ◌%◌, ◌<◌, ◌≤◌, ◌+◌, ℕ};
ghost use Rattle.el_base.specs.Line.{line_number};
ghost use Rattle.el_base.specs.declared.outcomes.Need.{Need};
ghost use Rattle.rv_alu.specs.Footprint.{IsSize};
ghost use Rattle.rv_alu.specs.Loaded.{loaded};
ghost use Rattle.core_step.specs.Port.{MayRead, MayWrite, stored};

use el_base::{LineAddr, Need};

/// A way to memory that gives the words of the lines that it permits to be read or written.
///
/// `byte` is the byte at each address. `permits` tells of a line, by its number, whether it may be
/// touched for a need. `put before after address len value` is what a port of one kind promises of a
/// store of the low `len` bytes of a value, beside what every port does.
pub trait Port {
    ghost use Rattle.std.specs.Prelude.{Bool};

    ghost byte: { Self → ℕ → ℕ };

    ghost permits: { Self → ℕ → Need → Bool };

    ghost put: { Self → Self → ℕ → ℕ → ℕ → Type 0 };

    /// Whether a line may be touched for a need.
    fn ask(&self, line: LineAddr, need: Need) -> bool
        ensures { result ≡ permits self.now line.number need };

    /// The little-endian word at an address that is a multiple of 4, in a line that is permitted for
    /// reading or for writing.
    fn word(&self, address: u32) -> u32
        requires aligned { address % 4 ≡ 0 }
        requires permitted { MayRead (permits self.now) (line_number address) }
        ensures value { result ≡ loaded (byte self.now) address 4 }
        ensures bytes { (at : ℕ) → address ≤ at → at < address + 4 → byte self.now at < 256 };

    /// Stores the low `len` bytes of a value, the lowest first, in a line that is permitted for
    /// writing; `len` is 1, 2 or 4, and the address a multiple of it. All other bytes and every
    /// permission stay.
    fn store(&mut self, address: u32, len: u32, value: u32)
        requires size { IsSize len }
        requires aligned { address % len ≡ 0 }
        requires permitted { MayWrite (permits self.old) (line_number address) }
        ensures put { put self.old self.new address len value }
        ensures bytes { (at : ℕ) → byte self.new at ≡ stored (byte self.old) address len value at }
        ensures permissions { (line : ℕ) (need : Need) → permits self.new line need ≡ permits self.old line need };
}
