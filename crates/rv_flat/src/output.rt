//! What the program has written.

ghost use Rattle.std.specs.Prelude.{◌≡◌, ◌≤◌, ◌+◌, ◌-◌, ◌++◌, [], IfOk, length, take};
ghost use Rattle.rv_flat.specs.FlatState.{output_limit};

use el_base::NoMemory;
use std::alloc::Global;
use std::marker::Model;

/// The most bytes that a program may write (this project's profile).
const OUTPUT_LIMIT: usize = 16_777_216;

/// The bytes that the program has written, with room for as many as it may write. Contracts see the
/// list of the bytes. `make` takes all memory; the other calls take none.
#[derive(Drop)]
pub struct Output {
    bytes: Vec<u8>,
}

impl Model for Output {
    ghost use Rattle.std.specs.Prelude.{◌≤◌, ℕ, List, length, vec_capacity};
    ghost use Rattle.rv_flat.specs.FlatState.{output_limit};

    ghost Value = { List ℕ };

    ghost view = { λ output. output.bytes.items };

    ghost invariant = { λ output. record {
      within : length output.bytes.items ≤ output_limit;
      reserved : output_limit ≤ vec_capacity output.bytes;
    } };
}

impl Output {
    /// Nothing yet. It takes all memory of the output.
    pub fn make(alloc: Global) -> Result<Output, NoMemory>
        ensures { IfOk result (λ output. output ≡ []) }
    {
        Ok(Output {
            bytes: Vec::with_capacity(alloc, OUTPUT_LIMIT)?,
        })
    }

    /// The bytes.
    pub fn bytes(&self) -> &[u8]
        ensures exact { result.now ≡ self.now }
        ensures within_limit { length self.now ≤ output_limit }
    {
        self.bytes.as_slice()
    }

    /// How many bytes there is room for.
    pub fn room(&self) -> u32
        ensures exact { result ≡ output_limit - length self.now }
    {
        (OUTPUT_LIMIT - self.bytes.len()) as u32
    }

    /// Appends a piece that there is room for.
    pub fn append(&mut self, piece: &[u8])
        requires { length piece.now ≤ output_limit - length self.old }
        ensures { self.new ≡ self.old ++ piece.now }
    {
        self.bytes.extend_from_slice(piece).unwrap();
    }

    /// Drops all bytes but the first ones. Its memory stays.
    pub fn truncate(&mut self, len: usize)
        ensures { self.new ≡ take len self.old }
    {
        self.bytes.truncate(len);
    }
}
