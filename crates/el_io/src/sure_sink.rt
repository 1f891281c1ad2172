ghost use Rattle.std.specs.Prelude.{◌≡◌, ◌≤◌, [], length, false, IfOk, vec_capacity};
ghost use Rattle.el_io.specs.SureSink.{SureSinkState, told, after_put};

use crate::sink::{Failed, Sink};
use el_base::NoMemory;
use std::alloc::Global;
use std::marker::Model;

/// A sink in memory that never fails.
///
/// It takes whatever is put and keeps the first bytes, as many as it has room for. Once bytes were
/// put beyond that room, it tells no contents. A put takes no memory.
#[derive(Drop)]
pub struct SureSink {
    kept: Vec<u8>,
    room: usize,
    passed: bool,
}

impl Model for SureSink {
    ghost Value = { SureSinkState };

    ghost view = { λ s. record { kept = s.kept.items; room = s.room; passed = s.passed } };

    ghost invariant = { λ s. (length s.kept.items ≤ s.room) × (s.room ≤ vec_capacity s.kept) };
}

impl SureSink {
    /// A sink that keeps the first `room` bytes. All its memory is taken here.
    pub fn make(alloc: Global, room: usize) -> Result<SureSink, NoMemory>
        ensures empty { IfOk result (λ sink.
            sink ≡ record { kept = []; room = room; passed = false }) }
    {
        Ok(SureSink {
            kept: Vec::with_capacity(alloc, room)?,
            room,
            passed: false,
        })
    }

    /// The bytes that were taken and kept.
    pub fn taken(&self) -> &[u8]
        ensures kept { result.now ≡ self.now.kept }
        ensures within_room { length self.now.kept ≤ self.now.room }
    {
        &self.kept
    }
}

impl Sink for SureSink {
    ghost taken = { told };

    ghost faults = { λ _. 0 };

    #[tactic(auto, using(crate::proofs::Keeping::keep_fitting, crate::proofs::Keeping::pass_left))]
    fn put(&mut self, bytes: &[u8]) -> Result<usize, Failed>
        ensures all_taken { result ≡ Ok (length bytes.now) }
        ensures exact { self.new ≡ after_put self.old bytes.now }
    {
        let left = self.room - self.kept.len();
        let fitting = &bytes[..left.min(bytes.len())];
        self.kept.extend_from_slice(fitting).unwrap();
        self.passed |= left < bytes.len();
        Ok(bytes.len())
    }
}
