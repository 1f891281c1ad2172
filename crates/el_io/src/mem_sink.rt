ghost use Rattle.std.specs.Prelude.{◌≡◌, ◌<◌, ◌≤◌, [], length, take, Some, IfOk, OnErr, vec_capacity};
ghost use Rattle.el_io.specs.MemSink.{MemSinkState, Fails, part, after_fault, after_taking};

use crate::failure_plan::FailurePlan;
use crate::sink::{Failed, Sink};
use el_base::NoMemory;
use std::alloc::Global;
use std::marker::Model;

/// A sink in memory that fails at the calls whose numbers it was given, counted from 1, and where
/// it finds no room. A put takes no memory.
#[derive(Drop)]
pub struct MemSink {
    taken: Vec<u8>,
    room: usize,
    piece: usize,
    plan: FailurePlan,
    faults: u64,
}

impl Model for MemSink {
    ghost Value = { MemSinkState };

    ghost view = { λ s. record {
      taken = s.taken.items;
      room = s.room;
      piece = s.piece;
      plan = s.plan;
      faults = s.faults;
    } };

    ghost invariant = { λ s.
        (length s.taken.items ≤ s.room) × (s.room ≤ vec_capacity s.taken) × (0 < s.piece) };
}

impl MemSink {
    /// A sink with room for `room` bytes, which takes at most `piece` bytes in one put, at least 1,
    /// and fails at the calls whose numbers are listed. All its memory is taken here.
    pub fn make(
        alloc: Global,
        room: usize,
        piece: usize,
        failing: &[u32],
    ) -> Result<MemSink, NoMemory>
        requires piece_takes_a_byte { 0 < piece }
        ensures untouched { IfOk result (λ sink. sink ≡ record {
          taken = [];
          room = room;
          piece = piece;
          plan = record { failing = failing.now; calls = 0 };
          faults = 0;
        }) }
    {
        Ok(MemSink {
            taken: Vec::with_capacity(alloc, room)?,
            room,
            piece,
            plan: FailurePlan::new(alloc, failing)?,
            faults: 0,
        })
    }

    /// The bytes that were taken.
    pub fn taken(&self) -> &[u8]
        ensures exact { result.now ≡ self.now.taken }
    {
        &self.taken
    }
}

impl Sink for MemSink {
    ghost taken = { λ sink. Some sink.taken };

    ghost faults = { λ sink. sink.faults };

    fn put(&mut self, bytes: &[u8]) -> Result<usize, Failed>
        ensures some_taken { IfOk result (λ count. (count ≡ part self.old (length bytes.now))
            × (self.new ≡ after_taking self.old (take count bytes.now))) }
        ensures goes_on { IfOk result (λ count. 0 < length bytes.now → 0 < count) }
        ensures ok_where_it_does_not_fail { IfOk result (λ _. ¬ Fails self.old bytes.now) }
        ensures nothing_after_failed { OnErr result (self.new ≡ after_fault self.old) }
        ensures failed_where_it_fails { OnErr result (Fails self.old bytes.now) }
        ensures count_never_falls { self.old.faults ≤ self.new.faults }
    {
        let fails = self.plan.next_fails();
        self.plan.count_call();
        let left = self.room - self.taken.len();
        if fails || (left == 0 && !bytes.is_empty()) {
            self.faults = self.faults.saturating_add(1);
            return Err(Failed);
        }
        let count = bytes.len().min(self.piece.min(left));
        self.taken.extend_from_slice(&bytes[..count]).unwrap();
        Ok(count)
    }
}
