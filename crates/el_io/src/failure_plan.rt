//! Which calls of a device in memory fail.
ghost use Rattle.std.specs.Prelude.{◌≡◌, ◌↔◌, IsTrue, IfOk};
ghost use Rattle.el_io.specs.FailurePlan.{Plan, NextFails, after_call};

use std::alloc::{AllocError, Global};
use std::marker::Model;

/// The numbers of the calls that fail, counted from 1, and the count of the calls that were made.
#[derive(Drop)]
pub(crate) struct FailurePlan {
    failing: Vec<u32>,
    calls: u64,
}

impl Model for FailurePlan {
    ghost Value = { Plan };

    ghost view = { λ s. record { failing = s.failing.items; calls = s.calls } };
}

impl FailurePlan {
    /// The plan before the first call.
    pub(crate) fn new(alloc: Global, failing: &[u32]) -> Result<FailurePlan, AllocError>
        ensures fresh { IfOk result (λ plan. plan ≡ record { failing = failing.now; calls = 0 }) }
    {
        Ok(FailurePlan {
            failing: Vec::from_slice(alloc, failing)?,
            calls: 0,
        })
    }

    /// Whether the next call is to fail.
    pub(crate) fn next_fails(&self) -> bool
        ensures exact { IsTrue result ↔ NextFails self.now }
    {
        let number = self.calls.saturating_add(1);
        self.failing
            .iter()
            .any(|failing| u64::from(*failing) == number)
    }

    /// Counts a call.
    pub(crate) fn count_call(&mut self)
        ensures counted { self.new ≡ after_call self.old }
    {
        self.calls = self.calls.saturating_add(1);
    }
}
