//! The list of a shelf's failed calls.
ghost use Rattle.std.specs.Prelude.{◌≡◌, ◌<◌, ◌-◌, [], ◌∷◌, ◌++◌, length, take, OnOk, OnErr};

use crate::shelf::Call;
use std::alloc::{AllocError, Global};
use std::marker::Model;

/// A failed call by its kind and the name that it was given.
#[derive(Drop)]
pub(crate) struct FailedCall {
    call: Call,
    name: String,
}

/// The failed calls in order.
#[derive(Drop)]
pub(crate) struct FailureList {
    calls: Vec<FailedCall>,
}

impl Model for FailureList {
    ghost use Rattle.std.specs.Prelude.{List, map};
    ghost use Rattle.el_io.specs.Shelf.{NamedCall};
    ghost use Rattle.el_io.specs.FailureList.{named};

    ghost Value = { List NamedCall };

    ghost view = { λ s. map named s.calls.items };
}

impl FailureList {
    /// The list before the first call. It takes no memory.
    pub(crate) fn new(alloc: Global) -> FailureList
        ensures empty { result ≡ [] }
    {
        FailureList {
            calls: Vec::new(alloc),
        }
    }

    /// Adds a call at the end.
    pub(crate) fn add(&mut self, alloc: Global, call: Call, name: &str) -> Result<(), AllocError>
        ensures added { OnOk result (self.new ≡ self.old ++ (call, name.now) ∷ []) }
        ensures unchanged_after_error { OnErr result (self.new ≡ self.old) }
    {
        let name = String::from_str(alloc, name)?;
        self.calls.push(FailedCall { call, name })?;
        Ok(())
    }

    /// Takes the last call off again.
    pub(crate) fn take_back(&mut self)
        ensures taken_back { self.new ≡ take (length self.old - 1) self.old }
    {
        let _ = self.calls.pop();
    }
}
