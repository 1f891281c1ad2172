//! What stops a command before it has come to its end.

use crate::refusal::Refusal;
use crate::status::Status;
use el_base::{Kept, NoMemory};
use el_io::{Failed, ShelfFault};
use lab_words::WordsFault;
use machine::{Machine, MakeFault};
use std::alloc::{AllocError, AllocFailed};

/// What stops a command.
#[derive(Debug, Drop)]
pub(crate) enum Stop<'a> {
    /// Help or the version was asked for.
    Shown { text: String },
    /// The words are outside of the grammar; the text says how.
    Usage { text: String },
    /// A file, or what the words ask of it, is refused.
    Refused { refusal: Refusal<'a> },
    /// The shelf or a sink failed.
    Device,
    /// Out of memory.
    NoMemory,
}

impl<'a> From<Refusal<'a>> for Stop<'a> {
    fn from(refusal: Refusal<'a>) -> Stop<'a> {
        Stop::Refused { refusal }
    }
}

impl<'a> From<WordsFault> for Stop<'a> {
    fn from(fault: WordsFault) -> Stop<'a> {
        match fault {
            WordsFault::Shown { text } => Stop::Shown { text },
            WordsFault::Usage { text } => Stop::Usage { text },
            WordsFault::NoMemory => Stop::NoMemory,
        }
    }
}

impl<'a> From<MakeFault> for Stop<'a> {
    fn from(fault: MakeFault) -> Stop<'a> {
        match fault {
            MakeFault::Config { fault } => Refusal::Config { fault }.into(),
            MakeFault::NoMemory => Stop::NoMemory,
        }
    }
}

impl<'a> From<NoMemory> for Stop<'a> {
    fn from(_refused: NoMemory) -> Stop<'a> {
        Stop::NoMemory
    }
}

impl<'a> From<AllocError> for Stop<'a> {
    fn from(_refused: AllocError) -> Stop<'a> {
        Stop::NoMemory
    }
}

impl<'a> From<Failed> for Stop<'a> {
    fn from(_failed: Failed) -> Stop<'a> {
        Stop::Device
    }
}

impl<'a> From<ShelfFault> for Stop<'a> {
    fn from(fault: ShelfFault) -> Stop<'a> {
        match fault {
            // `TooBig` never comes here: a read over its limit is refused, and no write answers it.
            ShelfFault::Failed | ShelfFault::TooBig => Stop::Device,
            ShelfFault::NoMemory => Stop::NoMemory,
        }
    }
}
