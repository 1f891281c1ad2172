use std::alloc::AllocError;
use thiserror::Error;

/// Where a machine and a run differ, or why they were not compared.
#[derive(Debug, Drop, Error)]
pub enum Difference {
    /// The text is no run.
    #[error("this is no run")]
    Form,
    /// No machine was made of its program.
    #[error("no machine was made of it")]
    NoMachine,
    /// Something else came of the event at this place, counted from 0.
    #[error("event {place} differs")]
    Event { place: usize },
    /// Another event than the told one is the first that is progress, before the event at this place.
    #[error("another event is ready before event {place}")]
    Ready { place: usize },
    /// The hart of this number differs after the last event.
    #[error("hart {number} differs at the end")]
    Hart { number: usize },
    /// The byte at this address differs after the last event.
    #[error("the byte at {address} differs at the end")]
    Byte { address: u32 },
    #[error("no memory")]
    NoMemory,
}

impl From<AllocError> for Difference {
    fn from(_refused: AllocError) -> Difference {
        Difference::NoMemory
    }
}
