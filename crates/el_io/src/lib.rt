//! Devices by what was asked of them: a shelf of named files, and a sink that takes bytes.
//!
//! It stands on `el_base`. Each device counts its own faults, so that a caller can say of an
//! answer that a device failed *only where that device counted a fault in this very call*:
//! a [`Shelf`] keeps the list of its failed calls, and a [`Sink`] a count. What is put and what
//! is written are exact where the device tells its contents.
//!
//! `SureShelf` and `SureSink` are in memory and never fail; `MemShelf` and `MemSink` are in memory
//! and fail where they are told to; `FolderShelf` and `StreamSink` are the edge to real files and
//! streams, whose own behaviour is trusted.
//!
//! Beside them stands [`Gate`], which the drivers of a run on threads pass before each turn, and
//! [`OpenGate`], which keeps none of them.
//!
//! Where a doc comment names no other source, its rule is this project's profile.
#![tactic(auto)]

mod failure_list;
mod failure_plan;
mod files;
mod folder_shelf;
mod gate;
mod mem_shelf;
mod mem_sink;
mod shelf;
mod sink;
mod stream_sink;
mod sure_shelf;
mod sure_sink;

pub use folder_shelf::FolderShelf;
pub use gate::{Gate, OpenGate};
pub use mem_shelf::MemShelf;
pub use mem_sink::MemSink;
pub use shelf::{Call, Shelf, ShelfFault};
pub use sink::{Failed, Sink, put_all};
pub use stream_sink::StreamSink;
pub use sure_shelf::SureShelf;
pub use sure_sink::SureSink;
