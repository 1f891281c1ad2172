//! What is wrong with files, and with words over them.

ghost use Rattle.std.specs.Prelude.{◌≡◌};
ghost use Rattle.lab_tool.specs.Statuses.{status_of_refusal};

use crate::status::Status;
use el_base::{ConfigFault, FileFault, Numbered};
use std::fmt;

/// Why a command is refused, with the name of the file that is wrong. It writes itself as what is wrong, without a
/// newline.
#[derive(Clone, Copy, Debug, PartialEq, Eq)]
pub(crate) enum Refusal<'a> {
    /// The file has more bytes than its limit.
    TooBig { file: &'a str, limit: u32 },
    /// The first fault of an image file.
    Image { file: &'a str, fault: FileFault },
    /// The first fault of a trace.
    Trace { file: &'a str, fault: FileFault },
    /// The first field of the configuration that is out of its range.
    Config { fault: ConfigFault },
    /// The line of this number, from 1 on, lists no event.
    BadLine { file: &'a str, number: usize },
    /// More events are listed than a run may have.
    TooLong { file: &'a str },
    /// A place is over the end of a trace with so many events.
    PlaceOverEnd { file: &'a str, events: usize },
    /// The trace is of so many harts, which are numbered from 0 on, and no hart has this number.
    NoSuchHart { file: &'a str, harts: u8 },
    /// At this place another outcome came than the trace records.
    Differs { file: &'a str, place: usize },
}

impl Refusal<'_> {
    /// How the program ends behind it.
    pub(crate) fn status(self) -> Status
        ensures { result ≡ status_of_refusal self.entry }
    {
        match self {
            Refusal::Differs { .. } => Status::Differs,
            _ => Status::Refused,
        }
    }
}

impl fmt::Display for Refusal<'_> {
    fn fmt<W: fmt::Write>(&self, f: &mut fmt::Formatter<W>) -> fmt::Result {
        match *self {
            Refusal::TooBig { file, limit } => write!(f, "{file}: file too big: limit {limit}"),
            Refusal::Image { file, fault } => {
                let name = elf_image::FaultKind::name_of_number(fault.number).unwrap_or("");
                write_fault(f, file, "image", fault, name)
            }
            Refusal::Trace { file, fault } => {
                let name = trace_file::FaultKind::name_of_number(fault.number).unwrap_or("");
                write_fault(f, file, "trace", fault, name)
            }
            Refusal::Config { fault } => write!(f, "configuration out of range: {fault:?}"),
            Refusal::BadLine { file, number } => {
                write!(
                    f,
                    "{file}: line {number} is no event: write 'step 0', 'order 0', 'serve 0' or 'deliver 0' with a hart that there is"
                )
            }
            Refusal::TooLong { file } => {
                write!(f, "{file}: more events than a run may have, 16777216")
            }
            Refusal::PlaceOverEnd { file, events } => {
                write!(f, "{file}: place over the end: events {events}")
            }
            Refusal::NoSuchHart { file, harts } => {
                write!(f, "{file}: no such hart: harts {harts}")
            }
            Refusal::Differs { file, place } => {
                write!(
                    f,
                    "{file}: at event {place} another outcome came than the trace records: is this its image?"
                )
            }
        }
    }
}

/// Writes the first fault of a file, with its number, its name and its place.
fn write_fault<W: fmt::Write>(
    f: &mut fmt::Formatter<W>,
    file: &str,
    kind: &str,
    fault: FileFault,
    name: &str,
) -> fmt::Result {
    let FileFault { number, place } = fault;
    write!(f, "{file}: {kind} fault {number} {name} at byte {place}")
}
