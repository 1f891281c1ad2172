//! Why a command is refused, and the line that it puts to err then.
ghost use Rattle.std.specs.Prelude.{◌≡◌, ◌∷◌, [], unwrap_or};
ghost use Rattle.std.specs.Fmt.{decimal};
ghost use Rattle.el_base.specs.Numbered.{name_by_number};
ghost use Rattle.report.specs.Line.{line};
ghost use Rattle.report.specs.Puts.{Puts};
ghost use Rattle.tool.specs.Messages.{config_line, fault_line, line_of};

use el_base::{ConfigFault, FileFault, FormatFault, Numbered};
use el_io::{Failed, Sink};
use report::{Word, put_line};

const USAGE: &str =
    "usage: elide run IMAGE [options], elide replay IMAGE TRACE, elide gen KIND NUMBER FILE";

/// Why a command is refused.
#[derive(Clone, Copy, Debug, PartialEq, Eq)]
pub(crate) enum Refusal {
    /// The words are no command line.
    Usage,
    /// The first field of the configuration that is out of its range.
    Config(ConfigFault),
    /// A file has more bytes than its limit.
    TooBig { limit: u32 },
    /// The first fault of an image file.
    Image(FileFault),
    /// The first fault of a trace.
    Trace(FileFault),
    /// The first fault of a certificate.
    Certificate(FileFault),
    /// A place is over the end of a trace with so many events.
    PlaceOverEnd { events: u32 },
    /// So many places back are over the start from this place.
    BackOverStart { place: u32 },
    /// A hart that the machine of a trace does not have.
    NoSuchHart,
}

impl Refusal {
    /// Puts the line of a refusal. It takes no memory, so that no refusal ends as out of memory.
    pub(crate) fn put<E: Sink>(self, err: &mut E) -> Result<(), Failed>
        ensures { Puts result
            (record { taken = E.taken err.old; faults = E.faults err.old })
            (record { taken = E.taken err.new; faults = E.faults err.new })
            (line_of self) }
    {
        match self {
            Refusal::Usage => put_text(err, USAGE),
            Refusal::Config(fault) => put_config(err, fault),
            Refusal::TooBig { limit } => put_number(err, "file too big: limit", limit),
            Refusal::Image(fault) => put_fault::<elf_image::FaultKind, E>(err, "image", fault),
            Refusal::Trace(fault) => put_fault::<trace_file::FaultKind, E>(err, "trace", fault),
            Refusal::Certificate(fault) => {
                put_fault::<run_check::FaultKind, E>(err, "certificate", fault)
            }
            Refusal::PlaceOverEnd { events } => {
                put_number(err, "place over the end: events", events)
            }
            Refusal::BackOverStart { place } => {
                put_number(err, "back over the start: place", place)
            }
            Refusal::NoSuchHart => put_text(err, "no such hart"),
        }
    }
}

/// Puts a line of these words.
fn put_text<E: Sink>(err: &mut E, text: &'static str) -> Result<(), Failed>
    ensures { Puts result
        (record { taken = E.taken err.old; faults = E.faults err.old })
        (record { taken = E.taken err.new; faults = E.faults err.new })
        (line text.now []) }
{
    put_line(err, text, &[], &[])
}

/// Puts a line of these words and a number.
fn put_number<E: Sink>(err: &mut E, text: &'static str, number: u32) -> Result<(), Failed>
    ensures { Puts result
        (record { taken = E.taken err.old; faults = E.faults err.old })
        (record { taken = E.taken err.new; faults = E.faults err.new })
        (line text.now (decimal number ∷ [])) }
{
    put_line(err, text, &[Word::Number(number.into())], &[])
}

/// Puts the line of a fault of a configuration.
fn put_config<E: Sink>(err: &mut E, fault: ConfigFault) -> Result<(), Failed>
    ensures { Puts result
        (record { taken = E.taken err.old; faults = E.faults err.old })
        (record { taken = E.taken err.new; faults = E.faults err.new })
        (config_line fault) }
{
    let words = [
        Word::Number(fault.number().into()),
        Word::Text(fault.name()),
    ];
    put_line(err, "config fault", &words, &[])
}

/// Puts the line of a fault of a file, by what the file is, and the fault with its name. Each number that a reader
/// answers with has one.
fn put_fault<F: FormatFault, E: Sink>(
    err: &mut E,
    file: &'static str,
    fault: FileFault,
) -> Result<(), Failed>
    ensures { let name = unwrap_or (name_by_number F.number_of F.name_of F.kinds fault.number) [] in
        Puts result
        (record { taken = E.taken err.old; faults = E.faults err.old })
        (record { taken = E.taken err.new; faults = E.faults err.new })
        (fault_line file.now fault name) }
{
    let words = [
        Word::Text("fault"),
        Word::Number(fault.number.into()),
        Word::Text(F::name_of_number(fault.number).unwrap_or("")),
        Word::Text("at byte"),
        Word::Number(fault.place.into()),
    ];
    put_line(err, file, &words, &[])
}
