//! The files that a command reads.

ghost use Rattle.std.specs.Prelude.{◌≡◌, ◌<◌, ◌≤◌, [], All, IfOk, length};
ghost use Rattle.el_base.specs.Config.{IsInRange};
ghost use Rattle.el_io.specs.Shelf.{Holds};
ghost use Rattle.elf_image.specs.Limits.{file_limit};
ghost use Rattle.elf_image.specs.Loaded.{program_of};
ghost use Rattle.machine.specs.Story.{left_of};
ghost use Rattle.trace_file.specs.Spelling.{IsTrace, listed, spelling};
ghost use Rattle.lab_tool.specs.Runs.{AreNamed, AreOfFiles};

use crate::refusal::Refusal;
use crate::stop::Stop;
use el_base::FileFault;
use el_io::{Shelf, ShelfFault, Sink, put_all};
use elf_image::{IMAGE_FILE_LIMIT, Image, ImageFault, load};
use elf_symbols::{Symbols, SymbolsFault, read_symbols};
use lab_words::Traced;
use machine::Machine;
use std::alloc::Global;
use trace_file::{MAX_FILE_BYTES, Trace, TraceFault, read_trace};

/// A machine before its first event, with the trace of a run of it, and its image with symbols.
#[derive(Drop)]
pub(crate) struct Recorded {
    pub(crate) machine: Machine,
    pub(crate) trace: Trace,
    pub(crate) image: Image,
    pub(crate) symbols: Symbols,
}

/// An image file and a trace.
#[derive(Drop)]
struct Read {
    image: Vec<u8>,
    trace: Vec<u8>,
}

/// Reads the image and the trace that a command names. Of a broken symbol table it puts a line to err.
pub(crate) fn read_recorded<'a, S: Shelf, E: Sink>(
    alloc: Global,
    shelf: &mut S,
    err: &mut E,
    traced: Traced<'a>,
) -> Result<Recorded, Stop<'a>>
    ensures harts_exist { IfOk result (λ run. All (λ event. event.hart.number < run.machine.config.harts) run.trace.events) }
    ensures enough_steps { IfOk result (λ run. length run.trace.events ≤ left_of run.machine) }
    ensures new { IfOk result (λ run. run.machine.entries ≡ []) }
    ensures files_stay { S.told shelf.new ≡ S.told shelf.old }
    ensures named { IfOk result (AreNamed (S.told shelf.old) traced.entry) }
{
    let read = read_both(alloc, shelf, traced)?;
    recorded_of(alloc, &read, err, traced)
}

/// Reads the two files.
fn read_both<'a, S: Shelf>(
    alloc: Global,
    shelf: &mut S,
    traced: Traced<'a>,
) -> Result<Read, Stop<'a>>
    ensures files_stay { S.told shelf.new ≡ S.told shelf.old }
    ensures image { IfOk result (λ read. Holds (S.told shelf.old) traced.entry.image.now read.image.items) }
    ensures trace { IfOk result (λ read. Holds (S.told shelf.old) traced.entry.trace.now read.trace.items) }
    ensures within_limit { IfOk result (λ read. length read.image.items ≤ file_limit) }
{
    let image = read_file(alloc, shelf, traced.image, IMAGE_FILE_LIMIT)?;
    let trace = read_file(alloc, shelf, traced.trace, MAX_FILE_BYTES)?;
    Ok(Read { image, trace })
}

/// What two files come to: the trace is judged first, and then the image for the harts of the trace.
fn recorded_of<'a, E: Sink>(
    alloc: Global,
    read: &Read,
    err: &mut E,
    traced: Traced<'a>,
) -> Result<Recorded, Stop<'a>>
    requires within_limit { length read.now.image.items ≤ file_limit }
    ensures are { IfOk result (AreOfFiles read.now.image.items read.now.trace.items) }
    ensures harts_exist { IfOk result (λ run. All (λ event. event.hart.number < run.machine.config.harts) run.trace.events) }
    ensures enough_steps { IfOk result (λ run. length run.trace.events ≤ left_of run.machine) }
    ensures new { IfOk result (λ run. run.machine.entries ≡ []) }
{
    let trace = trace_of(alloc, &read.trace, traced.trace)?;
    let image = image_of(alloc, &read.image, trace.config.harts, traced.image)?;
    let symbols = symbols_of(alloc, &read.image, traced.image, err)?;
    let machine = Machine::make(alloc, image.copy(alloc)?, trace.config)?;
    Ok(Recorded {
        machine,
        trace,
        image,
        symbols,
    })
}

/// The bytes of a file of at most `limit` bytes.
pub(crate) fn read_file<'a, S: Shelf>(
    alloc: Global,
    shelf: &mut S,
    file: &'a str,
    limit: u32,
) -> Result<Vec<u8>, Stop<'a>>
    ensures files_stay { S.told shelf.new ≡ S.told shelf.old }
    ensures given { IfOk result (λ bytes. Holds (S.told shelf.old) file.now bytes.items) }
    ensures within_limit { IfOk result (λ bytes. length bytes.items ≤ limit) }
{
    match shelf.read(alloc, file, limit) {
        Ok(bytes) => Ok(bytes),
        Err(ShelfFault::TooBig) => Err(Refusal::TooBig { file, limit }.into()),
        Err(fault) => Err(fault.into()),
    }
}

/// The trace that these bytes of a file spell.
pub(crate) fn trace_of<'a>(alloc: Global, bytes: &[u8], file: &'a str) -> Result<Trace, Stop<'a>>
    ensures is_trace { IfOk result (λ trace. IsTrace trace.config trace.events (listed trace.recorded)) }
    ensures spelled { IfOk result (λ trace. bytes.now ≡ spelling trace.config trace.events (listed trace.recorded)) }
    ensures in_range { IfOk result (λ trace. IsInRange trace.config) }
    ensures few { IfOk result (λ trace. length trace.events ≤ trace.config.steps) }
    ensures harts_exist { IfOk result (λ trace. All (λ event. event.hart.number < trace.config.harts) trace.events) }
{
    match read_trace(alloc, bytes) {
        Ok(trace) => Ok(trace),
        Err(TraceFault::Bad { number, place }) => {
            let fault = FileFault { number, place };
            Err(Refusal::Trace { file, fault }.into())
        }
        Err(TraceFault::NoMemory) => Err(Stop::NoMemory),
    }
}

/// The image that these bytes of a file are, for so many harts.
#[tactic(auto, using(elf_image::proofs::Laws::Loading::loaded_harts))]
pub(crate) fn image_of<'a>(
    alloc: Global,
    bytes: &[u8],
    harts: u8,
    file: &'a str,
) -> Result<Image, Stop<'a>>
    requires harts_in_range { (1 ≤ harts) × (harts ≤ 8) }
    requires within_limit { length bytes.now ≤ file_limit }
    ensures exact { IfOk result (λ image. image ≡ program_of bytes.now harts) }
    ensures one_hart_each { IfOk result (λ image. image.harts ≡ harts) }
{
    match load(alloc, bytes, harts) {
        Ok(image) => Ok(image),
        Err(ImageFault::Bad { number, place }) => {
            let fault = FileFault { number, place };
            Err(Refusal::Image { file, fault }.into())
        }
        Err(ImageFault::NoMemory) => Err(Stop::NoMemory),
    }
}

/// The symbols of an image. Where its table is broken there are none, and a line to err says so.
pub(crate) fn symbols_of<'a, E: Sink>(
    alloc: Global,
    bytes: &[u8],
    file: &'a str,
    err: &mut E,
) -> Result<Symbols, Stop<'a>> {
    match read_symbols(alloc, bytes) {
        Ok(symbols) => Ok(symbols),
        Err(SymbolsFault::Broken) => {
            let line = format!(in alloc;
                "warning: {file}: its symbol table is broken: addresses stand without names\n"
            )?;
            put_all(err, line.as_bytes())?;
            Ok(Symbols::none(alloc))
        }
        Err(SymbolsFault::NoMemory) => Err(Stop::NoMemory),
    }
}
