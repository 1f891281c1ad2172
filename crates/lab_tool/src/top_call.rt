//! The top call.

ghost use Rattle.std.specs.Prelude.{◌≡◌, ◌⊎◌, IfOk};
ghost use Rattle.lab_tool.specs.Files.{ChangesOneAtMost, KeepsBut, written_by};
ghost use Rattle.lab_tool.specs.Statuses.{status_of_stop};
ghost use Rattle.lab_tool.specs.declared.status.Status.TheVariants as statuses;

use crate::running::run;
use crate::shows::{show_events, show_state};
use crate::status::Status;
use crate::stop::Stop;
use crate::tables::{show_info, show_lines, show_locks, write_page_to};
use el_io::{Failed, Shelf, Sink, put_all};
use lab_words::{Command, read_words};
use std::alloc::Global;

/// Does what the words ask for, over the shelf's files, and puts what there is to say to `out` and `err`. The words are
/// those after the program's name.
///
/// Help and the version go to `out`; a refusal is a line on `err`, behind what a run had put by then. Only `run` writes
/// a trace, and only `page` writes another file.
#[tactic(auto, using(crate::proofs::Keeping::none_changes, crate::proofs::Keeping::one_changes))]
pub fn laboratory<S: Shelf, O: Sink, E: Sink>(
    alloc: Global,
    words: &[String],
    shelf: &mut S,
    out: &mut O,
    err: &mut E,
) -> Status
    ensures { ChangesOneAtMost (S.told shelf.old) (S.told shelf.new) }
{
    match read_words(alloc, words) {
        Ok(command) => perform(alloc, command, shelf, out, err),
        Err(fault) => end_by(alloc, &fault.into(), out, err),
    }
}

/// Does a command, as [`laboratory`] does what words ask for.
///
/// `show`, `state`, `locks`, `lines` and `info` change no file, `page` changes the one that it names, and `run` the one of
/// `--trace`, where it has that.
pub fn perform<S: Shelf, O: Sink, E: Sink>(
    alloc: Global,
    command: Command<'_>,
    shelf: &mut S,
    out: &mut O,
    err: &mut E,
) -> Status
    ensures { KeepsBut (written_by command.entry) (S.told shelf.old) (S.told shelf.new) }
{
    match obey(alloc, command, shelf, out, err) {
        Ok(status) => status,
        Err(stop) => end_by(alloc, &stop, out, err),
    }
}

/// Does a command up to what stops it.
fn obey<'a, S: Shelf, O: Sink, E: Sink>(
    alloc: Global,
    command: Command<'a>,
    shelf: &mut S,
    out: &mut O,
    err: &mut E,
) -> Result<Status, Stop<'a>>
    ensures { KeepsBut (written_by command.entry) (S.told shelf.old) (S.told shelf.new) }
{
    match command {
        Command::Show(command) => show_events(alloc, shelf, out, err, command)?,
        Command::State { traced, place } => show_state(alloc, shelf, out, err, traced, place)?,
        Command::Locks { traced, layout } => show_locks(alloc, shelf, out, err, traced, layout)?,
        Command::Lines { traced, layout } => show_lines(alloc, shelf, out, err, traced, layout)?,
        Command::Page { traced, file } => write_page_to(alloc, shelf, err, traced, file)?,
        Command::Info { trace } => show_info(alloc, shelf, out, trace)?,
        Command::Run(command) => return run(alloc, shelf, out, err, command),
    }
    Ok(Status::Done)
}

/// Says why a command stopped, and tells how the program ends: as the stop has it, unless a sink fails or memory runs out
/// meanwhile.
fn end_by<O: Sink, E: Sink>(alloc: Global, stop: &Stop<'_>, out: &mut O, err: &mut E) -> Status
    ensures { (result ≡ status_of_stop stop.now) ⊎ ((result ≡ statuses.DeviceFault) ⊎ (result ≡ statuses.NoMemory)) }
{
    match tell_stop(alloc, stop, out, err) {
        Ok(status) => status,
        Err(Failed) => Status::DeviceFault,
    }
}

/// Says why a command stopped, and tells how the program ends.
fn tell_stop<O: Sink, E: Sink>(
    alloc: Global,
    stop: &Stop<'_>,
    out: &mut O,
    err: &mut E,
) -> Result<Status, Failed>
    ensures { IfOk result (λ status. (status ≡ status_of_stop stop.now) ⊎ (status ≡ statuses.NoMemory)) }
{
    match stop {
        Stop::Shown { text } => {
            put_all(out, text.as_bytes())?;
            Ok(Status::Done)
        }
        Stop::Usage { text } => {
            put_all(err, text.as_bytes())?;
            Ok(Status::Refused)
        }
        Stop::Refused { refusal } => {
            let Ok(line) = format!(in alloc; "error: {refusal}\n") else {
                return Ok(Status::NoMemory);
            };
            put_all(err, line.as_bytes())?;
            Ok(refusal.status())
        }
        Stop::Device => Ok(Status::DeviceFault),
        Stop::NoMemory => Ok(Status::NoMemory),
    }
}
