//! `run`: an image by another schedule than the round robin.

ghost use Rattle.std.specs.Prelude.{◌≡◌, ◌<◌, ◌≤◌, All, IfOk, OnOk, [], Some};
ghost use Rattle.std.specs.Option.{option_map};
ghost use Rattle.chronicle.specs.Chronicle.{events};
ghost use Rattle.el_io.specs.Shelf.{Holds, KeepsOthers};
ghost use Rattle.trace_file.specs.Spelling.{outcomes, spelling};
ghost use Rattle.lab_tool.specs.Files.{HoldsNamed, KeepsBut, trace_of_run};
ghost use Rattle.lab_tool.specs.Runs.{GoesBy};
ghost use Rattle.lab_tool.specs.Statuses.{status_after};

use crate::files::{image_of, read_file, symbols_of};
use crate::refusal::Refusal;
use crate::status::Status;
use crate::stop::Stop;
use crate::waiting::put_waits;
use el_base::Event;
use el_io::{Shelf, ShelfFault, Sink, put_all};
use elf_image::IMAGE_FILE_LIMIT;
use elf_symbols::Symbols;
use lab_run::{run_drawn, run_listed};
use lab_words::{RunCommand, Schedule};
use machine::Machine;
use report::write_report;
use schedule::{OrderFault, read_order};
use std::alloc::Global;
use trace_file::write_trace;

/// The most bytes of a file that lists events: some more than the longest list of the plainest lines has.
const ORDER_FILE_LIMIT: u32 = 1 << 28;

/// `run`: makes the events of a schedule, puts the program's output to `out` and the report to `err`, behind it a line
/// for each hart that still runs, and writes the trace.
#[tactic(auto, using(crate::proofs::Keeping::keeps_same, crate::proofs::Keeping::keeps_from))]
pub(crate) fn run<'a, S: Shelf, O: Sink, E: Sink>(
    alloc: Global,
    shelf: &mut S,
    out: &mut O,
    err: &mut E,
    command: RunCommand<'a>,
) -> Result<Status, Stop<'a>>
    ensures { KeepsBut (trace_of_run command.entry) (S.told shelf.old) (S.told shelf.new) }
{
    let config = command.config;
    if let Err(fault) = config.check() {
        return Err(Refusal::Config { fault }.into());
    }
    let file = read_file(alloc, shelf, command.image, IMAGE_FILE_LIMIT)?;
    let listed = listed_events(alloc, shelf, command.schedule, config.harts)?;
    let image = image_of(alloc, &file, config.harts, command.image)?;
    let symbols = symbols_of(alloc, &file, command.image, err)?;
    let mut machine = Machine::make(alloc, image, config)?;
    make_events(&mut machine, command.schedule, &listed);
    put_all(out, machine.output())?;
    write_trace_of(alloc, shelf, &machine, command.trace)?;
    tell_end(alloc, err, &machine, &symbols)
}

/// Makes the events of a schedule: those that are drawn, or as many of the listed ones as steps are left.
fn make_events(machine: &mut Machine, schedule: Schedule<'_>, listed: &[Event])
    requires { All (λ event. event.hart.number < machine.old.config.harts) listed.now }
    ensures { GoesBy schedule.entry listed.now machine.old machine.new }
{
    match schedule {
        Schedule::Random { seed } => run_drawn(machine, seed),
        Schedule::Order { .. } => run_listed(machine, listed),
    }
}

/// Writes the report, and behind it a line for each hart that still runs, and tells how the run ended.
fn tell_end<E: Sink>(
    alloc: Global,
    err: &mut E,
    machine: &Machine,
    symbols: &Symbols,
) -> Result<Status, Stop<'static>>
    ensures { IfOk result (λ status. status ≡ status_after machine.now) }
{
    write_report(err, machine)?;
    if machine.over() {
        return Ok(Status::Done);
    }
    put_waits(alloc, err, machine, symbols)?;
    Ok(Status::StillRuns)
}

/// The events that the file of an order lists, of so many harts; none where they are drawn.
fn listed_events<'a, S: Shelf>(
    alloc: Global,
    shelf: &mut S,
    schedule: Schedule<'a>,
    harts: u8,
) -> Result<Vec<Event>, Stop<'a>>
    requires { harts ≤ 8 }
    ensures harts_exist { IfOk result (λ events. All (λ event. event.hart.number < harts) events.items) }
    ensures files_stay { S.told shelf.new ≡ S.told shelf.old }
{
    match schedule {
        Schedule::Random { .. } => Ok(Vec::new(alloc)),
        Schedule::Order { file } => {
            let text = read_file(alloc, shelf, file, ORDER_FILE_LIMIT)?;
            order_of(alloc, &text, harts, file)
        }
    }
}

/// The events that a text lists, of so many harts.
fn order_of<'a>(
    alloc: Global,
    text: &[u8],
    harts: u8,
    file: &'a str,
) -> Result<Vec<Event>, Stop<'a>>
    requires { harts ≤ 8 }
    ensures { IfOk result (λ events. All (λ event. event.hart.number < harts) events.items) }
{
    match read_order(alloc, text, harts) {
        Ok(events) => Ok(events),
        Err(OrderFault::BadLine { number }) => Err(Refusal::BadLine { file, number }.into()),
        Err(OrderFault::TooLong) => Err(Refusal::TooLong { file }.into()),
        Err(OrderFault::NoMemory) => Err(Stop::NoMemory),
    }
}

/// Writes the trace of a run, where a file is named for it.
#[tactic(auto, using(crate::proofs::Keeping::keeps_same))]
fn write_trace_of<S: Shelf>(
    alloc: Global,
    shelf: &mut S,
    machine: &Machine,
    name: Option<&str>,
) -> Result<(), ShelfFault>
    ensures files_stay { KeepsBut (option_map (λ file. file.now) name.entry) (S.told shelf.old) (S.told shelf.new) }
    ensures written { OnOk result (HoldsNamed (option_map (λ file. file.now) name.entry) (S.told shelf.new)
        (spelling machine.now.config (events machine.now.entries) (Some (outcomes machine.now.entries)))) }
{
    match name {
        Some(name) => write_trace_to(alloc, shelf, machine, name),
        None => Ok(()),
    }
}

/// Writes the trace of a run to a file.
fn write_trace_to<S: Shelf>(
    alloc: Global,
    shelf: &mut S,
    machine: &Machine,
    name: &str,
) -> Result<(), ShelfFault>
    ensures others_stay { KeepsOthers (S.told shelf.old) (S.told shelf.new) name.now }
    ensures written { OnOk result (Holds (S.told shelf.new) name.now
        (spelling machine.now.config (events machine.now.entries) (Some (outcomes machine.now.entries)))) }
{
    write_trace(alloc, shelf, name, &machine.config(), machine.history())
}
