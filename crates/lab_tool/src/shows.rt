//! `show` and `state`: what events did, and how the machine stands between them.

ghost use Rattle.std.specs.Prelude.{◌≡◌, ◌<◌, ◌≤◌, ◌∷◌, ◌||◌, [], All, IfSome, IsTrue, OnOk, length, take};
ghost use Rattle.lab_text.specs.Items.{is_deed};
ghost use Rattle.machine.specs.Story.{continued, left_of};

use crate::files::{Recorded, read_recorded};
use crate::recorded::check_outcomes;
use crate::refusal::Refusal;
use crate::stop::Stop;
use el_base::Event;
use el_io::{Shelf, Sink, put_all};
use lab::{Shown, show};
use lab_text::{Names, did_something, is_about, write_event, write_event_json, write_state};
use lab_words::{Range, ShowCommand, Traced};
use machine::{Machine, follow};
use std::alloc::Global;
use trace_file::Trace;

/// How many bytes of lines are put at once, or some more.
const PUT_AT: usize = 1 << 16;

/// `show`: a line for each event of a range that did something.
pub(crate) fn show_events<'a, S: Shelf, O: Sink, E: Sink>(
    alloc: Global,
    shelf: &mut S,
    out: &mut O,
    err: &mut E,
    command: ShowCommand<'a>,
) -> Result<(), Stop<'a>>
    ensures { S.told shelf.new ≡ S.told shelf.old }
{
    let mut run = read_recorded(alloc, shelf, err, command.traced)?;
    show_run(alloc, out, &mut run, &command)
}

/// Makes the events of a run that was read, puts the lines that the command asks for, and compares the outcomes.
fn show_run<'a, O: Sink>(
    alloc: Global,
    out: &mut O,
    run: &mut Recorded,
    command: &ShowCommand<'a>,
) -> Result<(), Stop<'a>>
    requires harts_exist { All (λ event. event.hart.number < run.old.machine.config.harts) run.old.trace.events }
    requires enough_steps { length run.old.trace.events ≤ left_of run.old.machine }
    ensures { OnOk result (run.new.machine ≡ continued run.old.machine run.old.trace.events) }
{
    let file = command.traced.trace;
    check_range(&run.trace, command.range, file)?;
    let names = Names {
        symbols: &run.symbols,
        image: &run.image,
    };
    let events = run.trace.events.as_slice();
    put_events(alloc, out, &mut run.machine, events, command, &names)?;
    check_outcomes(&run.machine, &run.trace, file)
}

/// Refuses a range that begins over the end of a trace, or of a hart that it has not.
fn check_range<'a>(trace: &Trace, range: Range, file: &'a str) -> Result<(), Refusal<'a>>
    ensures begins { OnOk result (range.from ≤ length trace.now.events) }
    ensures hart_exists { OnOk result (IfSome range.hart (λ hart. hart < trace.now.config.harts)) }
{
    let events = trace.events.as_slice().len();
    if range.from as usize > events {
        return Err(Refusal::PlaceOverEnd { file, events });
    }
    let harts = trace.config.harts;
    if range.hart.is_some_and(|hart| hart >= harts) {
        return Err(Refusal::NoSuchHart { file, harts });
    }
    Ok(())
}

/// Makes these events, and puts a line for each that the command asks for.
fn put_events<O: Sink>(
    alloc: Global,
    out: &mut O,
    machine: &mut Machine,
    events: &[Event],
    command: &ShowCommand<'_>,
    names: &Names<'_>,
) -> Result<(), Stop<'static>>
    requires harts_exist { All (λ event. event.hart.number < machine.old.config.harts) events.now }
    requires enough_steps { length events.now ≤ left_of machine.old }
    ensures { OnOk result (machine.new ≡ continued machine.old events.now) }
{
    let mut text = String::new(alloc);
    for event in events {
        make(machine, &mut text, *event, command, names)?;
        if text.len() >= PUT_AT {
            put_all(out, text.as_bytes())?;
            text.clear();
        }
    }
    put_all(out, text.as_bytes())?;
    Ok(())
}

/// Makes an event, and writes its line behind others, where the command asks for it.
fn make(
    machine: &mut Machine,
    text: &mut String,
    event: Event,
    command: &ShowCommand<'_>,
    names: &Names<'_>,
) -> Result<(), Stop<'static>>
    requires hart_exists { event.hart.number < machine.old.config.harts }
    requires step_left { 1 ≤ left_of machine.old }
    ensures goes_on { machine.new ≡ continued machine.old (event ∷ []) }
{
    let shown = show(machine, event);
    if is_asked_for(command, &shown) {
        write_one(text, command, &shown, names)?;
    }
    Ok(())
}

/// Whether the command asks for an event.
fn is_asked_for(command: &ShowCommand<'_>, shown: &Shown) -> bool
    ensures within { IsTrue result → (command.now.range.from ≤ shown.now.place) × (shown.now.place ≤ command.now.range.to) }
    ensures hart { IsTrue result → IfSome command.now.range.hart (λ hart. hart ≡ shown.now.event.hart.number) }
    ensures did_something { IsTrue result → IsTrue (command.now.all || is_deed shown.now.outcome) }
{
    let Range { from, to, hart, at } = command.range;
    from <= shown.place
        && shown.place <= to
        && (command.all || did_something(shown))
        && hart.is_none_or(|hart| hart == shown.event.hart.number())
        && at.is_none_or(|address| is_about(shown, address))
}

/// Writes the line of an event behind others.
fn write_one(
    text: &mut String,
    command: &ShowCommand<'_>,
    shown: &Shown,
    names: &Names<'_>,
) -> Result<(), Stop<'static>> {
    if command.json {
        write_event_json(text, shown, names)?;
    } else {
        write_event(text, shown, names)?;
    }
    Ok(())
}

/// `state`: the machine before the event at a place.
pub(crate) fn show_state<'a, S: Shelf, O: Sink, E: Sink>(
    alloc: Global,
    shelf: &mut S,
    out: &mut O,
    err: &mut E,
    traced: Traced<'a>,
    place: u32,
) -> Result<(), Stop<'a>>
    ensures { S.told shelf.new ≡ S.told shelf.old }
{
    let mut run = read_recorded(alloc, shelf, err, traced)?;
    show_place(alloc, out, &mut run, place, traced.trace)
}

/// Makes the events before a place of a run that was read, puts how the machine stands, and compares the outcomes.
fn show_place<'a, O: Sink>(
    alloc: Global,
    out: &mut O,
    run: &mut Recorded,
    place: u32,
    file: &'a str,
) -> Result<(), Stop<'a>>
    requires harts_exist { All (λ event. event.hart.number < run.old.machine.config.harts) run.old.trace.events }
    requires enough_steps { length run.old.trace.events ≤ left_of run.old.machine }
    ensures { OnOk result (run.new.machine ≡ continued run.old.machine (take place run.old.trace.events)) }
{
    go_to(&mut run.machine, run.trace.events.as_slice(), place, file)?;
    let names = Names {
        symbols: &run.symbols,
        image: &run.image,
    };
    let mut text = String::new(alloc);
    write_state(&mut text, &run.machine, &names)?;
    put_all(out, text.as_bytes())?;
    check_outcomes(&run.machine, &run.trace, file)
}

/// Makes the events before a place.
fn go_to<'a>(
    machine: &mut Machine,
    events: &[Event],
    place: u32,
    file: &'a str,
) -> Result<(), Refusal<'a>>
    requires harts_exist { All (λ event. event.hart.number < machine.old.config.harts) events.now }
    requires enough_steps { length events.now ≤ left_of machine.old }
    ensures there { OnOk result (machine.new ≡ continued machine.old (take place events.now)) }
    ensures within { OnOk result (place ≤ length events.now) }
{
    let place = place as usize;
    if place > events.len() {
        let events = events.len();
        return Err(Refusal::PlaceOverEnd { file, events });
    }
    follow(machine, first_of(events, place));
    Ok(())
}

/// The first events of a list, so many of them.
fn first_of(events: &[Event], count: usize) -> &[Event]
    requires { count ≤ length events.now }
    ensures { result.now ≡ take count events.now }
{
    &events[..count]
}
