//! `locks`, `lines`, `page` and `info`: what a whole run came to.

ghost use Rattle.std.specs.Prelude.{◌≡◌, ◌<◌, ◌≤◌, ◌+◌, ◌^◌, All, IfOk, [], length};
ghost use Rattle.el_base.specs.declared.config.TheConstants.{MAX_STEPS};
ghost use Rattle.el_io.specs.Shelf.{KeepsOthers};
ghost use Rattle.machine.specs.Story.{left_of};
ghost use Rattle.lab_tool.specs.Runs.{IsFollowed};

use crate::files::{Recorded, read_file, read_recorded, trace_of};
use crate::recorded::check_outcomes;
use crate::stop::Stop;
use crate::waiting::put_waits;
use el_base::{Chronicled, NoMemory};
use el_io::{Shelf, Sink, put_all};
use elf_symbols::Symbols;
use lab::{Fact, Parted, PlainSwap, part_releases, watch};
use lab_page::{Run, write_page};
use lab_tables::{LockKind, LockRow, Row, line_rows, lock_rows, write_info, write_table};
use lab_words::{Layout, Traced};
use machine::Machine;
use std::alloc::Global;
use trace_file::MAX_FILE_BYTES;

/// A run that was followed to the end of its trace.
#[derive(Drop)]
pub(crate) struct Followed {
    pub(crate) machine: Machine,
    pub(crate) sections: Parted,
    pub(crate) swaps: Vec<PlainSwap>,
    pub(crate) facts: Vec<Fact>,
    pub(crate) symbols: Symbols,
}

/// Reads a run, and follows its trace to the end.
fn read_followed<'a, S: Shelf, E: Sink>(
    alloc: Global,
    shelf: &mut S,
    err: &mut E,
    traced: Traced<'a>,
) -> Result<Followed, Stop<'a>>
    ensures few { IfOk result (λ followed.
        length followed.sections.takes.items + length followed.sections.releases.items ≤ MAX_STEPS) }
    ensures files_stay { S.told shelf.new ≡ S.told shelf.old }
{
    let recorded = read_recorded(alloc, shelf, err, traced)?;
    follow_to_end(alloc, recorded, traced.trace)
}

/// Follows a trace to its end.
fn follow_to_end<'a>(alloc: Global, recorded: Recorded, file: &'a str) -> Result<Followed, Stop<'a>>
    requires harts_exist { All (λ event. event.hart.number < recorded.machine.config.harts) recorded.trace.events }
    requires enough_steps { length recorded.trace.events ≤ left_of recorded.machine }
    requires new { recorded.machine.entries ≡ [] }
    ensures few { IfOk result (λ followed.
        length followed.sections.takes.items + length followed.sections.releases.items ≤ MAX_STEPS) }
    ensures followed { IfOk result (IsFollowed recorded) }
{
    let Recorded {
        mut machine,
        trace,
        symbols,
        ..
    } = recorded;
    let watched = watch(alloc, &mut machine, trace.events.as_slice())?;
    check_outcomes(&machine, &trace, file)?;
    let sections = part_releases(alloc, watched.tries.as_slice(), &watched.swaps)?;
    Ok(Followed {
        machine,
        sections,
        swaps: watched.swaps,
        facts: watched.facts,
        symbols,
    })
}

/// The rows of all acquires: of those that take a lock, with the swaps that ran plainly, and of those that give one back.
fn all_lock_rows(alloc: Global, followed: &Followed) -> Result<Vec<LockRow>, NoMemory>
    requires takes { length followed.now.sections.takes.items < 2 ^ 32 }
    requires releases { length followed.now.sections.releases.items < 2 ^ 32 }
{
    let Parted { takes, releases } = &followed.sections;
    let mut rows = lock_rows(alloc, LockKind::Take, takes, &followed.swaps)?;
    rows.append(&mut lock_rows(alloc, LockKind::Release, releases, &[])?)?;
    Ok(rows)
}

/// `locks`: a row for each acquire, and behind a table to be read a line for each hart that still runs.
pub(crate) fn show_locks<'a, S: Shelf, O: Sink, E: Sink>(
    alloc: Global,
    shelf: &mut S,
    out: &mut O,
    err: &mut E,
    traced: Traced<'a>,
    layout: Layout,
) -> Result<(), Stop<'a>>
    ensures { S.told shelf.new ≡ S.told shelf.old }
{
    let followed = read_followed(alloc, shelf, err, traced)?;
    put_locks(alloc, out, &followed, layout)
}

/// Puts the rows of all acquires.
fn put_locks<'a, O: Sink>(
    alloc: Global,
    out: &mut O,
    followed: &Followed,
    layout: Layout,
) -> Result<(), Stop<'a>>
    requires few { length followed.now.sections.takes.items + length followed.now.sections.releases.items ≤ MAX_STEPS }
{
    let rows = all_lock_rows(alloc, followed)?;
    put_rows(alloc, out, &rows, "no acquire\n", &followed.symbols, layout)?;
    if layout == Layout::Text {
        put_waits(alloc, out, &followed.machine, &followed.symbols)?;
    }
    Ok(())
}

/// `lines`: a row for each line of memory.
pub(crate) fn show_lines<'a, S: Shelf, O: Sink, E: Sink>(
    alloc: Global,
    shelf: &mut S,
    out: &mut O,
    err: &mut E,
    traced: Traced<'a>,
    layout: Layout,
) -> Result<(), Stop<'a>>
    ensures { S.told shelf.new ≡ S.told shelf.old }
{
    let followed = read_followed(alloc, shelf, err, traced)?;
    put_lines(alloc, out, &followed, layout)
}

/// Puts the rows of all lines.
fn put_lines<'a, O: Sink>(
    alloc: Global,
    out: &mut O,
    followed: &Followed,
    layout: Layout,
) -> Result<(), Stop<'a>> {
    let rows = line_rows(alloc, &followed.facts)?;
    put_rows(alloc, out, &rows, "no line\n", &followed.symbols, layout)
}

/// Puts rows as a table, and in a table to be read, where there are none, the words that say so.
fn put_rows<'a, R: Row, O: Sink>(
    alloc: Global,
    out: &mut O,
    rows: &[R],
    none: &str,
    symbols: &Symbols,
    layout: Layout,
) -> Result<(), Stop<'a>> {
    let mut text = String::new(alloc);
    if rows.is_empty() && layout == Layout::Text {
        text.push_str(none)?;
    } else {
        write_table(alloc, &mut text, rows, symbols, layout)?;
    }
    put_all(out, text.as_bytes())?;
    Ok(())
}

/// `page`: the run as a picture with its tables, written to a file.
#[tactic(auto, using(crate::proofs::Keeping::others_stay, crate::proofs::Keeping::others_from))]
pub(crate) fn write_page_to<'a, S: Shelf, E: Sink>(
    alloc: Global,
    shelf: &mut S,
    err: &mut E,
    traced: Traced<'a>,
    file: &'a str,
) -> Result<(), Stop<'a>>
    ensures { KeepsOthers (S.told shelf.old) (S.told shelf.new) file.now }
{
    let text = page_of(alloc, shelf, err, traced)?;
    shelf.write(alloc, file, text.as_bytes())?;
    Ok(())
}

/// The page of a run.
fn page_of<'a, S: Shelf, E: Sink>(
    alloc: Global,
    shelf: &mut S,
    err: &mut E,
    traced: Traced<'a>,
) -> Result<String, Stop<'a>>
    ensures { S.told shelf.new ≡ S.told shelf.old }
{
    let followed = read_followed(alloc, shelf, err, traced)?;
    let mut text = String::new(alloc);
    let run = Run {
        title: traced.image,
        config: followed.machine.config(),
        events: followed.machine.history().length(),
        takes: &followed.sections.takes,
        releases: &followed.sections.releases,
        swaps: &followed.swaps,
        facts: &followed.facts,
    };
    write_page(alloc, &mut text, &run, &followed.symbols)?;
    Ok(text)
}

/// `info`: what a trace says of itself.
pub(crate) fn show_info<'a, S: Shelf, O: Sink>(
    alloc: Global,
    shelf: &mut S,
    out: &mut O,
    file: &'a str,
) -> Result<(), Stop<'a>>
    ensures { S.told shelf.new ≡ S.told shelf.old }
{
    let bytes = read_file(alloc, shelf, file, MAX_FILE_BYTES)?;
    let trace = trace_of(alloc, &bytes, file)?;
    let mut text = String::new(alloc);
    write_info(&mut text, &trace)?;
    put_all(out, text.as_bytes())?;
    Ok(())
}
