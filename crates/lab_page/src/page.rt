//! The page.

ghost use Rattle.std.specs.Prelude.{◌<◌, ◌^◌, length};

use crate::escape::put_escaped;
use crate::kinds::Kind;
use crate::picture::{Plan, write_picture};
use crate::rows::put_table;
use crate::style::STYLE;
use el_base::{Config, NoMemory};
use elf_symbols::Symbols;
use lab::{Fact, PlainSwap, Try};
use lab_tables::{LockKind, line_rows, lock_rows};
use std::alloc::Global;

/// What a page tells of.
#[derive(Clone, Copy)]
pub struct Run<'a> {
    /// What it is called.
    pub title: &'a str,
    pub config: Config,
    /// How many events were made.
    pub events: u32,
    /// The sections whose acquires take a lock, and those whose acquires give one back.
    pub takes: &'a [Try],
    pub releases: &'a [Try],
    /// The swaps that ran outside of sections.
    pub swaps: &'a [PlainSwap],
    /// What happened to lines, in the order of the events.
    pub facts: &'a [Fact],
}

/// Writes the page of a run.
pub fn write_page(
    alloc: Global,
    out: &mut String,
    run: &Run,
    symbols: &Symbols,
) -> Result<(), NoMemory>
    requires few_takes { length run.now.takes.now < 2 ^ 32 }
    requires few_releases { length run.now.releases.now < 2 ^ 32 }
{
    let plan = Plan::of(run.takes.len() + run.releases.len(), run.events);
    put_head(out, run)?;
    put_summary(out, run, plan)?;
    put_key(out)?;
    write_picture(alloc, out, run, symbols, plan)?;
    put_locks(alloc, out, run, symbols)?;
    out.push_str("<h2>Lines</h2>\n")?;
    let rows = line_rows(alloc, run.facts)?;
    put_table(alloc, out, &rows, symbols)?;
    out.push_str("</body>\n</html>\n")?;
    Ok(())
}

fn put_head(out: &mut String, run: &Run) -> Result<(), NoMemory> {
    out.push_str("<!DOCTYPE html>\n")?;
    out.push_str("<html xmlns=\"http://www.w3.org/1999/xhtml\" lang=\"en\">\n")?;
    out.push_str("<head><meta charset=\"utf-8\"/><title>")?;
    put_escaped(out, run.title)?;
    out.push_str("</title>\n<style>\n")?;
    out.push_str(STYLE)?;
    out.push_str("</style></head>\n<body>\n<h1>")?;
    put_escaped(out, run.title)?;
    out.push_str("</h1>\n")?;
    Ok(())
}

/// Puts what the run was, and how it is drawn.
fn put_summary(out: &mut String, run: &Run, plan: Plan) -> Result<(), NoMemory> {
    let config = run.config;
    let mode = config.mode.word();
    let harts = config.harts;
    let events = run.events;
    let takes = run.takes.len();
    let releases = run.releases.len();
    write!(out, "<p>mode {mode}, harts {harts}, sets {}, ", config.sets)?;
    writeln!(out, "ways {}; events {events}.</p>", config.ways)?;
    write!(
        out,
        "<p>Sections whose acquire takes a lock: {takes}; gives one back: {releases}. "
    )?;
    if plan.is_together {
        write!(
            out,
            "Sections of one hart that begin within {} pixels are drawn together, ",
            plan.sections.step
        )?;
        out.push_str("in the colour of the most frequent end: point at them for the counts. ")?;
    }
    out.push_str("An arrow goes from the hart that won to the one that lost.</p>\n")?;
    Ok(())
}

/// Puts what each colour stands for.
fn put_key(out: &mut String) -> Result<(), NoMemory> {
    out.push_str("<p class=\"key\">")?;
    for kind in Kind::ALL {
        let class = kind.class();
        let words = kind.words();
        write!(out, "<span><i class=\"{class}\"></i>{words}</span> ")?;
    }
    out.push_str("</p>\n")?;
    Ok(())
}

/// Puts the rows of acquires: of those that take a lock, and of those that give it back.
fn put_locks(alloc: Global, out: &mut String, run: &Run, symbols: &Symbols) -> Result<(), NoMemory>
    requires few_takes { length run.now.takes.now < 2 ^ 32 }
    requires few_releases { length run.now.releases.now < 2 ^ 32 }
{
    out.push_str("<h2>Locks</h2>\n")?;
    let mut rows = lock_rows(alloc, LockKind::Take, run.takes, run.swaps)?;
    let releases = lock_rows(alloc, LockKind::Release, run.releases, &[])?;
    rows.extend_from_slice(&releases)?;
    put_table(alloc, out, &rows, symbols)
}
