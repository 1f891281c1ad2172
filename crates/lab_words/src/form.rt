//! Which words there are: the commands with what each takes, and the help that `clap` makes of it.

use clap::builder::ValueParser;
use clap::{Arg, ArgAction, ArgGroup, Command};
use std::alloc::{AllocError, Global};

/// The version that `--version` tells.
const VERSION: &str = "0.9.0";

const ABOUT: &str = "Shows what happened in a run, to whom, and on which lock";

/// The statuses, which `--help` tells.
const AFTER: &str = "\
Exit status:
  0   what was asked for was put
  2   refused, with a line that says why
  3   after `run`: a hart still runs, and the steps or the order are used up
  4   a file or a stream failed
  5   out of memory
  6   another outcome came than the trace records

Make a trace first: elide run IMAGE --trace FILE, or elide-lab run IMAGE --random 1 --trace FILE";

const MODES: [&str; 3] = ["plain", "sle", "tlr"];

const SETS: [&str; 7] = ["1", "2", "4", "8", "16", "32", "64"];

/// All commands.
pub(crate) fn all_commands<'a>(alloc: Global) -> Result<Command<'a>, AllocError> {
    Command::new(alloc, "elide-lab")
        .bin_name("elide-lab")?
        .no_binary_name(true)
        .version(VERSION)
        .about(ABOUT)
        .after_help(AFTER)
        .subcommand_required(true)
        .arg_required_else_help(true)
        .disable_help_subcommand(true)
        .subcommand(show(alloc)?)?
        .subcommand(state(alloc)?)?
        .subcommand(locks(alloc)?)?
        .subcommand(lines(alloc)?)?
        .subcommand(page(alloc)?)?
        .subcommand(run(alloc)?)?
        .subcommand(info(alloc)?)
}

fn show<'a>(alloc: Global) -> Result<Command<'a>, AllocError> {
    let args = vec![in alloc;
        event(alloc, "from", "The first event [default: 0]"),
        event(
            alloc,
            "to",
            "The last event [default: the last of the trace]"
        ),
        number(alloc, "hart", 0, 7, "The events of this hart alone").value_name("H"),
        at(alloc),
        flag(alloc, "all", "Events that did nothing, too"),
        flag(alloc, "json", "One object of JSON a line"),
    ]?;
    over_a_trace(alloc, "show", "A line for each event that did something")?.args(args)
}

fn state<'a>(alloc: Global) -> Result<Command<'a>, AllocError> {
    let about = "The caches, requests, messages and sections before an event";
    let place = positional(alloc, "event", "EVENT", "The number of the event").value_parser(
        ValueParser::Unsigned(0, 16_777_216),
    );
    over_a_trace(alloc, "state", about)?.arg(place)
}

fn locks<'a>(alloc: Global) -> Result<Command<'a>, AllocError> {
    table(
        alloc,
        "locks",
        "A row for each acquire: what its sections came to, who lost to whom",
    )
}

fn lines<'a>(alloc: Global) -> Result<Command<'a>, AllocError> {
    table(
        alloc,
        "lines",
        "A row for each line: misses, serves, owners, write-backs, losses",
    )
}

fn page<'a>(alloc: Global) -> Result<Command<'a>, AllocError> {
    over_a_trace(
        alloc,
        "page",
        "One HTML file with a picture of the run and its tables",
    )?
    .arg(positional(alloc, "file", "FILE", "The file to be written"))
}

fn info<'a>(alloc: Global) -> Result<Command<'a>, AllocError> {
    let about = "The version, the configuration, the events and the outcomes of a trace";
    Command::new(alloc, "info")
        .about(about)
        .arg(positional(alloc, "trace", "TRACE", "The trace"))
}

fn run<'a>(alloc: Global) -> Result<Command<'a>, AllocError> {
    let schedule = ArgGroup::new(alloc, "schedule")
        .arg("random")?
        .arg("order")?
        .required(true);
    let settings = settings(alloc)?;
    let scheduled = scheduled(alloc)?;
    Command::new(alloc, "run")
        .about("Runs an image by another schedule than the round robin")
        .arg(positional(alloc, "image", "IMAGE", "The image, an ELF file"))?
        .args(settings)?
        .args(scheduled)?
        .group(schedule)
}

/// The options of a configuration.
fn settings<'a>(alloc: Global) -> Result<Vec<Arg<'a>>, AllocError> {
    let mode = "How an acquire is treated [default: tlr]";
    let ways = "Lines in each set, 1 to 8 [default: 4]";
    let lines = "The most lines that a section may write [default: 16]";
    let long = "The most instructions of a section [default: 2000]";
    let steps = "The most events [default: 4000000]";
    Ok(vec![in alloc;
        choice(alloc, "mode", &MODES, mode),
        number(alloc, "harts", 1, 8, "Harts, 1 to 8 [default: 1]"),
        choice(alloc, "sets", &SETS, "Sets in each cache [default: 16]"),
        number(alloc, "ways", 1, 8, ways),
        number(alloc, "lines", 1, 32, lines),
        number(alloc, "long", 2, 65_536, long),
        number(alloc, "steps", 1, 16_777_216, steps),
    ]?)
}

/// The options that say which events are made, and where the trace goes.
fn scheduled<'a>(alloc: Global) -> Result<Vec<Arg<'a>>, AllocError> {
    let random = "Draws the events from this number";
    let order = "Takes the events from this file: lines such as 'step 0'";
    let trace = "Writes the trace to this file";
    Ok(vec![in alloc;
        number(alloc, "random", 0, u64::MAX, random).value_name("SEED"),
        option(alloc, "order", order).value_name("FILE"),
        option(alloc, "trace", trace).value_name("FILE"),
    ]?)
}

/// A command over an image and a trace.
fn over_a_trace<'a>(
    alloc: Global,
    name: &'a str,
    about: &'a str,
) -> Result<Command<'a>, AllocError> {
    Command::new(alloc, name)
        .about(about)
        .arg(positional(alloc, "image", "IMAGE", "The image, an ELF file"))?
        .arg(positional(alloc, "trace", "TRACE", "The trace of a run of it"))
}

/// A command that puts a table.
fn table<'a>(alloc: Global, name: &'a str, about: &'a str) -> Result<Command<'a>, AllocError> {
    over_a_trace(alloc, name, about)?
        .arg(flag(alloc, "json", "One object of JSON a row").conflicts_with("csv")?)?
        .arg(flag(
            alloc,
            "csv",
            "Comma-separated values, behind a row of names",
        ))
}

fn positional<'a>(alloc: Global, id: &'a str, name: &'a str, help: &'a str) -> Arg<'a> {
    Arg::new(alloc, id)
        .required(true)
        .value_name(name)
        .help(help)
        .action(ArgAction::Set)
}

fn option<'a>(alloc: Global, name: &'a str, help: &'a str) -> Arg<'a> {
    Arg::new(alloc, name)
        .long(name)
        .help(help)
        .action(ArgAction::Set)
}

fn number<'a>(alloc: Global, name: &'a str, least: u64, most: u64, help: &'a str) -> Arg<'a> {
    option(alloc, name, help)
        .value_name("N")
        .value_parser(ValueParser::Unsigned(least, most))
}

fn event<'a>(alloc: Global, name: &'a str, help: &'a str) -> Arg<'a> {
    number(alloc, name, 0, 16_777_215, help).value_name("E")
}

fn choice<'a>(alloc: Global, name: &'a str, among: &'a [&'a str], help: &'a str) -> Arg<'a> {
    option(alloc, name, help).value_parser(ValueParser::Names(among))
}

fn at<'a>(alloc: Global) -> Arg<'a> {
    let help = "The events of this address or its line alone, in hexadecimal";
    option(alloc, "at", help).value_name("ADDRESS")
}

fn flag<'a>(alloc: Global, name: &'a str, help: &'a str) -> Arg<'a> {
    Arg::new(alloc, name)
        .long(name)
        .help(help)
        .action(ArgAction::SetTrue)
}
