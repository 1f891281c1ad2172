//! What the words mean.

use crate::command::{Command, Layout, Range, RunCommand, Schedule, ShowCommand, Traced};
use crate::fault::WordsFault;
use crate::form::all_commands;
use crate::numbers::read_address;
use clap::ArgMatches;
use el_base::{Config, MAX_STEPS, Mode};
use std::alloc::Global;

/// The command of these words, which are those after the program's name.
pub fn read_words(alloc: Global, words: &[String]) -> Result<Command<'_>, WordsFault> {
    match all_commands(alloc)?.try_get_matches_from(words) {
        Ok(matches) => command_of(alloc, &matches),
        Err(error) => {
            let text = error.to_string(alloc)?;
            Err(WordsFault::of(&error, text))
        }
    }
}

fn command_of<'a>(alloc: Global, matches: &ArgMatches<'a>) -> Result<Command<'a>, WordsFault> {
    let Some((name, given)) = matches.subcommand() else {
        return Err(WordsFault::Usage {
            text: String::from_str(alloc, "error: a command is missing\n")?,
        });
    };
    match name {
        "show" => show_of(alloc, given),
        "state" => Ok(Command::State {
            traced: traced(given),
            place: given.get_one("event").unwrap_or(0),
        }),
        "locks" => Ok(Command::Locks {
            traced: traced(given),
            layout: layout(given),
        }),
        "lines" => Ok(Command::Lines {
            traced: traced(given),
            layout: layout(given),
        }),
        "page" => Ok(Command::Page {
            traced: traced(given),
            file: word(given, "file"),
        }),
        "run" => Ok(Command::Run(run_of(given))),
        _ => Ok(Command::Info {
            trace: word(given, "trace"),
        }),
    }
}

fn show_of<'a>(alloc: Global, given: &ArgMatches<'a>) -> Result<Command<'a>, WordsFault> {
    Ok(Command::Show(ShowCommand {
        traced: traced(given),
        range: Range {
            from: given.get_one("from").unwrap_or(0),
            to: given.get_one("to").unwrap_or(MAX_STEPS),
            hart: given.get_one("hart"),
            at: address(alloc, given)?,
        },
        all: given.get_flag("all"),
        json: given.get_flag("json"),
    }))
}

/// The address that `--at` gives, where it is given.
fn address(alloc: Global, given: &ArgMatches<'_>) -> Result<Option<u32>, WordsFault> {
    let Some(word) = given.get_str("at") else {
        return Ok(None);
    };
    match read_address(word) {
        Some(address) => Ok(Some(address)),
        None => Err(WordsFault::Usage {
            text: format!(in alloc;
                "error: '{word}' is no address: write up to eight hexadecimal digits, as --at 10540\n"
            )?,
        }),
    }
}

fn run_of<'a>(given: &ArgMatches<'a>) -> RunCommand<'a> {
    RunCommand {
        image: word(given, "image"),
        config: config(given),
        schedule: schedule(given),
        trace: given.get_str("trace"),
    }
}

/// The usual configuration, with what is given.
fn config(given: &ArgMatches<'_>) -> Config {
    let usual = Config::usual();
    Config {
        harts: given.get_one("harts").unwrap_or(usual.harts),
        mode: mode(given).unwrap_or(usual.mode),
        sets: given.get_one("sets").unwrap_or(usual.sets),
        ways: given.get_one("ways").unwrap_or(usual.ways),
        lines: given.get_one("lines").unwrap_or(usual.lines),
        long: given.get_one("long").unwrap_or(usual.long),
        steps: given.get_one("steps").unwrap_or(usual.steps),
    }
}

fn mode(given: &ArgMatches<'_>) -> Option<Mode> {
    Mode::with_word(given.get_str("mode")?)
}

/// One of the two schedules is given.
fn schedule<'a>(given: &ArgMatches<'a>) -> Schedule<'a> {
    match given.get_str("order") {
        Some(file) => Schedule::Order { file },
        None => Schedule::Random {
            seed: given.get_one("random").unwrap_or(0),
        },
    }
}

fn traced<'a>(given: &ArgMatches<'a>) -> Traced<'a> {
    Traced {
        image: word(given, "image"),
        trace: word(given, "trace"),
    }
}

fn layout(given: &ArgMatches<'_>) -> Layout {
    if given.get_flag("json") {
        Layout::Json
    } else if given.get_flag("csv") {
        Layout::Csv
    } else {
        Layout::Text
    }
}

/// A required word, which every parse gives.
fn word<'a>(given: &ArgMatches<'a>, name: &str) -> &'a str {
    given.get_str(name).unwrap_or("")
}
