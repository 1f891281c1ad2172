use el_base::{Config, MAX_STEPS, Mode};
use lab_words::{
    Command, Layout, Range, RunCommand, Schedule, ShowCommand, Traced, WordsFault, read_words,
};
use std::alloc::{AllocError, Global};
use std::test::Fail;

fn strings(alloc: Global, words: &[&str]) -> Result<Vec<String>, AllocError> {
    words
        .iter()
        .map(|word| String::from_str(alloc, word))
        .try_collect(alloc)
}

const TRACED: Traced = Traced {
    image: "i",
    trace: "t",
};

const EVERY: Range = Range {
    from: 0,
    to: MAX_STEPS,
    hart: None,
    at: None,
};

const SHOW: ShowCommand = ShowCommand {
    traced: TRACED,
    range: EVERY,
    all: false,
    json: false,
};

const USUAL: Config = Config {
    harts: 1,
    mode: Mode::Tlr,
    sets: 16,
    ways: 4,
    lines: 16,
    long: 2_000,
    steps: 4_000_000,
};

const RUN: RunCommand = RunCommand {
    image: "i",
    config: USUAL,
    schedule: Schedule::Random { seed: 7 },
    trace: None,
};

#[test]
fn command_lines_mean_what_they_say(rt: HostRuntime) -> Result<(), Fail> {
    let rows: [(&[&str], Command); 13] = [
        (&["show", "i", "t"], Command::Show(SHOW)),
        (
            &["show", "--all", "i", "--json", "t"],
            Command::Show(ShowCommand {
                all: true,
                json: true,
                ..SHOW
            }),
        ),
        (
            &[
                "show", "i", "t", "--from", "5", "--to=9", "--hart", "7", "--at", "0x10540",
            ],
            Command::Show(ShowCommand {
                range: Range {
                    from: 5,
                    to: 9,
                    hart: Some(7),
                    at: Some(0x1_0540),
                },
                ..SHOW
            }),
        ),
        (
            &["show", "i", "t", "--at", "fffffffc"],
            Command::Show(ShowCommand {
                range: Range {
                    at: Some(0xffff_fffc),
                    ..EVERY
                },
                ..SHOW
            }),
        ),
        (
            &["state", "i", "t", "16777216"],
            Command::State {
                traced: TRACED,
                place: 16_777_216,
            },
        ),
        (
            &["locks", "i", "t"],
            Command::Locks {
                traced: TRACED,
                layout: Layout::Text,
            },
        ),
        (
            &["locks", "i", "t", "--csv"],
            Command::Locks {
                traced: TRACED,
                layout: Layout::Csv,
            },
        ),
        (
            &["lines", "--json", "i", "t"],
            Command::Lines {
                traced: TRACED,
                layout: Layout::Json,
            },
        ),
        (
            &["page", "i", "t", "f"],
            Command::Page {
                traced: TRACED,
                file: "f",
            },
        ),
        (&["info", "t"], Command::Info { trace: "t" }),
        (&["run", "i", "--random", "7"], Command::Run(RUN)),
        (
            &["run", "i", "--order", "o", "--trace", "t"],
            Command::Run(RunCommand {
                schedule: Schedule::Order { file: "o" },
                trace: Some("t"),
                ..RUN
            }),
        ),
        (
            &[
                "run",
                "--mode",
                "sle",
                "--harts",
                "8",
                "--sets",
                "64",
                "--ways",
                "1",
                "--lines",
                "32",
                "--long",
                "65536",
                "--steps",
                "16777216",
                "--random",
                "18446744073709551615",
                "i",
            ],
            Command::Run(RunCommand {
                config: Config {
                    harts: 8,
                    mode: Mode::Sle,
                    sets: 64,
                    ways: 1,
                    lines: 32,
                    long: 65_536,
                    steps: 16_777_216,
                },
                schedule: Schedule::Random { seed: u64::MAX },
                ..RUN
            }),
        ),
    ];
    for (words, command) in rows {
        let words = strings(rt.alloc(), words)?;
        assert_eq!(rt;
            read_words(rt.alloc(), &words).map_err(|_| "refused")?,
            command
        );
    }
    Ok(())
}

/// The first line of what is said of words that are refused.
fn refusal(rt: &HostRuntime, words: &[&str]) -> Result<String, Fail> {
    let words = strings(rt.alloc(), words)?;
    match read_words(rt.alloc(), &words) {
        Err(WordsFault::Usage { text }) => Ok(String::from_str(
            rt.alloc(),
            text.lines().next().unwrap_or(""),
        )?),
        _ => Err("taken".into()),
    }
}

#[test]
fn what_is_wrong_is_told(rt: HostRuntime) -> Result<(), Fail> {
    let rows: [(&[&str], &str); 12] = [
        (
            &["shows", "i", "t"],
            "error: unrecognized subcommand 'shows'",
        ),
        (
            &["show", "i"],
            "error: the following required arguments were not provided:",
        ),
        (
            &["show", "i", "t", "u"],
            "error: unexpected argument 'u' found",
        ),
        (
            &["show", "i", "t", "--hart", "8"],
            "error: invalid value '8' for '--hart <H>': 8 is not in 0..=7",
        ),
        (
            &["show", "i", "t", "--at", "+4"],
            "error: '+4' is no address: write up to eight hexadecimal digits, as --at 10540",
        ),
        (
            &["show", "i", "t", "--at", "100000000"],
            "error: '100000000' is no address: write up to eight hexadecimal digits, as --at 10540",
        ),
        (
            &["state", "i", "t", "x"],
            "error: invalid value 'x' for '<EVENT>': invalid digit found in string",
        ),
        (
            &["locks", "i", "t", "--csv", "--json"],
            "error: the argument '--csv' cannot be used with '--json'",
        ),
        (
            &["run", "i"],
            "error: the following required arguments were not provided:",
        ),
        (
            &["run", "i", "--random", "1", "--order", "o"],
            "error: the argument '--random <SEED>' cannot be used with '--order <FILE>'",
        ),
        (
            &["run", "i", "--random", "1", "--sets", "3"],
            "error: invalid value '3' for '--sets <sets>'",
        ),
        (
            &["run", "i", "--random", "1", "--long", "1"],
            "error: invalid value '1' for '--long <N>': 1 is not in 2..=65536",
        ),
    ];
    for (words, line) in rows {
        assert_eq!(rt; refusal(&rt, words)?.as_str(), line);
    }
    Ok(())
}

#[test]
fn help_and_version_are_shown(rt: HostRuntime) -> Result<(), Fail> {
    for (words, first) in [
        ((&["--version"]).as_slice(), "elide-lab 0.9.0"),
        (
            &["--help"],
            "Shows what happened in a run, to whom, and on which lock",
        ),
        (
            &["run", "--help"],
            "Runs an image by another schedule than the round robin",
        ),
    ] {
        let words = strings(rt.alloc(), words)?;
        match read_words(rt.alloc(), &words) {
            Err(WordsFault::Shown { text }) => assert_eq!(rt; text.lines().next(), Some(first)),
            _ => return Err("not shown".into()),
        }
    }
    Ok(())
}
