use command_line::{
    Command, FindCommand, LookCommand, MAX_TURNS, ReplayCommand, RunCommand, WordsFault, Work,
    read_words,
};
use el_base::{Config, ConfigFault, Mode};
use std::alloc::{AllocError, Global};
use std::test::Fail;

const BARE: RunCommand = RunCommand {
    image: "a",
    mode: None,
    harts: None,
    sets: None,
    ways: None,
    lines: None,
    long: None,
    steps: None,
    threads: None,
    trace: None,
    certificate: None,
    times: false,
};

const BARE_REPLAY: ReplayCommand = ReplayCommand {
    image: "a",
    trace: "t",
    written: None,
    times: false,
};

const TIMED: RunCommand = RunCommand {
    times: true,
    ..BARE
};

const TIMED_REPLAY: ReplayCommand = ReplayCommand {
    times: true,
    ..BARE_REPLAY
};

const WRITTEN: ReplayCommand = ReplayCommand {
    written: Some("u"),
    ..BARE_REPLAY
};

const LOOK: LookCommand = LookCommand {
    image: "a",
    trace: "t",
    place: 20,
    back: 0,
};

const FIND: FindCommand = FindCommand {
    image: "a",
    trace: "t",
    hart: 0,
    pc: 65_644,
};

fn strings(alloc: Global, words: &[&str]) -> Result<Vec<String>, AllocError> {
    words
        .iter()
        .map(|word| String::from_str(alloc, word))
        .try_collect(alloc)
}

/// To run `a` in a mode that is named.
fn in_mode(mode: Mode) -> Command<'static> {
    Command::Run(RunCommand {
        mode: Some(mode),
        ..BARE
    })
}

#[test]
fn command_lines_mean_what_they_say(rt: HostRuntime) -> Result<(), Fail> {
    let rows: [(&[&str], Command); 14] = [
        (&["run", "a"], Command::Run(BARE)),
        (
            &[
                "run",
                "--ways",
                "4294967295",
                "a",
                "--sets",
                "3",
                "--harts=0000000008",
                "--trace",
                "t",
                "--steps",
                "33",
                "--long=2",
                "--mode",
                "sle",
                "--lines",
                "0",
            ],
            Command::Run(RunCommand {
                image: "a",
                mode: Some(Mode::Sle),
                harts: Some(8),
                sets: Some(3),
                ways: Some(4_294_967_295),
                lines: Some(0),
                long: Some(2),
                steps: Some(33),
                trace: Some("t"),
                ..BARE
            }),
        ),
        (&["run", "a", "--mode", "plain"], in_mode(Mode::Plain)),
        (&["run", "--mode=sle", "a"], in_mode(Mode::Sle)),
        (&["run", "a", "--mode=tlr"], in_mode(Mode::Tlr)),
        (
            &[
                "run",
                "a",
                "--threads=16777216",
                "--trace",
                "t",
                "--cert",
                "c",
            ],
            Command::Run(RunCommand {
                threads: Some(16_777_216),
                trace: Some("t"),
                certificate: Some("c"),
                ..BARE
            }),
        ),
        (
            &["check", "a", "c"],
            Command::Check {
                image: "a",
                certificate: "c",
            },
        ),
        (&["replay", "a", "t"], Command::Replay(BARE_REPLAY)),
        (
            &["gen", "counter", "1", "f"],
            Command::Gen {
                kind: Work::Counter,
                number: 1,
                file: "f",
            },
        ),
        (
            &["gen", "bank", "07", "f"],
            Command::Gen {
                kind: Work::Bank,
                number: 7,
                file: "f",
            },
        ),
        (
            &["gen", "--", "overflow", "3", "-f"],
            Command::Gen {
                kind: Work::Overflow,
                number: 3,
                file: "-f",
            },
        ),
        (
            &["gen", "buckets", "4294967295", "f"],
            Command::Gen {
                kind: Work::Buckets,
                number: 4_294_967_295,
                file: "f",
            },
        ),
        (
            &["gen", "locks", "0", "f"],
            Command::Gen {
                kind: Work::Locks,
                number: 0,
                file: "f",
            },
        ),
        (
            &["gen", "pairs", "1", "f"],
            Command::Gen {
                kind: Work::Pairs,
                number: 1,
                file: "f",
            },
        ),
    ];
    for (words, want) in rows {
        let words = strings(rt.alloc(), words)?;
        assert!(rt; read_words(rt.alloc(), &words) == Ok(want), "{words:?}");
    }
    Ok(())
}

/// Words with a flag, or of a replay with options, and what they ask for.
const FLAGS: &[(&[&str], Command)] = &[
    (&["run", "a", "--times"], Command::Run(TIMED)),
    (&["run", "--times", "a"], Command::Run(TIMED)),
    (
        &["run", "--times", "a", "--trace", "t"],
        Command::Run(RunCommand {
            trace: Some("t"),
            ..TIMED
        }),
    ),
    (
        &["run", "--", "--times"],
        Command::Run(RunCommand {
            image: "--times",
            ..BARE
        }),
    ),
    (
        &["replay", "a", "t", "--times"],
        Command::Replay(TIMED_REPLAY),
    ),
    (
        &["replay", "a", "--times", "t"],
        Command::Replay(TIMED_REPLAY),
    ),
    (
        &["replay", "a", "t", "--trace", "u"],
        Command::Replay(WRITTEN),
    ),
    (
        &["replay", "--trace=u", "--times", "a", "t"],
        Command::Replay(ReplayCommand {
            times: true,
            ..WRITTEN
        }),
    ),
    (
        &["replay", "a", "t", "--trace", "t"],
        Command::Replay(ReplayCommand {
            written: Some("t"),
            ..BARE_REPLAY
        }),
    ),
];

#[test]
fn flags_say_that_they_are_given(rt: HostRuntime) -> Result<(), Fail> {
    for (row, want) in FLAGS {
        let words = strings(rt.alloc(), row)?;
        assert!(rt; read_words(rt.alloc(), &words) == Ok(*want), "{words:?}");
    }
    Ok(())
}

/// Words in which a flag, or an option of a replay, is given as it cannot be.
const NO_FLAGS: &[&[&str]] = &[
    &["run", "--times"],
    &["run", "a", "--times=x"],
    &["run", "a", "--times=true"],
    &["run", "a", "--times="],
    &["run", "a", "--times", "true"],
    &["run", "a", "--times", "--times"],
    &["run", "a", "--trace", "--times"],
    &["run", "a", "--", "--times"],
    &["run", "a", "--time"],
    &["run", "a", "--Times"],
    &["run", "a", "-times"],
    &["replay", "a", "--times"],
    &["replay", "a", "t", "--times=x"],
    &["replay", "a", "t", "--times", "--times"],
    &["replay", "a", "--trace", "t"],
    &["replay", "a", "t", "--trace"],
    &["replay", "a", "t", "--trace", "--times"],
    &["replay", "a", "t", "--trace=u", "--trace=u"],
    &["replay", "a", "--recorded", "t"],
    &["replay", "a", "t", "--cert", "c"],
    &["check", "a", "c", "--times"],
    &["gen", "counter", "1", "f", "--times"],
];

#[test]
fn flags_take_no_value_and_come_once(rt: HostRuntime) -> Result<(), Fail> {
    for row in NO_FLAGS {
        let words = strings(rt.alloc(), row)?;
        assert!(rt;
            read_words(rt.alloc(), &words) == Err(WordsFault::Usage),
            "{words:?}"
        );
    }
    Ok(())
}

/// Words that ask for a place of a trace, or for the places of a pc, and what they ask for.
const TIMELINES: &[(&[&str], Command)] = &[
    (&["look", "a", "t", "20"], Command::Look(LOOK)),
    (&["look", "a", "t", "0000000020"], Command::Look(LOOK)),
    (
        &["look", "a", "t", "20", "--back", "0"],
        Command::Look(LOOK),
    ),
    (
        &["look", "a", "t", "37", "--back", "12"],
        Command::Look(LookCommand {
            place: 37,
            back: 12,
            ..LOOK
        }),
    ),
    (
        &["look", "--back=4294967295", "a", "t", "4294967295"],
        Command::Look(LookCommand {
            place: 4_294_967_295,
            back: 4_294_967_295,
            ..LOOK
        }),
    ),
    (
        &["look", "--", "-a", "--back", "1"],
        Command::Look(LookCommand {
            image: "-a",
            trace: "--back",
            place: 1,
            back: 0,
        }),
    ),
    (&["find", "a", "t", "0", "65644"], Command::Find(FIND)),
    (
        &["find", "a", "t", "4294967295", "0"],
        Command::Find(FindCommand {
            hart: 4_294_967_295,
            pc: 0,
            ..FIND
        }),
    ),
];

#[test]
fn places_and_pcs_are_numbers(rt: HostRuntime) -> Result<(), Fail> {
    for (row, want) in TIMELINES {
        let words = strings(rt.alloc(), row)?;
        assert!(rt; read_words(rt.alloc(), &words) == Ok(*want), "{words:?}");
    }
    Ok(())
}

/// Words that ask for neither.
const NO_TIMELINES: &[&[&str]] = &[
    &["look"],
    &["look", "a"],
    &["look", "a", "t"],
    &["look", "a", "t", "x"],
    &["look", "a", "t", ""],
    &["look", "a", "t", "0x14"],
    &["look", "a", "t", "-1"],
    &["look", "a", "t", "+1"],
    &["look", "a", "t", "4294967296"],
    &["look", "a", "t", "00000000020"],
    &["look", "a", "t", "20", "1"],
    &["look", "a", "t", "20", "--back"],
    &["look", "a", "t", "20", "--back", "x"],
    &["look", "a", "t", "20", "--back="],
    &["look", "a", "t", "20", "--back", "-1"],
    &["look", "a", "t", "20", "--back", "4294967296"],
    &["look", "a", "t", "20", "--back", "1", "--back=1"],
    &["look", "a", "t", "--back", "20"],
    &["look", "a", "t", "20", "--times"],
    &["look", "a", "t", "20", "--place", "1"],
    &["Look", "a", "t", "20"],
    &["find"],
    &["find", "a", "t", "0"],
    &["find", "a", "t", "0", "x"],
    &["find", "a", "t", "x", "0"],
    &["find", "a", "t", "0", "0x1006c"],
    &["find", "a", "t", "4294967296", "0"],
    &["find", "a", "t", "0", "4294967296"],
    &["find", "a", "t", "0", "0", "0"],
    &["find", "a", "t", "0", "0", "--back", "1"],
];

#[test]
fn other_places_and_pcs_are_no_command_line(rt: HostRuntime) -> Result<(), Fail> {
    for row in NO_TIMELINES {
        let words = strings(rt.alloc(), row)?;
        assert!(rt;
            read_words(rt.alloc(), &words) == Err(WordsFault::Usage),
            "{words:?}"
        );
    }
    Ok(())
}

#[test]
fn words_that_begin_with_a_dash(rt: HostRuntime) -> Result<(), Fail> {
    let image = |image| { Ok(Command::Run(RunCommand { image, ..BARE })) };
    let trace = |trace| {
        Ok(Command::Run(RunCommand {
            trace: Some(trace),
            ..BARE
        }))
    };
    let refused = Err(WordsFault::Usage);
    let rows: [(&[&str], Result<Command, WordsFault>); 12] = [
        (&["run", "--", "-a"], image("-a")),
        (&["run", "--", "--"], image("--")),
        (&["run", "a", "--"], image("a")),
        (&["run", "a", "--", "--harts", "2"], refused),
        (&["run", "a", "--trace", "--"], refused),
        (&["run", "-"], image("-")),
        (&["run", "a", "--trace", "-"], trace("-")),
        (&["run", "a", "--trace", "-t"], refused),
        (&["run", "a", "--trace=-t"], trace("-t")),
        (&["run", "a", "--trace="], trace("")),
        (&["run", "a", "--harts=1", "--harts", "1"], refused),
        (&["run", "a", "-h"], refused),
    ];
    for (words, want) in rows {
        let words = strings(rt.alloc(), words)?;
        assert!(rt; read_words(rt.alloc(), &words) == want, "{words:?}");
    }
    Ok(())
}

#[test]
fn other_words_are_no_command_line(rt: HostRuntime) -> Result<(), Fail> {
    let rows: [&[&str]; 32] = [
        &[],
        &["walk", "x"],
        &["--harts=2"],
        &["--", "run", "a"],
        &["run"],
        &["run", "a", "b"],
        &["run", "a", "--harts"],
        &["run", "a", "--harts", "x"],
        &["run", "a", "--harts="],
        &["run", "a", "--harts", "+1"],
        &["run", "a", "--steps", "4294967296"],
        &["run", "a", "--steps", "00000000001"],
        &["run", "a", "--threads", "5"],
        &["run", "a", "--threads", "0", "--trace", "t"],
        &["run", "a", "--threads", "16777217", "--trace", "t"],
        &["run", "a", "--cert", "t", "--trace", "t"],
        &["check", "a"],
        &["run", "a", "--mode"],
        &["run", "a", "--mode", "none"],
        &["run", "a", "--mode", "Plain"],
        &["run", "a", "--mode", "tlr "],
        &["run", "a", "--mode="],
        &["run", "a", "--mode", "2"],
        &["run", "a", "--mode", "tlr", "--mode=tlr"],
        &["run", "a", "--lines", "x"],
        &["run", "a", "--long", "4294967296"],
        &["run", "a", "--help"],
        &["replay", "a"],
        &["replay", "a", "t", "--harts=1"],
        &["gen", "counter", "x", "f"],
        &["gen", "nothing", "1", "f"],
        &["gen", "counter", "4294967296", "f"],
    ];
    for row in rows {
        let words = strings(rt.alloc(), row)?;
        assert!(rt;
            read_words(rt.alloc(), &words) == Err(WordsFault::Usage),
            "{words:?}"
        );
    }
    Ok(())
}

#[test]
fn options_make_a_configuration(rt: HostRuntime) {
    let usual = Config {
        harts: 1,
        mode: Mode::Tlr,
        sets: 16,
        ways: 4,
        lines: 16,
        long: 2_000,
        steps: 4_000_000,
    };
    let least = Config {
        harts: 1,
        sets: 1,
        ways: 1,
        lines: 1,
        long: 2,
        steps: 1,
        ..usual
    };
    let most = Config {
        harts: 8,
        sets: 64,
        ways: 8,
        lines: 32,
        long: 65_536,
        steps: 16_777_216,
        ..usual
    };
    let rows = [
        ([None, None, None, None, None, None], Ok(usual)),
        (
            [Some(1), Some(1), Some(1), Some(1), Some(2), Some(1)],
            Ok(least),
        ),
        (
            [
                Some(8),
                Some(64),
                Some(8),
                Some(32),
                Some(65_536),
                Some(16_777_216),
            ],
            Ok(most),
        ),
        (
            [Some(9), Some(3), Some(9), Some(33), Some(1), Some(0)],
            Err(ConfigFault::Harts),
        ),
        (
            [Some(257), None, None, None, None, None],
            Err(ConfigFault::Harts),
        ),
        (
            [None, Some(272), Some(9), Some(0), Some(0), Some(0)],
            Err(ConfigFault::Sets),
        ),
        (
            [None, None, Some(260), Some(0), Some(0), Some(0)],
            Err(ConfigFault::Ways),
        ),
        (
            [None, None, None, Some(0), Some(1), Some(0)],
            Err(ConfigFault::Lines),
        ),
        (
            [None, None, None, Some(33), None, None],
            Err(ConfigFault::Lines),
        ),
        (
            [None, None, None, Some(272), Some(1), None],
            Err(ConfigFault::Lines),
        ),
        (
            [None, None, None, None, Some(1), Some(0)],
            Err(ConfigFault::Long),
        ),
        (
            [None, None, None, None, Some(65_537), None],
            Err(ConfigFault::Long),
        ),
        (
            [None, None, None, None, Some(4_294_967_295), None],
            Err(ConfigFault::Long),
        ),
        (
            [None, None, None, None, None, Some(0)],
            Err(ConfigFault::Steps),
        ),
        (
            [None, None, None, None, None, Some(16_777_217)],
            Err(ConfigFault::Steps),
        ),
    ];
    for ([harts, sets, ways, lines, long, steps], want) in rows {
        let command = RunCommand {
            harts,
            sets,
            ways,
            lines,
            long,
            steps,
            ..BARE
        };
        assert!(rt;
            command.config() == want,
            "{harts:?} {sets:?} {ways:?} {lines:?} {long:?} {steps:?}"
        );
    }
}

#[test]
fn the_mode_is_the_one_that_is_named(rt: HostRuntime) {
    let rows = [
        (None, Mode::Tlr),
        (Some(Mode::Plain), Mode::Plain),
        (Some(Mode::Sle), Mode::Sle),
        (Some(Mode::Tlr), Mode::Tlr),
    ];
    for (mode, want) in rows {
        let config = RunCommand { mode, ..BARE }.config();
        let usual = Config {
            mode: want,
            ..Config::usual()
        };
        assert!(rt; config == Ok(usual), "{mode:?}");
    }
}
