//! What a trace says of itself.

ghost use Rattle.std.specs.Prelude.{◌≡◌, count_by};
ghost use Rattle.lab_tables.specs.Info.{came_as, is_came};

use el_base::{NoMemory, Outcome};
use trace_file::Trace;

/// What an outcome is, whatever it tells beside that.
#[derive(Clone, Copy, PartialEq, Eq)]
enum Came {
    Idle,
    Stalled,
    Missed,
    Ran,
    Armed,
    LetGo,
    Began,
    Buffered,
    Committed,
    RolledBack,
    Ordered,
    Served,
    Blocked,
    Delivered,
}

/// All of them, in the order in which they are told.
const ALL_CAME: [Came; 14] = [
    Came::Idle,
    Came::Stalled,
    Came::Missed,
    Came::Ran,
    Came::Armed,
    Came::LetGo,
    Came::Began,
    Came::Buffered,
    Came::Committed,
    Came::RolledBack,
    Came::Ordered,
    Came::Served,
    Came::Blocked,
    Came::Delivered,
];

impl Came {
    fn of(outcome: Outcome) -> Came
        ensures { result ≡ came_as outcome }
    {
        match outcome {
            Outcome::Idle => Came::Idle,
            Outcome::Stalled => Came::Stalled,
            Outcome::Missed { .. } => Came::Missed,
            Outcome::Ran => Came::Ran,
            Outcome::Armed => Came::Armed,
            Outcome::LetGo { .. } => Came::LetGo,
            Outcome::Began => Came::Began,
            Outcome::Buffered => Came::Buffered,
            Outcome::Committed { .. } => Came::Committed,
            Outcome::RolledBack { .. } => Came::RolledBack,
            Outcome::Ordered { .. } => Came::Ordered,
            Outcome::Served { .. } => Came::Served,
            Outcome::Blocked { .. } => Came::Blocked,
            Outcome::Delivered { .. } => Came::Delivered,
        }
    }

    fn word(self) -> &'static str {
        match self {
            Came::Idle => "idle",
            Came::Stalled => "stalled",
            Came::Missed => "missed",
            Came::Ran => "ran",
            Came::Armed => "armed",
            Came::LetGo => "let go",
            Came::Began => "began",
            Came::Buffered => "buffered",
            Came::Committed => "committed",
            Came::RolledBack => "rolled back",
            Came::Ordered => "ordered",
            Came::Served => "served",
            Came::Blocked => "blocked",
            Came::Delivered => "delivered",
        }
    }
}

/// Writes what a trace says of itself, a line each: its version, its configuration in the words of a command line, how
/// many events it has, and how often each outcome came, where it records them.
pub fn write_info(out: &mut String, trace: &Trace) -> Result<(), NoMemory> {
    let config = trace.config;
    let version = if trace.recorded.is_some() { 2 } else { 1 };
    let mode = config.mode.word();
    let events = trace.events.as_slice().len();
    writeln!(out, "version {version}")?;
    writeln!(out, "mode {mode}")?;
    writeln!(out, "harts {}", config.harts)?;
    writeln!(out, "sets {}", config.sets)?;
    writeln!(out, "ways {}", config.ways)?;
    writeln!(out, "lines {}", config.lines)?;
    writeln!(out, "long {}", config.long)?;
    writeln!(out, "steps {}", config.steps)?;
    writeln!(out, "events {events}")?;
    match &trace.recorded {
        Some(outcomes) => put_outcomes(out, outcomes),
        None => {
            out.push_str("no outcomes recorded\n")?;
            Ok(())
        }
    }
}

/// Puts how often each outcome came, where it did.
fn put_outcomes(out: &mut String, outcomes: &[Outcome]) -> Result<(), NoMemory> {
    for came in &ALL_CAME {
        let times = times(outcomes, *came);
        if times > 0 {
            let word = came.word();
            writeln!(out, "{word} {times}")?;
        }
    }
    Ok(())
}

/// How often an outcome came.
fn times(outcomes: &[Outcome], came: Came) -> usize
    ensures { result ≡ count_by (is_came came) outcomes.now }
{
    outcomes
        .iter()
        .filter(|outcome| Came::of(**outcome) == came)
        .count()
}
