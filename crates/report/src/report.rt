ghost use Rattle.std.specs.Prelude.{◌≡◌, ◌<◌, ◌≤◌, ◌∷◌, ◌++◌, codes, if◌then◌else◌, is_ok, map, OnErr, OnOk};
ghost use Rattle.std.specs.Fmt.{decimal};
ghost use Rattle.el_io.specs.Counts.{one_more};
ghost use Rattle.el_io.specs.Sink.{TookAll, TookPart};
ghost use Rattle.step_back.specs.Story.{committed};
ghost use Rattle.chronicle.specs.Tally.{tally_of};
ghost use Rattle.report.specs.Line.{bytes_of, line};
ghost use Rattle.report.specs.Puts.{Puts};
ghost use Rattle.report.specs.Text.{count_words, first_line, hart_line, hart_lines, last_line, report_of, status_words};
ghost use Rattle.rv_flat.specs.FlatState.{status_of};

use crate::word::{Word, put_line};
use chronicle::Tally;
use el_base::{Chronicled, Config, HartId};
use el_io::{Failed, Sink};
use rv_alu::HartStatus;
use step_back::Machine;

/// Puts the report of a machine: a first line with the mode and the numbers of harts and events, a line
/// for each hart in ascending order, and a last line with the lengths of the serial order and of the
/// output.
///
/// `Failed` comes only where the sink counted a fault in this call. The sink then took some of the
/// report, from its first byte on, and not all.
pub fn write_report<S: Sink>(sink: &mut S, machine: &Machine) -> Result<(), Failed>
    ensures all_taken { OnOk result (TookAll (S.taken sink.old) (S.taken sink.new) (report_of machine.now)) }
    ensures part_after_failed { OnErr result
        (TookPart (S.taken sink.old) (S.taken sink.new) (report_of machine.now)) }
    ensures faults_counted { S.faults sink.new ≡
        (if is_ok result then S.faults sink.old else one_more (S.faults sink.old)) }
    ensures count_never_falls { S.faults sink.old ≤ S.faults sink.new }
{
    put_report(sink, machine)
}

/// Puts the lines of a report.
fn put_report<S: Sink>(sink: &mut S, machine: &Machine) -> Result<(), Failed>
    ensures { Puts result
        (record { taken = S.taken sink.old; faults = S.faults sink.old })
        (record { taken = S.taken sink.new; faults = S.faults sink.new })
        (report_of machine.now) }
{
    let history = machine.history();
    put_first_line(sink, machine.config(), history.length())?;
    put_hart_lines(sink, machine)?;
    put_last_line(sink, history.serial_len(), machine.output().len() as u64)
}

#[tactic(auto, unfolding(crate::specs::Text::first_line))]
fn put_first_line<S: Sink>(sink: &mut S, config: Config, events: u32) -> Result<(), Failed>
    ensures { Puts result
        (record { taken = S.taken sink.old; faults = S.faults sink.old })
        (record { taken = S.taken sink.new; faults = S.faults sink.new })
        (first_line config events) }
{
    let words = [
        Word::Text(config.mode.word()),
        Word::Text("harts"),
        Word::Number(config.harts.into()),
        Word::Text("events"),
        Word::Number(events.into()),
    ];
    put_line(sink, "elide", &words, &[])
}

/// Puts the line of each hart of a machine.
fn put_hart_lines<S: Sink>(sink: &mut S, machine: &Machine) -> Result<(), Failed>
    ensures { Puts result
        (record { taken = S.taken sink.old; faults = S.faults sink.old })
        (record { taken = S.taken sink.new; faults = S.faults sink.new })
        (hart_lines machine.now.config.harts machine.now.entries (status_of (committed machine.now))) }
{
    for number in 0..machine.config().harts {
        put_line_of(sink, machine, HartId { number })?;
    }
    Ok(())
}

/// Puts the line of a hart of a machine.
fn put_line_of<S: Sink>(sink: &mut S, machine: &Machine, hart: HartId) -> Result<(), Failed>
    requires { hart.number < machine.now.config.harts }
    ensures { Puts result
        (record { taken = S.taken sink.old; faults = S.faults sink.old })
        (record { taken = S.taken sink.new; faults = S.faults sink.new })
        (hart_line hart.number (tally_of hart.number machine.now.entries)
        (status_of (committed machine.now) hart.number)) }
{
    let status = machine.hart(hart).status;
    put_hart_line(sink, hart.number, machine.history().tally(hart), status)
}

/// Puts the line of a hart: its number, what the events count for in its line, and how it stands.
#[tactic(auto, unfolding(crate::specs::Text::hart_line))]
pub(crate) fn put_hart_line<S: Sink>(
    sink: &mut S,
    number: u8,
    tally: Tally,
    status: HartStatus,
) -> Result<(), Failed>
    ensures { Puts result
        (record { taken = S.taken sink.old; faults = S.faults sink.old })
        (record { taken = S.taken sink.new; faults = S.faults sink.new })
        (hart_line number tally status) }
{
    put_with_status(sink, &hart_words(number, tally), status)
}

/// Puts the line of a hart: these words, and how it stands.
pub(crate) fn put_with_status<S: Sink>(
    sink: &mut S,
    words: &[Word],
    status: HartStatus,
) -> Result<(), Failed>
    ensures { Puts result
        (record { taken = S.taken sink.old; faults = S.faults sink.old })
        (record { taken = S.taken sink.new; faults = S.faults sink.new })
        (line (codes "hart") (map bytes_of words.now ++ status_words status)) }
{
    match status {
        HartStatus::Running => put_line(sink, "hart", words, &[Word::Text("running")]),
        HartStatus::Exited { code } => {
            let status = [Word::Text("exit"), Word::Number(code.into())];
            put_line(sink, "hart", words, &status)
        }
        HartStatus::Trapped { cause, pc } => {
            let status = [
                Word::Text("trap"),
                Word::Number(cause.into()),
                Word::Text("at"),
                Word::Address(pc),
            ];
            put_line(sink, "hart", words, &status)
        }
    }
}

/// A hart's number, and what the events count for in its line, each number behind its name.
fn hart_words(number: u8, tally: Tally) -> [Word; 27]
    ensures { map bytes_of result ≡ decimal number ∷ count_words tally }
{
    [
        Word::Number(number.into()),
        Word::Text("ran"),
        Word::Number(tally.ran),
        Word::Text("began"),
        Word::Number(tally.began),
        Word::Text("committed"),
        Word::Number(tally.committed),
        Word::Text("instr"),
        Word::Number(tally.instr),
        Word::Text("conflict"),
        Word::Number(tally.conflict),
        Word::Text("room"),
        Word::Number(tally.room),
        Word::Text("lines"),
        Word::Number(tally.lines),
        Word::Text("long"),
        Word::Number(tally.long),
        Word::Text("call"),
        Word::Number(tally.call),
        Word::Text("mixed"),
        Word::Number(tally.mixed),
        Word::Text("missed"),
        Word::Number(tally.missed),
        Word::Text("stalled"),
        Word::Number(tally.stalled),
        Word::Text("blocked"),
        Word::Number(tally.blocked),
    ]
}

#[tactic(auto, unfolding(crate::specs::Text::last_line))]
pub(crate) fn put_last_line<S: Sink>(sink: &mut S, steps: u64, output: u64) -> Result<(), Failed>
    ensures { Puts result
        (record { taken = S.taken sink.old; faults = S.faults sink.old })
        (record { taken = S.taken sink.new; faults = S.faults sink.new })
        (last_line steps output) }
{
    let words = [Word::Number(steps), Word::Text("out"), Word::Number(output)];
    put_line(sink, "serial", &words, &[])
}
