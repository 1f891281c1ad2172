//! The lines of a table of units and losses.
ghost use Rattle.std.specs.Prelude.{◌≡◌, ◌≤◌, is_ok, if◌then◌else◌, OnErr, OnOk};
ghost use Rattle.std.specs.List.{flat_map, range_with_len};
ghost use Rattle.el_io.specs.Counts.{one_more};
ghost use Rattle.el_io.specs.Sink.{TookAll, TookPart};
ghost use Rattle.report.specs.Puts.{Puts};
ghost use Rattle.report.specs.TimesText.{loss_at, loss_line, losses_of, time_at, times_text, total_line, total_of};

use crate::word::{Word, put_line};
use el_base::HartId;
use el_io::{Failed, Sink};
use timetable::Times;

/// Puts what the first `harts` harts of a table have: a line for each in ascending order with its units and
/// the instructions that it lost, a line for each pair with a loss, ascending by loser and then by winner,
/// and a last line with the units of all.
///
/// `Failed` comes only where the sink counted a fault in this call. The sink then took some of these lines,
/// from the first byte on, and not all.
pub fn write_times<S: Sink>(sink: &mut S, times: &Times, harts: u8) -> Result<(), Failed>
    requires { harts ≤ 8 }
    ensures all_taken { OnOk result (TookAll (S.taken sink.old) (S.taken sink.new) (times_text harts times.now)) }
    ensures part_after_failed { OnErr result
        (TookPart (S.taken sink.old) (S.taken sink.new) (times_text harts times.now)) }
    ensures faults_counted { S.faults sink.new ≡
        (if is_ok result then S.faults sink.old else one_more (S.faults sink.old)) }
    ensures count_never_falls { S.faults sink.old ≤ S.faults sink.new }
{
    put_times(sink, times, harts)
}

/// Puts the lines of a table.
#[tactic(auto, using(crate::proofs::Putting::putting), unfolding(crate::specs::TimesText::times_text))]
fn put_times<S: Sink>(sink: &mut S, times: &Times, harts: u8) -> Result<(), Failed>
    requires { harts ≤ 8 }
    ensures { Puts result
        (record { taken = S.taken sink.old; faults = S.faults sink.old })
        (record { taken = S.taken sink.new; faults = S.faults sink.new })
        (times_text harts times.now) }
{
    put_time_lines(sink, times, harts)?;
    put_loss_lines(sink, times, harts)?;
    put_total_line(sink, total(times, harts))
}

/// Puts the line of each hart.
fn put_time_lines<S: Sink>(sink: &mut S, times: &Times, harts: u8) -> Result<(), Failed>
    requires { harts ≤ 8 }
    ensures { Puts result
        (record { taken = S.taken sink.old; faults = S.faults sink.old })
        (record { taken = S.taken sink.new; faults = S.faults sink.new })
        (flat_map (time_at times.now) (range_with_len 0 harts)) }
{
    for number in 0..harts {
        put_time_line(sink, times, HartId { number })?;
    }
    Ok(())
}

#[tactic(auto, unfolding(crate::specs::TimesText::time_at))]
fn put_time_line<S: Sink>(sink: &mut S, times: &Times, hart: HartId) -> Result<(), Failed>
    ensures { Puts result
        (record { taken = S.taken sink.old; faults = S.faults sink.old })
        (record { taken = S.taken sink.new; faults = S.faults sink.new })
        (time_at times.now hart.number) }
{
    let words = [
        Word::Number(hart.number.into()),
        Word::Text("units"),
        Word::Number(times.units(hart)),
        Word::Text("lost"),
        Word::Number(times.lost(hart)),
    ];
    put_line(sink, "time", &words, &[])
}

/// Puts the lines of all losses.
fn put_loss_lines<S: Sink>(sink: &mut S, times: &Times, harts: u8) -> Result<(), Failed>
    requires { harts ≤ 8 }
    ensures { Puts result
        (record { taken = S.taken sink.old; faults = S.faults sink.old })
        (record { taken = S.taken sink.new; faults = S.faults sink.new })
        (flat_map (losses_of times.now harts) (range_with_len 0 harts)) }
{
    for number in 0..harts {
        put_losses_of(sink, times, harts, HartId { number })?;
    }
    Ok(())
}

/// Puts the lines of a hart's losses.
fn put_losses_of<S: Sink>(
    sink: &mut S,
    times: &Times,
    harts: u8,
    loser: HartId,
) -> Result<(), Failed>
    requires { harts ≤ 8 }
    ensures { Puts result
        (record { taken = S.taken sink.old; faults = S.faults sink.old })
        (record { taken = S.taken sink.new; faults = S.faults sink.new })
        (losses_of times.now harts loser.number) }
{
    for number in 0..harts {
        put_losses_to(sink, times, loser, HartId { number })?;
    }
    Ok(())
}

/// Puts the line of a hart's losses to another, if there are any.
fn put_losses_to<S: Sink>(
    sink: &mut S,
    times: &Times,
    loser: HartId,
    winner: HartId,
) -> Result<(), Failed>
    ensures { Puts result
        (record { taken = S.taken sink.old; faults = S.faults sink.old })
        (record { taken = S.taken sink.new; faults = S.faults sink.new })
        (loss_at times.now loser.number winner.number) }
{
    if times.times(loser, winner) == 0 {
        Ok(())
    } else {
        put_loss_line(sink, times, loser, winner)
    }
}

#[tactic(auto, unfolding(crate::specs::TimesText::loss_line))]
fn put_loss_line<S: Sink>(
    sink: &mut S,
    times: &Times,
    loser: HartId,
    winner: HartId,
) -> Result<(), Failed>
    ensures { Puts result
        (record { taken = S.taken sink.old; faults = S.faults sink.old })
        (record { taken = S.taken sink.new; faults = S.faults sink.new })
        (loss_line times.now loser.number winner.number) }
{
    let words = [
        Word::Number(loser.number.into()),
        Word::Text("to"),
        Word::Number(winner.number.into()),
        Word::Text("times"),
        Word::Number(times.times(loser, winner)),
        Word::Text("instr"),
        Word::Number(times.instr(loser, winner)),
    ];
    put_line(sink, "lost", &words, &[])
}

/// The units of the first harts together.
fn total(times: &Times, harts: u8) -> u64
    requires { harts ≤ 8 }
    ensures { result ≡ total_of harts times.now }
{
    let mut total = 0;
    for number in 0..harts {
        total += times.units(HartId { number });
    }
    total
}

#[tactic(auto, unfolding(crate::specs::TimesText::total_line))]
fn put_total_line<S: Sink>(sink: &mut S, total: u64) -> Result<(), Failed>
    ensures { Puts result
        (record { taken = S.taken sink.old; faults = S.faults sink.old })
        (record { taken = S.taken sink.new; faults = S.faults sink.new })
        (total_line total) }
{
    let words = [Word::Text("total"), Word::Number(total)];
    put_line(sink, "time", &words, &[])
}
