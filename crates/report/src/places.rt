//! The lines of one place of a run, and of the places at which a hart comes to a pc.
ghost use Rattle.std.specs.Prelude.{◌≡◌, ◌<◌, ◌≤◌, if◌then◌else◌, is_ok, OnErr, OnOk};
ghost use Rattle.std.specs.List.{flat_map, range_with_len};
ghost use Rattle.el_io.specs.Counts.{one_more};
ghost use Rattle.el_io.specs.Sink.{TookAll, TookPart};
ghost use Rattle.report.specs.PlaceText.{found_text, pc_line, place_of, view_line};
ghost use Rattle.report.specs.Puts.{Puts};
ghost use Rattle.rv_flat.specs.FlatState.{view_of};
ghost use Rattle.step_back.specs.Standing.{state_here};

use crate::report::{put_last_line, put_with_status};
use crate::word::{Word, put_number_line};
use el_base::HartId;
use el_io::{Failed, Sink};
use rv_alu::HartStatus;
use step_back::Timeline;

/// Puts what a timeline shows at its place: a line for each hart in ascending order, with its committed pc and
/// how it stands, and a last line with the lengths of the serial order and of the output.
///
/// `Failed` comes only where the sink counted a fault in this call. The sink then took some of these lines,
/// from the first byte on, and not all.
pub fn write_place<S: Sink>(sink: &mut S, timeline: &Timeline) -> Result<(), Failed>
    ensures all_taken { OnOk result (TookAll (S.taken sink.old) (S.taken sink.new) (place_of timeline.now)) }
    ensures part_after_failed { OnErr result
        (TookPart (S.taken sink.old) (S.taken sink.new) (place_of timeline.now)) }
    ensures faults_counted { S.faults sink.new ≡
        (if is_ok result then S.faults sink.old else one_more (S.faults sink.old)) }
    ensures count_never_falls { S.faults sink.old ≤ S.faults sink.new }
{
    put_place(sink, timeline)
}

/// Puts each place of a timeline, from 1 on, at which the hart comes to this pc: its committed pc is this one
/// there, and was not at the place before. Each is a decimal number on a line of its own, in ascending order.
/// The timeline is left at the last of them, or at place 0.
///
/// `Failed` comes only where the sink counted a fault in this call. The sink then took some of these lines,
/// from the first byte on, and not all.
pub fn write_found<S: Sink>(
    sink: &mut S,
    timeline: &mut Timeline,
    hart: HartId,
    pc: u32,
) -> Result<(), Failed>
    requires { hart.number < timeline.old.program.harts }
    ensures all_taken { OnOk result (TookAll (S.taken sink.old) (S.taken sink.new)
        (found_text timeline.old.program timeline.old.entries hart.number pc)) }
    ensures part_after_failed { OnErr result (TookPart (S.taken sink.old) (S.taken sink.new)
        (found_text timeline.old.program timeline.old.entries hart.number pc)) }
    ensures faults_counted { S.faults sink.new ≡
        (if is_ok result then S.faults sink.old else one_more (S.faults sink.old)) }
    ensures count_never_falls { S.faults sink.old ≤ S.faults sink.new }
{
    timeline.seek(0);
    put_found(sink, timeline, hart, pc)
}

/// Puts the lines of a place.
#[tactic(auto, using(crate::proofs::Putting::putting))]
fn put_place<S: Sink>(sink: &mut S, timeline: &Timeline) -> Result<(), Failed>
    ensures { Puts result
        (record { taken = S.taken sink.old; faults = S.faults sink.old })
        (record { taken = S.taken sink.new; faults = S.faults sink.new })
        (place_of timeline.now) }
{
    put_pc_lines(sink, timeline)?;
    put_last_line(sink, timeline.serial(), timeline.output().len() as u64)
}

/// Puts the line of each hart.
fn put_pc_lines<S: Sink>(sink: &mut S, timeline: &Timeline) -> Result<(), Failed>
    ensures { Puts result
        (record { taken = S.taken sink.old; faults = S.faults sink.old })
        (record { taken = S.taken sink.new; faults = S.faults sink.new })
        (flat_map (view_line (view_of (state_here timeline.now))) (range_with_len 0 timeline.now.program.harts)) }
{
    for number in 0..timeline.harts() {
        put_pc_line_of(sink, timeline, HartId { number })?;
    }
    Ok(())
}

/// Puts the line of a hart of a timeline.
fn put_pc_line_of<S: Sink>(sink: &mut S, timeline: &Timeline, hart: HartId) -> Result<(), Failed>
    requires { hart.number < timeline.now.program.harts }
    ensures { Puts result
        (record { taken = S.taken sink.old; faults = S.faults sink.old })
        (record { taken = S.taken sink.new; faults = S.faults sink.new })
        (view_line (view_of (state_here timeline.now)) hart.number) }
{
    let view = timeline.view(hart);
    put_pc_line(sink, hart.number, view.pc, view.status)
}

#[tactic(auto, unfolding(crate::specs::PlaceText::pc_line))]
fn put_pc_line<S: Sink>(sink: &mut S, number: u8, pc: u32, status: HartStatus) -> Result<(), Failed>
    ensures { Puts result
        (record { taken = S.taken sink.old; faults = S.faults sink.old })
        (record { taken = S.taken sink.new; faults = S.faults sink.new })
        (pc_line number pc status) }
{
    let words = [
        Word::Number(number.into()),
        Word::Text("pc"),
        Word::Address(pc),
    ];
    put_with_status(sink, &words, status)
}

/// Puts the places of a timeline that has not begun.
fn put_found<S: Sink>(
    sink: &mut S,
    timeline: &mut Timeline,
    hart: HartId,
    pc: u32,
) -> Result<(), Failed>
    requires exists { hart.number < timeline.old.program.harts }
    requires not_begun { timeline.old.place ≡ 0 }
    ensures { Puts result
        (record { taken = S.taken sink.old; faults = S.faults sink.old })
        (record { taken = S.taken sink.new; faults = S.faults sink.new })
        (found_text timeline.old.program timeline.old.entries hart.number pc) }
{
    while timeline.next_at(hart, pc) {
        put_number_line(sink, timeline.place().into())?;
    }
    Ok(())
}
