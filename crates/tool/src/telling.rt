//! What a command puts and writes at its end.
ghost use Rattle.std.specs.Prelude.{◌≡◌, ℕ, ◌<◌, ◌++◌, if◌then◌else◌, is_ok, true, false, List, [], ◌∷◌, Option, Some, IfOk, IfSome, MatchResult};
ghost use Rattle.std.specs.Prelude.{OnErr, OnOk, string_bytes};
ghost use Rattle.std.specs.Option.{option_map};
ghost use Rattle.el_io.specs.Sink.{TookAll, TookPart};
ghost use Rattle.el_io.specs.Counts.{one_more};
ghost use Rattle.report.specs.PlaceText.{found_text, place_of};
ghost use Rattle.report.specs.Text.{report_of};
ghost use Rattle.tool.specs.Answer.{CanBeTold, answer_of, besides_of, certified_by, ended, files_of, generated, judged, times_if, where_named, written_by};
ghost use Rattle.tool.specs.Causes.{Caused, FaultCounts, puts_out, run_writes, writes_of, writes_to};
ghost use Rattle.tool.specs.Comes.{Comes, Untold};
ghost use Rattle.tool.specs.Faults.{Faulted};
ghost use Rattle.tool.specs.Messages.{differs_line, line_of, wrote_line as line_of_written};
ghost use Rattle.tool.specs.Statuses.{status_of};
ghost use Rattle.tool.specs.Telling.{Only, Writes};

use crate::difference::Difference;
use crate::ended::Ended;
use crate::ending::ending;
use crate::made::{Certified, Extras, Made};
use crate::refusal::Refusal;
use crate::status::Status;
use crate::stop::Fault;
use drive::Machine;
use el_base::{HartId, Numbered};
use el_io::{Failed, Shelf, Sink, put_all};
use report::{write_found, write_place, write_report, write_times};
use run_check::{Verdict, write_certificate};
use std::alloc::{AllocError, Global};
use step_back::Timeline;
use timetable::tabulate;
use trace_file::write_trace;

/// Puts and writes what a command has made.
pub(crate) fn tell<S: Shelf, O: Sink, E: Sink>(
    alloc: Global,
    made: Made<'_>,
    shelf: &mut S,
    out: &mut O,
    err: &mut E,
) -> Result<Status, Fault>
    requires tellable { CanBeTold made }
    ensures exact { Comes (Only (answer_of made.entry)) (status_of result)
        (record { out = O.taken out.old; err = E.taken err.old; files = S.told shelf.old })
        (record { out = O.taken out.new; err = E.taken err.new; files = S.told shelf.new }) }
    ensures cause { Caused (writes_of made.entry) (puts_out made.entry) (status_of result)
        (record { shelf = S.failures shelf.old; out = O.faults out.old; err = E.faults err.old })
        (record { shelf = S.failures shelf.new; out = O.faults out.new; err = E.faults err.new }) }
    ensures fault { Faulted [] (Only (answer_of made.entry)) (status_of result)
        (record { shelf = S.failures shelf.old; out = O.faults out.old; err = E.faults err.old })
        (record { shelf = S.failures shelf.new; out = O.faults out.new; err = E.faults err.new })
        (record { out = O.taken out.old; err = E.taken err.old; files = S.told shelf.old })
        (record { out = O.taken out.new; err = E.taken err.new; files = S.told shelf.new }) }
{
    match made {
        Made::Run { machine, extras } => tell_run(alloc, &machine, extras, shelf, out, err),
        Made::Differs(difference) => tell_difference(alloc, difference, err),
        Made::Place(timeline) => tell_place(&timeline, out),
        Made::Sought {
            mut timeline,
            hart,
            pc,
        } => tell_found(&mut timeline, hart, pc, out),
        Made::Image { bytes, file } => tell_image(alloc, bytes, file, shelf, err),
        Made::Judged { verdict, output } => tell_verdict(alloc, verdict, output, err),
    }
}

/// Puts the output of a run that has ended, writes its trace and its certificate where names were given, and puts
/// its report with its times where they are asked for, in this order.
#[tactic(auto, using(crate::proofs::Putting::unwritten_comes, crate::proofs::Putting::unwritten_faults, crate::proofs::Putting::unwritten_causes))]
fn tell_run<S: Shelf, O: Sink, E: Sink>(
    alloc: Global,
    machine: &Machine,
    extras: Extras<'_>,
    shelf: &mut S,
    out: &mut O,
    err: &mut E,
) -> Result<Status, Fault>
    requires copied { IfSome extras.certified (λ copy. copy.image ≡ machine.now.program) }
    ensures exact { Comes (Only (ended (besides_of extras.entry) machine.now)) (status_of result)
        (record { out = O.taken out.old; err = E.taken err.old; files = S.told shelf.old })
        (record { out = O.taken out.new; err = E.taken err.new; files = S.told shelf.new }) }
    ensures cause { Caused (run_writes (besides_of extras.entry)) true (status_of result)
        (record { shelf = S.failures shelf.old; out = O.faults out.old; err = E.faults err.old })
        (record { shelf = S.failures shelf.new; out = O.faults out.new; err = E.faults err.new }) }
    ensures fault { Faulted [] (Only (ended (besides_of extras.entry) machine.now)) (status_of result)
        (record { shelf = S.failures shelf.old; out = O.faults out.old; err = E.faults err.old })
        (record { shelf = S.failures shelf.new; out = O.faults out.new; err = E.faults err.new })
        (record { out = O.taken out.old; err = E.taken err.old; files = S.told shelf.old })
        (record { out = O.taken out.new; err = E.taken err.new; files = S.told shelf.new }) }
{
    let times = extras.times;
    put_all(out, machine.output())?;
    write_files(alloc, machine, extras, shelf)?;
    put_report(err, machine, times)?;
    Ok(ending(machine))
}

/// Puts the report of a run, and its times where they are asked for.
fn put_report<E: Sink>(err: &mut E, machine: &Machine, times: bool) -> Result<(), Failed>
    ensures all_taken { OnOk result (TookAll (E.taken err.old) (E.taken err.new)
        (report_of machine.now ++ times_if times machine.now)) }
    ensures part_after_failed { OnErr result (TookPart (E.taken err.old) (E.taken err.new)
        (report_of machine.now ++ times_if times machine.now)) }
    ensures faults_counted { E.faults err.new ≡
        (if is_ok result then E.faults err.old else one_more (E.faults err.old)) }
{
    write_report(err, machine)?;
    if times {
        write_times(err, &tabulate(machine.history()), machine.config().harts)?;
    }
    Ok(())
}

/// Puts what a trace comes to at a place.
fn tell_place<O: Sink>(timeline: &Timeline, out: &mut O) -> Result<Status, Fault>
    ensures told { MatchResult result
        (λ status. (status ≡ Status.Done) × TookAll (O.taken out.old) (O.taken out.new) (place_of timeline.now))
        (λ fault. (fault ≡ Fault.Device) × TookPart (O.taken out.old) (O.taken out.new) (place_of timeline.now)) }
    ensures cause { MatchResult result
        (λ _. O.faults out.new ≡ O.faults out.old)
        (λ _. O.faults out.new ≡ one_more (O.faults out.old)) }
{
    write_place(out, timeline)?;
    Ok(Status::Done)
}

/// Puts the places of a trace at which a hart comes to a pc.
fn tell_found<O: Sink>(
    timeline: &mut Timeline,
    hart: HartId,
    pc: u32,
    out: &mut O,
) -> Result<Status, Fault>
    requires { hart.number < timeline.old.program.harts }
    ensures told { let text = found_text timeline.old.program timeline.old.entries hart.number pc in
        MatchResult result
        (λ status. (status ≡ Status.Done) × TookAll (O.taken out.old) (O.taken out.new) text)
        (λ fault. (fault ≡ Fault.Device) × TookPart (O.taken out.old) (O.taken out.new) text) }
    ensures cause { MatchResult result
        (λ _. O.faults out.new ≡ O.faults out.old)
        (λ _. O.faults out.new ≡ one_more (O.faults out.old)) }
{
    write_found(out, timeline, hart, pc)?;
    Ok(Status::Done)
}

/// Puts where a replay differs from what its trace records.
fn tell_difference<E: Sink>(
    alloc: Global,
    difference: Difference,
    err: &mut E,
) -> Result<Status, Fault>
    ensures told { MatchResult result
        (λ status. (status ≡ Status.Differs) × TookAll (E.taken err.old) (E.taken err.new) (differs_line difference))
        (Untold (E.taken err.old) (E.taken err.new) (differs_line difference)) }
    ensures cause { MatchResult result
        (λ _. E.faults err.new ≡ E.faults err.old)
        (FaultCounts (E.faults err.old) (E.faults err.new)) }
{
    let line = difference.line(alloc)?;
    put_all(err, line.as_bytes())?;
    Ok(Status::Differs)
}

/// Writes an image to its file, and puts how long it is.
fn tell_image<S: Shelf, E: Sink>(
    alloc: Global,
    bytes: Vec<u8>,
    file: &str,
    shelf: &mut S,
    err: &mut E,
) -> Result<Status, Fault>
    ensures exact { (out : Option (List ℕ)) → Comes (Only (generated file.now bytes.items)) (status_of result)
        (record { out = out; err = E.taken err.old; files = S.told shelf.old })
        (record { out = out; err = E.taken err.new; files = S.told shelf.new }) }
    ensures cause { (out : ℕ) → Caused (writes_to (Some file.now)) false (status_of result)
        (record { shelf = S.failures shelf.old; out = out; err = E.faults err.old })
        (record { shelf = S.failures shelf.new; out = out; err = E.faults err.new }) }
    ensures fault { (faults : ℕ) (out : Option (List ℕ)) → Faulted [] (Only (generated file.now bytes.items)) (status_of result)
        (record { shelf = S.failures shelf.old; out = faults; err = E.faults err.old })
        (record { shelf = S.failures shelf.new; out = faults; err = E.faults err.new })
        (record { out = out; err = E.taken err.old; files = S.told shelf.old })
        (record { out = out; err = E.taken err.new; files = S.told shelf.new }) }
{
    let told = wrote_line(alloc, bytes.len())?;
    shelf.write(alloc, file, &bytes)?;
    put_all(err, told.as_bytes())?;
    Ok(Status::Done)
}

/// The line that says how many bytes a file was written with.
fn wrote_line(alloc: Global, count: usize) -> Result<String, AllocError>
    ensures { IfOk result (λ line. string_bytes line ≡ line_of_written count) }
{
    let mut line = format!(in alloc; "wrote {count}")?;
    line.push_str(" bytes\n")?;
    Ok(line)
}

/// Puts what was found of a certificate.
fn tell_verdict<E: Sink>(
    alloc: Global,
    verdict: Verdict,
    output: usize,
    err: &mut E,
) -> Result<Status, Fault>
    ensures told { MatchResult result
        (λ status. (status ≡ (judged verdict output).status)
        × TookAll (E.taken err.old) (E.taken err.new) (judged verdict output).err)
        (Untold (E.taken err.old) (E.taken err.new) (judged verdict output).err) }
    ensures cause { MatchResult result
        (λ _. E.faults err.new ≡ E.faults err.old)
        (FaultCounts (E.faults err.old) (E.faults err.new)) }
{
    let line = verdict_line(alloc, verdict, output)?;
    put_all(err, line.as_bytes())?;
    Ok(match verdict {
        Verdict::Holds { .. } => Status::Done,
        Verdict::Fails { .. } => Status::Rejected,
    })
}

/// The line of what was found of a certificate, with the length of the output that it tells.
fn verdict_line(alloc: Global, verdict: Verdict, output: usize) -> Result<String, AllocError>
    ensures { IfOk result (λ line. string_bytes line ≡ (judged verdict output).err) }
{
    match verdict {
        Verdict::Holds { serial } => {
            let mut line = format!(in alloc; "certificate holds, serial {serial}")?;
            writeln!(line, " out {output}")?;
            Ok(line)
        }
        Verdict::Fails { number, place } => {
            let mut line = format!(in alloc; "certificate fails {number} ")?;
            // Each number that `check` answers with has a name.
            line.push_str(run_check::Difference::name_of_number(number).unwrap_or(""))?;
            writeln!(line, " at {place}")?;
            Ok(line)
        }
    }
}

/// Puts the line of a refusal. It takes no memory.
pub(crate) fn tell_refusal<E: Sink>(refusal: Refusal, err: &mut E) -> Result<Status, Failed>
    ensures told { MatchResult result
        (λ status. (status ≡ Status.Refused) × TookAll (E.taken err.old) (E.taken err.new) (line_of refusal))
        (λ _. TookPart (E.taken err.old) (E.taken err.new) (line_of refusal)) }
    ensures cause { E.faults err.new ≡ (if is_ok result then E.faults err.old else one_more (E.faults err.old)) }
{
    refusal.put(err)?;
    Ok(Status::Refused)
}

/// Writes the trace of a run and then its certificate, where names were given.
#[tactic(auto, using(crate::proofs::Writing::wrote_both, crate::proofs::Writing::unwritten_behind, crate::proofs::Writing::unwritten_before))]
fn write_files<S: Shelf>(
    alloc: Global,
    machine: &Machine,
    extras: Extras<'_>,
    shelf: &mut S,
) -> Result<(), Fault>
    requires copied { IfSome extras.certified (λ copy. copy.image ≡ machine.now.program) }
    ensures { Writes result (files_of (besides_of extras.entry) machine.now)
        (S.failures shelf.old) (S.failures shelf.new) (S.told shelf.old) (S.told shelf.new) }
{
    write_trace_to(alloc, machine, extras.trace, shelf)?;
    write_certificate_to(alloc, machine, extras.certified, shelf)
}

/// Writes the trace of a run, where a name was given.
#[tactic(auto, using(crate::proofs::Writing::one_written, crate::proofs::Writing::one_unwritten))]
fn write_trace_to<S: Shelf>(
    alloc: Global,
    machine: &Machine,
    name: Option<&str>,
    shelf: &mut S,
) -> Result<(), Fault>
    ensures { Writes result (where_named (written_by machine.now) (option_map (λ name. name.now) name.entry))
        (S.failures shelf.old) (S.failures shelf.new) (S.told shelf.old) (S.told shelf.new) }
{
    if let Some(name) = name {
        write_trace(alloc, shelf, name, &machine.config(), machine.history())?;
    }
    Ok(())
}

/// Writes the certificate of a run, where a copy of its image was kept for it.
fn write_certificate_to<S: Shelf>(
    alloc: Global,
    machine: &Machine,
    certified: Option<Certified<'_>>,
    shelf: &mut S,
) -> Result<(), Fault>
    requires copied { IfSome certified (λ copy. copy.image ≡ machine.now.program) }
    ensures { Writes result (where_named (certified_by machine.now) (option_map (λ copy. copy.name.now) certified.entry))
        (S.failures shelf.old) (S.failures shelf.new) (S.told shelf.old) (S.told shelf.new) }
{
    match certified {
        Some(copy) => certify(alloc, machine, copy, shelf),
        None => Ok(()),
    }
}

/// Writes the certificate of a run, with a copy of its image.
#[tactic(auto, using(crate::proofs::Writing::one_written, crate::proofs::Writing::one_unwritten))]
fn certify<S: Shelf>(
    alloc: Global,
    machine: &Machine,
    copy: Certified<'_>,
    shelf: &mut S,
) -> Result<(), Fault>
    requires copied { copy.image ≡ machine.now.program }
    ensures { Writes result (certified_by machine.now copy.entry.name.now ∷ [])
        (S.failures shelf.old) (S.failures shelf.new) (S.told shelf.old) (S.told shelf.new) }
{
    let Certified { image, name } = copy;
    let config = machine.config();
    prove!(image.harts() == config.harts);
    write_certificate(
        alloc,
        shelf,
        name,
        &image,
        machine.history(),
        &Ended { machine },
    )?;
    Ok(())
}
