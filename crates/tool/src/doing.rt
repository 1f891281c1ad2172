//! What a command does before anything is put: it reads its files and makes a machine that it runs, it judges a
//! certificate, or it builds an image.
ghost use Rattle.std.specs.Prelude.{◌≡◌, ◌<◌, ◌≤◌, ◌∷◌, [], All, List, None, IfErr, IfOk, IfSome, MatchOption, MatchResult, length, option_map, true, false};
ghost use Rattle.command_line.specs.Settings.{config_of};
ghost use Rattle.command_line.specs.Words.{job_of, names_command, replay_meaning, run_meaning, texts};
ghost use Rattle.el_base.specs.Config.{IsInRange, config_fault};
ghost use Rattle.el_io.specs.Shelf.{Holds, NamedCall};
ghost use Rattle.elf_image.specs.Faults.{fault};
ghost use Rattle.elf_image.specs.Limits.{file_limit};
ghost use Rattle.elf_image.specs.Loaded.{program_of};
ghost use Rattle.drive.specs.Story.{continued, left_of};
ghost use Rattle.run_check.specs.Faults.{harts_of};
ghost use Rattle.trace_file.specs.Faults.{config_at};
ghost use Rattle.trace_file.specs.Spelling.{listed, outcomes};
ghost use Rattle.tool.specs.Answer.{CanBeTold, answer_of};
ghost use Rattle.tool.specs.Causes.{FileRead, IsWithin, ListsOne, MayWrite, StopReads, calls_of, certificate_read, image_read, puts_out, puts_of};
ghost use Rattle.tool.specs.Causes.{reads_of, reads_under, run_writes, trace_read, writes_of};
ghost use Rattle.tool.specs.Jobs.{DriversMade, FollowAnswer, IsAnswer, IsCheckAnswer, IsReplayAnswer, IsRunAnswer, MakesRun, RanAnswer};
ghost use Rattle.tool.specs.Jobs.{VerdictAnswer, besides_replay, besides_run, first_story};
ghost use Rattle.tool.specs.Differing.{CameAsRecorded, DiffersFrom, IsDifference};
ghost use Rattle.tool.specs.Refusals.{certificate_refusal, image_refusal, trace_refusal};
ghost use Rattle.tool.specs.Stopping.{IsCertificateOf, IsTraceOf, OnlyMemory, StopsAfter, StopsBy, StopsRead, StopsWith, follow_refusal, verdict_refusal};

use crate::difference::Difference;
use crate::looking::{find, look};
use crate::made::{Certified, Extras, Made};
use crate::refusal::Refusal;
use crate::stop::{Fault, Stop};
use command_line::{Command, ReplayCommand, RunCommand, read_words};
use drive::{Machine, by_threads, follow, follow_recorded, round_robin};
use el_base::{Chronicled, Config, Event, Outcome};
use el_io::{Gate, Shelf, ShelfFault};
use elf_image::{IMAGE_FILE_LIMIT, Image, load};
use run_check::{Certificate, check, read_certificate};
use std::alloc::Global;
use std::sync::Wait;
use std::thread::Threads;
use trace_file::{MAX_FILE_BYTES, Trace, read_trace};
use workload::build;

/// Does what the words ask for, as far as it puts and writes nothing. The words are those after the
/// program's name.
pub(crate) fn obey<'a, R: Threads + Wait + Sync, S: Shelf, G: Gate + Sync>(
    runtime: &R,
    alloc: Global,
    words: &'a [String],
    shelf: &mut S,
    gate: &G,
) -> Result<Made<'a>, Stop>
    ensures files_stay { S.told shelf.new ≡ S.told shelf.old }
    ensures answers { let Answers = IsAnswer (texts words.entry.now) (S.told shelf.old) in
        MatchResult result (λ made. Answers (answer_of made)) (StopsWith Answers) }
    ensures calls { MatchResult result
        (λ _. S.failures shelf.new ≡ S.failures shelf.old)
        (StopReads (S.told shelf.old) (reads_of (job_of (texts words.entry.now))) (S.failures shelf.old) (S.failures shelf.new)) }
    ensures writes { IfOk result (λ made. (before now : List NamedCall) →
        ListsOne (writes_of made) before now →
        ListsOne (calls_of (job_of (texts words.entry.now))) before now) }
    ensures puts { IfOk result (λ made. puts_out made ≡ puts_of (job_of (texts words.entry.now))) }
    ensures tellable { IfOk result CanBeTold }
    ensures named { IfOk result (λ _. names_command (texts words.entry.now) ≡ true) }
    ensures memory { result ≡ Err (Stop.Failed Fault.NoMemory) → names_command (texts words.entry.now) ≡ true }
{
    match read_words(alloc, words)? {
        Command::Run(command) => run(runtime, alloc, shelf, command, gate),
        Command::Replay(command) => replay(alloc, shelf, command),
        Command::Look(command) => look(alloc, shelf, command),
        Command::Find(command) => find(alloc, shelf, command),
        Command::Check { image, certificate } => judge(alloc, shelf, image, certificate),
        Command::Gen { kind, number, file } => Ok(Made::Image {
            bytes: build(alloc, kind, number)?,
            file,
        }),
    }
}

/// Runs an image.
#[tactic(auto, using(crate::proofs::Answering::config_refused))]
fn run<'a, R: Threads + Wait + Sync, S: Shelf, G: Gate + Sync>(
    runtime: &R,
    alloc: Global,
    shelf: &mut S,
    command: RunCommand<'a>,
    gate: &G,
) -> Result<Made<'a>, Stop>
    ensures files_stay { S.told shelf.new ≡ S.told shelf.old }
    ensures in_range { IfOk result (λ _. IsInRange (config_of (run_meaning command.entry))) }
    ensures answers { let Answers = IsRunAnswer (run_meaning command.entry) (S.told shelf.old) in
        MatchResult result (λ made. Answers (answer_of made)) (StopsWith Answers) }
    ensures calls { let job = run_meaning command.entry in
        let reads = reads_under (config_fault (config_of job)) (image_read job.image ∷ []) in
        MatchResult result
        (λ _. S.failures shelf.new ≡ S.failures shelf.old)
        (StopReads (S.told shelf.old) reads (S.failures shelf.old) (S.failures shelf.new)) }
    ensures writes { IfOk result (λ made. writes_of made ≡ run_writes (besides_run (run_meaning command.entry))) }
    ensures puts { IfOk result (λ made. puts_out made ≡ true) }
    ensures tellable { IfOk result CanBeTold }
    ensures memory { result ≡ Err (Stop.Failed Fault.NoMemory) → config_fault (config_of (run_meaning command.entry)) ≡ None }
{
    let config = command.config()?;
    let file = read_file(alloc, shelf, command.image, IMAGE_FILE_LIMIT)?;
    run_file(runtime, alloc, file, command, config, gate)
}

/// Runs the image in a file. The file is given back.
#[tactic(auto, using(crate::proofs::Running::copies_what_ran, crate::proofs::Running::same_files))]
fn run_file<'a, R: Threads + Wait + Sync, G: Gate + Sync>(
    runtime: &R,
    alloc: Global,
    file: Vec<u8>,
    command: RunCommand<'a>,
    config: Config,
    gate: &G,
) -> Result<Made<'a>, Stop>
    requires within_limit { length file.items ≤ file_limit }
    requires in_range { IsInRange config }
    ensures { let job = run_meaning command.entry in
        let program = program_of file.items config.harts in
        MatchResult result
        (λ made. (fault file.items config.harts ≡ None)
        × RanAnswer job program config (answer_of made)
        × (writes_of made ≡ run_writes (besides_run job)) × (puts_out made ≡ true) × CanBeTold made)
        (StopsBy (image_refusal file.items config.harts)) }
{
    let image = image_of(alloc, file, config.harts)?;
    let certified = copied(alloc, &image, command.certificate)?;
    Ok(Made::Run {
        machine: run_image(runtime, alloc, image, config, command.threads, gate)?,
        extras: Extras {
            trace: command.trace,
            certified,
            times: command.times,
        },
    })
}

/// What the certificate of a run of an image is written with, where a name was given.
fn copied<'a>(
    alloc: Global,
    image: &Image,
    name: Option<&'a str>,
) -> Result<Option<Certified<'a>>, Stop>
    ensures copies { IfOk result (λ certified. IfSome certified (λ copy. copy.image ≡ image.now)) }
    ensures named { IfOk result (λ certified.
        option_map (λ copy. copy.name.now) certified ≡ option_map (λ name. name.now) name.entry) }
    ensures refused { IfErr result OnlyMemory }
{
    match name {
        Some(name) => Ok(Some(Certified {
            image: image.copy(alloc)?,
            name,
        })),
        None => Ok(None),
    }
}

/// Runs an image by drivers on threads, where so many turns of each are asked for, and then by a round robin of its
/// harts.
fn run_image<R: Threads + Wait + Sync, G: Gate + Sync>(
    runtime: &R,
    alloc: Global,
    image: Image,
    config: Config,
    threads: Option<u32>,
    gate: &G,
) -> Result<Machine, Stop>
    requires in_range { IsInRange config }
    requires one_hart_each { image.harts ≡ config.harts }
    ensures { MatchResult result
        (MakesRun threads (first_story image config))
        OnlyMemory }
{
    let machine = Machine::make(alloc, image, config)?;
    let mut machine = driven(runtime, alloc, machine, threads, gate)?;
    round_robin(&mut machine);
    Ok(machine)
}

/// A machine after so many turns of each driver, where there are to be any.
fn driven<R: Threads + Wait + Sync, G: Gate + Sync>(
    runtime: &R,
    alloc: Global,
    machine: Machine,
    threads: Option<u32>,
    gate: &G,
) -> Result<Machine, Stop>
    ensures { MatchResult result
        (DriversMade threads machine)
        OnlyMemory }
{
    match threads {
        Some(turns) => Ok(by_threads(runtime, alloc, machine, turns, gate)?),
        None => Ok(machine),
    }
}

/// Judges a certificate of a run of an image.
#[tactic(auto, using(crate::proofs::Answering::image_unchecked))]
fn judge<'a, S: Shelf>(
    alloc: Global,
    shelf: &mut S,
    image: &str,
    certificate: &str,
) -> Result<Made<'a>, Stop>
    ensures files_stay { S.told shelf.new ≡ S.told shelf.old }
    ensures answers { let Answers = IsCheckAnswer image.now certificate.now (S.told shelf.old) in
        MatchResult result (λ made. Answers (answer_of made)) (StopsWith Answers) }
    ensures calls { let reads = image_read image.now ∷ certificate_read certificate.now ∷ [] in
        MatchResult result
        (λ _. S.failures shelf.new ≡ S.failures shelf.old)
        (StopReads (S.told shelf.old) reads (S.failures shelf.old) (S.failures shelf.new)) }
    ensures writes { IfOk result (λ made. writes_of made ≡ []) }
    ensures puts { IfOk result (λ made. puts_out made ≡ false) }
    ensures tellable { IfOk result CanBeTold }
{
    let image = read_file(alloc, shelf, image, IMAGE_FILE_LIMIT)?;
    let certificate = read_file(alloc, shelf, certificate, run_check::MAX_FILE_BYTES)?;
    judge_files(alloc, image, certificate)
}

/// Judges the certificate in a file over the image in another.
fn judge_files<'a>(alloc: Global, image: Vec<u8>, certificate: Vec<u8>) -> Result<Made<'a>, Stop>
    requires { length image.items ≤ file_limit }
    ensures { MatchResult result
        (λ made. (verdict_refusal image.items certificate.items ≡ None)
        × VerdictAnswer image.items certificate.items (answer_of made)
        × (writes_of made ≡ []) × (puts_out made ≡ false) × CanBeTold made)
        (StopsAfter (certificate_refusal certificate.items) (verdict_refusal image.items certificate.items)) }
{
    let certificate = certificate_of(alloc, certificate)?;
    let image = image_of(alloc, image, certificate.harts())?;
    Ok(Made::Judged {
        verdict: check(alloc, &image, &certificate)?,
        output: certificate.output().len(),
    })
}

/// The certificate in a file. The file is given back.
#[tactic(auto, using(crate::proofs::Files::harts_of_certificate))]
fn certificate_of(alloc: Global, file: Vec<u8>) -> Result<Certificate, Stop>
    ensures exact { MatchResult result (IsCertificateOf file.items) (StopsBy (certificate_refusal file.items)) }
    ensures harts { IfOk result (λ certificate. harts_of file.items ≡ certificate.harts) }
{
    Ok(read_certificate(alloc, file.as_slice())?)
}

/// Makes the events of a trace again, on an image.
#[tactic(auto, using(crate::proofs::Answering::image_unread))]
fn replay<'a, S: Shelf>(
    alloc: Global,
    shelf: &mut S,
    command: ReplayCommand<'a>,
) -> Result<Made<'a>, Stop>
    ensures files_stay { S.told shelf.new ≡ S.told shelf.old }
    ensures answers { let Answers = IsReplayAnswer (replay_meaning command.entry) (S.told shelf.old) in
        MatchResult result (λ made. Answers (answer_of made)) (StopsWith Answers) }
    ensures calls { let job = replay_meaning command.entry in
        let reads = image_read job.image ∷ trace_read job.trace ∷ [] in
        MatchResult result
        (λ _. S.failures shelf.new ≡ S.failures shelf.old)
        (StopReads (S.told shelf.old) reads (S.failures shelf.old) (S.failures shelf.new)) }
    ensures writes { IfOk result (MayWrite (replay_meaning command.entry).written) }
    ensures puts { IfOk result (λ made. puts_out made ≡ true) }
    ensures tellable { IfOk result CanBeTold }
{
    let image = read_file(alloc, shelf, command.image, IMAGE_FILE_LIMIT)?;
    let trace = read_file(alloc, shelf, command.trace, MAX_FILE_BYTES)?;
    follow_trace(alloc, image, trace, command)
}

/// The bytes of a file of at most `limit` bytes.
#[tactic(auto, using(crate::proofs::Files::over_limit))]
pub(crate) fn read_file<S: Shelf>(
    alloc: Global,
    shelf: &mut S,
    name: &str,
    limit: u32,
) -> Result<Vec<u8>, Stop>
    ensures files_stay { S.told shelf.new ≡ S.told shelf.old }
    ensures given { IfOk result (λ file. Holds (S.told shelf.old) name.now file.items) }
    ensures within_limit { IfOk result (λ file. length file.items ≤ limit) }
    ensures stopped { MatchResult result (λ _. Unit {0}) (StopsRead (S.told shelf.old) name.now limit) }
    ensures calls { let file : FileRead = record { name = name.now; limit = limit } in
        MatchResult result
        (λ _. (S.failures shelf.new ≡ S.failures shelf.old) × IsWithin (S.told shelf.old) file)
        (StopReads (S.told shelf.old) (file ∷ []) (S.failures shelf.old) (S.failures shelf.new)) }
{
    match shelf.read(alloc, name, limit) {
        Ok(file) => Ok(file),
        Err(ShelfFault::TooBig) => Err(Refusal::TooBig { limit }.into()),
        Err(fault) => Err(Fault::from(fault).into()),
    }
}

/// Makes the events that a trace spells, on the image in a file.
fn follow_trace<'a>(
    alloc: Global,
    image: Vec<u8>,
    trace: Vec<u8>,
    command: ReplayCommand<'a>,
) -> Result<Made<'a>, Stop>
    requires { length image.items ≤ file_limit }
    ensures { let job = replay_meaning command.entry in
        MatchResult result
        (λ made. (follow_refusal image.items trace.items ≡ None)
        × FollowAnswer (besides_replay job) image.items trace.items (answer_of made)
        × MayWrite job.written made × (puts_out made ≡ true) × CanBeTold made)
        (StopsAfter (trace_refusal trace.items) (follow_refusal image.items trace.items)) }
{
    let trace = trace_of(alloc, trace)?;
    let image = image_of(alloc, image, trace.config.harts)?;
    let mut machine = Machine::make(alloc, image, trace.config)?;
    if let Some(difference) = difference_in(&mut machine, &trace) {
        return Ok(Made::Differs(difference));
    }
    Ok(Made::Run {
        machine,
        extras: Extras {
            trace: command.written,
            certified: None,
            times: command.times,
        },
    })
}

/// Makes the events of a trace on a machine, and says at which of them another outcome came than the recorded one,
/// where outcomes are recorded.
fn difference_in(machine: &mut Machine, trace: &Trace) -> Option<Difference>
    requires new { machine.old.entries ≡ [] }
    requires steps { length trace.now.events ≤ left_of machine.old }
    requires harts_exist { All (λ event. event.hart.number < machine.old.config.harts) trace.now.events }
    requires one_each { IfSome (listed trace.now.recorded) (λ recorded. length recorded ≡ length trace.now.events) }
    ensures followed { machine.new ≡ continued machine.old trace.now.events }
    ensures exact { MatchOption result
        (CameAsRecorded (listed trace.now.recorded) (outcomes machine.new.entries))
        (DiffersFrom (listed trace.now.recorded) (outcomes machine.new.entries)) }
{
    let events = trace.events.as_slice();
    match &trace.recorded {
        Some(recorded) => difference_from(machine, events, recorded),
        None => {
            follow(machine, events);
            None
        }
    }
}

/// Makes events on a machine, and says at which of them another outcome came than the recorded one.
fn difference_from(
    machine: &mut Machine,
    events: &[Event],
    recorded: &[Outcome],
) -> Option<Difference>
    requires new { machine.old.entries ≡ [] }
    requires steps { length events.now ≤ left_of machine.old }
    requires harts_exist { All (λ event. event.hart.number < machine.old.config.harts) events.now }
    requires one_each { length recorded.now ≡ length events.now }
    ensures followed { machine.new ≡ continued machine.old events.now }
    ensures exact { MatchOption result
        (recorded.now ≡ outcomes machine.new.entries)
        (IsDifference recorded.now (outcomes machine.new.entries)) }
{
    match follow_recorded(machine, events, recorded) {
        Some(place) => Some(Difference {
            place,
            recorded: recorded[place as usize],
            found: machine.history().entry(place).outcome,
        }),
        None => None,
    }
}

/// The trace that a file spells. The file is given back.
#[tactic(auto, using(crate::proofs::Files::harts_of_trace))]
pub(crate) fn trace_of(alloc: Global, file: Vec<u8>) -> Result<Trace, Stop>
    ensures exact { MatchResult result
        (λ trace. IsTraceOf file.items trace.config trace.events (listed trace.recorded))
        (StopsBy (trace_refusal file.items)) }
    ensures harts { IfOk result (λ trace. (config_at file.items).harts ≡ trace.config.harts) }
{
    Ok(read_trace(alloc, file.as_slice())?)
}

/// The image in a file. The file is given back.
#[tactic(auto, using(elf_image::proofs::Laws::Loading::loaded_harts))]
pub(crate) fn image_of(alloc: Global, file: Vec<u8>, harts: u8) -> Result<Image, Stop>
    requires harts_in_range { (1 ≤ harts) × (harts ≤ 8) }
    requires within_limit { length file.items ≤ file_limit }
    ensures exact { MatchResult result
        (λ image. (fault file.items harts ≡ None) × (image ≡ program_of file.items harts))
        (StopsBy (image_refusal file.items harts)) }
    ensures harts { IfOk result (λ image. image.harts ≡ harts) }
{
    Ok(load(alloc, file.as_slice(), harts)?)
}
