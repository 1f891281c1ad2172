//! What `look` and `find` do before anything is put: they make a timeline of a trace.
ghost use Rattle.std.specs.Prelude.{◌≡◌, ◌<◌, ◌≤◌, ◌-◌, ◌∷◌, [], All, IfOk, MatchResult, None, Some, true, length};
ghost use Rattle.command_line.specs.Words.{find_meaning, look_meaning};
ghost use Rattle.el_base.specs.Config.{IsInRange};
ghost use Rattle.el_model.specs.Next.{entries_from};
ghost use Rattle.el_model.specs.State.{begin};
ghost use Rattle.elf_image.specs.Limits.{file_limit};
ghost use Rattle.tool.specs.Answer.{CanBeTold, answer_of};
ghost use Rattle.tool.specs.Causes.{StopReads, image_read, puts_out, trace_read, writes_of};
ghost use Rattle.tool.specs.Jobs.{IsFindAnswer, IsLookAnswer, PlaceAnswer, PlacesAnswer};
ghost use Rattle.tool.specs.Refusals.{hart_refusal, place_refusal, trace_refusal};
ghost use Rattle.tool.specs.Stopping.{StopsAfter, StopsWith, hart_stop, place_stop};

use crate::doing::{image_of, read_file, trace_of};
use crate::made::Made;
use crate::refusal::Refusal;
use crate::stop::Stop;
use command_line::{FindCommand, LookCommand};
use el_base::{HartId, NoMemory};
use el_io::Shelf;
use elf_image::{IMAGE_FILE_LIMIT, Image};
use std::alloc::Global;
use step_back::Timeline;
use trace_file::{MAX_FILE_BYTES, Trace};

/// Shows a place of a trace.
#[tactic(auto, using(crate::proofs::Timelines::image_not_looked_at))]
pub(crate) fn look<'a, S: Shelf>(
    alloc: Global,
    shelf: &mut S,
    command: LookCommand<'a>,
) -> Result<Made<'a>, Stop>
    ensures files_stay { S.told shelf.new ≡ S.told shelf.old }
    ensures answers { let Answers = IsLookAnswer (look_meaning command.entry) (S.told shelf.old) in
        MatchResult result (λ made. Answers (answer_of made)) (StopsWith Answers) }
    ensures calls { let job = look_meaning command.entry in
        let reads = image_read job.image ∷ trace_read job.trace ∷ [] in
        MatchResult result
        (λ _. S.failures shelf.new ≡ S.failures shelf.old)
        (StopReads (S.told shelf.old) reads (S.failures shelf.old) (S.failures shelf.new)) }
    ensures writes { IfOk result (λ made. writes_of made ≡ []) }
    ensures puts { IfOk result (λ made. puts_out made ≡ true) }
    ensures tellable { IfOk result CanBeTold }
{
    let image = read_file(alloc, shelf, command.image, IMAGE_FILE_LIMIT)?;
    let trace = read_file(alloc, shelf, command.trace, MAX_FILE_BYTES)?;
    look_in_files(alloc, image, trace, command)
}

/// Finds where in a trace a hart comes to a pc.
#[tactic(auto, using(crate::proofs::Timelines::image_not_sought_in))]
pub(crate) fn find<'a, S: Shelf>(
    alloc: Global,
    shelf: &mut S,
    command: FindCommand<'a>,
) -> Result<Made<'a>, Stop>
    ensures files_stay { S.told shelf.new ≡ S.told shelf.old }
    ensures answers { let Answers = IsFindAnswer (find_meaning command.entry) (S.told shelf.old) in
        MatchResult result (λ made. Answers (answer_of made)) (StopsWith Answers) }
    ensures calls { let job = find_meaning command.entry in
        let reads = image_read job.image ∷ trace_read job.trace ∷ [] in
        MatchResult result
        (λ _. S.failures shelf.new ≡ S.failures shelf.old)
        (StopReads (S.told shelf.old) reads (S.failures shelf.old) (S.failures shelf.new)) }
    ensures writes { IfOk result (λ made. writes_of made ≡ []) }
    ensures puts { IfOk result (λ made. puts_out made ≡ true) }
    ensures tellable { IfOk result CanBeTold }
{
    let image = read_file(alloc, shelf, command.image, IMAGE_FILE_LIMIT)?;
    let trace = read_file(alloc, shelf, command.trace, MAX_FILE_BYTES)?;
    find_in_files(alloc, image, trace, command)
}

/// Goes to a place of the trace in a file, on the image in another, and then so many places back.
#[tactic(auto, using(crate::proofs::Timelines::events_counted))]
fn look_in_files<'a>(
    alloc: Global,
    image: Vec<u8>,
    trace: Vec<u8>,
    command: LookCommand<'a>,
) -> Result<Made<'a>, Stop>
    requires { length image.items ≤ file_limit }
    ensures { let job = look_meaning command.entry in
        MatchResult result
        (λ made. (place_stop job image.items trace.items ≡ None)
        × PlaceAnswer job image.items trace.items (answer_of made)
        × (writes_of made ≡ []) × (puts_out made ≡ true) × CanBeTold made)
        (StopsAfter (trace_refusal trace.items) (place_stop job image.items trace.items)) }
{
    let trace = trace_of(alloc, trace)?;
    let image = image_of(alloc, image, trace.config.harts)?;
    let place = place_asked(command, trace.events.as_slice().len() as u32)?;
    Ok(Made::Place(timeline_at(alloc, image, &trace, place)?))
}

/// The place that is asked for in a trace of so many events.
#[tactic(auto, unfolding(crate::specs::Refusals::place_refusal))]
fn place_asked(command: LookCommand<'_>, events: u32) -> Result<u32, Refusal>
    ensures exact { let job = look_meaning command.entry in
        MatchResult result
        (λ place. (place_refusal job events ≡ None) × (place ≡ job.place - job.back) × (place ≤ events))
        (λ refusal. place_refusal job events ≡ Some refusal) }
{
    let LookCommand { place, back, .. } = command;
    if place > events {
        Err(Refusal::PlaceOverEnd { events })
    } else if back > place {
        Err(Refusal::BackOverStart { place })
    } else {
        Ok(place - back)
    }
}

/// A timeline of a trace that stands at a place.
#[tactic(auto, using(crate::proofs::Timelines::as_many_entries))]
fn timeline_at(alloc: Global, image: Image, trace: &Trace, place: u32) -> Result<Timeline, NoMemory>
    requires in_range { IsInRange trace.now.config }
    requires one_hart_each { image.harts ≡ trace.now.config.harts }
    requires enough_steps { length trace.now.events ≤ trace.now.config.steps }
    requires harts_exist { All (λ event. event.hart.number < trace.now.config.harts) trace.now.events }
    requires place { place ≤ length trace.now.events }
    ensures { IfOk result (λ timeline. timeline ≡ record {
      program = image;
      entries = entries_from (begin image trace.now.config) trace.now.events;
      place = place;
    }) }
{
    let mut timeline = Timeline::make(alloc, image, trace)?;
    timeline.seek(place);
    Ok(timeline)
}

/// Makes a timeline of the trace in a file, on the image in another, in which a hart is sought.
fn find_in_files<'a>(
    alloc: Global,
    image: Vec<u8>,
    trace: Vec<u8>,
    command: FindCommand<'a>,
) -> Result<Made<'a>, Stop>
    requires { length image.items ≤ file_limit }
    ensures { let job = find_meaning command.entry in
        MatchResult result
        (λ made. (hart_stop job image.items trace.items ≡ None)
        × PlacesAnswer job image.items trace.items (answer_of made)
        × (writes_of made ≡ []) × (puts_out made ≡ true) × CanBeTold made)
        (StopsAfter (trace_refusal trace.items) (hart_stop job image.items trace.items)) }
{
    let trace = trace_of(alloc, trace)?;
    let image = image_of(alloc, image, trace.config.harts)?;
    let hart = hart_asked(command, trace.config.harts)?;
    Ok(Made::Sought {
        timeline: Timeline::make(alloc, image, &trace)?,
        hart,
        pc: command.pc,
    })
}

/// The hart that is sought in a trace of so many harts.
#[tactic(auto, unfolding(crate::specs::Refusals::hart_refusal))]
fn hart_asked(command: FindCommand<'_>, harts: u8) -> Result<HartId, Refusal>
    requires few { harts ≤ 8 }
    ensures exact { let job = find_meaning command.entry in
        MatchResult result
        (λ hart. (hart_refusal job harts ≡ None) × (hart.number ≡ job.hart) × (hart.number < harts))
        (λ refusal. hart_refusal job harts ≡ Some refusal) }
{
    if command.hart < u32::from(harts) {
        Ok(HartId::at(command.hart as usize))
    } else {
        Err(Refusal::NoSuchHart)
    }
}
