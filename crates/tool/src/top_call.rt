//! The top call.
ghost use Rattle.std.specs.Prelude.{◌≡◌, true};
ghost use Rattle.command_line.specs.Words.{job_of, names_command, texts};
ghost use Rattle.tool.specs.Causes.{Caused, calls_of, puts_of, reads_of};
ghost use Rattle.tool.specs.Comes.{Comes};
ghost use Rattle.tool.specs.Faults.{Faulted};
ghost use Rattle.tool.specs.Jobs.{IsAnswer};
ghost use Rattle.tool.specs.Statuses.{status_of};

use crate::doing::obey;
use crate::status::Status;
use crate::stop::{Fault, Stop};
use crate::telling::{tell, tell_refusal};
use el_io::{Gate, Shelf, Sink};
use std::alloc::Global;
use std::sync::Wait;
use std::thread::Threads;

/// Does what the words ask for, over the shelf's files, and puts what there is to say to `out` and
/// `err`. The words are those after the program's name.
///
/// With a status other than the two faults, exactly one answer was put and written: the one to the
/// words over the contents that the shelf tells. A fault of a device comes exactly where, in this
/// call, one call of a device failed: one of the shelf that the words ask for, one of err, or, where
/// the words ask for a run or a replay, one of out. What was put and written then ends at that call:
/// behind a failed read there is nothing, and each file that is read before it is within its limit; an answer
/// is cut off in out, at the write of its file or in err. Out of memory comes only where the first word
/// names a command, and never in place of a refusal that was found. After it there is nothing, or the
/// beginning of an answer's output.
///
/// Where drivers on threads are asked for, each passes `gate` before each of its turns, and the call may wait.
/// Without them it starts no thread and waits for nothing.
pub fn tool<R: Threads + Wait + Sync, S: Shelf, O: Sink, E: Sink, G: Gate + Sync>(
    runtime: &R,
    alloc: Global,
    words: &[String],
    shelf: &mut S,
    out: &mut O,
    err: &mut E,
    gate: &G,
) -> Status
    ensures exact { Comes (IsAnswer (texts words.now) (S.told shelf.old)) result
        (record { out = O.taken out.old; err = E.taken err.old; files = S.told shelf.old })
        (record { out = O.taken out.new; err = E.taken err.new; files = S.told shelf.new }) }
    ensures cause { Caused (calls_of (job_of (texts words.now))) (puts_of (job_of (texts words.now))) result
        (record { shelf = S.failures shelf.old; out = O.faults out.old; err = E.faults err.old })
        (record { shelf = S.failures shelf.new; out = O.faults out.new; err = E.faults err.new }) }
    ensures fault { Faulted (reads_of (job_of (texts words.now))) (IsAnswer (texts words.now) (S.told shelf.old)) result
        (record { shelf = S.failures shelf.old; out = O.faults out.old; err = E.faults err.old })
        (record { shelf = S.failures shelf.new; out = O.faults out.new; err = E.faults err.new })
        (record { out = O.taken out.old; err = E.taken err.old; files = S.told shelf.old })
        (record { out = O.taken out.new; err = E.taken err.new; files = S.told shelf.new }) }
    ensures memory { result ≡ Status.NoMemory → names_command (texts words.now) ≡ true }
{
    match answer(runtime, alloc, words, shelf, out, err, gate) {
        Ok(status) => status,
        Err(fault) => fault.into(),
    }
}

/// Answers the words: with what they ask for, or with the line of their refusal.
#[tactic(auto, using(crate::proofs::Failing::reads_are_calls, crate::proofs::Failing::faulted_by))]
fn answer<R: Threads + Wait + Sync, S: Shelf, O: Sink, E: Sink, G: Gate + Sync>(
    runtime: &R,
    alloc: Global,
    words: &[String],
    shelf: &mut S,
    out: &mut O,
    err: &mut E,
    gate: &G,
) -> Result<Status, Fault>
    ensures exact { Comes (IsAnswer (texts words.now) (S.told shelf.old)) (status_of result)
        (record { out = O.taken out.old; err = E.taken err.old; files = S.told shelf.old })
        (record { out = O.taken out.new; err = E.taken err.new; files = S.told shelf.new }) }
    ensures cause { Caused (calls_of (job_of (texts words.now))) (puts_of (job_of (texts words.now))) (status_of result)
        (record { shelf = S.failures shelf.old; out = O.faults out.old; err = E.faults err.old })
        (record { shelf = S.failures shelf.new; out = O.faults out.new; err = E.faults err.new }) }
    ensures fault { Faulted (reads_of (job_of (texts words.now))) (IsAnswer (texts words.now) (S.told shelf.old)) (status_of result)
        (record { shelf = S.failures shelf.old; out = O.faults out.old; err = E.faults err.old })
        (record { shelf = S.failures shelf.new; out = O.faults out.new; err = E.faults err.new })
        (record { out = O.taken out.old; err = E.taken err.old; files = S.told shelf.old })
        (record { out = O.taken out.new; err = E.taken err.new; files = S.told shelf.new }) }
    ensures memory { status_of result ≡ Status.NoMemory → names_command (texts words.now) ≡ true }
{
    match obey(runtime, alloc, words, shelf, gate) {
        Ok(made) => tell(alloc, made, shelf, out, err),
        Err(Stop::Refused(refusal)) => Ok(tell_refusal(refusal, err)?),
        Err(Stop::Failed(fault)) => Err(fault),
    }
}
