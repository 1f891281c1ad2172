//! What the words mean.

ghost use Rattle.std.specs.Prelude.{◌≡◌, ℕ, List, None, Some, true, IfOk, option_map};
ghost use Rattle.el_base.specs.Modes.{mode_of};
ghost use Rattle.command_line.specs.Simple.{HasFields};
ghost use Rattle.command_line.specs.Words.{are_apart, check_form, check_of, find_form, finding_of, gen_form, gen_of, is_traced, job_of, kind_of};
ghost use Rattle.command_line.specs.Words.{look_form, looking_of, meaning, names_command, optional, replay_form, replay_of, run_form, run_meaning};
ghost use Rattle.command_line.specs.Words.{run_of, texts, turns_of};
ghost use Rattle.command_line.specs.Numbers.{number_of};

use crate::command::{Command, FindCommand, LookCommand, MAX_TURNS, ReplayCommand, RunCommand};
use crate::fault::WordsFault;
use crate::form::{CHECK, FIND, GEN, LOOK, REPLAY, RUN};
use crate::matching::Given;
use crate::numbers::read_number;
use el_base::Mode;
use std::alloc::Global;
use workload::Work;

/// The command of these words, which are those after the program's name. The answer is `Usage`
/// exactly where they are no command line; out of memory comes only where the first of them names a command.
pub fn read_words(alloc: Global, words: &[String]) -> Result<Command<'_>, WordsFault>
    ensures accepted { IfOk result (λ command. job_of (texts words.now) ≡ Some (meaning command)) }
    ensures refused { result ≡ Err WordsFault.Usage → job_of (texts words.now) ≡ None }
    ensures named { IfOk result (λ _. names_command (texts words.now) ≡ true) }
    ensures memory_for_commands { result ≡ Err WordsFault.NoMemory → names_command (texts words.now) ≡ true }
{
    let Some((name, words)) = words.split_first() else {
        return Err(WordsFault::Usage);
    };
    match name.as_str() {
        "run" => read_run(alloc, words),
        "replay" => read_replay(alloc, words),
        "look" => read_look(alloc, words),
        "find" => read_find(alloc, words),
        "check" => read_check(alloc, words),
        "gen" => read_gen(alloc, words),
        _ => Err(WordsFault::Usage),
    }
}

fn read_run(alloc: Global, words: &[String]) -> Result<Command<'_>, WordsFault>
    ensures accepted { IfOk result (λ command. run_of (texts words.now) ≡ Some (meaning command)) }
    ensures refused { result ≡ Err WordsFault.Usage → run_of (texts words.now) ≡ None }
{
    let given = Given::by_form(alloc, RUN, words)?;
    run_in(&given).ok_or(WordsFault::Usage)
}

fn run_in<'a>(given: &Given<'a>) -> Option<Command<'a>>
    ensures { (words : List (List ℕ)) → HasFields run_form words given.now → option_map meaning result ≡ run_of words }
{
    let command = RunCommand {
        image: given.value("image")?,
        mode: optional_mode(given.value("mode"))?,
        harts: optional_number(given.value("harts"))?,
        sets: optional_number(given.value("sets"))?,
        ways: optional_number(given.value("ways"))?,
        lines: optional_number(given.value("lines"))?,
        long: optional_number(given.value("long"))?,
        steps: optional_number(given.value("steps"))?,
        threads: optional_turns(given.value("threads"))?,
        trace: given.value("trace"),
        certificate: given.value("cert"),
        times: given.flag("times"),
    };
    if command.is_traced() && are_apart(command.trace, command.certificate) {
        Some(Command::Run(command))
    } else {
        None
    }
}

impl RunCommand<'_> {
    /// Whether there is a trace where drivers are asked for, since it alone tells what they did.
    fn is_traced(self) -> bool
        ensures { result ≡ is_traced (run_meaning self.entry) }
    {
        self.threads.is_none() || self.trace.is_some()
    }
}

/// Whether no file would have two contents.
fn are_apart(one: Option<&str>, other: Option<&str>) -> bool
    ensures { result ≡ are_apart (option_map (λ name. name.now) one.entry) (option_map (λ name. name.now) other.entry) }
{
    match (one, other) {
        (Some(one), Some(other)) => one != other,
        _ => true,
    }
}

fn read_replay(alloc: Global, words: &[String]) -> Result<Command<'_>, WordsFault>
    ensures accepted { IfOk result (λ command. replay_of (texts words.now) ≡ Some (meaning command)) }
    ensures refused { result ≡ Err WordsFault.Usage → replay_of (texts words.now) ≡ None }
{
    let given = Given::by_form(alloc, REPLAY, words)?;
    replay_in(&given).ok_or(WordsFault::Usage)
}

fn replay_in<'a>(given: &Given<'a>) -> Option<Command<'a>>
    ensures { (words : List (List ℕ)) → HasFields replay_form words given.now → option_map meaning result ≡ replay_of words }
{
    Some(Command::Replay(ReplayCommand {
        image: given.value("image")?,
        trace: given.value("recorded")?,
        written: given.value("trace"),
        times: given.flag("times"),
    }))
}

fn read_look(alloc: Global, words: &[String]) -> Result<Command<'_>, WordsFault>
    ensures accepted { IfOk result (λ command. looking_of (texts words.now) ≡ Some (meaning command)) }
    ensures refused { result ≡ Err WordsFault.Usage → looking_of (texts words.now) ≡ None }
{
    let given = Given::by_form(alloc, LOOK, words)?;
    look_in(&given).ok_or(WordsFault::Usage)
}

fn look_in<'a>(given: &Given<'a>) -> Option<Command<'a>>
    ensures { (words : List (List ℕ)) → HasFields look_form words given.now → option_map meaning result ≡ looking_of words }
{
    Some(Command::Look(LookCommand {
        image: given.value("image")?,
        trace: given.value("trace")?,
        place: read_number(given.value("place")?)?,
        back: optional_number(given.value("back"))?.unwrap_or(0),
    }))
}

fn read_find(alloc: Global, words: &[String]) -> Result<Command<'_>, WordsFault>
    ensures accepted { IfOk result (λ command. finding_of (texts words.now) ≡ Some (meaning command)) }
    ensures refused { result ≡ Err WordsFault.Usage → finding_of (texts words.now) ≡ None }
{
    let given = Given::by_form(alloc, FIND, words)?;
    find_in(&given).ok_or(WordsFault::Usage)
}

fn find_in<'a>(given: &Given<'a>) -> Option<Command<'a>>
    ensures { (words : List (List ℕ)) → HasFields find_form words given.now → option_map meaning result ≡ finding_of words }
{
    Some(Command::Find(FindCommand {
        image: given.value("image")?,
        trace: given.value("trace")?,
        hart: read_number(given.value("hart")?)?,
        pc: read_number(given.value("pc")?)?,
    }))
}

fn read_check(alloc: Global, words: &[String]) -> Result<Command<'_>, WordsFault>
    ensures accepted { IfOk result (λ command. check_of (texts words.now) ≡ Some (meaning command)) }
    ensures refused { result ≡ Err WordsFault.Usage → check_of (texts words.now) ≡ None }
{
    let given = Given::by_form(alloc, CHECK, words)?;
    check_in(&given).ok_or(WordsFault::Usage)
}

fn check_in<'a>(given: &Given<'a>) -> Option<Command<'a>>
    ensures { (words : List (List ℕ)) → HasFields check_form words given.now → option_map meaning result ≡ check_of words }
{
    Some(Command::Check {
        image: given.value("image")?,
        certificate: given.value("cert")?,
    })
}

fn read_gen(alloc: Global, words: &[String]) -> Result<Command<'_>, WordsFault>
    ensures accepted { IfOk result (λ command. gen_of (texts words.now) ≡ Some (meaning command)) }
    ensures refused { result ≡ Err WordsFault.Usage → gen_of (texts words.now) ≡ None }
{
    let given = Given::by_form(alloc, GEN, words)?;
    gen_in(&given).ok_or(WordsFault::Usage)
}

fn gen_in<'a>(given: &Given<'a>) -> Option<Command<'a>>
    ensures { (words : List (List ℕ)) → HasFields gen_form words given.now → option_map meaning result ≡ gen_of words }
{
    Some(Command::Gen {
        kind: read_kind(given.value("kind")?)?,
        number: read_number(given.value("number")?)?,
        file: given.value("file")?,
    })
}

/// The number of an option, where it is given.
fn optional_number(word: Option<&str>) -> Option<Option<u32>>
    ensures { result ≡ optional number_of (option_map (λ word. word.now) word.entry) }
{
    match word {
        Some(word) => Some(Some(read_number(word)?)),
        None => Some(None),
    }
}

/// The turns of each driver, where they are given.
fn optional_turns(word: Option<&str>) -> Option<Option<u32>>
    ensures { result ≡ optional turns_of (option_map (λ word. word.now) word.entry) }
{
    match word {
        Some(word) => Some(Some(read_turns(word)?)),
        None => Some(None),
    }
}

fn read_turns(word: &str) -> Option<u32>
    ensures { result ≡ turns_of word.now }
{
    let turns = read_number(word)?;
    if (1..=MAX_TURNS).contains(&turns) {
        Some(turns)
    } else {
        None
    }
}

/// The mode of an option, where it is given.
fn optional_mode(word: Option<&str>) -> Option<Option<Mode>>
    ensures { result ≡ optional mode_of (option_map (λ word. word.now) word.entry) }
{
    match word {
        Some(word) => Some(Some(Mode::with_word(word)?)),
        None => Some(None),
    }
}

fn read_kind(word: &str) -> Option<Work>
    ensures { result ≡ kind_of word.now }
{
    match word {
        "counter" => Some(Work::Counter),
        "bank" => Some(Work::Bank),
        "buckets" => Some(Work::Buckets),
        "locks" => Some(Work::Locks),
        "overflow" => Some(Work::Overflow),
        "pairs" => Some(Work::Pairs),
        _ => None,
    }
}
