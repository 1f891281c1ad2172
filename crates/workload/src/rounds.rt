//! What each hart does in each kind of workload.

ghost use Rattle.std.specs.Prelude.{◌≡◌, OnOk};
ghost use Rattle.workload.specs.Extent.{GrowsWithin, HasRoom, extent, grown};
ghost use Rattle.workload.specs.Rounds as rounds_of;

use crate::layout::{LOCKS, WORDS};
use crate::mnemonics::addi;
use crate::parts::{
    Taking, add_to_word, again, data_address, draw_line, give_lock, seed, small, take, take_lock,
};
use crate::program::Program;
use crate::registers::Register::{Left, Lock, OtherLock, OtherWord, RoundsLeft, Word};
use crate::work::Work;
use el_base::NoMemory;

/// The rounds of a kind.
pub fn rounds(program: &mut Program, kind: Work) -> Result<(), NoMemory>
    requires { HasRoom (extent program.old) 60 4 }
    ensures size { OnOk result (GrowsWithin (extent program.old) 60 4 (extent program.new)) }
    ensures listed { OnOk result (program.new ≡ rounds_of.rounds kind program.old) }
{
    match kind {
        Work::Counter => counter(program, Taking::BySwap),
        Work::Bank => bank(program),
        Work::Buckets => buckets(program),
        Work::Locks => locks(program),
        Work::Overflow => overflow(program),
        Work::Pairs => counter(program, Taking::ByPair),
    }
}

/// 100 times: take the lock, in one way or the other, and add 1 to the word.
#[tactic(auto, unfolding(crate::specs::Rounds::counter))]
fn counter(program: &mut Program, taking: Taking) -> Result<(), NoMemory>
    requires { HasRoom (extent program.old) 14 2 }
    ensures size { OnOk result (extent program.new ≡ grown (extent program.old) 14 2) }
    ensures listed { OnOk result (program.new ≡ rounds_of.counter taking program.old) }
{
    data_address(program, Lock, LOCKS)?;
    data_address(program, Word, WORDS)?;
    small(program, RoundsLeft, 100)?;
    let round = program.here()?;
    take(program, taking, Lock)?;
    add_to_word(program, Word, 1)?;
    give_lock(program, Lock)?;
    again(program, RoundsLeft, round)
}

/// 200 times: draw two accounts, take the lock, move 1 from the one to the other.
#[tactic(auto, unfolding(crate::specs::Rounds::bank))]
fn bank(program: &mut Program) -> Result<(), NoMemory>
    requires { HasRoom (extent program.old) 47 3 }
    ensures size { OnOk result (extent program.new ≡ grown (extent program.old) 47 3) }
    ensures listed { OnOk result (program.new ≡ rounds_of.bank program.old) }
{
    seed(program)?;
    data_address(program, Lock, LOCKS)?;
    small(program, RoundsLeft, 200)?;
    let round = program.here()?;
    draw_line(program, Word, 63)?;
    program.put(addi(Word, Word, WORDS))?;
    draw_line(program, OtherWord, 63)?;
    program.put(addi(OtherWord, OtherWord, WORDS))?;
    take_lock(program, Lock)?;
    add_to_word(program, Word, -1)?;
    add_to_word(program, OtherWord, 1)?;
    give_lock(program, Lock)?;
    again(program, RoundsLeft, round)
}

/// 200 times: draw a bucket, take its lock, add 1 to it.
#[tactic(auto, unfolding(crate::specs::Rounds::buckets))]
fn buckets(program: &mut Program) -> Result<(), NoMemory>
    requires { HasRoom (extent program.old) 34 3 }
    ensures size { OnOk result (extent program.new ≡ grown (extent program.old) 34 3) }
    ensures listed { OnOk result (program.new ≡ rounds_of.buckets program.old) }
{
    seed(program)?;
    small(program, RoundsLeft, 200)?;
    let round = program.here()?;
    draw_line(program, Word, 15)?;
    program.put(addi(Lock, Word, LOCKS))?;
    program.put(addi(Word, Word, WORDS))?;
    take_lock(program, Lock)?;
    add_to_word(program, Word, 1)?;
    give_lock(program, Lock)?;
    again(program, RoundsLeft, round)
}

/// 100 times: take both locks, add 1 to both words, give the locks back, the later one first.
#[tactic(auto, unfolding(crate::specs::Rounds::locks))]
fn locks(program: &mut Program) -> Result<(), NoMemory>
    requires { HasRoom (extent program.old) 25 3 }
    ensures size { OnOk result (extent program.new ≡ grown (extent program.old) 25 3) }
    ensures listed { OnOk result (program.new ≡ rounds_of.locks program.old) }
{
    data_address(program, Lock, LOCKS)?;
    data_address(program, OtherLock, LOCKS + 64)?;
    data_address(program, Word, WORDS)?;
    data_address(program, OtherWord, WORDS + 64)?;
    small(program, RoundsLeft, 100)?;
    let round = program.here()?;
    take_lock(program, Lock)?;
    take_lock(program, OtherLock)?;
    add_to_word(program, Word, 1)?;
    add_to_word(program, OtherWord, 1)?;
    give_lock(program, OtherLock)?;
    give_lock(program, Lock)?;
    again(program, RoundsLeft, round)
}

/// 20 times: take the lock, add 1 to each of the words.
#[tactic(auto, unfolding(crate::specs::Rounds::overflow))]
fn overflow(program: &mut Program) -> Result<(), NoMemory>
    requires { HasRoom (extent program.old) 18 3 }
    ensures size { OnOk result (extent program.new ≡ grown (extent program.old) 18 3) }
    ensures listed { OnOk result (program.new ≡ rounds_of.overflow program.old) }
{
    data_address(program, Lock, LOCKS)?;
    small(program, RoundsLeft, 20)?;
    let round = program.here()?;
    take_lock(program, Lock)?;
    data_address(program, Word, WORDS)?;
    small(program, Left, 20)?;
    let next = program.here()?;
    add_to_word(program, Word, 1)?;
    program.put(addi(Word, Word, 64))?;
    again(program, Left, next)?;
    give_lock(program, Lock)?;
    again(program, RoundsLeft, round)
}
