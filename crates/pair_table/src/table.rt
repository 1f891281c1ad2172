ghost use Rattle.std.specs.Prelude.{◌≡◌, ◌<◌, ◌≤◌, None, IfSome};
ghost use Rattle.std.specs.Option.{option_map};
ghost use Rattle.pair_table.specs.Predictor.{
  confidence_of,
  counted,
  counter_number,
  judged,
  saw_of,
  saw_verdict,
  settled,
  unseen,
  unwatched,
  verdict_on,
  watching,
};

use crate::seen::Seen;
use crate::verdict::Verdict;
use std::marker::Model;

/// How many counters a table has.
const COUNTERS: usize = 64;

/// The counter of a place that nothing was learnt of.
const FIRST: u8 = 2;

/// The greatest counter.
const MOST: u8 = 3;

/// An acquire whose release is waited for, and how many instructions were counted since.
#[derive(Clone, Copy, Debug, PartialEq, Eq)]
struct Candidate {
    pc: u32,
    word: u32,
    old: u32,
    count: u32,
}

/// The predictor of one hart: 64 counters from 0 to 3, which all places in the program share, and at
/// most one watch of an acquire that ran.
#[derive(Clone, Debug, Drop)]
pub struct PairTable {
    counters: [u8; COUNTERS],
    watch: Option<Candidate>,
}

impl Model for PairTable {
    ghost use Rattle.std.specs.Prelude.{ℕ, ◌≡◌, ◌<◌, ◌≤◌, length, slice_index};
    ghost use Rattle.std.specs.Option.{option_map};
    ghost use Rattle.pair_table.specs.Predictor.{Predictor};

    ghost Value = { Predictor };

    ghost view = { λ s. record {
      counters = s.counters;
      watch = option_map (λ watch. record {
        pc = watch.pc;
        word = watch.word;
        old = watch.old;
        count = watch.count;
      }) s.watch;
    } };

    ghost invariant = { λ s.
        (length s.counters ≡ 64) × ((number : ℕ) → number < 64 → slice_index s.counters number ≤ 3) };
}

impl PairTable {
    /// A table of which every counter is 2 and that watches nothing.
    pub fn new() -> PairTable
        ensures { result ≡ unseen }
    {
        PairTable {
            counters: [FIRST; COUNTERS],
            watch: None,
        }
    }

    /// How far the place at `pc` is trusted, from 0 to 3.
    pub fn confidence(&self, pc: u32) -> u8
        ensures exact { result ≡ confidence_of self.now pc }
        ensures small { result ≤ 3 }
    {
        self.counters[number_of(pc)]
    }

    /// Learns a verdict on the acquire at `pc`.
    pub fn settle(&mut self, pc: u32, verdict: Verdict)
        ensures { self.new ≡ settled self.old pc verdict }
    {
        let number = number_of(pc);
        self.counters[number] = after(verdict, self.counters[number]);
    }

    /// Watches an acquire that ran at `pc`: it stored to the word at `word`, whose value was `old`.
    pub fn watch(&mut self, pc: u32, word: u32, old: u32)
        requires nothing_watched { self.old.watch ≡ None }
        ensures { self.new ≡ watching self.old pc word old }
    {
        self.watch = Some(Candidate {
            pc,
            word,
            old,
            count: 1,
        });
    }

    /// Counts one more instruction that ran outside of a section, where an acquire is watched, and
    /// learns what it says of it: `long` is how many instructions a section may have. The count stands
    /// still at 2³² - 1. `None` where no acquire is watched and where this instruction does not settle
    /// it. An acquire that is settled is watched no more.
    pub fn saw(&mut self, seen: Seen, long: u32) -> Option<Verdict>
        ensures verdict { result ≡ saw_verdict self.old.watch seen long }
        ensures exact { self.new ≡ saw_of self.old seen long }
        ensures settled_is_gone { IfSome self.old.watch (λ watch. IfSome result (λ verdict.
            self.new ≡ unwatched (settled self.old watch.pc verdict))) }
    {
        let mut watch = self.watch?;
        watch.count = watch.count.saturating_add(1);
        let verdict = judge(seen, long, watch.count);
        self.conclude(watch, verdict);
        verdict
    }

    /// Ends the watch, if there is one, and learns nothing from it.
    pub fn unwatch(&mut self)
        ensures { self.new ≡ unwatched self.old }
    {
        self.watch = None;
    }

    /// The address of the word that the watched acquire stored to, and the value that it had before.
    pub fn watched(&self) -> Option<(u32, u32)>
        ensures { result ≡ option_map (λ watch. (watch.word, watch.old)) self.now.watch }
    {
        self.watch.map(|watch| (watch.word, watch.old))
    }

    /// Learns the verdict on a watch, if there is one, and goes on watching if there is none.
    fn conclude(&mut self, watch: Candidate, verdict: Option<Verdict>)
        ensures { self.new ≡ judged self.old
            (record { pc = watch.pc; word = watch.word; old = watch.old; count = watch.count }) verdict }
    {
        match verdict {
            Some(verdict) => {
                self.settle(watch.pc, verdict);
                self.unwatch();
            }
            None => self.watch = Some(watch),
        }
    }
}

/// The number of the counter of a place.
fn number_of(pc: u32) -> usize
    ensures exact { result ≡ counter_number pc }
    ensures small { result < 64 }
{
    pc as usize / 4 % COUNTERS
}

/// A counter after a verdict. It does not leave its range.
fn after(verdict: Verdict, counter: u8) -> u8
    requires { counter ≤ 3 }
    ensures exact { result ≡ counted verdict counter }
    ensures small { result ≤ 3 }
{
    match verdict {
        Verdict::Up => (counter + 1).min(MOST),
        Verdict::Down => counter.saturating_sub(1),
    }
}

/// What an instruction, which was the `count`th since the acquire, says of it.
fn judge(seen: Seen, long: u32, count: u32) -> Option<Verdict>
    ensures { result ≡ verdict_on seen long count }
{
    if seen.release {
        Some(Verdict::Up)
    } else if seen.touches || seen.call_or_stop || count == long {
        Some(Verdict::Down)
    } else {
        None
    }
}
