//! Outcomes as bytes.

ghost use Rattle.std.specs.Prelude.{◌≡◌, ℕ, ◌+◌, ◌<◌, ◌≤◌, ◌++◌, ◌∷◌, [], length, take};
ghost use Rattle.el_base.specs.Freed.{count_in};
ghost use Rattle.el_base.specs.Losers.{beaten_by, winner_code};
ghost use Rattle.el_base.specs.NibblePairs.{pair_of};
ghost use Rattle.trace_file.specs.Outcomes.{freed_bytes, losers_bytes, missed_code, outcome_spelling};

use crate::codes::{cause_code, why_code};
use el_base::{Freed, HartId, Losers, Need, Outcome};
use std::marker::Model;

/// The most bytes of an outcome.
const MAX_OUTCOME_BYTES: usize = 9;

/// The bytes of an outcome, as a trace has them: 1 to 9. It takes no memory.
#[derive(Debug, Drop)]
pub struct SpelledOutcome {
    bytes: [u8; MAX_OUTCOME_BYTES],
    length: u8,
}

impl Model for SpelledOutcome {
    ghost use Rattle.std.specs.Prelude.{List, ℕ, ◌≤◌, take};

    ghost Value = { List ℕ };

    ghost view = { λ spelled. take spelled.length spelled.bytes };

    ghost invariant = { λ spelled. spelled.length ≤ 9 };
}

impl SpelledOutcome {
    /// The bytes, the code of the outcome first.
    pub fn as_bytes(&self) -> &[u8]
        ensures exact { result.now ≡ self.now }
        ensures few { length result.now ≤ 9 }
    {
        &self.bytes[..self.length as usize]
    }

    fn of_code(code: u8) -> SpelledOutcome
        ensures { result ≡ code ∷ [] }
    {
        SpelledOutcome {
            bytes: [code, 0, 0, 0, 0, 0, 0, 0, 0],
            length: 1,
        }
    }

    fn with_byte(code: u8, byte: u8) -> SpelledOutcome
        ensures { result ≡ code ∷ byte ∷ [] }
    {
        SpelledOutcome {
            bytes: [code, byte, 0, 0, 0, 0, 0, 0, 0],
            length: 2,
        }
    }

    fn with_four(code: u8, four: [u8; 4]) -> SpelledOutcome
        ensures { result ≡ code ∷ four }
    {
        let [a, b, c, d] = four;
        SpelledOutcome {
            bytes: [code, a, b, c, d, 0, 0, 0, 0],
            length: 5,
        }
    }

    fn with_eight(code: u8, front: [u8; 4], back: [u8; 4]) -> SpelledOutcome
        ensures { result ≡ code ∷ front ++ back }
    {
        let [a, b, c, d] = front;
        let [e, f, g, h] = back;
        SpelledOutcome {
            bytes: [code, a, b, c, d, e, f, g, h],
            length: 9,
        }
    }
}

/// The code of the outcome of a trace of version 2, and its fields, numbers with the lowest byte first.
pub fn outcome_spelling(outcome: Outcome) -> SpelledOutcome
    ensures { result ≡ outcome_spelling outcome }
{
    match outcome {
        Outcome::Idle => SpelledOutcome::of_code(0),
        Outcome::Stalled => SpelledOutcome::of_code(1),
        Outcome::Missed { line, need } => {
            SpelledOutcome::with_four(missed_code(need), line.number.to_le_bytes())
        }
        Outcome::Ran => SpelledOutcome::of_code(4),
        Outcome::Began => SpelledOutcome::of_code(5),
        Outcome::Buffered => SpelledOutcome::of_code(6),
        Outcome::Committed { count } => SpelledOutcome::with_four(7, count.to_le_bytes()),
        Outcome::RolledBack { cause } => SpelledOutcome::with_byte(8, cause_code(cause)),
        Outcome::Ordered { losers, freed } => {
            SpelledOutcome::with_eight(9, losers_bytes(losers), freed_bytes(freed))
        }
        Outcome::Served { losers, freed } => {
            SpelledOutcome::with_eight(10, losers_bytes(losers), freed_bytes(freed))
        }
        Outcome::Blocked { why, by } => {
            SpelledOutcome::with_byte(11, 16 * why_code(why) + by.number)
        }
        Outcome::Delivered { losers } => SpelledOutcome::with_four(12, losers_bytes(losers)),
        Outcome::Armed => SpelledOutcome::of_code(13),
        Outcome::LetGo { count } => SpelledOutcome::with_byte(14, (count % 256) as u8),
    }
}

fn missed_code(need: Need) -> u8
    ensures { result ≡ missed_code need }
{
    match need {
        Need::Read => 2,
        Need::Write => 3,
    }
}

/// One more than the number of the hart's winner, or 0 where the hart has not lost.
fn winner_code(losers: Losers, hart: usize) -> u8
    requires { hart < 8 }
    ensures exact { result ≡ winner_code (beaten_by losers hart) }
    ensures small { result ≤ 8 }
{
    match losers.winner_of(HartId::at(hart)) {
        None => 0,
        Some(winner) => winner.number + 1,
    }
}

fn pair_of(low: u8, high: u8) -> u8
    requires low { low ≤ 15 }
    requires high { high ≤ 15 }
    ensures { result ≡ pair_of low high }
{
    low + 16 * high
}

fn losers_bytes(losers: Losers) -> [u8; 4]
    ensures { result ≡ losers_bytes losers }
{
    [
        pair_of(winner_code(losers, 0), winner_code(losers, 1)),
        pair_of(winner_code(losers, 2), winner_code(losers, 3)),
        pair_of(winner_code(losers, 4), winner_code(losers, 5)),
        pair_of(winner_code(losers, 6), winner_code(losers, 7)),
    ]
}

fn count_of(freed: Freed, hart: usize) -> u8
    requires { hart < 8 }
    ensures exact { result ≡ count_in freed hart }
    ensures small { result ≤ 15 }
{
    freed.count_of(HartId::at(hart))
}

fn freed_bytes(freed: Freed) -> [u8; 4]
    ensures { result ≡ freed_bytes freed }
{
    [
        pair_of(count_of(freed, 0), count_of(freed, 1)),
        pair_of(count_of(freed, 2), count_of(freed, 3)),
        pair_of(count_of(freed, 4), count_of(freed, 5)),
        pair_of(count_of(freed, 6), count_of(freed, 7)),
    ]
}
