//! What came of an event, in the words of a run's text.

use el_base::{Freed, HartId, Losers, MAX_HARTS, Outcome};
use std::alloc::{AllocError, Global};

/// An outcome as a run's text has it: a list of its name and its numbers, without spaces. A run that `tells_freed` has
/// a list of the harts that were let go where it has losers, and an empty one where it does not.
pub fn told(alloc: Global, outcome: Outcome, tells_freed: bool) -> Result<String, AllocError> {
    match outcome {
        Outcome::Missed { line, need } => {
            let number = line.number;
            format!(in alloc; "[\"Missed\",{number},\"{need:?}\"]")
        }
        Outcome::Committed { count } => format!(in alloc; "[\"Committed\",{count}]"),
        Outcome::RolledBack { cause } => format!(in alloc; "[\"RolledBack\",\"{cause:?}\"]"),
        Outcome::Blocked { why, by } => {
            let number = by.number;
            format!(in alloc; "[\"Blocked\",\"{why:?}\",{number}]")
        }
        Outcome::LetGo { count } => format!(in alloc; "[\"LetGo\",{count}]"),
        Outcome::Ordered { losers, freed } => {
            with_freed(alloc, "Ordered", losers, freed, tells_freed)
        }
        Outcome::Served { losers, freed } => with_freed(
            alloc,
            "Served",
            losers,
            freed,
            tells_freed,
        ),
        Outcome::Delivered { losers } => {
            let lost = lost(alloc, losers)?;
            format!(in alloc; "[\"Delivered\",[{lost}]]")
        }
        other => format!(in alloc; "[\"{other:?}\"]"),
    }
}

/// The same of an outcome with losers and harts that were let go. Where none were, a run may leave their list out.
fn with_freed(
    alloc: Global,
    name: &str,
    losers: Losers,
    freed: Freed,
    tells_freed: bool,
) -> Result<String, AllocError> {
    let lost = lost(alloc, losers)?;
    if tells_freed || freed != Freed::none() {
        let counts = let_go(alloc, freed)?;
        return format!(in alloc; "[\"{name}\",[{lost}],[{counts}]]");
    }
    format!(in alloc; "[\"{name}\",[{lost}]]")
}

/// Each hart that was let go with how many instructions of it took effect, in ascending order.
fn let_go(alloc: Global, freed: Freed) -> Result<String, AllocError> {
    let mut pairs = String::new(alloc);
    for number in 0..MAX_HARTS {
        let count = freed.count_of(HartId::at(usize::from(number)));
        if count > 0 {
            let comma = if pairs.is_empty() { "" } else { "," };
            write!(pairs, "{comma}[{number},{count}]")?;
        }
    }
    Ok(pairs)
}

/// Each loser with its winner, in ascending order.
fn lost(alloc: Global, losers: Losers) -> Result<String, AllocError> {
    let mut pairs = String::new(alloc);
    for number in 0..MAX_HARTS {
        if let Some(winner) = winner_over(losers, number) {
            let comma = if pairs.is_empty() { "" } else { "," };
            write!(pairs, "{comma}[{number},{winner}]")?;
        }
    }
    Ok(pairs)
}

/// The hart that a hart lost to.
fn winner_over(losers: Losers, number: u8) -> Option<u8> {
    let loser = HartId::new(number)?;
    Some(losers.winner_of(loser)?.number)
}
