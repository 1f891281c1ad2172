//! What took effect in an event.

ghost use Rattle.std.specs.Prelude.{◌≡◌, ℕ, length};
ghost use Rattle.chronicle.specs.Serial.{taking_effect};
ghost use Rattle.step_back.specs.Effect.{harts_in};

use el_base::{Freed, Outcome};

/// The instructions that took effect in an event.
#[derive(Clone, Copy)]
pub enum Effect {
    /// So many instructions of its own hart.
    Own { count: u32 },
    /// Those of the harts that it let go, in ascending order of the harts.
    LetGo { freed: Freed },
}

impl Effect {
    /// What took effect in an event of this outcome.
    pub fn of(outcome: Outcome) -> Effect
        ensures { (hart : ℕ) → harts_in hart result ≡ taking_effect hart outcome }
    {
        match outcome {
            Outcome::Ran => Effect::Own { count: 1 },
            Outcome::Committed { count } | Outcome::LetGo { count } => Effect::Own { count },
            Outcome::Ordered { freed, .. } | Outcome::Served { freed, .. } => {
                Effect::LetGo { freed }
            }
            _ => Effect::Own { count: 0 },
        }
    }

    /// How many instructions they are.
    pub fn count(self) -> u64
        ensures { (hart : ℕ) → result ≡ length (harts_in hart self) }
    {
        match self {
            Effect::Own { count } => count.into(),
            Effect::LetGo { freed } => freed.total(),
        }
    }
}
