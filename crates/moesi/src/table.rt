//! What each letter permits, and what becomes of it.
ghost use Rattle.std.specs.Prelude.{◌≡◌};
ghost use Rattle.moesi.specs.Letters.{may_of, on_read_of, on_write_of, filled_of};
ghost use Rattle.moesi.specs.Letters as letters;

use crate::letter::Letter;
use el_base::Need;

/// Whether a copy with this letter permits what a hart needs of it: `I` nothing, `M` and `E` both,
/// `O` and `S` reading alone.
pub fn may(letter: Letter, need: Need) -> bool
    ensures { result ≡ may_of letter need }
{
    match need {
        Need::Read => letter != Letter::I,
        Need::Write => matches!(letter, Letter::M | Letter::E),
    }
}

/// What a copy becomes as another hart's read of its line is served.
pub fn on_read(letter: Letter) -> Letter
    ensures { result ≡ on_read_of letter }
{
    match letter {
        Letter::M | Letter::O => Letter::O,
        Letter::E | Letter::S => Letter::S,
        Letter::I => Letter::I,
    }
}

/// What a copy becomes as another hart's write of its line is served: it goes.
pub fn on_write(_letter: Letter) -> Letter
    ensures { result ≡ on_write_of _letter }
{
    Letter::I
}

/// The letter with which a line is filled, by the need that it is filled for and by whether `others`
/// have copies of it.
pub fn filled(need: Need, others: bool) -> Letter
    ensures { result ≡ filled_of need others }
{
    match need {
        Need::Write => Letter::M,
        Need::Read if others => Letter::S,
        Need::Read => Letter::E,
    }
}

/// Whether main memory may be behind a copy with this letter, so that it is written back as it leaves.
pub fn is_dirty(letter: Letter) -> bool
    ensures { result ≡ letters.is_dirty letter }
{
    matches!(letter, Letter::M | Letter::O)
}
