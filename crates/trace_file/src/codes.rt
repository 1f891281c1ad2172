//! Kinds by the codes that a trace has for them. A code is told once, and a kind is found by going over them.

ghost use Rattle.std.specs.Prelude.{◌≡◌, ◌≤◌};
ghost use Rattle.trace_file.specs.Codes.{cause_at, cause_code, kind_at, mode_at, why_at, why_code};

use el_base::{Cause, Kind, Mode, Why};

/// The mode of a number up to 2.
pub fn mode_of(number: u8) -> Mode
    ensures { result ≡ mode_at number }
{
    [Mode::Plain, Mode::Sle]
        .iter()
        .copied()
        .find(|mode| mode.number() == number)
        .unwrap_or(Mode::Tlr)
}

/// The kind of a number up to 3.
#[tactic(auto, using(crate::proofs::EventBytes::kind_back))]
pub fn kind_of(number: u8) -> Kind
    requires { number ≤ 3 }
    ensures { result ≡ kind_at number }
{
    match Kind::with_number(number) {
        Some(kind) => kind,
        None => unreachable!(),
    }
}

pub fn cause_code(cause: Cause) -> u8
    ensures { result ≡ cause_code cause }
{
    match cause {
        Cause::Room => 0,
        Cause::Lines => 1,
        Cause::Long => 2,
        Cause::Call => 3,
        Cause::Mixed => 4,
    }
}

/// The cause of a code up to 4.
#[tactic(auto, unfolding(crate::specs::Codes::cause_at))]
pub fn cause_of(code: u8) -> Cause
    ensures { result ≡ cause_at code }
{
    [Cause::Room, Cause::Lines, Cause::Long, Cause::Call]
        .iter()
        .copied()
        .find(|cause| cause_code(*cause) == code)
        .unwrap_or(Cause::Mixed)
}

pub fn why_code(why: Why) -> u8
    ensures exact { result ≡ why_code why }
    ensures small { result ≤ 2 }
{
    match why {
        Why::Behind => 0,
        Why::Retained => 1,
        Why::Locked => 2,
    }
}

/// Why a request was not served, by a code up to 2.
#[tactic(auto, unfolding(crate::specs::Codes::why_at))]
pub fn why_of(code: u8) -> Why
    ensures { result ≡ why_at code }
{
    [Why::Behind, Why::Retained]
        .iter()
        .copied()
        .find(|why| why_code(*why) == code)
        .unwrap_or(Why::Locked)
}
