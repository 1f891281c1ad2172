//! Who wins where a request meets another hart's section, by the mode.

ghost use Rattle.std.specs.Prelude.{◌≡◌};

use el_base::Mode;
use policy::{Policy, SlePolicy, Stamp, TlrPolicy};

/// The policy of a mode. In the plain mode no request meets a section, and it is that of lock elision.
#[derive(Clone, Copy, Debug, PartialEq, Eq)]
pub(crate) struct ModePolicy {
    pub(crate) mode: Mode,
}

impl Policy for ModePolicy {
    ghost use Rattle.policy.specs.Winners.{wins_of};

    ghost beats = { λ policy. wins_of policy.mode };

    fn wins(&self, request: Option<Stamp>, holder: Option<Stamp>) -> bool {
        match self.mode {
            Mode::Plain | Mode::Sle => SlePolicy.wins(request, holder),
            Mode::Tlr => TlrPolicy.wins(request, holder),
        }
    }
}
