ghost use Rattle.std.specs.Prelude.{Some};
ghost use Rattle.stamp.specs.StrictOrder.{IsStrictTotalOrder};

use crate::policy::Policy;
use stamp::{Stamp, less};

/// In lock removal the request wins exactly where both stamps are there and the request's is less.
#[derive(Clone, Copy, Debug, PartialEq, Eq)]
pub struct TlrPolicy;

impl Policy for TlrPolicy {
    ghost use Rattle.el_base.specs.declared.config.Mode.TheVariants.{Tlr};
    ghost use Rattle.policy.specs.Winners.{wins_of};

    ghost beats = { λ _. wins_of Tlr };

    fn wins(&self, request: Option<Stamp>, holder: Option<Stamp>) -> bool {
        match (request, holder) {
            (Some(request), Some(holder)) => less(request, holder),
            _ => false,
        }
    }
}

impl TlrPolicy {
    /// Of any two different stamps exactly one wins over the other.
    pub fn wins_in_a_strict_total_order(&self)
        ensures { IsStrictTotalOrder (λ request holder. ⟦<TlrPolicy as Policy>⟧.beats self.now (Some request) (Some holder)) }
    {}
}
