use crate::policy::Policy;
use stamp::Stamp;

/// In speculative lock elision the request wins, whatever it meets.
#[derive(Clone, Copy, Debug, PartialEq, Eq)]
pub struct SlePolicy;

impl Policy for SlePolicy {
    ghost use Rattle.el_base.specs.declared.config.Mode.TheVariants.{Sle};
    ghost use Rattle.policy.specs.Winners.{wins_of};

    ghost beats = { λ _. wins_of Sle };

    fn wins(&self, _request: Option<Stamp>, _holder: Option<Stamp>) -> bool {
        true
    }
}
