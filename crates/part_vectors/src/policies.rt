ghost use Rattle.std.specs.Prelude.{◌≡◌, Option};
ghost use Rattle.std.specs.Option.{option_map};
ghost use Rattle.stamp.specs.Stamps as stamps;
ghost use Rattle.policy.specs.Winners.{wins_of};

use crate::asserts::same_at;
use crate::harts::hart;
use el_base::Mode;
use policy::*;

/// Asks as a user does who is generic over the policy, and needs the one of a mode.
fn asked<P: Policy>(mode: Mode, policy: &P, request: Option<Stamp>, holder: Option<Stamp>) -> bool
    requires { (request holder : Option stamps.Stamp) → P.beats policy.now request holder ≡ wins_of mode request holder }
    ensures { result ≡
        wins_of mode (option_map stamps.numbered_stamp request) (option_map stamps.numbered_stamp holder) }
{
    policy.wins(request, holder)
}

#[test]
fn the_request_wins_without_stamps_and_the_earlier_stamp_with_them(rt: HostRuntime) {
    let (first, second) = (hart(0), hart(1));
    let early = Stamp {
        clock: 3,
        hart: first,
    };
    let later = Stamp {
        clock: 3,
        hart: second,
    };
    let last = Stamp {
        clock: 4,
        hart: first,
    };
    let rows = [
        (Some(early), Some(later), true),
        (Some(later), Some(early), false),
        (Some(later), Some(last), true),
        (Some(last), Some(later), false),
        (Some(early), Some(early), false),
        (None, Some(last), false),
        (Some(early), None, false),
        (None, None, false),
    ];
    for (request, holder, wins) in rows {
        let with_stamps = asked(Mode::Tlr, &TlrPolicy, request, holder);
        let without = asked(Mode::Sle, &SlePolicy, request, holder);
        same_at(&rt, (request, holder), (with_stamps, without), (wins, true));
    }
}
