ghost use Rattle.std.specs.Prelude.{◌≡◌, ◌<◌, ◌∷◌, [], filter, length, not, ◌==◌};

use arrayvec::ArrayVec;
use el_base::HartId;
use std::marker::Model;

/// How many harts a set has places for: all that there are.
const PLACES: usize = 8;

/// A hart whose request waits.
#[derive(Clone, Copy, Debug)]
struct Origin {
    hart: HartId,
}

/// What stands in the places of a set that are not used. It tells nothing.
impl Default for Origin {
    fn default() -> Origin {
        Origin {
            hart: HartId { number: 0 },
        }
    }
}

/// The origins of which a hart was told that their requests wait behind it.
#[derive(Debug, Drop)]
pub struct Told {
    origins: ArrayVec<Origin, PLACES>,
    /// Whether each hart is among them, by its number, so that it is known without a search.
    holds: [bool; PLACES],
}

impl Model for Told {
    ghost use Rattle.std.specs.Prelude.{ℕ, List};
    ghost use Rattle.defer_list.specs.HartSet.{numbers};
    ghost use Rattle.defer_list.specs.Kept.{IsKept};

    ghost Value = { List ℕ };

    ghost view = { λ told. numbers told.origins.items };

    ghost invariant = { λ told. IsKept told.origins.items told.holds };
}

impl Told {
    ghost use Rattle.defer_list.specs.HartSet.{excluded, has, included};

    /// The set without any origin.
    pub fn new() -> Told
        ensures { result ≡ [] }
    {
        Told {
            origins: ArrayVec::new(),
            holds: [false; PLACES],
        }
    }

    /// Adds an origin, and answers whether it was not in the set before.
    pub fn add(&mut self, origin: HartId) -> bool
        ensures origins { self.new ≡ included self.old origin.number }
        ensures was_new { result ≡ not (has self.old origin.number) }
    {
        let is_new = !self.told(origin);
        if is_new {
            put_in_front(&mut self.origins, origin);
            self.holds[usize::from(origin.number)] = true;
        }
        is_new
    }

    /// Whether an origin is in the set.
    pub fn told(&self, origin: HartId) -> bool
        ensures { result ≡ has self.now origin.number }
    {
        self.holds[usize::from(origin.number)]
    }

    /// Takes an origin out of the set, if it is there.
    pub fn purge(&mut self, origin: HartId)
        ensures { self.new ≡ excluded self.old origin.number }
    {
        if self.told(origin) {
            take_out(&mut self.origins, origin);
            self.holds[usize::from(origin.number)] = false;
        }
    }
}

/// Puts an origin before these.
fn put_in_front(origins: &mut ArrayVec<Origin, PLACES>, origin: HartId)
    requires { length origins.old.items < 8 }
    ensures { origins.new.items ≡ record { hart = origin } ∷ origins.old.items }
{
    origins.insert(0, Origin { hart: origin });
}

/// Takes an origin out, and leaves the others in their order.
fn take_out(origins: &mut ArrayVec<Origin, PLACES>, origin: HartId)
    ensures { origins.new.items ≡ filter (λ other. not (other.hart.number == origin.number)) origins.old.items }
{
    origins.retain(|other| other.hart.number != origin.number);
}
