ghost use Rattle.std.specs.Prelude.{◌≡◌, []};
ghost use Rattle.bus_lock.specs.Passes.{Account};
ghost use Rattle.bus_lock.specs.Steps.{account_of, at_rest};

use crate::view::View;
use atomic_table::{Badge, Seat};
use std::marker::Model;

/// The right to take turns at one lock. Contracts see what it knows: the history that it has seen, the
/// places of the entries that were made under it, and its share. It has no bytes.
///
/// A pass that is dropped is lost: its lock can then not be closed, and the value is dropped with the
/// lock.
#[derive(Drop)]
pub struct Pass {
    badge: Badge<View>,
}

impl Model for Pass {
    ghost use Rattle.std.specs.Prelude.{◌≡◌, ◌∷◌, []};
    ghost use Rattle.bus_lock.specs.Passes.{Account};
    ghost use Rattle.bus_lock.specs.Steps.{account_of, at_rest, only_view};

    ghost Value = { Account };

    ghost view = { λ p. account_of p.badge.table_id (only_view p.badge.views) };

    ghost invariant = { λ p. p.badge.views ≡ at_rest (account_of p.badge.table_id (only_view p.badge.views)) ∷ [] };
}

impl Pass {
    /// The seat at the lock's table.
    pub(crate) fn into_seat<M>(self) -> Seat<Option<M>, View>
        ensures { (result.table_id ≡ self.lock) × (result.me ≡ (at_rest self, [])) }
    {
        let Pass { badge } = self;
        badge.into_seat()
    }

    /// A pass of a seat that neither waits nor has its turn.
    pub(crate) fn of_seat<M>(seat: Seat<Option<M>, View>) -> Pass
        requires { (pass : Account) × (seat.me ≡ (at_rest pass, [])) }
        ensures { result ≡ account_of seat.table_id seat.me.0 }
    {
        Pass {
            badge: seat.into_badge(),
        }
    }
}
