//! `change` has a file of its own: its clause names the row of `Held`, which the file that declares `Held`
//! cannot import.
ghost use Rattle.std.specs.Prelude.{◌≡◌, []};
ghost use Rattle.std.specs.Borrow.{Lends, sem};
ghost use Rattle.bus_lock.specs.contracts.held.Held.{the_row};
ghost use mir.Syntax.{named};

use crate::held::Held;
use el_base::Chronicled;

impl<'a, M: Chronicled + Drop> Held<'a, M> {
    /// The value, to be changed. When it is given back, its history is the one found, with one more
    /// entry at most.
    pub fn change(&mut self) -> &mut M
        ensures* writes_back { sem 𝓛 (Lends (the_row (record { mir = named 1; lft = [] }) M.row M.Chronicled) M.row
            self.entry result (λ w. record self.old { value = w })) }
        ensures value { result.now ≡ self.old.value }
    {
        &mut self.value
    }
}
