ghost use Rattle.std.specs.Prelude.{◌≡◌};

use crate::rule::Ticketing;
use crate::view::View;
use atomic_table::Table;
use el_base::Chronicled;
use std::alloc::Global;
use std::snapshot::Snapshot;

/// One value with a history, which whoever has a pass may hold in its turn. It lies in a block of its own, so
/// that a turn moves a pointer, however large the value is.
#[derive(Drop)]
pub struct BusLock<M: Chronicled> {
    pub(crate) table: Table<Option<Box<M>>, View, Snapshot<M>, Ticketing, Global>,
    ghost sized: { (table.shared.table_id.words ≡ 3) × (table.shared.table_id.slots ≡ 1) },
}
