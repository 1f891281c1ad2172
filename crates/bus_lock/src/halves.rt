//! A pass that is split for two threads, and joined again.
ghost use Rattle.std.specs.Prelude.{◌≡◌, ◌++◌, [], ◌⊎◌, List, Bool, Ok, true, false};
ghost use mathlib.Core.List.{IsPrefix};
ghost use Rattle.bus_lock.specs.Locks.{lock_id};
ghost use Rattle.bus_lock.specs.Passes.{Account, AreDistinct, AreHalves};
ghost use Rattle.bus_lock.specs.Steps.{Learns};

use crate::lock::BusLock;
use crate::pass::Pass;
use crate::rule::{Both, COUNT, Halves, Learn};
use crate::view::View;
use atomic_table::Seat;
use el_base::{Chronicled, Kept};

impl<M: Chronicled + Drop> BusLock<M> {
    /// The two halves of a pass. Both have seen what it has seen; the left one has all its places and the
    /// right one none. It takes no memory, and no call is refused.
    pub fn split(&self, pass: Pass) -> Result<(Pass, Pass), Kept<Pass>>
        requires { pass.lock ≡ lock_id self.now }
        ensures { (left : Account) × (right : Account) × (result ≡ Ok (left, right)) × AreHalves pass.share left right
            × (left ≡ record pass { share = left.share }) × (right ≡ record pass { places = []; share = right.share }) }
    {
        let mut left = pass.into_seat();
        let right = self.table.shared.split_seat::<Halves>(&mut left);
        let left = Pass::of_seat(left);
        let right = Pass::of_seat(right);
        Ok((left, right))
    }

    /// The pass whose two halves these are. It has seen the longer of the two histories, of which the other
    /// is a prefix, and has the places of both, each once.
    pub fn join(&self, left: Pass, right: Pass) -> Pass
        requires own { left.lock ≡ lock_id self.now }
        requires halves { (share : List Bool) × AreHalves share left right }
        ensures whole { AreHalves result.share left right }
        ensures seen { (result.seen ≡ left.seen) ⊎ (result.seen ≡ right.seen) }
        ensures left_begins { IsPrefix left.seen result.seen }
        ensures right_begins { IsPrefix right.seen result.seen }
        ensures places { result.places ≡ left.places ++ right.places }
        ensures distinct { AreDistinct result.places }
        ensures same { (result.lock ≡ left.lock) × (result.opening ≡ left.opening) }
    {
        let mut seat = left.into_seat();
        self.table
            .shared
            .join_seat::<Both>(&mut seat, right.into_seat());
        self.learn(&mut seat);
        Pass::of_seat(seat)
    }

    /// Learns, after a join, which of the two histories begins the other, and that the places are distinct.
    fn learn(&self, seat: &mut Seat<Option<Box<M>>, View>)
        requires seat { seat.old.table_id ≡ lock_id self.now }
        requires lives { seat.old.me.0.live ≡ true }
        requires rests { seat.old.me.0.turn ≡ false }
        ensures same { seat.new.table_id ≡ seat.old.table_id }
        ensures learns { Learns seat.old.me seat.new.me }
    {
        self.table.shared.load::<Learn>(seat, COUNT);
    }
}
