ghost use Rattle.std.specs.Prelude.{◌≡◌, ◌+◌, ◌<◌, ◌^◌, [], ◌∷◌, Box, None, Some, true, false, length};
ghost use Rattle.bus_lock.specs.Locks.{lock_id};
ghost use Rattle.bus_lock.specs.Passes.{Account, GoesOn, Holding, noted};
ghost use Rattle.bus_lock.specs.Steps.{account_of, in_turn, noted_view};

use crate::lock::BusLock;
use crate::pass::Pass;
use crate::rule::{COUNT, Note, Open, SERVING};
use crate::view::View;
use atomic_table::Seat;
use el_base::Chronicled;
use std::alloc::Global;
use std::marker::Model;

/// A value that is out of its lock, in the turn of one pass. It ends in `release`.
pub struct Held<'a, M: Chronicled> {
    lock: &'a BusLock<M>,
    seat: Seat<Option<Box<M>>, View>,
    pub(crate) value: Box<M>,
    ticket: u64,
    found: u32,
}

impl<'a, M: Chronicled> Model for Held<'a, M> {
    ghost use Rattle.std.specs.Prelude.{◌≡◌, ◌+◌, ◌<◌, ◌^◌, [], ◌∷◌, None, length};
    ghost use Rattle.bus_lock.specs.Locks.{lock_id};
    ghost use Rattle.bus_lock.specs.Passes.{Holding};
    ghost use Rattle.bus_lock.specs.Steps.{account_of, in_turn};

    ghost Value = { Holding M };

    ghost view = { λ h. record { pass = account_of h.seat.table_id h.seat.me.0; value = h.value.value } };

    ghost invariant = { λ h.
        (h.seat.table_id ≡ lock_id h.lock.now)
        × (h.seat.me ≡ (in_turn (account_of h.seat.table_id h.seat.me.0) (h.ticket + 1), (0, None) ∷ []))
        × (h.ticket + 1 < 2 ^ 64) × (h.found ≡ length h.seat.me.0.seen) };
}

impl<'a, M: Chronicled + Drop> Held<'a, M> {
    pub(crate) fn of(
        lock: &'a BusLock<M>,
        seat: Seat<Option<Box<M>>, View>,
        value: Box<M>,
        ticket: u64,
    ) -> Held<'a, M>
        requires seat { seat.table_id ≡ lock_id lock.now }
        requires turn { (pass : Account) × (seat.me ≡ (in_turn pass (ticket + 1), (0, None) ∷ [])) }
        requires seen { seat.me.0.seen ≡ M.entries value.value }
        requires not_the_last { ticket + 1 < 2 ^ 64 }
        ensures pass { result.pass ≡ account_of seat.table_id seat.me.0 }
        ensures value { result.value ≡ value.value }
    {
        let found = value.length();
        Held {
            lock,
            seat,
            value,
            ticket,
            found,
        }
    }

    /// The value, to be read.
    pub fn look(&self) -> &M
        ensures { result.now ≡ self.now.value }
    {
        &self.value
    }

    /// Gives the value back, and lets the next pass have its turn. The pass has seen the value's history,
    /// with the place of the new entry if there is one.
    pub fn release(self) -> Pass
        requires opening { M.opening self.value ≡ self.pass.opening }
        requires entries { GoesOn self.pass.seen (M.entries self.value) }
        ensures { result ≡ noted self.entry.pass (M.entries self.entry.value) }
    {
        let Held {
            lock,
            mut seat,
            value,
            ticket,
            found,
        } = self;
        let count = value.length();
        let value = Some(value);
        lock.note(&mut seat, &value, found, count);
        lock.put_back(&mut seat, value);
        lock.open(&mut seat, ticket);
        Pass::of_seat(seat)
    }
}

impl<M: Chronicled + Drop> BusLock<M> {
    /// Puts the new entry, if there is one, into the history, and its place into the pass.
    fn note(
        &self,
        seat: &mut Seat<Option<Box<M>>, View>,
        value: &Option<Box<M>>,
        found: u32,
        count: u32,
    )
        requires seat { seat.old.table_id ≡ lock_id self.now }
        requires turn { seat.old.me.0.turn ≡ true }
        requires found { found ≡ length seat.old.me.0.seen }
        requires value { (home : Box M Global) × (value.now ≡ Some home) × (count ≡ length (M.entries home.value))
            × GoesOn seat.old.me.0.seen (M.entries home.value) }
        ensures same { (seat.new.table_id ≡ seat.old.table_id) × (seat.new.me.1 ≡ seat.old.me.1) }
        ensures noted { (home : Box M Global) → value.now ≡ Some home → seat.new.me.0 ≡ noted_view seat.old.me.0 (M.entries home.value) }
    {
        if count == found {
            return;
        }
        let place = u64::from(found);
        self.table
            .shared
            .compare_exchange_with::<Note>(seat, COUNT, place, place + 1, value);
    }

    /// Puts the value back into its slot, which was empty.
    fn put_back(&self, seat: &mut Seat<Option<Box<M>>, View>, value: Option<Box<M>>)
        requires seat { seat.old.table_id ≡ lock_id self.now }
        requires empty { seat.old.me.1 ≡ (0, None) ∷ [] }
        ensures same { seat.new.table_id ≡ seat.old.table_id }
        ensures put { seat.new.me ≡ (seat.old.me.0, (0, value) ∷ []) }
    {
        drop(self.table.shared.exchange(seat, 0, value));
    }

    /// Ends the turn: the slot goes back to the table, and the next ticket is served.
    fn open(&self, seat: &mut Seat<Option<Box<M>>, View>, ticket: u64)
        requires seat { seat.old.table_id ≡ lock_id self.now }
        requires turn { (pass : Account) × (home : Box M Global)
            × (seat.old.me ≡ (in_turn pass (ticket + 1), (0, Some home) ∷ []))
            × (M.opening home.value ≡ pass.opening) × (M.entries home.value ≡ pass.seen) }
        requires not_the_last { ticket + 1 < 2 ^ 64 }
        ensures same { seat.new.table_id ≡ seat.old.table_id }
        ensures rests { seat.new.me ≡ (record seat.old.me.0 { ticket = 0; turn = false }, []) }
    {
        self.table.shared.store::<Open>(seat, SERVING, ticket + 1);
    }
}
