//! A lock from `make` to `close`, and one turn at it.
ghost use Rattle.std.specs.Prelude.{◌≡◌, ◌+◌, ◌<◌, ◌^◌, [], ◌∷◌, IfOk, IfErr, None, true, false, length};
ghost use mathlib.Core.List.{IsPrefix};
ghost use Rattle.bus_lock.specs.Locks.{boxed, lock_id, started_with};
ghost use Rattle.bus_lock.specs.Passes.{Account, AreThePlaces};
ghost use Rattle.bus_lock.specs.Steps.{HasTaken, at_rest, first_account, waiting};

use crate::held::Held;
use crate::lock::BusLock;
use crate::pass::Pass;
use crate::rule::{Draw, Look, NEXT, SERVING};
use crate::view::View;
use atomic_table::{Refused, Seat, Table};
use crossbeam_utils::Backoff;
use el_base::{Chronicled, Kept};
use std::alloc::{AllocFailed, Global};
use std::snapshot::Snapshot;
use std::sync::Wait;

/// How often a pass looks for a lock in which no other has a ticket, before it draws one behind others.
const PATIENCE: u32 = 32;

impl<M: Chronicled + Drop> BusLock<M> {
    /// A lock round a value, and its only pass. It takes all memory that the lock ever needs. The error is
    /// out of memory, with the value.
    pub fn make(alloc: Global, state: M) -> Result<(BusLock<M>, Pass), Kept<M>>
        ensures made { IfOk result (λ made. started_with made.0 ≡ state) }
        ensures pass { IfOk result (λ made. made.1 ≡ first_account (lock_id made.0) (M.opening state) (M.entries state)) }
        ensures refused { IfErr result (λ refused. refused.value ≡ state) }
    {
        let start = Snapshot::of(&state);
        let count = u64::from(state.length());
        let Ok(mut slots) = Vec::with_capacity(alloc, 1) else {
            return Err(Kept { value: state });
        };
        slots.push_reserved(Some(put_in_box(alloc, state)?));
        match Table::new(alloc, &[0, 0, count], slots, &start) {
            Ok((table, seat)) => Ok((BusLock { table }, Pass::of_seat(seat))),
            Err(Refused { mut slots }) => Err(Kept {
                value: Box::into_inner(slots.pop().unwrap().unwrap()),
            }),
        }
    }

    /// Waits for this pass's turn, and takes the value out. The history found begins with the one that
    /// the pass had seen. Where 2^64 - 1 tickets were drawn, it does not return.
    pub fn hold<R: Wait>(&self, rt: &R, pass: Pass) -> Held<'_, M>
        requires { pass.lock ≡ lock_id self.now }
        ensures pass { result.pass ≡ record pass { seen = M.entries result.value } }
        ensures begins { IsPrefix pass.seen (M.entries result.value) }
        ensures opening { M.opening result.value ≡ pass.opening }
    {
        let mut seat = pass.into_seat();
        let ticket = self.draw(rt, &mut seat);
        let value = self.wait_for_turn(rt, &mut seat, ticket);
        Held::of(self, seat, value, ticket)
    }

    /// Draws the next ticket: at once where no other pass has one, and else after some looks.
    ///
    /// A ticket that is drawn behind others holds up all behind it until its thread runs. So a pass waits
    /// without one as long as others have theirs, but no longer than its patience, that none waits for good
    /// while the others take turns.
    fn draw<R: Wait>(&self, rt: &R, seat: &mut Seat<Option<Box<M>>, View>) -> u64
        requires seat { seat.old.table_id ≡ lock_id self.now }
        requires rests { (pass : Account) × (seat.old.me ≡ (at_rest pass, [])) }
        ensures same { seat.new.table_id ≡ seat.old.table_id }
        ensures drawn { seat.new.me ≡ (record seat.old.me.0 { ticket = result + 1 }, []) }
        ensures not_the_last { result + 1 < 2 ^ 64 }
    {
        let backoff = Backoff::new();
        let mut looks: u32 = 0;
        for _ in rt.forever() {
            let next = self.table.shared.peek(NEXT);
            let is_free = self.table.shared.peek(SERVING) == next;
            if next < u64::MAX && (is_free || looks >= PATIENCE) {
                let found = self
                    .table
                    .shared
                    .compare_exchange::<Draw>(seat, NEXT, next, next + 1);
                if found == next {
                    return next;
                }
            }
            looks = looks.saturating_add(1);
            backoff.snooze();
        }
        unreachable!()
    }

    /// Waits until the ticket is served, and takes the value out.
    fn wait_for_turn<R: Wait>(
        &self,
        rt: &R,
        seat: &mut Seat<Option<Box<M>>, View>,
        ticket: u64,
    ) -> Box<M>
        requires seat { seat.old.table_id ≡ lock_id self.now }
        requires waits { (pass : Account) × (seat.old.me ≡ (waiting pass (ticket + 1), [])) }
        ensures same { seat.new.table_id ≡ seat.old.table_id }
        ensures turn { seat.new.me ≡ (record seat.old.me.0 { turn = true; seen = M.entries result.value }, (0, None) ∷ []) }
        ensures begins { IsPrefix seat.old.me.0.seen (M.entries result.value) }
        ensures opening { M.opening result.value ≡ seat.old.me.0.opening }
    {
        let backoff = Backoff::new();
        for _ in rt.forever() {
            if self.is_served(seat, ticket) {
                return self.table.shared.exchange(seat, 0, None).unwrap();
            }
            backoff.snooze();
        }
        unreachable!()
    }

    /// Looks whether the ticket is served. Where it is, the value is out with the seat.
    fn is_served(&self, seat: &mut Seat<Option<Box<M>>, View>, ticket: u64) -> bool
        requires seat { seat.old.table_id ≡ lock_id self.now }
        requires waits { (seat.old.me.0.live ≡ true) × (seat.old.me.0.turn ≡ false) }
        requires ticket { seat.old.me.0.ticket ≡ ticket + 1 }
        ensures same { seat.new.table_id ≡ seat.old.table_id }
        ensures served { result ≡ true → HasTaken (boxed M.entries) (boxed M.opening) seat.old.me seat.new.me }
        ensures not_yet { result ≡ false → seat.new.me ≡ seat.old.me }
    {
        self.table.shared.load::<Look>(seat, SERVING) == ticket
    }

    /// Ends the lock, and gives its value.
    pub fn close(self, pass: Pass) -> M
        requires own { pass.lock ≡ lock_id self }
        requires only { pass.share ≡ [] }
        ensures entries { M.entries result ≡ pass.seen }
        ensures opening { M.opening result ≡ pass.opening }
        ensures places { AreThePlaces pass.places (length (M.entries (started_with self))) (length (M.entries result)) }
    {
        let BusLock { table } = self;
        let mut closed = table.close_with(pass.into_seat());
        let home = closed.take(0).unwrap();
        closed.free();
        Box::into_inner(home)
    }
}

/// The value in a block of its own. The error says that memory ran out, with the value.
fn put_in_box<M: Drop>(alloc: Global, value: M) -> Result<Box<M>, Kept<M>>
    ensures put { IfOk result (λ home. home.value ≡ value) }
    ensures refused { IfErr result (λ refused. refused.value ≡ value) }
{
    Box::new(alloc, value).map_err(|AllocFailed { value }| Kept { value })
}
