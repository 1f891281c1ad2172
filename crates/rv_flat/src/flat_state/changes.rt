//! Steps that can be undone.

ghost use Rattle.std.specs.Prelude.{◌≡◌, ◌<◌, ◌≤◌, ◌+◌, ◌-◌, ℕ, is_some, length, slice_index, slice_index_or};
ghost use Rattle.std.specs.Option.{unwrap_or};
ghost use Rattle.el_base.specs.Harts.{has_hart};
ghost use Rattle.rv_alu.specs.Regs.{set};
ghost use Rattle.rv_flat.specs.Change.{Holds, IsChangeOf, IsLeftBy, four_bytes, reserved_in, written_from, written_len, written_register};
ghost use Rattle.rv_flat.specs.FlatState.{FlatState, no_hart};
ghost use Rattle.rv_flat.specs.Step.{flat};

use super::Flat;
use crate::change::Change;
use crate::memory;
use el_base::{HartId, Harts};
use rv_alu::abi::A0;
use rv_alu::{Access, Action, HartStatus, HartView};
use rv_word::Reg;

/// Register 0, which no step writes.
const ZERO: Reg = Reg { number: 0 };

impl Flat {
    /// One step of a hart, as [`Flat::step`] makes it, and what it overwrites. It takes no memory.
    pub fn step_noting(&mut self, hart: HartId) -> Change
        requires { hart.number < length self.old.harts }
        ensures stepped { self.new ≡ flat self.old hart.number }
        ensures noted { IsChangeOf self.old hart.number result }
        ensures undoable { IsLeftBy self.old result self.new }
    {
        let change = self.next_change(hart);
        self.step(hart);
        change
    }

    /// Undoes a step: given the state that a step left and its change, it leaves the state before the
    /// step. It takes no memory, and leaves the output's memory reserved.
    pub fn undo(&mut self, change: &Change)
        requires { (before : FlatState) × IsLeftBy before change.now self.old }
        ensures { (before : FlatState) → IsLeftBy before change.now self.old → self.new ≡ before }
    {
        put_back_view(&mut self.harts[usize::from(change.hart.number)], change);
        put_back_reservations(&mut self.harts, change);
        let place = change.address.saturating_sub(self.base) as usize;
        memory::put_back(&mut self.bytes, place, change.old_bytes());
        self.output.truncate(change.output as usize);
    }

    /// What a hart's next step overwrites.
    fn next_change(&self, hart: HartId) -> Change
        requires { hart.number < length self.now.harts }
        ensures { IsChangeOf self.now hart.number result }
    {
        match self.status(hart) {
            HartStatus::Running => {
                let action = self.next_action(usize::from(hart.number));
                self.held(hart, written_register(action), action.footprint())
            }
            _ => self.held(hart, ZERO, Access::Nothing),
        }
    }

    /// What stands where a step of a hart writes this register and makes this access.
    fn held(&self, hart: HartId, reg: Reg, access: Access) -> Change
        requires exists { hart.number < length self.now.harts }
        requires short { written_len access ≤ 4 }
        requires inside { written_from access - self.now.base + written_len access ≤ length self.now.bytes }
        ensures { Holds self.now hart.number reg.number access result }
    {
        let view = &self.harts[usize::from(hart.number)];
        let (address, len) = written_place(access);
        Change {
            hart,
            pc: view.pc,
            status: view.status,
            reg,
            value: view.regs.get(reg),
            address,
            len,
            bytes: self.four_bytes(address, len),
            holders: holders(&self.harts),
            words: reserved_words(&self.harts),
            output: self.output.bytes().len() as u32,
        }
    }

    /// The bytes of memory from an address on, and 0 behind them.
    fn four_bytes(&self, address: u32, len: u8) -> [u8; 4]
        requires short { len ≤ 4 }
        requires inside { address - self.now.base + len ≤ length self.now.bytes }
        ensures { result ≡ four_bytes self.now address len }
    {
        let place = address.saturating_sub(self.base) as usize;
        let len = usize::from(len);
        let mut held = [0; 4];
        memory::put_back(&mut held, 0, &self.bytes[place..place + len]);
        held
    }
}

/// The register that an action writes.
fn written_register(action: Action) -> Reg
    ensures { result.number ≡ written_register action }
{
    match action {
        Action::Put { rd, .. }
        | Action::JumpAndLink { rd, .. }
        | Action::Load { rd, .. }
        | Action::LoadReserved { rd, .. }
        | Action::StoreConditional { rd, .. }
        | Action::Fail { rd }
        | Action::Amo { rd, .. } => rd,
        Action::Answer { .. } | Action::Append { .. } => A0,
        Action::Trap { .. } | Action::Exit { .. } | Action::Go { .. } | Action::Store { .. } =>
            ZERO,
    }
}

/// Where an access writes, and how many bytes.
fn written_place(access: Access) -> (u32, u8)
    requires { written_len access ≤ 4 }
    ensures address { result.0 ≡ written_from access }
    ensures len { result.1 ≡ written_len access }
{
    match access {
        Access::Write { address, len } => (address, len as u8),
        _ => (0, 0),
    }
}

/// The harts that have a reservation.
fn holders(harts: &[HartView]) -> Harts
    requires { length harts.now ≤ 8 }
    ensures { (hart : ℕ) → has_hart result hart ≡ is_some (slice_index_or harts.now hart no_hart).reserved }
{
    let mut holders = Harts::empty();
    for place in 0..harts.len() {
        if harts[place].reserved.is_some() {
            holders = holders.with(HartId::at(place));
        }
    }
    holders
}

/// Each hart's reserved word, 0 where it has none.
fn reserved_words(harts: &[HartView]) -> [u32; 8]
    requires { length harts.now ≤ 8 }
    ensures { (hart : ℕ) → slice_index result hart ≡ unwrap_or (slice_index_or harts.now hart no_hart).reserved 0 }
{
    let mut words = [0; 8];
    for place in 0..harts.len() {
        words[place] = harts[place].reserved.unwrap_or(0);
    }
    words
}

/// Gives a hart its pc, status and register back.
fn put_back_view(view: &mut HartView, change: &Change)
    ensures { view.new ≡ record view.old {
      pc = change.now.pc;
      regs = set view.old.regs change.now.reg.number change.now.value;
      status = change.now.status;
    } }
{
    view.pc = change.pc;
    view.regs.set(change.reg, change.value);
    view.status = change.status;
}

/// Gives all harts their reservations back.
fn put_back_reservations(harts: &mut [HartView], change: &Change)
    requires { length harts.old ≤ 8 }
    ensures { (hart : ℕ) → hart < length harts.old →
        slice_index_or harts.new hart no_hart
        ≡ record (slice_index_or harts.old hart no_hart) { reserved = reserved_in change.now hart } }
{
    for place in 0..harts.len() {
        harts[place].reserved = change.reserved(HartId::at(place));
    }
}
