//! The items of a step.

ghost use Rattle.std.specs.Prelude.{◌≡◌, ◌≤◌, ◌+◌, ◌++◌, ◌∷◌, []};
ghost use Rattle.arrayvec.specs.ArrayVec.{array_vec_len};
ghost use Rattle.lab_text.specs.Items as items;
ghost use Rattle.lab_text.specs.declared.items.Item.TheVariants as variants;
ghost use Rattle.rv_alu.specs.Regs.{get};

use crate::items::{Item, List};
use el_base::Outcome;
use lab::Sight;
use rv_alu::{Action, HartStatus, HartView, Load, amo};
use rv_word::{AmoOp, Reg};
use section_ctl::Live;

/// How many registers a hart has.
const REGS: u8 = 32;

/// What a step did.
pub(crate) fn tell_step(
    list: &mut List,
    outcome: Outcome,
    before: &Sight,
    action: Action,
    after: &Sight,
)
    requires { list.old.items ≡ [] }
    ensures items { list.new.items ≡ items.step_items outcome before.now action after.now }
    ensures few { array_vec_len list.new ≤ 40 }
{
    match outcome {
        Outcome::Stalled => list.push(Item::Stalled),
        Outcome::Missed { line, need } => list.push(Item::Missed { line, need }),
        _ => tell_effect(list, outcome, before, action, after),
    }
}

fn tell_effect(list: &mut List, outcome: Outcome, before: &Sight, action: Action, after: &Sight)
    requires { list.old.items ≡ [] }
    ensures items { list.new.items ≡ items.effect_items outcome before.now action after.now }
    ensures few { array_vec_len list.new ≤ 40 }
{
    tell_section(list, outcome, before.section, after.section);
    tell_access(list, outcome, action, &after.view);
    tell_view(list, &before.view, &after.view);
}

/// The section that a step begins, runs in or ends.
fn tell_section(list: &mut List, outcome: Outcome, before: Option<Live>, after: Option<Live>)
    requires { array_vec_len list.old ≤ 8 }
    ensures items { list.new.items ≡ list.old.items ++ items.section_items outcome before after }
    ensures few { array_vec_len list.new ≤ array_vec_len list.old + 1 }
{
    match outcome {
        Outcome::Began => {
            if let Some(Live { word, old, new, .. }) = after {
                list.push(Item::Began { word, old, new });
            }
        }
        Outcome::Buffered => list.push(Item::Private),
        Outcome::Committed { count } => {
            if let Some(Live { word, .. }) = before {
                list.push(Item::Committed { word, count });
            }
        }
        Outcome::RolledBack { cause } => {
            if let Some(Live { word, .. }) = before {
                list.push(Item::RolledBack { word, cause });
            }
        }
        Outcome::Armed => list.push(Item::Armed),
        Outcome::LetGo { count } => list.push(Item::LetGo { count }),
        _ => (),
    }
}

/// What a step read of memory and stored there.
fn tell_access(list: &mut List, outcome: Outcome, action: Action, after: &HartView)
    requires { array_vec_len list.old ≤ 8 }
    ensures items { list.new.items ≡ list.old.items ++ items.access_items outcome action after.now }
    ensures few { array_vec_len list.new ≤ array_vec_len list.old + 2 }
{
    if has_access(outcome) {
        tell_load(list, action.loads(), value_read(action, after));
        tell_store(list, action, after);
    }
}

fn has_access(outcome: Outcome) -> bool
    ensures { result ≡ items.has_access outcome }
{
    match outcome {
        Outcome::Ran | Outcome::Buffered | Outcome::Armed => true,
        _ => false,
    }
}

fn tell_load(list: &mut List, load: Option<Load>, value: Option<u32>)
    requires { array_vec_len list.old ≤ 9 }
    ensures items { list.new.items ≡ list.old.items ++ items.load_items load value }
    ensures few { array_vec_len list.new ≤ array_vec_len list.old + 1 }
{
    if let Some(Load { address, len }) = load {
        list.push(Item::Read {
            address,
            len,
            value,
        });
    }
}

fn value_read(action: Action, after: &HartView) -> Option<u32>
    ensures { result ≡ items.value_read action after.now }
{
    match action {
        Action::Load { rd, .. } | Action::LoadReserved { rd, .. } | Action::Amo { rd, .. } => {
            put_into(rd, after)
        }
        _ => None,
    }
}

/// What an instruction has put into a register.
fn put_into(rd: Reg, after: &HartView) -> Option<u32>
    ensures { result ≡ items.put_into rd after.now }
{
    if rd.number == 0 {
        None
    } else {
        Some(after.regs.get(rd))
    }
}

fn tell_store(list: &mut List, action: Action, after: &HartView)
    requires { array_vec_len list.old ≤ 9 }
    ensures items { list.new.items ≡ list.old.items ++ items.store_items action after.now }
    ensures few { array_vec_len list.new ≤ array_vec_len list.old + 1 }
{
    match action {
        Action::Store {
            address,
            len,
            value,
        } => tell_stored(list, address, len, Some(low_bytes(len, value))),
        Action::StoreConditional { address, value, .. } => {
            tell_stored(list, address, 4, Some(value));
        }
        Action::Amo {
            op,
            rd,
            address,
            source,
        } => tell_stored(
            list,
            address,
            4,
            amo_stores(op, source, put_into(rd, after)),
        ),
        Action::Append { address, len } => list.push(Item::Appended { address, len }),
        _ => (),
    }
}

fn tell_stored(list: &mut List, address: u32, len: u32, value: Option<u32>)
    requires { array_vec_len list.old ≤ 9 }
    ensures items { list.new.items ≡ list.old.items ++ variants.Stored address len value ∷ [] }
    ensures few { array_vec_len list.new ≤ array_vec_len list.old + 1 }
{
    list.push(Item::Stored {
        address,
        len,
        value,
    });
}

/// The low bytes of a value.
fn low_bytes(len: u32, value: u32) -> u32
    ensures { result ≡ items.low_bytes len value }
{
    match len {
        1 => value % 256,
        2 => value % 65536,
        _ => value,
    }
}

/// What an atomic operation stores, by what it has read.
fn amo_stores(op: AmoOp, source: u32, old: Option<u32>) -> Option<u32>
    ensures { result ≡ items.amo_stores op source old }
{
    match op {
        AmoOp::Swap => Some(source),
        _ => match old {
            Some(old) => Some(amo(op, old, source)),
            None => None,
        },
    }
}

/// What a hart sees now that it did not see before.
fn tell_view(list: &mut List, before: &HartView, after: &HartView)
    requires { array_vec_len list.old ≤ 3 }
    ensures items { list.new.items ≡ list.old.items ++ items.view_items before.now after.now }
    ensures few { array_vec_len list.new ≤ array_vec_len list.old + 34 }
{
    tell_registers(list, before, after);
    tell_place(list, before, after);
}

/// Where a hart goes and whether it stops.
fn tell_place(list: &mut List, before: &HartView, after: &HartView)
    requires { array_vec_len list.old ≤ 39 }
    ensures items { list.new.items ≡ list.old.items
        ++ (items.pc_items before.now.pc after.now.pc ++ items.stop_items before.now.status after.now.status) }
    ensures few { array_vec_len list.new ≤ array_vec_len list.old + 2 }
{
    tell_pc(list, before.pc, after.pc);
    tell_stop(list, before.status, after.status);
}

fn tell_registers(list: &mut List, before: &HartView, after: &HartView)
    requires { array_vec_len list.old ≤ 3 }
    ensures items { list.new.items ≡ list.old.items ++ items.register_items before.now.regs after.now.regs }
    ensures few { array_vec_len list.new ≤ array_vec_len list.old + 32 }
{
    for number in 0..REGS {
        tell_register(list, Reg { number }, before, after);
    }
}

fn tell_register(list: &mut List, reg: Reg, before: &HartView, after: &HartView)
    requires { array_vec_len list.old ≤ 40 }
    ensures items { list.new.items ≡ list.old.items
        ++ items.register_item reg.number (get before.now.regs reg.number) (get after.now.regs reg.number) }
    ensures few { array_vec_len list.new ≤ array_vec_len list.old + 1 }
{
    let value = after.regs.get(reg);
    if before.regs.get(reg) != value {
        let index = reg.number;
        list.push(Item::Register { index, value });
    }
}

fn tell_pc(list: &mut List, from: u32, to: u32)
    requires { array_vec_len list.old ≤ 40 }
    ensures items { list.new.items ≡ list.old.items ++ items.pc_items from to }
    ensures few { array_vec_len list.new ≤ array_vec_len list.old + 1 }
{
    if to != from && to != from.wrapping_add(4) {
        list.push(Item::Went { to });
    }
}

fn tell_stop(list: &mut List, before: HartStatus, after: HartStatus)
    requires { array_vec_len list.old ≤ 40 }
    ensures items { list.new.items ≡ list.old.items ++ items.stop_items before after }
    ensures few { array_vec_len list.new ≤ array_vec_len list.old + 1 }
{
    if let HartStatus::Running = before {
        match after {
            HartStatus::Running => (),
            HartStatus::Exited { code } => list.push(Item::Exited { code }),
            HartStatus::Trapped { cause, .. } => list.push(Item::Trapped { cause }),
        }
    }
}
