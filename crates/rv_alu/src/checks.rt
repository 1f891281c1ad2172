ghost use Rattle.std.specs.Prelude.{◌≡◌, ◌≤◌};
ghost use Rattle.rv_alu.specs.Action.{branch_of, checked_of, conditional_of, has_reserved_of, indirect_of, jump_of, load_of, load_size_of};
ghost use Rattle.rv_alu.specs.Action.{next_pc_of, store_of, store_size_of, store_value_of, update_of};
ghost use Rattle.rv_alu.specs.Execution.{touched};
ghost use Rattle.rv_alu.specs.Footprint.{IsFootprint, access_of};

use crate::action::Action;
use crate::cause::{
    INSTRUCTION_ADDRESS_MISALIGNED, LOAD_ACCESS_FAULT, LOAD_ADDRESS_MISALIGNED, STORE_ACCESS_FAULT,
    STORE_ADDRESS_MISALIGNED,
};
use crate::footprint::Access;
use crate::operation::moved;
use crate::regs::Regs;
use crate::span::Span;
use crate::view::HartView;
use rv_word::{AmoOp, Insn, LoadWidth, Reg, StoreWidth, decode};

/// What an instruction at `pc` would touch, or how it would stop its hart, before anything happens:
/// the footprint of [`Action::of`] with the same arguments. An SC that does not trap touches its word
/// only where that word is reserved, and a write call reads the bytes that it appends to the output.
pub fn access(
    insn: &Insn,
    pc: u32,
    regs: &Regs,
    reserved: Option<u32>,
    span: Span,
    room: u32,
) -> Access
    ensures value { result ≡ access_of insn.now pc regs.now reserved span room }
    ensures inside { IsFootprint insn.now span room result }
{
    Action::of(insn, pc, regs, reserved, span, room).footprint()
}

/// What a hart's next instruction would touch, by the word at its pc: nothing where there is no code
/// or the word is no instruction.
pub fn touched(word: Option<u32>, view: &HartView, span: Span, room: u32) -> Access
    ensures { result ≡ touched word view.now span room }
{
    match word {
        None => Access::Nothing,
        Some(word) => match decode(word) {
            None => Access::Nothing,
            Some(insn) => access(&insn, view.pc, &view.regs, view.reserved, span, room),
        },
    }
}

/// How many bytes a load reads.
pub fn load_size(width: LoadWidth) -> u32
    ensures { result ≡ load_size_of width }
{
    match width {
        LoadWidth::Byte | LoadWidth::ByteU => 1,
        LoadWidth::Half | LoadWidth::HalfU => 2,
        LoadWidth::Word => 4,
    }
}

/// How many bytes a store writes.
pub fn store_size(width: StoreWidth) -> u32
    ensures { result ≡ store_size_of width }
{
    match width {
        StoreWidth::Byte => 1,
        StoreWidth::Half => 2,
        StoreWidth::Word => 4,
    }
}

/// The address of the next instruction in memory.
pub fn next_pc(pc: u32) -> u32
    ensures { result ≡ next_pc_of pc }
{
    pc.wrapping_add(4)
}

/// The target of JALR, whose lowest bit is cleared.
pub fn indirect(sum: u32) -> u32
    ensures { result ≡ indirect_of sum }
{
    sum - sum % 2
}

/// A jump to a target, or its trap.
pub fn jump(target: u32, action: Action) -> Action
    ensures { result ≡ jump_of target action }
{
    if target % 4 == 0 {
        action
    } else {
        Action::Trap {
            cause: INSTRUCTION_ADDRESS_MISALIGNED,
        }
    }
}

/// A branch, taken or not.
pub fn branch(pc: u32, takes: bool, offset: i32) -> Action
    ensures { result ≡ branch_of pc takes offset }
{
    if takes {
        let target = moved(pc, offset);
        jump(target, Action::Go { target })
    } else {
        Action::Go {
            target: next_pc(pc),
        }
    }
}

/// A load of so many bytes, or its trap.
pub fn load(span: Span, address: u32, size: u32, action: Action) -> Action
    requires { 1 ≤ size }
    ensures { result ≡ load_of span address size action }
{
    checked(
        span,
        address,
        size,
        LOAD_ADDRESS_MISALIGNED,
        LOAD_ACCESS_FAULT,
        action,
    )
}

/// A store of so many bytes, or its trap.
pub fn store(span: Span, address: u32, size: u32, action: Action) -> Action
    requires { 1 ≤ size }
    ensures { result ≡ store_of span address size action }
{
    checked(
        span,
        address,
        size,
        STORE_ADDRESS_MISALIGNED,
        STORE_ACCESS_FAULT,
        action,
    )
}

/// A store of the low bytes of a value, or its trap.
pub fn store_value(span: Span, address: u32, size: u32, value: u32) -> Action
    requires { 1 ≤ size }
    ensures { result ≡ store_value_of span address size value }
{
    let action = Action::Store {
        address,
        len: size,
        value,
    };
    store(span, address, size, action)
}

/// An atomic operation on a word, or its trap.
pub fn update(span: Span, op: AmoOp, rd: Reg, address: u32, source: u32) -> Action
    ensures { result ≡ update_of span op rd address source }
{
    let action = Action::Amo {
        op,
        rd,
        address,
        source,
    };
    store(span, address, 4, action)
}

/// An access to so many bytes, or its trap: with the one cause where the address is no multiple of
/// them, else with the other where they are not all in memory.
fn checked(
    span: Span,
    address: u32,
    size: u32,
    misaligned: u8,
    outside: u8,
    action: Action,
) -> Action
    requires { 1 ≤ size }
    ensures { result ≡ checked_of span address size misaligned outside action }
{
    if address % size != 0 {
        Action::Trap { cause: misaligned }
    } else if span.holds(address, size) {
        action
    } else {
        Action::Trap { cause: outside }
    }
}

/// Whether an address is the one that the hart reserved.
fn has_reserved(reserved: Option<u32>, address: u32) -> bool
    ensures { result ≡ has_reserved_of reserved address }
{
    reserved == Some(address)
}

/// A store conditional whose address is no reason to trap.
pub fn conditional(reserved: Option<u32>, rd: Reg, address: u32, value: u32) -> Action
    ensures { result ≡ conditional_of reserved rd address value }
{
    if has_reserved(reserved, address) {
        Action::StoreConditional { rd, address, value }
    } else {
        Action::Fail { rd }
    }
}
