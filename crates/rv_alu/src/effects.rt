ghost use Rattle.std.specs.Prelude.{◌≡◌};
ghost use Rattle.rv_alu.specs.Execution.{advance_of, link_of, put_of, release_of};

use crate::checks::next_pc;
use crate::view::HartView;
use rv_word::Reg;

/// The hart goes on to the next instruction in memory.
pub fn advance(view: &mut HartView)
    ensures { view.new ≡ advance_of view.old }
{
    view.pc = next_pc(view.pc);
}

/// The hart goes on to the next instruction in memory, with a value in a register.
pub fn put(view: &mut HartView, rd: Reg, value: u32)
    ensures { view.new ≡ put_of view.old rd.number value }
{
    view.regs.set(rd, value);
    view.pc = next_pc(view.pc);
}

/// The hart jumps, with the address of the next instruction in memory in a register.
pub fn link(view: &mut HartView, rd: Reg, target: u32)
    ensures { view.new ≡ link_of view.old rd.number target }
{
    let behind = next_pc(view.pc);
    view.regs.set(rd, behind);
    view.pc = target;
}

/// The hart's own reservation ends.
pub fn release(view: &mut HartView)
    ensures { view.new ≡ release_of view.old }
{
    view.reserved = None;
}
