use crate::abi::A0;
use crate::cause::{BREAKPOINT, ILLEGAL_INSTRUCTION, INSTRUCTION_ACCESS_FAULT};
use crate::checks::{
    branch, conditional, indirect, jump, load, load_size, next_pc, store, store_size, store_value,
    update,
};
use crate::effects::{advance, link, put, release};
use crate::footprint::Access;
use crate::operation::{alu, amo, extend, moved, taken};
use crate::regs::Regs;
use crate::span::Span;
use crate::syscall::call;
use crate::transfers::{Append, Load, Store, Transfers};
use crate::view::{HartStatus, HartView};
use rv_word::{AmoOp, Insn, LoadWidth, Reg, decode};

/// What an instruction does, with its registers read and its checks made, before anything happens.
/// Where nothing else is said the hart goes on to the next instruction in memory.
#[derive(Clone, Copy, Debug, PartialEq, Eq)]
pub enum Action {
    /// It traps with this cause, one of [`crate::cause`].
    Trap {
        cause: u8,
    },
    /// It makes the exit call with this code.
    Exit {
        code: u32,
    },
    /// A value goes into `rd`.
    Put {
        rd: Reg,
        value: u32,
    },
    /// The hart jumps, and the address of the next instruction in memory goes into `rd`.
    JumpAndLink {
        rd: Reg,
        target: u32,
    },
    /// The hart goes on at this address.
    Go {
        target: u32,
    },
    /// A system call is answered with this value.
    Answer {
        value: u32,
    },
    /// A write call appends `len` bytes from `address` on to the output, and is answered with `len`.
    Append {
        address: u32,
        len: u32,
    },
    /// What is loaded from `address` on goes into `rd`, extended to a word.
    Load {
        width: LoadWidth,
        rd: Reg,
        address: u32,
    },
    /// The word at `address` goes into `rd`, and is reserved.
    LoadReserved {
        rd: Reg,
        address: u32,
    },
    /// The low `len` bytes of `value` are stored from `address` on.
    Store {
        address: u32,
        len: u32,
        value: u32,
    },
    /// A store conditional stores its word, and 0 goes into `rd`.
    StoreConditional {
        rd: Reg,
        address: u32,
        value: u32,
    },
    /// A store conditional fails, and 1 goes into `rd`.
    Fail {
        rd: Reg,
    },
    /// The word at `address` goes into `rd`, and the result of the operation on it and `source` is
    /// stored in its place.
    Amo {
        op: AmoOp,
        rd: Reg,
        address: u32,
        source: u32,
    },
}

impl Action {
    ghost use Rattle.std.specs.Prelude.{◌≡◌, ℕ, IfSome, is_some};
    ghost use Rattle.rv_alu.specs.Action.{action_at, action_of};
    ghost use Rattle.rv_alu.specs.Execution.{append_in, loads, number_of, perform, store_in, view_after};
    ghost use Rattle.rv_alu.specs.Footprint.{IsAppendIn, IsFootprint, IsInPlace, IsLoadIn, IsStoreIn, footprint};

    /// What a hart does next, by the word at its pc (`None` where there is no code). `room` is how
    /// many bytes the output still takes.
    pub fn at(word: Option<u32>, view: &HartView, span: Span, room: u32) -> Action
        ensures value { result ≡ action_at word view.now span room }
        ensures in_place { IsInPlace span room result }
    {
        match word {
            None => Action::Trap {
                cause: INSTRUCTION_ACCESS_FAULT,
            },
            Some(word) => match decode(word) {
                None => Action::Trap {
                    cause: ILLEGAL_INSTRUCTION,
                },
                Some(insn) => Action::of(&insn, view.pc, &view.regs, view.reserved, span, room),
            },
        }
    }

    /// What an instruction does. A jump or a branch that is taken traps with cause 0 where its target
    /// is no multiple of 4, and EBREAK traps with 3. A load or LR traps with 4 where its address is
    /// no multiple of its size, and with 5 where it is one and not all of its bytes are in memory; a
    /// store, SC or atomic operation likewise with 6 and 7. (RISC-V unprivileged manual, chapter 2
    /// and 'A Standard Extension for Atomic Instructions'; causes as in the privileged manual's
    /// `mcause`; the order of the checks and the calls are this project's profile.)
    #[inline(always)]
    #[tactic(auto, using(crate::proofs::Laws::Footprints::fits))]
    pub fn of(
        insn: &Insn,
        pc: u32,
        regs: &Regs,
        reserved: Option<u32>,
        span: Span,
        room: u32,
    ) -> Action
        ensures value { result ≡ action_of insn.now pc regs.now reserved span room }
        ensures in_place { IsInPlace span room result }
        ensures footprint { IsFootprint insn.now span room (footprint result) }
    {
        Action::decide(insn, pc, regs, reserved, span, room)
    }

    /// What an instruction does, by its row.
    #[inline(always)]
    #[tactic(auto, unfolding(crate::specs::Action::action_of))]
    fn decide(
        insn: &Insn,
        pc: u32,
        regs: &Regs,
        reserved: Option<u32>,
        span: Span,
        room: u32,
    ) -> Action
        ensures { result ≡ action_of insn.now pc regs.now reserved span room }
    {
        match *insn {
            Insn::Lui { rd, imm } => Action::Put { rd, value: imm },
            Insn::Auipc { rd, imm } => Action::Put {
                rd,
                value: pc.wrapping_add(imm),
            },
            Insn::Jal { rd, offset } => {
                let target = moved(pc, offset);
                jump(target, Action::JumpAndLink { rd, target })
            }
            Insn::Jalr { rd, rs1, offset } => {
                let target = indirect(moved(regs.get(rs1), offset));
                jump(target, Action::JumpAndLink { rd, target })
            }
            Insn::Branch {
                test,
                rs1,
                rs2,
                offset,
            } => { branch(pc, taken(test, regs.get(rs1), regs.get(rs2)), offset) }
            Insn::Load {
                width,
                rd,
                rs1,
                offset,
            } => {
                let address = moved(regs.get(rs1), offset);
                let action = Action::Load { width, rd, address };
                load(span, address, load_size(width), action)
            }
            Insn::Store {
                width,
                rs1,
                rs2,
                offset,
            } => {
                let address = moved(regs.get(rs1), offset);
                store_value(span, address, store_size(width), regs.get(rs2))
            }
            Insn::OpImm { op, rd, rs1, imm } => Action::Put {
                rd,
                value: alu(op, regs.get(rs1), imm.cast_unsigned()),
            },
            Insn::Op { op, rd, rs1, rs2 } => Action::Put {
                rd,
                value: alu(op, regs.get(rs1), regs.get(rs2)),
            },
            Insn::Fence => Action::Go {
                target: next_pc(pc),
            },
            Insn::Ecall => call(regs, span, room),
            Insn::Ebreak => Action::Trap { cause: BREAKPOINT },
            Insn::Lr { rd, rs1, .. } => {
                let address = regs.get(rs1);
                load(span, address, 4, Action::LoadReserved { rd, address })
            }
            Insn::Sc { rd, rs1, rs2, .. } => {
                let action = conditional(reserved, rd, regs.get(rs1), regs.get(rs2));
                store(span, regs.get(rs1), 4, action)
            }
            Insn::Amo {
                op,
                rd,
                rs1,
                rs2,
                ..
            } => {
                let address = regs.get(rs1);
                update(span, op, rd, address, regs.get(rs2))
            }
        }
    }

    /// What it touches, or how it stops its hart.
    pub fn footprint(self) -> Access
        ensures { result ≡ footprint self }
    {
        match self {
            Action::Trap { cause } => Access::Trap { cause },
            Action::Exit { code } => Access::Exit { code },
            Action::Put { .. }
            | Action::JumpAndLink { .. }
            | Action::Go { .. }
            | Action::Answer { .. }
            | Action::Fail { .. } => { Access::Nothing }
            Action::Append { address, len } => Access::Read { address, len },
            Action::Load { width, address, .. } => Access::Read {
                address,
                len: load_size(width),
            },
            Action::LoadReserved { address, .. } => Access::Read { address, len: 4 },
            Action::Store { address, len, .. } => Access::Write { address, len },
            Action::StoreConditional { address, .. } | Action::Amo { address, .. } => {
                Access::Write { address, len: 4 }
            }
        }
    }

    /// The bytes of memory that it loads, where it loads any.
    pub fn loads(self) -> Option<Load>
        ensures value { result ≡ loads self }
        ensures in_place { (span : Span) (room : ℕ) → IsInPlace span room self → IfSome result (IsLoadIn span) }
    {
        match self {
            Action::Load { width, address, .. } => Some(Load {
                address,
                len: load_size(width),
            }),
            Action::LoadReserved { address, .. } | Action::Amo { address, .. } => {
                Some(Load { address, len: 4 })
            }
            _ => None,
        }
    }

    /// Does it to the hart's view, given the number in the bytes that it loads (`None` where it loads
    /// none), and tells what is left to be done: what it stores in memory and what it appends to the
    /// output. A hart that traps or exits keeps all but its status. LR reserves its word, and a
    /// store, SC or atomic operation ends the hart's own reservation.
    #[inline(always)]
    pub fn perform(self, view: &mut HartView, number: Option<u32>) -> Transfers
        requires { is_some number ≡ is_some (loads self) }
        ensures view { (byte : ℕ → ℕ) → number ≡ number_of self byte →
            view.new ≡ view_after (perform self view.old byte) view.old }
        ensures store { (byte : ℕ → ℕ) → number ≡ number_of self byte →
            result.store ≡ store_in (perform self view.old byte) }
        ensures append { (byte : ℕ → ℕ) → number ≡ number_of self byte →
            result.append ≡ append_in (perform self view.old byte) }

        ensures store_in_place { (span : Span) (room : ℕ) → IsInPlace span room self →
            IfSome result.store (IsStoreIn span) }
        ensures append_in_place { (span : Span) (room : ℕ) → IsInPlace span room self →
            IfSome result.append (IsAppendIn span room) }
    {
        self.change(view, number);
        Transfers {
            store: self.stores(number),
            append: self.appends(),
        }
    }

    /// The hart's view after it.
    #[inline(always)]
    fn change(self, view: &mut HartView, number: Option<u32>)
        requires { is_some number ≡ is_some (loads self) }
        ensures { (byte : ℕ → ℕ) → number ≡ number_of self byte →
            view.new ≡ view_after (perform self view.old byte) view.old }
    {
        match self {
            Action::Trap { cause } => view.status = HartStatus::Trapped { cause, pc: view.pc },
            Action::Exit { code } => view.status = HartStatus::Exited { code },
            Action::Put { rd, value } => put(view, rd, value),
            Action::JumpAndLink { rd, target } => link(view, rd, target),
            Action::Go { target } => view.pc = target,
            Action::Answer { value } => put(view, A0, value),
            Action::Append { len, .. } => put(view, A0, len),
            Action::Load { width, rd, .. } => put(view, rd, extend(width, number.unwrap())),
            Action::LoadReserved { rd, address } => {
                put(view, rd, number.unwrap());
                view.reserved = Some(address);
            }
            Action::Store { .. } => {
                advance(view);
                release(view);
            }
            Action::StoreConditional { rd, .. } => {
                put(view, rd, 0);
                release(view);
            }
            Action::Fail { rd } => {
                put(view, rd, 1);
                release(view);
            }
            Action::Amo { rd, .. } => {
                put(view, rd, number.unwrap());
                release(view);
            }
        }
    }

    /// What it stores.
    fn stores(self, number: Option<u32>) -> Option<Store>
        requires { is_some number ≡ is_some (loads self) }
        ensures value { (view : HartView) (byte : ℕ → ℕ) → number ≡ number_of self byte →
            result ≡ store_in (perform self view byte) }
        ensures in_place { (span : Span) (room : ℕ) → IsInPlace span room self → IfSome result (IsStoreIn span) }
    {
        match self {
            Action::Store {
                address,
                len,
                value,
            } => Some(Store {
                address,
                len,
                value,
            }),
            Action::StoreConditional { address, value, .. } => Some(Store {
                address,
                len: 4,
                value,
            }),
            Action::Amo {
                op,
                address,
                source,
                ..
            } => Some(Store {
                address,
                len: 4,
                value: amo(op, number.unwrap(), source),
            }),
            _ => None,
        }
    }

    /// What it appends to the output.
    fn appends(self) -> Option<Append>
        ensures value { (view : HartView) (byte : ℕ → ℕ) → result ≡ append_in (perform self view byte) }
        ensures in_place { (span : Span) (room : ℕ) → IsInPlace span room self → IfSome result (IsAppendIn span room) }
    {
        match self {
            Action::Append { address, len } => Some(Append { address, len }),
            _ => None,
        }
    }
}
