ghost use Rattle.std.specs.Prelude.{◌≡◌, ◌<◌, ◌≤◌, length, IfOk, OnOk};
ghost use Rattle.rv_asm.specs.Finished.{IsAssembled};
ghost use Rattle.rv_word.specs.Validity.{Valid};
ghost use Rattle.workload.specs.Extent.{Extent, HasRoom, extent, grown};
ghost use Rattle.workload.specs.Putting as listed;

use crate::registers::Register;
use el_base::NoMemory;
use rv_asm::{Asm, AsmFault, Label};
use rv_word::{Insn, Test};
use std::alloc::Global;
use std::marker::Model;

/// The most words of a program, and the most labels. With so few words each branch reaches each label.
pub const MOST_WORDS: u32 = 1_000;

/// A program in which each branch and jump goes back, so that its label has its place already.
#[derive(Drop)]
pub struct Program {
    asm: Asm,
}

impl Model for Program {
    ghost use Rattle.std.specs.Prelude.{All, IsSome};
    ghost use Rattle.rv_asm.specs.Assembly.{Assembly};

    ghost Value = { Assembly };

    ghost view = { λ p. p.asm };

    ghost invariant = { λ p. All IsSome p.asm.places };
}

impl Program {
    /// A program without words.
    #[tactic(auto, unfolding(crate::specs::Extent::extent, crate::specs::Putting::empty))]
    pub fn make(alloc: Global) -> Result<Program, NoMemory>
        ensures size { IfOk result (λ program. extent program ≡ record { words = 0; labels = 0 }) }
        ensures listed { IfOk result (λ program. program ≡ listed.empty) }
    {
        Ok(Program {
            asm: Asm::make(alloc)?,
        })
    }

    /// Puts an instruction behind the others.
    #[tactic(auto, unfolding(crate::specs::Extent::extent, crate::specs::Putting::put))]
    pub fn put(&mut self, insn: Insn) -> Result<(), NoMemory>
        requires valid { Valid insn }
        requires room { HasRoom (extent self.old) 1 0 }
        ensures size { OnOk result (extent self.new ≡ grown (extent self.old) 1 0) }
        ensures listed { OnOk result (self.new ≡ listed.put insn self.old) }
    {
        self.asm.insn(insn)
    }

    /// A label at the next word.
    #[tactic(auto, unfolding(crate::specs::Extent::extent, crate::specs::Putting::here, crate::specs::Putting::next_label))]
    pub fn here(&mut self) -> Result<Label, NoMemory>
        requires room { HasRoom (extent self.old) 0 1 }
        ensures made { IfOk result (λ label. label.number ≡ (extent self.old).labels) }
        ensures label { IfOk result (λ label. label ≡ listed.next_label self.old) }
        ensures size { OnOk result (extent self.new ≡ grown (extent self.old) 0 1) }
        ensures listed { OnOk result (self.new ≡ listed.here self.old) }
    {
        let label = self.asm.label()?;
        self.asm.place(label)?;
        Ok(label)
    }

    /// Branches back to the label.
    #[tactic(auto, unfolding(crate::specs::Extent::extent, crate::specs::Putting::branch))]
    pub fn branch(
        &mut self,
        test: Test,
        rs1: Register,
        rs2: Register,
        label: Label,
    ) -> Result<(), NoMemory>
        requires made { label.number < (extent self.old).labels }
        requires room { HasRoom (extent self.old) 1 0 }
        ensures size { OnOk result (extent self.new ≡ grown (extent self.old) 1 0) }
        ensures listed { OnOk result (self.new ≡ listed.branch test rs1 rs2 label self.old) }
    {
        self.asm.branch(test, rs1.reg(), rs2.reg(), label)
    }

    /// Jumps back to the label.
    #[tactic(auto, unfolding(crate::specs::Extent::extent, crate::specs::Putting::jump))]
    pub fn jump(&mut self, rd: Register, label: Label) -> Result<(), NoMemory>
        requires made { label.number < (extent self.old).labels }
        requires room { HasRoom (extent self.old) 1 0 }
        ensures size { OnOk result (extent self.new ≡ grown (extent self.old) 1 0) }
        ensures listed { OnOk result (self.new ≡ listed.jump rd label self.old) }
    {
        self.asm.jump(rd.reg(), label)
    }

    /// The words in order.
    #[tactic(auto, using(rv_asm::proofs::Laws::Faultless::all_placed, rv_asm::proofs::Laws::Faultless::short_near), unfolding(crate::specs::Extent::extent))]
    pub fn finish(self) -> Result<Vec<u32>, NoMemory>
        requires { (extent self).words ≤ MOST_WORDS }
        ensures size { IfOk result (λ words. length words.items ≡ (extent self).words) }
        ensures assembled { IfOk result (λ words. IsAssembled self words.items) }
    {
        match self.asm.finish() {
            Ok(words) => Ok(words),
            Err(AsmFault::NoMemory) => Err(NoMemory),
            Err(AsmFault::Unplaced { .. }) => unreachable!(),
            Err(AsmFault::Far { .. }) => unreachable!(),
        }
    }
}
