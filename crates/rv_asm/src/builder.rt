ghost use Rattle.std.specs.Prelude.{◌≡◌, ◌<◌, ◌≤◌, [], ℕ, false, length, IfOk, IfSome, IsOk, OnOk, OnErr, None, Some, Err};
ghost use Rattle.rv_word.specs.Validity.{Valid};
ghost use Rattle.rv_asm.specs.Assembly.{IsAssembly, place_of, with_item, with_label, with_place};
ghost use Rattle.rv_asm.specs.Finished.{first_far, first_unplaced, insn_at, is_far, is_far_at, IsAssembled, lesser, offset, unplaced_label};

use crate::fault::AsmFault;
use crate::item::{Item, Label};
use el_base::NoMemory;
use rv_word::{Insn, Reg, Test, encode};
use std::alloc::Global;
use std::marker::Model;

/// The most words of a program.
pub const MOST_WORDS: u32 = 2_097_152;

/// The most labels of a program.
pub const MOST_LABELS: u32 = 2_097_152;

/// A program that is being put together, word by word. Contracts see it as an `Assembly`: what was put, one
/// item a word, and the place of each label. A place is the number of words before it.
///
/// Each call that takes memory answers [`NoMemory`] where it gets none, and the program is then as before.
#[derive(Drop)]
pub struct Asm {
    items: Vec<Item>,
    places: Vec<Option<u32>>,
}

impl Model for Asm {
    ghost use Rattle.rv_asm.specs.Assembly.{Assembly, IsAssembly};

    ghost Value = { Assembly };

    ghost view = { λ a. record { items = a.items.items; places = a.places.items } };

    ghost invariant = { λ a. IsAssembly (record { items = a.items.items; places = a.places.items }) };
}

impl Asm {
    /// A program without words and labels.
    pub fn make(alloc: Global) -> Result<Asm, NoMemory>
        ensures { IfOk result (λ asm. asm ≡ record { items = []; places = [] }) }
    {
        Ok(Asm {
            items: Vec::new(alloc),
            places: Vec::new(alloc),
        })
    }

    /// Puts a valid instruction at the next place.
    pub fn insn(&mut self, insn: Insn) -> Result<(), NoMemory>
        requires valid { Valid insn }
        requires room { length self.old.items < MOST_WORDS }
        ensures ok { OnOk result (self.new ≡ with_item self.old (Item.Fixed insn)) }
        ensures err { OnErr result (self.new ≡ self.old) }
    {
        self.items.push(Item::Fixed(insn))?;
        Ok(())
    }

    /// Makes the next label, which has no place yet. Labels are numbered from 0 on.
    pub fn label(&mut self) -> Result<Label, NoMemory>
        requires room { length self.old.places < MOST_LABELS }
        ensures number { IfOk result (λ label. label.number ≡ length self.old.places) }
        ensures ok { OnOk result (self.new ≡ with_label self.old) }
        ensures err { OnErr result (self.new ≡ self.old) }
    {
        let number = self.places.len() as u32;
        self.places.push(None)?;
        Ok(Label { number })
    }

    /// Puts a label of this program, which has no place yet, at the next place. The label has room for its place
    /// already, so this takes no memory and succeeds.
    pub fn place(&mut self, label: Label) -> Result<(), NoMemory>
        requires made { label.number < length self.old.places }
        requires not_placed { place_of self.old label ≡ None }
        ensures exact { self.new ≡ with_place self.old label }
        ensures succeeds { IsOk result }
    {
        self.places[label.number as usize] = Some(self.items.len() as u32);
        Ok(())
    }

    /// Puts a conditional branch to a label of this program at the next place.
    pub fn branch(&mut self, test: Test, rs1: Reg, rs2: Reg, label: Label) -> Result<(), NoMemory>
        requires made { label.number < length self.old.places }
        requires room { length self.old.items < MOST_WORDS }
        ensures ok { OnOk result (self.new ≡ with_item self.old (Item.BranchTo test rs1 rs2 label)) }
        ensures err { OnErr result (self.new ≡ self.old) }
    {
        self.items.push(Item::BranchTo {
            test,
            rs1,
            rs2,
            label,
        })?;
        Ok(())
    }

    /// Puts a jump to a label of this program at the next place; the address behind it goes to `rd`.
    pub fn jump(&mut self, rd: Reg, label: Label) -> Result<(), NoMemory>
        requires made { label.number < length self.old.places }
        requires room { length self.old.items < MOST_WORDS }
        ensures ok { OnOk result (self.new ≡ with_item self.old (Item.JumpTo rd label)) }
        ensures err { OnErr result (self.new ≡ self.old) }
    {
        self.items.push(Item::JumpTo { rd, label })?;
        Ok(())
    }

    /// The words, in order: those of the instructions, and for each branch and jump the one whose offset is 4
    /// times the number of words to its label's place (RISC-V unprivileged manual, chapter 2, 'Control Transfer
    /// Instructions'). That labels without a place are told first is this project's profile.
    pub fn finish(self) -> Result<Vec<u32>, AsmFault>
        ensures words { IfOk result (λ words.
            (first_unplaced self ≡ None) × (first_far self ≡ None) × IsAssembled self words.items) }
        ensures unplaced { (label : ℕ) → result ≡ Err (AsmFault.Unplaced label) → first_unplaced self ≡ Some label }
        ensures far { (place : ℕ) → result ≡ Err (AsmFault.Far place) →
            (first_unplaced self ≡ None) × (first_far self ≡ Some place) }
        ensures memory_after_faults { result ≡ Err AsmFault.NoMemory →
            (first_unplaced self ≡ None) × (first_far self ≡ None) }
        ensures valid { IsAssembly self }
    {
        if let Some(label) = self.first_unplaced() {
            return Err(AsmFault::Unplaced { label });
        }
        if let Some(place) = self.first_far() {
            return Err(AsmFault::Far { place });
        }
        Ok(self.words()?)
    }

    /// The least label that is used and not placed.
    #[tactic(auto, unfolding(crate::specs::Finished::first_unplaced))]
    fn first_unplaced(&self) -> Option<u32>
        ensures { result ≡ first_unplaced self.now }
    {
        self.items
            .iter()
            .filter_map(|item| self.unplaced_label(item))
            .fold(None, lesser)
    }

    /// The number of the label of a branch or jump, if that has no place.
    fn unplaced_label(&self, item: &Item) -> Option<u32>
        ensures { result ≡ unplaced_label self.now item.now }
    {
        let label = item.label()?;
        match self.place_of(label) {
            None => Some(label.number),
            Some(_) => None,
        }
    }

    /// The first place whose offset does not fit.
    #[tactic(auto, unfolding(crate::specs::Finished::first_far))]
    fn first_far(&self) -> Option<u32>
        ensures { result ≡ first_far self.now }
    {
        (0..self.items.len() as u32).find(|place| self.is_far_at(*place))
    }

    /// Whether the offset at a place does not fit.
    fn is_far_at(&self, place: u32) -> bool
        requires { place < length self.now.items }
        ensures { result ≡ is_far_at self.now place }
    {
        self.insn_at(place).is_some_and(is_far)
    }

    /// The words, where each label that is used has a place and is near enough.
    fn words(&self) -> Result<Vec<u32>, NoMemory>
        requires placed { first_unplaced self.now ≡ None }
        requires near { first_far self.now ≡ None }
        ensures { IfOk result (λ words. IsAssembled self.now words.items) }
    {
        let mut words = Vec::with_capacity(*self.items.allocator(), self.items.len())?;
        for place in 0..self.items.len() as u32 {
            words.push_reserved(encode(self.near_insn(place)));
        }
        Ok(words)
    }

    /// The instruction at a place, where each label that is used has a place and is near enough.
    #[tactic(auto, using(crate::proofs::Placed::placed_insn, crate::proofs::Placed::near_at))]
    fn near_insn(&self, place: u32) -> Insn
        requires within { place < length self.now.items }
        requires placed { first_unplaced self.now ≡ None }
        requires near { first_far self.now ≡ None }
        ensures exact { insn_at self.now place ≡ Some result }
        ensures valid { Valid result }
    {
        self.insn_at(place).unwrap()
    }

    /// The instruction at a place, if its label has a place.
    #[tactic(auto, unfolding(crate::specs::Finished::insn_at))]
    fn insn_at(&self, place: u32) -> Option<Insn>
        requires { place < length self.now.items }
        ensures exact { result ≡ insn_at self.now place }
        ensures near_one_is_valid { IfSome result (λ insn. is_far insn ≡ false → Valid insn) }
    {
        Some(match self.items[place as usize] {
            Item::Fixed(insn) => insn,
            Item::BranchTo {
                test,
                rs1,
                rs2,
                label,
            } => Insn::Branch {
                test,
                rs1,
                rs2,
                offset: offset(place, self.place_of(label)?),
            },
            Item::JumpTo { rd, label } => Insn::Jal {
                rd,
                offset: offset(place, self.place_of(label)?),
            },
        })
    }

    /// The place of a label, if it has one.
    fn place_of(&self, label: Label) -> Option<u32>
        ensures exact { result ≡ place_of self.now label }
        ensures within { IfSome result (λ place. place ≤ MOST_WORDS) }
    {
        *self.places.get(label.number as usize)?
    }
}

/// The bytes from one place to another.
fn offset(from: u32, to: u32) -> i32
    requires from_within { from ≤ MOST_WORDS }
    requires to_within { to ≤ MOST_WORDS }
    ensures { result ≡ offset from to }
{
    4 * (to as i32 - from as i32)
}

/// Whether the offset of a branch or jump does not fit its form.
fn is_far(insn: Insn) -> bool
    ensures { result ≡ is_far insn }
{
    match insn {
        Insn::Branch { offset, .. } => !(-0x1000..0x1000).contains(&offset),
        Insn::Jal { offset, .. } => !(-0x10_0000..0x10_0000).contains(&offset),
        _ => false,
    }
}

/// The lesser of two numbers, of which there may be one.
fn lesser(least: Option<u32>, number: u32) -> Option<u32>
    ensures { result ≡ lesser least number }
{
    match least {
        None => Some(number),
        Some(least) => Some(least.min(number)),
    }
}
