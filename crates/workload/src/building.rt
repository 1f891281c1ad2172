//! From a kind and a number to the file of an image.

ghost use Rattle.std.specs.Prelude.{◌≡◌, ◌<◌, ◌≤◌, length, IfOk};
ghost use Rattle.elf_image.specs.Faults.{IsFaultless};
ghost use Rattle.elf_image.specs.Limits.{file_limit};
ghost use Rattle.elf_image.specs.Numbers.{word_at};
ghost use Rattle.rv_asm.specs.Finished.{IsAssembled};
ghost use Rattle.workload.specs.Image.{IsImageOf, IsWorkload, number_in};
ghost use Rattle.workload.specs.Listing.{listing};

use crate::data::data;
use crate::ending::ending;
use crate::layout::{BASE, DATA_LEN};
use crate::parts::{leave, start};
use crate::program::{MOST_WORDS, Program};
use crate::rounds::rounds;
use crate::work::Work;
use el_base::NoMemory;
use elf_image::{Built, write_image};
use std::alloc::Global;

/// The address at which each hart begins, behind the three words that end it.
const ENTRY: u32 = BASE + 12;

/// The file of the image of a workload, which any number of harts runs. Workloads that draw numbers draw them from
/// `number` on; the image of each other kind has it too.
#[tactic(auto, using(crate::proofs::Images::is_workload, crate::proofs::Contents::filled, crate::proofs::Contents::fits, crate::proofs::Contents::has_number))]
pub fn build(alloc: Global, kind: Work, number: u32) -> Result<Vec<u8>, NoMemory>
    ensures accepted { IfOk result (λ file. IsFaultless file.items) }
    ensures within_limit { IfOk result (λ file. length file.items ≤ file_limit) }
    ensures exact { IfOk result (λ file. IsWorkload kind number file.items) }
    ensures numbered { IfOk result (λ file. number_in file.items ≡ number) }
{
    let words = words(alloc, kind)?;
    let bytes = data(alloc, kind, number)?;
    image_of(alloc, words, bytes)
}

/// The file of the image of these words and of the data that begins with these bytes.
fn image_of(alloc: Global, words: Vec<u32>, bytes: Vec<u8>) -> Result<Vec<u8>, NoMemory>
    requires has_entry { 3 < length words.items }
    requires few { length words.items ≤ MOST_WORDS }
    requires some { 4 ≤ length bytes.items }
    requires fits { length bytes.items ≤ DATA_LEN }
    ensures accepted { IfOk result (λ file. IsFaultless file.items) }
    ensures within_limit { IfOk result (λ file. length file.items ≤ file_limit) }
    ensures exact { IfOk result (λ file. IsImageOf words.items bytes.items file.items) }
    ensures numbered { IfOk result (λ file. number_in file.items ≡ word_at bytes.items 0) }
{
    let zeros = DATA_LEN - bytes.len() as u32;
    let built = Built {
        base: BASE,
        words,
        bytes,
        zeros,
        entry: ENTRY,
    };
    let file = write_image(alloc, &built)?;
    Ok(file)
}

/// The words of the program.
#[tactic(auto, unfolding(crate::specs::Listing::listing))]
fn words(alloc: Global, kind: Work) -> Result<Vec<u32>, NoMemory>
    ensures has_entry { IfOk result (λ words. 3 < length words.items) }
    ensures fits { IfOk result (λ words. length words.items ≤ MOST_WORDS) }
    ensures assembled { IfOk result (λ words. IsAssembled (listing kind) words.items) }
{
    let mut program = Program::make(alloc)?;
    let leave = leave(&mut program)?;
    start(&mut program)?;
    rounds(&mut program, kind)?;
    ending(&mut program, kind.words(), leave)?;
    program.finish()
}
