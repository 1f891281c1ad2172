//! Writing: from what is built to the bytes of an image file.

ghost use Rattle.std.specs.Prelude.{◌≡◌, ◌≤◌, ◌<◌, ℕ, ◌+◌, ◌*◌, IfOk, Some, length, slice_index};
ghost use Rattle.elf_image.specs.Built.{IsBuildable, built_program, image_file};
ghost use Rattle.elf_image.specs.Faults.{IsFaultless};
ghost use Rattle.elf_image.specs.Limits.{file_limit};
ghost use Rattle.elf_image.specs.Loaded.{program_of};
ghost use Rattle.elf_image.specs.Program.{code_word};

use crate::built::Built;
use el_base::NoMemory;
use std::alloc::Global;

/// The file of an image of two load segments: the words at their base, and the data on the first page
/// behind them.
pub fn write_image(alloc: Global, built: &Built) -> Result<Vec<u8>, NoMemory>
    requires { IsBuildable built.now }
    ensures exact { IfOk result (λ file. file.items ≡ image_file built.now) }
    ensures within_limit { IfOk result (λ file. length file.items ≤ file_limit) }

    // Any number of harts takes the file, and loads exactly what was built.
    ensures accepted { IfOk result (λ file. IsFaultless file.items) }
    ensures loaded { IfOk result (λ file. (harts : ℕ) → program_of file.items harts ≡ built_program built.now harts) }
    ensures words { IfOk result (λ file. (harts index : ℕ) → index < length built.now.words.items →
        code_word (program_of file.items harts).code (built.now.base + 4 * index)
        ≡ Some (slice_index built.now.words.items index)) }
{
    let mut file = Vec::new(alloc);
    built.write(&mut file)?;
    Ok(file)
}
