ghost use Rattle.std.specs.Prelude.{◌≡◌, IfOk};
ghost use Rattle.elf_image.specs.Program.{code_word};

use crate::code_segment::CodeSegment;
use el_base::NoMemory;
use std::alloc::Global;
use std::marker::Model;
use std::sync::Arc;

/// What instructions are fetched from: the executable segments as loaded, which no store changes. Every
/// machine of an image shares them.
#[derive(Debug, Drop)]
pub struct Code {
    segments: Arc<Vec<CodeSegment>>,
}

impl Model for Code {
    ghost use Rattle.std.specs.Prelude.{List};
    ghost use Rattle.std.specs.Arc.{arc_value};
    ghost use Rattle.elf_image.specs.Program.{CodeSegment};

    ghost Value = { List CodeSegment };

    ghost view = { λ a. (arc_value a.segments).items };
}

impl Code {
    /// The code of these segments.
    pub(crate) fn new(alloc: Global, segments: Vec<CodeSegment>) -> Result<Code, NoMemory>
        ensures { IfOk result (λ code. code ≡ segments.items) }
    {
        Ok(Code {
            segments: Arc::new(alloc, segments)?,
        })
    }

    /// The segments, in the order of the file's table.
    pub fn segments(&self) -> &[CodeSegment]
        ensures { result.now ≡ self.now }
    {
        self.segments.as_slice()
    }

    /// The word at `pc`, or none where its four bytes do not all lie in one segment. It takes no
    /// memory.
    #[tactic(auto, unfolding(crate::specs::Program::code_word))]
    pub fn code_word(&self, pc: u32) -> Option<u32>
        ensures { result ≡ code_word self.now pc }
    {
        self.segments()
            .iter()
            .find(|segment| segment.has_word(pc))
            .map(|segment| segment.word(pc))
    }

    /// The same segments once more, which takes no memory. The one error is that they have as many owners
    /// as can be counted.
    pub fn share(&self) -> Result<Code, NoMemory>
        ensures { IfOk result (λ shared. shared ≡ self.now) }
    {
        Ok(Code {
            segments: Arc::try_clone(&self.segments)?,
        })
    }
}
