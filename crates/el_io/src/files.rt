//! Files in memory, by name: what the shelves in memory share.
ghost use Rattle.std.specs.Prelude.{◌≡◌, ℕ, List, length, Option, IfOk, OnOk, OnErr};
ghost use Rattle.std.specs.Option.{option_copied};
ghost use Rattle.std.specs.BTreeMap.{IsUnchanged};
ghost use Rattle.el_io.specs.Files.{file_of, file_after, file_given};

use std::alloc::{AllocError, Global};
use std::collections::BTreeMap;

pub(crate) type Files = BTreeMap<String, Vec<u8>>;

/// The files that have the contents at each place under the name at that place. Where a name stands
/// twice, the first place counts.
pub(crate) fn files_of(
    alloc: Global,
    names: &[String],
    contents: &[Vec<u8>],
) -> Result<Files, AllocError>
    requires same_length { length names.now ≡ length contents.now }
    ensures exact { IfOk result (λ files.
        (name : List ℕ) → file_of files name ≡ file_given names.now contents.now name) }
{
    let mut files = BTreeMap::new(alloc);
    let mut place = names.len();
    while place > 0 {
        place -= 1;
        store(
            &mut files,
            alloc,
            names[place].as_str(),
            contents[place].as_slice(),
        )?;
    }
    Ok(files)
}

/// The bytes of the file of this name, if there is one.
pub(crate) fn find<'a>(files: &'a Files, name: &str) -> Option<&'a [u8]>
    ensures exact { option_copied result ≡ file_of files.now name.now }
{
    files.get(name).map(|file| file.as_slice())
}

/// Makes a copy of the bytes the file of this name.
pub(crate) fn store(
    files: &mut Files,
    alloc: Global,
    name: &str,
    bytes: &[u8],
) -> Result<(), AllocError>
    ensures exact { OnOk result ((other : List ℕ) →
        file_of files.new other ≡ file_after files.old name.now bytes.now other) }
    ensures unchanged_after_error { OnErr result (IsUnchanged files.old files.new) }
{
    let name = String::from_str(alloc, name)?;
    let file = Vec::from_slice(alloc, bytes)?;
    files.insert(name, file)?;
    Ok(())
}
