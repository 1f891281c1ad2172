//! The entries of a symbol table.

ghost use Rattle.std.specs.Prelude.{◌≡◌, ◌≤◌, ◌^◌};
ghost use Rattle.elf_symbols.specs.Entries as entries;

use crate::fields::{byte_at, half_at, tail, word_at};
use crate::location::{Place, SYMBOL_LEN};

/// A named place in the program.
#[derive(Clone, Copy, Debug, PartialEq, Eq)]
pub struct Symbol {
    /// st_value: the address.
    pub value: u32,
    /// Where the name stands in the table of strings.
    pub name_at: u32,
    /// How many bytes the name has, 1 to 255.
    pub name_len: u8,
}

/// STT_FUNC, the last of the types that are taken: those before it are none and data.
const STT_FUNC: u8 = 2;

/// SHN_UNDEF: the symbol is defined elsewhere.
const SHN_UNDEF: u16 = 0;

/// SHN_LORESERVE: from here on a section's number has another meaning.
const SHN_LORESERVE: u16 = 0xff00;

/// The most bytes of a name.
const NAME_LIMIT: usize = 255;

/// The entry of this number, where it names a place in a section: its type is none, data or code, and its name has 1 to
/// 255 printable ASCII characters, of which the first is no `$`, as that of a mapping symbol (RISC-V ELF psABI, 'Mapping
/// Symbol').
#[tactic(auto, unfolding(crate::specs::Entries::symbol_at))]
pub(crate) fn symbol_at(file: &[u8], place: Place, index: u32) -> Option<Symbol>
    ensures { result ≡ entries.symbol_at file.now place index }
{
    let entry = place.entries as usize + SYMBOL_LEN * index as usize;
    let st_name = word_at(file, entry);
    let name = place.names as usize + st_name as usize;
    let name_len = name_len(file, name);
    let is_named = st_name < place.names_len
        && 1 <= name_len
        && byte_at(file, name) != b'$'
        && byte_at(file, name + name_len as usize) == 0;
    if is_named && is_placed(file, entry) {
        Some(Symbol {
            value: word_at(file, entry + 4),
            name_at: st_name,
            name_len,
        })
    } else {
        None
    }
}

/// Whether the entry at a place of the file is of a place in a section of the file.
fn is_placed(file: &[u8], entry: usize) -> bool
    requires { entry ≤ 2 ^ 40 }
    ensures { result ≡ entries.is_placed file.now entry }
{
    let st_info = byte_at(file, entry + 12);
    let st_shndx = half_at(file, entry + 14);
    st_info % 16 <= STT_FUNC && st_shndx != SHN_UNDEF && st_shndx < SHN_LORESERVE
}

/// How many printable characters stand at a place of the file, 255 at most.
fn name_len(file: &[u8], place: usize) -> u8
    ensures { result ≡ entries.name_len file.now place }
{
    let count = tail(file, place)
        .iter()
        .take(NAME_LIMIT)
        .take_while(|byte| byte.is_ascii_graphic())
        .count();
    count as u8
}
