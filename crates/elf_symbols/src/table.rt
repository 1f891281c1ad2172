//! The symbols of a file.

ghost use Rattle.std.specs.Prelude.{◌≡◌, ◌≢◌, ◌<◌, [], All, IfOk, OnOk, MatchOption, Err, drop, take};
ghost use Rattle.elf_symbols.specs.Known as known;
ghost use Rattle.elf_symbols.specs.Known.{IsNearest, table_at, table_of};
ghost use Rattle.elf_symbols.specs.Entries.{symbol_at};
ghost use Rattle.elf_symbols.specs.Sections.{located};
ghost use Rattle.std.specs.List.{filter_map, range_with_len};
ghost use Rattle.elf_symbols.specs.declared.location.Location.TheVariants as locations;

use crate::entries::{Symbol, symbol_at};
use crate::fields::tail;
use crate::location::{Location, Place, locate};
use std::alloc::{AllocError, Global};
use std::marker::Model;

/// Why a file's symbols are not known.
#[derive(Clone, Copy, Debug, PartialEq, Eq)]
pub enum SymbolsFault {
    /// The file is no ELF32 file, little endian, or its sections, its symbol table or the names are not whole.
    Broken,
    /// Out of memory.
    NoMemory,
}

impl From<AllocError> for SymbolsFault {
    ghost use Rattle.std.specs.Prelude.{◌≡◌};
    ghost use Rattle.elf_symbols.specs.declared.table.SymbolsFault.TheVariants.{NoMemory};

    ghost from_gives = { λ _ fault. fault ≡ NoMemory };

    fn from(_error: AllocError) -> SymbolsFault {
        SymbolsFault::NoMemory
    }
}

/// The named places of a program, in the order of the table.
#[derive(Debug, Drop)]
pub struct Symbols {
    list: Vec<Symbol>,
    strings: Vec<u8>,
}

impl Model for Symbols {
    ghost use Rattle.elf_symbols.specs.Known.{SymbolTable};

    ghost Value = { SymbolTable };

    ghost view = { λ table. record { symbols = table.list.items; names = table.strings.items } };
}

impl Symbols {
    /// The table without symbols.
    pub fn none(alloc: Global) -> Symbols
        ensures { result ≡ record { symbols = []; names = [] } }
    {
        Symbols {
            list: Vec::new(alloc),
            strings: Vec::new(alloc),
        }
    }

    /// The symbol with the greatest address that is not above this one; of several, the first in the table. None where
    /// every symbol is above it.
    pub fn nearest(&self, address: u32) -> Option<Symbol>
        ensures nearest { MatchOption result
            (All (λ symbol. address < symbol.value) self.now.symbols)
            (IsNearest address self.now.symbols) }
        ensures first { result ≡ known.nearest address self.now.symbols }
    {
        let found = self.found(address);
        found
    }

    #[tactic(auto, unfolding(crate::specs::Known::nearest))]
    fn found(&self, address: u32) -> Option<Symbol>
        ensures { result ≡ known.nearest address self.now.symbols }
    {
        self.list
            .iter()
            .fold(None, |best, symbol| nearer(address, best, *symbol))
    }

    /// The name of a symbol of the table.
    pub fn name(&self, symbol: Symbol) -> &str {
        let from = symbol.name_at as usize;
        let to = from + symbol.name_len as usize;
        if to <= self.strings.len() {
            str::from_utf8(&self.strings[from..to]).unwrap_or("")
        } else {
            ""
        }
    }
}

/// The nearer one of two symbols to an address.
fn nearer(address: u32, best: Option<Symbol>, symbol: Symbol) -> Option<Symbol>
    ensures { result ≡ known.nearer address best symbol }
{
    match best {
        _ if symbol.value > address => best,
        Some(held) if held.value >= symbol.value => best,
        _ => Some(symbol),
    }
}

/// The symbols of a file: none where it has no symbol table. The answer is `Broken` exactly where the file is no ELF32
/// file, little endian, or its table is not whole; nothing says when memory runs out. The entries behind the first
/// 65,536 are not read.
pub fn read_symbols(alloc: Global, file: &[u8]) -> Result<Symbols, SymbolsFault>
    ensures read { IfOk result (λ symbols. symbols ≡ table_of file.now) }
    ensures whole { OnOk result (located file.now ≢ locations.Broken) }
    ensures refused { result ≡ Err SymbolsFault.Broken → located file.now ≡ locations.Broken }
{
    match locate(file) {
        Location::Nothing => Ok(Symbols::none(alloc)),
        Location::Broken => Err(SymbolsFault::Broken),
        Location::At(place) => Ok(read_at(alloc, file, place)?),
    }
}

/// The symbols of a table that lies here.
fn read_at(alloc: Global, file: &[u8], place: Place) -> Result<Symbols, AllocError>
    ensures { IfOk result (λ symbols. symbols ≡ table_at file.now (locations.At place)) }
{
    let list = entries_of(alloc, file, place)?;
    let strings = strings_of(alloc, file, place)?;
    Ok(Symbols { list, strings })
}

/// The entries of a table that lies here, without those that name no place.
fn entries_of(alloc: Global, file: &[u8], place: Place) -> Result<Vec<Symbol>, AllocError>
    ensures { IfOk result (λ list. list.items ≡ filter_map (symbol_at file.now place) (range_with_len 0 place.count)) }
{
    (0..place.count)
        .filter_map(|index| symbol_at(file, place, index))
        .collect(alloc)
}

/// A copy of the strings of a table that lies here.
fn strings_of(alloc: Global, file: &[u8], place: Place) -> Result<Vec<u8>, AllocError>
    ensures { IfOk result (λ strings. strings.items ≡ take place.names_len (drop place.names file.now)) }
{
    let rest = tail(file, place.names as usize);
    let len = place.names_len as usize;
    let mut strings = Vec::new(alloc);
    strings.extend_from_slice(if len <= rest.len() {
        &rest[..len]
    } else {
        rest
    })?;
    Ok(strings)
}
