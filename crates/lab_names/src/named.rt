//! Addresses with their nearest symbols.

ghost use Rattle.std.specs.Prelude.{◌≡◌, ◌+◌, MatchOption, None};
ghost use Rattle.elf_symbols.specs.Known.{nearest};

use elf_symbols::{Symbol, Symbols};
use std::fmt;

/// Where an address lies: at a symbol, or so many bytes behind it.
#[derive(Clone, Copy, Debug, PartialEq, Eq)]
pub struct Spot {
    pub symbol: Symbol,
    pub offset: u32,
}

/// Where an address lies. None where every symbol is above it.
pub fn spot_of(symbols: &Symbols, address: u32) -> Option<Spot>
    ensures { MatchOption result
        (nearest address symbols.now.symbols ≡ None)
        (λ spot. (nearest address symbols.now.symbols ≡ Some spot.symbol) × (spot.symbol.value + spot.offset ≡ address)) }
{
    match symbols.nearest(address) {
        Some(symbol) => Some(Spot {
            symbol,
            offset: address - symbol.value,
        }),
        None => None,
    }
}

/// An address that writes itself by eight hexadecimal digits, and behind them its nearest symbol, if there is one at or
/// below it: `00010540 <lock>`, or `00010544 <lock+4>` with an offset in hexadecimal digits.
#[derive(Clone, Copy)]
pub struct Named<'a> {
    pub address: u32,
    pub symbols: &'a Symbols,
}

impl fmt::Display for Named<'_> {
    fn fmt<W: fmt::Write>(&self, f: &mut fmt::Formatter<W>) -> fmt::Result {
        let address = self.address;
        write!(f, "{address:08x}")?;
        match spot_of(self.symbols, address) {
            Some(spot) => write_spot(f, self.symbols, spot),
            None => Ok(()),
        }
    }
}

/// Writes where an address lies, behind a space.
fn write_spot<W: fmt::Write>(
    f: &mut fmt::Formatter<W>,
    symbols: &Symbols,
    spot: Spot,
) -> fmt::Result {
    let name = symbols.name(spot.symbol);
    match spot.offset {
        0 => write!(f, " <{name}>"),
        offset => write!(f, " <{name}+{offset:x}>"),
    }
}
