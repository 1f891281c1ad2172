ghost use Rattle.std.specs.Prelude.{◌≡◌, ◌++◌, [], map};
ghost use Rattle.std.specs.List.{flat_map};
ghost use Rattle.report.specs.Line.{bytes_of, eight_digits, hex_digit, line, number_line, spaced};
ghost use Rattle.report.specs.Puts.{Puts};

use el_io::{Failed, Sink, put_all};
use itoa::Buffer;

/// A word of a line.
#[derive(Clone, Copy)]
pub enum Word {
    /// These letters.
    Text(&'static str),
    /// A number, in decimal.
    Number(u64),
    /// An address, in eight hexadecimal digits.
    Address(u32),
}

/// Puts a line of words: the first, and then some and some more, with one space between each two and a newline. It
/// takes no memory. `Failed` comes only where the sink counted a fault in this call; it then took some of the line, from
/// the first byte on, and not all.
#[tactic(auto, using(crate::proofs::Putting::putting))]
pub fn put_line<S: Sink>(
    sink: &mut S,
    first: &'static str,
    words: &[Word],
    more: &[Word],
) -> Result<(), Failed>
    ensures { Puts result
        (record { taken = S.taken sink.old; faults = S.faults sink.old })
        (record { taken = S.taken sink.new; faults = S.faults sink.new })
        (line first.now (map bytes_of words.now ++ map bytes_of more.now)) }
{
    put_word(sink, Word::Text(first))?;
    put_words(sink, words)?;
    put_words(sink, more)?;
    put_bytes(sink, b"\n")
}

/// Puts a number alone on its line.
#[tactic(auto, using(crate::proofs::Putting::putting))]
pub(crate) fn put_number_line<S: Sink>(sink: &mut S, number: u64) -> Result<(), Failed>
    ensures { Puts result
        (record { taken = S.taken sink.old; faults = S.faults sink.old })
        (record { taken = S.taken sink.new; faults = S.faults sink.new })
        (number_line number) }
{
    put_word(sink, Word::Number(number))?;
    put_bytes(sink, b"\n")
}

/// Puts words, each behind a space.
fn put_words<S: Sink>(sink: &mut S, words: &[Word]) -> Result<(), Failed>
    ensures { Puts result
        (record { taken = S.taken sink.old; faults = S.faults sink.old })
        (record { taken = S.taken sink.new; faults = S.faults sink.new })
        (flat_map (λ word. spaced (bytes_of word)) words.now) }
{
    for word in words {
        put_spaced(sink, word)?;
    }
    Ok(())
}

/// Puts a word behind a space.
#[tactic(auto, using(crate::proofs::Putting::putting))]
fn put_spaced<S: Sink>(sink: &mut S, word: &Word) -> Result<(), Failed>
    ensures { Puts result
        (record { taken = S.taken sink.old; faults = S.faults sink.old })
        (record { taken = S.taken sink.new; faults = S.faults sink.new })
        (spaced (bytes_of word.now)) }
{
    put_bytes(sink, b" ")?;
    put_word(sink, *word)
}

/// Puts a word.
fn put_word<S: Sink>(sink: &mut S, word: Word) -> Result<(), Failed>
    ensures { Puts result
        (record { taken = S.taken sink.old; faults = S.faults sink.old })
        (record { taken = S.taken sink.new; faults = S.faults sink.new })
        (bytes_of word) }
{
    match word {
        Word::Text(text) => put_bytes(sink, text.as_bytes()),
        Word::Number(number) => put_bytes(sink, Buffer::new().format(number).as_bytes()),
        Word::Address(address) => put_bytes(sink, &eight_digits(address)),
    }
}

/// Puts bytes.
fn put_bytes<S: Sink>(sink: &mut S, bytes: &[u8]) -> Result<(), Failed>
    ensures { Puts result
        (record { taken = S.taken sink.old; faults = S.faults sink.old })
        (record { taken = S.taken sink.new; faults = S.faults sink.new })
        bytes.now }
{
    put_all(sink, bytes)
}

/// A number by eight hexadecimal digits.
fn eight_digits(number: u32) -> [u8; 8]
    ensures { result ≡ eight_digits number }
{
    [
        hex_digit(number >> 28),
        hex_digit(number >> 24),
        hex_digit(number >> 20),
        hex_digit(number >> 16),
        hex_digit(number >> 12),
        hex_digit(number >> 8),
        hex_digit(number >> 4),
        hex_digit(number),
    ]
}

/// The lower-case hexadecimal digit of what a number leaves by 16.
fn hex_digit(number: u32) -> u8
    ensures { result ≡ hex_digit number }
{
    let digit = (number % 16) as u8;
    if digit < 10 {
        b'0' + digit
    } else {
        b'a' - 10 + digit
    }
}
