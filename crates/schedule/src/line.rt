//! One line of a text that lists events.

ghost use Rattle.std.specs.Prelude.{◌≡◌, ◌≢◌, ◌≤◌, ◌<◌, IfSome, None, length};
ghost use Rattle.schedule.specs.Lines as lines;
ghost use Rattle.schedule.specs.Lines.{IsNoEvent, Says};

use el_base::{Event, HartId, Kind};

/// What a line says.
#[derive(Clone, Copy, Debug, PartialEq, Eq)]
pub(crate) enum Line {
    /// It is blank, or a comment.
    Nothing,
    Makes(Event),
    /// It is neither of them.
    Bad,
}

/// What a line says, of so many harts: `step`, `order`, `serve` or `deliver`, a space and the number of a hart. A `#`
/// begins a comment.
pub(crate) fn read_line(line: &[u8], harts: u8) -> Line
    requires { harts ≤ 8 }
    ensures { Says harts line.now result }
{
    let text = stripped(line);
    if text.is_empty() {
        return Line::Nothing;
    }
    match event_of(text, harts) {
        Some(event) => Line::Makes(event),
        None => Line::Bad,
    }
}

/// A line without its comment and without the white space at its end.
fn stripped(line: &[u8]) -> &[u8]
    ensures { result.now ≡ lines.stripped line.now }
{
    uncommented(line).trim_ascii_end()
}

/// A line without its comment.
fn uncommented(line: &[u8]) -> &[u8]
    ensures { result.now ≡ lines.uncommented line.now }
{
    match comment_at(line) {
        Some(end) => &line[..end],
        None => line,
    }
}

/// Where the comment of a line begins.
fn comment_at(line: &[u8]) -> Option<usize>
    ensures exact { result ≡ lines.comment_at line.now }
    ensures inside { IfSome result (λ end. end < length line.now) }
{
    line.iter().position(|byte| *byte == b'#')
}

/// The event that is written so.
fn event_of(text: &[u8], harts: u8) -> Option<Event>
    requires { harts ≤ 8 }
    ensures written { IfSome result (λ event.
        (text.now ≡ lines.spelled event.kind event.hart.number) × (event.hart.number < harts)) }
    ensures none { result ≡ None → IsNoEvent harts text.now }
{
    let (digit, front) = text.split_last()?;
    let (space, name) = front.split_last()?;
    if *space != b' ' {
        return None;
    }
    let kind = kind_of(name)?;
    let number = digit.checked_sub(b'0')?;
    if number >= harts {
        return None;
    }
    Some(Event {
        kind,
        hart: HartId { number },
    })
}

/// The kind of this name.
fn kind_of(name: &[u8]) -> Option<Kind>
    ensures named { IfSome result (λ kind. name.now ≡ lines.kind_name kind) }
    ensures none { result ≡ None → (kind : Kind) → name.now ≢ lines.kind_name kind }
{
    match name {
        b"step" => Some(Kind::Step),
        b"order" => Some(Kind::Order),
        b"serve" => Some(Kind::Serve),
        b"deliver" => Some(Kind::Deliver),
        _ => None,
    }
}
