//! Texts in markup.

use el_base::NoMemory;

/// Puts a text between tags or into an attribute: the characters that XML gives a meaning are spelled by their names
/// (XML 1.0, 4.6), and those that it has not are left out.
pub(crate) fn put_escaped(out: &mut String, text: &str) -> Result<(), NoMemory> {
    for character in text.chars() {
        match character {
            '<' => out.push_str("&lt;")?,
            '>' => out.push_str("&gt;")?,
            '&' => out.push_str("&amp;")?,
            '"' => out.push_str("&quot;")?,
            '\0'..='\x1f' | '\u{fffe}' | '\u{ffff}' => (),
            _ => out.push(character)?,
        }
    }
    Ok(())
}
