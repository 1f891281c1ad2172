//! Texts among quotation marks.

use el_base::NoMemory;

/// Puts a text as a field of comma-separated values (RFC 4180, 2): in quotation marks where it has a comma, a mark or the
/// end of a line, and each of its marks twice.
pub(crate) fn put_csv(out: &mut String, text: &str) -> Result<(), NoMemory> {
    if !text
        .bytes()
        .any(|byte| matches!(byte, b',' | b'"' | b'\r' | b'\n'))
    {
        out.push_str(text)?;
        return Ok(());
    }
    out.push('"')?;
    for character in text.chars() {
        if character == '"' {
            out.push('"')?;
        }
        out.push(character)?;
    }
    out.push('"')?;
    Ok(())
}

/// Puts a text as a string of JSON (RFC 8259, 7).
pub(crate) fn put_json(out: &mut String, text: &str) -> Result<(), NoMemory> {
    out.push('"')?;
    for character in text.chars() {
        match character {
            '"' | '\\' => {
                out.push('\\')?;
                out.push(character)?;
            }
            '\0'..='\x1f' => write!(out, "\\u{:04x}", u32::from(character))?,
            _ => out.push(character)?,
        }
    }
    out.push('"')?;
    Ok(())
}
