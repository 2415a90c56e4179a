//! Characters that are seen as themselves, and codes of others.

use crate::prose::Prose;
use std::fmt;

/// Writes bytes: visible characters unchanged, a tab or a carriage return as a space, others by the codes of their bytes.
pub(crate) fn escape(out: &mut Prose, bytes: &[u8]) {
    for chunk in bytes.utf8_chunks() {
        let written = write!(
            out.text,
            "{}{}",
            Shown(chunk.valid()),
            Codes(chunk.invalid())
        );
        out.is_lost |= written.is_err();
    }
}

/// Writes a file's name, after `./` if a line that begins with it would look like one of a report.
pub(crate) fn write_name(out: &mut Prose, name: &str) {
    if ["v ", "x ", "g "]
        .iter()
        .any(|letter| name.starts_with(letter))
    {
        out.push("./");
    }
    escape(out, name.as_bytes());
}

/// A text as `escape` writes it.
#[derive(Clone, Copy)]
pub struct Shown<'a>(pub &'a str);

impl fmt::Display for Shown<'_> {
    fn fmt<W: fmt::Write>(&self, f: &mut fmt::Formatter<W>) -> fmt::Result {
        for it in self.0.chars() {
            match it {
                '\t' | '\r' => f.write_str(" ")?,
                _ if is_visible(it) => f.write_str(it.encode_utf8(&mut [0; 4]))?,
                _ => write!(f, "{}", Codes(it.encode_utf8(&mut [0; 4]).as_bytes()))?,
            }
        }
        Ok(())
    }
}

/// Whether a character is seen as itself: it is no control character, and no blank but ' ', and joins or hides no others.
pub(crate) fn is_visible(it: char) -> bool {
    !matches!(
        it,
        '\0'..='\x1f'
            | '\x7f'..='\u{a0}'
            | '\u{ad}'
            | '\u{61c}'
            | '\u{1680}'
            | '\u{2000}'..='\u{200f}'
            | '\u{2028}'..='\u{202f}'
            | '\u{205f}'..='\u{206f}'
            | '\u{3000}'
            | '\u{feff}'
            | '\u{fff9}'..='\u{fffb}'
            | '\u{e0000}'..='\u{e0fff}'
    )
}

/// Bytes by their codes.
#[derive(Clone, Copy)]
struct Codes<'a>(&'a [u8]);

impl fmt::Display for Codes<'_> {
    fn fmt<W: fmt::Write>(&self, f: &mut fmt::Formatter<W>) -> fmt::Result {
        for byte in self.0 {
            write!(f, "\\x{byte:02x}")?;
        }
        Ok(())
    }
}
