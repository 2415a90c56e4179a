//! Names of files as words of a shell.

ghost use Rattle.std.specs.{Prelude.{◌≡◌, IfOk, IsTrue, MatchOption}, List.{All}};
ghost use Rattle.dimacs_quote.specs.ShellWords.{EndsInLineFeed, IsAlphanumeric, IsKept, IsPlain, Prints, Reads, path_of};

use crate::escape::is_visible;
use dimacs_lines::Memory;
use std::alloc::Global;

/// A word that a shell takes for a file's name: most of it in octal if not all is visible. None if it ends in a line feed,
/// which no quotes of every shell keep on one line.
pub(crate) fn shell_word(alloc: Global, name: &str) -> Result<Option<Vec<u8>>, Memory>
    ensures { IfOk result (λ found. MatchOption found (EndsInLineFeed (path_of name.now)) (λ word. Reads word.items (path_of name.now))) }
{
    let path = path_in(alloc, name.as_bytes())?;
    if are_plain(&path) {
        Ok(Some(path))
    } else if name.chars().all(is_visible) {
        Ok(Some(quoted(alloc, &path)?))
    } else if ends_in_line_feed(&path) {
        Ok(None)
    } else {
        Ok(Some(printed(alloc, &path)?))
    }
}

fn path_in(alloc: Global, name: &[u8]) -> Result<Vec<u8>, Memory>
    ensures { IfOk result (λ path. path.items ≡ path_of name.now) }
{
    let mut path = Vec::new(alloc);
    if let [b'-', ..] = name {
        path.extend_from_slice(b"./")?;
    }
    path.extend_from_slice(name)?;
    Ok(path)
}

fn ends_in_line_feed(path: &[u8]) -> bool
    ensures ends { IsTrue result → EndsInLineFeed path.now }
    ensures kept { ¬ IsTrue result → IsKept path.now }
{
    path.last().copied() == Some(b'\n')
}

/// Whether a shell takes all bytes as they are.
fn are_plain(path: &[u8]) -> bool
    ensures { IsTrue result → All IsPlain path.now }
{
    path.iter().all(|byte| is_plain(*byte))
}

fn is_plain(byte: u8) -> bool
    ensures { IsTrue result → IsPlain byte }
{
    is_alphanumeric(byte) || matches!(byte, b'+' | b'-'..=b'/' | b'_')
}

fn is_alphanumeric(byte: u8) -> bool
    ensures { IsTrue result → IsAlphanumeric byte }
{
    matches!(byte, b'0'..=b'9' | b'A'..=b'Z' | b'a'..=b'z')
}

/// The path in single quotes, but for those that it has itself.
fn quoted(alloc: Global, path: &[u8]) -> Result<Vec<u8>, Memory>
    ensures { IfOk result (λ word. Reads word.items path.now) }
{
    let mut word = vec![in alloc; b'\'']?;
    for byte in path {
        if *byte == b'\'' {
            word.extend_from_slice(b"'\\''")?;
        } else {
            word.push(*byte)?;
        }
    }
    word.push(b'\'')?;
    Ok(word)
}

/// The path as what printf writes.
fn printed(alloc: Global, path: &[u8]) -> Result<Vec<u8>, Memory>
    requires { IsKept path.now }
    ensures { IfOk result (λ word. Reads word.items path.now) }
{
    let format = format_of(alloc, path)?;
    let mut word = Vec::new(alloc);
    word.extend_from_slice(b"\"$(printf '")?;
    word.extend_from_slice(&format)?;
    word.extend_from_slice(b"')\"")?;
    Ok(word)
}

fn format_of(alloc: Global, path: &[u8]) -> Result<Vec<u8>, Memory>
    ensures { IfOk result (λ format. Prints format.items path.now) }
{
    let mut format = Vec::new(alloc);
    for byte in path {
        if is_alphanumeric(*byte) {
            format.push(*byte)?;
        } else {
            format.extend_from_slice(&[
                b'\\',
                b'0' + byte / 64,
                b'0' + byte / 8 % 8,
                b'0' + byte % 8,
            ])?;
        }
    }
    Ok(format)
}
