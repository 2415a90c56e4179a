//! The words of a command.

ghost use Rattle.std.specs.{Prelude.{◌≡◌, ◌==◌, IfOk, MatchOption, map}, List.{slice_split}, Str.{IsUtf8}};
ghost use Rattle.std.specs.String.{string_bytes};
ghost use Rattle.dimacs_c.specs.Requests.{AreWords};

use std::alloc::{AllocError, Global};

/// The words of a command, each of which ends with a byte 0; bytes after the last one are no word. None if it isn't UTF-8.
pub(crate) fn words_of(alloc: Global, command: &[u8]) -> Result<Option<Vec<String>>, AllocError>
    ensures { IfOk result (λ found. MatchOption found (¬ IsUtf8 command.now) (λ words. IsUtf8 command.now × AreWords command.now (map string_bytes words.items))) }
{
    let Ok(text) = str::from_utf8(command) else {
        return Ok(None);
    };
    let parts = parts(alloc, text)?;
    match parts.split_last() {
        Some((_, words)) => Ok(Some(owned(alloc, words)?)),
        None => Ok(Some(Vec::new(alloc))),
    }
}

/// The parts of a text between bytes 0.
fn parts(alloc: Global, text: &str) -> Result<Vec<&str>, AllocError>
    ensures { IfOk result (λ parts. map (λ part. part.now) parts.items ≡ slice_split (λ byte. byte == 0) text.now) }
{
    text.split('\0').collect(alloc)
}

/// Copies of words.
fn owned(alloc: Global, words: &[&str]) -> Result<Vec<String>, AllocError>
    ensures { IfOk result (λ owned. map string_bytes owned.items ≡ map (λ word. word.now) words.now) }
{
    let mut owned = Vec::new(alloc);
    for word in words {
        owned.push(String::from_str(alloc, word)?)?;
    }
    Ok(owned)
}
