//! Which arguments name the same file.

use dimacs_jobs::request;
use std::alloc::AllocError;
use std::fs;
use std::os::unix::fs::MetadataExt;

/// For each word the place of the first that names the same regular file, or its own. Nothing is lost of other files.
/// None for words that ask for nothing, which may be many.
pub fn same_files(rt: &HostRuntime, words: &[String]) -> Result<Vec<u32>, AllocError> {
    let mut found = Vec::new(rt.alloc());
    let mut same = Vec::new(rt.alloc());
    if request(words).is_none() {
        return Ok(same);
    }
    for (place, word) in words.iter().enumerate() {
        let file = regular(rt, word.as_str());
        let first = first_place(&found, file).unwrap_or(place);
        same.push(u32::try_from(first).unwrap_or(u32::MAX))?;
        found.push(file)?;
    }
    Ok(same)
}

/// The place of the first of these files that is this one, if it is a regular file.
fn first_place(found: &[Option<(u64, u64)>], file: Option<(u64, u64)>) -> Option<usize> {
    file?;
    found.iter().position(|it| *it == file)
}

/// The device and the number of a regular file.
fn regular(rt: &HostRuntime, name: &str) -> Option<(u64, u64)> {
    match fs::metadata(rt, name) {
        Ok(found) if found.is_file() => Some((found.dev(), found.ino())),
        _ => None,
    }
}
