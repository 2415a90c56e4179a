//! Spells answers as one text, to compare them with one cell.

use crate::checks::{holds, same};
use dimacs_lines::{Lines, Source};
use std::alloc::{AllocError, Global};
use std::process::Abort;
use std::test::Fail;

/// The lines of a reader, each after its number, and how the text ends, as in `1:first|2:second|end`.
///
/// Tests what holds for every text: the reader holds no more than it may, its line is empty before the first and after
/// the last, and later calls repeat the last answer.
pub fn spell_lines<S: Source>(
    rt: &impl Abort,
    alloc: Global,
    source: &mut S,
) -> Result<String, Fail> {
    let mut spelled = String::new(alloc);
    let mut lines = Lines::new(alloc)?;
    holds(rt, "a line before the first", lines.line().is_empty());
    for _ in 0..u64::MAX {
        let answer = lines.next_line(source);
        holds(rt, "too much is held", lines.held() <= 1_114_112);
        match answer {
            Ok(Some(number)) => {
                write!(spelled, "{number}:")?;
                spell_bytes(&mut spelled, lines.line())?;
                spelled.push('|')?;
                continue;
            }
            Ok(None) => spelled.push_str("end")?,
            Err(error) => write!(spelled, "{error:?}")?,
        }
        for _ in 0..3 {
            holds(rt, "a line after the last", lines.line().is_empty());
            same(
                rt,
                "another answer after the last",
                lines.next_line(source),
                answer,
            );
        }
        break;
    }
    Ok(spelled)
}

/// The pieces of a source up to its end, with space for `room` bytes: `abc|fault|de|`.
pub fn spell_pulls<S: Source>(
    rt: &impl Abort,
    alloc: Global,
    source: &mut S,
    room: usize,
) -> Result<String, Fail> {
    let mut spelled = String::new(alloc);
    let mut into = Vec::from_elem(alloc, b'?', room)?;
    for _ in 0..u64::MAX {
        match source.pull(&mut into) {
            Ok(0) => break,
            Ok(count) => {
                assert!(rt; count <= into.len(), "more than there is room for");
                spell_bytes(&mut spelled, &into[..count])?;
            }
            Err(_) => spelled.push_str("fault")?,
        }
        spelled.push('|')?;
    }
    Ok(spelled)
}

/// Each byte as the character of its number.
pub fn spell_bytes(spelled: &mut String, bytes: &[u8]) -> Result<(), AllocError> {
    for b in bytes {
        spelled.push(char::from(*b))?;
    }
    Ok(())
}
