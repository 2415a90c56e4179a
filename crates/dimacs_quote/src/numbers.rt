//! Words that were meant as whole numbers.

use crate::prose::Prose;
use crate::quote::repeat;
use crate::say;
use std::alloc::Global;

/// Numbers of up to this many digits fit all fields but IDs and counts.
const MOST_DIGITS: usize = 18;

/// The whole number that a word spells in another way: as `3.0`, `1.2e1`, `1,200` and `1,` do, or with a typographic minus.
pub(crate) fn meant_number(alloc: Global, word: &str) -> Option<Prose> {
    let mut number = Prose::new(alloc);
    if let Some(digits) = word.strip_prefix('\u{2212}')
        && is_whole(digits)
    {
        say!(number; "-{}", digits);
        return Some(number);
    }
    if word.contains(',') {
        return ungrouped(number, word);
    }
    let (digits, exponent) = word.split_once('e').unwrap_or((word, "0"));
    let (whole, fraction) = digits.split_once('.').unwrap_or((digits, ""));
    let fraction = fraction.trim_end_matches('0');
    if whole == word || !is_whole(whole) || !are_digits(fraction) {
        return None;
    }
    number.push(whole);
    number.push(fraction);
    let zeros = count_of(whole, exponent)?.checked_sub(fraction.len())?;
    repeat(&mut number, "0", zeros);
    Some(number)
}

/// The digits of a word without the commas after them and between groups of three.
fn ungrouped(mut number: Prose, word: &str) -> Option<Prose> {
    let mut groups = word.strip_suffix(',').unwrap_or(word).split(',');
    number.push(groups.next().filter(|first| is_whole(first))?);
    for group in groups {
        if group.len() != 3 || !are_digits(group) {
            return None;
        }
        number.push(group);
    }
    Some(number)
}

/// How many zeros follow a number with an exponent; none if it is no number that fits.
fn count_of(whole: &str, exponent: &str) -> Option<usize> {
    let digits = exponent.strip_prefix('+').unwrap_or(exponent);
    let count = digits.parse::<usize>().ok()?;
    let fits = count.saturating_add(whole.len()) <= MOST_DIGITS;
    if fits && are_digits(digits) {
        Some(count)
    } else {
        None
    }
}

/// Whether a word stands for a number that is infinite or unknown.
pub(crate) fn is_no_number(word: &str) -> bool {
    "inf +inf infinity nan none null - \u{221e}"
        .split(' ')
        .any(|known| word.eq_ignore_ascii_case(known))
}

/// Whether a word is digits, perhaps after a minus sign.
fn is_whole(word: &str) -> bool {
    let digits = word.strip_prefix('-').unwrap_or(word);
    !digits.is_empty() && are_digits(digits)
}

fn are_digits(word: &str) -> bool {
    word.bytes().all(|byte| byte.is_ascii_digit())
}
