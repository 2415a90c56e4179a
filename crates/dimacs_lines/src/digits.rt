//! Eight digits at a time, in one 64-bit word.

ghost use Rattle.std.specs.Prelude.{◌≡◌, ◌+◌, ◌-◌, ◌≤◌, ◌<◌, ◌++◌, ◌↔◌, length, map, replicate, take, drop, bit_xor, IsTrue, IfSome};
ghost use Rattle.std.specs.{Char.{is_ascii_digit, IsAsciiDigit}, Int.{w64, to_le_bytes}, List.{All, prefix_len}};
ghost use Rattle.std.specs.Int.Digits.{AllBelowBase, number_from_digits};
ghost use Rattle.dimacs_lines.specs.{Number.{place_sum}, inside.Plain.{has_sixteen}};

/// Reads up to eight digits at `at`: their count and value. None if there is no digit, or if after fewer than eight
/// comes another byte with the bit of 16 set. Blanks, signs and line ends don't have it.
#[inline(always)]
pub fn digits_at(line: &[u8], at: usize) -> Option<(usize, u32)>
    requires { at ≤ length line.now }
    ensures positive { IfSome result (λ found. 0 < found.0) }
    ensures count { IfSome result (λ found. found.0 ≡ prefix_len is_ascii_digit (take 8 (drop at line.now))) }
    ensures value { IfSome result (λ found. found.1 ≡ place_sum (take found.0 (drop at line.now))) }
{
    let word = word_at(line, at);
    let count = count_to_end(word);
    if count == 0 {
        return None;
    }
    let values = values_on_top(word, count);
    if !are_digits(values) {
        return None;
    }
    Some((count as usize, eight_digits(values)))
}

/// The value of one to eight digits at `at`.
#[inline(always)]
pub fn digits_value(line: &[u8], at: usize, count: usize) -> u32
    requires room { at + 8 ≤ length line.now }
    requires positive { 0 < count }
    requires at_most_eight { count ≤ 8 }
    requires digits { All IsAsciiDigit (take count (drop at line.now)) }
    ensures { result ≡ place_sum (take count (drop at line.now)) }
{
    eight_digits(values_on_top(load(&line[at..]), count as u32))
}

/// The eight bytes from `at` on, the first one lowest, with zeros past the line's end.
#[inline(always)]
fn word_at(line: &[u8], at: usize) -> u64
    requires { at ≤ length line.now }
    ensures { to_le_bytes w64 result ≡ take 8 (drop at line.now ++ replicate 8 0) }
{
    if line.len() - at >= 8 {
        load(&line[at..])
    } else if line.len() >= 8 {
        // Two shifts, since together they may be by 64 bits.
        let back = line.len() - 8;
        let half = 4 * (at - back) as u32;
        (load(&line[back..]) >> half) >> half
    } else {
        short_word(&line[at..])
    }
}

/// The first eight bytes, the first one lowest.
#[inline(always)]
fn load(bytes: &[u8]) -> u64
    requires { 8 ≤ length bytes.now }
    ensures { to_le_bytes w64 result ≡ take 8 bytes.now }
{
    match bytes {
        [a, b, c, d, e, f, g, h, ..] => u64::from_le_bytes([*a, *b, *c, *d, *e, *f, *g, *h]),
        _ => 0,
    }
}

/// As `load`, of fewer than eight bytes, with zeros after them.
#[inline(never)]
fn short_word(bytes: &[u8]) -> u64
    requires { length bytes.now < 8 }
    ensures { to_le_bytes w64 result ≡ take 8 (bytes.now ++ replicate 8 0) }
{
    let mut padded = [0; 8];
    padded[..bytes.len()].copy_from_slice(bytes);
    u64::from_le_bytes(padded)
}

/// Counts the lowest bytes with the bit of 16 set, as digits have: a fast way to find the end of a number. `are_digits`
/// then tests them.
#[inline(always)]
fn count_to_end(word: u64) -> u32
    ensures count { result ≡ prefix_len has_sixteen (to_le_bytes w64 word) }
    ensures at_most_eight { result ≤ 8 }
{
    let ends = (word & 0x1010101010101010) ^ 0x1010101010101010;
    ends.trailing_zeros() / 8
}

/// The values of the `count` lowest bytes, at the top of the word, with zeros below. A byte that is no digit gives ten
/// or more.
#[inline(always)]
fn values_on_top(word: u64, count: u32) -> u64
    requires positive { 0 < count }
    requires at_most_eight { count ≤ 8 }
    ensures { to_le_bytes w64 result
        ≡ replicate (8 - count) 0 ++ map (λ b. bit_xor b 48) (take count (to_le_bytes w64 word)) }
{
    (word ^ 0x3030303030303030) << (64 - 8 * count)
}

/// Whether all bytes are below ten. Adding six carries into the high half of each other byte.
#[inline(always)]
fn are_digits(word: u64) -> bool
    requires { All (λ b. b < 240) (to_le_bytes w64 word) }
    ensures { IsTrue result ↔ AllBelowBase 10 (to_le_bytes w64 word) }
{
    (word + 0x0606060606060606) & 0xf0f0f0f0f0f0f0f0 == 0
}

/// The number with these eight digit values, the first one lowest.
#[inline(always)]
fn eight_digits(word: u64) -> u32
    requires { AllBelowBase 10 (to_le_bytes w64 word) }
    ensures { result ≡ number_from_digits 10 (to_le_bytes w64 word) }
{
    // Each product adds to each lane ten, a hundred or ten thousand times the lane below it.
    let twos = (word.wrapping_mul(2561) >> 8) & 0x00ff00ff00ff00ff;
    let fours = (twos.wrapping_mul(6553601) >> 16) & 0x0000ffff0000ffff;
    (fours.wrapping_mul(42949672960001) >> 32) as u32
}
