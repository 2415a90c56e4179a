//! Decimal digits, two at a time.

ghost use Rattle.std.specs.{Prelude.{◌≡◌, ◌<◌, length, take}, Fmt.{decimal}};
ghost use Rattle.dimacs_lines.specs.inside.Decimals.{two_digits};

/// The two digits of each number below a hundred: a copy of a private table of `itoa`.
static PAIRS: [u8; 200] =
    *b"00010203040506070809101112131415161718192021222324252627282930313233343536373839404142434445464748495051525354555657585960616263646566676869707172737475767778798081828384858687888990919293949596979899";

/// The two digits of a number; the first may be a zero.
#[inline(always)]
pub(crate) fn two_digits(n: u64) -> [u8; 2]
    requires { n < 100 }
    ensures { result ≡ two_digits n }
{
    let from = n as usize * 2;
    [PAIRS[from], PAIRS[from + 1]]
}

/// The digits without a leading zero, and their count. There is no branch: after a single digit the second byte is
/// arbitrary.
#[inline(always)]
pub(crate) fn first_digits(n: u64) -> ([u8; 2], usize)
    requires { n < 100 }
    ensures count { result.1 ≡ length (decimal n) }
    ensures digits { take result.1 result.0 ≡ decimal n }
{
    let single = usize::from(n < 10);
    let from = n as usize * 2 + single;
    ([PAIRS[from], PAIRS[from + 1]], 2 - single)
}
