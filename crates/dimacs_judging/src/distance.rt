//! Distances in 32, 64 or 128 bits, for tables of nodes.

ghost use Rattle.std.specs.Prelude.{◌≡◌, ◌↔◌, ◌+ℤ◌, ◌<ℤ◌, ℤ, Option, Some, None, pos, IsTrue, int_lt, if◌then◌else◌};
ghost use Rattle.dimacs_judging.specs.{Distances.{Fits}, inside.Distances.{Improves, IsTight}};

/// A distance, or none: the greatest value.
pub trait Distance: Copy {
    ghost value: { Self → Option ℤ };

    ghost number: { Self → ℤ };

    ghost low: { ℤ };

    ghost end: { ℤ };

    /// No distance.
    fn none() -> Self
        ensures { value result ≡ None };

    /// The distance 0.
    fn zero() -> Self
        ensures { value result ≡ Some (pos 0) };

    /// This distance, which must fit.
    fn of(dist: i128) -> Self
        requires { Fits low end dist }
        ensures { number result ≡ dist };

    fn to_i128(self) -> i128
        ensures { result ≡ number self };

    fn is_some(self) -> bool
        ensures { result ≡ int_lt (number self) end };

    /// Whether `self + weight` is less than `to`, as numbers.
    fn sum_is_less(self, to: Self, weight: i64) -> bool
        ensures { IsTrue result ↔ ((number self +ℤ weight) <ℤ number to) };

    /// Whether `self + weight` is `to`, as numbers.
    fn sum_is_equal(self, to: Self, weight: i64) -> bool
        ensures { IsTrue result ↔ ((number self +ℤ weight) ≡ number to) };

    ghost value_below_end: { (d : Self) → value d ≡ (if int_lt (number d) end then Some (number d) else None) };
}

impl Distance for i32 {
    ghost use Rattle.std.specs.Prelude.{◌^◌, ◌-◌, neg_ℤ, pos, refl};
    ghost use Rattle.dimacs_judging.specs.Distances.{below};

    ghost value = { below (pos (2 ^ 31 - 1)) };

    ghost number = { λ d. d };

    ghost low = { neg_ℤ (pos (2 ^ 31)) };

    ghost end = { pos (2 ^ 31 - 1) };

    ghost value_below_end = { λ d. refl };

    #[inline(always)]
    fn none() -> i32 {
        i32::MAX
    }

    #[inline(always)]
    fn zero() -> i32 {
        0
    }

    #[inline(always)]
    fn of(dist: i128) -> i32 {
        dist as i32
    }

    #[inline(always)]
    fn to_i128(self) -> i128 {
        i128::from(self)
    }

    #[inline(always)]
    fn is_some(self) -> bool {
        self < i32::MAX
    }

    #[inline(always)]
    fn sum_is_less(self, to: i32, weight: i64) -> bool {
        i64::from(to) - i64::from(self) > weight
    }

    #[inline(always)]
    fn sum_is_equal(self, to: i32, weight: i64) -> bool {
        i64::from(to) - i64::from(self) == weight
    }
}

impl Distance for i64 {
    ghost use Rattle.std.specs.Prelude.{◌^◌, ◌-◌, neg_ℤ, pos, refl};
    ghost use Rattle.dimacs_judging.specs.Distances.{below};

    ghost value = { below (pos (2 ^ 63 - 1)) };

    ghost number = { λ d. d };

    ghost low = { neg_ℤ (pos (2 ^ 63)) };

    ghost end = { pos (2 ^ 63 - 1) };

    ghost value_below_end = { λ d. refl };

    #[inline(always)]
    fn none() -> i64 {
        i64::MAX
    }

    #[inline(always)]
    fn zero() -> i64 {
        0
    }

    #[inline(always)]
    fn of(dist: i128) -> i64 {
        dist as i64
    }

    #[inline(always)]
    fn to_i128(self) -> i128 {
        i128::from(self)
    }

    #[inline(always)]
    fn is_some(self) -> bool {
        self < i64::MAX
    }

    #[inline(always)]
    fn sum_is_less(self, to: i64, weight: i64) -> bool {
        i128::from(to) - i128::from(self) > i128::from(weight)
    }

    #[inline(always)]
    fn sum_is_equal(self, to: i64, weight: i64) -> bool {
        i128::from(to) - i128::from(self) == i128::from(weight)
    }
}

/// A difference that overflows 128 bits exceeds every weight. It saturates, which gives the same answers.
impl Distance for i128 {
    ghost use Rattle.std.specs.Prelude.{◌^◌, ◌-◌, neg_ℤ, pos, refl};
    ghost use Rattle.dimacs_judging.specs.Distances.{below};

    ghost value = { below (pos (2 ^ 127 - 1)) };

    ghost number = { λ d. d };

    ghost low = { neg_ℤ (pos (2 ^ 127)) };

    ghost end = { pos (2 ^ 127 - 1) };

    ghost value_below_end = { λ d. refl };

    #[inline(always)]
    fn none() -> i128 {
        i128::MAX
    }

    #[inline(always)]
    fn zero() -> i128 {
        0
    }

    #[inline(always)]
    fn of(dist: i128) -> i128 {
        dist
    }

    #[inline(always)]
    fn to_i128(self) -> i128 {
        self
    }

    #[inline(always)]
    fn is_some(self) -> bool {
        self < i128::MAX
    }

    #[inline(always)]
    fn sum_is_less(self, to: i128, weight: i64) -> bool {
        to.saturating_sub(self) > i128::from(weight)
    }

    #[inline(always)]
    fn sum_is_equal(self, to: i128, weight: i64) -> bool {
        to.saturating_sub(self) == i128::from(weight)
    }
}

/// The distance in a number.
#[inline(always)]
pub fn distance_in<D: Distance>(dist: D) -> Option<i128>
    ensures { result ≡ D.value dist }
{
    if dist.is_some() {
        Some(dist.to_i128())
    } else {
        None
    }
}

/// Whether `from` is a distance, and `to` is none or greater than `from + weight`. It evaluates all terms, as
/// `is_tight` does, since the processor would mispredict branches.
#[inline(always)]
pub(crate) fn improves<D: Distance>(from: D, to: D, weight: i64) -> bool
    ensures { IsTrue result ↔ Improves (D.value from) (D.value to) weight }
{
    from.is_some() & (!to.is_some() | from.sum_is_less(to, weight))
}

/// Whether both are distances, and `to` is `from + weight`.
#[inline(always)]
pub(crate) fn is_tight<D: Distance>(from: D, to: D, weight: i64) -> bool
    ensures { IsTrue result ↔ IsTight (D.value from) (D.value to) weight }
{
    from.is_some() & to.is_some() & from.sum_is_equal(to, weight)
}
