//! Numbers of two widths for the distances of a search.

ghost use Rattle.std.specs.{Prelude.{◌≡◌, ◌<◌, ◌+◌, ◌^◌, ℕ, pos}, Ordering.{nat_cmp}};

/// An unsigned number for the distances of a search: of 64 bits if all of them fit, otherwise of 128.
pub(crate) trait SearchDistance: Copy + Ord {
    ghost value: { Self → ℕ };

    /// Sums of distances and weights have to stay below it.
    ghost limit: { ℕ };

    fn zero() -> Self
        ensures { value result ≡ 0 };

    fn plus(self, weight: u64) -> Self
        requires { value self + weight < limit }
        ensures { value result ≡ value self + weight };

    /// Half of the sum, rounded down.
    fn middle(self, other: Self) -> Self;

    fn to_i128(self) -> i128
        requires { value self < 2 ^ 127 }
        ensures { result ≡ pos (value self) };

    ghost in_order: { (a b : Self) → Self.Ord.cmp a b ≡ nat_cmp (value a) (value b) };
}

impl SearchDistance for u64 {
    ghost use Rattle.std.specs.Prelude.{◌^◌, refl};

    ghost value = { λ n. n };

    ghost limit = { 2 ^ 64 };

    ghost in_order = { λ a b. refl };

    #[inline(always)]
    fn zero() -> u64 {
        0
    }

    #[inline(always)]
    fn plus(self, weight: u64) -> u64 {
        self + weight
    }

    #[inline(always)]
    fn middle(self, other: u64) -> u64 {
        self.midpoint(other)
    }

    #[inline(always)]
    fn to_i128(self) -> i128 {
        i128::from(self)
    }
}

impl SearchDistance for u128 {
    ghost use Rattle.std.specs.Prelude.{◌^◌, refl};

    ghost value = { λ n. n };

    ghost limit = { 2 ^ 128 };

    ghost in_order = { λ a b. refl };

    #[inline(always)]
    fn zero() -> u128 {
        0
    }

    #[inline(always)]
    fn plus(self, weight: u64) -> u128 {
        self + u128::from(weight)
    }

    #[inline(always)]
    fn middle(self, other: u128) -> u128 {
        self.midpoint(other)
    }

    #[inline(always)]
    fn to_i128(self) -> i128 {
        self as i128
    }
}
