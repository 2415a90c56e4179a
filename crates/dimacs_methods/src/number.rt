//! The numbers that a method computes with.

/// A signed whole number of 32, 64 or 128 bits. Sums and products wrap.
pub(crate) trait Number: Copy + Default {
    fn of(value: i64) -> Self;

    /// 0 if the value doesn't fit.
    fn of_wide(value: i128) -> Self;

    /// 0 if the value doesn't fit into 64 bits.
    fn narrow(self) -> i64;

    fn wide(self) -> i128;

    fn greatest() -> Self;

    fn plus(self, other: Self) -> Self;

    fn minus(self, other: Self) -> Self;

    fn times(self, factor: Self) -> Self;

    fn doubled(self, times: u32) -> Self;

    /// Divides by 2 this many times, rounded down.
    fn halved(self, times: u32) -> Self;

    fn is_below(self, other: Self) -> bool;

    #[inline(always)]
    final fn is_negative(self) -> bool {
        self.is_below(Self::of(0))
    }

    #[inline(always)]
    final fn is_positive(self) -> bool {
        Self::of(0).is_below(self)
    }

    #[inline(always)]
    final fn is_zero(self) -> bool {
        self.wide() == 0
    }

    /// Sums and differences of eight smaller numbers don't wrap.
    #[inline(always)]
    final fn small_end() -> Self {
        Self::greatest().halved(3)
    }

    #[inline(always)]
    final fn is_small(self) -> bool {
        let end = Self::small_end();
        self.is_below(end) && end.negated().is_below(self)
    }

    #[inline(always)]
    final fn negated(self) -> Self {
        Self::of(0).minus(self)
    }

    #[inline(always)]
    final fn lesser(self, other: Self) -> Self {
        if other.is_below(self) { other } else { self }
    }
}

impl Number for i32 {
    #[inline(always)]
    fn of(value: i64) -> i32 {
        i32::try_from(value).unwrap_or(0)
    }

    #[inline(always)]
    fn of_wide(value: i128) -> i32 {
        i32::try_from(value).unwrap_or(0)
    }

    #[inline(always)]
    fn narrow(self) -> i64 {
        i64::from(self)
    }

    #[inline(always)]
    fn wide(self) -> i128 {
        i128::from(self)
    }

    #[inline(always)]
    fn greatest() -> i32 {
        i32::MAX
    }

    #[inline(always)]
    fn plus(self, other: i32) -> i32 {
        self.wrapping_add(other)
    }

    #[inline(always)]
    fn minus(self, other: i32) -> i32 {
        self.wrapping_sub(other)
    }

    #[inline(always)]
    fn times(self, factor: i32) -> i32 {
        self.wrapping_mul(factor)
    }

    #[inline(always)]
    fn doubled(self, times: u32) -> i32 {
        self.wrapping_shl(times)
    }

    #[inline(always)]
    fn halved(self, times: u32) -> i32 {
        self.wrapping_shr(times)
    }

    #[inline(always)]
    fn is_below(self, other: i32) -> bool {
        self < other
    }
}

impl Number for i64 {
    #[inline(always)]
    fn of(value: i64) -> i64 {
        value
    }

    #[inline(always)]
    fn of_wide(value: i128) -> i64 {
        i64::try_from(value).unwrap_or(0)
    }

    #[inline(always)]
    fn narrow(self) -> i64 {
        self
    }

    #[inline(always)]
    fn wide(self) -> i128 {
        i128::from(self)
    }

    #[inline(always)]
    fn greatest() -> i64 {
        i64::MAX
    }

    #[inline(always)]
    fn plus(self, other: i64) -> i64 {
        self.wrapping_add(other)
    }

    #[inline(always)]
    fn minus(self, other: i64) -> i64 {
        self.wrapping_sub(other)
    }

    #[inline(always)]
    fn times(self, factor: i64) -> i64 {
        self.wrapping_mul(factor)
    }

    #[inline(always)]
    fn doubled(self, times: u32) -> i64 {
        self.wrapping_shl(times)
    }

    #[inline(always)]
    fn halved(self, times: u32) -> i64 {
        self.wrapping_shr(times)
    }

    #[inline(always)]
    fn is_below(self, other: i64) -> bool {
        self < other
    }
}

impl Number for i128 {
    #[inline(always)]
    fn of(value: i64) -> i128 {
        i128::from(value)
    }

    #[inline(always)]
    fn of_wide(value: i128) -> i128 {
        value
    }

    #[inline(always)]
    fn narrow(self) -> i64 {
        i64::try_from(self).unwrap_or(0)
    }

    #[inline(always)]
    fn wide(self) -> i128 {
        self
    }

    #[inline(always)]
    fn greatest() -> i128 {
        i128::MAX
    }

    #[inline(always)]
    fn plus(self, other: i128) -> i128 {
        self.wrapping_add(other)
    }

    #[inline(always)]
    fn minus(self, other: i128) -> i128 {
        self.wrapping_sub(other)
    }

    #[inline(always)]
    fn times(self, factor: i128) -> i128 {
        self.wrapping_mul(factor)
    }

    #[inline(always)]
    fn doubled(self, times: u32) -> i128 {
        self.wrapping_shl(times)
    }

    #[inline(always)]
    fn halved(self, times: u32) -> i128 {
        self.wrapping_shr(times)
    }

    #[inline(always)]
    fn is_below(self, other: i128) -> bool {
        self < other
    }
}
