//! An arc in 12 bytes.

ghost use Rattle.std.specs.Prelude.{◌≡◌};

use std::marker::Model;

/// How many values a half of a weight can have.
const HALVES: u64 = 1 << 32;

/// An arc of a known tail.
#[derive(Clone, Copy)]
pub(crate) struct WeightedArc {
    pub weight: u64,
    pub head: u32,
}

/// An arc in the list of its tail. Its weight lies in two halves, so that it takes 12 bytes and not 16.
#[derive(Drop)]
pub(crate) struct PackedArc {
    low: u32,
    high: u32,
    head: u32,
}

impl Model for PackedArc {
    ghost use Rattle.std.specs.Prelude.{◌+◌, ◌*◌, ◌^◌};
    ghost use Rattle.dimacs_solve.specs.declared.packed_arc.WeightedArc.{WeightedArc};

    ghost Value = { WeightedArc };

    ghost view = { λ a. record { weight = a.high * 2 ^ 32 + a.low; head = a.head } };
}

impl PackedArc {
    #[inline(always)]
    pub(crate) fn of(arc: WeightedArc) -> PackedArc
        ensures { result ≡ arc }
    {
        PackedArc {
            low: (arc.weight % HALVES) as u32,
            high: (arc.weight / HALVES) as u32,
            head: arc.head,
        }
    }

    #[inline(always)]
    pub(crate) fn weight(&self) -> u64
        ensures { result ≡ self.now.weight }
    {
        u64::from(self.high) * HALVES + u64::from(self.low)
    }

    #[inline(always)]
    pub(crate) fn head(&self) -> u32
        ensures { result ≡ self.now.head }
    {
        self.head
    }
}
