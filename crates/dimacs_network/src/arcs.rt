//! The arcs of instances, and how they are stored.

ghost use Rattle.std.specs.Prelude.{◌≡◌, pos};
ghost use Rattle.dimacs_network.specs.{declared.network.ArcView.{ArcView}, declared.arcs.ArcEnds.{ArcEnds}};
ghost use Rattle.dimacs_network.specs.KeptArcs.{capacity_arc, cost_arc, weight_arc};

use crate::network::ArcView;
use crate::widening_list::ShortForm;

/// An arc of a kind of instance. Its ends are stored apart, since many passes read only them. Numbers that are the same
/// for all arcs of the kind aren't stored.
pub trait StoredArc: Copy {
    /// The numbers in 32 bits each.
    type Short: ShortForm;

    ghost shows: { Self → ArcView };

    ghost arc_of: { ArcEnds → Self.Short.Long → ArcView };

    /// Splits an arc into its stored parts.
    fn into_parts(self) -> (ArcEnds, <Self::Short as ShortForm>::Long)
        ensures { arc_of result.0 result.1 ≡ shows self };

    /// The arc with these parts.
    fn from_parts(ends: ArcEnds, numbers: <Self::Short as ShortForm>::Long) -> ArcView
        ensures { result ≡ arc_of ends numbers };
}

/// The ends of an arc.
#[derive(Clone, Copy)]
pub struct ArcEnds {
    pub tail: u32,
    pub head: u32,
}

/// An arc of a graph: 12 bytes while all weights fit into 32 bits, otherwise 16.
#[derive(Clone, Copy)]
pub struct WeightArc {
    pub tail: u32,
    pub head: u32,
    pub weight: i64,
}

impl WeightArc {
    /// The arc with all numbers; its weight is the cost.
    #[inline(always)]
    pub fn view(self) -> ArcView
        ensures { result ≡ weight_arc self.tail self.head self.weight }
    {
        ArcView {
            tail: self.tail,
            head: self.head,
            low: 0,
            cap: 0,
            cost: self.weight,
        }
    }
}

impl StoredArc for WeightArc {
    type Short = i32;

    ghost shows = { λ a. weight_arc a.tail a.head a.weight };

    ghost arc_of = { λ ends weight. weight_arc ends.tail ends.head weight };

    #[inline(always)]
    fn into_parts(self) -> (ArcEnds, i64) {
        let WeightArc { tail, head, weight } = self;
        (ArcEnds { tail, head }, weight)
    }

    #[inline(always)]
    fn from_parts(ends: ArcEnds, weight: i64) -> ArcView {
        let ArcEnds { tail, head } = ends;
        WeightArc { tail, head, weight }.view()
    }
}

/// An arc of a maximum flow: 12 bytes while all capacities fit into 32 bits, otherwise 16.
#[derive(Clone, Copy)]
pub struct CapacityArc {
    pub tail: u32,
    pub head: u32,
    pub cap: i64,
}

impl CapacityArc {
    /// The arc with all numbers.
    #[inline(always)]
    pub fn view(self) -> ArcView
        ensures { result ≡ capacity_arc self.tail self.head self.cap }
    {
        ArcView {
            tail: self.tail,
            head: self.head,
            low: 0,
            cap: self.cap,
            cost: 0,
        }
    }
}

impl StoredArc for CapacityArc {
    type Short = i32;

    ghost shows = { λ a. capacity_arc a.tail a.head a.cap };

    ghost arc_of = { λ ends cap. capacity_arc ends.tail ends.head cap };

    #[inline(always)]
    fn into_parts(self) -> (ArcEnds, i64) {
        let CapacityArc { tail, head, cap } = self;
        (ArcEnds { tail, head }, cap)
    }

    #[inline(always)]
    fn from_parts(ends: ArcEnds, cap: i64) -> ArcView {
        let ArcEnds { tail, head } = ends;
        CapacityArc { tail, head, cap }.view()
    }
}

/// The bounds and the cost of an arc of a minimum cost flow.
#[derive(Clone, Copy)]
pub struct BoundsAndCost {
    pub low: i64,
    pub cap: i64,
    pub cost: i64,
}

/// Bounds and a cost that fit into 32 bits each.
#[derive(Clone, Copy)]
pub struct ShortBoundsAndCost {
    low: i32,
    cap: i32,
    cost: i32,
}

impl ShortForm for ShortBoundsAndCost {
    type Long = BoundsAndCost;

    ghost widened = { λ b. record { low = b.low; cap = b.cap; cost = b.cost } };

    ghost no_item = { record { low = pos 0; cap = pos 0; cost = pos 0 } };

    #[inline(always)]
    fn narrow(numbers: BoundsAndCost) -> Option<ShortBoundsAndCost> {
        let low = i32::try_from(numbers.low).ok()?;
        let cap = i32::try_from(numbers.cap).ok()?;
        let cost = i32::try_from(numbers.cost).ok()?;
        Some(ShortBoundsAndCost { low, cap, cost })
    }

    #[inline(always)]
    fn widen(self) -> BoundsAndCost {
        BoundsAndCost {
            low: i64::from(self.low),
            cap: i64::from(self.cap),
            cost: i64::from(self.cost),
        }
    }
}

/// An arc of a minimum cost flow: 20 bytes while all numbers fit into 32 bits, otherwise 32.
impl StoredArc for ArcView {
    type Short = ShortBoundsAndCost;

    ghost shows = { λ a. a };

    ghost arc_of = { λ ends numbers. cost_arc ends.tail ends.head numbers.low numbers.cap numbers.cost };

    #[inline(always)]
    fn into_parts(self) -> (ArcEnds, BoundsAndCost) {
        let ArcView {
            tail,
            head,
            low,
            cap,
            cost,
        } = self;
        (ArcEnds { tail, head }, BoundsAndCost { low, cap, cost })
    }

    #[inline(always)]
    fn from_parts(ends: ArcEnds, numbers: BoundsAndCost) -> ArcView {
        ArcView {
            tail: ends.tail,
            head: ends.head,
            low: numbers.low,
            cap: numbers.cap,
            cost: numbers.cost,
        }
    }
}
