//! Readings whose arcs go to arrays.

ghost use Rattle.std.specs.Prelude.{◌≡◌, ◌∷◌, ◌++◌, [], ℕ, List, slice_set};
ghost use Rattle.dimacs_network.specs.declared.network.ArcView.{ArcView};
ghost use Rattle.dimacs_records.specs.{Readings.{records_of}, Takings.{StandsFor}};
ghost use Rattle.dimacs_fill.specs.{inside.Arcs.{arcs_in, arc_in}, inside.Columns.{AreLater, HoldArcs, columns, names}};

use dimacs_network::ArcView;
use dimacs_records::{Builder, CountedReading, Reading, Record, TakeError};

/// Reads records as `counted` does. The arrays get the parts of their arcs, one arc after another, as many as fit. An array
/// for parts that the arcs of a kind don't have is empty.
#[derive(Drop)]
pub(crate) struct ArcReading<'a, B: Builder> {
    pub(crate) counted: &'a mut CountedReading<B>,
    /// How many arcs came.
    pub(crate) at: usize,
    pub(crate) tails: &'a mut [u32],
    pub(crate) heads: &'a mut [u32],
    pub(crate) lows: &'a mut [i64],
    pub(crate) caps: &'a mut [i64],
    pub(crate) costs: &'a mut [i64],
}

impl<'a, B: Builder> ArcReading<'a, B> {
    /// Adds an arc. No array is so long that their number could pass 64 bits.
    #[inline(always)]
    fn put(&mut self, arc: ArcView)
        ensures counted { self.new.counted.now ≡ self.old.counted.now }
        ensures names { names self.new ≡ names self.old }
        ensures hold { (arcs : List ArcView) → HoldArcs (columns self.old) arcs → HoldArcs (columns self.new) (arcs ++ arc ∷ []) }
        ensures later { AreLater (columns self.old) (columns self.new) }
    {
        let Some(next) = self.at.checked_add(1) else {
            return;
        };
        set_at(self.tails, self.at, arc.tail);
        set_at(self.heads, self.at, arc.head);
        set_at(self.lows, self.at, arc.low);
        set_at(self.caps, self.at, arc.cap);
        set_at(self.costs, self.at, arc.cost);
        self.at = next;
    }
}

// The contracts are those of `Reading`, in dimacs_records/src/reading.rt.
impl<'a, B: Builder> Reading for ArcReading<'a, B> {
    /// What `counted` gives, and the arrays.
    type Value = (B::Value, ArcReading<'a, B>);

    ghost kind = { λ reading. B.kind };

    ghost stands_for = { λ reading rs. StandsFor B.built_from reading.counted.now.builder (records_of rs) × HoldArcs (columns reading) (arcs_in (records_of rs)) };

    ghost gives = { λ rs read. B.gives rs read.0 × HoldArcs (columns read.1) (arcs_in (records_of rs)) };

    ghost fixed = { λ reading. names reading };

    ghost keeps = { λ reading read. AreLater (columns reading) (columns read.1) };

    #[inline(always)]
    fn take(&mut self, line: u64, rec: Record) -> Result<(), TakeError> {
        self.counted.take(line, rec)?;
        if let Some(arc) = arc_in(rec) {
            self.put(arc);
        }
        Ok(())
    }

    fn finish(self) -> Result<(B::Value, ArcReading<'a, B>), TakeError> {
        let value = self.counted.end()?;
        Ok((value, self))
    }
}

/// Sets the item at this place, if it fits.
#[inline(always)]
fn set_at<T: Copy>(items: &mut [T], place: usize, item: T)
    ensures { items.new ≡ slice_set items.old place item }
{
    if place < items.len() {
        items[place] = item;
    }
}

/// The arc that a record spells, if any.
#[inline(always)]
fn arc_in(rec: Record) -> Option<ArcView>
    ensures { result ≡ arc_in rec }
{
    match rec {
        Record::MaxArc { tail, head, cap } => Some(ArcView {
            tail,
            head,
            low: 0,
            cap,
            cost: 0,
        }),
        Record::MinArc {
            tail,
            head,
            low,
            cap,
            cost,
        } => Some(ArcView {
            tail,
            head,
            low,
            cap,
            cost,
        }),
        Record::GraphArc { tail, head, weight } => Some(ArcView {
            tail,
            head,
            low: 0,
            cap: 0,
            cost: weight,
        }),
        _ => None,
    }
}
