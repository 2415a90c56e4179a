//! The entry of a node in a judge's table of labels.

ghost use Rattle.std.specs.Prelude.{◌≡◌, ◌+◌, ◌^◌};

use crate::distance::Distance;
use dimacs_claims::Label;

/// The label of a node in the block that is judged. Small entries keep more of the table in the processor's cache.
#[derive(Clone, Copy)]
pub(crate) struct NodeLabel<D> {
    /// None if the node has no label in the block.
    pub(crate) dist: D,
    /// The predecessor, plus `SUPPORTED` once a tight arc from it was found.
    pred: u32,
}

/// Greater than every ID.
const SUPPORTED: u32 = 1 << 31;

impl<D: Distance> NodeLabel<D> {
    ghost use Rattle.std.specs.Prelude.{◌≡◌, ◌+◌, ◌^◌, ◌↔◌, pos, Some, None, IsTrue, if◌then◌else◌, false, true};
    ghost use Rattle.dimacs_judging.specs.Distances.{Fits};
    ghost use Rattle.dimacs_judging.specs.inside.NodeLabels.{is_supported, entry_of};

    /// The entry of a node without a label.
    pub(crate) fn none() -> NodeLabel<D>
        ensures { D.value result.dist ≡ None }
    {
        NodeLabel {
            dist: D::none(),
            pred: SUPPORTED,
        }
    }

    /// The entry of the source, whose label needs no tight arc.
    pub(crate) fn of_source() -> NodeLabel<D>
        ensures dist { D.value result.dist ≡ Some (pos 0) }
        ensures supported { is_supported (entry_of D.value result) ≡ true }
    {
        NodeLabel {
            dist: D::zero(),
            pred: SUPPORTED,
        }
    }

    /// The entry of a label for which no tight arc was found yet.
    #[inline(always)]
    pub(crate) fn of(label: Label) -> NodeLabel<D>
        requires { Fits D.low D.end label.dist }
        ensures dist { D.value result.dist ≡ Some label.dist }
        ensures pred { result.pred ≡ label.pred }
    {
        NodeLabel {
            dist: D::of(label.dist),
            pred: label.pred,
        }
    }

    /// Whether a tight arc was found, or none is needed.
    #[inline(always)]
    pub(crate) fn is_supported(self) -> bool
        ensures { result ≡ is_supported (entry_of D.value self) }
    {
        self.pred >= SUPPORTED
    }

    /// The entry, with a tight arc found if `tight`. It adds, since the compiler turns a choice between two numbers
    /// into a branch, which would be mispredicted for every second arc.
    #[inline(always)]
    pub(crate) fn supported_if(self, tight: bool) -> NodeLabel<D>
        requires { IsTrue tight → is_supported (entry_of D.value self) ≡ false }
        ensures dist { result.dist ≡ self.dist }
        ensures pred { result.pred ≡ self.pred + (if tight then 2 ^ 31 else 0) }
    {
        NodeLabel {
            dist: self.dist,
            pred: self.pred + (u32::from(tight) << 31),
        }
    }

    /// Whether this node is the predecessor, and no tight arc for the label was found yet.
    #[inline(always)]
    pub(crate) fn lacks_arc_from(self, node: u32) -> bool
        ensures { IsTrue result ↔ ((self.pred ≡ node) × (is_supported (entry_of D.value self) ≡ false)) }
    {
        (self.pred == node) & !self.is_supported()
    }
}
