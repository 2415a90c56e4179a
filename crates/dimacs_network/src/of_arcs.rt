//! Making networks of arcs, for each kind of arc.

ghost use Rattle.std.specs.Prelude.{◌≡◌, IfOk};

use crate::arcs::{CapacityArc, WeightArc};
use crate::forward_star::ForwardStar;
use crate::network::{ArcView, Network};
use crate::plain_arcs::PlainArcs;
use dimacs_lines::Memory;
use std::alloc::Global;

/// Networks of the arcs of a maximum flow instance.
pub trait OfCapacityArcs: Network {
    /// Makes the network of these arcs.
    fn of_arcs(alloc: Global, arcs: PlainArcs<CapacityArc>) -> Result<Self, Memory>
        ensures nodes { IfOk result (λ network. Self.node_count network ≡ arcs.nodes) }
        ensures arcs { IfOk result (λ network. Self.list network ≡ arcs.arcs) };
}

impl OfCapacityArcs for PlainArcs<CapacityArc> {
    fn of_arcs(
        _alloc: Global,
        arcs: PlainArcs<CapacityArc>,
    ) -> Result<PlainArcs<CapacityArc>, Memory> {
        Ok(arcs)
    }
}

impl OfCapacityArcs for ForwardStar<CapacityArc> {
    fn of_arcs(
        alloc: Global,
        arcs: PlainArcs<CapacityArc>,
    ) -> Result<ForwardStar<CapacityArc>, Memory> {
        ForwardStar::of(alloc, arcs)
    }
}

/// Networks of the arcs of a minimum cost flow instance.
pub trait OfCostArcs: Network {
    /// Makes the network of these arcs.
    fn of_arcs(alloc: Global, arcs: PlainArcs<ArcView>) -> Result<Self, Memory>
        ensures nodes { IfOk result (λ network. Self.node_count network ≡ arcs.nodes) }
        ensures arcs { IfOk result (λ network. Self.list network ≡ arcs.arcs) };
}

impl OfCostArcs for PlainArcs<ArcView> {
    fn of_arcs(_alloc: Global, arcs: PlainArcs<ArcView>) -> Result<PlainArcs<ArcView>, Memory> {
        Ok(arcs)
    }
}

impl OfCostArcs for ForwardStar<ArcView> {
    fn of_arcs(alloc: Global, arcs: PlainArcs<ArcView>) -> Result<ForwardStar<ArcView>, Memory> {
        ForwardStar::of(alloc, arcs)
    }
}

/// Networks of the arcs of a graph.
pub trait OfWeightArcs: Network {
    /// Makes the network of these arcs.
    fn of_arcs(alloc: Global, arcs: PlainArcs<WeightArc>) -> Result<Self, Memory>
        ensures nodes { IfOk result (λ network. Self.node_count network ≡ arcs.nodes) }
        ensures arcs { IfOk result (λ network. Self.list network ≡ arcs.arcs) };
}

impl OfWeightArcs for PlainArcs<WeightArc> {
    fn of_arcs(_alloc: Global, arcs: PlainArcs<WeightArc>) -> Result<PlainArcs<WeightArc>, Memory> {
        Ok(arcs)
    }
}

impl OfWeightArcs for ForwardStar<WeightArc> {
    fn of_arcs(
        alloc: Global,
        arcs: PlainArcs<WeightArc>,
    ) -> Result<ForwardStar<WeightArc>, Memory> {
        ForwardStar::of(alloc, arcs)
    }
}
