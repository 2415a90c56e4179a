//! The flow that the entries of a solution claim.

ghost use Rattle.std.specs.Prelude.{◌≡◌, ◌∷◌, [], IfOk};
ghost use Rattle.dimacs_claims.specs.SolutionTexts.{claimed};
ghost use Rattle.dimacs_judging.specs.{Claims.{Carries, entry_row}, Places.{ArePlaced, StandsFor}, Tests.{Settles}};

use crate::flow::Flow;
use crate::places::FlowPlaces;
use crate::verdict::JudgeError;
use dimacs_claims::{Entry, Placed, Solution};
use dimacs_lines::Memory;
use dimacs_network::Network;
use std::alloc::Global;

/// The flow that a solution claims. The k-th entry with given ends is that of the k-th arc with them; an arc without an
/// entry carries 0. The error names the line of the first entry that fails: `UnknownArc` if no arc has its ends,
/// `ArcTwice` if as many earlier entries as arcs have them.
pub fn flow_of<N: Network>(
    alloc: Global,
    network: &N,
    solution: &Solution,
) -> Result<Flow, JudgeError>
    ensures { Settles (Carries (N.list network.now) solution.now.entries.items) (entry_row (N.list network.now) solution.now.entries.items ∷ []) result }
{
    let places = places_of(alloc, network, &solution.entries)?;
    let flow = places.into_flow()?;
    Ok(flow)
}

/// Places the entries of a solution on the arcs of a network. If one fails, the result keeps the first.
pub fn placed<'a, N: Network>(
    alloc: Global,
    network: &'a N,
    solution: &Solution,
) -> Result<Placed<FlowPlaces<'a, N>>, Memory>
    ensures network { IfOk result (λ placed. placed.place.arcs ≡ N.list network.now) }
    ensures placed { IfOk result (λ placed. StandsFor placed (claimed solution.now)) }
{
    Ok(Placed {
        value: solution.value,
        value_line: solution.value_line,
        place: places_of(alloc, network, &solution.entries)?,
    })
}

fn places_of<'a, N: Network>(
    alloc: Global,
    network: &'a N,
    entries: &[Entry],
) -> Result<FlowPlaces<'a, N>, Memory>
    ensures network { IfOk result (λ places. places.arcs ≡ N.list network.now) }
    ensures placed { IfOk result (λ places. ArePlaced places entries.now) }
{
    let mut places = FlowPlaces::new(alloc, network)?;
    for entry in entries {
        places.put(*entry);
    }
    Ok(places)
}
