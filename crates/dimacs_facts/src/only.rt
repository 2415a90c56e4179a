//! How many arcs have the reduced cost 0, and that no other flow costs as little if none has.

ghost use Rattle.std.specs.Prelude.{◌≡◌};
ghost use Rattle.dimacs_claims.specs.{Potentials.{potential_of}, SolutionTexts.{claimed}};
ghost use Rattle.dimacs_facts.specs.Facts.{OnlyFlow, one_tight, tight_count};
ghost use Rattle.dimacs_judging.specs.MinJudge.{ShowsLeast};
ghost use Rattle.dimacs_judging.specs.Potentials as theory;

use crate::laws::no_other_flow;
use dimacs_claims::{Potentials, Solution};
use dimacs_instance::MinInstance;
use dimacs_network::{ArcView, Network};

/// How many arcs have the reduced cost 0, by potentials that show that the claimed flow costs least. If none has, no other
/// flow costs as little.
pub fn count_tight<N: Network>(
    min: &MinInstance<N>,
    _solution: &Solution,
    potentials: &Potentials,
) -> u32
    requires { ShowsLeast min.now (claimed _solution.now) potentials.now }
    ensures count { result ≡ tight_count min.now.arcs potentials.now }
    ensures only { result ≡ 0 → OnlyFlow min.now (claimed _solution.now) }
{
    no_other_flow();
    tight_arcs(min.network(), potentials)
}

/// How many arcs of a network have the reduced cost 0.
fn tight_arcs<N: Network>(network: &N, potentials: &Potentials) -> u32
    ensures { result ≡ tight_count (N.list network.now) potentials.now }
{
    let mut count = 0;
    for i in 0..network.arcs() {
        count += one_if_tight(network.arc(i), potentials);
    }
    count
}

/// 1 for an arc with the reduced cost 0, else 0.
fn one_if_tight(arc: ArcView, potentials: &Potentials) -> u32
    ensures { result ≡ one_tight potentials.now arc }
{
    if reduced_cost(arc, potentials) == 0 {
        1
    } else {
        0
    }
}

fn reduced_cost(arc: ArcView, potentials: &Potentials) -> i128
    ensures { result ≡ theory.reduced_cost (potential_of potentials.now) arc }
{
    i128::from(arc.cost) - potentials.of(arc.tail) + potentials.of(arc.head)
}
