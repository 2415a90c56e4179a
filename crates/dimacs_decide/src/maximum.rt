//! Decides whether a flow is maximum. A heuristic proposes a cut. If that isn't tight, a search for an augmenting path
//! decides.

ghost use Rattle.std.specs.Prelude.{◌≢◌, ◌<◌, ◌↔◌, ℕ, List, ℤ, IfOk, IsTrue};
ghost use Rattle.dimacs_lines.specs.Limits.{IsNode};
ghost use Rattle.dimacs_network.specs.{declared.network.ArcView.{ArcView}, Tables.{value_of}};
ghost use Rattle.dimacs_judging.specs.Feasible.{FeasibleMax};
ghost use Rattle.dimacs_decide.specs.{MaxDecision.{DecidesMax}, inside.Residual.{IsResidualSearch, rank_of}};
ghost use Rattle.dimacs_decide.specs.inside.Imbalances.{AreEnds};

use crate::incidence::Incidence;
use crate::search::{MOST, Search};
use crate::send::{Augmentation, send};
use dimacs_claims::Cut;
use dimacs_instance::MaxInstance;
use dimacs_judging::{Flow, cut_tests, value_if_shown};
use dimacs_lines::Memory;
use dimacs_methods::guess_cut;
use dimacs_network::{Network, NodeTable};
use std::alloc::Global;

/// Whether a feasible flow is maximum.
#[derive(Drop)]
pub enum MaxDecision {
    /// It is maximum; this tight cut shows it.
    Optimal(Cut),
    /// It isn't: this flow is feasible and has a greater value.
    Better(Flow),
}

/// Decides whether a feasible flow is maximum. Takes time in proportion to the nodes and arcs, and memory for the arcs
/// and the nodes that have one.
pub fn decide_max<N: Network>(
    alloc: Global,
    instance: &MaxInstance<N>,
    flow: &Flow,
) -> Result<MaxDecision, Memory>
    requires { FeasibleMax instance.now flow.now }
    ensures { IfOk result (DecidesMax instance.now flow.now) }
{
    let guess = guess_cut(alloc, instance, flow.amounts())?;
    decide_from(alloc, instance, flow, guess)
}

/// The same from a guess of a tight cut.
pub(crate) fn decide_from<N: Network>(
    alloc: Global,
    instance: &MaxInstance<N>,
    flow: &Flow,
    guess: Option<Cut>,
) -> Result<MaxDecision, Memory>
    requires { FeasibleMax instance.now flow.now }
    ensures { IfOk result (DecidesMax instance.now flow.now) }
{
    if let Some(cut) = guess {
        if guess_holds(alloc, instance, flow, &cut) {
            return Ok(MaxDecision::Optimal(cut));
        }
    }
    decide_by_search(alloc, instance, flow)
}

fn guess_holds<N: Network>(alloc: Global, instance: &MaxInstance<N>, flow: &Flow, cut: &Cut) -> bool
    requires { FeasibleMax instance.now flow.now }
    ensures { IsTrue result → DecidesMax instance.now flow.now (MaxDecision.Optimal cut.now) }
{
    if cut.nodes() != instance.network().nodes() {
        return false;
    }
    if let Some(_value) = value_if_shown(alloc, instance, flow, cut) {
        return true;
    }
    shows_maximum(instance, flow, cut)
}

/// Whether a cut is tight for a feasible flow: one pass over the arcs. It then shows that the flow is maximum.
pub fn shows_maximum<N: Network>(instance: &MaxInstance<N>, flow: &Flow, cut: &Cut) -> bool
    requires { FeasibleMax instance.now flow.now }
    ensures { IsTrue result ↔ DecidesMax instance.now flow.now (MaxDecision.Optimal cut.now) }
{
    cut.nodes() == instance.network().nodes() && cut_tests(instance, flow, cut).is_ok()
}

/// Looks for an augmenting path from the source to the sink. If there is none, the nodes that it reached form a tight
/// cut.
fn decide_by_search<N: Network>(
    alloc: Global,
    instance: &MaxInstance<N>,
    flow: &Flow,
) -> Result<MaxDecision, Memory>
    requires { FeasibleMax instance.now flow.now }
    ensures { IfOk result (DecidesMax instance.now flow.now) }
{
    let network = instance.network();
    let incidence = Incidence::new(alloc, network)?;
    let search = source_search(alloc, instance.source(), instance.sink())?;
    match send(alloc, network, &incidence, flow, search)? {
        Augmentation::Sent(better) => Ok(MaxDecision::Better(better)),
        Augmentation::Stuck(cut) => Ok(MaxDecision::Optimal(cut)),
    }
}

/// A search from the source to the sink.
fn source_search(alloc: Global, source: u32, sink: u32) -> Result<Search, Memory>
    requires { source ≢ sink }
    ensures ends { IfOk result (λ search. AreEnds source sink (value_of search.imbalance)) }
    ensures reached { IfOk result (λ search. 0 < rank_of (value_of search.visits) source) }
    ensures search { IfOk result (λ search. (nodes : ℕ) (arcs : List ArcView) (x : List ℤ) → IsNode nodes source
        → IsResidualSearch nodes arcs x (value_of search.imbalance) (value_of search.visits) search.queue.items 0) }
{
    let mut imbalance = NodeTable::new(alloc, 0i128);
    imbalance.set(source, MOST)?;
    imbalance.set(sink, -MOST)?;
    let mut search = Search::new(alloc, imbalance);
    search.begin(source)?;
    Ok(search)
}
