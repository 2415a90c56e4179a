//! Solutions over arcs in arrays: read into an amount for each arc, and made.

ghost use Rattle.std.specs.Prelude.{◌≡◌, ◌<◌, length, IfNone, IfOk, IfSome};
ghost use Rattle.dimacs_records.specs.{declared.reasons.Reason.TheVariants.{NumberRange}, Ranges.{IsWhole}};
ghost use Rattle.dimacs_judging.specs.declared.verdict.JudgeError.TheVariants.{Refused};
ghost use Rattle.dimacs_judging.specs.declared.verdict.Where.TheVariants as places;
ghost use Rattle.dimacs_instance.specs.Graph.{IsGraph};
ghost use Rattle.dimacs_arrays.specs.SolutionArrays.{MakesSolution, MakesSolutionArrays, ReadsSolutionArrays, ReadsSolutionOver, end_arc, ends_lengths, ends_limits, ends_spelled, not_read};
ghost use Rattle.dimacs_arrays.specs.{inside.Answers.{Spells, TestsLengths}, inside.ClaimedFlows.{ClaimsFlow}};

use crate::error::{Array, ArrayError};
use crate::lengths::{ArrayLength, lengths_hold};
use crate::lent_arcs::{ArcArrays, LentArcs};
use crate::limits::counts_hold;
use dimacs_claims::{Placed, Solution, read_solution_into};
use dimacs_decide::entries_for;
use dimacs_instance::Graph;
use dimacs_judging::{Flow, FlowPlaces, JudgeError, Where};
use dimacs_lines::MemorySource;
use dimacs_network::{ArcView, Network};
use dimacs_records::{ReadError, Reason};
use std::alloc::Global;

/// The arcs of an instance without their numbers: the k-th goes from the k-th tail to the k-th head.
#[derive(Clone, Copy)]
pub struct EndArrays<'a> {
    pub nodes: u32,
    pub tails: &'a [u32],
    pub heads: &'a [u32],
}

// The contracts are those of `ArcArrays`, in lent_arcs.rt.
impl<'a> ArcArrays for EndArrays<'a> {
    ghost arc_of = { end_arc };

    ghost HasArc = { λ a k. (k < length a.tails.now) × (k < length a.heads.now) };

    #[inline(always)]
    fn arc(&self, k: usize) -> ArcView {
        ArcView {
            tail: self.tails[k],
            head: self.heads[k],
            low: 0,
            cap: 0,
            cost: 0,
        }
    }
}

impl<'a> EndArrays<'a> {
    fn lengths_hold(&self) -> Result<(), ArrayError>
        ensures { TestsLengths (ends_lengths self.now) result }
    {
        lengths_hold(&[ArrayLength::of(Array::Heads, self.heads.len(), self.tails.len())])
    }

    /// The nodes and arcs, as a graph whose weights are 0; or the first number past its limit.
    fn graph(&self) -> Result<Graph<LentArcs<EndArrays<'a>>>, ArrayError>
        requires heads { length self.now.heads.now ≡ length self.now.tails.now }
        ensures spells { Spells (ends_limits self.now) (ends_spelled self.now) result }
        ensures lawful { IfOk result IsGraph }
    {
        counts_hold(self.nodes, self.tails.len())?;
        Ok(Graph::over(LentArcs::of(*self, self.nodes, self.tails.len())?))
    }
}

/// What a solution claims over the arcs of an instance.
#[derive(Drop)]
pub struct ClaimedFlow {
    pub value: i64,
    /// An amount for each arc.
    pub flow: Flow,
}

/// Reads the text of a solution over these arcs. The k-th entry with given ends is that of the k-th arc with them; an arc
/// without an entry carries 0.
///
/// After the lengths and limits, `Refused` has the first of these: the text's fault; the first entry that fails,
/// `UnknownArc` or `ArcTwice` as in `flow_of`; `NumberRange` at the value, if it doesn't fit into 64 bits.
pub fn read_solution_arrays(
    alloc: Global,
    arrays: &EndArrays<'_>,
    text: &[u8],
) -> Result<ClaimedFlow, ArrayError>
    ensures { ReadsSolutionArrays arrays.now text.now result }
{
    arrays.lengths_hold()?;
    let graph = arrays.graph()?;
    Ok(read_over(alloc, &graph, text)?)
}

fn read_over<N: Network>(
    alloc: Global,
    graph: &Graph<N>,
    text: &[u8],
) -> Result<ClaimedFlow, JudgeError>
    ensures { ReadsSolutionOver graph.now.arcs text.now result }
{
    let places = FlowPlaces::new(alloc, graph.network())?;
    match read_solution_into(alloc, places, &mut MemorySource::new(text)) {
        Ok(placed) => claimed_flow(alloc, &placed),
        Err(error) => Err(refusal(error)),
    }
}

/// The fault of a solution's text. A text in memory has no device that fails.
fn refusal(error: ReadError) -> JudgeError
    ensures { result ≡ not_read error }
{
    match error {
        ReadError::Refused(place, reason) => JudgeError::Refused(
            Where::Solution {
                line: place.line,
                field: place.field,
            },
            reason,
        ),
        ReadError::Device | ReadError::Memory => JudgeError::Memory,
    }
}

/// The flow of the entries, and the value in 64 bits.
fn claimed_flow<N: Network>(
    alloc: Global,
    placed: &Placed<FlowPlaces<'_, N>>,
) -> Result<ClaimedFlow, JudgeError>
    ensures { ClaimsFlow placed.now result }
{
    let flow = placed.place.flow()?.copy(alloc)?;
    match whole(placed.value) {
        Some(value) => Ok(ClaimedFlow { value, flow }),
        None => Err(past_64_bits(placed.value_line)),
    }
}

fn whole(value: i128) -> Option<i64>
    ensures some { IfSome result (λ number. (number ≡ value) × IsWhole value) }
    ensures none { IfNone result (¬ IsWhole value) }
{
    i64::try_from(value).ok()
}

/// The refusal of the value on this line.
fn past_64_bits(line: u64) -> JudgeError
    ensures { result ≡ Refused (places.Solution line 2) NumberRange }
{
    JudgeError::Refused(Where::Solution { line, field: 2 }, Reason::NumberRange)
}

/// The solution that claims this value and flow: the value on line 1, then an entry for each arc, in order, even if it
/// carries 0. First it tests the lengths of `heads` and `flows`, then the limits.
pub fn solution_of_arrays(
    alloc: Global,
    value: i64,
    arrays: &EndArrays<'_>,
    flows: &[i64],
) -> Result<Solution, ArrayError>
    ensures { MakesSolutionArrays value arrays.now flows.now result }
{
    arrays.lengths_hold()?;
    lengths_hold(&[ArrayLength::of(Array::Flows, flows.len(), arrays.tails.len())])?;
    let graph = arrays.graph()?;
    Ok(solution_over(alloc, value, &graph, flows)?)
}

fn solution_over<N: Network>(
    alloc: Global,
    value: i64,
    graph: &Graph<N>,
    flows: &[i64],
) -> Result<Solution, JudgeError>
    requires flows { length flows.now ≡ length graph.now.arcs }
    ensures { MakesSolution value graph.now.arcs flows.now result }
{
    let flow = Flow::of(alloc, flows)?;
    let entries = entries_for(alloc, graph.network(), &flow)?;
    Ok(Solution {
        value: i128::from(value),
        value_line: 1,
        entries,
    })
}
