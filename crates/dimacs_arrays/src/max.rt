//! Maximum flow instances as arrays.

ghost use Rattle.std.specs.Prelude.{◌≡◌, ◌≢◌, ◌<◌, length, IfOk, OnOk};
ghost use Rattle.dimacs_lines.specs.Limits.{IsNode};
ghost use Rattle.dimacs_instance.specs.MaxFlows.{IsMax};
ghost use Rattle.dimacs_arrays.specs.MaxArrays.{end_rows, max_arc, max_lengths, max_limits, max_spelled};
ghost use Rattle.dimacs_arrays.specs.inside.Answers.{Spells, TestsLengths, TestsLimits};

use crate::error::{Array, ArrayError};
use crate::lengths::{ArrayLength, lengths_hold};
use crate::lent_arcs::{ArcArrays, LentArcs};
use crate::limits::{PastLimit, counts_hold};
use dimacs_instance::MaxInstance;
use dimacs_judging::Where;
use dimacs_network::ArcView;
use dimacs_records::Reason;

/// A maximum flow instance as arrays: the k-th arc goes from the k-th tail to the k-th head and has the k-th capacity.
#[repr(C)]
#[derive(Clone, Copy)]
pub struct MaxArrays<'a> {
    pub nodes: u32,
    pub source: u32,
    pub sink: u32,
    pub tails: &'a [u32],
    pub heads: &'a [u32],
    pub caps: &'a [i64],
}

// The contracts are those of `ArcArrays`, in lent_arcs.rt.
impl<'a> ArcArrays for MaxArrays<'a> {
    ghost arc_of = { max_arc };

    ghost HasArc = { λ a k. (k < length a.tails.now) × (k < length a.heads.now) × (k < length a.caps.now) };

    #[inline(always)]
    fn arc(&self, k: usize) -> ArcView {
        ArcView {
            tail: self.tails[k],
            head: self.heads[k],
            low: 0,
            cap: self.caps[k],
            cost: 0,
        }
    }
}

impl<'a> MaxArrays<'a> {
    pub(crate) fn lengths_hold(&self) -> Result<(), ArrayError>
        ensures { TestsLengths (max_lengths self.now) result }
    {
        let arcs = self.tails.len();
        lengths_hold(&[
            ArrayLength::of(Array::Heads, self.heads.len(), arcs),
            ArrayLength::of(Array::Caps, self.caps.len(), arcs),
        ])
    }

    fn ends_hold(&self) -> Result<(), PastLimit>
        ensures first_fault { TestsLimits (end_rows self.now.nodes self.now.source self.now.sink) result }
        ensures source { OnOk result (IsNode self.now.nodes self.now.source) }
        ensures sink { OnOk result (IsNode self.now.nodes self.now.sink) }
        ensures apart { OnOk result (self.now.source ≢ self.now.sink) }
    {
        if self.source == 0 || self.source > self.nodes {
            return Err(PastLimit {
                place: Where::Node(self.source),
                reason: Reason::NodeRange,
            });
        }
        if self.sink == 0 || self.sink > self.nodes {
            return Err(PastLimit {
                place: Where::Node(self.sink),
                reason: Reason::NodeRange,
            });
        }
        if self.source == self.sink {
            return Err(PastLimit {
                place: Where::Node(self.sink),
                reason: Reason::NodeTwice,
            });
        }
        Ok(())
    }

    /// The instance that the arrays spell, or the first number past its limit.
    pub(crate) fn instance(&self) -> Result<MaxInstance<LentArcs<MaxArrays<'a>>>, ArrayError>
        requires heads { length self.now.heads.now ≡ length self.now.tails.now }
        requires caps { length self.now.caps.now ≡ length self.now.tails.now }
        ensures spells { Spells (max_limits self.now) (max_spelled self.now) result }
        ensures lawful { IfOk result IsMax }
    {
        counts_hold(self.nodes, self.tails.len())?;
        self.ends_hold()?;
        let network = LentArcs::of(*self, self.nodes, self.tails.len())?;
        Ok(MaxInstance::over(network, self.source, self.sink))
    }
}
