//! The labels of one source.

ghost use Rattle.std.specs.Prelude.{◌≡◌, ◌==◌, ◌<◌, if◌then◌else◌, ℕ, [], length, OnOk, OnErr, IsSome, Some, None};
ghost use Rattle.dimacs_lines.specs.Limits.{most_count, IsNode};
ghost use Rattle.dimacs_records.specs.Blocks.{is_past};
ghost use Rattle.dimacs_claims.specs.Labels.{BlockValue, IsBlock, IsLabel, IsWithinRadius, with_label};
ghost use Rattle.dimacs_claims.specs.Labels as claims;

use crate::label_list::{Label, LabelList};
use dimacs_lines::Memory;
use std::alloc::Global;
use std::marker::Model;

/// The labels of one source. A node without a label is claimed to be unreachable or, with a radius, farther than it.
#[derive(Drop)]
pub struct Block {
    source: u32,
    radius: Option<i128>,
    labels: LabelList,
}

impl Model for Block {
    ghost use Rattle.dimacs_claims.specs.Labels.{BlockValue};

    ghost Value = { BlockValue };

    ghost view = { λ b. record { source = b.source; radius = b.radius; labels = b.labels } };
}

impl Block {
    /// The block of a source, without labels and radius. Allocates nothing.
    #[tactic(auto, using(crate::proofs::BlockLemmas::block_empty))]
    pub fn new(alloc: Global, source: u32) -> Block
        ensures empty { result ≡ record { source = source; radius = None; labels = [] } }
        ensures lawful { (nodes : ℕ) → IsNode nodes source → IsBlock nodes result }
    {
        Block::within(alloc, source, None)
    }

    /// The same with this radius, if any.
    pub(crate) fn within(alloc: Global, source: u32, radius: Option<i128>) -> Block
        ensures { result ≡ record { source = source; radius = radius; labels = [] } }
    {
        Block {
            source,
            radius,
            labels: LabelList::new(alloc),
        }
    }

    /// Adds a label of a node that has none in the block.
    #[inline(always)]
    pub fn add(&mut self, label: Label) -> Result<(), Memory>
        requires { claims.label self.old label.id ≡ None }
        ensures added { OnOk result (self.new ≡ with_label self.old label) }
        ensures labels { OnOk result ((id : ℕ) → claims.label self.new id ≡ (if label.id == id then Some label.dist else claims.label self.old id)) }
        ensures lawful { OnOk result ((nodes : ℕ) → IsBlock nodes self.old → IsLabel nodes label
            → length self.old.labels < most_count → IsSome (claims.label self.old label.pred)
            → IsWithinRadius self.old.radius label.dist → IsBlock nodes self.new) }
        ensures unchanged { OnErr result (self.new ≡ self.old) }
    {
        self.labels.push(label)?;
        Ok(())
    }

    /// The node from which the distances count. Its own label, 0, isn't in the list.
    pub fn source(&self) -> u32
        ensures { result ≡ self.now.source }
    {
        self.source
    }

    /// The greatest distance that the block covers; none if it covers all distances.
    pub fn radius(&self) -> Option<i128>
        ensures { result ≡ self.now.radius }
    {
        self.radius
    }

    #[inline(always)]
    pub(crate) fn is_past(&self, dist: i128) -> bool
        ensures { result ≡ is_past self.now.radius dist }
    {
        match self.radius {
            None => false,
            Some(radius) => radius < dist,
        }
    }

    /// The labels in the order of the text.
    pub fn labels(&self) -> &LabelList
        ensures { result.now ≡ self.now.labels }
    {
        &self.labels
    }
}
