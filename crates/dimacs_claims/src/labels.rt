//! Labels: claimed distances with predecessors.

ghost use Rattle.std.specs.Prelude.{◌≡◌, ◌<◌, ◌≤◌, [], ℕ, Some, OnOk, OnErr, IfSome, length};
ghost use Rattle.dimacs_lines.specs.Limits.{most_count, most_nodes};
ghost use Rattle.dimacs_claims.specs.inside.ById.{AreIndexed};
ghost use Rattle.dimacs_claims.specs.Labels.{AreLabels, AreSources, IsBlock, IsNewSource, LabelsValue, label_at, with_block};
ghost use Rattle.std.specs.FinSet as set;
ghost use Rattle.std.specs.{List.{All}, Ordering.{nat_cmp}};
ghost use Rattle.dimacs_records.specs.Ranges.{IsWide};

mod reading;
mod writing;

use crate::block::Block;
use crate::by_id::{ById, distance_by};
use dimacs_lines::Memory;
pub use reading::{LabelsBuilder, LabelsReading, read_labels, read_plain_labels};
use std::alloc::Global;
use std::marker::Model;
pub(crate) use writing::write_in_kind;
pub use writing::write_labels;

/// Claimed distances in blocks, one for each source. In a block the label of a node comes after the label of its
/// predecessor.
#[derive(Drop)]
pub struct Labels {
    nodes: u32,
    blocks: Vec<Block>,
    /// The indices of the blocks that there were at the last call of `index`.
    indices: Vec<ById>,
}

impl Model for Labels {
    ghost use Rattle.dimacs_claims.specs.inside.ById.{AreIndexed};
    ghost use Rattle.dimacs_claims.specs.Labels.{LabelsValue, AreLabels};

    ghost Value = { LabelsValue };

    ghost view = { λ l. record { nodes = l.nodes; blocks = l.blocks.items } };

    ghost invariant = { λ l. AreLabels (record { nodes = l.nodes; blocks = l.blocks.items }) × AreIndexed l.blocks.items l.indices.items };
}

impl Labels {
    /// No labels yet, in a graph with `nodes` nodes. Allocates nothing.
    pub fn new(alloc: Global, nodes: u32) -> Labels
        requires { nodes ≤ most_nodes }
        ensures empty { result ≡ record { nodes = nodes; blocks = [] } }
        ensures lawful { AreLabels result }
    {
        Labels {
            nodes,
            blocks: Vec::new(alloc),
            indices: Vec::new(alloc),
        }
    }

    /// Adds a block of a source that has none yet. Call `index` again to index it.
    pub fn push(&mut self, block: Block) -> Result<(), Memory>
        requires lawful { IsBlock self.old.nodes block }
        requires source { IsNewSource self.old.blocks block }
        requires few { length self.old.blocks < most_count }
        ensures pushed { OnOk result (self.new ≡ with_block self.old block) }
        ensures lawful { OnOk result (AreLabels self.new) }
        ensures sources { OnOk result ((sources : set.FinSet nat_cmp) → AreSources sources self.old.blocks
            → AreSources (set.insert sources block.source) self.new.blocks) }
        ensures unchanged { OnErr result (self.new ≡ self.old) }
    {
        Ok(self.blocks.push(block)?)
    }

    /// Indexes the labels of each block by ID, if they aren't yet. Then `label` takes logarithmic time. Takes 4 bytes a
    /// label. After an error some blocks may be indexed.
    pub fn index(&mut self) -> Result<(), Memory>
        ensures { self.new ≡ self.old }
    {
        index_others(&self.blocks, &mut self.indices)
    }

    /// The number of nodes of the graph, NODES of the text.
    pub fn nodes(&self) -> u32
        ensures { result ≡ self.now.nodes }
    {
        self.nodes
    }

    /// The blocks in the order of the text.
    pub fn blocks(&self) -> &[Block]
        ensures blocks { result.now ≡ self.now.blocks }
        ensures lawful { AreLabels self.now }
    {
        &self.blocks
    }

    /// The distance that a block claims for a node: 0 at its source; none without a label, and if the block or the node
    /// doesn't exist. Blocks count from 0. Takes logarithmic time in an indexed block, otherwise linear time.
    #[inline]
    pub fn label(&self, block: usize, id: u32) -> Option<i128>
        ensures label { result ≡ label_at self.now.blocks block id }
        ensures wide { IfSome result IsWide }
    {
        let found = self.blocks.get(block)?;
        if found.source() == id {
            return Some(0);
        }
        distance_by(self.indices.get(block), found.labels(), id)
    }
}

/// Adds an index for each block that has none.
fn index_others(blocks: &[Block], indices: &mut Vec<ById>) -> Result<(), Memory>
    requires lawful { (nodes : ℕ) × All (IsBlock nodes) blocks.now }
    requires begun { AreIndexed blocks.now indices.old.items }
    ensures indexed { AreIndexed blocks.now indices.new.items }
    ensures all_indexed { OnOk result (length indices.new.items ≡ length blocks.now) }
{
    for i in indices.len()..blocks.len() {
        indices.push(ById::new(*indices.allocator(), blocks[i].labels())?)?;
    }
    Ok(())
}
