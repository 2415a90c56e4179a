//! The claimed distances of a block, looked up in constant time.

ghost use Rattle.std.specs.{Prelude.{◌≡◌, ℕ, All, IfOk}, Option.{ForSome}};
ghost use Rattle.dimacs_records.specs.Ranges.{IsWide};
ghost use Rattle.dimacs_claims.specs.{Labels.{IsBlock, label}, declared.label_list.Label.{Label}};
ghost use Rattle.dimacs_judging.specs.Distances.{Fits};
ghost use Rattle.dimacs_network.specs.DenseTables.{value_at};

use crate::claim::DistanceClaim;
use dimacs_claims::Block;
use dimacs_judging::{Distance, distance_in};
use dimacs_lines::Memory;
use dimacs_network::DenseTable;
use std::alloc::Global;

/// Those of a block with many labels, in numbers that hold them all.
#[derive(Drop)]
pub(crate) struct BlockClaim<D: Distance> {
    distances: DenseTable<D>,
    ghost wide: { (id : ℕ) → ForSome (D.value (value_at distances id)) IsWide },
}

impl<D: Distance> BlockClaim<D> {
    /// Takes a number for each node.
    pub(crate) fn new(alloc: Global, nodes: u32, block: &Block) -> Result<BlockClaim<D>, Memory>
        requires lawful { IsBlock nodes block.now }
        requires fits { All (λ (l : Label). Fits D.low D.end l.dist) block.now.labels }
        ensures { IfOk result (λ claim. (id : ℕ) → D.value (value_at claim.distances id) ≡ label block.now id) }
    {
        let mut distances = DenseTable::new(alloc, D::none(), nodes)?;
        let labels = block.labels();
        let mut at = labels.len();
        while at > 0 {
            at -= 1;
            let label = labels.at(at);
            distances.set(label.id, D::of(label.dist));
        }
        distances.set(block.source(), D::zero());
        Ok(BlockClaim { distances })
    }
}

impl<D: Distance> DistanceClaim for BlockClaim<D> {
    ghost claimed = { λ claim id. D.value (value_at claim.distances id) };

    #[inline(always)]
    fn of(&self, id: u32) -> Option<i128> {
        distance_in(self.distances.get(id))
    }
}
