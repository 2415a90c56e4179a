//! The distances that a block with few labels claims, looked up by a table that many blocks share.

ghost use Rattle.std.specs.{Prelude.{◌≡◌, ℕ, IfOk}, Option.{ForSome}};
ghost use Rattle.dimacs_records.specs.Ranges.{IsWide};
ghost use Rattle.dimacs_claims.specs.Labels.{IsBlock, label};
ghost use Rattle.dimacs_network.specs.Tables.{value_of};
ghost use Rattle.dimacs_decide.specs.inside.FewLabels.{AreNamed, ArePlaced};

use crate::claim::DistanceClaim;
use dimacs_claims::Block;
use dimacs_lines::Memory;
use dimacs_network::NodeTable;

/// A look-up takes constant time.
#[derive(Drop)]
pub(crate) struct PlacedClaim<'a> {
    block: &'a Block,
    /// The place of each node's label. Other nodes may have any place, since each label has its node's ID.
    places: NodeTable<u32>,
    ghost wide: { (id : ℕ) → ForSome (label block.now id) IsWide },
    ghost named: { AreNamed block.now },
    ghost placed: { ArePlaced block.now (value_of places) },
}

impl<'a> PlacedClaim<'a> {
    /// The table may still hold places of other blocks. Takes memory only for nodes that it doesn't hold yet.
    pub(crate) fn new(block: &'a Block, places: NodeTable<u32>) -> Result<PlacedClaim<'a>, Memory>
        requires { (nodes : ℕ) × IsBlock nodes block.now }
        ensures { IfOk result (λ claim. claim.block.now ≡ block.now) }
    {
        let mut places = places;
        let labels = block.labels();
        for i in 0..labels.len() {
            places.set(labels.at(i).id, i as u32)?;
        }
        Ok(PlacedClaim { block, places })
    }

    /// The table, for the next block.
    pub(crate) fn into_places(self) -> NodeTable<u32> {
        self.places
    }
}

impl<'a> DistanceClaim for PlacedClaim<'a> {
    ghost claimed = { λ claim id. label claim.block.now id };

    #[inline]
    fn of(&self, id: u32) -> Option<i128> {
        if id == self.block.source() {
            return Some(0);
        }
        let labels = self.block.labels();
        let place = self.places.get(id) as usize;
        if place >= labels.len() {
            return None;
        }
        let label = labels.at(place);
        if label.id != id {
            return None;
        }
        Some(label.dist)
    }

    fn next(&self, from: u32, end: u32) -> u32 {
        if (self.places.blank() as usize) < self.block.labels().len() {
            return from;
        }
        let next = self.places.next(from, end);
        let source = self.block.source();
        if from <= source && source < next {
            source
        } else {
            next
        }
    }
}
