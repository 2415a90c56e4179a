//! Numbers for the nodes that occur.

use crate::tables::{count_of, member};
use dimacs_instance::MinInstance;
use dimacs_lines::Memory;
use dimacs_network::{Network, NodeMap, has_dense_ids};
use std::alloc::Global;

/// Numbers from 0 for the nodes with an arc or a supply. Tables by node number then grow with the text, not with the
/// declared number of nodes.
#[derive(Drop)]
pub(crate) struct NodeNumbers {
    /// The numbers by ID, in the order in which nodes occur. None if each ID is its own number, and 0 is the number of
    /// no node: that is faster, and is done if IDs are dense.
    numbers: Option<NodeMap<u32>>,
    ids: Vec<u32>,
}

impl NodeNumbers {
    /// Numbers the nodes with an arc or a supply.
    pub(crate) fn new<N: Network>(
        alloc: Global,
        instance: &MinInstance<N>,
    ) -> Result<NodeNumbers, Memory> {
        let mut numbers = NodeNumbers::of_ends(alloc, instance.network())?;
        let end = instance.network().nodes() + 1;
        let mut id = 1;
        while id < end {
            if instance.supply(id) != 0 {
                numbers.add(id)?;
            }
            id = instance.next_supply(id + 1, end);
        }
        Ok(numbers)
    }

    /// Numbers the nodes with an arc.
    pub(crate) fn of_ends<N: Network>(alloc: Global, network: &N) -> Result<NodeNumbers, Memory> {
        if has_dense_ids(network) {
            return Ok(NodeNumbers {
                numbers: None,
                ids: (0..=network.nodes()).collect(alloc)?,
            });
        }
        let mut numbers = NodeNumbers {
            numbers: Some(NodeMap::new(alloc)),
            ids: Vec::new(alloc),
        };
        for i in 0..network.arcs() {
            let arc = network.arc(i);
            numbers.add(arc.tail)?;
            numbers.add(arc.head)?;
        }
        Ok(numbers)
    }

    fn add(&mut self, id: u32) -> Result<(), Memory> {
        let number = self.count();
        if let Some(numbers) = &mut self.numbers
            && numbers.get(id).is_none()
        {
            self.ids.push(id)?;
            numbers.set(id, number)?;
        }
        Ok(())
    }

    pub(crate) fn count(&self) -> u32 {
        count_of(&self.ids)
    }

    /// The number of a node; if it doesn't occur, a number beyond all tables, or of a node without arcs.
    #[inline(always)]
    pub(crate) fn of(&self, id: u32) -> u32 {
        match &self.numbers {
            Some(numbers) => numbers.get(id).unwrap_or(u32::MAX),
            None => id,
        }
    }

    /// The ID of the node with this number; 0 if there is none.
    pub(crate) fn id(&self, number: u32) -> u32 {
        member(&self.ids, number, 0)
    }

    /// The IDs in the order of the numbers.
    pub(crate) fn ids(&self) -> &[u32] {
        &self.ids
    }
}
