//! Values by node.

ghost use Rattle.std.specs.Prelude.{◌≡◌, ◌≤◌, None, IsSome, IsOk, OnOk, OnErr};
ghost use Rattle.std.specs.FinMap as map;
ghost use Rattle.dimacs_network.specs.Skips.{Skips};

use crate::node_table::NodeTable;
use dimacs_lines::Memory;
use std::alloc::Global;
use std::marker::Model;

/// A map from node IDs to values.
#[derive(Drop)]
pub struct NodeMap<T> {
    values: NodeTable<Option<T>>,
}

impl<T> Model for NodeMap<T> {
    ghost use Rattle.std.specs.Prelude.{◌≡◌, None};
    ghost use Rattle.std.specs.Ordering.{nat_cmp};
    ghost use Rattle.std.specs.FinMap as map;
    ghost use Rattle.std.specs.Coded.{coded_ℕ};
    ghost use Rattle.dimacs_network.specs.Maps.{values_in};
    ghost use Rattle.dimacs_network.specs.Tables.{blank_of};

    ghost Value = { map.FinMap nat_cmp T };

    ghost coded = { map.code coded_ℕ T.code };

    ghost view = { λ nodes. values_in nodes.values };

    ghost invariant = { λ nodes. blank_of nodes.values ≡ None };
}

impl<T: Copy> NodeMap<T> {
    /// The empty map. It allocates nothing.
    pub fn new(alloc: Global) -> NodeMap<T>
        ensures { result ≡ map.empty }
    {
        NodeMap {
            values: NodeTable::new(alloc, None),
        }
    }

    /// The value of a node, if it has one.
    #[inline]
    pub fn get(&self, id: u32) -> Option<T>
        ensures { result ≡ map.get self.now id }
    {
        self.values.get(id)
    }

    /// Goes from `from` over nodes without a value, at most to `end`.
    #[inline]
    pub fn next(&self, from: u32, end: u32) -> u32
        requires { from ≤ end }
        ensures { Skips (λ id. map.get self.now id ≡ None) from end result }
    {
        self.values.next(from, end)
    }

    /// Sets the value of a node. Only its first value may allocate; to replace one never fails.
    #[inline]
    pub fn set(&mut self, id: u32, value: T) -> Result<(), Memory>
        ensures set { OnOk result (self.new ≡ map.insert self.old id value) }
        ensures unchanged { OnErr result (self.new ≡ self.old) }
        ensures replaces { IsSome (map.get self.old id) → IsOk result }
    {
        self.values.set(id, Some(value))
    }
}
