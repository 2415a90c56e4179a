//! 128-bit numbers by node.

ghost use Rattle.std.specs.Prelude.{◌≡◌, ◌≤◌, ◌<ℤ◌, None, IsSome, IsOk, OnOk, OnErr};
ghost use Rattle.std.specs.FinMap as map;
ghost use Rattle.dimacs_network.specs.{Maps.{greatest}, Skips.{Skips}};

use crate::node_table::NodeTable;
use dimacs_lines::Memory;
use std::alloc::Global;
use std::marker::Model;

/// Stands for no number in the table.
const NONE: i128 = i128::MAX;

/// A map from node IDs to 128-bit numbers below the greatest. A number takes 16 bytes.
#[derive(Drop)]
pub struct WideMap {
    numbers: NodeTable<i128>,
}

impl Model for WideMap {
    ghost use Rattle.std.specs.Prelude.{◌≡◌, ℤ};
    ghost use Rattle.std.specs.Ordering.{nat_cmp};
    ghost use Rattle.std.specs.FinMap as map;
    ghost use Rattle.std.specs.Coded.{coded_ℕ, coded_ℤ};
    ghost use Rattle.dimacs_network.specs.Maps.{greatest, numbers_in};
    ghost use Rattle.dimacs_network.specs.Tables.{blank_of};

    ghost Value = { map.FinMap nat_cmp ℤ };

    ghost coded = { map.code coded_ℕ coded_ℤ };

    ghost view = { λ all. numbers_in all.numbers };

    ghost invariant = { λ all. blank_of all.numbers ≡ greatest };
}

impl WideMap {
    /// The empty map. It allocates nothing.
    pub fn new(alloc: Global) -> WideMap
        ensures { result ≡ map.empty }
    {
        WideMap {
            numbers: NodeTable::new(alloc, NONE),
        }
    }

    /// The number of a node, if it has one.
    #[inline]
    pub fn get(&self, id: u32) -> Option<i128>
        ensures { result ≡ map.get self.now id }
    {
        let number = self.numbers.get(id);
        (number < NONE).then_some(number)
    }

    /// Goes from `from` over nodes without a number, at most to `end`.
    #[inline]
    pub fn next(&self, from: u32, end: u32) -> u32
        requires { from ≤ end }
        ensures { Skips (λ id. map.get self.now id ≡ None) from end result }
    {
        self.numbers.next(from, end)
    }

    /// Sets the number of a node, below the greatest. Only its first number may allocate; to replace one never fails.
    #[inline]
    pub fn set(&mut self, id: u32, number: i128) -> Result<(), Memory>
        requires { number <ℤ greatest }
        ensures set { OnOk result (self.new ≡ map.insert self.old id number) }
        ensures unchanged { OnErr result (self.new ≡ self.old) }
        ensures replaces { IsSome (map.get self.old id) → IsOk result }
    {
        self.numbers.set(id, number)
    }
}
