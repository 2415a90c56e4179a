//! Sets of nodes.

ghost use Rattle.std.specs.Prelude.{◌≡◌, ◌≢◌, ◌<◌, ◌≤◌, ◌/◌, ◌%◌, ◌^◌, ℕ, IsTrue, IsOk, OnOk, OnErr, false, length, true};
ghost use Rattle.std.specs.FinSet as set;
ghost use Rattle.dimacs_network.specs.{Sets.{byte_at, has_bit, has_node}, Skips.{Skips}, inside.Sets.{SameBytes}};

use crate::node_table::fill;
use dimacs_lines::Memory;
use std::alloc::Global;
use std::marker::Model;

/// How many IDs share a byte.
const BITS: u32 = 8;

/// A set of node IDs, with a bit for each up to the greatest that it had: at most 17 MB for IDs up to 2^27.
#[derive(Drop)]
pub struct NodeSet {
    bytes: Vec<u8>,
}

impl Model for NodeSet {
    ghost use Rattle.std.specs.Ordering.{nat_cmp};
    ghost use Rattle.std.specs.FinSet as set;
    ghost use Rattle.std.specs.Coded.{coded_ℕ};
    ghost use Rattle.dimacs_network.specs.Sets.{nodes_in};

    ghost Value = { set.FinSet nat_cmp };

    ghost coded = { set.code coded_ℕ };

    ghost view = { λ all. nodes_in all.bytes.items };
}

impl NodeSet {
    /// The empty set. It allocates nothing.
    pub fn new(alloc: Global) -> NodeSet
        ensures { result ≡ set.empty }
    {
        NodeSet {
            bytes: Vec::new(alloc),
        }
    }

    /// Whether the set has this node.
    #[inline(always)]
    pub fn contains(&self, id: u32) -> bool
        ensures { result ≡ set.contains self.now id }
    {
        has_bit(byte_at(&self.bytes, id), id)
    }

    /// Goes from `from` over nodes that aren't in the set, at most to `end`.
    #[inline]
    pub fn next(&self, from: u32, end: u32) -> u32
        requires { from ≤ end }
        ensures { Skips (λ id. set.contains self.now id ≡ false) from end result }
    {
        if byte_at(&self.bytes, from) != 0 {
            return from;
        }
        next_byte(&self.bytes, from, end)
    }

    /// Adds a node. To repeat one allocates nothing, and can't fail.
    #[inline(always)]
    pub fn insert(&mut self, id: u32) -> Result<(), Memory>
        ensures inserted { OnOk result (self.new ≡ set.insert self.old id) }
        ensures unchanged { OnErr result (self.new ≡ self.old) }
        ensures repeats { IsTrue (set.contains self.old id) → IsOk result }
    {
        let place = (id / BITS) as usize;
        reserve(&mut self.bytes, place)?;
        let byte = with_bit(byte_at(&self.bytes, id), id);
        put(&mut self.bytes, place, byte);
        Ok(())
    }

    /// Removes a node, if the set has it.
    #[inline(always)]
    pub fn remove(&mut self, id: u32)
        ensures { self.new ≡ set.remove self.old id }
    {
        let place = (id / BITS) as usize;
        if place < self.bytes.len() {
            let byte = without_bit(byte_at(&self.bytes, id), id);
            put(&mut self.bytes, place, byte);
        }
    }

    /// Removes all nodes. It writes each of `bytes`.
    pub fn clear(&mut self)
        ensures { self.new ≡ set.empty }
    {
        fill(&mut self.bytes, 0);
    }

    /// How many bytes the set takes.
    pub fn bytes(&self) -> usize {
        self.bytes.len()
    }
}

/// The byte of a node; past the last it has no node.
#[inline(always)]
fn byte_at(bytes: &[u8], id: u32) -> u8
    ensures { result ≡ byte_at bytes.now (id / 8) }
{
    match bytes.get((id / BITS) as usize) {
        Some(byte) => *byte,
        None => 0,
    }
}

/// The same, byte by byte.
#[inline(never)]
fn next_byte(bytes: &[u8], from: u32, end: u32) -> u32
    requires { from ≤ end }
    ensures { Skips (λ id. has_node bytes.now id ≡ false) from end result }
{
    let places = bytes.len().min((end / BITS) as usize + 1);
    for place in (from / BITS) as usize..places {
        if bytes[place] != 0 {
            return from.max(place as u32 * BITS);
        }
    }
    end
}

/// Makes room up to a place, for bytes without nodes.
#[inline(always)]
fn reserve(bytes: &mut Vec<u8>, place: usize) -> Result<(), Memory>
    requires { place < 2 ^ 32 }
    ensures same { SameBytes bytes.old.items bytes.new.items }
    ensures reached { OnOk result (place < length bytes.new.items) }
    ensures repeats { place < length bytes.old.items → IsOk result }
{
    if place < bytes.len() {
        return Ok(());
    }
    extend(bytes, place)
}

#[cold]
#[inline(never)]
fn extend(bytes: &mut Vec<u8>, place: usize) -> Result<(), Memory>
    requires fits { place < 2 ^ 32 }
    requires past { length bytes.old.items ≤ place }
    ensures same { SameBytes bytes.old.items bytes.new.items }
    ensures reached { OnOk result (place < length bytes.new.items) }
{
    bytes.resize(place + 1, 0)?;
    Ok(())
}

/// Sets the byte at a place.
#[inline(always)]
fn put(bytes: &mut Vec<u8>, place: usize, byte: u8)
    requires { place < length bytes.old.items }
    ensures set { byte_at bytes.new.items place ≡ byte }
    ensures others { (other : ℕ) → other ≢ place → byte_at bytes.new.items other ≡ byte_at bytes.old.items other }
{
    bytes[place] = byte;
}

#[inline(always)]
fn has_bit(byte: u8, id: u32) -> bool
    ensures { result ≡ has_bit byte id }
{
    (byte >> (id % BITS)) & 1 == 1
}

#[inline(always)]
fn with_bit(byte: u8, id: u32) -> u8
    ensures set { has_bit result id ≡ true }
    ensures others { (other : ℕ) → other % 8 ≢ id % 8 → has_bit result other ≡ has_bit byte other }
{
    byte | (1 << (id % BITS))
}

#[inline(always)]
fn without_bit(byte: u8, id: u32) -> u8
    ensures clear { has_bit result id ≡ false }
    ensures others { (other : ℕ) → other % 8 ≢ id % 8 → has_bit result other ≡ has_bit byte other }
{
    byte & !(1 << (id % BITS))
}
