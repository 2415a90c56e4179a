//! A value for each node, blank until it is set.

ghost use Rattle.std.specs.Prelude.{◌≡◌, ◌≢◌, ◌<◌, ◌≤◌, ◌+◌, ◌/◌, ◌^◌, ℕ, length, max, pos, slice_index_or, IfOk, IsOk, MatchOption, OnOk, OnErr};
ghost use Rattle.dimacs_network.specs.{Skips.{Skips}, Slots.{place_of}, inside.Slots.{IsDirectory, SameNumbers}};

use dimacs_lines::Memory;
use std::alloc::Global;

/// How many successive IDs share a page.
const PAGE: usize = 64;

/// Stands in the directory for a page that isn't allocated.
const NO_PAGE: u32 = u32::MAX;

/// Values by node ID, all the same blank value until they are set.
///
/// One list has the slots of all pages, in the order of their allocation. The directory has 4 bytes for each page up to
/// the last one in use.
#[derive(Drop)]
pub struct NodeTable<T> {
    blank: T,
    directory: Vec<u32>,
    slots: Vec<T>,
    ghost numbered: { IsDirectory directory.items (length slots.items) },
}

/// A value, and the index of its slot.
#[derive(Clone, Copy)]
pub struct Slot<T> {
    pub value: T,
    pub place: usize,
}

impl<T: Copy> NodeTable<T> {
    ghost use Rattle.dimacs_network.specs.Tables.{HasSlot, IsSlot, SameValues, AllocatesOnlyItsPage, blank_of, reach_of, slots_in, value_of};

    /// A table of blank values. It allocates nothing.
    pub fn new(alloc: Global, blank: T) -> NodeTable<T>
        ensures values { (id : ℕ) → value_of result id ≡ blank }
        ensures blank { blank_of result ≡ blank }
        ensures no_memory { (reach_of result ≡ 0) × (slots_in result ≡ 0) }
    {
        NodeTable {
            blank,
            directory: Vec::new(alloc),
            slots: Vec::new(alloc),
        }
    }

    /// The value of a node; blank until it is set.
    #[inline]
    pub fn get(&self, id: u32) -> T
        ensures value { result ≡ value_of self.now id }
    {
        match self.get_slot(id) {
            Some(slot) => slot.value,
            None => self.blank,
        }
    }

    /// The value of a node, which may be blank, and its slot; none if its page isn't allocated.
    #[inline]
    pub fn get_slot(&self, id: u32) -> Option<Slot<T>>
        ensures { MatchOption result ((value_of self.now id ≡ blank_of self.now) × (¬ HasSlot self.now id))
            (λ slot. (slot.value ≡ value_of self.now id) × IsSlot self.now id slot.place) }
    {
        let place = slot_index(&self.directory, id);
        let value = *self.slots.get(place)?;
        Some(Slot { value, place })
    }

    /// Sets the value of a node. Only the first value on a page allocates.
    #[inline]
    pub fn set(&mut self, id: u32, value: T) -> Result<(), Memory>
        ensures set { OnOk result (value_of self.new id ≡ value) }
        ensures others { OnOk result ((other : ℕ) → other ≢ id → value_of self.new other ≡ value_of self.old other) }
        ensures unchanged { OnErr result (SameValues self.old self.new) }
        ensures same_blank { blank_of self.new ≡ blank_of self.old }
        ensures memory { AllocatesOnlyItsPage self.old self.new id }
        ensures replaces { HasSlot self.old id → IsOk result }
    {
        match self.slots.get_mut(slot_index(&self.directory, id)) {
            Some(slot) => *slot = value,
            None => {
                let place = self.allocate_page(id)?;
                self.put(place, value);
            }
        }
        Ok(())
    }

    /// The index of a node's slot. Allocates its page if it has none.
    #[inline]
    pub fn reserve(&mut self, id: u32) -> Result<usize, Memory>
        ensures same { SameValues self.old self.new }
        ensures place { IfOk result (IsSlot self.new id) }
        ensures same_blank { blank_of self.new ≡ blank_of self.old }
        ensures memory { AllocatesOnlyItsPage self.old self.new id }
        ensures repeats { HasSlot self.old id → IsOk result }
    {
        let place = slot_index(&self.directory, id);
        if place < self.slots.len() {
            return Ok(place);
        }
        self.allocate_page(id)
    }

    /// Sets the value in the slot with this index.
    #[inline]
    pub fn put(&mut self, place: usize, value: T)
        requires { place < slots_in self.old }
        ensures set { (id : ℕ) → IsSlot self.old id place → value_of self.new id ≡ value }
        ensures others { (id other : ℕ) → IsSlot self.old id place → other ≢ id → value_of self.new other ≡ value_of self.old other }
        ensures elsewhere { (other : ℕ) → ¬ IsSlot self.old other place → value_of self.new other ≡ value_of self.old other }
        ensures slots_stay { (other : ℕ) → HasSlot self.old other → HasSlot self.new other }
        ensures same_blank { blank_of self.new ≡ blank_of self.old }
        ensures no_memory { (reach_of self.new ≡ reach_of self.old) × (slots_in self.new ≡ slots_in self.old) }
    {
        self.slots[place] = value;
    }

    /// The number of slots, 64 for each page.
    pub fn slots(&self) -> usize
        ensures { result ≡ slots_in self.now }
    {
        self.slots.len()
    }

    /// Makes all values blank. Their slots stay.
    pub fn clear(&mut self)
        ensures values { (id : ℕ) → value_of self.new id ≡ blank_of self.old }
        ensures same_blank { blank_of self.new ≡ blank_of self.old }
        ensures slots_stay { (id : ℕ) → HasSlot self.old id → HasSlot self.new id }
        ensures no_memory { (reach_of self.new ≡ reach_of self.old) × (slots_in self.new ≡ slots_in self.old) }
    {
        fill(&mut self.slots, self.blank);
    }

    /// An ID greater than all that were set; at most 2^32.
    pub fn end_of_ids(&self) -> usize
        ensures within { result ≤ 2 ^ 32 }
        ensures blank_after { (id : ℕ) → result ≤ id → value_of self.now id ≡ blank_of self.now }
    {
        self.directory.len() * PAGE
    }

    /// `id` if its page is allocated, otherwise the first ID of the next page: the IDs from `id` up to there are blank.
    #[inline]
    pub fn skip_blank(&self, id: u32) -> usize
        ensures from { id ≤ result }
        ensures blank_between { (other : ℕ) → id ≤ other → other < result → value_of self.now other ≡ blank_of self.now }
    {
        if slot_index(&self.directory, id) < self.slots.len() {
            id as usize
        } else {
            (id as usize / PAGE + 1) * PAGE
        }
    }

    /// Goes from `from` over IDs whose values are blank, at most to `end`.
    #[inline]
    pub fn next(&self, from: u32, end: u32) -> u32
        requires { from ≤ end }
        ensures { Skips (λ id. value_of self.now id ≡ blank_of self.now) from end result }
    {
        if self.skip_blank(from) == from as usize {
            return from;
        }
        self.next_page(from, end)
    }

    #[inline(never)]
    fn next_page(&self, from: u32, end: u32) -> u32
        requires { from ≤ end }
        ensures { Skips (λ id. value_of self.now id ≡ blank_of self.now) from end result }
    {
        let pages = self.directory.len().min(end as usize / PAGE + 1);
        for page in from as usize / PAGE..pages {
            if self.directory[page] != NO_PAGE {
                return from.max((page * PAGE) as u32);
            }
        }
        end
    }

    /// The value of each ID that was not set.
    pub fn blank(&self) -> T
        ensures { result ≡ blank_of self.now }
    {
        self.blank
    }

    /// Allocates the page of an ID that has none.
    #[cold]
    #[inline(never)]
    fn allocate_page(&mut self, id: u32) -> Result<usize, Memory>
        requires { ¬ HasSlot self.old id }
        ensures same { SameValues self.old self.new }
        ensures place { IfOk result (IsSlot self.new id) }
        ensures same_blank { blank_of self.new ≡ blank_of self.old }
        ensures memory { AllocatesOnlyItsPage self.old self.new id }
    {
        let number = self.slots.len() / PAGE;
        if number >= NO_PAGE as usize {
            return Err(Memory);
        }
        extend_directory(&mut self.directory, id)?;
        self.slots.resize((number + 1) * PAGE, self.blank)?;
        self.directory[id as usize / PAGE] = number as u32;
        Ok(slot_index(&self.directory, id))
    }
}

impl NodeTable<i128> {
    ghost use Rattle.dimacs_network.specs.Tables.{value_of};

    /// Goes from `from` over IDs whose numbers are 0, at most to `end`.
    #[inline]
    pub fn next_nonzero(&self, from: u32, end: u32) -> u32
        requires { from ≤ end }
        ensures { Skips (λ id. value_of self.now id ≡ pos 0) from end result }
    {
        if self.blank() == 0 {
            self.next(from, end)
        } else {
            from
        }
    }
}

/// The index of an ID's slot; past all slots if its page isn't allocated.
#[inline]
fn slot_index(directory: &[u32], id: u32) -> usize
    ensures { result ≡ place_of directory.now id }
{
    let number = match directory.get(id as usize / PAGE) {
        Some(number) => *number,
        None => NO_PAGE,
    };
    number as usize * PAGE + id as usize % PAGE
}

fn extend_directory(directory: &mut Vec<u32>, id: u32) -> Result<(), Memory>
    ensures same { SameNumbers directory.old.items directory.new.items }
    ensures reached { OnOk result (id / 64 < length directory.new.items) }
    ensures short { length directory.old.items ≤ 67108864 → length directory.new.items ≤ 67108864 }
    ensures no_longer { length directory.new.items ≤ max (length directory.old.items) (id / 64 + 1) }
{
    let count = id as usize / PAGE + 1;
    if directory.len() < count {
        directory.resize(count, NO_PAGE)?;
    }
    Ok(())
}

/// Sets all items to one value.
pub(crate) fn fill<T: Copy>(items: &mut [T], value: T)
    ensures all { (i : ℕ) → slice_index_or items.new i value ≡ value }
    ensures same_length { length items.new ≡ length items.old }
{
    for i in 0..items.len() {
        items[i] = value;
    }
}
