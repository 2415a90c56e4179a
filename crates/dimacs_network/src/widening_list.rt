//! Lists that keep their items in a short form while all fit.

ghost use Rattle.std.specs.Prelude.{◌≡◌, ◌<◌, ◌++◌, ◌∷◌, [], List, IfOk, IfSome, IsTrue, OnErr, OnOk, length, map, pos, slice_get, slice_index_or, ◌↔◌};

use dimacs_lines::Memory;
use std::alloc::Global;
use std::marker::Model;

/// A form that takes less memory, of items whose numbers fit.
pub trait ShortForm: Copy {
    /// The item itself.
    type Long: Copy;

    ghost widened: { Self → Self.Long };

    /// Past the end of a list, in contracts only.
    ghost no_item: { Self.Long };

    /// The short form of an item; none if some number doesn't fit.
    fn narrow(item: Self::Long) -> Option<Self>
        ensures { IfSome result (λ short. widened short ≡ item) };

    /// The item with this short form.
    fn widen(self) -> Self::Long
        ensures { result ≡ widened self };
}

/// 32-bit numbers are the short form of 64-bit ones.
impl ShortForm for i32 {
    type Long = i64;

    ghost widened = { λ n. n };

    ghost no_item = { pos 0 };

    #[inline(always)]
    fn narrow(number: i64) -> Option<i32> {
        i32::try_from(number).ok()
    }

    #[inline(always)]
    fn widen(self) -> i64 {
        i64::from(self)
    }
}

/// A list that grows at its end.
pub trait Items<T>: Drop {
    ghost list: { Self → List T };

    /// The empty list. Allocates nothing.
    fn new(alloc: Global) -> Self
        ensures { list result ≡ [] };

    /// Appends an item.
    fn push(&mut self, item: T) -> Result<(), Memory>
        ensures pushed { OnOk result (list self.new ≡ list self.old ++ item ∷ []) }
        ensures unchanged { OnErr result (list self.new ≡ list self.old) };

    /// The number of items.
    fn len(&self) -> usize
        ensures { result ≡ length (list self.now) };

    /// The item at this place, from 0.
    fn at(&self, place: usize) -> T
        requires { place < length (list self.now) }
        ensures { (d : T) → result ≡ slice_index_or (list self.now) place d };
}

impl<T: Copy> Items<T> for Vec<T> {
    ghost list = { λ v. v.items };

    fn new(alloc: Global) -> Vec<T> {
        Vec::new(alloc)
    }

    #[inline(always)]
    fn push(&mut self, item: T) -> Result<(), Memory> {
        Vec::push(self, item)?;
        Ok(())
    }

    #[inline(always)]
    fn len(&self) -> usize {
        Vec::len(self)
    }

    #[inline(always)]
    fn at(&self, place: usize) -> T {
        self[place]
    }
}

/// A list of items in their short form while it holds all of them, otherwise in `L`. The first item that doesn't fit
/// copies all.
#[derive(Drop)]
pub struct WideningList<S: ShortForm, L: Items<S::Long>> {
    short: Vec<S>,
    long: L,
}

impl<S: ShortForm, L: Items<S::Long>> Model for WideningList<S, L> {
    ghost use Rattle.std.specs.Prelude.{◌≡◌, ◌⊎◌, ◌++◌, [], List, map};

    ghost Value = { List S.Long };

    ghost view = { λ l. map S.widened l.short.items ++ L.list l.long };

    ghost invariant = { λ l. (l.short.items ≡ []) ⊎ (L.list l.long ≡ []) };
}

impl<S: ShortForm, L: Items<S::Long>> WideningList<S, L> {
    /// The empty list. Allocates nothing.
    pub fn new(alloc: Global) -> WideningList<S, L>
        ensures { result ≡ [] }
    {
        WideningList {
            short: Vec::new(alloc),
            long: L::new(alloc),
        }
    }

    /// Appends an item.
    #[inline(always)]
    pub fn push(&mut self, item: S::Long) -> Result<(), Memory>
        ensures pushed { OnOk result (self.new ≡ self.old ++ item ∷ []) }
        ensures unchanged { OnErr result (self.new ≡ self.old) }
    {
        if self.long.len() == 0
            && let Some(short) = S::narrow(item)
        {
            self.short.push(short)?;
            return Ok(());
        }
        self.push_long(item)
    }

    /// Appends an item in the long form.
    #[cold]
    #[inline(never)]
    fn push_long(&mut self, item: S::Long) -> Result<(), Memory>
        ensures pushed { OnOk result (self.new ≡ self.old ++ item ∷ []) }
        ensures unchanged { OnErr result (self.new ≡ self.old) }
    {
        if !self.short.is_empty() {
            let alloc = *self.short.allocator();
            self.long = widen_all(alloc, &self.short)?;
            self.short = Vec::new(alloc);
        }
        self.long.push(item)
    }

    /// The number of items.
    #[inline(always)]
    pub fn len(&self) -> usize
        ensures { result ≡ length self.now }
    {
        if self.short.is_empty() {
            self.long.len()
        } else {
            self.short.len()
        }
    }

    /// Whether all items are in their short form.
    pub fn is_short(&self) -> bool
        ensures { IsTrue result → (short : List S) × (self.now ≡ map S.widened short) }
    {
        self.long.len() == 0
    }

    /// Whether the list is empty.
    pub fn is_empty(&self) -> bool
        ensures { IsTrue result ↔ (self.now ≡ []) }
    {
        self.len() == 0
    }

    /// The first item, if any.
    pub fn first(&self) -> Option<S::Long>
        ensures { result ≡ slice_get self.now 0 }
    {
        self.get(0)
    }

    /// The item at this place, from 0; none past the last.
    pub fn get(&self, place: usize) -> Option<S::Long>
        ensures { result ≡ slice_get self.now place }
    {
        if place < self.len() {
            Some(self.at(place))
        } else {
            None
        }
    }

    /// The item at this place, from 0.
    #[inline(always)]
    pub fn at(&self, place: usize) -> S::Long
        requires { place < length self.now }
        ensures { result ≡ slice_index_or self.now place S.no_item }
    {
        match self.short.get(place) {
            Some(short) => short.widen(),
            None => self.long.at(place),
        }
    }
}

impl<S: ShortForm, L: Items<S::Long>> Items<S::Long> for WideningList<S, L> {
    ghost list = { λ l. l };

    fn new(alloc: Global) -> WideningList<S, L> {
        WideningList::new(alloc)
    }

    #[inline]
    fn push(&mut self, item: S::Long) -> Result<(), Memory> {
        WideningList::push(self, item)
    }

    #[inline(always)]
    fn len(&self) -> usize {
        WideningList::len(self)
    }

    #[inline(always)]
    fn at(&self, place: usize) -> S::Long {
        WideningList::at(self, place)
    }
}

/// Copies the items to their long form.
#[cold]
#[inline(never)]
fn widen_all<S: ShortForm, L: Items<S::Long>>(alloc: Global, short: &[S]) -> Result<L, Memory>
    ensures { IfOk result (λ long. L.list long ≡ map S.widened short.now) }
{
    let mut long = L::new(alloc);
    for item in short {
        long.push(item.widen())?;
    }
    Ok(long)
}
