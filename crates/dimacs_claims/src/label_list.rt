//! Labels, and those of a block, stored compactly.

ghost use Rattle.std.specs.Prelude.{◌≡◌, ◌<◌, ◌++◌, ◌∷◌, [], ◌↔◌, All, length, slice_get, slice_index_or, IsTrue, OnOk, OnErr};
ghost use Rattle.dimacs_network.specs.Lists.{items_left};
ghost use Rattle.dimacs_claims.specs.{Labels.{no_label}, ShortDistances.{IsShort}, declared.label_list.Label.{Label}};

use dimacs_lines::Memory;
use dimacs_network::{ListIter, ShortForm, WideningList};
use std::alloc::Global;
use std::marker::Model;

/// A claimed distance: node `id` is at distance `dist` from the source, and `pred` is its predecessor on a walk of this
/// weight.
#[derive(Clone, Copy, Debug, PartialEq, Eq)]
pub struct Label {
    pub dist: i128,
    pub id: u32,
    pub pred: u32,
}

/// Labels in the order in which they were added. A label takes 12 bytes while all distances are below the greatest
/// number of 32 bits, 16 while they fit into 64, otherwise 32.
#[derive(Drop)]
pub struct LabelList {
    labels: WideningList<Label32, WideningList<Label64, Vec<Label>>>,
}

impl Model for LabelList {
    ghost use Rattle.std.specs.Prelude.{List};
    ghost use Rattle.dimacs_claims.specs.declared.label_list.Label.{Label};

    ghost Value = { List Label };

    ghost view = { λ l. l.labels };
}

impl LabelList {
    /// The empty list. Allocates nothing.
    pub(crate) fn new(alloc: Global) -> LabelList
        ensures { result ≡ [] }
    {
        LabelList {
            labels: WideningList::new(alloc),
        }
    }

    #[inline(always)]
    pub(crate) fn push(&mut self, label: Label) -> Result<(), Memory>
        ensures pushed { OnOk result (self.new ≡ self.old ++ label ∷ []) }
        ensures unchanged { OnErr result (self.new ≡ self.old) }
    {
        self.labels.push(label)
    }

    /// The number of labels.
    #[inline(always)]
    pub fn len(&self) -> usize
        ensures { result ≡ length self.now }
    {
        self.labels.len()
    }

    /// Whether all labels take 12 bytes. Then all distances are below the greatest number of 32 bits.
    pub fn is_short(&self) -> bool
        ensures { IsTrue result → All (λ (l : Label). IsShort l.dist) self.now }
    {
        self.labels.is_short()
    }

    /// Whether there is no label.
    pub fn is_empty(&self) -> bool
        ensures { IsTrue result ↔ (self.now ≡ []) }
    {
        self.labels.is_empty()
    }

    /// The first label; none in an empty list.
    pub fn first(&self) -> Option<Label>
        ensures { result ≡ slice_get self.now 0 }
    {
        self.labels.first()
    }

    /// The label at this place, from 0; none past the last.
    pub fn get(&self, place: usize) -> Option<Label>
        ensures { result ≡ slice_get self.now place }
    {
        self.labels.get(place)
    }

    /// The label at this place, from 0.
    #[inline(always)]
    pub fn at(&self, place: usize) -> Label
        requires { place < length self.now }
        ensures { result ≡ slice_index_or self.now place no_label }
    {
        self.labels.at(place)
    }

    /// Iterates over the labels in order.
    pub fn iter(&self) -> ListIter<'_, Label32, WideningList<Label64, Vec<Label>>>
        ensures { items_left result ≡ self.now }
    {
        self.labels.iter()
    }
}

impl<'a> IntoIterator for &'a LabelList {
    ghost use Rattle.std.specs.Prelude.{◌≡◌};
    ghost use Rattle.dimacs_network.specs.Lists.{items_left};

    type Item = Label;

    type IntoIter = ListIter<'a, Label32, WideningList<Label64, Vec<Label>>>;

    ghost into_iter_gives = { λ list it. items_left it ≡ list.now };

    fn into_iter(self) -> ListIter<'a, Label32, WideningList<Label64, Vec<Label>>> {
        self.iter()
    }
}

/// A label whose distance fits into 32 bits, and isn't the greatest number of them.
#[derive(Clone, Copy)]
pub struct Label32 {
    dist: i32,
    id: u32,
    pred: u32,
    ghost short: { IsShort dist },
}

impl ShortForm for Label32 {
    ghost use Rattle.dimacs_claims.specs.Labels.{no_label};
    ghost use Rattle.dimacs_claims.specs.LabelLists.{label_of_32};

    type Long = Label;

    ghost widened = { label_of_32 };

    ghost no_item = { no_label };

    #[inline(always)]
    fn narrow(label: Label) -> Option<Label32> {
        let Label { id, pred, .. } = label;
        let dist = i32::try_from(label.dist).ok()?;
        if dist == i32::MAX {
            return None;
        }
        Some(Label32 { dist, id, pred })
    }

    #[inline(always)]
    fn widen(self) -> Label {
        let Label32 { dist, id, pred } = self;
        Label {
            dist: i128::from(dist),
            id,
            pred,
        }
    }
}

/// A label whose distance fits into 64 bits.
#[derive(Clone, Copy)]
pub struct Label64 {
    dist: i64,
    id: u32,
    pred: u32,
}

impl ShortForm for Label64 {
    ghost use Rattle.dimacs_claims.specs.Labels.{no_label};
    ghost use Rattle.dimacs_claims.specs.LabelLists.{label_of_64};

    type Long = Label;

    ghost widened = { label_of_64 };

    ghost no_item = { no_label };

    #[inline(always)]
    fn narrow(label: Label) -> Option<Label64> {
        let Label { id, pred, .. } = label;
        let dist = i64::try_from(label.dist).ok()?;
        Some(Label64 { dist, id, pred })
    }

    #[inline(always)]
    fn widen(self) -> Label {
        let Label64 { dist, id, pred } = self;
        Label {
            dist: i128::from(dist),
            id,
            pred,
        }
    }
}
