//! Iterating over lists.

ghost use Rattle.std.specs.Prelude.{◌≡◌};
ghost use Rattle.dimacs_network.specs.Lists.{items_left};

use crate::widening_list::{Items, ShortForm, WideningList};

impl<S: ShortForm, L: Items<S::Long>> WideningList<S, L> {
    /// Iterates over the items in order.
    pub fn iter(&self) -> ListIter<'_, S, L>
        ensures { items_left result ≡ self.now }
    {
        ListIter {
            list: self,
            next: 0,
        }
    }
}

/// The remaining items of a list, in order.
#[derive(Drop)]
pub struct ListIter<'a, S: ShortForm, L: Items<S::Long>> {
    list: &'a WideningList<S, L>,
    /// The place of the next item, from 0.
    next: usize,
}

impl<'a, S: ShortForm, L: Items<S::Long>> Iterator for ListIter<'a, S, L> {
    ghost use Rattle.std.specs.Iterator.{YieldsFirst, item_count};
    ghost use Rattle.dimacs_network.specs.Lists.{items_left};

    type Item = S::Long;

    ghost next_gives = { YieldsFirst items_left };

    ghost remaining = { item_count items_left };

    #[inline(always)]
    fn next(&mut self) -> Option<S::Long> {
        if self.next < self.list.len() {
            let item = self.list.at(self.next);
            self.next += 1;
            Some(item)
        } else {
            None
        }
    }
}

impl<'a, S: ShortForm, L: Items<S::Long>> IntoIterator for &'a WideningList<S, L> {
    ghost use Rattle.std.specs.Prelude.{◌≡◌};
    ghost use Rattle.dimacs_network.specs.Lists.{items_left};

    type Item = S::Long;

    type IntoIter = ListIter<'a, S, L>;

    ghost into_iter_gives = { λ list it. items_left it ≡ list.now };

    fn into_iter(self) -> ListIter<'a, S, L> {
        self.iter()
    }
}
