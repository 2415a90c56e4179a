//! The queue of groups whose links are to be relaxed.

use crate::tables::{count_of, member, set_member};
use dimacs_lines::Memory;
use std::alloc::Global;

/// Each group at most once. They are taken by number, 64 at a time, round and round.
#[derive(Drop)]
pub(crate) struct GroupQueue {
    /// A bit for each group.
    words: Vec<u64>,
    /// The word from which groups are taken.
    at: u32,
}

impl GroupQueue {
    pub(crate) fn new(alloc: Global, groups: u32) -> Result<GroupQueue, Memory> {
        let words = vec![in alloc; 0u64; groups as usize / 64 + 1]?;
        Ok(GroupQueue { words, at: 0 })
    }

    #[inline(always)]
    pub(crate) fn push(&mut self, group: u32) {
        if let Some(word) = self.words.get_mut(group as usize / 64) {
            *word |= 1u64.wrapping_shl(group);
        }
    }

    #[inline(always)]
    pub(crate) fn pop(&mut self) -> Option<u32> {
        self.advance();
        let word = member(&self.words, self.at, 0);
        if word == 0 {
            return None;
        }
        set_member(&mut self.words, self.at, word & word.wrapping_sub(1));
        Some(self.at.wrapping_mul(64).wrapping_add(word.trailing_zeros()))
    }

    /// Goes on to a word with a group in it, at most once round.
    #[inline(always)]
    fn advance(&mut self) {
        let count = count_of(&self.words);
        for _ in 0..count {
            if member(&self.words, self.at, 0) != 0 {
                return;
            }
            let next = self.at.wrapping_add(1);
            self.at = if next < count { next } else { 0 };
        }
    }
}
