//! Text that is written piece by piece.

ghost use Rattle.std.specs.{Prelude.{◌≡◌, ◌++◌, IsTrue}, String.{string_bytes}};

use dimacs_lines::Memory;
use std::alloc::Global;

/// The marks before an arc, a node and a capacity, for programs that read a sentence. No quote has such characters.
pub(crate) const MARKS: [char; 3] = ['\u{1}', '\u{2}', '\u{3}'];

/// A text that is written piece by piece. If memory runs out, it is lost.
#[derive(Drop)]
pub struct Prose {
    /// The allocator.
    pub alloc: Global,
    pub(crate) text: String,
    /// Memory ran out.
    pub is_lost: bool,
}

impl Prose {
    /// An empty text.
    pub fn new(alloc: Global) -> Prose {
        let (text, is_lost) = (String::new(alloc), false);
        Prose {
            alloc,
            text,
            is_lost,
        }
    }

    /// Adds a text.
    pub fn push(&mut self, text: &str)
        ensures { ¬ IsTrue self.new.is_lost → string_bytes self.new.text ≡ string_bytes self.old.text ++ text.now }
    {
        self.is_lost |= self.text.push_str(text).is_err();
    }

    /// Adds another text.
    pub fn append(&mut self, other: &Prose) {
        self.is_lost |= other.is_lost;
        self.push(other.text.as_str());
    }

    /// Whether nothing was written.
    pub fn is_empty(&self) -> bool {
        self.text.is_empty()
    }

    /// The text with its marks, unless it is lost.
    pub(crate) fn finish(self) -> Result<String, Memory> {
        if self.is_lost {
            return Err(Memory);
        }
        Ok(self.text)
    }

    /// The text without them.
    pub(crate) fn plain(self, alloc: Global) -> Result<String, Memory> {
        let mut plain = String::new(alloc);
        for piece in self.finish()?.split(MARKS) {
            plain.push_str(piece)?;
        }
        Ok(plain)
    }
}
