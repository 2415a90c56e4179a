//! The entries of a solution, and where they go while they are read.

ghost use Rattle.std.specs.Prelude.{◌≡◌, ◌↔◌, ◌++◌, ◌∷◌, [], List, OnOk, OnErr};
ghost use Rattle.dimacs_claims.specs.{SolutionTexts.{entry_record}, declared.place.Entry.{Entry}};

use dimacs_lines::Memory;
use dimacs_records::Record;

/// The claimed flow of an arc between two nodes.
#[derive(Clone, Copy, Debug, PartialEq, Eq)]
pub struct Entry {
    pub tail: u32,
    pub head: u32,
    pub flow: i64,
    /// The line of the text that has this entry.
    pub line: u64,
}

impl Entry {
    #[inline(always)]
    pub(crate) fn record(&self) -> Record
        ensures { result ≡ entry_record self.now }
    {
        Record::SolutionEntry {
            tail: self.tail,
            head: self.head,
            flow: self.flow,
        }
    }
}

/// Receives the entries of a solution one after another.
///
/// `stands_for` relates a place to lists of entries. It is a relation, since a place may keep only what it needs of
/// them.
pub trait Place: Drop {
    ghost stands_for: { Self → List Entry → Type 0 };

    ghost Fixed: { Type 0 };

    /// The part of the state that no entry changes.
    ghost fixed: { Self → Fixed };

    /// Adds an entry after the others. After an error the place stands for the same entries as before.
    fn place(&mut self, entry: Entry) -> Result<(), Memory>
        ensures placed { OnOk result ((entries : List Entry) → stands_for self.old entries → stands_for self.new (entries ++ entry ∷ [])) }
        ensures unchanged { OnErr result ((entries : List Entry) → stands_for self.new entries ↔ stands_for self.old entries) }
        ensures fixed { fixed self.new ≡ fixed self.old };
}

/// A list of entries keeps all of them.
impl Place for Vec<Entry> {
    ghost stands_for = { λ kept entries. kept.items ≡ entries };

    ghost Fixed = { Unit {0} };

    ghost fixed = { λ kept. tt };

    #[inline(always)]
    fn place(&mut self, entry: Entry) -> Result<(), Memory> {
        self.push(entry)?;
        Ok(())
    }
}

/// A solution whose entries went to a place: its value or cost, and the place.
#[derive(Drop)]
pub struct Placed<P: Place> {
    pub value: i128,
    /// The line of the text that has the value.
    pub value_line: u64,
    pub place: P,
}
