//! Readings: they collect the records of a text and make a value of them.

ghost use Rattle.std.specs.Prelude.{◌≡◌, ◌↔◌, ◌++◌, ◌∷◌, [], ℕ, List, IfOk, IfErr, OnOk, OnErr, ⊤};
ghost use Rattle.dimacs_records.specs.declared.kinds.TextKind.{TextKind};
ghost use Rattle.dimacs_records.specs.Readings.{LineRecord, records_of, on_line, AreBefore, IsOfKind, IsAllowed, RefusesRecord, IsComplete, RefusesEnd};

use crate::faults::TakeError;
use crate::records::Record;

/// Takes the records of a text in order, and gives a value at the end. Refuses what its kind of text forbids.
///
/// `stands_for` relates a reading to records with line numbers. It is a relation, since a reading needn't keep
/// everything: one without line numbers stands for the same records on any lines.
pub trait Reading: Drop {
    /// What the text is read into.
    type Value;

    ghost kind: { Self → TextKind };

    ghost stands_for: { Self → List LineRecord → Type 0 };

    /// Which value the records of a text give.
    ghost gives: { List LineRecord → Self.Value → Type 0 };

    /// Numbers that no record changes. A reading whose caller needs none of them after it leaves this out.
    ghost fixed: { Self → List ℕ } = { λ _. [] };

    /// How the value depends on the reading before its first record. A reading that starts empty leaves this out.
    ghost keeps: { Self → Self.Value → Type 0 } = { λ _ _. ⊤ };

    /// Takes the record of the line with this number; lines come in order. `Refused` has the first condition of the
    /// kind that holds. After an error the reading is unchanged.
    fn take(&mut self, line: u64, rec: Record) -> Result<(), TakeError>
        requires of_kind { IsOfKind (kind self.old) rec }
        ensures kind { kind self.new ≡ kind self.old }
        ensures allowed { OnOk result ((rs : List LineRecord) → stands_for self.old rs → IsAllowed (records_of rs) rec) }
        ensures taken { OnOk result ((rs : List LineRecord) → stands_for self.old rs → AreBefore line rs
            → stands_for self.new (rs ++ on_line line rec ∷ [])) }
        ensures refused { IfErr result (λ error. (rs : List LineRecord) → stands_for self.old rs → RefusesRecord (records_of rs) rec error) }
        ensures unchanged { OnErr result ((rs : List LineRecord) → stands_for self.new rs ↔ stands_for self.old rs) }
        ensures fixed { fixed self.new ≡ fixed self.old }
        ensures kept { (value : Self.Value) → keeps self.new value → keeps self.old value };

    /// The value of the records. `Refused` has the first condition of the end that holds.
    fn finish(self) -> Result<Self::Value, TakeError>
        ensures given { IfOk result (λ value. (rs : List LineRecord) → stands_for self rs → gives rs value) }
        ensures complete { OnOk result ((rs : List LineRecord) → stands_for self rs → IsComplete (kind self) (records_of rs)) }
        ensures refused { IfErr result (λ error. (rs : List LineRecord) → stands_for self rs → RefusesEnd (kind self) (records_of rs) error) }
        ensures kept { IfOk result (λ value. keeps self value) };
}
