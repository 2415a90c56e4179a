//! Theorems about the faults of texts and the canonical form.
//!
//! Each function is a theorem: its contract states it, and its body is empty on purpose.

ghost use Rattle.dimacs_records.specs.{CanonicalLaw.{CanonicalLaw}, FaultLaws.{OneFaultLaw, NoFaultLaw}};

/// A text has at most one fault.
pub fn one_fault()
    ensures { OneFaultLaw }
{}

/// A text has no fault if no condition holds at any of its lines or at its end.
pub fn no_fault()
    ensures { NoFaultLaw }
{}

/// Take at most `MAX_LINES` records that lines of one kind can spell. Their canonical text has exactly one line for
/// each, in their order. This line has at most `MAX_LINE` bytes, is no comment, and spells that record.
pub fn canonical_texts()
    ensures { CanonicalLaw }
{}
