//! Reading several texts, one after another.

ghost use Rattle.std.specs.Prelude.{◌≡◌, ℕ, List, [], ◌∷◌, Some, IfOk};
ghost use Rattle.dimacs_records.specs.declared.kinds.TextKind.TheVariants as kinds;
ghost use Rattle.dimacs_claims.specs.{SolutionReading.{IsPlaced, IsPlacedLawful}, SolutionTexts.{GivesSolution}};
ghost use Rattle.dimacs_runs.specs.inside.Judgings.{CountsUnread, HasFault, PlacesOne, ReadsOne, ReadsPlaced, ReadsTwo, text_spells, text_of};

use crate::early_end::EarlyEnd;
use dimacs_claims::{Place, Placed, read_solution_into};
use dimacs_instance::Summary;
use dimacs_lines::Source;
use dimacs_records::{Text, TextKind};
use std::alloc::Global;

/// Reads one text.
pub(crate) fn read<V: Text, P: Source>(alloc: Global, source: &mut P) -> Result<V, EarlyEnd>
    ensures reads { (a : List ℕ) → P.coming source.old ≡ Some a → ReadsOne V.content (text_spells V.kind V.spells a) result }
    ensures faults { CountsUnread result (P.faults source.old ∷ []) (P.faults source.new ∷ []) }
    ensures faultless { IfOk result (λ value. ¬ HasFault V.kind (P.coming source.old)) }
    ensures lawful { IfOk result (λ value. V.lawful value) }
{
    match V::read(alloc, source) {
        Ok(value) => Ok(value),
        Err(error) => Err(EarlyEnd::at_text(V::kind(), error)),
    }
}

/// Reads the summary of one text.
pub(crate) fn read_summary<V: Summary, P: Source>(
    alloc: Global,
    source: &mut P,
) -> Result<V, EarlyEnd>
    ensures reads { (a : List ℕ) → P.coming source.old ≡ Some a
        → PlacesOne (λ value summary. V.sums_up summary value) (text_spells V.kind V.spells a) result }
    ensures enough { IfOk result (λ summary. (value : V.Content) → V.sums_up summary value → V.line summary ≡ V.shown value) }
    ensures faults { CountsUnread result (P.faults source.old ∷ []) (P.faults source.new ∷ []) }
{
    let kind = V::kind();
    match V::read(alloc, source) {
        Ok(summary) => Ok(summary),
        Err(error) => Err(EarlyEnd::at_text(kind, error)),
    }
}

/// Reads two texts. The second isn't read if the first has a fault.
pub(crate) fn read_two<V: Text, W: Text, P: Source, Q: Source>(
    alloc: Global,
    first: &mut P,
    second: &mut Q,
) -> Result<(V, W), EarlyEnd>
    ensures reads { (a b : List ℕ) → P.coming first.old ≡ Some a → Q.coming second.old ≡ Some b
        → ReadsTwo V.content W.content (text_spells V.kind V.spells a) (text_spells W.kind W.spells b) result }
    ensures faults { CountsUnread result (P.faults first.old ∷ Q.faults second.old ∷ []) (P.faults first.new ∷ Q.faults second.new ∷ []) }
    ensures stops_at_first { HasFault V.kind (P.coming first.old) → second.new ≡ second.old }
    ensures lawful { IfOk result (λ values. V.lawful values.0 × W.lawful values.1) }
{
    let value = read(alloc, first)?;
    let other = read(alloc, second)?;
    Ok((value, other))
}

/// Reads a solution, whose entries go to `place`, and its certificate. The second isn't read if the first has a fault.
pub(crate) fn read_placed<E: Place, W: Text, P: Source, Q: Source>(
    alloc: Global,
    place: E,
    first: &mut P,
    second: &mut Q,
) -> Result<(Placed<E>, W), EarlyEnd>
    requires empty { E.stands_for place [] }
    ensures reads { (a b : List ℕ) → P.coming first.old ≡ Some a → Q.coming second.old ≡ Some b
        → ReadsPlaced (λ solution placed. IsPlaced placed.value placed.value_line (E.stands_for placed.place) solution)
        W.content (text_of kinds.Solution GivesSolution a) (text_spells W.kind W.spells b) result }
    ensures fixed { IfOk result (λ values. E.fixed values.0.place ≡ E.fixed place) }
    ensures faults { CountsUnread result (P.faults first.old ∷ Q.faults second.old ∷ []) (P.faults first.new ∷ Q.faults second.new ∷ []) }
    ensures stops_at_first { HasFault kinds.Solution (P.coming first.old) → second.new ≡ second.old }
    ensures lawful { IfOk result (λ values. W.lawful values.1) }
{
    let placed = place_solution(alloc, place, first)?;
    let certificate = read(alloc, second)?;
    Ok((placed, certificate))
}

/// Reads a solution, whose entries go to `place`.
pub(crate) fn place_solution<E: Place, P: Source>(
    alloc: Global,
    place: E,
    source: &mut P,
) -> Result<Placed<E>, EarlyEnd>
    requires empty { E.stands_for place [] }
    ensures reads { (a : List ℕ) → P.coming source.old ≡ Some a
        → PlacesOne (λ solution placed. IsPlaced placed.value placed.value_line (E.stands_for placed.place) solution)
        (text_of kinds.Solution GivesSolution a) result }
    ensures lawful { IfOk result (λ placed. IsPlacedLawful placed.value placed.value_line (E.stands_for placed.place)) }
    ensures fixed { IfOk result (λ placed. E.fixed placed.place ≡ E.fixed place) }
    ensures faults { CountsUnread result (P.faults source.old ∷ []) (P.faults source.new ∷ []) }
{
    match read_solution_into(alloc, place, source) {
        Ok(placed) => Ok(placed),
        Err(error) => Err(EarlyEnd::at_text(TextKind::Solution, error)),
    }
}
