//! The kinds of text and the forms of their lines, in words.

use dimacs_records::TextKind;

/// A kind of text, with its word in commands.
pub(crate) fn kind_words(kind: TextKind) -> &'static str {
    match kind {
        TextKind::Max => "a maximum flow instance (max)",
        TextKind::Min => "a minimum cost flow instance (min)",
        TextKind::Graph => "a graph (gr)",
        TextKind::Queries => "queries (query)",
        TextKind::Solution => "a solution (solution)",
        TextKind::Cut => "a set of nodes (cut)",
        TextKind::Potentials => "potentials (pot)",
        TextKind::Labels => "distance labels (dist)",
        TextKind::Distances => "distances (distances)",
    }
}

/// What stands between two forms.
const BETWEEN: &str = "`, `";

/// The forms of a kind's lines, with `BETWEEN` between them.
pub(crate) fn forms(kind: TextKind) -> &'static str {
    match kind {
        TextKind::Max => "p max NODES ARCS`, `n ID s|t`, `a TAIL HEAD CAP",
        TextKind::Min => "p min NODES ARCS`, `n ID SUPPLY`, `a TAIL HEAD LOW CAP COST",
        TextKind::Graph => "p sp NODES ARCS`, `a TAIL HEAD WEIGHT",
        TextKind::Queries => "p aux sp ss|p2p K`, `s ID`, `q FROM TO",
        TextKind::Solution => "s VALUE`, `f TAIL HEAD FLOW",
        TextKind::Cut => "p cut NODES K`, `u ID",
        TextKind::Potentials => "p pot NODES K`, `y ID VALUE",
        TextKind::Labels => "p dist NODES B`, `t SOURCE K`, `d ID DIST PRED",
        TextKind::Distances => "p distances NODES B`, `t SOURCE K`, `d ID DIST",
    }
}

/// The form of lines that begin with this letter.
pub(crate) fn form_of(kind: TextKind, letter: &[u8]) -> Option<&'static str> {
    forms(kind)
        .split(BETWEEN)
        .find(|form| field_name(form, 1).as_bytes() == letter)
}

/// The name of a field of a form, from 1. The one after the last is a RADIUS.
pub(crate) fn field_name(form: &'static str, field: u32) -> &'static str {
    let place = usize::try_from(field.saturating_sub(1)).unwrap_or(usize::MAX);
    form.split(' ').nth(place).unwrap_or("RADIUS")
}

/// The range of a field.
pub fn range_of(name: &str) -> &'static str {
    match name {
        "NODES" => "0 to 134217728 (2^27)",
        "ARCS" | "K" | "B" => "0 to 268435456 (2^28)",
        "VALUE" | "DIST" => "-10^30 to 10^30",
        "RADIUS" => "0 to 10^30",
        "LOW" | "CAP" | "COST" | "FLOW" | "SUPPLY" | "WEIGHT" => "-2^63 to 2^63 - 1",
        _ => "1 to 134217728 (2^27)",
    }
}
