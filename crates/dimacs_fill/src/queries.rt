//! Reading queries into arrays.

ghost use Rattle.std.specs.Prelude.{◌≡◌, ◌<◌, ℕ, List, Some, length, map, option_map, slice_get};
ghost use Rattle.dimacs_instance.specs.QueryTexts.{asked};
ghost use Rattle.dimacs_records.specs.Readings.{CountsRead};
ghost use Rattle.dimacs_fill.specs.{Filling.{filled}, QueriesFilled.{HoldQueries, ReadsQueriesInto, query_sizes}};

use crate::filling::fill;
use dimacs_instance::{Queries, read_queries};
use dimacs_lines::Source;
use dimacs_records::{QueryKind, ReadError};
use std::alloc::Global;

/// What queries ask, and how many there are.
#[derive(Clone, Copy, Debug, PartialEq, Eq)]
pub struct QuerySizes {
    pub kind: QueryKind,
    pub count: usize,
}

/// Reads the text of queries. `froms` gets the node of each query from which the distance is asked, and `tos`, if they
/// ask for pairs, the node to which it is.
pub fn read_queries_into<S: Source>(
    alloc: Global,
    text: &mut S,
    froms: &mut [u32],
    tos: &mut [u32],
) -> Result<QuerySizes, ReadError>
    ensures reads { (bytes : List ℕ) → S.coming text.old ≡ Some bytes
        → ReadsQueriesInto bytes (froms.old, froms.new) (tos.old, tos.new) result }
    ensures faults { CountsRead result (S.faults text.old) (S.faults text.new) }
{
    let queries = read_queries(alloc, text)?;
    Ok(fill_queries(&queries, froms, tos))
}

fn fill_queries(queries: &Queries, froms: &mut [u32], tos: &mut [u32]) -> QuerySizes
    ensures arrays { HoldQueries (froms.old, froms.new) (tos.old, tos.new) (asked queries.now) }
    ensures sizes { result ≡ query_sizes (asked queries.now) }
{
    match queries {
        Queries::Sources(ids) => {
            fill_ids(ids, froms);
            QuerySizes {
                kind: QueryKind::Sources,
                count: ids.len(),
            }
        }
        Queries::Pairs(pairs) => {
            fill_pairs(pairs, froms, tos);
            QuerySizes {
                kind: QueryKind::Pairs,
                count: pairs.len(),
            }
        }
    }
}

fn fill_ids(ids: &[u32], froms: &mut [u32])
    ensures { froms.new ≡ filled ids.now froms.old }
{
    let count = ids.len().min(froms.len());
    froms[..count].copy_from_slice(&ids[..count]);
}

fn fill_pairs(pairs: &[(u32, u32)], froms: &mut [u32], tos: &mut [u32])
    ensures froms { froms.new ≡ filled (map (λ (p : ℕ × ℕ). p.0) pairs.now) froms.old }
    ensures tos { tos.new ≡ filled (map (λ (p : ℕ × ℕ). p.1) pairs.now) tos.old }
{
    fill(
        froms,
        pairs.len(),
        |i|
            requires { i < length pairs.now }
            ensures { Some result ≡ option_map (λ (p : ℕ × ℕ). p.0) (slice_get pairs.entry.now i) }
        { pairs[i].0 },
    );
    fill(
        tos,
        pairs.len(),
        |i|
            requires { i < length pairs.now }
            ensures { Some result ≡ option_map (λ (p : ℕ × ℕ). p.1) (slice_get pairs.entry.now i) }
        { pairs[i].1 },
    );
}
