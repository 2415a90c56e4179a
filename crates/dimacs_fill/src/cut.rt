//! Reading sets of nodes into arrays.

ghost use Rattle.std.specs.Prelude.{◌≡◌, ◌+◌, ◌<◌, ◌^◌, ℕ, List, Some};
ghost use Rattle.dimacs_records.specs.Readings.{CountsRead};
ghost use Rattle.dimacs_fill.specs.{CutFilled.{ReadsCutInto, byte_of, inside_of}, Filling.{filled}};

use crate::filling::fill;
use dimacs_claims::{Cut, read_cut};
use dimacs_lines::Source;
use dimacs_records::ReadError;
use std::alloc::Global;

/// Reads the text of a cut or a set. The array gets a byte for each node: 1 in the set, 0 outside. Returns the number of
/// nodes.
pub fn read_cut_into<S: Source>(
    alloc: Global,
    text: &mut S,
    inside: &mut [u8],
) -> Result<u32, ReadError>
    ensures reads { (bytes : List ℕ) → S.coming text.old ≡ Some bytes → ReadsCutInto bytes (inside.old, inside.new) result }
    ensures faults { CountsRead result (S.faults text.old) (S.faults text.new) }
{
    let cut = read_cut(alloc, text)?;
    fill_inside(&cut, inside);
    Ok(cut.nodes())
}

fn fill_inside(cut: &Cut, inside: &mut [u8])
    ensures { inside.new ≡ filled (inside_of cut.now) inside.old }
{
    fill(
        inside,
        cut.nodes() as usize,
        |i|
            requires { i + 1 < 2 ^ 32 }
            ensures { result ≡ byte_of cut.entry.now (i + 1) }
        { u8::from(cut.contains(i as u32 + 1)) },
    );
}
