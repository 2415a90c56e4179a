//! Reading potentials into arrays.

ghost use Rattle.std.specs.Prelude.{◌≡◌, ◌+◌, ◌<◌, ◌^◌, ℕ, List, Some, IfErr, IfNone, IfSome, IsTrue, ◌↔◌};
ghost use Rattle.dimacs_claims.specs.Potentials.{potential_of};
ghost use Rattle.dimacs_records.specs.Ranges.{IsWhole};
ghost use Rattle.dimacs_fill.specs.Filling.{CountsFilled, IsKept, filled};
ghost use Rattle.dimacs_fill.specs.PotentialsFilled.{AllFit, FillsPotentials, IsFirstPast, ReadsPotentialsInto, numbers_of};

use crate::error::FillError;
use crate::filling::fill;
use dimacs_claims::{Potentials, read_potentials};
use dimacs_lines::Source;
use dimacs_records::Reason;
use std::alloc::Global;

/// Reads the text of potentials. The array gets that of each node. Returns the number of nodes.
pub fn read_potentials_into<S: Source>(
    alloc: Global,
    text: &mut S,
    numbers: &mut [i64],
) -> Result<u32, FillError>
    ensures reads { (bytes : List ℕ) → S.coming text.old ≡ Some bytes → ReadsPotentialsInto bytes (numbers.old, numbers.new) result }
    ensures faults { CountsFilled result (S.faults text.old) (S.faults text.new) }
{
    let potentials = read_potentials(alloc, text)?;
    fill_potentials(&potentials, numbers)
}

fn fill_potentials(potentials: &Potentials, numbers: &mut [i64]) -> Result<u32, FillError>
    ensures filled { FillsPotentials (numbers.old, numbers.new) potentials.now result }
    ensures kept { IfErr result (λ error. IsKept (numbers.old, numbers.new)) }
{
    if let Some(id) = first_past(potentials) {
        return Err(FillError::Node(id, Reason::NumberRange));
    }
    fill_numbers(potentials, numbers);
    Ok(potentials.nodes())
}

/// The first node whose potential doesn't fit into 64 bits.
fn first_past(potentials: &Potentials) -> Option<u32>
    ensures some { IfSome result (IsFirstPast potentials.now) }
    ensures none { IfNone result (AllFit potentials.now) }
{
    for i in 0..potentials.nodes() {
        if !is_whole(potentials.of(i + 1)) {
            return Some(i + 1);
        }
    }
    None
}

fn is_whole(value: i128) -> bool
    ensures { IsTrue result ↔ IsWhole value }
{
    value >= i128::from(i64::MIN) && value <= i128::from(i64::MAX)
}

fn fill_numbers(potentials: &Potentials, numbers: &mut [i64])
    requires { AllFit potentials.now }
    ensures { numbers.new ≡ filled (numbers_of potentials.now) numbers.old }
{
    fill(
        numbers,
        potentials.nodes() as usize,
        |i|
            requires { (i + 1 < 2 ^ 32) × IsWhole (potential_of potentials.now (i + 1)) }
            ensures { result ≡ potential_of potentials.entry.now (i + 1) }
        { potentials.of(i as u32 + 1) as i64 },
    );
}
