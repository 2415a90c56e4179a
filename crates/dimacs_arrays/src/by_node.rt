//! Certificates by node, from arrays and to arrays.

ghost use Rattle.std.specs.Prelude.{◌≡◌, ◌≤◌, ◌⊎◌, ◌^◌, ◌+ℤ◌, ◌≤ℤ◌, ℤ, pos, neg_ℤ, length, IfNone, IfOk, IfSome};
ghost use Rattle.dimacs_lines.specs.Limits.{most_nodes};
ghost use Rattle.dimacs_records.specs.Ranges.{IsWhole, IsWide};
ghost use Rattle.dimacs_claims.specs.{Cuts.{IsCut}, Potentials.{potential_of}};
ghost use Rattle.dimacs_judging.specs.Cuts.{members};
ghost use Rattle.dimacs_arrays.specs.{ByNode.{AreBits, marked, number_of}, MinArrays.{IsWider}};
ghost use Rattle.dimacs_arrays.specs.inside.MinCertified.{AreShifted, IsLeastOf, IsShift, IsWiderBy};

use dimacs_claims::{Cut, Potentials};
use dimacs_lines::Memory;
use std::alloc::Global;

/// The nodes whose byte isn't 0.
pub(crate) fn cut_of(alloc: Global, nodes: u32, inside: &[u8]) -> Result<Cut, Memory>
    requires node_limit { nodes ≤ most_nodes }
    requires one_each { length inside.now ≡ nodes }
    ensures nodes { IfOk result (λ cut. cut.nodes ≡ nodes) }
    ensures members { IfOk result (λ cut. members cut ≡ marked inside.now) }
{
    let mut cut = Cut::new(alloc, nodes);
    for i in 0..nodes {
        if inside[i as usize] > 0 {
            cut.add(i + 1)?;
        }
    }
    Ok(cut)
}

/// A byte for each node: 1 if it is in the set, otherwise 0.
pub(crate) fn bytes_of(alloc: Global, cut: &Cut) -> Result<Vec<u8>, Memory>
    requires { IsCut cut.now }
    ensures one_each { IfOk result (λ inside. length inside.items ≡ cut.now.nodes) }
    ensures marked { IfOk result (λ inside. marked inside.items ≡ members cut.now) }
    ensures bits { IfOk result (λ inside. AreBits inside.items) }
{
    let mut inside = Vec::new(alloc);
    for i in 0..cut.nodes() {
        inside.push(u8::from(cut.contains(i + 1)))?;
    }
    Ok(inside)
}

pub(crate) fn potentials_of(
    alloc: Global,
    nodes: u32,
    numbers: &[i64],
) -> Result<Potentials, Memory>
    requires node_limit { nodes ≤ most_nodes }
    requires one_each { length numbers.now ≡ nodes }
    ensures nodes { IfOk result (λ potentials. potentials.nodes ≡ nodes) }
    ensures numbers { IfOk result (λ potentials. potential_of potentials ≡ number_of numbers.now) }
{
    let mut potentials = Potentials::new(alloc, nodes);
    for i in 0..nodes {
        potentials.set(i + 1, i128::from(numbers[i as usize]))?;
    }
    Ok(potentials)
}

/// The potential of each node plus `shift`; none if a sum doesn't fit into 64 bits.
pub(crate) fn numbers_of(
    alloc: Global,
    potentials: &Potentials,
    shift: i128,
) -> Result<Option<Vec<i64>>, Memory>
    requires { IsShift shift }
    ensures numbers { IfOk result (λ outcome. IfSome outcome (λ numbers. AreShifted potentials.now shift numbers.items)) }
    ensures wider { IfOk result (λ outcome. IfNone outcome (IsWiderBy potentials.now shift)) }
{
    let mut numbers = Vec::new(alloc);
    for i in 0..potentials.nodes() {
        let Some(number) = whole(potentials.of(i + 1), shift) else {
            return Ok(None);
        };
        numbers.push(number)?;
    }
    Ok(Some(numbers))
}

/// These potentials in 64 bits, with the same number added to each if they don't fit otherwise. None if two of them are
/// 2^64 or more apart.
pub(crate) fn fit_array(alloc: Global, potentials: &Potentials) -> Result<Option<Vec<i64>>, Memory>
    ensures numbers { IfOk result (λ outcome. IfSome outcome (λ numbers. (shift : ℤ) × AreShifted potentials.now shift numbers.items)) }
    ensures wider { IfOk result (λ outcome. IfNone outcome (IsWider potentials.now)) }
{
    if let Some(numbers) = numbers_of(alloc, potentials, 0)? {
        return Ok(Some(numbers));
    }
    numbers_of(alloc, potentials, lowest_shift(potentials))
}

fn whole(number: i128, shift: i128) -> Option<i64>
    requires number { IsWide number }
    requires shift { IsShift shift }
    ensures some { IfSome result (λ fits. fits ≡ number +ℤ shift) }
    ensures none { IfNone result (¬ IsWhole (number +ℤ shift)) }
{
    i64::try_from(number + shift).ok()
}

/// The number to add to each potential to make the least one the least of 64 bits.
pub(crate) fn lowest_shift(potentials: &Potentials) -> i128
    ensures shift { IsShift result }
    ensures lowest { (least : ℤ) × IsLeastOf potentials.now least × ((least +ℤ result) ≡ neg_ℤ (pos (2 ^ 63))) }
{
    i128::from(i64::MIN) - least_of(potentials)
}

/// The least potential; 0 without nodes.
fn least_of(potentials: &Potentials) -> i128
    ensures wide { IsWide result }
    ensures least { IsLeastOf potentials.now result }
{
    let mut least = potentials.of(1);
    for i in 0..potentials.nodes() {
        least = lesser(least, potentials.of(i + 1));
    }
    least
}

#[inline(always)]
fn lesser(a: i128, b: i128) -> i128
    requires a { IsWide a }
    requires b { IsWide b }
    ensures wide { IsWide result }
    ensures least { (result ≤ℤ a) × (result ≤ℤ b) }
    ensures one { (result ≡ a) ⊎ (result ≡ b) }
{
    if a < b { a } else { b }
}
