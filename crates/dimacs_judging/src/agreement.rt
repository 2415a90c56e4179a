//! Tests of a claim's own numbers against the instance.

ghost use Rattle.dimacs_judging.specs.{Agreement.{value_row, nodes_row}, Tests.{TestsRow}};

use crate::verdict::Where;
use dimacs_claims::{Place, Placed};
use dimacs_records::Reason;

/// Tests that the claimed value or cost is this one.
pub(crate) fn value_agrees<P: Place>(value: i128, placed: &Placed<P>) -> Result<(), (Where, Reason)>
    ensures { TestsRow (value_row value placed.now.value placed.now.value_line) result }
{
    if placed.value == value {
        return Ok(());
    }
    let place = Where::Solution {
        line: placed.value_line,
        field: 2,
    };
    Err((place, Reason::ValueDiffers))
}

/// Tests that the certificate has as many nodes as the instance.
pub fn nodes_agree(nodes: u32, claimed: u32) -> Result<(), (Where, Reason)>
    ensures { TestsRow (nodes_row nodes claimed) result }
{
    if claimed == nodes {
        Ok(())
    } else {
        Err((Where::Certificate, Reason::NodesDiffer))
    }
}
