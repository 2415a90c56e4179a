//! Potentials for the unscaled costs.

use crate::number::Number;
use crate::residual::{Residual, ResidualNode};
use crate::tables::set_member;
use dimacs_lines::Memory;
use std::alloc::Global;

impl<V: Number> Residual<V> {
    /// The prices less a residue, divided by the scale of the costs and rounded down.
    ///
    /// If a residual arc's scaled reduced cost isn't negative, its reduced cost isn't either, for any residue. If it is
    /// -1, the same holds unless the residue is that of its head's price. Cost scaling has more residues than nodes:
    /// one is free of such heads.
    pub(crate) fn potentials(&self, alloc: Global) -> Result<Vec<i128>, Memory> {
        let residue = self.free_residue(alloc)?;
        let mut potentials = Vec::with_capacity(alloc, self.nodes.len())?;
        for node in &self.nodes {
            let price = node.price.wide().wrapping_sub(residue);
            potentials.push(price.halved(self.doublings))?;
        }
        Ok(potentials)
    }

    /// A residue that no price of the head of an arc with negative reduced cost has.
    fn free_residue(&self, alloc: Global) -> Result<i128, Memory> {
        let residues = usize::try_from(1i128.doubled(self.doublings)).unwrap_or(0);
        let mut taken = vec![in alloc; false; residues]?;
        for node in &self.nodes {
            self.take_residues(node, &mut taken);
        }
        let free = taken.iter().position(|is_taken| !*is_taken);
        Ok(i128::try_from(free.unwrap_or(0)).unwrap_or(0))
    }

    fn take_residues(&self, node: &ResidualNode<V>, taken: &mut [bool]) {
        for half in self.between(node.start, node.end) {
            if half.residual_capacity > 0 && self.reduced(node.price, half).is_negative() {
                let price = self.price(half.to);
                let floor = price.halved(self.doublings).doubled(self.doublings);
                let residue = u32::try_from(price.minus(floor).wide()).unwrap_or(0);
                set_member(taken, residue, true);
            }
        }
    }
}
