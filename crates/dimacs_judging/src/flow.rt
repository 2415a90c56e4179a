//! Flows.

ghost use Rattle.std.specs.Prelude.{◌≡◌, ◌<◌, ℤ, pos, List, Some, length, replicate, slice_get, slice_set, IfOk};

use dimacs_lines::Memory;
use std::alloc::Global;
use std::marker::Model;

/// An amount for each arc of a network, in order. The flow needn't be feasible.
#[derive(Drop)]
pub struct Flow {
    amounts: Vec<i64>,
}

impl Model for Flow {
    ghost use Rattle.std.specs.Prelude.{List, ℤ};

    ghost Value = { List ℤ };

    ghost view = { λ f. f.amounts.items };
}

impl Flow {
    /// The number of arcs.
    pub fn len(&self) -> usize
        ensures { result ≡ length self.now }
    {
        self.amounts.len()
    }

    /// The amount on the arc with this index, from 0.
    #[inline(always)]
    pub fn amount(&self, arc: usize) -> i64
        requires { arc < length self.now }
        ensures { slice_get self.now arc ≡ Some result }
    {
        self.amounts[arc]
    }

    /// All amounts, in the order of the arcs.
    pub fn amounts(&self) -> &[i64]
        ensures { result.now ≡ self.now }
    {
        &self.amounts
    }

    /// The zero flow on this many arcs.
    pub fn zero(alloc: Global, arcs: u32) -> Result<Flow, Memory>
        ensures { IfOk result (λ flow. flow ≡ replicate arcs (pos 0)) }
    {
        Ok(Flow {
            amounts: vec![in alloc; 0i64; arcs as usize]?,
        })
    }

    /// A flow with a copy of these amounts.
    pub fn of(alloc: Global, amounts: &[i64]) -> Result<Flow, Memory>
        ensures { IfOk result (λ flow. flow ≡ amounts.now) }
    {
        Ok(Flow {
            amounts: amounts.to_vec(alloc)?,
        })
    }

    /// A flow that takes over these amounts.
    pub fn from_vec(amounts: Vec<i64>) -> Flow
        ensures { result ≡ amounts.items }
    {
        Flow { amounts }
    }

    /// Sets the amount on one arc.
    pub fn set(&mut self, arc: usize, amount: i64)
        requires { arc < length self.old }
        ensures { self.new ≡ slice_set self.old arc amount }
    {
        self.amounts[arc] = amount;
    }

    /// A copy of the flow.
    pub fn copy(&self, alloc: Global) -> Result<Flow, Memory>
        ensures { IfOk result (λ flow. flow ≡ self.now) }
    {
        Ok(Flow {
            amounts: self.amounts.to_vec(alloc)?,
        })
    }
}
