//! Paths of tight steps within groups.

use crate::number::Number;
use crate::potentials::claim::ResidualArc;
use crate::potentials::listing::Listing;
use crate::potentials::step::Step;
use crate::tables::{member, set_member};
use dimacs_lines::Memory;
use std::alloc::Global;

/// The tight steps within groups, whose cost is the difference of their ends' shifts, and the paths found over them.
#[derive(Drop)]
pub(crate) struct Tight<V> {
    steps: Listing<Step<V>>,
    /// The next step of the path from each node that was found.
    onward: Vec<Option<Step<V>>>,
    queue: Vec<u32>,
}

impl<V: Number> Tight<V> {
    /// No paths yet. Nodes have numbers below `nodes`.
    pub(crate) fn new(alloc: Global, steps: &[Step<V>], nodes: u32) -> Result<Tight<V>, Memory> {
        Ok(Tight {
            steps: Listing::new(alloc, steps, nodes)?,
            onward: vec![in alloc; None; nodes as usize]?,
            queue: Vec::new(alloc),
        })
    }

    /// Appends a path with the fewest steps from one node to another. Each group may be connected only once.
    pub(crate) fn connect(
        &mut self,
        from: u32,
        to: u32,
        path: &mut Vec<ResidualArc>,
    ) -> Result<(), Memory> {
        self.search(from, to)?;
        let mut at = from;
        for _ in 0..self.queue.len() {
            if at == to {
                break;
            }
            let Some(step) = member(&self.onward, at, None) else {
                break;
            };
            path.push(step.arc)?;
            at = step.to;
        }
        Ok(())
    }

    /// Searches backwards from `to`, breadth first, until it finds `from`.
    fn search(&mut self, from: u32, to: u32) -> Result<(), Memory> {
        self.queue.clear();
        self.queue.push(to)?;
        for k in 0..u32::MAX {
            let Some(&node) = self.queue.get(k as usize) else {
                break;
            };
            if node == from {
                break;
            }
            self.find_before(node, to)?;
        }
        Ok(())
    }

    fn find_before(&mut self, node: u32, to: u32) -> Result<(), Memory> {
        for step in self.steps.of(node) {
            let found = member(&self.onward, step.from, Some(*step)).is_some();
            if !found && step.from != to {
                set_member(&mut self.onward, step.from, Some(*step));
                self.queue.push(step.from)?;
            }
        }
        Ok(())
    }
}
