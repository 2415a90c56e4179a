//! Explains why no label before has the PRED of a label.

use crate::explanation::Explanation;
use crate::sums::SHOWN;
use dimacs_lines::Memory;
use dimacs_network::{NodeMap, NodeSet};
use dimacs_quote::Value::Node;
use dimacs_quote::{OrStop, Prose, Reopen, Said, TextFile, say};
use dimacs_records::{At, Record, TextKind};
use std::alloc::Global;

/// The PREDs of the labels of a block; 0 of its source.
type Preds = NodeMap<u32>;

/// The last node on the way from one back along PREDs; if they lead in a circle, the first that comes again.
fn last_back(alloc: Global, preds: &Preds, node: u32) -> Result<u32, Memory> {
    let (mut seen, mut at) = (NodeSet::new(alloc), node);
    for _ in 0..u32::MAX {
        if seen.contains(at) {
            break;
        }
        seen.insert(at)?;
        at = preds.get(at).filter(|pred| *pred > 0).unwrap_or(at);
    }
    Ok(at)
}

fn write_circle(out: &mut Prose, preds: &Preds, first: u32) {
    say!(out; "the PREDs lead in a circle, so that no order fits: {}", Node(first));
    let mut node = first;
    for _ in 0..SHOWN {
        node = preds.get(node).unwrap_or(first);
        say!(out; " -> {}", Node(node));
        if node == first {
            break;
        }
    }
    say!(out; if node == first { "\n" } else { " -> ..\n" });
}

impl<'a, A: Reopen> Explanation<'a, A> {
    /// Those of the block in which a line is, and the node of this line.
    fn preds_at(&self, text: TextFile<'a>, at: u64) -> OrStop<'a, (Preds, u32)> {
        let (mut block, mut node) = (Vec::new(self.page.alloc), 0);
        for (line, record) in self.page.lines(text)? {
            let (id, pred) = match record {
                Some(Record::LabelsBlock { .. }) if line > at => break,
                Some(Record::LabelsBlock { source, .. }) => {
                    block.clear();
                    (source, 0)
                }
                Some(Record::LabelsNode { id, pred, .. }) => (id, pred),
                _ => continue,
            };
            block.push((id, pred)).map_err(Memory::from)?;
            node = if line == at { id } else { node };
        }
        let mut preds = NodeMap::new(self.page.alloc);
        for (id, pred) in block {
            preds.set(id, pred)?;
        }
        Ok((preds, node))
    }

    /// Names what to correct if a label stands before that of its PRED, there is none of it, or PREDs lead in a circle.
    pub(crate) fn explain_pred(&mut self, at: At) -> Said<'a> {
        let text = self.page.texts.of_kind(TextKind::Labels)?;
        let (preds, node) = self.preds_at(text, at.line)?;
        let last = last_back(self.page.alloc, &preds, node)?;
        match preds.get(last) {
            Some(0) =>
                say!(self.page.out; "order the d lines so that each stands after that of its PRED\n"),
            Some(_) => write_circle(&mut self.page.out, &preds, last),
            None => say!(self.page.out; "node {} has no d line in this block\n", Node(last)),
        }
        Ok(())
    }
}
