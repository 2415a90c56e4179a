//! Explains the tests of labels, distances and queries.

ghost use Rattle.dimacs_facts.specs.Walks.{AreWalksFrom};

use crate::blocks::{ArcInto, EndLabels, Unreached, failing_ends, first_unreached, lightest};
use crate::explanation::Explanation;
use crate::facts::{write_near, write_negative_cycle, write_too_near};
use crate::flows::arc_of;
use crate::routes::REACHED;
use crate::sums::Sum;
use dimacs_facts::{Walks, first_too_near, is_negative_cycle, walks_from};
use dimacs_lines::Memory;
use dimacs_network::{ArcView, Network};
use dimacs_quote::Value::{Arc, Node};
use dimacs_quote::{OrStop, Prose, Reopen, Said, TextFile, Wanted, say};
use dimacs_records::TextKind;

/// Writes the negative cycle that was found with walks from a source, if one was.
fn write_cycle<N: Network>(
    out: &mut Prose,
    network: &N,
    source: u32,
    walks: &Walks,
) -> Result<(), Memory>
    requires { AreWalksFrom (N.list network.now) source walks.now }
{
    let cycle = walks.cycle(out.alloc, network)?;
    if !is_negative_cycle(network, walks, &cycle) {
        return Ok(());
    }
    let mut weights = Sum::new(out.alloc);
    for index in cycle {
        if index < network.arcs() {
            weights.add_arc(index, network.arc(index), "WEIGHT");
        }
    }
    write_negative_cycle(out, network, source, &weights);
    Ok(())
}

/// Ends a sentence on an arc by what a block says of its head, by a distance of this name.
fn write_head(out: &mut Prose, arc: ArcView, ends: EndLabels, name: &str, verb: &str) {
    if let (None, Some(radius)) = (ends.head, ends.radius) {
        say!(out; ", within the RADIUS, {}", radius);
    }
    match ends.head {
        Some(_) if arc.head == ends.source => say!(out; ", and is the source, at distance 0\n"),
        Some(head) => say!(out; ", and its {} {} {}\n", name, verb, head),
        None => say!(out; ", and has no {}\n", name),
    }
}

fn write_distance(out: &mut Prose, it: Unreached) {
    say!(out; "no arc leads to node {} at distance {}: ", Node(it.label.id), it.label.dist);
    match it.least {
        Some(least) =>
            say!(out; "by the claimed distances the nearest leads there at distance {}\n", least),
        None => say!(out; "none comes from a node that has a distance\n"),
    }
}

/// Compares a label with that of its PRED, which has this name, and names the lightest arc from there.
fn write_label(out: &mut Prose, it: Unreached, lightest: Option<i64>, name: &str) {
    let (node, pred, dist) = (Node(it.label.id), Node(it.label.pred), it.label.dist);
    say!(out; "node {} is at distance {}, and its {}, node {}, at distance {}: ",
        node, dist, name, pred, it.pred_dist);
    let weight = dist.saturating_sub(it.pred_dist);
    say!(out; "no arc from {} to {}", pred, node);
    say!(out; " has the WEIGHT {}\n", weight);
    match lightest {
        Some(weight) => {
            say!(out; "the lightest arc from {} to {}", pred, node);
            say!(out; " has the WEIGHT {}\n", weight);
        }
        None => say!(out; "no arc leads from {} to {}\n", pred, node),
    }
}

impl<'a, A: Reopen> Explanation<'a, A> {
    /// Quotes the line of a node in the block from this source, and begins a sentence about the block.
    fn quote_label(&mut self, text: TextFile<'a>, source: u32, id: u32) -> Said<'a> {
        let block = self.page.find(text, Wanted::Node(source))?;
        let from = block.ok_or(text.unread())?.line;
        self.page.quote_there(text, Wanted::Label { id, from })?;
        if !text.is_of_arrays() {
            say!(self.page.out; "in the block from source {} (line {}) ", Node(source), from);
        }
        Ok(())
    }

    pub(crate) fn explain_negative(&mut self, number: u32) -> Said<'a> {
        let arc = self.quote_arc(number)?;
        let who = self.page.words(
            "solve-paths takes no such graph, and a block with a RADIUS has none",
            "the solver takes no such graph",
        );
        say!(self.page.out; "arc {} has the WEIGHT {}, below 0: {}\n", Arc(number), arc.cost, who);
        Ok(())
    }

    /// Explains that an arc leads nearer to its head than the head's label or distance, or to a node without one.
    pub(crate) fn explain_farther(&mut self, number: u32) -> Said<'a> {
        let arc = self.quote_arc(number)?;
        let text = self.page.texts.tested()?;
        let ends = failing_ends(&self.labels(text)?, arc).ok_or(text.unread())?;
        let graph = self.graph()?;
        let network = graph.network();
        let walks = walks_from(self.page.alloc, network, ends.source, &mut self.steps)?;
        if walks.lead_beyond(arc.tail, ends.tail) {
            self.quote_label(text, ends.source, arc.tail)?;
            write_too_near(
                &mut self.page.out,
                network,
                ends.source,
                arc.tail,
                ends.tail,
            );
            say!(self.page.out; "so the test of arc {}, from there to node {}, fails\n", Arc(number), Node(arc.head));
            self.advise_on_line(arc.tail);
            return Ok(());
        }
        // A head without a line has to have one, by that of the tail.
        let id = ends.head.map_or(arc.tail, |_| arc.head);
        self.quote_label(text, ends.source, id)?;
        let (tail, head) = (Node(arc.tail), Node(arc.head));
        say!(self.page.out; "arc {} leads from node {}, at distance {}, to node {} with the WEIGHT {}",
            Arc(number), tail, ends.tail, head, arc.cost);
        if walks.lead_within(arc.head, ends.sum) {
            write_near(&mut self.page.out, network, ends.source, arc.head, ends.sum);
        } else {
            say!(self.page.out; ": by this distance node {} is at {} at most", head, ends.sum);
        }
        let (name, verb) = match text.kind {
            _ if text.is_of_arrays() => ("distance", "is"),
            TextKind::Distances => ("d line", "says"),
            _ => ("label", "says"),
        };
        write_head(&mut self.page.out, arc, ends, name, verb);
        Ok(write_cycle(&mut self.page.out, network, ends.source, &walks)?)
    }

    fn advise_on_line(&mut self, node: u32) {
        let advice = self.page.words("leave its line out", "it has no distance");
        say!(self.page.out; "if no walk leads to node {}, {}\n", Node(node), advice);
    }

    fn arcs_into(&self, node: u32) -> OrStop<'a, Vec<ArcInto>> {
        let mut arcs = Vec::new(self.page.alloc);
        for (_, record) in self.page.lines(self.page.texts.instance()?)? {
            if let Some(arc) = record.and_then(arc_of)
                && arc.head == node
            {
                arcs.push((arc.tail, arc.cost)).map_err(Memory::from)?;
            }
        }
        arcs.sort().map_err(Memory::from)?;
        Ok(arcs)
    }

    /// Explains why a label has no tight arc, or no walk has a claimed distance.
    pub(crate) fn explain_unreached(&mut self, node: u32) -> Said<'a> {
        let text = self.page.texts.tested()?;
        let arcs = self.arcs_into(node)?;
        let labels = self.labels(text)?;
        let is_distance = text.kind == TextKind::Distances;
        let found = first_unreached(&labels, text.kind, node, &arcs);
        match found {
            Some(it) => {
                self.quote_label(text, it.source, node)?;
                match is_distance {
                    true => write_distance(&mut self.page.out, it),
                    false => {
                        let name = self.page.words("PRED", "predecessor");
                        let lightest = lightest(&arcs, it.label.pred);
                        write_label(&mut self.page.out, it, lightest, name);
                    }
                }
            }
            None if is_distance => {
                let graph = self.graph()?;
                let network = graph.network();
                match first_too_near(self.page.alloc, network, &labels, node, &mut self.steps)? {
                    Some(it) => {
                        self.quote_label(text, it.source, node)?;
                        write_too_near(&mut self.page.out, network, it.source, node, it.dist);
                    }
                    None =>
                        say!(self.page.out; "no walk was found that gives the distance of node {}\n", Node(node)),
                }
            }
            None => return Err(text.unread()),
        }
        if found.and_then(|it| it.least).is_none() {
            self.advise_on_line(node);
        }
        self.write_open()
    }

    pub(crate) fn explain_query_node(&mut self, node: u32) -> Said<'a> {
        let (graph, queries) = (self.page.texts.instance()?, self.page.texts.claim()?);
        self.page.quote_there(queries, Wanted::QueryNaming(node))?;
        self.page.quote(graph, Wanted::Problem)?;
        say!(self.page.out; "node {} is above the NODES of the graph\n", Node(node));
        Ok(())
    }

    pub(crate) fn explain_query(&mut self, node: u32) -> Said<'a> {
        let (queries, text) = (self.page.texts.claim()?, self.page.texts.certificate()?);
        self.page.quote_there(queries, Wanted::Query(node))?;
        let tested = self.labels(text)?;
        let blocks = tested.blocks();
        if blocks.is_empty() {
            say!(self.page.out; "{} has no block\n", text);
            return Ok(());
        }
        say!(self.page.out; "{} has no block from source {} that serves the query; its blocks are from", text, Node(node));
        for block in blocks.iter().take(REACHED) {
            say!(self.page.out; " {}", Node(block.source()));
            if block.radius().is_some() {
                say!(self.page.out; " (up to a RADIUS, which serves no ss query)");
            }
        }
        say!(self.page.out; "; {} in all\n", (blocks.len() as u64));
        Ok(())
    }
}
