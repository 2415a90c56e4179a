//! Explains the tests of a flow's arcs and nodes.

use crate::crossing::Crossing;
use crate::explanation::Explanation;
use crate::facts::write_no_flow;
use crate::least_cost::{paid_bound, reduced_cost};
use crate::sums::{bound, number_of};
use dimacs_facts::{all_nodes, one_node, shows_no_flow};
use dimacs_judging::{bounds_across, supply_in};
use dimacs_network::{ArcView, CapacityArc, Network, WeightArc};
use dimacs_quote::Value::{Arc, Cap, Node, Operand, Typed};
use dimacs_quote::{
    OrStop, Prose, Reopen, Said, TextFile, Wanted, ending, entry_between, range_of, say,
};
use dimacs_records::{Reason, Record, TextKind};

pub(crate) fn arc_of(record: Record) -> Option<ArcView> {
    Some(match record {
        Record::MaxArc { tail, head, cap } => CapacityArc { tail, head, cap }.view(),
        Record::GraphArc { tail, head, weight } => WeightArc { tail, head, weight }.view(),
        Record::MinArc {
            tail,
            head,
            low,
            cap,
            cost,
        } => ArcView {
            tail,
            head,
            low,
            cap,
            cost,
        },
        _ => return None,
    })
}

/// The arcs from one node to another.
#[derive(Clone, Copy, Default)]
pub(crate) struct Parallel {
    /// How many they are, and how many of them come before the arc in question.
    pub(crate) all: u64,
    earlier: u64,
    /// The number of the first.
    pub(crate) first: u32,
    /// The sums of their bounds.
    low: i128,
    cap: i128,
}

impl Parallel {
    fn add(&mut self, arc: ArcView, number: u32, is_earlier: bool) {
        if self.all == 0 {
            self.first = number;
        }
        self.all = self.all.saturating_add(1);
        self.earlier = self.earlier.saturating_add(u64::from(is_earlier));
        self.low = self.low.saturating_add(i128::from(arc.low));
        self.cap = self.cap.saturating_add(i128::from(arc.cap));
    }
}

fn write_balance(out: &mut Prose, node: u32, outflow: i128, inflow: i128, supply: i128) {
    let excess = outflow.saturating_sub(inflow).saturating_sub(supply);
    if supply < 0 {
        say!(out; "{} enters node {}, {} leaves it, and it takes {}",
            inflow, Node(node), outflow, supply.saturating_neg());
        return write_excess(out, excess.saturating_neg(), "arrives");
    }
    say!(out; "{} leaves node {}, {} enters it", outflow, Node(node), inflow);
    if supply > 0 {
        say!(out; ", and it supplies {}", supply);
    }
    write_excess(out, excess, "leaves");
}

/// Writes how much more than wanted leaves or arrives, or how much less.
fn write_excess(out: &mut Prose, excess: i128, verb: &str) {
    let word = if excess > 0 { "much" } else { "little" };
    say!(out; ": {} too {} {}\n", excess.saturating_abs(), word, verb);
}

impl<'a, A: Reopen> Explanation<'a, A> {
    /// The arcs between two nodes, and how many come before the arc with this number, from 1.
    pub(crate) fn parallel(&self, tail: u32, head: u32, number: u32) -> OrStop<'a, Parallel> {
        let mut parallel = Parallel::default();
        let mut seen = 0u32;
        for (_, record) in self.page.lines(self.page.texts.instance()?)? {
            if let Some(arc) = record.and_then(arc_of) {
                seen = seen.saturating_add(1);
                if arc.tail == tail && arc.head == head {
                    parallel.add(arc, seen, seen < number);
                }
            }
        }
        Ok(parallel)
    }

    fn entry_sum(&self, tail: u32, head: u32) -> OrStop<'a, i128> {
        let mut sum = 0i128;
        for (_, record) in self.page.lines(self.page.texts.claim()?)? {
            if let Some(flow) = record.and_then(|it| entry_between(it, tail, head)) {
                sum = sum.saturating_add(i128::from(flow));
            }
        }
        Ok(sum)
    }

    pub(crate) fn node_flow(&self, node: u32) -> OrStop<'a, Crossing> {
        let text = self.page.texts.claim()?;
        let lines = self.page.lines(text)?;
        let mut all = Crossing::new(self.page.alloc);
        for (line, record) in lines {
            match record {
                Some(Record::SolutionEntry { tail, head, flow }) if tail == node && head != node =>
                    all.leaving.add_entry(text, line, tail, head, flow),
                Some(Record::SolutionEntry { tail, head, flow }) if head == node && tail != node =>
                    all.entering.add_entry(text, line, tail, head, flow),
                _ => (),
            }
        }
        Ok(all)
    }

    pub(crate) fn quote_arc(&mut self, number: u32) -> OrStop<'a, ArcView> {
        let instance = self.page.texts.instance()?;
        arc_of(self.page.quote_there(instance, Wanted::Arc(number))?).ok_or(instance.unread())
    }

    /// Quotes the entry of an arc after others with its ends, and returns its flow.
    fn quote_entry(&mut self, arc: ArcView, earlier: u64) -> OrStop<'a, i64> {
        let Ok(solution) = self.page.texts.claim() else {
            return Ok(0);
        };
        let wanted = Wanted::Entry(arc.tail, arc.head, earlier);
        if let Some(Record::SolutionEntry { flow, .. }) = self.page.quote(solution, wanted)? {
            return Ok(flow);
        }
        say!(self.page.out; "{}: has no entry for the arc, so it carries 0\n", solution);
        Ok(0)
    }

    /// Quotes the line of a node, and returns its potential or its supply; 0 without one.
    fn quote_node(&mut self, text: TextFile<'a>, node: u32) -> OrStop<'a, i128> {
        Ok(match self.page.quote(text, Wanted::Node(node))? {
            Some(Record::PotentialsNode { value, .. }) => value,
            Some(Record::MinNode { supply, .. }) => i128::from(supply),
            _ => 0,
        })
    }

    pub(crate) fn explain_flow(&mut self, number: u32, reason: Reason) -> Said<'a> {
        let arc = self.quote_arc(number)?;
        let parallel = self.parallel(arc.tail, arc.head, number)?;
        if self.page.texts.is_spread() {
            return self.explain_spread(arc, parallel, reason);
        }
        let flow = self.quote_entry(arc, parallel.earlier)?;
        let is_min = self.page.texts.instance()?.kind == TextKind::Min;
        let (this, tail, head) = (Arc(number), Node(arc.tail), Node(arc.head));
        match reason {
            Reason::AboveCap =>
                say!(self.page.out; "arc {} carries {}, more than its CAP, {}\n", this, flow, Cap(arc.cap)),
            Reason::BelowLow if is_min =>
                say!(self.page.out; "arc {} carries {}, less than its LOW, {}\n", this, flow, arc.low),
            Reason::BelowLow => say!(self.page.out; "arc {} carries {}, less than 0\n", this, flow),
            Reason::CostRange =>
                say!(self.page.out; "arc {} carries {} at a COST of {}: the costs of the arcs up to this one leave {}\n",
                this, flow, arc.cost, range_of("VALUE")),
            Reason::NotSaturated =>
                say!(self.page.out; "arc {} leaves the set, from {} inside to {} outside, and carries {} of its CAP, {}\n",
                this, tail, head, flow, Cap(arc.cap)),
            Reason::BackFlow =>
                say!(self.page.out; "arc {} enters the set, from {} outside to {} inside, and carries {}, not 0\n",
                this, tail, head, flow),
            _ => self.write_slack(number, arc, flow)?,
        }
        match reason {
            Reason::CostRange => Ok(()),
            Reason::AboveCap | Reason::BelowLow => self.explain_order(arc, parallel),
            _ => self.write_open(),
        }
    }

    /// Explains that entries belong to parallel arcs in their order, if there are some, and whether another order fits.
    fn explain_order(&mut self, arc: ArcView, parallel: Parallel) -> Said<'a> {
        if parallel.all < 2 || self.page.texts.are_arrays() {
            return Ok(());
        }
        say!(self.page.out; "{} arcs lead from {} to {}, and arc {} is the first of them: entries with these ends belong to them in the order of the instance\n",
            parallel.all, Node(arc.tail), Node(arc.head), Arc(parallel.first));
        self.write_spread(arc.tail, arc.head, parallel)
    }

    /// Names the command that deals the entries between two nodes out to the arcs there, or says that no order fits.
    pub(crate) fn write_spread(&mut self, tail: u32, head: u32, parallel: Parallel) -> Said<'a> {
        let sum = self.entry_sum(tail, head)?;
        if parallel.low <= sum && sum <= parallel.cap {
            say!(self.page.out; match parallel.all {
                1 => "if the arc is to carry all of them, have them added up: ",
                _ => "if the entries don't follow the order of the arcs, have them dealt out: ",
            });
            return self.write_command("spread", " OUT");
        }
        let (what, so) = match parallel.all {
            1 => ("the arc", ""),
            _ => ("these arcs", ": no order fits"),
        };
        say!(self.page.out; "the f lines with these ends add up to {}, outside of {} to {}, what {} can carry{}\n",
            sum, parallel.low, parallel.cap, what, so);
        Ok(())
    }

    /// Explains an amount that is left for the first of parallel arcs and doesn't fit 64 bits.
    fn explain_spread(&mut self, arc: ArcView, parallel: Parallel, reason: Reason) -> Said<'a> {
        let sum = self.entry_sum(arc.tail, arc.head)?;
        say!(self.page.out; "{} arc{} from {} to {}: the f lines with these ends add up to {}\n",
            parallel.all, ending(parallel.all), Node(arc.tail), Node(arc.head), sum);
        let (name, all, first) = match reason {
            Reason::AboveCap => ("CAP", parallel.cap, arc.cap),
            _ => ("LOW", parallel.low, arc.low),
        };
        let others = all.saturating_sub(i128::from(first));
        let left = sum.saturating_sub(others);
        say!(self.page.out; "the arcs but the first carry their {}, {} in all, and {} is left for the first, arc {}: a FLOW is a number from {}\n",
            name, others, left, Arc(parallel.first), range_of("FLOW"));
        Ok(())
    }

    fn write_slack(&mut self, number: u32, arc: ArcView, flow: i64) -> Said<'a> {
        let certificate = self.page.texts.certificate()?;
        let tail = self.quote_node(certificate, arc.tail)?;
        let head = self.quote_node(certificate, arc.head)?;
        let reduced = reduced_cost(arc, tail, head);
        say!(self.page.out; "the reduced cost of arc {} is COST - y({}) + y({}) = {} - {} + {} = {}",
            Arc(number), Node(arc.tail), Node(arc.head), arc.cost, Operand(tail), Operand(head), reduced);
        let name = paid_bound(reduced);
        let sign = if reduced > 0 { "above" } else { "below" };
        let wanted = bound(name, number_of(arc, name));
        say!(self.page.out; ", {} 0, so it has to carry its {}, {}, and carries {}\n", sign, name, wanted, flow);
        self.write_opposite(certificate)
    }

    /// Writes that a certificate which fails leaves its claim open, and the command that decides it. Distances have none.
    pub(crate) fn write_open(&mut self) -> Said<'a> {
        if self.page.texts.tested()?.kind == TextKind::Distances {
            return Ok(());
        }
        say!(self.page.out; "this certificate doesn't show the claim, which may be true all the same: to find out, ");
        self.write_command("certify", "")
    }

    /// Writes a command about a claim; if its texts are in no files, what it does.
    fn write_command(&mut self, verb: &str, last: &str) -> Said<'a> {
        let instance = self.page.texts.instance()?;
        let name = Typed(instance);
        match (instance.kind, self.page.texts.claim()) {
            _ if !instance.is_file() => say!(self.page.out; "{} it\n", verb),
            (TextKind::Graph, Ok(queries)) => self.write_paths(instance, queries)?,
            (TextKind::Min, Ok(claim)) =>
                say!(self.page.out; "run dimacs {}-min {} {}{}\n", verb, name, Typed(claim), last),
            (_, Ok(claim)) =>
                say!(self.page.out; "run dimacs {}-max {} {}{}\n", verb, name, Typed(claim), last),
            _ => say!(self.page.out; "run dimacs certify-infeasible {}\n", name),
        }
        Ok(())
    }

    /// Writes the command that finds distances, or decides those that are given: a solver takes no negative WEIGHT.
    fn write_paths(&mut self, graph: TextFile<'a>, queries: TextFile<'a>) -> Said<'a> {
        let file = self.page.texts.certificate()?.file;
        let distances = self.page.texts.of_file(TextKind::Distances, file);
        if self.page.has(distances, Wanted::Problem) {
            say!(self.page.out; "run dimacs certify-paths {} {}\n", Typed(graph), Typed(distances));
        } else if self.page.has(graph, Wanted::NegativeWeight) {
            say!(self.page.out; "write `p distances` for `p dist`, drop PRED and RADIUS, and run dimacs certify-paths {} DISTANCES\n", Typed(graph));
        } else {
            say!(self.page.out; "run dimacs solve-paths {} {} LABELS\n", Typed(graph), Typed(queries));
        }
        Ok(())
    }

    pub(crate) fn explain_balance(&mut self, node: u32) -> Said<'a> {
        let (instance, flow) = (self.page.texts.instance()?, self.node_flow(node)?);
        let supply = self.quote_node(instance, node)?;
        write_balance(
            &mut self.page.out,
            node,
            flow.leaving.sum(),
            flow.entering.sum(),
            supply,
        );
        let leaving = self.page.words("entries out of it", "flows out of it");
        flow.leaving.write_lines(&mut self.page.out, leaving);
        let entering = self.page.words("entries into it", "flows into it");
        flow.entering.write_lines(&mut self.page.out, entering);
        match instance.kind {
            TextKind::Min => self.write_feasible(instance, node),
            _ => Ok(()),
        }
    }

    /// Writes whether the supplies or a node's arcs show that no flow is feasible, and what decides it if the flow 0 isn't.
    fn write_feasible(&mut self, instance: TextFile<'a>, node: u32) -> Said<'a> {
        let min = self.min_instance()?;
        let (alloc, nodes) = (self.page.alloc, min.network().nodes());
        let (every, one) = (all_nodes(alloc, nodes)?, one_node(alloc, nodes, node)?);
        let mut why = "to show it by a set";
        if shows_no_flow(&min, &every) {
            say!(self.page.out; "the supplies add up to {}, and not to 0", supply_in(&min, &every));
            write_no_flow(&mut self.page.out, &min);
        } else if shows_no_flow(&min, &one) {
            let across = bounds_across(&min, &one);
            say!(self.page.out; "the arcs of node {} can carry {} to {} out of it", Node(node), across.least, across.most);
            write_no_flow(&mut self.page.out, &min);
        } else {
            why = "to find out whether any flow is feasible";
        }
        if instance.is_file() && self.page.has(instance, Wanted::NotMetBy0) {
            say!(self.page.out; "{}, run dimacs certify-infeasible {}\n", why, Typed(instance));
        }
        Ok(())
    }
}
