//! What crosses the border of a set: a tight cut shows that a flow is maximum, a violated set that none is feasible.

ghost use Rattle.dimacs_claims.specs.SolutionTexts.{claimed};
ghost use Rattle.dimacs_judging.specs.{MaxJudge.{ShowsMaximum}, Optimum.{NoFlow}};

use crate::explanation::Explanation;
use crate::facts::{write_greatest, write_no_flow};
use crate::sums::{Sum, write_set};
use dimacs_claims::{Cut, Solution};
use dimacs_instance::{MaxInstance, MinInstance};
use dimacs_judging::{bounds_across, supply_in};
use dimacs_network::Network;
use dimacs_quote::Value::Node;
use dimacs_quote::{Prose, Reopen, Said, Wanted, say};
use dimacs_records::End;
use std::alloc::Global;

/// What leaves a set or a node, and what enters it.
#[derive(Drop)]
pub(crate) struct Crossing {
    pub(crate) leaving: Sum,
    pub(crate) entering: Sum,
}

impl Crossing {
    pub(crate) fn new(alloc: Global) -> Crossing {
        let (leaving, entering) = (Sum::new(alloc), Sum::new(alloc));
        Crossing { leaving, entering }
    }

    /// The arcs out of a set, by their numbers of one name, and those into it, by those of another.
    fn of<N: Network>(alloc: Global, network: &N, set: &Cut, out: &str, into: &str) -> Crossing {
        let mut all = Crossing::new(alloc);
        for i in 0..network.arcs() {
            let arc = network.arc(i);
            match (set.contains(arc.tail), set.contains(arc.head)) {
                (true, false) => all.leaving.add_arc(i, arc, out),
                (false, true) => all.entering.add_arc(i, arc, into),
                _ => (),
            }
        }
        all
    }
}

fn supply_of<N: Network>(alloc: Global, instance: &MinInstance<N>, set: &Cut) -> Sum {
    let mut sum = Sum::new(alloc);
    let (mut id, end) = (1, set.nodes().saturating_add(1));
    for _ in 0..end {
        if id >= end {
            break;
        }
        let supply = instance.supply(id);
        if supply != 0 && set.contains(id) {
            sum.add(Some(i128::from(supply)));
        }
        id = instance.next_supply(id + 1, end);
    }
    sum
}

/// Explains a maximum flow by a cut that is tight for it.
pub(crate) fn explain_maximum<N: Network>(
    out: &mut Prose,
    max: &MaxInstance<N>,
    solution: &Solution,
    cut: &Cut,
)
    requires { ShowsMaximum max.now (claimed solution.now) cut.now }
{
    let all = Crossing::of(out.alloc, max.network(), cut, "CAP", "FLOW");
    say!(out; "on the source's side of the cut, ");
    write_set(out, cut);
    all.entering.write_lines(out, "arcs into it, all empty");
    all.leaving.write_lines(out, "arcs out of it, all full");
    write_greatest(out, max, solution, cut, &all.leaving);
}

/// Explains by a violated set that no flow is feasible.
pub(crate) fn explain_infeasible<N: Network>(out: &mut Prose, instance: &MinInstance<N>, set: &Cut)
    requires { NoFlow instance.now }
{
    let (alloc, network) = (out.alloc, instance.network());
    let supply = supply_of(alloc, instance, set);
    say!(out; "in the set, ");
    write_set(out, set);
    say!(out; "its supply: ");
    supply.write_to(out);
    say!(out; "\n");
    if set.len() == set.nodes() {
        say!(out; "so the supplies of all nodes don't add up to 0, and no arc leads out of them");
        return write_no_flow(out, instance);
    }
    let (across, supply) = (bounds_across(instance, set), supply_in(instance, set));
    let (limit, net, leaving, entering) = match supply > across.most {
        true => ("at most", across.most, "CAP", "LOW"),
        false => ("at least", across.least, "LOW", "CAP"),
    };
    let all = Crossing::of(alloc, network, set, leaving, entering);
    write_bounds(out, &all);
    say!(out; "so what leaves it, less what enters it, is {} {} - {} = {}, but has to be its supply, {}",
        limit, all.leaving.sum(), all.entering.sum(), net, supply);
    write_no_flow(out, instance);
}

/// Writes the arcs that cross, and the sums of their bounds.
fn write_bounds(out: &mut Prose, all: &Crossing) {
    all.leaving.write_lines(out, "arcs out of it");
    all.entering.write_lines(out, "arcs into it");
    say!(out; "these bounds add up to ");
    all.leaving.write_to(out);
    say!(out; " out of it, and ");
    all.entering.write_to(out);
    say!(out; " into it\n");
}

impl<'a, A: Reopen> Explanation<'a, A> {
    /// Explains that the cut lacks the source, or has the sink.
    pub(crate) fn explain_end(&mut self, node: u32, end: End) -> Said<'a> {
        let (instance, cut) = (self.page.texts.instance()?, self.page.texts.certificate()?);
        self.page.quote(instance, Wanted::End(end))?;
        let sink = self.end_of(End::Sink)?;
        let has_sink = self.page.quote(cut, Wanted::Node(sink))?.is_some();
        if node == sink {
            say!(self.page.out; "node {} is the sink, and the cut holds it\n", Node(node));
        } else if has_sink {
            let verb = self.page.words("list", "mark");
            say!(self.page.out; "node {} is the source, and the cut doesn't hold it: this is the sink's side: {} the other nodes, those on the source's side\n",
                Node(node), verb);
        } else {
            let verb = self.page.words("lists", "marks");
            say!(self.page.out; "node {} is the source, and the cut doesn't hold it: it {} the nodes on the source's side, the source among them\n",
                Node(node), verb);
        }
        self.write_open()
    }

    pub(crate) fn explain_violation(&mut self) -> Said<'a> {
        let text = self.page.texts.certificate()?;
        let (set, min) = (
            self.set(&mut self.page.source(text)?)?,
            self.min_instance()?,
        );
        let (supply, across) = (supply_in(&min, &set), bounds_across(&min, &set));
        say!(self.page.out; "the set supplies {}, and its arcs can carry {} to {} out of it: it would show the claim if it supplied less than {} or more than {}\n",
            supply, across.least, across.most, across.least, across.most);
        self.write_open()
    }
}
