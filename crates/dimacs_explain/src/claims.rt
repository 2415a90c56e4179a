//! Explains why a claimed flow isn't one of the instance, or hasn't the claimed value or cost.

use crate::explanation::Explanation;
use crate::facts::{write_cost_claim, write_value_claim};
use crate::flows::Parallel;
use crate::least_cost::write_cost;
use dimacs_facts::{cost_of, flow_value};
use dimacs_network::Network;
use dimacs_quote::Value::{Arc, Node};
use dimacs_quote::{OrStop, Prose, Reopen, Said, Stop, Wanted, ending, entry_between, say};
use dimacs_records::{At, End, Reason, Record, TextKind};

/// Names the bits in which a sum may have wrapped around.
fn write_wrapped(out: &mut Prose, claimed: i128, right: i128) {
    let apart = claimed.saturating_sub(right);
    let bits = match (apart % 18_446_744_073_709_551_616, apart % 4_294_967_296) {
        (0, _) => 64_u64,
        (_, 0) => 32,
        _ => return,
    };
    say!(out; "they differ by a multiple of 2^{}: a sum of {} bits may have wrapped around\n", bits, bits);
}

impl<'a, A: Reopen> Explanation<'a, A> {
    fn quote_solution(&mut self, at: At) -> OrStop<'a, Record> {
        let solution = self.page.texts.claim()?;
        self.page.quote_there(solution, Wanted::Line(at))
    }

    /// Explains that an entry belongs to no arc, or that as many earlier entries as there are arcs have its ends.
    pub(crate) fn explain_entry(&mut self, at: At, reason: Reason) -> Said<'a> {
        let Record::SolutionEntry { tail, head, flow } = self.quote_solution(at)? else {
            return Ok(());
        };
        let instance = self.page.texts.instance()?;
        if reason == Reason::ArcTwice {
            let parallel = self.parallel(tail, head, 0)?;
            say!(self.page.out; "{} has {} arc{} from {} to {}, and as many earlier entries have these ends\n",
                instance, parallel.all, ending(parallel.all), Node(tail), Node(head));
            return match parallel.all {
                1 => self.write_repeated(tail, head, flow, parallel),
                _ => self.write_spread(tail, head, parallel),
            };
        }
        say!(self.page.out; "{} has no arc from {} to {}\n", instance, Node(tail), Node(head));
        let back = self.parallel(head, tail, 0)?;
        if back.all > 0 {
            say!(self.page.out; "arc {} leads from {} to {}\n", Arc(back.first), Node(head), Node(tail));
        }
        Ok(())
    }

    /// Quotes the earlier entry of an arc that has two, and advises to remove one if they are the same.
    fn write_repeated(&mut self, tail: u32, head: u32, flow: i64, arc: Parallel) -> Said<'a> {
        let solution = self.page.texts.claim()?;
        let first = Wanted::Entry(tail, head, 0);
        if entry_between(self.page.quote_there(solution, first)?, tail, head) != Some(flow) {
            return self.write_spread(tail, head, arc);
        }
        say!(self.page.out; "the two are the same: remove one\n");
        Ok(())
    }

    /// Compares the value or cost of a flow with the claimed one.
    pub(crate) fn explain_value(&mut self, at: At) -> Said<'a> {
        let Record::SolutionValue { value: claimed } = self.quote_solution(at)? else {
            return Ok(());
        };
        let right = match self.page.texts.instance()?.kind {
            TextKind::Min => self.write_cost_of(claimed)?,
            _ => self.write_value_of(claimed)?,
        };
        write_wrapped(&mut self.page.out, claimed, right);
        Ok(())
    }

    /// Compares the cost of the solution's flow with a claimed one, and returns it.
    fn write_cost_of(&mut self, claimed: i128) -> OrStop<'a, i128> {
        let min = self.min_instance()?;
        let flow = self.flow(min.network(), &self.solution()?)?;
        let cost = cost_of(min.network(), &flow).ok_or(Stop::Done)?;
        write_cost_claim(&mut self.page.out, min.network(), &flow, claimed, cost);
        write_cost(&mut self.page.out, min.network(), &flow);
        Ok(cost)
    }

    fn write_value_of(&mut self, claimed: i128) -> OrStop<'a, i128> {
        let max = self.max_instance()?;
        let flow = self.flow(max.network(), &self.solution()?)?;
        let value = flow_value(&max, &flow).ok_or(Stop::Done)?;
        write_value_claim(&mut self.page.out, &max, &flow, claimed, value);
        let (source, at) = (max.source(), self.node_flow(max.source())?);
        say!(self.page.out; ": {} leaves the source, node {}, and {} enters it\n", at.leaving.sum(), Node(source), at.entering.sum());
        Ok(value)
    }

    pub(crate) fn end_of(&self, end: End) -> OrStop<'a, u32> {
        let instance = self.page.texts.instance()?;
        let found = self.page.find(instance, Wanted::End(end))?;
        match found.map(|found| found.record) {
            Some(Record::MaxNode { id, .. }) => Ok(id),
            _ => Err(instance.unread()),
        }
    }
}
