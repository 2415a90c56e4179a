//! Explains that there is a better flow than the claimed one, or a feasible one where none is claimed.

use crate::explanation::Explanation;
use crate::facts::{write_cheaper, write_feasible_cost, write_greater};
use dimacs_facts::{excess, feasible_cost, feasible_value};
use dimacs_judging::Flow;
use dimacs_network::Network;
use dimacs_quote::{OrStop, Reopen, Said, StandFor, Stop, TextFile, Value, Wanted, range_of, say};
use dimacs_records::{At, Record, TextKind};

impl<'a, A: Reopen> Explanation<'a, A> {
    pub(crate) fn explain_better(&mut self, at: At) -> Said<'a> {
        let (kind, claim) = (self.page.texts.instance()?.kind, self.page.texts.claim()?);
        let made = self.made.map(|it| it.value);
        // A claim that isn't worse was overwritten by the better flow.
        let claimed = self
            .value_on(claim, Wanted::Line(at))?
            .filter(|it| made.is_none_or(|made| is_better(kind, made, *it)));
        if claimed.is_some() {
            self.page.quote_there(claim, Wanted::Line(at))?;
        }
        self.explain_found(claimed)
    }

    /// Explains that a flow was found, and how much better it is than one with a claimed value or cost.
    pub(crate) fn explain_found(&mut self, claimed: Option<i128>) -> Said<'a> {
        if self.made.is_none() && !self.page.texts.are_arrays() {
            say!(self.page.out; "a flow was found, but isn't written: its cost, added up arc by arc, leaves {}\n", range_of("VALUE"));
            return Ok(());
        }
        let shown = match (self.page.texts.instance()?.kind, claimed) {
            (TextKind::Min, claimed) => self.compare_cost(claimed),
            (_, Some(claimed)) => self.compare_value(claimed),
            _ => Err(Stop::Done),
        };
        if matches!(shown, Err(Stop::Done | Stop::Unread(_))) {
            say!(self.page.out; "a flow was found");
            self.write_place(None);
            return Ok(());
        }
        shown
    }

    /// Compares the value of the flow that was found with a claimed one.
    fn compare_value(&mut self, claimed: i128) -> Said<'a> {
        let max = self.max_instance()?;
        let (flow, text) = self.found(max.network())?;
        if let Some(value) = feasible_value(self.page.alloc, &max, &flow)
            && let Some(more) = excess(value, claimed)
        {
            let name = self.quote_found(text)?;
            write_greater(&mut self.page.out, &max, &flow, name, claimed, more);
            self.write_place(text);
            return Ok(());
        }
        Err(Stop::Done)
    }

    /// The same of its cost; without a claim, gives that.
    fn compare_cost(&mut self, claimed: Option<i128>) -> Said<'a> {
        let min = self.min_instance()?;
        let (flow, text) = self.found(min.network())?;
        let Some(cost) = feasible_cost(self.page.alloc, &min, &flow) else {
            return Err(Stop::Done);
        };
        if let Some(claimed) = claimed
            && let Some(less) = excess(claimed, cost)
        {
            let name = self.quote_found(text)?;
            write_cheaper(&mut self.page.out, &min, &flow, name, claimed, less);
            self.write_place(text);
        } else {
            write_feasible_cost(&mut self.page.out, &min, &flow, cost);
            self.write_place(None);
        }
        Ok(())
    }

    /// The flow in the text that the run wrote, if that can be read again, else as it was made.
    fn found<N: Network>(&self, network: &N) -> OrStop<'a, (Flow, Option<TextFile<'a>>)> {
        if let Some(file) = self.page.texts.written()
            && let Ok(solution) = self.solution_in(self.solution_text(file))
        {
            return Ok((
                self.flow(network, &solution)?,
                Some(self.solution_text(file)),
            ));
        }
        let made = self.made.ok_or(Stop::Done)?;
        Ok((self.flow(network, made)?, None))
    }

    /// Quotes the value or the cost in a text of the flow that was found, and returns a name of that flow.
    fn quote_found(&mut self, text: Option<TextFile<'a>>) -> OrStop<'a, &'static str> {
        let Some(text) = text else {
            return Ok("another flow");
        };
        self.page.quote(text, Wanted::Value)?;
        Ok(self.page.words("this flow", "the flow in `better`"))
    }

    /// The value on a line of a text; none without one, or if the text can't be read again.
    fn value_on(&self, text: TextFile<'a>, wanted: Wanted) -> OrStop<'a, Option<i128>> {
        let found = match self.page.find(text, wanted) {
            Err(Stop::Unread(_)) => None,
            found => found?,
        };
        match found.map(|found| found.record) {
            Some(Record::SolutionValue { value }) => Ok(Some(value)),
            _ => Ok(None),
        }
    }

    /// Ends a sentence on the flow that was found by where it is, if no text of it is quoted.
    fn write_place(&mut self, quoted: Option<TextFile<'a>>) {
        let (field, last) = match self.page.texts.claim() {
            Ok(_) => ("better", "solution"),
            Err(_) => ("flow", "instance"),
        };
        match self.page.texts.written() {
            _ if quoted.is_some() => say!(self.page.out; "\n"),
            _ if self.page.texts.are_arrays() => say!(self.page.out; ": it is in `{}`\n", field),
            Some(file) if self.page.texts.stand_for == StandFor::Files =>
                say!(self.page.out; ": it goes to {}\n", Value::File(file)),
            Some(file) if self.is_in(file) =>
                say!(self.page.out; ": it is in `{}`\n", Value::File(file)),
            Some(_) => say!(self.page.out; "\n"),
            None => say!(self.page.out; ": name a file after the {} to get it\n", last),
        }
    }

    /// Whether a text has the value or the cost of the flow that was made.
    fn is_in(&self, file: &'a str) -> bool {
        let value = self.value_on(self.solution_text(file), Wanted::Value);
        matches!(value, Ok(Some(value)) if self.made.is_some_and(|it| it.value == value))
    }

    fn solution_text(&self, file: &'a str) -> TextFile<'a> {
        self.page.texts.of_file(TextKind::Solution, file)
    }
}

fn is_better(kind: TextKind, value: i128, claimed: i128) -> bool {
    match kind {
        TextKind::Min => value < claimed,
        _ => value > claimed,
    }
}
