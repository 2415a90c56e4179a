//! Explains a refusal by its place and its reason.

use crate::explanation::Explanation;
use dimacs_judging::Where;
use dimacs_quote::{Reopen, Said, Stop, Value, Wanted, range_of, say};
use dimacs_records::{At, End, Reason, TextKind};

/// The limits of solvers.
const GREATEST_LIMIT: u64 = 1_000_000_000;

const DEFAULT_LIMIT: u64 = 1_000_000;

impl<'a, A: Reopen> Explanation<'a, A> {
    /// Explains why a text of this kind is refused.
    pub fn explain_refusal(&mut self, kind: TextKind, at: At, reason: Reason) {
        let said = match reason {
            Reason::Feasible => self.explain_found(None),
            Reason::NodesDiffer => self.explain_nodes(),
            _ => self.explain_text(kind, at, reason),
        };
        self.end_refusal(said);
    }

    /// Explains the fault of a text by itself. One in a certificate leaves its claim open.
    fn explain_text(&mut self, kind: TextKind, at: At, reason: Reason) -> Said<'a> {
        self.page.explain_text(kind, at, reason)?;
        if reason == Reason::PredUnknown {
            self.explain_pred(at)?;
        }
        match self.page.texts.certificate() {
            Ok(certificate) if certificate.kind == kind => self.write_open(),
            _ => Ok(()),
        }
    }

    /// Explains why a test failed.
    pub fn explain_failure(&mut self, place: Where, reason: Reason) {
        let said = match (self.test_readable(), reason) {
            (Ok(()), _) | (_, Reason::NotMaximum | Reason::NotLeast) => {
                self.explain_test(place, reason)
            }
            (unread, _) => unread,
        };
        self.end_refusal(said);
    }

    /// Explains that a solver gave up at its limit.
    pub fn explain_gave_up(&mut self, limit: u64) {
        match self.page.texts.instance().map(|it| it.kind) {
            Ok(TextKind::Min) =>
                say!(self.page.out; "the limit, {}, counts steps, each to a better flow: they lead to none that costs least, or the costs of one that does, added up arc by arc, leave {}: no answer is written\n",
                    limit, range_of("VALUE")),
            _ =>
                say!(self.page.out; "the limit, {}, counts flows, the flow 0 first and each of a greater value than the last: none of them is maximum, so no answer is written\n",
                    limit),
        }
        if limit < GREATEST_LIMIT {
            say!(self.page.out; "a greater one may do, as --limit N: N is at most {}, and {} without it\n", GREATEST_LIMIT, DEFAULT_LIMIT);
        }
        self.end_refusal(Ok(()));
    }

    /// Names the file that can't be read again, and the files that a solver which refuses has emptied.
    fn end_refusal(&mut self, said: Said<'a>) {
        match said {
            Err(Stop::Memory) => self.page.out.is_lost = true,
            Err(Stop::Unread(file)) => self.page.write_unread(file),
            Err(Stop::Done) | Ok(()) => (),
        }
        match self.page.texts.emptied() {
            [] => return,
            [one, other] if one != other =>
                say!(self.page.out; "{} and {} are empty", Value::File(one.as_str()), Value::File(other.as_str())),
            [one, ..] => say!(self.page.out; "{} is empty", Value::File(one.as_str())),
        }
        say!(self.page.out; ": a solve run creates the files that it writes, or empties them, before it reads the others\n");
    }

    /// Ends the explanation if a text of the run can't be read again, and names each such text.
    fn test_readable(&mut self) -> Said<'a> {
        let mut all = Ok(());
        for file in self.page.texts.files_read() {
            if self.page.again.open(file.as_str()).is_none() {
                self.page.write_unread(file.as_str());
                all = Err(Stop::Done);
            }
        }
        all
    }

    fn explain_test(&mut self, place: Where, reason: Reason) -> Said<'a> {
        // The field of the solution, and the number of the arc or the ID of the node; 0 stands for none.
        let (line, field, number) = match place {
            Where::Solution { line, field } => (line, field, 0),
            Where::Certificate => (0, 0, 0),
            Where::Arc(number) | Where::Node(number) => (0, 0, number),
        };
        let at = At { line, field };
        match reason {
            Reason::UnknownArc | Reason::ArcTwice => self.explain_entry(at, reason),
            Reason::ValueDiffers => self.explain_value(at),
            Reason::NotMaximum | Reason::NotLeast => self.explain_better(at),
            Reason::BelowLow
            | Reason::AboveCap
            | Reason::CostRange
            | Reason::NotSaturated
            | Reason::BackFlow
            | Reason::NotTight => self.explain_flow(number, reason),
            Reason::Balance => self.explain_balance(number),
            Reason::SourceOutside => self.explain_end(number, End::Source),
            Reason::SinkInside => self.explain_end(number, End::Sink),
            Reason::NotViolated => self.explain_violation(),
            Reason::NodesDiffer => self.explain_nodes(),
            Reason::QueryNode => self.explain_query_node(number),
            Reason::BlockMissing => self.explain_query(number),
            Reason::NoTightArc => self.explain_unreached(number),
            Reason::Escapes | Reason::NotShortest => self.explain_farther(number),
            Reason::NegativeWeight => self.explain_negative(number),
            // Faults of texts, for which no test fails.
            _ => Ok(()),
        }
    }

    /// Explains that an instance and what is tested against it differ in NODES.
    fn explain_nodes(&mut self) -> Said<'a> {
        self.test_readable()?;
        let (instance, tested) = (self.page.texts.instance()?, self.page.texts.tested()?);
        self.page.quote_there(instance, Wanted::Problem)?;
        self.page.quote_there(tested, Wanted::Problem)?;
        say!(self.page.out; "NODES of the two differ: they are not of one instance\n");
        self.write_open()
    }
}
