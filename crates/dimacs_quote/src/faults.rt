//! Explains the fault of a text.

use crate::fault_line::{FaultLine, count_fields};
use crate::forms::{form_of, forms, kind_words, range_of};
use crate::lookups::{Wanted, declared};
use crate::numbers::{is_no_number, meant_number};
use crate::page::{Page, Reopen};
use crate::prose::Prose;
use crate::say;
use crate::sentence::Value::{Node, Typed, Word};
use crate::sentence::ending;
use crate::stop::{OrStop, Said, Stop};
use crate::texts::TextFile;
use dimacs_lines::{MAX_LINE, MAX_LINES};
use dimacs_records::{At, Declared, End, Reason, Record, TextKind};

/// The greatest number of 64 bits with a sign.
const MOST_WHOLE: u64 = 9_223_372_036_854_775_807;

/// What a CAP that is negative or no number may mean.
const NO_LIMIT: &str =
    "no limit? then CAP is more than the others and all supplies add up to, at most 9223372036854775807; if an answer fills such an arc, there may be no best\n";

const NO_LINE: &str = "a node that no walk reaches has no line: leave it out\n";

fn counted_lines(kind: TextKind) -> &'static str {
    match kind {
        TextKind::Max | TextKind::Min | TextKind::Graph => "arc line",
        TextKind::Queries => "query line",
        TextKind::Labels | TextKind::Distances => "block",
        _ => "line",
    }
}

fn order_of(kind: TextKind) -> &'static str {
    match kind {
        TextKind::Queries => "an ss text has s lines alone, and a p2p text q lines\n",
        TextKind::Labels | TextKind::Distances => "a d line stands after the t line of its block\n",
        _ => "node lines stand before all arc lines\n",
    }
}

impl<'a, A: Reopen> Page<'a, A> {
    /// Explains the fault of a line, or of the end of a text.
    pub fn explain_text(&mut self, kind: TextKind, at: At, reason: Reason) -> Said<'a> {
        let text = self.texts.of_kind(kind)?;
        let fault = self.quote_fault(text, at, reason)?;
        if let Some(odd) = fault.before.odd {
            say!(self.out; "the file {}\n", odd);
            return Ok(());
        }
        if fault.before.lone_return {
            say!(self.out; "lines end by a carriage return alone: end them by a line feed\n");
        }
        match (reason, fault.other) {
            (
                Reason::UnknownLine | Reason::FieldCount | Reason::BadWord | Reason::ProblemMissing,
                Some(other),
            ) if self.write_other_kind(&fault, other) => Ok(()),
            _ => self.write_reason(&fault),
        }
    }

    /// Names the kind of a text that isn't of the kind that is wanted. Returns whether there is no more to say.
    fn write_other_kind(&mut self, fault: &FaultLine<'a>, other: &str) -> bool {
        let (text, wanted) = (fault.text, kind_words(fault.text.kind));
        say!(self.out; "the line is that of {}, in the place of {}\n", other, wanted);
        if text.kind == TextKind::Distances && fault.found == Some(TextKind::Labels) {
            say!(self.out; "distances have no PRED and no RADIUS; to judge labels, run dimacs judge-paths GRAPH QUERY LABELS\n");
        }
        if let Some(file) = self.exchanged(text, fault.found) {
            say!(self.out; "the files {} and {} are exchanged\n", Typed(text), Typed(file));
            return true;
        }
        let is_instance = self.texts.instance().is_ok_and(TextFile::is_file);
        let ending = match (text.kind, fault.found) {
            (TextKind::Max, Some(TextKind::Min)) if is_instance => "min",
            (TextKind::Min, Some(TextKind::Max)) if is_instance => "max",
            _ => return false,
        };
        say!(self.out; "its commands end in -{}\n", ending);
        true
    }

    /// The file in whose place a text of this kind belongs, if that has one of the kind that is wanted here.
    fn exchanged(&self, text: TextFile<'a>, kind: Option<TextKind>) -> Option<TextFile<'a>> {
        let other = self.texts.of_kind(kind?).ok()?;
        let file = other.file;
        let first = match text.kind {
            TextKind::Solution => Wanted::Value,
            _ => Wanted::Problem,
        };
        let has_first = self.has(TextFile { file, ..text }, first);
        Some(other).filter(|_| has_first && file != text.file)
    }

    /// Writes why a line has a fault by itself, or by the lines before it.
    fn write_reason(&mut self, fault: &FaultLine<'a>) -> Said<'a> {
        let (kind, word) = (fault.text.kind, fault.word.as_str());
        match fault.reason {
            Reason::LineTooLong =>
                say!(self.out; "the line has more than {} bytes\n", (MAX_LINE as u64)),
            Reason::LineLimit => say!(self.out; "a text has at most {} lines\n", MAX_LINES),
            Reason::UnknownLine => self.out.list_forms(kind, word),
            Reason::FieldCount => self.out.write_field_count(fault),
            Reason::BadWord =>
                say!(self.out; "`{}` stands where `{}` is wanted: the line is `{}`\n",
                word, fault.name, fault.form),
            Reason::BadNumber => self.write_bad_number(word, fault.name),
            Reason::NumberRange if !fault.is_of_source() => self.out.write_range(word, fault.name),
            Reason::ProblemMissing =>
                say!(self.out; "a line `{}` has to stand first, but for comments\n",
                form_of(kind, b"p").unwrap_or("p")),
            Reason::BoundOrder => self.out.write_bounds(fault.record),
            Reason::RecordOrder => say!(self.out; order_of(kind)),
            Reason::SolutionMissing =>
                say!(self.out; "a solution has one line `s VALUE`, and this one has none\n"),
            Reason::PredUnknown | Reason::PastRadius => self.out.write_label_fault(fault),
            Reason::EndMissing => self.write_missing_ends(fault)?,
            Reason::NodeRange => self.write_node_range(fault)?,
            Reason::TooMany | Reason::TooFew => self.write_count(fault)?,
            _ => self.write_twice(fault)?,
        }
        Ok(())
    }

    /// Names the earlier line if one stands twice, or the source if it has a d line.
    fn write_twice(&mut self, fault: &FaultLine<'a>) -> Said<'a> {
        if fault.is_of_source() {
            say!(self.out; "node {} is the source of the block: it has the distance 0, and no d line\n", Node(fault.before.source));
        } else if let Some((wanted, common)) = fault.twice()
            && let Some(earlier) = self.line_before(fault, wanted)?
        {
            say!(self.out; "line {} {} already\n", earlier, common);
        }
        Ok(())
    }

    /// The first line that is wanted, if it stands before the fault.
    fn line_before(&self, fault: &FaultLine<'a>, wanted: Wanted) -> OrStop<'a, Option<u64>> {
        match self.find(fault.text, wanted)? {
            Some(found) if found.line < fault.line => Ok(Some(found.line)),
            _ => Ok(None),
        }
    }

    fn problem(&self, text: TextFile<'a>) -> OrStop<'a, (u64, Declared)> {
        let stop = text.unread();
        let found = self.find(text, Wanted::Problem)?.ok_or(stop)?;
        Ok((found.line, declared(found.record).ok_or(stop)?))
    }

    fn write_missing_ends(&mut self, fault: &FaultLine<'a>) -> Said<'a> {
        let source = self.line_before(fault, Wanted::End(End::Source))?;
        let sink = self.line_before(fault, Wanted::End(End::Sink))?;
        let missing = match (source, sink) {
            (None, None) => "`n ID s` and `n ID t`, the source and the sink, have",
            (None, Some(_)) => "`n ID s`, the source, has",
            _ => "`n ID t`, the sink, has",
        };
        say!(self.out; "{} to stand before the arcs\n", missing);
        Ok(())
    }

    fn write_node_range(&mut self, fault: &FaultLine<'a>) -> Said<'a> {
        let (line, declared) = self.problem(fault.text)?;
        let (node, nodes) = (fault.word.as_str(), u64::from(declared.nodes.unwrap_or(0)));
        say!(self.out; "node {} is above the {} nodes that line {} declares\n", node, nodes, line);
        Ok(())
    }

    fn write_bad_number(&mut self, word: &str, name: &str) {
        say!(self.out; "{} is a whole number, digits with a sign or without, and not `{}`\n", name, word);
        if name == "VALUE" && word == "infeasible" {
            let instance = self.texts.instance().ok();
            if instance.is_some_and(|text| text.kind == TextKind::Max) {
                return say!(self.out; "a solution is a flow, and the flow 0 is one of each maximum flow instance\n");
            }
            let file = instance
                .filter(|text| text.is_file())
                .map_or(Word("INSTANCE"), Typed);
            say!(self.out; "a solution is a flow; to find out whether none is feasible, run dimacs certify-infeasible {}\n", file);
        } else if name == "DIST" && is_no_number(word) {
            say!(self.out; NO_LINE);
        } else if name == "CAP" && is_no_number(word) {
            say!(self.out; NO_LIMIT);
        } else if let Some(number) = meant_number(self.alloc, word)
            && (range_of(name).starts_with('-') || !number.text.starts_with('-'))
        {
            say!(self.out; "write ");
            self.out.append(&number);
            say!(self.out; "\n");
        }
    }

    fn write_count(&mut self, fault: &FaultLine<'a>) -> Said<'a> {
        let before = fault.before;
        if fault.is_in_block() {
            let labels = u64::from(before.labels);
            say!(self.out; "the block of line {}, from source {}, declares {} d line{}, and has {} before this place\n",
                before.block_line, Node(before.source), labels, ending(labels), before.labelled);
            return Ok(());
        }
        let (line, Declared { count, .. }) = self.problem(fault.text)?;
        let (lines, had) = (counted_lines(fault.text.kind), before.counted);
        if fault.reason == Reason::TooFew {
            say!(self.out; "{} {}{} of the {} that line {} declares\n", had, lines, ending(had), u64::from(count), line);
        } else {
            say!(self.out; "line {} declares {} {}{}, and this is one more\n",
                line, u64::from(count), lines, ending(u64::from(count)));
        }
        Ok(())
    }
}

/// Sentences for which no text is read.
impl Prose {
    fn list_forms(&mut self, kind: TextKind, word: &str) {
        say!(self; "no line of {} begins with `{}`\nits lines are `{}`, and comments, which begin with c\n",
            kind_words(kind), word, forms(kind));
    }

    fn write_field_count(&mut self, fault: &FaultLine<'_>) {
        let form = fault.form;
        let wanted = count_fields(form.as_bytes());
        say!(self; "the line has {} field{}, and `{}` has {}", fault.fields, ending(fault.fields), form, wanted);
        let has_radius = fault.text.kind == TextKind::Labels && form.starts_with('t');
        say!(self; if has_radius { ", or one more with a RADIUS\n" } else { "\n" });
    }

    /// Names the range of a number, and what one that is outside may come from.
    fn write_range(&mut self, word: &str, name: &str) {
        let range = range_of(name);
        say!(self; "{} is a number from {}, and not {}\n", name, range, word);
        match (word.parse::<i64>(), word.parse::<u64>()) {
            (Ok(number), _) if number < 0 && name == "PRED" => say!(self; NO_LINE),
            (Ok(0), _) if range.starts_with('1') =>
                say!(self; "IDs count from 1: numbered from 0? add 1 to each\n"),
            (_, Ok(number)) if number > MOST_WHOLE && range.starts_with("-2^63") =>
                say!(self; "in 64 bits with a sign this is -{}: a number may have wrapped around\n",
                    u64::MAX.saturating_sub(number).saturating_add(1)),
            _ => (),
        }
    }

    fn write_bounds(&mut self, record: Option<Record>) {
        match record {
            Some(Record::MaxArc { cap, .. }) =>
                say!(self; "CAP is {}, and has to be 0 or more\n{}", cap, NO_LIMIT),
            Some(Record::MinArc { low, cap, .. }) if low < 0 =>
                say!(self; "LOW is {} (and CAP {}), and has to be 0 or more\n", low, cap),
            Some(Record::MinArc { low, cap, .. }) =>
                say!(self; "CAP is {}, less than LOW, {}\n{}", cap, low, if cap < 0 { NO_LIMIT } else { "" }),
            _ => (),
        }
    }

    fn write_label_fault(&mut self, fault: &FaultLine<'_>) {
        let Some(Record::LabelsNode { dist, pred, .. }) = fault.record else {
            return;
        };
        if fault.reason == Reason::PredUnknown {
            say!(self; "PRED, {}, is neither the source of the block nor the ID of a d line before this one\n", Node(pred));
        } else {
            let radius = fault.before.radius.unwrap_or(0);
            say!(self; "DIST is {}, above the RADIUS of the block, {}\n", dist, radius);
        }
    }
}
