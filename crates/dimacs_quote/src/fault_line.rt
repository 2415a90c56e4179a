//! Reads a text up to its fault.

use crate::escape::escape;
use crate::forms::{field_name, form_of, kind_words};
use crate::lookups::{Wanted, declared, labelled_node, node_of};
use crate::oddities::{has_lone_return, kind_of, oddity, unread_kind};
use crate::page::{Page, Reopen};
use crate::prose::Prose;
use crate::quote::{quote, text_at};
use crate::say;
use crate::stop::OrStop;
use crate::texts::TextFile;
use dimacs_lines::{MAX_LINES, Memory, fields};
use dimacs_records::{At, Reason, Record, TextKind};
use std::alloc::Global;

/// A longer word is cut to this many bytes.
const LONG_WORD: usize = 60;

/// What explanations need of the lines up to a fault; what isn't there has 0.
#[derive(Clone, Copy, Default)]
pub(crate) struct Before {
    /// What a file is that is no text.
    pub(crate) odd: Option<&'static str>,
    pub(crate) lone_return: bool,
    lines: u64,
    has_record: bool,
    /// How many arcs, queries, nodes of a set, potentials or blocks there are.
    pub(crate) counted: u64,
    /// The last block: its line, source, RADIUS, and how many labels it declares and has.
    pub(crate) block_line: u64,
    pub(crate) source: u32,
    pub(crate) radius: Option<i128>,
    pub(crate) labels: u32,
    pub(crate) labelled: u64,
}

impl Before {
    fn add(&mut self, line: u64, record: Record) {
        self.has_record = true;
        match record {
            Record::LabelsBlock {
                source,
                count,
                radius,
            } => self.begin(line, source, count, radius),
            Record::DistancesBlock { source, count } => self.begin(line, source, count, None),
            Record::LabelsNode { .. } | Record::DistancesNode { .. } => {
                self.labelled = self.labelled.saturating_add(1);
            }
            Record::MaxNode { .. } | Record::MinNode { .. } => (),
            _ if declared(record).is_some() => (),
            _ => self.counted = self.counted.saturating_add(1),
        }
    }

    fn begin(&mut self, line: u64, source: u32, labels: u32, radius: Option<i128>) {
        self.counted = self.counted.saturating_add(1);
        self.block_line = line;
        self.source = source;
        self.radius = radius;
        self.labels = labels;
        self.labelled = 0;
    }
}

/// The line of a fault, its reason, and what the text says before it.
#[derive(Drop)]
pub(crate) struct FaultLine<'a> {
    pub(crate) text: TextFile<'a>,
    pub(crate) line: u64,
    pub(crate) reason: Reason,
    pub(crate) before: Before,
    /// The form of lines with the letter of this one.
    pub(crate) form: &'static str,
    /// The field of the fault: its name and its word.
    pub(crate) name: &'static str,
    pub(crate) word: String,
    pub(crate) fields: u64,
    /// The second field, if it is an ID.
    id: Option<u32>,
    /// None if the line by itself has a fault.
    pub(crate) record: Option<Record>,
    /// What a text of another kind is, with the kind if it is one here.
    pub(crate) other: Option<&'static str>,
    pub(crate) found: Option<TextKind>,
}

impl<'a> FaultLine<'a> {
    /// The line with these bytes, after others; the end of a text has none.
    fn new(
        alloc: Global,
        text: TextFile<'a>,
        at: At,
        reason: Reason,
        before: Before,
        bytes: &[u8],
    ) -> Result<FaultLine<'a>, Memory> {
        let form = form_of(text.kind, text_at(bytes, 1)).unwrap_or("p");
        let begins = !before.has_record && form.starts_with('p');
        let found = kind_of(bytes).filter(|kind| begins && *kind != text.kind);
        let unread = unread_kind(bytes).filter(|_| begins);
        Ok(FaultLine {
            text,
            line: at.line,
            reason,
            before,
            form,
            name: field_name(form, at.field),
            word: shortened(alloc, text_at(bytes, at.field))?,
            fields: count_fields(bytes),
            id: str::from_utf8(text_at(bytes, 2))
                .ok()
                .and_then(|id| id.parse().ok()),
            record: None,
            other: found.map(kind_words).or(unread),
            found,
        })
    }

    /// Whether the count of a block is wrong, and not that of the problem line.
    pub(crate) fn is_in_block(&self) -> bool {
        let lacks_labels = self.before.labelled < u64::from(self.before.labels);
        match self.record.and_then(labelled_node) {
            Some(_) => true,
            None => self.reason == Reason::TooFew && lacks_labels,
        }
    }

    /// Whether this is a d line of the source of its block.
    pub(crate) fn is_of_source(&self) -> bool {
        self.form.starts_with('d') && self.id == Some(self.before.source)
    }

    /// If a line stands twice: the earlier one, and what it has in common with this one.
    pub(crate) fn twice(&self) -> Option<(Wanted, &'static str)> {
        match (self.reason, self.record?) {
            (Reason::ProblemTwice, _) => Some((Wanted::Problem, "is a p line")),
            (Reason::SolutionTwice, _) => Some((Wanted::Value, "is an s line")),
            (Reason::EndTwice, Record::MaxNode { end, .. }) => {
                Some((Wanted::End(end), "has the same letter"))
            }
            (Reason::NodeTwice, record) => {
                let from = self.before.block_line;
                let label = labelled_node(record).map(|id| Wanted::Label { id, from });
                Some((
                    label.or(node_of(record).map(Wanted::Node))?,
                    "names the node",
                ))
            }
            _ => None,
        }
    }
}

fn shortened(alloc: Global, word: &[u8]) -> Result<String, Memory> {
    let mut short = Prose::new(alloc);
    escape(&mut short, word.get(..LONG_WORD).unwrap_or(word));
    short.push(if word.len() > LONG_WORD { ".." } else { "" });
    short.finish()
}

pub(crate) fn count_fields(line: &[u8]) -> u64 {
    fields(line).fold(0, |count: u64, _| count.saturating_add(1))
}

impl<'a, A: Reopen> Page<'a, A> {
    /// Reads a text up to its fault, and quotes the line.
    pub(crate) fn quote_fault(
        &mut self,
        text: TextFile<'a>,
        at: At,
        reason: Reason,
    ) -> OrStop<'a, FaultLine<'a>> {
        let (mut lines, mut before) = (self.lines(text)?, Before::default());
        for _ in 0..MAX_LINES {
            let Some((number, record)) = lines.next() else {
                break;
            };
            if number == 1 {
                before.odd = oddity(lines.bytes());
                before.lone_return = has_lone_return(lines.bytes());
            }
            if number == at.line {
                let bytes = lines.bytes();
                self.out.append(&quote(self.alloc, text.file, at, bytes));
                let mut fault = FaultLine::new(self.alloc, text, at, reason, before, bytes)?;
                fault.record = record;
                fault.before.lone_return &= number == 1 && lines.next().is_none();
                return Ok(fault);
            }
            before.lines = number;
            if let Some(record) = record {
                before.add(number, record);
            }
        }
        let fault = FaultLine::new(self.alloc, text, at, reason, before, b"")?;
        self.out.name_place(&fault);
        Ok(fault)
    }
}

impl Prose {
    /// Names the place of a fault at the end of a text, or at a line that is too long to be read.
    fn name_place(&mut self, fault: &FaultLine<'_>) {
        match (fault.reason, fault.before.lines) {
            (Reason::LineTooLong | Reason::LineLimit, _) =>
                say!(self; "{}:{}: ", fault.text, fault.line),
            (_, 0) => say!(self; "{}: is empty\n", fault.text),
            (_, last) => say!(self; "{}: ends after line {}\n", fault.text, last),
        }
    }
}
