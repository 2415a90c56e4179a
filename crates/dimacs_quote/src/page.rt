//! The page on which an explanation is written, and the texts that it is about.

ghost use Rattle.std.specs.Prelude.{IfOk, IfSome, List, Option, ℕ};

use crate::items::{entry_arc, item};
use crate::lines::TextLines;
use crate::lookups::Wanted;
use crate::prose::Prose;
use crate::quote::quote;
use crate::say;
use crate::sentence::Value;
use crate::stop::{OrStop, Stop};
use crate::texts::{StandFor, TextFile, Texts};
use dimacs_lines::{MAX_LINES, Memory, Source};
use dimacs_records::Record;
use std::alloc::Global;

/// Opens files once more. What reads them by this can't create, empty or write one.
pub trait Reopen {
    /// A file opened for reading.
    type Input: Source + Drop;

    /// These bytes may come from the file with a name; `None` if they aren't known, as those of the system's files.
    ghost reopens: { Self → List ℕ → Option (List ℕ) → Type 0 };

    /// Opens a file for reading; none if that fails.
    fn open(&self, name: &str) -> Option<Self::Input>
        ensures coming { IfSome result (λ file. reopens self.now name.now (Self.Input.coming file)) };
}

/// A line that was looked for.
#[derive(Drop)]
pub struct FoundLine {
    /// Its number, from 1.
    pub line: u64,
    /// What it spells.
    pub record: Record,
    quote: Prose,
}

/// The page on which the answer of a run is explained.
#[derive(Drop)]
pub struct Page<'a, A> {
    /// The allocator.
    pub alloc: Global,
    /// Opens the texts once more.
    pub again: &'a A,
    /// The texts that the answer is about.
    pub texts: Texts<'a>,
    /// What was written.
    pub out: Prose,
}

impl<'a, A: Reopen> Page<'a, A> {
    /// An empty page about the answer of a run over these texts, which are read again.
    pub fn new(alloc: Global, again: &'a A, texts: Texts<'a>) -> Page<'a, A> {
        Page {
            alloc,
            again,
            texts,
            out: Prose::new(alloc),
        }
    }

    /// What was written; with marks if it is about arrays.
    pub fn finish(self) -> Result<String, Memory> {
        match self.texts.are_arrays() {
            true => self.out.finish(),
            false => self.out.plain(self.alloc),
        }
    }

    /// Words about texts, or those about the arrays for which they stand.
    pub fn words(&self, of_texts: &'static str, of_arrays: &'static str) -> &'static str {
        if self.texts.are_arrays() {
            of_arrays
        } else {
            of_texts
        }
    }

    /// Reports that a file can't be read again, or that a name is that of two texts, of which none is known to be meant.
    pub fn write_unread(&mut self, file: &str) {
        let why = match self.texts.stand_for {
            StandFor::Files => "is no file that can be read again",
            StandFor::Texts | StandFor::Arrays => "is the name of two texts",
        };
        say!(self.out; "{}: {}, so its lines are left out\n", Value::File(file), why);
    }

    /// A text, to be read again.
    pub fn source(&self, text: TextFile<'a>) -> OrStop<'a, A::Input>
        ensures coming { IfOk result (λ file. A.reopens self.now.again.now text.entry.file.now (A.Input.coming file)) }
    {
        self.again.open(text.file).ok_or(text.unread())
    }

    /// The lines of a text.
    pub fn lines(&self, text: TextFile<'a>) -> OrStop<'a, TextLines<A::Input>> {
        Ok(TextLines::new(self.alloc, self.source(text)?, text.kind)?)
    }

    /// The line of a text that is wanted; none if there is none.
    pub fn find(&self, text: TextFile<'a>, wanted: Wanted) -> OrStop<'a, Option<FoundLine>> {
        let mut lines = self.lines(text)?;
        let mut earlier = wanted.earlier();
        for _ in 0..MAX_LINES {
            let Some((line, record)) = lines.next() else {
                break;
            };
            let Some(record) = record.filter(|record| wanted.is(line, *record)) else {
                continue;
            };
            if earlier == 0 {
                let quote = match wanted {
                    Wanted::Arc(arc) if text.is_of_arrays() => item(self.alloc, arc, record),
                    _ if text.is_of_arrays() => item(self.alloc, entry_arc(line), record),
                    _ => quote(self.alloc, text.file, wanted.at(line), lines.bytes()),
                };
                return Ok(Some(FoundLine {
                    line,
                    record,
                    quote,
                }));
            }
            earlier = earlier.saturating_sub(1);
        }
        Ok(None)
    }

    /// Whether a text, read again, has a line that is wanted.
    pub fn has(&self, text: TextFile<'a>, wanted: Wanted) -> bool {
        matches!(self.find(text, wanted), Ok(Some(_)))
    }

    /// Quotes the line of a text that is wanted, or says what it stands for, and returns its record; none if there is none.
    pub fn quote(&mut self, text: TextFile<'a>, wanted: Wanted) -> OrStop<'a, Option<Record>> {
        let Some(found) = self.find(text, wanted)? else {
            return Ok(None);
        };
        self.out.append(&found.quote);
        Ok(Some(found.record))
    }

    /// The same for a line that has to be there.
    pub fn quote_there(&mut self, text: TextFile<'a>, wanted: Wanted) -> OrStop<'a, Record> {
        self.quote(text, wanted)?.ok_or(text.unread())
    }
}
