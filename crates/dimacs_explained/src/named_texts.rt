//! The texts of a run in memory, by the names of their files.

ghost use Rattle.std.specs.{Prelude.{◌≡◌, ◌↔◌, IfSome, IsTrue, List, Some, map, slice_get, ℕ}, Option.{option_map}};
ghost use Rattle.std.specs.String.{string_bytes};
ghost use Rattle.dimacs_jobs.specs.Jobs.{texts_of};
ghost use Rattle.dimacs_explained.specs.{inside.Retold.{run_texts}, inside.Texts.{Agree, IsFirst, Stands, three}};

use dimacs_jobs::{Job, name_at};
use dimacs_lines::MemorySource;
use dimacs_quote::Reopen;
use dimacs_runs::MemoryTexts;

/// Texts by the names of their files: as many as `read` were read, the others were made.
#[derive(Drop)]
pub(crate) struct NamedTexts<'a> {
    names: &'a [String],
    read: usize,
    texts: MemoryTexts<'a>,
}

impl<'a> NamedTexts<'a> {
    /// The texts of a run of this job over the first three texts, which made the others.
    pub(crate) fn new(
        job: Job<'a>,
        first: &'a [u8],
        second: &'a [u8],
        third: &'a [u8],
        made: &'a [u8],
        more: &'a [u8],
    ) -> NamedTexts<'a>
        ensures names { result.names.now ≡ job.entry.files.now }
        ensures read { result.read ≡ (texts_of job.entry.verb).read }
        ensures texts { three result.texts ≡ run_texts (texts_of job.entry.verb).read first.now second.now third.now made.now more.now }
    {
        let read = job.verb.texts().read;
        let (second, third) = match read {
            1 => (made, more),
            2 => (second, made),
            _ => (second, third),
        };
        NamedTexts {
            names: job.files,
            read,
            texts: MemoryTexts {
                first,
                second,
                third,
            },
        }
    }

    /// Whether each text that was read from a file with this name is this one.
    fn agree(&self, name: &str, text: &[u8]) -> bool
        ensures { IsTrue result → Agree self.now.read (map string_bytes self.now.names.now) (three self.now.texts) name.now text.now }
    {
        for place in 0..self.read {
            if is_at(self.names, place, name) && !is_text(self.texts, place, text) {
                return false;
            }
        }
        true
    }
}

/// A name that stands for two texts that were read, which differ, can't be read again.
impl<'a> Reopen for NamedTexts<'a> {
    type Input = MemorySource<'a>;

    ghost reopens = { λ s name text. (bytes : List ℕ) × (text ≡ Some bytes) × Stands (map string_bytes s.names.now) s.read (three s.texts) name bytes };

    fn open(&self, name: &str) -> Option<MemorySource<'a>> {
        let place = place_of(self.names, name)?;
        let text = text_at(self.texts, place)?;
        if self.agree(name, text) {
            Some(MemorySource::new(text))
        } else {
            None
        }
    }
}

/// The first place of a name, from 0.
fn place_of(names: &[String], name: &str) -> Option<usize>
    ensures { IfSome result (IsFirst (map string_bytes names.now) name.now) }
{
    for place in 0..names.len() {
        if is_at(names, place, name) {
            return Some(place);
        }
    }
    None
}

/// Whether the name at this place, from 0, is this one.
fn is_at(names: &[String], place: usize, name: &str) -> bool
    ensures { IsTrue result ↔ (slice_get (map string_bytes names.now) place ≡ Some name.now) }
{
    match name_at(names, place) {
        Some(it) => it == name,
        None => false,
    }
}

/// Whether the text at this place is this one.
fn is_text(texts: MemoryTexts<'_>, place: usize, text: &[u8]) -> bool
    ensures { IsTrue result → slice_get (three texts.entry) place ≡ Some text.now }
{
    match text_at(texts, place) {
        Some(it) => it == text,
        None => false,
    }
}

/// The text at this place, from 0.
fn text_at(texts: MemoryTexts<'_>, place: usize) -> Option<&[u8]>
    ensures { option_map (λ text. text.now) result ≡ slice_get (three texts.entry) place }
{
    match place {
        0 => Some(texts.first),
        1 => Some(texts.second),
        2 => Some(texts.third),
        _ => None,
    }
}
