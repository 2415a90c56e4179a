//! The texts of a run, by their files.

ghost use Rattle.std.specs.{Prelude.{◌≡◌, ◌⊎◌, [], ◌∷◌, Contains, Decides, Some, eqb, IfOk}, List.{starts_with}};
ghost use Rattle.dimacs_records.specs.declared.kinds.TextKind.TheVariants.{Distances};
ghost use Rattle.dimacs_quote.specs.{Texts.{IsFirstOf, certificates, claims, instances}, Typed.{usage_word}};
ghost use Rattle.dimacs_quote.specs.Typed as typed;

use crate::stop::{OrStop, Stop};
use dimacs_records::TextKind;

/// For what texts stand: so an explanation calls them.
#[derive(Clone, Copy, PartialEq, Eq)]
pub enum StandFor {
    /// Files.
    Files,
    /// Texts that are in no file.
    Texts,
    /// Arrays of a caller.
    Arrays,
}

/// A text of a run: its kind and its file.
#[derive(Clone, Copy)]
pub struct TextFile<'a> {
    /// The kind.
    pub kind: TextKind,
    /// The name of the file.
    pub file: &'a str,
    /// For what it stands.
    pub stands_for: StandFor,
}

impl<'a> TextFile<'a> {
    /// It can't be read again.
    pub fn unread(self) -> Stop<'a> {
        Stop::Unread(self.file)
    }

    /// Its word in the forms of commands.
    pub(crate) fn word(self) -> &'static str
        ensures { result.now ≡ usage_word self.entry.kind }
    {
        match self.kind {
            TextKind::Max | TextKind::Min => "INSTANCE",
            TextKind::Graph => "GRAPH",
            TextKind::Queries => "QUERY",
            TextKind::Solution => "SOLUTION",
            TextKind::Cut => "CUT",
            TextKind::Potentials => "POTENTIALS",
            TextKind::Labels => "LABELS",
            TextKind::Distances => "DISTANCES",
        }
    }

    /// Whether it is a pipe that this run alone has open.
    pub(crate) fn is_open_here(self) -> bool
        ensures { result ≡ typed.is_open_here self.entry.file.now }
    {
        let name = self.file;
        begins_with(name, "/dev/fd/")
            || begins_with(name, "/dev/stdin")
            || begins_with(name, "/proc/self/fd/")
    }

    /// Whether it is a file.
    pub fn is_file(self) -> bool {
        self.stands_for == StandFor::Files
    }

    /// Whether it stands for arrays of a caller.
    pub fn is_of_arrays(self) -> bool {
        self.stands_for == StandFor::Arrays
    }
}

/// What a run does with the files that it writes, or the flow that it reads.
#[derive(Clone, Copy, PartialEq, Eq)]
pub enum Purpose {
    /// It creates a file, if at all, once it has read the others.
    Decide,
    /// The same, and it deals the flow out to parallel arcs.
    Spread,
    /// It creates its files, or empties them, before it reads the others.
    Solve,
}

/// The texts that a run reads, and the files that it writes.
#[derive(Clone, Copy)]
pub struct Texts<'a> {
    /// For what they stand.
    pub stand_for: StandFor,
    purpose: Purpose,
    /// The only text of a run that has no other, and no files then.
    only: Option<TextFile<'a>>,
    kinds: &'static [TextKind],
    files: &'a [String],
    /// How many of the files, from the first one on, the run reads. It writes the others.
    read: usize,
}

impl<'a> Texts<'a> {
    /// Those of a run over these files, of these kinds. It reads the first ones, as many as `read`, and writes the others.
    pub fn new(
        stand_for: StandFor,
        purpose: Purpose,
        kinds: &'static [TextKind],
        files: &'a [String],
        read: usize,
    ) -> Texts<'a> {
        Texts {
            stand_for,
            purpose,
            only: None,
            kinds,
            files,
            read,
        }
    }

    /// The text that is converted or shown.
    pub fn one(stand_for: StandFor, kind: TextKind, file: &'a str) -> Texts<'a> {
        let mut texts = Texts::new(stand_for, Purpose::Decide, &[], &[], 0);
        texts.only = Some(texts.of_file(kind, file));
        texts
    }

    /// The text in this file.
    pub fn of_file(&self, kind: TextKind, file: &'a str) -> TextFile<'a> {
        TextFile {
            kind,
            file,
            stands_for: self.stand_for,
        }
    }

    /// The text in which a fault of this kind is.
    pub fn of_kind(&self, kind: TextKind) -> OrStop<'a, TextFile<'a>>
        ensures { IfOk result (λ text. (self.now.only ≡ Some text) ⊎ IsFirstOf (kind ∷ []) self.now text) }
    {
        match self.only {
            Some(text) => Ok(text),
            None => self.first_of(&[kind]),
        }
    }

    /// The instance.
    pub fn instance(&self) -> OrStop<'a, TextFile<'a>>
        ensures { IfOk result (λ text. IsFirstOf instances self.now text) }
    {
        self.first_of(&[TextKind::Max, TextKind::Min, TextKind::Graph])
    }

    /// Queries, a solution or distances; of a solver, what it writes.
    pub fn claim(&self) -> OrStop<'a, TextFile<'a>>
        ensures { IfOk result (λ text. IsFirstOf claims self.now text) }
    {
        self.first_of(&[TextKind::Queries, TextKind::Solution, TextKind::Distances])
    }

    /// The certificate, given or written.
    pub fn certificate(&self) -> OrStop<'a, TextFile<'a>>
        ensures { IfOk result (λ text. IsFirstOf certificates self.now text) }
    {
        self.first_of(&[TextKind::Cut, TextKind::Potentials, TextKind::Labels])
    }

    /// The text that is tested against the instance: the certificate, or distances.
    pub fn tested(&self) -> OrStop<'a, TextFile<'a>>
        ensures { IfOk result (λ text. IsFirstOf (Distances ∷ certificates) self.now text) }
    {
        self.first_of(&[
            TextKind::Distances,
            TextKind::Cut,
            TextKind::Potentials,
            TextKind::Labels,
        ])
    }

    fn first_of(&self, kinds: &[TextKind]) -> OrStop<'a, TextFile<'a>>
        ensures { IfOk result (λ text. IsFirstOf kinds.now self.now text) }
    {
        for place in 0..self.kinds.len() {
            let (kind, stands_for) = (self.kinds[place], self.stand_for);
            if is_one_of(kind, kinds) {
                return match self.files.get(place).map(String::as_str) {
                    Some(file) => Ok(TextFile {
                        kind,
                        file,
                        stands_for,
                    }),
                    None => Err(Stop::Done),
                };
            }
        }
        Err(Stop::Done)
    }

    /// The files, but for one that is alone.
    pub fn files(&self) -> &'a [String] {
        self.files
    }

    /// Those that the run reads.
    pub fn files_read(&self) -> &'a [String] {
        self.files.get(..self.read).unwrap_or_default()
    }

    fn files_written(&self) -> &'a [String] {
        self.files.get(self.read..).unwrap_or_default()
    }

    /// The file that the run may write once it has read the others.
    pub fn written(&self) -> Option<&'a str> {
        self.files_written().first().map(String::as_str)
    }

    /// The files that the run empties before it reads the others.
    pub fn emptied(&self) -> &'a [String] {
        match self.purpose {
            Purpose::Solve if self.stand_for == StandFor::Files => self.files_written(),
            _ => &[],
        }
    }

    /// Whether they stand for arrays of a caller.
    pub fn are_arrays(&self) -> bool {
        self.stand_for == StandFor::Arrays
    }

    /// Whether the run deals a flow out to parallel arcs.
    pub fn is_spread(&self) -> bool {
        self.purpose == Purpose::Spread
    }
}

fn is_one_of(kind: TextKind, kinds: &[TextKind]) -> bool
    ensures { Decides result (Contains kinds.now kind) }
{
    kinds.contains(&kind)
}

fn begins_with(name: &str, front: &str) -> bool
    ensures { result ≡ starts_with eqb name.now front.now }
{
    name.starts_with(front)
}
