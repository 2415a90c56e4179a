//! Files that a run writes where this is likely a slip: one that it reads, or wrote before, or whose name looks like an
//! option.

ghost use Rattle.std.specs.Prelude.{ℕ, ◌≡◌, ◌++◌, Contains, IfNone, IfSome, OnSome, Some, drop, map, slice_get, take};
ghost use Rattle.std.specs.String.{string_bytes};
ghost use Rattle.dimacs_jobs.specs.Jobs.{names_written};
ghost use Rattle.dimacs_usage.specs.Slips.{HasSlip, IsSlip, IsWrong, IsWrongAt};
ghost use Rattle.dimacs_usage.specs.inside.Slips.{IsFirst, IsSlipAs, IsWrongAs, IsWrongBy};

use crate::plan::{first_file, kept_count};
use crate::usage::Command;
use dimacs_jobs::Job;
use dimacs_quote::Shown;
use std::alloc::{AllocError, Global};

/// A file that a run writes by a slip.
#[derive(Clone, Copy)]
pub struct Slip<'a> {
    /// Its place among the files that the run writes.
    place: usize,
    name: &'a str,
    kind: SlipKind,
}

#[derive(Clone, Copy)]
enum SlipKind {
    /// The run reads this file, the one at this place among its files.
    Read(usize),
    /// The run writes this file already, the one at this place among those that it writes.
    Written(usize),
    /// The name looks like an option.
    LikeOption,
}

impl<'a> Slip<'a> {
    /// The first slip of a run. `same` has for each of its words the place of the first that names the same regular file,
    /// or its own, as for a file that isn't there yet.
    pub fn of(job: Job<'a>, explains: bool, same: &[u32]) -> Option<Slip<'a>>
        ensures slip { IfSome result (λ slip. IsFirst (IsSlip job.entry explains same.now) (names_written job.entry) slip.name.now) }
        ensures kind { IfSome result (IsSlipAs job.entry explains same.now) }
        ensures no_slip { IfNone result (¬ HasSlip job.entry explains same.now) }
    {
        let files = after(same, first_file(job, explains));
        let read = job.names_read().len();
        let kept = front(files, kept_count(job.verb, read));
        first_wrong(kept, job.names_written(), after(files, read))
    }

    /// What is wrong, in a line without its end. The words of the run name the files.
    pub fn line(self, alloc: Global, job: Job<'_>, words: &[String]) -> Result<String, AllocError> {
        let read = job.names_read().len();
        let target = usage_word(words, read.saturating_add(self.place));
        let name = Shown(self.name);
        let other = match self.kind {
            SlipKind::LikeOption => {
                return format!(in alloc;
                    "{target} looks like an option: {name}; ./{name} names a file"
                );
            }
            SlipKind::Read(place) => usage_word(words, place),
            SlipKind::Written(place) => usage_word(words, read.saturating_add(place)),
        };
        format!(in alloc; "{other} and {target} are the same file: {name}")
    }
}

/// The word of the usage text for the file at this place among those of a run.
fn usage_word(words: &[String], place: usize) -> &'static str {
    match Command::among(words) {
        Some(command) => command.file(place),
        None => "FILE",
    }
}

/// The first of these files that isn't to be written. They have these numbers.
fn first_wrong<'a>(kept: &[u32], names: &'a [String], numbers: &[u32]) -> Option<Slip<'a>>
    ensures wrong { IfSome result (λ slip. IsFirst (IsWrongAt kept.now (map string_bytes names.now) numbers.now) (map string_bytes names.now) slip.name.now) }
    ensures kind { IfSome result (IsWrongAs kept.now (map string_bytes names.now) numbers.now) }
    ensures none_wrong { IfNone result ((place : ℕ) → ¬ IsWrongAt kept.now (map string_bytes names.now) numbers.now place) }
{
    for (place, name) in names.iter().enumerate() {
        let name = name.as_str();
        let written = front(numbers, place);
        if let Some(kind) = kind_of(kept, written, name, number_at(numbers, place)) {
            return Some(Slip { place, name, kind });
        }
    }
    None
}

/// Why a file with this name and this number isn't to be written, if it isn't.
#[tactic(auto, using(crate::proofs::SlipLemmas::written_too))]
fn kind_of(kept: &[u32], written: &[u32], name: &str, number: Option<u32>) -> Option<SlipKind>
    ensures wrong { OnSome result (IsWrong (kept.now ++ written.now) name.now number) }
    ensures not_wrong { IfNone result (¬ IsWrong (kept.now ++ written.now) name.now number) }
    ensures kind { IfSome result (IsWrongBy kept.now written.now name.now number) }
{
    if name.starts_with("--") {
        return Some(SlipKind::LikeOption);
    }
    let number = number?;
    match place_of(kept, number) {
        Some(place) => Some(SlipKind::Read(place)),
        None => Some(SlipKind::Written(place_of(written, number)?)),
    }
}

/// The place of a number.
fn place_of(numbers: &[u32], number: u32) -> Option<usize>
    ensures contained { OnSome result (Contains numbers.now number) }
    ensures not_contained { IfNone result (¬ Contains numbers.now number) }
    ensures place { IfSome result (λ place. slice_get numbers.now place ≡ Some number) }
{
    numbers.iter().position(|it| *it == number)
}

/// The number at this place.
fn number_at(numbers: &[u32], place: usize) -> Option<u32>
    ensures { result ≡ slice_get numbers.now place }
{
    numbers.get(place).copied()
}

/// The first of these numbers, at most so many.
fn front(numbers: &[u32], count: usize) -> &[u32]
    ensures { result.now ≡ take count numbers.now }
{
    &numbers[..count.min(numbers.len())]
}

/// These numbers without the first ones, so many.
fn after(numbers: &[u32], count: usize) -> &[u32]
    ensures { result.now ≡ drop count numbers.now }
{
    numbers.get(count..).unwrap_or_default()
}
