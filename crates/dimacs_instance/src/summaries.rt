//! Summaries: what `show` prints about an instance, read without keeping its arcs.

ghost use Rattle.std.specs.Prelude.{◌≡◌, ℕ, List, Some};
ghost use Rattle.dimacs_lines.specs.{Lines.{lines}, Puts.{Puts}};
ghost use Rattle.dimacs_records.specs.{declared.kinds.TextKind.{TextKind}, Faults.{Fault}, Readings.{CountsRead}};
ghost use Rattle.dimacs_instance.specs.Summaries.{ReadsSummary};

mod graph;
mod max;
mod min;

use dimacs_lines::{DeviceFault, Sink, Source};
use dimacs_records::{ReadError, TextKind};
pub use graph::{GraphNodesReading, GraphSummary};
pub(crate) use max::MaxCount;
pub use max::{MaxNodesReading, MaxSummary};
pub use min::{MinNodes, MinNodesReading, MinSummary};
use std::alloc::Global;

/// The summary of an instance: enough to print the line about it.
pub trait Summary: Drop {
    ghost kind: { TextKind };

    ghost Content: { Type 0 };

    /// This is the summary of a value.
    ghost sums_up: { Self → Content → Type 0 };

    ghost spells: { List ℕ → Content → Type 0 };

    ghost shown: { Content → List ℕ };

    /// The line about a value with this summary.
    ghost line: { Self → List ℕ };

    /// The kind of text.
    fn kind() -> TextKind
        ensures kind { result ≡ kind }
        ensures enough { (summary : Self) (value : Content) → sums_up summary value → line summary ≡ shown value };

    /// Reads a text and keeps only its summary.
    fn read<S: Source>(alloc: Global, source: &mut S) -> Result<Self, ReadError>
        ensures reads { (bytes : List ℕ) → S.coming source.old ≡ Some bytes → ReadsSummary sums_up (spells bytes) (Fault kind (lines bytes)) result }
        ensures faults { CountsRead result (S.faults source.old) (S.faults source.new) };

    /// Writes the line about the value.
    fn show<K: Sink>(&self, sink: &mut K) -> Result<(), DeviceFault>
        ensures puts { Puts result (K.seen sink.old) (line self.now) (K.seen sink.new) };
}
