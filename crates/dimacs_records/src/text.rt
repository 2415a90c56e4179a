//! What all kinds of text have in common.

ghost use Rattle.std.specs.Prelude.{◌≡◌, ℕ, List, Some, IfOk};
ghost use Rattle.dimacs_lines.specs.{Lines.{lines}, Puts.{Puts}};
ghost use Rattle.dimacs_records.specs.{declared.kinds.TextKind.{TextKind}, Faults.{Fault}, Readings.{CountsRead}};
ghost use Rattle.dimacs_records.specs.Texts.{ReadsAs};

use crate::faults::ReadError;
use crate::kinds::TextKind;
use dimacs_lines::{DeviceFault, Sink, Source};
use std::alloc::Global;

/// A value that texts of one kind spell: it is written in the canonical form, and shown on one line.
pub trait Writable {
    /// The kind of text.
    ghost kind: { TextKind };

    /// The mathematical value.
    ghost Content: { Type 0 };

    /// The mathematical value of this one, whatever the capacities of its lists.
    ghost content: { Self → Content };

    /// Which bytes spell which value.
    ghost spells: { List ℕ → Content → Type 0 };

    /// What holds of every value that was read.
    ghost lawful: { Self → Type 0 } = { λ value. Unit {0} };

    /// The canonical text of a value.
    ghost canonical: { Content → List ℕ };

    /// The line that `show` writes.
    ghost shown: { Content → List ℕ };

    /// The kind of text, as a value.
    fn kind() -> TextKind
        ensures { result ≡ kind };

    /// Writes the canonical text of the value.
    fn write<K: Sink>(&self, sink: &mut K) -> Result<(), DeviceFault>
        ensures puts { Puts result (K.seen sink.old) (canonical (content self.now)) (K.seen sink.new) };

    /// Writes one line about the value, which begins with `i`.
    fn show<K: Sink>(&self, sink: &mut K) -> Result<(), DeviceFault>
        ensures puts { Puts result (K.seen sink.old) (shown (content self.now)) (K.seen sink.new) };
}

/// A value that is read from a text, too.
pub trait Text: Writable + Drop {
    /// Reads a whole text: its value, or its first fault.
    fn read<S: Source>(alloc: Global, source: &mut S) -> Result<Self, ReadError>
        ensures reads { (bytes : List ℕ) → S.coming source.old ≡ Some bytes
            → ReadsAs Self.content (Self.spells bytes) (Fault Self.kind (lines bytes)) result }
        ensures faults { CountsRead result (S.faults source.old) (S.faults source.new) }
        ensures lawful { IfOk result (λ value. Self.lawful value) };
}
