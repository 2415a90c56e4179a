//! The files that a command names.

ghost use Rattle.std.specs.Prelude.{◌≡◌, ◌≢◌, ◌↔◌, [], ◌∷◌, List, ℕ, Option, IfOk, IsTrue};
ghost use Rattle.dimacs_runs.specs.Files.{FilesSeen, Sees, closed_read, closed_written, creating, opening};

use dimacs_jobs::RunError;
use dimacs_lines::{Sink, Source};

/// Opens, creates and closes files by name.
pub trait Files {
    /// A file opened for reading.
    type Input: Source + Drop;

    /// A file created for writing.
    type Output: Sink + Drop;

    /// The bytes that the file with a name holds, if they are known.
    ghost holds: { Self → List ℕ → Option (List ℕ) };

    /// What a file has accepted that was just created: no byte, if that is known.
    ghost empty: { Option (List ℕ) };

    /// The calls so far, and the number of those that failed.
    ghost seen: { Self → FilesSeen };

    /// Opens a file for reading. `Memory` if memory ran out, otherwise `Device` if that fails.
    fn open(&mut self, name: &str) -> Result<Self::Input, RunError>
        ensures holds { holds self.new ≡ holds self.old }
        ensures coming { IfOk result (λ file. Self.Input.coming file ≡ holds self.old name.now) }
        ensures faultless { IfOk result (λ file. Self.Input.faults file ≡ 0) }
        ensures seen { Sees (opening result name.now ∷ []) (seen self.old) (seen self.new) };

    /// Creates a file for writing, or empties an existing one. The same errors.
    fn create(&mut self, name: &str) -> Result<Self::Output, RunError>
        ensures empty { IfOk result (λ file. Self.Output.seen file ≡ record { accepted = empty; faults = 0 }) }
        ensures seen { Sees (creating result name.now ∷ []) (seen self.old) (seen self.new) };

    /// Closes a file. True if one of its reads failed.
    fn close_input(&mut self, name: &str, file: Self::Input) -> bool
        ensures failed { IsTrue result ↔ (Self.Input.faults file ≢ 0) }
        ensures seen { Sees (closed_read name.now (Self.Input.faults file) ∷ []) (seen self.old) (seen self.new) };

    /// Closes a file. True if one of its writes failed.
    fn close_output(&mut self, name: &str, file: Self::Output) -> bool
        ensures failed { IsTrue result ↔ ((Self.Output.seen file).faults ≢ 0) }
        ensures seen { Sees (closed_written name.now (Self.Output.seen file) ∷ []) (seen self.old) (seen self.new) };
}
