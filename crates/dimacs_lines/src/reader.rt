//! The lines of a text that comes in pieces, with one bounded buffer.

ghost use Rattle.std.specs.Prelude.{◌≡◌, ◌≢◌, ◌≤◌, ◌<◌, ◌+◌, [], Some, None, Ok, Err, IfOk, IfErr, OnOk, IfSome, length, take, drop, slice_range, ◌-◌};
ghost use Rattle.std.specs.List.{position_or_len};
ghost use Rattle.dimacs_lines.specs.{Devices.{before_piece, CountsFault}, Lines.{is_end, AreWholeLines}};
ghost use Rattle.dimacs_lines.specs.Limits.{longest_line, most_lines, most_held, greatest_piece};
ghost use Rattle.dimacs_lines.specs.Reader.{NextLine, CountsDevice, text_left};
ghost use Rattle.dimacs_lines.specs.inside.Buffer.{PullsMore, IsEnough, IsInterruption, GivesHeld};
ghost use Rattle.dimacs_lines.specs.declared.reader.LinesError.{LinesError};
ghost use Rattle.dimacs_lines.specs.declared.reader.Progress.TheVariants.{Open, Ended, Failed};

use crate::device::{DeviceFault, Memory, Source};
use memchr::memchr;
use std::alloc::Global;
use std::marker::Model;
use thiserror::Error;

/// The most bytes of a line, without its end.
pub const MAX_LINE: usize = 1_048_576;

/// The most lines of a text.
pub const MAX_LINES: u64 = 1_000_000_000_000;

/// The most bytes that a reader of lines holds: a line of full length and one piece.
pub const MAX_HELD: usize = 1_114_112;

/// The most bytes that one call reads.
const PIECE: usize = 65_536;

/// Why there is no next line. The number is the line's, counted from 1.
#[derive(Clone, Copy, Debug, PartialEq, Eq, Error)]
pub enum LinesError {
    /// The text has more than `MAX_LINES` lines.
    #[error("line {0} is one too many")]
    TooMany(u64),
    /// The line has more than `MAX_LINE` bytes.
    #[error("line {0} is too long")]
    TooLong(u64),
    /// An I/O error.
    #[error("I/O error")]
    Device,
    /// Out of memory: the buffer couldn't grow.
    #[error("out of memory")]
    Memory,
}

/// Whether a reader of lines can give more.
#[derive(Clone, Copy)]
pub enum Progress {
    /// There may be more lines.
    Open,
    /// All lines were given.
    Ended,
    /// A call failed; each later one returns the same error.
    Failed(LinesError),
}

/// A reader of lines. It holds a part of the text in one buffer, and gives each line as a slice of it.
#[derive(Drop)]
pub struct Lines {
    buffer: Vec<u8>,
    line_start: usize,
    line_end: usize,
    next: usize,
    end: usize,
    given: u64,
    progress: Progress,
}

impl Model for Lines {
    ghost use Rattle.std.specs.Prelude.{slice_range, length};
    ghost use Rattle.dimacs_lines.specs.Reader.{State};
    ghost use Rattle.dimacs_lines.specs.inside.Buffer.{IsLaidOut};

    ghost Value = { State };

    ghost view = { λ s. record
        { held = slice_range s.buffer.items s.next s.end; given = s.given; line = slice_range s.buffer.items s.line_start s.line_end; progress = s.progress } };

    ghost invariant = { λ s. IsLaidOut s.line_start s.line_end s.next s.end s.given (length s.buffer.items) };
}

impl Lines {
    /// A reader at the start of a text. It allocates 128 KiB, and more only for longer lines.
    pub fn new(alloc: Global) -> Result<Lines, Memory>
        ensures { IfOk result (λ lines. lines ≡ record { held = []; given = 0; line = []; progress = Open }) }
    {
        Ok(Lines {
            buffer: Vec::from_elem(alloc, 0u8, 2 * PIECE)?,
            line_start: 0,
            line_end: 0,
            next: 0,
            end: 0,
            given: 0,
            progress: Progress::Open,
        })
    }

    /// The line that was given last, without its end. Empty before the first line, and after `skip`, the end or an
    /// error.
    pub fn line(&self) -> &[u8]
        ensures { result.now ≡ self.now.line }
    {
        &self.buffer[self.line_start..self.line_end]
    }

    /// The bytes that were read and aren't given yet.
    #[inline(always)]
    pub fn ahead(&self) -> &[u8]
        ensures held { result.now ≡ self.now.held }
        ensures bounded { length result.now ≤ most_held }
    {
        &self.buffer[self.next..self.end]
    }

    /// How many lines were given or skipped.
    #[inline(always)]
    pub fn given(&self) -> u64
        ensures { result ≡ self.now.given }
    {
        self.given
    }

    /// Skips the first `bytes` of `ahead`, which are `lines` whole lines with their ends. They count as given.
    #[inline(always)]
    pub fn skip(&mut self, bytes: usize, lines: u64)
        requires within { bytes ≤ length self.old.held }
        requires whole { AreWholeLines (take bytes self.old.held) lines }
        requires line_limit { self.old.given + lines ≤ most_lines }
        ensures { self.new ≡ record self.old { held = drop bytes self.old.held; given = self.old.given + lines; line = [] } }
    {
        self.line_start = 0;
        self.line_end = 0;
        self.next += bytes;
        self.given += lines;
    }

    /// The length of `ahead`.
    pub fn held(&self) -> usize
        ensures value { result ≡ length self.now.held }
        ensures bounded { result ≤ most_held }
    {
        self.end - self.next
    }

    /// Goes to the next line, whose bytes `line` then has. Returns its number, counted from 1; none after the last
    /// line. After an error, each call returns the same error.
    pub fn next_line<S: Source>(&mut self, source: &mut S) -> Result<Option<u64>, LinesError>
        ensures answer { self.old.progress ≡ Open → NextLine self.old self.new
            (text_left self.old (S.coming source.old)) (text_left self.new (S.coming source.new)) result }
        ensures faults { self.old.progress ≡ Open → CountsDevice result (S.faults source.old) (S.faults source.new) }

        // After the end or an error each call returns the same, and reads nothing.
        ensures ended { self.old.progress ≡ Ended → (result ≡ Ok None) × (self.new ≡ self.old) }
        ensures failed { (error : LinesError) → self.old.progress ≡ Failed error → (result ≡ Err error) × (self.new ≡ self.old) }
        ensures idle { self.old.progress ≢ Open → (S.coming source.new ≡ S.coming source.old) × (S.faults source.new ≡ S.faults source.old) }
    {
        match self.progress {
            Progress::Failed(error) => return Err(error),
            Progress::Ended => return Ok(None),
            Progress::Open => {}
        }
        match self.find_end(source) {
            Ok(length) => self.give_line(length),
            Err(error) => Err(self.fail(error)),
        }
    }

    /// Reads until the first line is whole, too long or the last. Returns its length.
    fn find_end<S: Source>(&mut self, source: &mut S) -> Result<usize, LinesError>
        ensures length { IfOk result (λ length. length ≡ position_or_len is_end self.new.held) }
        ensures left { OnOk result (text_left self.old (S.coming source.old) ≡ text_left self.new (S.coming source.new)) }
        ensures enough { OnOk result (IsEnough self.new.held (S.coming source.new)) }
        ensures given { self.new.given ≡ self.old.given }
        ensures progress { self.new.progress ≡ self.old.progress }
        ensures interruption { IfErr result IsInterruption }
        ensures faults { CountsDevice result (S.faults source.old) (S.faults source.new) }
    {
        let mut length = self.last_length(self.held());
        loop {
            if length < self.held() || length > MAX_LINE {
                return Ok(length);
            }
            let count = self.pull_more(source)?;
            if count == 0 {
                return Ok(length);
            }
            length += self.last_length(count);
        }
    }

    /// The length of the first line in the last `count` bytes held.
    fn last_length(&self, count: usize) -> usize
        requires { count ≤ length self.now.held }
        ensures length { result ≡ position_or_len is_end (drop (length self.now.held - count) self.now.held) }
        ensures within { result ≤ count }
    {
        line_length(&self.buffer[self.end - count..self.end])
    }

    /// Reads a piece and appends it to the held bytes. Returns its size; 0 means the end.
    fn pull_more<S: Source>(&mut self, source: &mut S) -> Result<usize, LinesError>
        requires { length self.old.held ≤ longest_line }
        ensures more { IfOk result (λ count. PullsMore self.old self.new (S.coming source.old) (S.coming source.new) count) }
        ensures end { result ≡ Ok 0 → IfSome (S.coming source.old) (λ bytes. bytes ≡ []) }
        ensures at_most_a_piece { IfOk result (λ count. count ≤ greatest_piece) }
        ensures bounded { OnOk result (length self.new.held ≤ most_held) }
        ensures given { self.new.given ≡ self.old.given }
        ensures progress { self.new.progress ≡ self.old.progress }
        ensures interruption { IfErr result IsInterruption }
        ensures faults { CountsDevice result (S.faults source.old) (S.faults source.new) }
    {
        let held = self.end - self.next;
        move_to_front(&mut self.buffer, self.next, self.end);
        self.line_start = 0;
        self.line_end = 0;
        self.next = 0;
        self.end = held;
        if grow(&mut self.buffer, held).is_err() {
            return Err(LinesError::Memory);
        }
        match pull_after(&mut self.buffer, held, source) {
            Ok(count) => {
                self.end += count;
                Ok(count)
            }
            Err(DeviceFault) => Err(LinesError::Device),
        }
    }

    /// Gives the first line held, which has this length.
    fn give_line(&mut self, length: usize) -> Result<Option<u64>, LinesError>
        requires { length ≡ position_or_len is_end self.old.held }
        ensures given { GivesHeld self.old self.new result }
    {
        if self.next == self.end {
            self.close(Progress::Ended);
            return Ok(None);
        }
        let number = self.given + 1;
        if number > MAX_LINES {
            return Err(self.fail(LinesError::TooMany(number)));
        }
        if length > MAX_LINE {
            return Err(self.fail(LinesError::TooLong(number)));
        }
        self.line_start = self.next;
        self.line_end = self.next + length;
        self.next = self.end.min(self.line_end + 1);
        self.given = number;
        Ok(Some(number))
    }

    /// Returns the error, now and from each later call.
    fn fail(&mut self, error: LinesError) -> LinesError
        ensures error { result ≡ error }
        ensures closed { self.new ≡ record self.old { line = []; progress = Failed error } }
    {
        self.close(Progress::Failed(error));
        error
    }

    /// Ends the reading, without a current line.
    fn close(&mut self, progress: Progress)
        ensures { self.new ≡ record self.old { line = []; progress = progress } }
    {
        self.line_start = 0;
        self.line_end = 0;
        self.progress = progress;
    }
}

fn line_length(bytes: &[u8]) -> usize
    ensures length { result ≡ position_or_len is_end bytes.now }
    ensures within { result ≤ length bytes.now }
{
    memchr(b'\n', bytes).unwrap_or(bytes.len())
}

fn move_to_front(buffer: &mut Vec<u8>, start: usize, end: usize)
    requires ordered { start ≤ end }
    requires within { end ≤ length buffer.old.items }
    ensures moved { take (end - start) buffer.new.items ≡ slice_range buffer.old.items start end }
    ensures length { length buffer.new.items ≡ length buffer.old.items }
{
    if start > 0 {
        buffer.copy_within(start..end, 0);
    }
}

/// Makes room after the held bytes. A full buffer grows to twice its size and a piece, up to `MAX_HELD`.
fn grow(buffer: &mut Vec<u8>, held: usize) -> Result<(), Memory>
    requires short { held ≤ longest_line }
    requires held { held ≤ length buffer.old.items }
    requires bounded { length buffer.old.items ≤ most_held }
    ensures room { OnOk result (held < length buffer.new.items) }
    ensures held_unchanged { take held buffer.new.items ≡ take held buffer.old.items }
    ensures no_shorter { length buffer.old.items ≤ length buffer.new.items }
    ensures bounded { length buffer.new.items ≤ most_held }
{
    if held < buffer.len() {
        return Ok(());
    }
    buffer.resize(MAX_HELD.min(2 * held + PIECE), 0)?;
    Ok(())
}

/// Reads a piece to right after the held bytes. Returns its size.
fn pull_after<S: Source>(
    buffer: &mut [u8],
    held: usize,
    source: &mut S,
) -> Result<usize, DeviceFault>
    requires { held < length buffer.old }
    ensures within { IfOk result (λ count. held + count ≤ length buffer.new) }
    ensures at_most_a_piece { IfOk result (λ count. count ≤ greatest_piece) }
    ensures given { IfOk result (λ count. S.coming source.old ≡ before_piece (take count (drop held buffer.new)) (S.coming source.new)) }
    ensures end { result ≡ Ok 0 → IfSome (S.coming source.old) (λ bytes. bytes ≡ []) }
    ensures held_unchanged { take held buffer.new ≡ take held buffer.old }
    ensures faults { CountsFault result (S.faults source.old) (S.faults source.new) }
{
    let room = buffer.len().min(held + PIECE);
    source.pull(&mut buffer[held..room])
}
