//! Files and the standard output. No contract knows their contents: `coming` and `accepted` are `None`. The clauses
//! `bytes` are for readers and writers whose bytes are known.

ghost use Rattle.std.specs.{Prelude.{◌≡◌, ◌≤◌, None, Some, length, IfOk}, Io.KnownBytes.{ReadConsumes, WriteAppends}};
ghost use Rattle.dimacs_lines.specs.Devices.{CountsFault, CountsPut, NamesReason, one_more};

use crate::device::{DeviceFault, Sink, Source};
use std::io;
use std::io::{ErrorKind, Printer, Read, Write};
use std::marker::Model;

/// Input from an opened file, or from any reader.
pub type FileSource<R> = FileDevice<R>;

/// Output to a created file, or to any writer, without a buffer.
pub type FileSink<W> = FileDevice<W>;

/// Output to the standard output: `FileSink::new(io::writer(rt))`.
pub type StdoutSink<'a, P> = FileSink<Printer<'a, P>>;

/// A file, reader or writer as a source or sink. It counts errors and keeps the last one.
#[derive(Drop)]
pub struct FileDevice<F> {
    file: F,
    faults: u64,
    reason: Option<io::Error>,
}

impl<F> Model for FileDevice<F> {
    ghost use Rattle.dimacs_lines.specs.Devices.{OverFile};

    ghost Value = { OverFile F };

    ghost view = { λ d. record { file = d.file; faults = d.faults; reason = d.reason } };
}

impl<F> FileDevice<F> {
    /// Wraps an open file.
    pub fn new(file: F) -> FileDevice<F>
        ensures { result ≡ record { file = file; faults = 0; reason = None } }
    {
        FileDevice {
            file,
            faults: 0,
            reason: None,
        }
    }

    /// The system's error of the last call that failed, if any failed.
    pub fn reason(&self) -> Option<io::Error>
        ensures { result ≡ self.now.reason }
    {
        self.reason
    }

    /// How many calls failed so far, modulo 2^64.
    pub fn faults(&self) -> u64
        ensures { result ≡ self.now.faults }
    {
        self.faults
    }

    /// Counts and keeps an error.
    fn fail(&mut self, error: io::Error) -> DeviceFault
        ensures { self.new ≡ record { file = self.old.file; faults = one_more self.old.faults; reason = Some error } }
    {
        self.faults = self.faults.wrapping_add(1);
        self.reason = Some(error);
        DeviceFault
    }
}

impl<R: Read> Source for FileDevice<R> {
    ghost coming = { λ s. None };

    ghost faults = { λ s. s.faults };

    fn pull(&mut self, into: &mut [u8]) -> Result<usize, DeviceFault>
        ensures room { IfOk result (λ count. count ≤ length into.old) }
        ensures bytes { ReadConsumes (R.remaining self.old.file) (R.remaining self.new.file) result into.new }
        ensures faults { CountsFault result self.old.faults self.new.faults }
        ensures reason { NamesReason result self.old.reason self.new.reason }
    {
        match read_some(&mut self.file, into) {
            Ok(count) => Ok(count),
            Err(error) => Err(self.fail(error)),
        }
    }
}

/// Reads once, and again after an interrupt by a signal.
fn read_some<R: Read>(reader: &mut R, into: &mut [u8]) -> io::Result<usize>
    ensures room { IfOk result (λ count. count ≤ length into.old) }
    ensures bytes { ReadConsumes (R.remaining reader.old) (R.remaining reader.new) result into.new }
{
    for _ in 0..u64::MAX {
        match reader.read(into) {
            Ok(count) => return Ok(count),
            Err(error) if error.kind() == ErrorKind::Interrupted => {}
            Err(error) => return Err(error),
        }
    }
    Err(io::Error::from(ErrorKind::Interrupted))
}

impl<W: Write> Sink for FileDevice<W> {
    ghost seen = { λ s. record { accepted = None; faults = s.faults } };

    fn put(&mut self, bytes: &[u8]) -> Result<usize, DeviceFault>
        ensures room { IfOk result (λ count. count ≤ length bytes.now) }
        ensures bytes { WriteAppends (W.contents self.old.file) (W.contents self.new.file) result bytes.now }
        ensures faults { CountsPut result bytes.now self.old.faults self.new.faults }
        ensures reason { NamesReason result self.old.reason self.new.reason }
    {
        match write_some(&mut self.file, bytes) {
            Ok(count) => Ok(count),
            Err(error) => Err(self.fail(error)),
        }
    }
}

/// Writes once, and again after an interrupt by a signal. To write nothing of some bytes is an error.
fn write_some<W: Write>(writer: &mut W, bytes: &[u8]) -> io::Result<usize>
    ensures room { IfOk result (λ count. count ≤ length bytes.now) }
    ensures progress { IfOk result (λ count. count ≡ 0 → length bytes.now ≡ 0) }
    ensures bytes { WriteAppends (W.contents writer.old) (W.contents writer.new) result bytes.now }
{
    for _ in 0..u64::MAX {
        match writer.write(bytes) {
            Ok(0) if !bytes.is_empty() => return Err(io::Error::from(ErrorKind::WriteZero)),
            Ok(count) => return Ok(count),
            Err(error) if error.kind() == ErrorKind::Interrupted => {}
            Err(error) => return Err(error),
        }
    }
    Err(io::Error::from(ErrorKind::Interrupted))
}
