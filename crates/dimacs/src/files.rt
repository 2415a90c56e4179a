//! The operating system's files.

ghost use Rattle.std.specs.Prelude.{◌≡◌, ◌↔◌, ◌∷◌, [], ◌==◌, if◌then◌else◌, not, None, Some, Err};
ghost use Rattle.std.specs.IoError.{error_kind};
ghost use Rattle.dimacs_lines.specs.Devices.{one_more};
ghost use Rattle.dimacs_runs.specs.Judgings.{CountsDevices};

use crate::kept::{Again, KeptTexts, ReadFile};
use dimacs_jobs::RunError;
use dimacs_lines::{FileSink, FileSource};
use dimacs_quote::Reopen;
use dimacs_runs::Files;
use std::fs::File;
use std::io::ErrorKind;
use std::{fs, io};

/// The operating system's files, by name. The contracts promise nothing about their content.
#[derive(Drop)]
pub struct SystemFiles<'a> {
    rt: &'a HostRuntime,
    faults: u64,
    /// Why the last file that failed did.
    reason: Option<io::Error>,
    /// The texts that can't be read twice, if they are kept.
    kept: Option<KeptTexts>,
}

impl<'a> SystemFiles<'a> {
    /// No file has failed yet. No text is kept.
    pub fn new(rt: &'a HostRuntime) -> SystemFiles<'a> {
        SystemFiles {
            rt,
            faults: 0,
            reason: None,
            kept: None,
        }
    }

    /// The same, but texts that can't be read twice are kept while they are read, to be read again.
    pub fn that_keep(rt: &'a HostRuntime) -> SystemFiles<'a> {
        SystemFiles {
            kept: Some(KeptTexts::new(rt.alloc())),
            ..SystemFiles::new(rt)
        }
    }

    /// Why the last file that failed did, if the operating system gave a reason.
    pub fn reason(&self) -> Option<io::Error> {
        self.reason
    }

    /// Counts a closed file as one fault if it had any; `reason` is that of its last. Returns whether it had any.
    fn count(&mut self, faults: u64, reason: Option<io::Error>) -> bool
        ensures failed { result ≡ not (faults == 0) }
        ensures fault { self.new.faults ≡ (if faults == 0 then self.old.faults else one_more self.old.faults) }
        ensures reason { self.new.reason ≡ (if faults == 0 then self.old.reason else reason) }
    {
        let failed = faults != 0;
        if failed {
            self.faults = self.faults.wrapping_add(1);
            self.reason = reason;
        }
        failed
    }

    /// Counts a file that couldn't be opened or created as a fault, unless memory ran out.
    pub fn refuse(&mut self, error: io::Error) -> RunError
        ensures fault { CountsDevices {X = Unit {0}} (Err result) (self.old.faults ∷ []) (self.new.faults ∷ []) }
        ensures memory { result ≡ RunError.Memory ↔ error_kind error ≡ ErrorKind.OutOfMemory }
        ensures reason { result ≡ RunError.Device → self.new.reason ≡ Some error }
    {
        if error.kind() == ErrorKind::OutOfMemory {
            return RunError::Memory;
        }
        self.faults = self.faults.wrapping_add(1);
        self.reason = Some(error);
        RunError::Device
    }
}

impl<'a> Files for SystemFiles<'a> {
    type Input = ReadFile;

    type Output = FileSink<File>;

    ghost holds = { λ s name. None };

    ghost empty = { None };

    ghost seen = { λ s. record { done = None; faults = s.faults } };

    fn open(&mut self, name: &str) -> Result<ReadFile, RunError> {
        let is_kept = self.kept.is_some() && !is_regular(self.rt, name);
        match File::open(self.rt, name) {
            Ok(file) if is_kept => Ok(ReadFile::new(file, Some(Vec::new(self.rt.alloc())))),
            Ok(file) => Ok(ReadFile::new(file, None)),
            Err(error) => Err(self.refuse(error)),
        }
    }

    fn create(&mut self, name: &str) -> Result<FileSink<File>, RunError> {
        match File::create(self.rt, name) {
            Ok(file) => Ok(FileSink::new(file)),
            Err(error) => Err(self.refuse(error)),
        }
    }

    fn close_input(&mut self, name: &str, file: ReadFile) -> bool {
        let failed = self.count(file.faults(), file.reason());
        if let Some(kept) = &mut self.kept {
            kept.add(name, file);
        }
        failed
    }

    fn close_output(&mut self, _name: &str, file: FileSink<File>) -> bool {
        self.count(file.faults(), file.reason())
    }
}

/// Regular files are opened again: a pipe is empty the second time, and opening it may block for ever.
impl<'a> Reopen for SystemFiles<'a> {
    type Input = Again;

    ghost reopens = { λ s name coming. coming ≡ None };

    fn open(&self, name: &str) -> Option<Again> {
        if let Some(text) = self.kept.as_ref().and_then(|kept| kept.text(name)) {
            return Some(text);
        }
        if !is_regular(self.rt, name) {
            return None;
        }
        let file = File::open(self.rt, name).ok()?;
        Some(Again::File(FileSource::new(file)))
    }
}

fn is_regular(rt: &HostRuntime, name: &str) -> bool {
    match fs::metadata(rt, name) {
        Ok(found) => found.is_file(),
        Err(_) => false,
    }
}
