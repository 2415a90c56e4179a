//! Texts that can't be read twice, kept while they are read.

ghost use Rattle.std.specs.Prelude.{◌≡◌, None};

use dimacs_lines::{DeviceFault, FileSource, MemorySource, Source};
use std::alloc::{AllocError, Global};
use std::fs::File;
use std::io;

/// A text of more bytes isn't kept.
const MOST: usize = 64 << 20;

/// A file that is read, and its bytes so far if they are kept.
#[derive(Drop)]
pub struct ReadFile {
    file: FileSource<File>,
    bytes: Option<Vec<u8>>,
}

impl ReadFile {
    /// A file, and no bytes so far if they are kept. They are kept unless they are too many.
    pub fn new(file: File, bytes: Option<Vec<u8>>) -> ReadFile
        ensures { result.file.faults ≡ 0 }
    {
        let file = FileSource::new(file);
        ReadFile { file, bytes }
    }

    /// How many reads failed so far, modulo 2^64.
    pub fn faults(&self) -> u64
        ensures { result ≡ self.now.file.faults }
    {
        self.file.faults()
    }

    /// The system's error of the last read that failed, if any failed.
    pub fn reason(&self) -> Option<io::Error> {
        self.file.reason()
    }

    /// Keeps more bytes. If they are too many, or memory runs out, none is kept.
    fn keep(&mut self, more: &[u8])
        ensures { self.new.file ≡ self.old.file }
    {
        let Some(bytes) = &mut self.bytes else {
            return;
        };
        let fits = more.len() <= MOST.saturating_sub(bytes.len());
        if !fits || bytes.extend_from_slice(more).is_err() {
            self.bytes = None;
        }
    }
}

impl Source for ReadFile {
    ghost coming = { λ s. None };

    ghost faults = { λ s. s.file.faults };

    fn pull(&mut self, into: &mut [u8]) -> Result<usize, DeviceFault> {
        let count = self.file.pull(into)?;
        self.keep(into.get(..count).unwrap_or_default());
        Ok(count)
    }
}

/// A text that was kept whole.
#[derive(Drop)]
struct KeptText {
    name: String,
    bytes: Vec<u8>,
}

/// The texts that were kept.
#[derive(Drop)]
pub struct KeptTexts {
    texts: Vec<KeptText>,
}

impl KeptTexts {
    /// None yet.
    pub fn new(alloc: Global) -> KeptTexts {
        KeptTexts {
            texts: Vec::new(alloc),
        }
    }

    /// Adds a file that was read, if its bytes were kept and there is memory.
    pub fn add(&mut self, name: &str, file: ReadFile) {
        let ReadFile { file: _read, bytes } = file;
        if let Some(bytes) = bytes {
            let _ = self.push(name, bytes);
        }
    }

    fn push(&mut self, name: &str, bytes: Vec<u8>) -> Result<(), AllocError> {
        let name = String::from_str(*self.texts.allocator(), name)?;
        self.texts.push(KeptText { name, bytes })?;
        Ok(())
    }

    /// The text with this name from its start. None if it wasn't kept, memory runs out, or another has the name too: a
    /// pipe that was opened twice.
    pub fn text(&self, name: &str) -> Option<Again> {
        let mut named = self.texts.iter().filter(|text| text.name.as_str() == name);
        let text = named.next()?;
        if named.next().is_some() {
            return None;
        }
        let mut bytes = Vec::new(*self.texts.allocator());
        bytes.extend_from_slice(&text.bytes).ok()?;
        Some(Again::Kept { bytes, at: 0 })
    }
}

/// A text that is read again. If a read fails, it ends.
#[derive(Drop)]
pub enum Again {
    File(FileSource<File>),
    Kept { bytes: Vec<u8>, at: usize },
}

impl Source for Again {
    ghost coming = { λ s. None };

    ghost faults = { λ s. 0 };

    fn pull(&mut self, into: &mut [u8]) -> Result<usize, DeviceFault> {
        match self {
            Again::File(file) => Ok(file.pull(into).unwrap_or(0)),
            Again::Kept { bytes, at } => {
                let mut rest = MemorySource::new(bytes.get(*at..).unwrap_or_default());
                let count = rest.pull(into)?;
                *at = at.saturating_add(count);
                Ok(count)
            }
        }
    }
}
