//! Input and output: sources and sinks that may fail, lines, their fields, the numbers in fields, and buffered output.
//!
//! All other crates of `dimacs` read and write texts through this one. Lines come in order, with their numbers, however
//! the source cuts the text into pieces. A contract has a source as the bytes to come and a sink as the bytes that it
//! accepted, each with a count of its faults.
#![tactic(auto)]

mod decimals;
mod device;
mod digits;
mod files;
mod numbers;
mod output_buffer;
mod plain;
mod reader;
mod scan;
mod sinks;
mod sources;
mod split;

pub use device::{DeviceFault, Memory, Sink, Source, put_all};
pub use files::{FileSink, FileSource, StdoutSink};
pub use numbers::{NumberFault, WIDE, number, wide};
pub use output_buffer::OutputBuffer;
pub use plain::PlainNumbers;
pub use reader::{Lines, LinesError, MAX_HELD, MAX_LINE, MAX_LINES, Progress};
pub use scan::{Field, Fields, Scan, Token};
pub use sinks::{FlakySink, MemorySink};
pub use sources::{CutSource, FlakySource, MemorySource};
pub use split::fields;
