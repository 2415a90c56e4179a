//! The records that lines spell, and the driver that reads a whole text into a value.
//!
//! Two tables define a kind of text: the forms of its lines, and the reasons to refuse it. `record` reads a line by the
//! first. A `Reading` takes the records, and refuses by the second. `read_text` reads a text with any `Reading`. A
//! contract has a text as its lines, and says which value they spell, or which fault is the first.
#![tactic(auto)]

mod canonical;
mod counted;
mod driver;
mod faults;
mod field_reader;
mod kinds;
mod laws;
mod lines;
mod order;
mod plain;
mod printed;
mod reading;
mod reasons;
mod records;
mod text;

pub use canonical::{
    put_record, put_sparse_text, put_text, write_lines, write_record, write_sparse_lines,
};
pub use counted::{Builder, CountedReading, read_counted};
pub use driver::{end_text, read_records, read_text};
pub use faults::{At, LineFault, ReadError, TakeError};
pub use field_reader::{MAX_COUNT, MAX_NODES};
pub use kinds::TextKind;
pub use laws::{canonical_texts, no_fault, one_fault};
pub use lines::record;
pub use order::{Context, Declared, test_end, test_record};
pub use printed::{Part, put_line, write_line};
pub use reading::Reading;
pub use reasons::Reason;
pub use records::{End, QueryKind, Record};
pub use text::{Text, Writable};
