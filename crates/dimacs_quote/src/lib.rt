//! Quotes lines of texts, and explains what is wrong with a text by itself, for `dimacs_explain`. What is written isn't
//! proved, but for the words of files in commands.
#![tactic(auto)]

mod escape;
mod fault_line;
mod faults;
mod forms;
mod items;
mod lines;
mod lookups;
mod numbers;
mod oddities;
mod page;
mod prose;
mod quote;
mod sentence;
mod shell_word;
mod stop;
mod texts;

pub use escape::Shown;
pub use forms::range_of;
pub use items::entry_arc;
pub use lines::TextLines;
pub use lookups::{Wanted, entry_between};
pub use page::{FoundLine, Page, Reopen};
pub use prose::Prose;
pub use sentence::{Value, ending};
pub use stop::{OrStop, Said, Stop};
pub use texts::{Purpose, StandFor, TextFile, Texts};
