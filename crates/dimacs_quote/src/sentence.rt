//! Sentences, written with the values that they name.

ghost use Rattle.std.specs.Prelude.{◌≡◌};
ghost use Rattle.dimacs_quote.specs.{Typed.{GrowsByTyped}, declared.texts.TextFile.{TextFile}};
ghost use Rattle.dimacs_quote.specs.declared.sentence.Value.TheVariants.{Typed};

use crate::escape::write_name;
use crate::prose::{MARKS, Prose};
use crate::shell_word::shell_word;
use crate::texts::TextFile;

/// Writes a sentence to a text, with the next value for each `{}`. An array of values takes long to prove, so few go without.
#[macro_export]
macro_rules! say {
    ($out:expr; $sentence:expr) => { $out.push($sentence) };
    ($out:expr; $sentence:expr, $value:expr) => {
        $out.write_one($sentence, $crate::Value::from($value))
    };
    ($out:expr; $sentence:expr, $one:expr, $other:expr) => {
        $out.write_two($sentence, $crate::Value::from($one), $crate::Value::from($other))
    };
    ($out:expr; $sentence:expr $(, $value:expr)+) => {
        $out.write($sentence, &[$($crate::Value::from($value)),+])
    };
}

/// What a sentence names.
#[derive(Clone, Copy)]
pub enum Value<'a> {
    /// A word.
    Word(&'a str),
    /// The name of a file.
    File(&'a str),
    /// The file of a text as it is typed in a command; if it can't be, a word for it.
    Typed(TextFile<'a>),
    /// The number of an arc.
    Arc(u32),
    /// The ID of a node.
    Node(u32),
    /// The capacity of an arc.
    Cap(i64),
    /// Another number.
    Number(i128),
    /// A number in a sum, after its sign between blanks.
    Term(i128),
    /// A number after an operator: in brackets if it is negative.
    Operand(i128),
}

impl<'a> From<&'a str> for Value<'a> {
    fn from(word: &'a str) -> Value<'a> {
        Value::Word(word)
    }
}

impl<'a> From<TextFile<'a>> for Value<'a> {
    fn from(text: TextFile<'a>) -> Value<'a> {
        Value::File(text.file)
    }
}

impl<'a> From<u64> for Value<'a> {
    fn from(number: u64) -> Value<'a> {
        Value::Number(i128::from(number))
    }
}

impl<'a> From<i64> for Value<'a> {
    fn from(number: i64) -> Value<'a> {
        Value::Number(i128::from(number))
    }
}

impl<'a> From<i128> for Value<'a> {
    fn from(number: i128) -> Value<'a> {
        Value::Number(number)
    }
}

impl Prose {
    /// Adds a sentence, with the next value for each `{}`. `write!` does so too, but takes three times as long to prove.
    pub fn write(&mut self, sentence: &str, values: &[Value<'_>]) {
        let mut values = values.iter();
        for piece in sentence.split("{}") {
            self.push(piece);
            if let Some(value) = values.next() {
                self.write_value(*value);
            }
        }
    }

    /// Adds a sentence with one value.
    pub fn write_one(&mut self, sentence: &str, value: Value<'_>) {
        self.write(sentence, &[value]);
    }

    /// Adds a sentence with two values.
    pub fn write_two(&mut self, sentence: &str, one: Value<'_>, other: Value<'_>) {
        self.write(sentence, &[one, other]);
    }

    fn write_value(&mut self, value: Value<'_>)
        ensures { (text : TextFile) → value.entry ≡ Typed text → GrowsByTyped text self.old self.new }
    {
        let ([arc, node, mark_of_cap], out) = (MARKS, &mut self.text);
        let written = match value {
            Value::Word(word) => out.push_str(word),
            Value::File(name) => return write_name(self, name),
            Value::Typed(text) => return self.write_typed(text),
            Value::Arc(number) => write!(out, "{arc}{number}"),
            Value::Node(id) => write!(out, "{node}{id}"),
            Value::Cap(cap) => write!(out, "{mark_of_cap}{cap}"),
            Value::Term(number) if number < 0 => write!(out, " - {}", number.unsigned_abs()),
            Value::Term(number) => write!(out, " + {number}"),
            Value::Operand(number) if number < 0 => write!(out, "({number})"),
            Value::Number(number) | Value::Operand(number) => write!(out, "{number}"),
        };
        self.is_lost |= written.is_err();
    }

    /// Adds the file of a text as it is typed in a command; if it can't be, a word for it.
    pub fn write_typed(&mut self, text: TextFile<'_>)
        ensures { GrowsByTyped text.entry self.old self.new }
    {
        if text.file.is_empty() || text.is_open_here() {
            return self.push(text.word());
        }
        match shell_word(self.alloc, text.file) {
            Ok(Some(word)) => match str::from_utf8(&word) {
                Ok(word) => self.push(word),
                Err(_) => self.is_lost = true,
            },
            Ok(None) => self.push(text.word()),
            Err(_) => self.is_lost = true,
        }
    }
}

/// The ending of a noun after this number.
pub fn ending(count: u64) -> &'static str {
    if count == 1 { "" } else { "s" }
}
