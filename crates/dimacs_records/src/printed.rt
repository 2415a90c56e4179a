//! Writing lines of words and numbers.

ghost use Rattle.dimacs_lines.specs.{OutputBuffers.{Appends}, Puts.{Puts}};
ghost use Rattle.dimacs_records.specs.Printed.{after_blank, printed, printed_line};

use dimacs_lines::{DeviceFault, OutputBuffer, Sink};

/// A field after the first word of a printed line.
#[derive(Clone, Copy)]
pub enum Part<'a> {
    Word(&'a [u8]),
    Number(i64),
    Wide(i128),
}

/// Writes a line: a word, then the fields, each after one blank.
pub fn put_line<S: Sink>(sink: &mut S, word: &[u8], parts: &[Part<'_>]) -> Result<(), DeviceFault>
    ensures { Puts result (S.seen sink.old) (printed_line word.now parts.now) (S.seen sink.new) }
{
    let mut output = OutputBuffer::new();
    write_line(&mut output, sink, word, parts);
    output.finish(sink)
}

/// The same through a buffer.
pub fn write_line<S: Sink>(output: &mut OutputBuffer, sink: &mut S, word: &[u8], parts: &[Part<'_>])
    ensures { Appends (printed_line word.now parts.now) (S.seen sink.old) output.old (S.seen sink.new) output.new }
{
    output.write(sink, word);
    for part in parts {
        write_part(output, sink, part);
    }
    output.write(sink, b"\n");
}

#[inline(always)]
fn write_part<S: Sink>(output: &mut OutputBuffer, sink: &mut S, part: &Part<'_>)
    ensures { Appends (after_blank (printed part.now)) (S.seen sink.old) output.old (S.seen sink.new) output.new }
{
    output.write(sink, b" ");
    match part {
        Part::Word(word) => output.write(sink, word),
        Part::Number(n) => output.number(sink, *n),
        Part::Wide(n) => output.wide(sink, *n),
    }
}
