//! The lines of a text, however its source cuts it.

use crate::checks::same;
use crate::surface::spelling::spell_lines;
use dimacs_lines::{CutSource, FlakySource, Lines};
use std::test::Fail;

#[test]
fn lines_are_the_same_however_a_text_is_cut(rt: HostRuntime) -> Result<(), Fail> {
    let text = b"p sp 2 1\r\na 1 2 5\n\nc last".as_slice();
    let wanted = "1:p sp 2 1\r|2:a 1 2 5|3:|4:c last|end";
    for cut in 0..=text.len() {
        let sizes = [cut];
        let spelled = spell_lines(&rt, rt.alloc(), &mut CutSource::new(text, &sizes))?;
        same(&rt, "cut once", spelled.as_str(), wanted);
    }
    Ok(())
}

/// Text, size of its first piece, pull that fails, result. In the last two it is the pull after the one that finds the end.
static FAULTS: [(&[u8], usize, u64, &str); 8] = [
    (b"ab\ncd\nef", 8, 1, "Device"),
    (b"ab\ncd\nef", 1, 2, "Device"),
    (b"ab\ncd\nef", 3, 2, "1:ab|Device"),
    (b"ab\ncd\nef", 4, 2, "1:ab|Device"),
    (b"ab\ncd\nef", 7, 2, "1:ab|2:cd|Device"),
    (b"ab\ncd\nef", 8, 2, "1:ab|2:cd|Device"),
    (b"", 8, 2, "end"),
    (b"ab\ncd\n", 8, 3, "1:ab|2:cd|end"),
];

#[test]
fn readers_report_faults(rt: HostRuntime) -> Result<(), Fail> {
    for &(text, size, fail, wanted) in &FAULTS {
        let (sizes, fails) = ([size], [fail]);
        let mut source = FlakySource::new(text, &sizes, &fails);
        let spelled = spell_lines(&rt, rt.alloc(), &mut source)?;
        same(&rt, "a fault", spelled.as_str(), wanted);
    }
    Ok(())
}

#[test]
fn readers_hold_the_rest_of_a_piece(rt: HostRuntime) -> Result<(), Fail> {
    let mut source = CutSource::new(b"ab\ncd\nef\n", &[6, 1]);
    let mut lines = Lines::new(rt.alloc())?;
    for (given, held) in [(Some(1), 3), (Some(2), 0), (Some(3), 0), (None, 0)] {
        same(&rt, "a line", lines.next_line(&mut source), Ok(given));
        same(&rt, "held after it", lines.held(), held);
    }
    Ok(())
}
