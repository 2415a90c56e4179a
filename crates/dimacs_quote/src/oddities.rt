//! Recognises files that are no texts, or texts of another kind.

use crate::quote::text_at;
use dimacs_records::TextKind;

/// What a file is whose first line shows that it isn't a plain text, and what to do about it.
pub(crate) fn oddity(first: &[u8]) -> Option<&'static str> {
    Some(match first {
        [0x1f, 0x8b, ..] => "is compressed by gzip: give <(zcat FILE) in its place",
        [b'B', b'Z', b'h', ..] => "is compressed by bzip2: give <(bzcat FILE) in its place",
        [0xfd, b'7', b'z', b'X', ..] => "is compressed by xz: give <(xzcat FILE) in its place",
        [0x28, 0xb5, 0x2f, 0xfd, ..] => "is compressed by zstd: give <(zstdcat FILE) in its place",
        [b'P', b'K', 3, 4, ..] =>
            "is a zip archive, as those of office programs are: save its text alone",
        [0xef, 0xbb, 0xbf, ..] => "begins with a byte order mark (EF BB BF): write it without one",
        [a, b, 0, 0, ..] | [0, 0, b, a, ..] if *a > 0 && matches!(b, 0 | 0xfe) =>
            "looks like UTF-32: write it in ASCII or UTF-8",
        [0xff, 0xfe, ..] | [0xfe, 0xff, ..] => "is in UTF-16: write it in ASCII or UTF-8",
        [a, 0, b, 0, ..] | [0, a, 0, b, ..] if *a > 0 && *b > 0 =>
            "looks like UTF-16: write it in ASCII or UTF-8",
        _ => return None,
    })
}

/// Whether a line of a text has a carriage return before its last byte. If all lines of a file end by one, the file is a
/// single line here.
pub(crate) fn has_lone_return(line: &[u8]) -> bool {
    match line.split_last() {
        Some((_, front)) => front.contains(&b'\r') && !front.contains(&0),
        None => false,
    }
}

/// The kind of a text that begins with this line, if it shows.
pub(crate) fn kind_of(line: &[u8]) -> Option<TextKind> {
    match (text_at(line, 1), text_at(line, 2)) {
        (b"s" | b"f", _) => Some(TextKind::Solution),
        (b"p", b"max") => Some(TextKind::Max),
        (b"p", b"min") => Some(TextKind::Min),
        (b"p", b"sp") => Some(TextKind::Graph),
        (b"p", b"aux") if matches!(text_at(line, 4), b"ss" | b"p2p") => Some(TextKind::Queries),
        (b"p", b"cut") => Some(TextKind::Cut),
        (b"p", b"pot") => Some(TextKind::Potentials),
        (b"p", b"dist") => Some(TextKind::Labels),
        (b"p", b"distances") => Some(TextKind::Distances),
        _ => None,
    }
}

/// What a text that begins with this line is, if it is of no kind here.
pub(crate) fn unread_kind(line: &[u8]) -> Option<&'static str> {
    match (text_at(line, 1), text_at(line, 2)) {
        (b"p", b"edge" | b"col") => Some("a graph to be coloured, which is no kind of text here"),
        (b"p", b"cnf") => Some("a formula (cnf), which is no kind of text here"),
        (b"p", b"asn") => Some(
            "an assignment problem, which a min text states with supplies 1 and -1, LOW 0 and CAP 1",
        ),
        (b"p", b"aux") if matches!(text_at(line, 4), b"co") => Some(
            "coordinates (co), which are no kind of text here",
        ),
        _ => None,
    }
}
