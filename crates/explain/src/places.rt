//! Lines of a text by their places.

ghost use Rattle.std.specs.Prelude.{◌≤◌, length};

use std::fmt;

/// Where a byte of a text stands.
#[derive(Clone, Copy, Debug, PartialEq, Eq)]
pub(crate) struct TextPlace {
    /// The byte's line, from 1.
    line: usize,
    /// The byte's column in that line, in bytes, from 1.
    column: usize,
}

/// As `LINE:COLUMN`.
impl fmt::Display for TextPlace {
    fn fmt<W: fmt::Write>(&self, f: &mut fmt::Formatter<W>) -> fmt::Result {
        let TextPlace { line, column } = *self;
        write!(f, "{line}:{column}")
    }
}

/// Where the byte at an offset stands, or the end of the text where it has no more.
pub(crate) fn place_of(text: &[u8], at: usize) -> TextPlace {
    let before = &text[..at.min(text.len())];
    TextPlace {
        line: count_lines(before).saturating_add(1),
        column: (before.len() - line_start(before)).saturating_add(1),
    }
}

/// The line in which an offset stands, without its line feed.
pub(crate) fn line_around(text: &[u8], at: usize) -> &[u8] {
    let at = at.min(text.len());
    let start = line_start(&text[..at]);
    let line = &text[start..];
    match line.iter().position(|byte| *byte == b'\n') {
        Some(end) => &line[..end],
        None => line,
    }
}

fn count_lines(text: &[u8]) -> usize {
    text.iter().filter(|byte| **byte == b'\n').count()
}

/// Where the last line of a text begins.
fn line_start(text: &[u8]) -> usize
    ensures { result ≤ length text.now }
{
    match text.iter().rposition(|byte| *byte == b'\n') {
        Some(end) => end + 1,
        None => 0,
    }
}
