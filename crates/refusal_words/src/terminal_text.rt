//! Text of files and names, as it may go to a terminal.

use std::{fmt, str};

/// How many columns of a line are shown: what a wide terminal shows in one line, or a usual one of 80 columns in two.
const COLUMNS: usize = 160;

/// What stands for a character that isn't shown.
const HIDDEN: char = '?';

/// The bytes of a name or of a line, without what a terminal could take for a command, and no longer than a terminal's
/// line.
#[derive(Clone, Copy)]
pub struct TerminalText<'a>(pub &'a [u8]);

impl<'a> TerminalText<'a> {
    pub fn name(name: &'a str) -> TerminalText<'a> {
        TerminalText(name.as_bytes())
    }
}

impl fmt::Display for TerminalText<'_> {
    fn fmt<W: fmt::Write>(&self, f: &mut fmt::Formatter<W>) -> fmt::Result {
        let TerminalText(bytes) = self;
        match str::from_utf8(bytes) {
            Ok(text) => show_text(text, f),
            Err(_) => show_bytes(bytes, f),
        }
    }
}

fn show_text<W: fmt::Write>(text: &str, f: &mut fmt::Formatter<W>) -> fmt::Result {
    for c in text.chars().take(COLUMNS) {
        f.write_char(if c.is_control() { HIDDEN } else { c })?;
    }
    Ok(())
}

/// Bytes that aren't text of UTF-8: of these the printable ones of ASCII are shown.
fn show_bytes<W: fmt::Write>(bytes: &[u8], f: &mut fmt::Formatter<W>) -> fmt::Result {
    for byte in bytes.iter().take(COLUMNS) {
        f.write_char(shown_byte(*byte))?;
    }
    Ok(())
}

fn shown_byte(byte: u8) -> char {
    if (byte >= b' ') & (byte <= b'~') {
        char::from(byte)
    } else {
        HIDDEN
    }
}
