//! Files that couldn't be read or written.

use refusal_words::TerminalText;
use std::fmt;

/// A file of which a call failed.
#[derive(Clone, Copy, Debug)]
pub struct FailedFile<'a> {
    pub name: &'a str,
    /// Why, in the system's words.
    pub reason: &'a str,
}

/// As `NAME: reason`.
impl fmt::Display for FailedFile<'_> {
    fn fmt<W: fmt::Write>(&self, f: &mut fmt::Formatter<W>) -> fmt::Result {
        let FailedFile { name, reason } = self;
        write!(
            f,
            "{}: {}",
            TerminalText::name(name),
            TerminalText::name(reason)
        )
    }
}
