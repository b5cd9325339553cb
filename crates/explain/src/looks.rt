//! What a file that is no netlist looks like.

use std::fmt;

/// What a file looks like, by its first bytes.
#[derive(Clone, Copy, Debug, PartialEq, Eq)]
pub(crate) enum FileLook {
    Empty,
    ByteOrderMark,
    /// By the program of this name.
    Compressed(&'static str),
    Verilog,
    Liberty,
}

/// First bytes that show by themselves what a file is: the magic numbers of compressed files, and the byte order marks
/// of UTF-8 and UTF-16.
static MARKS: [(&[u8], FileLook); 7] = [
    (b"\x1f\x8b", FileLook::Compressed("gzip")),
    (b"\xfd7zXZ\x00", FileLook::Compressed("xz")),
    (b"BZh", FileLook::Compressed("bzip2")),
    (b"\x28\xb5\x2f\xfd", FileLook::Compressed("zstd")),
    (b"\xef\xbb\xbf", FileLook::ByteOrderMark),
    (b"\xff\xfe", FileLook::ByteOrderMark),
    (b"\xfe\xff", FileLook::ByteOrderMark),
];

/// The words with which a text of Verilog or of Liberty begins.
static WORDS: [(&[u8], FileLook); 6] = [
    (b"module", FileLook::Verilog),
    (b"`timescale", FileLook::Verilog),
    (b"`define", FileLook::Verilog),
    (b"`include", FileLook::Verilog),
    (b"(*", FileLook::Verilog),
    (b"library", FileLook::Liberty),
];

impl FileLook {
    /// What a file looks like, where its first bytes show it.
    pub(crate) fn of(bytes: &[u8]) -> Option<FileLook> {
        if bytes.is_empty() {
            return Some(FileLook::Empty);
        }
        match look_among(&MARKS, bytes) {
            Some(look) => Some(look),
            None => look_among(&WORDS, text_after_comments(bytes)),
        }
    }

    /// Whether its lines say something to people.
    pub(crate) fn is_text(self) -> bool {
        matches!(self, FileLook::Verilog | FileLook::Liberty)
    }
}

/// What it is, and what to do about it.
impl fmt::Display for FileLook {
    fn fmt<W: fmt::Write>(&self, f: &mut fmt::Formatter<W>) -> fmt::Result {
        match self {
            FileLook::Empty => f.write_str("the file is empty"),
            FileLook::ByteOrderMark => f.write_str(
                "the file begins with a byte order mark: write it without one, as ASCII or UTF-8",
            ),
            FileLook::Compressed(program) => write!(
                f,
                "this looks like a file compressed by {program}: `{program} -dc F > G`"
            ),
            FileLook::Verilog => f.write_str(
                "this looks like Verilog: `yosys -p 'read_verilog F; synth -flatten; write_blif G'`",
            ),
            FileLook::Liberty => f.write_str(
                "this looks like a Liberty library, not a netlist: of a cell, `yosys -p 'read_liberty F; \
                 prep -top CELL; techmap; write_blif G'`",
            ),
        }
    }
}

fn look_among(table: &[(&[u8], FileLook)], bytes: &[u8]) -> Option<FileLook> {
    for (mark, look) in table {
        if bytes.starts_with(mark) {
            return Some(*look);
        }
    }
    None
}

/// The text after blanks, line feeds and comments, as Verilog and Liberty have them.
fn text_after_comments(text: &[u8]) -> &[u8] {
    let mut rest = text;
    // each turn but the last takes a byte at least
    for _ in 0..=text.len() {
        let after = after_comment(rest.trim_ascii_start());
        if after.len() == rest.len() {
            return rest;
        }
        rest = after;
    }
    rest
}

/// The text after the comment with which it begins, if it begins with one.
fn after_comment(text: &[u8]) -> &[u8] {
    if text.starts_with(b"//") {
        return after_first(text, b"\n");
    }
    if text.starts_with(b"/*") {
        return after_first(&text[2..], b"*/");
    }
    text
}

/// The text after the first place where a mark stands, or none of it.
fn after_first<'a>(text: &'a [u8], mark: &[u8]) -> &'a [u8] {
    for at in 0..text.len() {
        let rest = &text[at..];
        if rest.starts_with(mark) {
            return rest.get(mark.len()..).unwrap_or(&[]);
        }
    }
    &[]
}
