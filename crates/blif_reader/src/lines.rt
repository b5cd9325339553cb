ghost use Rattle.std.specs.Prelude.{◌≡◌, ◌+◌, ◌<◌, ◌≤◌, [], length, reverse, take, true, false, IfNone, if◌then◌else◌};
ghost use Rattle.std.specs.List.{before_first, position_or_len, prefix_len};
ghost use Rattle.text_core.specs.Bytes.{is_blank};
ghost use Rattle.blif_reader.specs.JoinedLines.{lines_at, words_at, joined, line_words, content, trimmed};
ghost use Rattle.blif_reader.specs.JoinedLines.{is_comment_sign, ends_with_backslash, without_backslash, goes_on};
ghost use Rattle.blif_reader.specs.Reading.{words_left, lines_left, size_left, TakesWord, TakesLine};

use text_core::{Cursor, Span, is_blank, next_word};

/// Goes over the joined lines of a BLIF file from its front, word by word: `#` begins a comment, and a line that ends
/// with a backslash goes on on the next one.
#[derive(Drop)]
pub struct JoinedLines<'a> {
    /// What is left of the line that is being read, without its comment.
    line: Span<'a>,
    /// Whether that line goes on on the next one.
    goes_on: bool,
    /// The lines after it.
    rest: Cursor<'a>,
}

impl<'a> JoinedLines<'a> {
    /// At the front of a file.
    pub fn new(input: &'a [u8]) -> JoinedLines<'a>
        ensures words { words_left result ≡ [] }
        ensures lines { lines_left result
            ≡ joined (lines_at (record { bytes = input.now; at = 0 })) }
    {
        let mut rest = Cursor::new(input);
        let line = rest.take(0).unwrap();
        JoinedLines {
            line,
            goes_on: false,
            rest,
        }
    }

    /// The next word of the joined line that is being read, or None where none is left.
    pub fn next_word(&mut self) -> Option<Span<'a>>
        ensures word { TakesWord result
            (words_left self.old)
            (words_left self.new) }
        ensures lines { lines_left self.new ≡ lines_left self.old }
    {
        self.read_word()
    }

    // The next word, with what is left of the file: where there is none the line is at its end, and no byte comes back.
    fn read_word(&mut self) -> Option<Span<'a>>
        ensures word { TakesWord result
            (words_left self.old)
            (words_left self.new) }
        ensures lines { lines_left self.new ≡ lines_left self.old }
        ensures ended { IfNone result (self.new.goes_on ≡ false) }
        ensures shorter { length self.new.rest.bytes ≤ length self.old.rest.bytes }
    {
        'lines: loop {
            if let Some(word) = next_word(&mut self.line) {
                return Some(word);
            }
            if !self.goes_on {
                return None;
            }
            self.go_on();
        }
    }

    /// The first word of the next joined line that has one, or None where there is no such line.
    /// What is left of the line before is passed over.
    pub fn next_line(&mut self) -> Option<Span<'a>>
        ensures { TakesLine result (lines_left self.old)
            (words_left self.new)
            (lines_left self.new) }
    {
        self.pass_line();
        while let Some(line) = self.rest.next_line() {
            self.enter(line);
            if let Some(word) = self.read_word() {
                return Some(word);
            }
        }
        None
    }

    // Passes over the lines on which the one that is being read goes on.
    fn pass_line(&mut self)
        ensures lines { lines_left self.new ≡ lines_left self.old }
        ensures ended { self.new.goes_on ≡ false }
    {
        while self.goes_on {
            self.go_on();
        }
    }

    // Continues the line that is being read with the next one, if there is one.
    fn go_on(&mut self)
        requires { self.old.goes_on ≡ true }
        ensures words { words_at self.old.line ≡ [] → words_left self.new
            ≡ words_left self.old }
        ensures lines { lines_left self.new ≡ lines_left self.old }
        ensures fewer { size_left self.new < size_left self.old }
        ensures shorter { length self.new.rest.bytes ≤ length self.old.rest.bytes }
    {
        match self.rest.next_line() {
            Some(line) => self.enter(line),
            None => self.goes_on = false,
        }
    }

    // Begins to read a line.
    fn enter(&mut self, line: Span<'a>)
        ensures words { words_at self.new.line ≡ line_words line.entry }
        ensures goes_on { self.new.goes_on ≡ goes_on line.entry.bytes }
        ensures rest { self.new.rest ≡ self.old.rest }
    {
        let content = content(&line);
        self.goes_on = ends_with_backslash(content.bytes());
        self.line = without_backslash(&content);
    }
}

// A line without its comment, and without the blanks that are then at its end.
fn content<'a>(line: &Span<'a>) -> Span<'a>
    ensures bytes { result.bytes ≡ content line.now.bytes }
    ensures at { result.at ≡ line.now.at }
{
    let uncommented = line.front(comment_start(line.bytes()));
    let bytes = uncommented.bytes();
    uncommented.front(bytes.len() - blanks_at_end(bytes))
}

// How many bytes stand before the comment, or all where there is none.
fn comment_start(line: &[u8]) -> usize
    ensures { result ≡ position_or_len is_comment_sign line.now }
{
    line.iter().take_while(|byte| **byte != b'#').count()
}

// How many blanks the bytes end with.
fn blanks_at_end(bytes: &[u8]) -> usize
    ensures count { result ≡ prefix_len is_blank (reverse bytes.now) }
    ensures within { result ≤ length bytes.now }
{
    bytes
        .iter()
        .rev()
        .take_while(|byte| is_blank(**byte))
        .count()
}

fn ends_with_backslash(bytes: &[u8]) -> bool
    ensures { result ≡ ends_with_backslash bytes.now }
{
    match bytes {
        [.., last] => *last == b'\\',
        [] => false,
    }
}

fn without_backslash<'a>(line: &Span<'a>) -> Span<'a>
    ensures bytes { result.bytes ≡ without_backslash line.now.bytes }
    ensures at { result.at ≡ line.now.at }
{
    let bytes = line.bytes();
    if ends_with_backslash(bytes) {
        line.front(bytes.len() - 1)
    } else {
        line.front(bytes.len())
    }
}
