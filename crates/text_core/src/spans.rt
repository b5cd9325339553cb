ghost use Rattle.std.specs.Prelude.{◌≡◌, ◌+◌, ◌<◌, ◌≤◌, ◌^◌, length, ◌↔◌, [], ◌∷◌, IsSome, IfSome, IfNone, OnSome};
ghost use Rattle.std.specs.List.{prefix_len};
ghost use Rattle.text_core.specs.Bytes.{is_blank};
ghost use Rattle.text_core.specs.Piece.{front, past};
ghost use Rattle.text_core.specs.Lines.{lines, line_length, first_line, after_line};
ghost use Rattle.text_core.specs.Words.{words, word_length, first_word, after_word};

use std::marker::Model;

/// Bytes of the input that stand side by side, and their offset in it.
#[derive(Debug, Drop)]
pub struct Span<'a> {
    bytes: &'a [u8],
    at: u64,
}

impl<'a> Model for Span<'a> {
    ghost use Rattle.std.specs.Prelude.{◌+◌, ◌<◌, ◌^◌, length};
    ghost use Rattle.text_core.specs.Piece.{Piece, piece_code};

    ghost Value = { Piece };

    ghost coded = { piece_code };

    ghost view = { λ a. record { bytes = a.bytes.now; at = a.at } };

    // So that no offset wraps, however far a piece is passed.
    ghost invariant = { λ a. a.at + length a.bytes.now < 2 ^ 64 };
}

impl<'a> Span<'a> {
    /// The bytes themselves.
    pub fn bytes(&self) -> &'a [u8]
        ensures value { result.now ≡ self.now.bytes }
        ensures within { self.now.at + length self.now.bytes < 2 ^ 64 }
    {
        self.bytes
    }

    /// The offset of the first byte in the input, counted from 0.
    pub fn at(&self) -> u64
        ensures value { result ≡ self.now.at }
        ensures within { self.now.at + length self.now.bytes < 2 ^ 64 }
    {
        self.at
    }

    /// The first `count` bytes, or all where there are fewer.
    pub fn front(&self, count: usize) -> Span<'a>
        ensures { result ≡ front count self.now }
    {
        let end = count.min(self.bytes.len());
        Span {
            bytes: &self.bytes[..end],
            at: self.at,
        }
    }

    // Moves past the first `count` bytes, or past all where there are fewer.
    fn pass(&mut self, count: usize)
        ensures { self.new ≡ past count self.old }
    {
        let passed = count.min(self.bytes.len());
        self.bytes = &self.bytes[passed..];
        self.at += passed as u64;
    }
}

/// Goes over the input from its front: what is left of it.
#[derive(Debug, Drop)]
pub struct Cursor<'a> {
    rest: Span<'a>,
}

impl<'a> Model for Cursor<'a> {
    ghost use Rattle.text_core.specs.Piece.{Piece, piece_code};

    ghost Value = { Piece };

    ghost coded = { piece_code };

    ghost view = { λ a. a.rest };
}

impl<'a> Cursor<'a> {
    /// A cursor at the front of the input.
    pub fn new(input: &'a [u8]) -> Cursor<'a>
        ensures { result ≡ record { bytes = input.now; at = 0 } }
    {
        Cursor {
            rest: Span {
                bytes: input,
                at: 0,
            },
        }
    }

    /// The offset that is reached, counted from 0.
    pub fn at(&self) -> u64
        ensures value { result ≡ self.now.at }
        ensures within { self.now.at + length self.now.bytes < 2 ^ 64 }
    {
        self.rest.at()
    }

    /// The bytes up to the next line feed or the end, without the line feed, and moves past it.
    /// `None` exactly where nothing is left.
    pub fn next_line(&mut self) -> Option<Span<'a>>
        ensures line { result ≡ first_line self.old }
        ensures rest { self.new ≡ after_line self.old }

        // Line by line the cursor gives the lines of what was left.
        ensures next { IfSome result (λ line. lines self.old.bytes ≡ line.bytes ∷ lines self.new.bytes) }
        ensures none { IfNone result (lines self.old.bytes ≡ []) }
    {
        let left = self.rest.bytes();
        if left.is_empty() {
            return None;
        }
        let count = line_length(left);
        let line = self.rest.front(count);
        // The last line may have no line feed; then `pass` stops at the end.
        self.rest.pass(count + 1);
        Some(line)
    }

    /// The next `count` bytes, and moves past them.
    /// `None` exactly where fewer are left, and then nothing moves.
    pub fn take(&mut self, count: usize) -> Option<Span<'a>>
        ensures enough { IsSome result ↔ (count ≤ length self.old.bytes) }
        ensures taken { IfSome result (λ piece. piece ≡ front count self.old) }
        ensures moved { OnSome result (self.new ≡ past count self.old) }
        ensures too_few { IfNone result (length self.old.bytes < count) }
        ensures unmoved { IfNone result (self.new ≡ self.old) }
    {
        if self.rest.bytes().len() < count {
            return None;
        }
        let piece = self.rest.front(count);
        self.rest.pass(count);
        Some(piece)
    }
}

/// The next word of a line: the first run of bytes that aren't blanks, and leaves in `line` what
/// stands after it. Blanks are the space, the tab and the carriage return.
/// `None` exactly where only blanks are left, and then `line` is empty, at its end.
pub fn next_word<'a>(line: &mut Span<'a>) -> Option<Span<'a>>
    ensures word { result ≡ first_word line.old }
    ensures rest { line.new ≡ after_word line.old }

    // Word by word the line gives its words.
    ensures next { IfSome result (λ word. words line.old.bytes ≡ word.bytes ∷ words line.new.bytes) }
    ensures none { IfNone result ((words line.old.bytes ≡ []) × (line.new.bytes ≡ [])) }
{
    line.pass(blanks_at_front(line.bytes()));
    let left = line.bytes();
    if left.is_empty() {
        return None;
    }
    let count = word_length(left);
    let word = line.front(count);
    line.pass(count);
    Some(word)
}

/// Whether a byte is a blank: a space, a tab or a carriage return.
pub fn is_blank(byte: u8) -> bool
    ensures { result ≡ is_blank byte }
{
    byte == b' ' || byte == b'\t' || byte == b'\r'
}

/// How many bytes stand before the first line feed, or all where there is none.
pub fn line_length(bytes: &[u8]) -> usize
    ensures count { result ≡ line_length bytes.now }
    ensures within { result ≤ length bytes.now }
{
    bytes.iter().take_while(|byte| **byte != b'\n').count()
}

/// How many bytes stand before the first blank, or all where there is none.
pub fn word_length(bytes: &[u8]) -> usize
    ensures count { result ≡ word_length bytes.now }
    ensures within { result ≤ length bytes.now }
{
    bytes.iter().take_while(|byte| !is_blank(**byte)).count()
}

// How many blanks the bytes begin with.
fn blanks_at_front(bytes: &[u8]) -> usize
    ensures { result ≡ prefix_len is_blank bytes.now }
{
    bytes.iter().take_while(|byte| is_blank(**byte)).count()
}
