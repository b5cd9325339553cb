//! Bytes that are read from their front.

ghost use Rattle.std.specs.Prelude.{◌≡◌, ◌+◌, ◌<◌, ◌≤◌, ◌==◌, ◌∷◌, [], ◌++◌, length, drop, take, IfNone, IfSome};
ghost use Rattle.byte_form.specs.Codes.{number_bytes};

use std::marker::Model;

/// What is left of bytes that are read from their front.
#[derive(Debug, Drop)]
pub struct ByteReader<'a> {
    left: &'a [u8],
}

impl<'a> Model for ByteReader<'a> {
    ghost use Rattle.std.specs.Prelude.{ℕ, List};

    ghost Value = { List ℕ };

    ghost view = { λ a. a.left.now };
}

impl<'a> ByteReader<'a> {
    /// A reader at the front of these bytes.
    pub fn new(bytes: &'a [u8]) -> ByteReader<'a>
        ensures { result ≡ bytes.now }
    {
        ByteReader { left: bytes }
    }

    /// Whether nothing is left.
    pub fn is_done(&self) -> bool
        ensures { result ≡ (length self.now == 0) }
    {
        self.left.is_empty()
    }

    /// What is left.
    pub fn left(&self) -> &'a [u8]
        ensures { result.now ≡ self.now }
    {
        self.left
    }

    /// Takes the next byte. Where none is left, it is None.
    pub fn next_byte(&mut self) -> Option<u8>
        ensures byte { IfSome result (λ byte. self.old ≡ byte ∷ self.new) }
        ensures none { IfNone result (self.old ≡ []) }
    {
        let [byte, rest @ ..] = self.left else {
            return None;
        };
        self.left = rest;
        Some(*byte)
    }

    /// Takes `count` bytes. Where fewer are left, it is None.
    pub fn next_bytes(&mut self, count: u64) -> Option<&'a [u8]>
        ensures bytes { IfSome result (λ bytes. self.old ≡ bytes.now ++ self.new) }
        ensures count { IfSome result (λ bytes. length bytes.now ≡ count) }
        ensures none { IfNone result (length self.old < count) }
    {
        if count > self.left.len() as u64 {
            return None;
        }
        let bytes = &self.left[..count as usize];
        self.left = &self.left[count as usize..];
        Some(bytes)
    }

    /// Takes a number of 64 bits, of eight bytes, the highest first. Where fewer are left, it is None.
    pub fn next_u64(&mut self) -> Option<u64>
        ensures number { IfSome result (λ number. self.old ≡ number_bytes 8 number ++ self.new) }
        ensures none { IfNone result (length self.old < 8) }
    {
        let [a, b, c, d, e, f, g, h, rest @ ..] = self.left else {
            return None;
        };
        self.left = rest;
        Some(u64::from_be_bytes([*a, *b, *c, *d, *e, *f, *g, *h]))
    }

    /// Takes a number of 32 bits, of four bytes, the highest first. Where fewer are left, it is None.
    pub fn next_u32(&mut self) -> Option<u32>
        ensures number { IfSome result (λ number. self.old ≡ number_bytes 4 number ++ self.new) }
        ensures none { IfNone result (length self.old < 4) }
    {
        let [a, b, c, d, rest @ ..] = self.left else {
            return None;
        };
        self.left = rest;
        Some(u32::from_be_bytes([*a, *b, *c, *d]))
    }
}
