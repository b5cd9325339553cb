//! Bytes that are there, as a text that is printed part by part.

ghost use Rattle.std.specs.Prelude.{◌≡◌};

use std::alloc::AllocError;
use text_core::Parts;

/// The most bytes that one step prints: as many as one append writes, so that of a long account no second copy is made.
const PART: usize = 65_536;

/// What is left of bytes.
#[derive(Drop)]
pub(crate) struct BytesLeft<'a> {
    bytes: &'a [u8],
}

impl<'a> BytesLeft<'a> {
    /// All of them.
    pub(crate) fn new(bytes: &'a [u8]) -> BytesLeft<'a>
        ensures { (⟦<BytesLeft<'a> as Parts>⟧.left result) ≡ bytes.now }
    {
        BytesLeft { bytes }
    }
}

impl<'a> Parts for BytesLeft<'a> {
    ghost use Rattle.std.specs.Prelude.{length};

    ghost left = { λ text. text.bytes.now };

    ghost steps = { λ text. length text.bytes.now };

    fn is_done(&self) -> bool {
        self.bytes.is_empty()
    }

    fn put_next(&mut self, out: &mut Vec<u8>) -> Result<(), AllocError> {
        let (part, rest) = self.bytes.split_at(PART.min(self.bytes.len()));
        out.extend_from_slice(part)?;
        self.bytes = rest;
        Ok(())
    }
}
