ghost use Rattle.std.specs.Prelude.{◌≡◌, ◌+◌, [], ◌++◌, length};

use crate::parts::Parts;
use crate::pieces::put_text;
use std::alloc::AllocError;

/// A text, and another one after it.
#[derive(Drop)]
pub struct Chain<A, B> {
    first: A,
    second: B,
}

impl<A: Parts, B: Parts> Chain<A, B> {
    /// The first text, and then the second.
    pub fn new(first: A, second: B) -> Chain<A, B>
        ensures { ⟦<Chain<A, B> as Parts>⟧.left result ≡ A.left first ++ B.left second }
    {
        Chain { first, second }
    }
}

impl<A: Parts, B: Parts> Parts for Chain<A, B> {
    ghost left = { λ chain. A.left chain.first ++ B.left chain.second };

    ghost steps = { λ chain. A.steps chain.first + B.steps chain.second };

    fn is_done(&self) -> bool {
        self.first.is_done() & self.second.is_done()
    }

    fn put_next(&mut self, out: &mut Vec<u8>) -> Result<(), AllocError> {
        if self.first.is_done() {
            self.second.put_next(out)
        } else {
            self.first.put_next(out)
        }
    }
}

/// A text that is one part.
#[derive(Drop)]
pub struct Whole<'a> {
    text: &'a [u8],
}

impl<'a> Whole<'a> {
    /// The text is still to be printed.
    pub fn new(text: &'a [u8]) -> Whole<'a>
        ensures { ⟦<Whole<'a> as Parts>⟧.left result ≡ text.now }
    {
        Whole { text }
    }
}

impl<'a> Parts for Whole<'a> {
    ghost left = { λ whole. whole.text.now };

    ghost steps = { λ whole. length whole.text.now };

    fn is_done(&self) -> bool {
        self.text.is_empty()
    }

    fn put_next(&mut self, out: &mut Vec<u8>) -> Result<(), AllocError> {
        put_text(self.text, out)?;
        self.text = b"";
        Ok(())
    }
}
