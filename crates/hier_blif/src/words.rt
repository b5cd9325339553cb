//! Names where they stand in a file.

ghost use Rattle.std.specs.Prelude.{◌≡◌};
ghost use Rattle.hier_blif.specs.Names.{actual};

use crate::bindings::actual_of;
use std::marker::Model;
use text_core::Span;

/// A name, and the offset of the word that gives it.
#[derive(Drop)]
pub(crate) struct Word<'a> {
    bytes: &'a [u8],
    at: u64,
}

impl<'a> Model for Word<'a> {
    ghost use Rattle.text_core.specs.Piece.{Piece, piece_code};

    ghost Value = { Piece };

    ghost coded = { piece_code };

    ghost view = { λ a. record { bytes = a.bytes.now; at = a.at } };
}

impl<'a> Word<'a> {
    /// A word that is a name.
    pub(crate) fn whole(word: &Span<'a>) -> Word<'a>
        ensures { result ≡ word.now }
    {
        Word {
            bytes: word.bytes(),
            at: word.at(),
        }
    }

    /// The name to which a word binds a port.
    pub(crate) fn bound(word: &Span<'a>) -> Word<'a>
        ensures { result ≡ actual word.now }
    {
        Word {
            bytes: actual_of(word.bytes()),
            at: word.at(),
        }
    }

    pub(crate) fn bytes(&self) -> &'a [u8]
        ensures { result.now ≡ self.now.bytes }
    {
        self.bytes
    }

    pub(crate) fn at(&self) -> u64
        ensures { result ≡ self.now.at }
    {
        self.at
    }
}
