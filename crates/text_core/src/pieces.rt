//! Words and numbers, each with the byte that ends it.

ghost use Rattle.std.specs.Prelude.{◌≡◌, [], ◌∷◌, ◌++◌, OnOk};
ghost use Rattle.std.specs.Fmt.{decimal};
ghost use Rattle.text_core.specs.Extends.{Extends};

use crate::put_decimal;
use std::alloc::AllocError;

/// Writes a text as it is.
pub fn put_text(text: &[u8], out: &mut Vec<u8>) -> Result<(), AllocError>
    ensures ok { OnOk result (out.new.items ≡ out.old.items ++ text.now) }
    ensures kept { Extends out.old.items out.new.items }
{
    out.extend_from_slice(text)
}

/// Writes a word with a blank after it.
pub fn put_word(word: &[u8], out: &mut Vec<u8>) -> Result<(), AllocError>
    ensures ok { OnOk result (out.new.items ≡ out.old.items ++ (word.now ++ 32 ∷ [])) }
    ensures kept { Extends out.old.items out.new.items }
{
    out.extend_from_slice(word)?;
    out.extend_from_slice(b" ")
}

/// Writes a number with a blank after it.
pub fn put_number(number: u64, out: &mut Vec<u8>) -> Result<(), AllocError>
    ensures ok { OnOk result (out.new.items ≡ out.old.items ++ (decimal number ++ 32 ∷ [])) }
    ensures kept { Extends out.old.items out.new.items }
{
    put_decimal(number, out)?;
    out.extend_from_slice(b" ")
}

/// Writes the last word of a line.
pub fn put_last_word(word: &[u8], out: &mut Vec<u8>) -> Result<(), AllocError>
    ensures ok { OnOk result (out.new.items ≡ out.old.items ++ (word.now ++ 10 ∷ [])) }
    ensures kept { Extends out.old.items out.new.items }
{
    out.extend_from_slice(word)?;
    out.extend_from_slice(b"\n")
}

/// Writes the number at the end of a line.
pub fn put_last_number(number: u64, out: &mut Vec<u8>) -> Result<(), AllocError>
    ensures ok { OnOk result (out.new.items ≡ out.old.items ++ (decimal number ++ 10 ∷ [])) }
    ensures kept { Extends out.old.items out.new.items }
{
    put_decimal(number, out)?;
    out.extend_from_slice(b"\n")
}
