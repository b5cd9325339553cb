ghost use Rattle.std.specs.Prelude.{◌≡◌, [], ◌∷◌, ◌++◌, OnOk, OnErr};
ghost use Rattle.std.specs.Fmt.{decimal};
ghost use Rattle.port_report.specs.Reports.{rejected_text};
ghost use Rattle.text_core.specs.Extends.{Extends};

use std::alloc::AllocError;
use text_core::{put_last_word, put_number, put_text};

/// Writes at the end of `out` that an account is rejected: the number of its first record that is wrong, counted from
/// 1, and the word for what is wrong there. When out of memory, a first part of the text may stand after what stood in
/// `out`.
pub fn put_rejected(line: u64, word: &str, out: &mut Vec<u8>) -> Result<(), AllocError>
    ensures ok { OnOk result (out.new.items ≡ out.old.items ++ rejected_text line word.now) }
    ensures kept { OnErr result (Extends out.old.items out.new.items) }
{
    put_line(b"rejected line ", line, word.as_bytes(), out)
}

// Writes a line of a text, a number and a word.
fn put_line(text: &[u8], number: u64, word: &[u8], out: &mut Vec<u8>) -> Result<(), AllocError>
    ensures ok { OnOk result (out.new.items
        ≡ out.old.items ++ (text.now ++ decimal number ++ 32 ∷ word.now ++ 10 ∷ [])) }
    ensures kept { Extends out.old.items out.new.items }
{
    put_text(text, out)?;
    put_number(number, out)?;
    put_last_word(word, out)
}
