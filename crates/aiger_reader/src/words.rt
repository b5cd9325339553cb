//! The words of a line as numbers.

ghost use Rattle.std.specs.Prelude.{◌≡◌, ℕ, ◌^◌, ◌<◌, [], ◌↔◌, IsTrue, Some, IfSome, IfNone};
ghost use Rattle.text_core.specs.Numbers.{number};
ghost use Rattle.text_core.specs.Words.{words};

use text_core::{Span, decimal, next_word};

/// The number that a word writes, if it is one of 32 bits.
pub(crate) fn small_number(word: Span<'_>) -> Option<u32>
    ensures number { IfSome result (λ n. number word.entry.bytes ≡ Some n) }
    ensures none { IfNone result ((n : ℕ) → n < 2 ^ 32 → number word.entry.bytes ≡ Some n → ⊥) }
{
    let number = decimal(word).ok()?;
    u32::try_from(number).ok()
}

/// Whether a line has no more words.
pub(crate) fn has_no_word(line: &mut Span<'_>) -> bool
    ensures { IsTrue result ↔ (words line.old.bytes ≡ []) }
{
    next_word(line).is_none()
}
