//! The words that bind the ports of an instance.

ghost use Rattle.std.specs.Prelude.{◌≡◌, ◌<◌, ◌≤◌, length, option_map};
ghost use Rattle.std.specs.List.{find, position_or_len};
ghost use Rattle.hier_blif.specs.Bindings.{is_equals, formal_of, actual_of, is_malformed_binding};

use text_core::Span;

/// The port that a word binds: what stands before its first `=`, or all where it has none.
pub(crate) fn formal_of(word: &[u8]) -> &[u8]
    ensures { result.now ≡ formal_of word.now }
{
    &word[..equals_place(word)]
}

/// What a word binds a port to: what stands after its first `=`.
pub(crate) fn actual_of(word: &[u8]) -> &[u8]
    ensures { result.now ≡ actual_of word.now }
{
    let after = equals_place(word) + 1;
    &word[after.min(word.len())..]
}

/// The place of the first `=` of a word, or its length where it has none.
fn equals_place(word: &[u8]) -> usize
    ensures place { result ≡ position_or_len is_equals word.now }
    ensures within { result ≤ length word.now }
{
    word.iter().take_while(|byte| **byte != b'=').count()
}

/// Whether a word is no binding: it has no `=`, or nothing before it, or nothing after it.
fn is_malformed_binding(word: &Span<'_>) -> bool
    ensures { result ≡ is_malformed_binding word.now }
{
    formal_of(word.bytes()).is_empty() | actual_of(word.bytes()).is_empty()
}

/// The place of the first word that is no binding.
pub(crate) fn find_malformed_binding(words: &[Span<'_>]) -> Option<u64>
    ensures { result ≡ option_map (λ word. word.at) (find is_malformed_binding words.now) }
{
    for word in words.iter() {
        if is_malformed_binding(word) {
            return Some(word.at());
        }
    }
    None
}
