ghost use Rattle.std.specs.Prelude.{◌≡◌, ◌+◌, ◌-◌, ◌<◌, ◌≤◌, min, ◌++◌, length, take, drop};

/// Copies the bytes of `from` that begin at `at` to the front of `to`, at most `cut`, and answers how many.
pub(crate) fn copy_some(from: &[u8], at: usize, to: &mut [u8], cut: usize) -> usize
    requires cuts { 0 < cut }
    requires start { at ≤ length from.now }
    ensures amount { result ≡ min (min cut (length from.now - at)) (length to.old) }
    ensures within { result ≤ length to.old }
    ensures read { at + result ≤ length from.now }
    ensures some { at < length from.now → 0 < length to.old → 0 < result }
    ensures copied { to.new ≡ take result (drop at from.now) ++ drop result to.old }
{
    let count = cut.min(from.len() - at).min(to.len());
    to[..count].copy_from_slice(&from[at..at + count]);
    count
}
