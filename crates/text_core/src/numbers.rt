ghost use Rattle.std.specs.Prelude.{◌≡◌, ℕ, ◌+◌, ◌*◌, ◌<◌, ◌≤◌, ◌^◌, ◌↔◌, ◌++◌, length, IfOk, OnOk, OnErr, true};
ghost use Rattle.std.specs.Option.{SomeIff};
ghost use Rattle.std.specs.Str.{all_ascii_digits};
ghost use Rattle.std.specs.Str.Parse.{digits_value};
ghost use Rattle.std.specs.Char.{IsAsciiDigit, is_ascii_digit, digit_value};
ghost use Rattle.std.specs.List.{list_all, prefix_len};
ghost use Rattle.std.specs.Fmt.{decimal as digits_of_number};
ghost use Rattle.text_core.specs.Numbers.{is_numeral, number};

use crate::spans::Span;
use itoa::Buffer;
use std::alloc::AllocError;

/// Why a word is no number of 64 bits.
#[derive(Clone, Copy, PartialEq, Eq, Debug)]
pub enum NumberFault {
    /// The word is empty or has a byte other than `0` to `9`.
    NotDigit,
    /// The word is a number, and greater than 18,446,744,073,709,551,615.
    TooLarge,
}

/// The number that a word writes in base ten. Leading zeros are accepted, any number of them.
/// A word that is no number is reported as such first, and only a number can be too large.
pub fn decimal(word: Span<'_>) -> Result<u64, NumberFault>
    ensures value { IfOk result (λ v. number word.entry.bytes ≡ Some v) }
    ensures fits { (v : ℕ) → number word.entry.bytes ≡ Some v → v < 2 ^ 64 → result ≡ Ok v }
    ensures not_digit { (result ≡ Err NumberFault.NotDigit) ↔ (number word.entry.bytes ≡ None) }
    ensures too_large { (result ≡ Err NumberFault.TooLarge)
        ↔ ((v : ℕ) × (number word.entry.bytes ≡ Some v) × (2 ^ 64 ≤ v)) }
{
    let digits = word.bytes();
    // Before the value: a word with a wrong byte is no number, however long it is.
    if !is_numeral(digits) {
        return Err(NumberFault::NotDigit);
    }
    value_of(digits).ok_or(NumberFault::TooLarge)
}

/// Whether a word is a numeral: one digit or more, and nothing else.
#[tactic(auto, using(crate::proofs::NumberLemmas::digits_by_all))]
pub fn is_numeral(word: &[u8]) -> bool
    ensures { result ≡ is_numeral word.now }
{
    !word.is_empty() && has_only_digits(word)
}

fn has_only_digits(word: &[u8]) -> bool
    ensures { result ≡ list_all is_ascii_digit word.now }
{
    word.iter().all(|byte| byte.is_ascii_digit())
}

/// How many digits the bytes begin with.
pub fn digits_in_front(bytes: &[u8]) -> usize
    ensures count { result ≡ prefix_len is_ascii_digit bytes.now }
    ensures within { result ≤ length bytes.now }
{
    bytes
        .iter()
        .take_while(|byte| byte.is_ascii_digit())
        .count()
}

/// The value of a row of digits, if it fits 64 bits. A row of no digits has the value 0.
pub fn value_of(digits: &[u8]) -> Option<u64>
    requires { all_ascii_digits digits.now ≡ true }
    ensures { SomeIff result (digits_value 10 digits.now < 2 ^ 64) (digits_value 10 digits.now) }
{
    let mut value = 0;
    for digit in digits {
        let Some(longer) = with_digit(value, *digit) else {
            return None;
        };
        value = longer;
    }
    Some(value)
}

// The value of a row of digits with one more digit at its end, if it fits 64 bits.
fn with_digit(value: u64, digit: u8) -> Option<u64>
    requires { IsAsciiDigit digit }
    ensures { SomeIff result (value * 10 + digit_value digit < 2 ^ 64) (value * 10 + digit_value digit) }
{
    value.checked_mul(10)?.checked_add(u64::from(digit - b'0'))
}

/// Writes a number in base ten at the end of `out`, without leading zeros.
/// `out` is unchanged where memory is refused.
pub fn put_decimal(value: u64, out: &mut Vec<u8>) -> Result<(), AllocError>
    ensures ok { OnOk result (out.new.items ≡ out.old.items ++ digits_of_number value) }
    ensures err { OnErr result (out.new.items ≡ out.old.items) }
{
    let mut buffer = Buffer::new();
    out.extend_from_slice(buffer.format(value).as_bytes())
}
