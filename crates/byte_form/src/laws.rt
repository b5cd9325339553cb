//! That no bytes begin with two values.

ghost use Rattle.std.specs.Prelude.{ℕ, ◌<◌, ◌^◌};
ghost use Rattle.byte_form.specs.Codes.{IsPrefixCode, ListFits, list_bytes, number_bytes};

/// No bytes begin with two numbers of as many bytes: what is written is what is read.
pub fn one_number()
    ensures { (n : ℕ) → IsPrefixCode (number_bytes n) (λ x. x < 256 ^ n) }
{}

/// Nor with two lists of such numbers.
pub fn one_list()
    ensures { (n : ℕ) → IsPrefixCode (list_bytes (number_bytes n)) (ListFits (λ x. x < 256 ^ n)) }
{}
