//! Mismatches of an input's pair and an output's, found in the rows of both outputs.

ghost use Rattle.std.specs.Prelude.{◌≡◌, ◌<◌, All, Contains, IfNone, IfOk, IfSome, length};
ghost use Rattle.circuits.specs.declared.port.PortKind.TheVariants.{Input};
ghost use Rattle.claim_core.specs.Images.{moved_value};
ghost use Rattle.ban_book.specs.Rows.{AreAlike, IsApart, IsApartAt, IsMismatchBan, decided_at};

use crate::input_claims::{DecidedClaim, InputClaims};
use crate::mismatched::{Unlike, mismatch_ban, unlike_of};
use account_core::Ban;
use circuits::{Pair, PortKind};
use claim_core::moved_value;
use std::alloc::{AllocError, Global};

/// The pair of an input that no match has beside an output's pair, and the facts that say so.
#[derive(Clone, Copy, Debug, Drop)]
pub(crate) struct Apart {
    pub(crate) input: Pair,
    pub(crate) unlike: Unlike,
}

/// The ban of an output's pair and of the first input's pair among these where the rows show a mismatch: a claim of the
/// first circuit holds and its image fails, or the other way round.
pub(crate) fn mismatch_by_rows(
    alloc: Global,
    pairs: &[Pair],
    output: Pair,
    first: &[InputClaims],
    second: &[InputClaims],
) -> Result<Option<Ban>, AllocError>
    requires from { All (λ pair. pair.kind ≡ Input → pair.from < length first.now) pairs.now }
    requires to { All (λ pair. pair.kind ≡ Input → pair.to < length second.now) pairs.now }
    ensures shown { IfOk result (λ found. IfSome found (IsMismatchBan pairs.now output first.now second.now)) }
    ensures none { IfOk result (λ found. IfNone found
        (All (λ pair. pair.kind ≡ Input → AreAlike output first.now second.now pair) pairs.now)) }
{
    let Some(apart) = first_apart(pairs, output, first, second) else {
        return Ok(None);
    };
    let ban = mismatch_ban(alloc, &[apart.input, output], apart.unlike)?;
    Ok(Some(ban))
}

// The first pair of an input among these for which the rows show a mismatch beside an output's pair.
fn first_apart(
    pairs: &[Pair],
    output: Pair,
    first: &[InputClaims],
    second: &[InputClaims],
) -> Option<Apart>
    requires from { All (λ pair. pair.kind ≡ Input → pair.from < length first.now) pairs.now }
    requires to { All (λ pair. pair.kind ≡ Input → pair.to < length second.now) pairs.now }
    ensures some { IfSome result (λ apart. Contains pairs.now apart.input × IsApart output first.now second.now apart) }
    ensures none { IfNone result
        (All (λ pair. pair.kind ≡ Input → AreAlike output first.now second.now pair) pairs.now) }
{
    for input in pairs.iter() {
        if let Some(apart) = mismatch_at(*input, output, first, second) {
            return Some(apart);
        }
    }
    None
}

// The facts of a mismatch of a pair, if it is of an input, beside an output's pair.
fn mismatch_at(
    input: Pair,
    output: Pair,
    first: &[InputClaims],
    second: &[InputClaims],
) -> Option<Apart>
    requires from { input.kind ≡ Input → input.from < length first.now }
    requires to { input.kind ≡ Input → input.to < length second.now }
    ensures some { IfSome result (λ apart. (apart.input ≡ input) × IsApart output first.now second.now apart) }
    ensures none { IfNone result (input.kind ≡ Input → AreAlike output first.now second.now input) }
{
    if input.kind != PortKind::Input {
        return None;
    }
    let unlike = match apart_with(input, output, false, first, second) {
        Some(unlike) => unlike,
        None => apart_with(input, output, true, first, second)?,
    };
    Some(Apart { input, unlike })
}

// The facts of the claim for a change of the input from a value and of its image, where one holds and one fails.
fn apart_with(
    input: Pair,
    output: Pair,
    value: bool,
    first: &[InputClaims],
    second: &[InputClaims],
) -> Option<Unlike>
    requires from { input.from < length first.now }
    requires to { input.to < length second.now }
    ensures some { IfSome result (IsApartAt output first.now second.now input value) }
    ensures none { IfNone result ((decided_at first.now input.from value).holds
        ≡ (decided_at second.now input.to (moved_value output.flip input value)).holds) }
{
    let one = decided_at(first, input.from, value);
    let other = decided_at(second, input.to, moved_value(output.flip, input, value));
    if one.holds == other.holds {
        return None;
    }
    Some(unlike_of(one, other))
}

// The decided claim of a row for a change of an input from a value.
fn decided_at(row: &[InputClaims], input: u32, value: bool) -> DecidedClaim
    requires { input < length row.now }
    ensures { result ≡ decided_at row.now input value }
{
    row[input as usize].with(value)
}
