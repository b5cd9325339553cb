//! Tallies: bans of a pair of outputs by how many inputs each depends on, or is binate in.

ghost use Rattle.std.specs.Prelude.{◌≡◌, ◌++◌, ◌<◌, not, IfNone, IfOk, IfSome, OnOk, count_by};
ghost use Rattle.std.specs.List.{flat_map};
ghost use Rattle.ban_book.specs.Listed.{tally_of};
ghost use Rattle.ban_book.specs.Rows.{AreEven, IsTallyBan, both_of, lists_by, one_of, says_one};

use crate::input_claims::InputClaims;
use account_core::{Ban, Step, Tallied};
use circuits::Pair;
use items::{Few, Items};
use std::alloc::{AllocError, Global};

/// The numbers of a tally's facts: of one claim an input at one output, and of both claims an input at the other.
#[derive(Debug, Drop)]
pub struct Lists {
    pub one: Items<u64>,
    pub both: Items<u64>,
}

/// The ban of a pair of outputs by these facts. By the inputs that outputs are binate in: one claim an input holds at
/// one output, and both fail at the other. By the inputs that outputs depend on: one fails, and both hold.
///
/// # Errors
///
/// When out of memory.
pub fn tally_ban(alloc: Global, pair: Pair, holds: bool, lists: Lists) -> Result<Ban, AllocError>
    ensures { IfOk result (λ ban. ban ≡ tally_of pair holds lists) }
{
    let pairs = Few::from_slice(alloc, &[pair])?;
    let Lists { one, both } = lists;
    let step = if holds {
        Step::Tally {
            kind: Tallied::Binate,
            have: both,
            lack: one,
        }
    } else {
        Step::Tally {
            kind: Tallied::Support,
            have: one,
            lack: both,
        }
    };
    Ok(Ban { pairs, step })
}

/// The ban of a pair of outputs where their rows show that one depends on more inputs than the other, or is binate in
/// more.
pub(crate) fn tally_by_rows(
    alloc: Global,
    pair: Pair,
    first: &[InputClaims],
    second: &[InputClaims],
) -> Result<Option<Ban>, AllocError>
    ensures shown { IfOk result (λ found. IfSome found (IsTallyBan pair first.now second.now)) }
    ensures none { IfOk result (λ found. IfNone found (AreEven first.now second.now)) }
{
    match uneven(alloc, pair, first, second, false)? {
        Some(ban) => Ok(Some(ban)),
        None => uneven(alloc, pair, first, second, true),
    }
}

// The ban where one output has more inputs than the other of which some claim holds, or fails.
fn uneven(
    alloc: Global,
    pair: Pair,
    first: &[InputClaims],
    second: &[InputClaims],
    holds: bool,
) -> Result<Option<Ban>, AllocError>
    ensures shown { IfOk result (λ found. IfSome found (IsTallyBan pair first.now second.now)) }
    ensures none { IfOk result (λ found. IfNone found
        (count_by (says_one holds) first.now ≡ count_by (says_one holds) second.now)) }
{
    let one = count(first, holds);
    let other = count(second, holds);
    if one > other {
        let ban = uneven_ban(alloc, pair, first, second, holds)?;
        return Ok(Some(ban));
    }
    if other > one {
        let ban = uneven_ban(alloc, pair, second, first, holds)?;
        return Ok(Some(ban));
    }
    Ok(None)
}

// Of how many inputs some claim holds, or fails.
fn count(row: &[InputClaims], holds: bool) -> usize
    ensures { result ≡ count_by (says_one holds) row.now }
{
    row.iter().filter(|claims| claims.says_one(holds)).count()
}

// The ban by the inputs of one row of which some claim holds, or fails, and those of the other row of which none does.
fn uneven_ban(
    alloc: Global,
    pair: Pair,
    more: &[InputClaims],
    fewer: &[InputClaims],
    holds: bool,
) -> Result<Ban, AllocError>
    ensures { IfOk result (λ ban. ban ≡ tally_of pair holds (lists_by holds more.now fewer.now)) }
{
    let one = list_one(alloc, more, holds)?;
    let both = list_both(alloc, fewer, !holds)?;
    tally_ban(alloc, pair, holds, Lists { one, both })
}

// The facts of one claim that holds, or fails, for each input that has one.
fn list_one(alloc: Global, row: &[InputClaims], holds: bool) -> Result<Items<u64>, AllocError>
    ensures { IfOk result (λ numbers. numbers ≡ flat_map (one_of holds) row.now) }
{
    let mut numbers = Items::new(alloc);
    for claims in row.iter() {
        add_one(&mut numbers, *claims, holds)?;
    }
    Ok(numbers)
}

fn add_one(numbers: &mut Items<u64>, claims: InputClaims, holds: bool) -> Result<(), AllocError>
    ensures { OnOk result (numbers.new ≡ numbers.old ++ one_of holds claims) }
{
    if claims.up.holds == holds {
        numbers.push(claims.up.number)?;
    } else if claims.down.holds == holds {
        numbers.push(claims.down.number)?;
    }
    Ok(())
}

// The facts of both claims, for each input of which both hold, or both fail.
fn list_both(alloc: Global, row: &[InputClaims], holds: bool) -> Result<Items<u64>, AllocError>
    ensures { IfOk result (λ numbers. numbers ≡ flat_map (both_of holds) row.now) }
{
    let mut numbers = Items::new(alloc);
    for claims in row.iter() {
        add_both(&mut numbers, *claims, holds)?;
    }
    Ok(numbers)
}

fn add_both(numbers: &mut Items<u64>, claims: InputClaims, holds: bool) -> Result<(), AllocError>
    ensures { OnOk result (numbers.new ≡ numbers.old ++ both_of holds claims) }
{
    if claims.says_both(holds) {
        numbers.push(claims.up.number)?;
        numbers.push(claims.down.number)?;
    }
    Ok(())
}
