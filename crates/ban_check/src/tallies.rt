//! Bans by counts of inputs: of two paired outputs one has, and the other one lacks, more inputs of a kind than fit.

ghost use Rattle.std.specs.Prelude.{◌≡◌, ◌↔◌, ℕ, ◌+◌, ◌≤◌, Any, IfSome, IsTrue, Some};
ghost use Rattle.account_core.specs.Tallies.{shapes_of, IsTally, SayOf};
ghost use Rattle.ban_check.specs.Counted.{one_input, twin_input, ArePaired, AreTooMany, GoOverInputs, GoOverTwice};
ghost use Rattle.ban_check.specs.Counted.{HaveTooMany, IsNext, SaysOf};

use crate::given::Given;
use account_core::{Tallied, port_on};
use circuits::{Pair, PortKind};
use claim_core::{Claim, Shape};
use net_core::Graphs;

/// Whether by some facts one of two paired outputs has inputs of a kind, by others the other one lacks inputs of it,
/// and both are together more than a circuit has.
pub(crate) fn is_tally(
    graphs: &Graphs<'_>,
    given: &Given,
    pairs: &[Pair],
    kind: Tallied,
    have: &[u64],
    lack: &[u64],
) -> bool
    ensures { IsTrue result ↔ IsTally graphs.now given.now pairs.now kind have.now lack.now }
{
    let [having, ..] = have else {
        return false;
    };
    let [lacking, ..] = lack else {
        return false;
    };
    let one = given.fact(*having).claim;
    let other = given.fact(*lacking).claim;
    are_paired(pairs, one, other)
        & say_of(given, have, false, one)
        & say_of(given, lack, true, other)
        & have_too_many(graphs.first().inputs(), given, kind, have, lack)
}

// Whether two claims are of paired outputs of the two circuits.
fn are_paired(pairs: &[Pair], one: Claim, other: Claim) -> bool
    ensures { IsTrue result ↔ Any (ArePaired one other) pairs.now }
{
    pairs.iter().any(|pair| joins(*pair, one, other))
}

// Whether a pair is of the outputs of two claims.
fn joins(pair: Pair, one: Claim, other: Claim) -> bool
    ensures { IsTrue result ↔ ArePaired one other pair }
{
    (pair.kind == PortKind::Output)
        & (one.side != other.side)
        & (port_on(one.side, pair) == one.output)
        & (port_on(other.side, pair) == other.output)
}

// Whether facts are of a claim's output, all of claims that hold, or all of claims that fail.
fn say_of(given: &Given, numbers: &[u64], holds: bool, claim: Claim) -> bool
    ensures { IsTrue result ↔ SayOf given.now numbers.now holds claim.side claim.output }
{
    numbers
        .iter()
        .all(|number| says(given, *number, holds, claim))
}

// Whether a fact is of a claim's output, and of a claim that holds, or of one that fails.
fn says(given: &Given, number: u64, holds: bool, claim: Claim) -> bool
    ensures { IsTrue result ↔ SaysOf given.now number holds claim }
{
    let fact = given.fact(number);
    (fact.holds == holds) & (fact.claim.side == claim.side) & (fact.claim.output == claim.output)
}

// Whether facts are of inputs as a tally requires, and of more than a circuit has.
fn have_too_many(inputs: u32, given: &Given, kind: Tallied, have: &[u64], lack: &[u64]) -> bool
    ensures { IsTrue result ↔ HaveTooMany inputs given.now kind have.now lack.now }
{
    match kind {
        Tallied::Support => are_too_many(inputs, given, have, lack),
        Tallied::Binate => are_too_many(inputs, given, lack, have),
    }
}

// Whether facts of one input each, and facts in twos, are of more inputs than there are.
fn are_too_many(inputs: u32, given: &Given, each: &[u64], twice: &[u64]) -> bool
    ensures { IsTrue result ↔ AreTooMany inputs given.now each.now twice.now }
{
    go_over_inputs(given, each)
        & go_over_twice(given, twice)
        & (each.len() + twice.len() / 2 > inputs as usize)
}

// Whether facts are each of one input, and the inputs ascend.
fn go_over_inputs(given: &Given, numbers: &[u64]) -> bool
    ensures { IsTrue result ↔ GoOverInputs 0 (shapes_of given.now numbers.now) }
{
    let mut least = 0;
    for number in numbers.iter() {
        let Some(next) = next_from(least, one_input(given.fact(*number).claim.shape)) else {
            return false;
        };
        least = next;
    }
    true
}

// Whether facts come in twos, up and then down of one input, and the inputs ascend.
fn go_over_twice(given: &Given, numbers: &[u64]) -> bool
    ensures { IsTrue result ↔ GoOverTwice 0 (shapes_of given.now numbers.now) }
{
    let mut least = 0;
    let mut left = numbers;
    while let [up, down, rest @ ..] = left {
        let one = given.fact(*up).claim.shape;
        let other = given.fact(*down).claim.shape;
        let Some(next) = next_from(least, twin_input(one, other)) else {
            return false;
        };
        least = next;
        left = rest;
    }
    left.is_empty()
}

// The least input that may follow one, if there is one from `least` on.
fn next_from(least: u64, input: Option<u32>) -> Option<u64>
    ensures next { IfSome result (IsNext least input) }
    ensures there { (i : ℕ) → input ≡ Some i → least ≤ i → result ≡ Some (i + 1) }
{
    let Some(input) = input else {
        return None;
    };
    if u64::from(input) < least {
        return None;
    }
    Some(u64::from(input) + 1)
}

// The input of a shape of one.
fn one_input(shape: Shape) -> Option<u32>
    ensures { result ≡ one_input shape }
{
    match shape {
        Shape::Up(input) | Shape::Down(input) => Some(input),
        Shape::Swap { .. } => None,
    }
}

// The input that goes up in one shape and down in the other.
fn twin_input(one: Shape, other: Shape) -> Option<u32>
    ensures { result ≡ twin_input one other }
{
    let (Shape::Up(up), Shape::Down(down)) = (one, other) else {
        return None;
    };
    if up == down { Some(up) } else { None }
}
