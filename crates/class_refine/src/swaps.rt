//! Bans of pairs that decided claims of two inputs show.

ghost use Rattle.std.specs.Prelude.{◌≡◌, ◌≢◌, ◌<◌, ℕ, [], All, AllPairs, IfNone, IfOk, IfSome, length, map};
ghost use Rattle.claim_core.specs.declared.claims.Claim.{Claim as AnyClaim};
ghost use Rattle.account_core.specs.Given.{decided_by, fact_at, given_of};
ghost use Rattle.account_core.specs.Mismatches.{IsImage};
ghost use Rattle.account_core.specs.Ports.{IsKnown};
ghost use Rattle.ban_book.specs.Shown.{IsShownBan};
ghost use Rattle.ban_book.specs.DecidedClaims.{IsDecidedAs};
ghost use Rattle.class_refine.specs.Rows.{AreGrounds, decided};
ghost use Rattle.class_refine.specs.Stable.{HasTwoInputs, HaveNoSwapMismatch};
ghost use Rattle.class_refine.specs.Swaps.{AgreesAt, IsExchange, IsSwapIndex, SaysOf, carried_to};

use crate::grounds::Grounds;
use crate::swap_index::number_of;
use account_core::{Ban, Evidence, Fact};
use ban_book::{DecidedClaim, mismatch_ban, two_inputs, unlike_of};
use circuits::{Pair, PortKind};
use claim_core::{Claim, Shape, moved_value, pair_of};
use indexmap::IndexMap;
use net_core::Side;
use std::alloc::{AllocError, Global};

/// The pairs of the output and of both inputs of a claim of the first circuit, with the inputs' values.
#[derive(Clone, Copy, Debug, Drop)]
pub(crate) struct Exchange {
    pub(crate) one: Pair,
    pub(crate) other: Pair,
    pub(crate) output: Pair,
    pub(crate) a: bool,
    pub(crate) b: bool,
}

/// The ban of the pairs of an output and two inputs where a claim of both inputs holds and its image under the pairs
/// fails, or the other way round. All facts are gone over, for each open way again. That is cheap enough: the search
/// refines whole matchings alone, which have no open way, so each fact is looked at once.
pub(crate) fn swap_ban(
    alloc: Global,
    grounds: &Grounds<'_>,
    pairs: &[Pair],
) -> Result<Option<Ban>, AllocError>
    requires grounds { AreGrounds grounds.now }
    requires known { All (IsKnown grounds.now.graphs.now) pairs.now }
    ensures shown { IfOk result
        (λ found. IfSome found (IsShownBan grounds.now.graphs.now (decided grounds.now) pairs.now)) }
    ensures none { IfOk result
        (λ found. IfNone found (HaveNoSwapMismatch grounds.now.graphs.now (decided grounds.now) pairs.now)) }
{
    for number in 0..grounds.facts.len() {
        if let Some(ban) = ban_at(alloc, grounds, pairs, number)? {
            return Ok(Some(ban));
        }
    }
    Ok(None)
}

// The ban that a fact and the fact of its image show, if the two differ.
fn ban_at(
    alloc: Global,
    grounds: &Grounds<'_>,
    pairs: &[Pair],
    number: usize,
) -> Result<Option<Ban>, AllocError>
    requires grounds { AreGrounds grounds.now }
    requires known { All (IsKnown grounds.now.graphs.now) pairs.now }
    requires below { number < length grounds.now.facts.now }
    ensures shown { IfOk result
        (λ found. IfSome found (IsShownBan grounds.now.graphs.now (decided grounds.now) pairs.now)) }
    ensures none { IfOk result (λ found. IfNone found (AgreesAt (decided grounds.now) pairs.now number)) }
{
    let facts = grounds.facts;
    let fact = decided_at(facts, number);
    let Some(exchange) = exchange_of(pairs, claim_at(facts, number)) else {
        return Ok(None);
    };
    let Some(image) = otherwise(facts, &grounds.rows.swaps, carry(exchange), fact.holds) else {
        return Ok(None);
    };
    let Exchange {
        one,
        other,
        output,
        ..
    } = exchange;
    let ban = mismatch_ban(alloc, &[one, other, output], unlike_of(fact, image))?;
    Ok(Some(ban))
}

// A fact's claim, decided.
fn decided_at(facts: &[Fact], number: usize) -> DecidedClaim
    requires below { number < length facts.now }
    ensures decided { IsDecidedAs (map decided_by facts.now)
        (fact_at (given_of (map decided_by facts.now) []) number).claim result.holds result.number }
    ensures number { result.number ≡ number }
{
    let holds = match &facts[number].evidence {
        Evidence::Fails(_) => false,
        Evidence::Holds(_) => true,
    };
    DecidedClaim {
        holds,
        number: number as u64,
    }
}

// The claim that pairs carry one to.
fn carry(exchange: Exchange) -> Claim
    ensures { result ≡ carried_to exchange }
{
    let Exchange {
        one,
        other,
        output,
        a,
        b,
    } = exchange;
    Claim {
        side: Side::Second,
        output: output.to,
        shape: two_inputs(
            one.to,
            moved_value(output.flip, one, a),
            other.to,
            moved_value(output.flip, other, b),
        ),
    }
}

/// The claim of a fact.
pub(crate) fn claim_at(facts: &[Fact], number: usize) -> Claim
    requires below { number < length facts.now }
    ensures { result ≡ (fact_at (given_of (map decided_by facts.now) []) number).claim }
{
    facts[number].claim
}

// The fact of a claim of two inputs, if the claim is decided the other way.
fn otherwise(
    facts: &[Fact],
    swaps: &IndexMap<Claim, u64>,
    claim: Claim,
    holds: bool,
) -> Option<DecidedClaim>
    requires distinct { AllPairs (λ one other. one.claim ≢ other.claim) (map decided_by facts.now) }
    requires index { IsSwapIndex (map decided_by facts.now) swaps.now.entries }
    requires two { HasTwoInputs claim.shape }
    ensures found { IfSome result (λ fact. IsDecidedAs (map decided_by facts.now) claim fact.holds fact.number) }
    ensures differ { IfSome result (λ fact. fact.holds ≡ holds → ⊥) }
    ensures none { IfNone result ((k : ℕ) → k < length facts.now → SaysOf (map decided_by facts.now) claim holds k) }
{
    let number = number_of(swaps, claim)?;
    let fact = decided_at(facts, number as usize);
    if fact.holds == holds {
        return None;
    }
    Some(fact)
}

// The pairs that carry a claim of two inputs of the first circuit to one of the second. None where it is another claim,
// or one of these pairs is missing.
fn exchange_of(pairs: &[Pair], claim: Claim) -> Option<Exchange>
    ensures found { IfSome result (IsExchange pairs.now claim) }
    ensures none { IfNone result ((image : AnyClaim) → HasTwoInputs claim.shape → IsImage pairs.now claim image → ⊥) }
{
    let Shape::Swap { i, j, a, b } = claim.shape else {
        return None;
    };
    if claim.side != Side::First {
        return None;
    }
    let output = pair_of(pairs, PortKind::Output, claim.output)?;
    let one = pair_of(pairs, PortKind::Input, i)?;
    let other = pair_of(pairs, PortKind::Input, j)?;
    Some(Exchange {
        one,
        other,
        output,
        a,
        b,
    })
}
