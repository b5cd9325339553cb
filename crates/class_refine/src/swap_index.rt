//! Facts of claims of two inputs, found by their claims.

ghost use Rattle.std.specs.Prelude.{◌≡◌, ◌+◌, ◌<◌, ◌↔◌, IfOk, IsTrue, OnOk, Some as There, if◌then◌else◌, length, map};
ghost use Rattle.claim_core.specs.declared.claims.Claim.{Claim as AnyClaim};
ghost use Rattle.claim_core.specs.contracts.claims.ClaimPartialEq.TheImpl.{eq-value as claim_eq};
ghost use Rattle.account_core.specs.Given.{decided_by};
ghost use Rattle.class_refine.specs.Stable.{HasTwoInputs};
ghost use Rattle.class_refine.specs.Swaps.{IsIndexOfFirst, IsSwapIndex, number_in};

use crate::swaps::claim_at;
use account_core::Fact;
use claim_core::{Claim, Shape};
use indexmap::IndexMap;
use std::alloc::{AllocError, Global};

/// The numbers of the facts of claims of two inputs, by claim.
pub(crate) fn swaps_of(alloc: Global, facts: &[Fact]) -> Result<IndexMap<Claim, u64>, AllocError>
    ensures { IfOk result (λ swaps. IsSwapIndex (map decided_by facts.now) swaps.entries) }
{
    let mut swaps = IndexMap::new(alloc);
    for number in 0..facts.len() {
        add_fact(facts, number, &mut swaps)?;
    }
    Ok(swaps)
}

// Adds a fact, if it is of a claim of two inputs.
fn add_fact(
    facts: &[Fact],
    number: usize,
    swaps: &mut IndexMap<Claim, u64>,
) -> Result<(), AllocError>
    requires below { number < length facts.now }
    requires index { IsIndexOfFirst (map decided_by facts.now) number swaps.old.entries }
    ensures { OnOk result (IsIndexOfFirst (map decided_by facts.now) (number + 1) swaps.new.entries) }
{
    let claim = claim_at(facts, number);
    if !has_two_inputs(claim.shape) {
        return Ok(());
    }
    put(swaps, claim, number as u64)?;
    Ok(())
}

fn has_two_inputs(shape: Shape) -> bool
    ensures { IsTrue result ↔ HasTwoInputs shape }
{
    match shape {
        Shape::Swap { .. } => true,
        Shape::Up(_) => false,
        Shape::Down(_) => false,
    }
}

fn put(swaps: &mut IndexMap<Claim, u64>, claim: Claim, number: u64) -> Result<(), AllocError>
    ensures { OnOk result ((other : AnyClaim) → number_in swaps.new.entries other
        ≡ (if claim_eq.it claim other then There number else number_in swaps.old.entries other)) }
{
    swaps.insert(claim, number)?;
    Ok(())
}

/// The number of the fact of a claim of two inputs.
pub(crate) fn number_of(swaps: &IndexMap<Claim, u64>, claim: Claim) -> Option<u64>
    ensures { result ≡ number_in swaps.now.entries claim }
{
    swaps.get(&claim).copied()
}
