//! Claims of one input that are open: neither vectors break them, nor do the paths from inputs to outputs show that
//! they hold.

ghost use Rattle.std.specs.Prelude.{IfSome};
ghost use Rattle.claim_core.specs.Claims.{IsClaim};
ghost use Rattle.fact_bans.specs.Asking.{AreSame, MayAskBy, ServesBy, loans};

use crate::asker::Asker;
use crate::deciding::decide;
use account_core::{Evidence, Fact, PairableGraphs};
use ban_book::one_input;
use broken_claims::{BrokenClaims, OneInput, Sample};
use claim_core::Claim;
use cnf_core::Stop;
use net_core::Side;
use oracle_core::Oracle;
use std::alloc::{AllocError, Global};

/// How many lines may be learned before no more claims are asked: about half a second's.
const MOST_LINES: u64 = 20_000;

/// The seed of the vectors near those that questions gave. It may be the same in each run.
const SEED: u64 = 1;

/// Has the claims of one input decided that are open, one output after the other, until many lines are learned. Where
/// one fails, vectors near the one that breaks it are looked at, so that claims that they break aren't asked.
///
/// # Errors
///
/// `Spent` where a line had to be learned and the ledger's budget was spent. `Memory` when out of memory.
pub(crate) fn decide_open<O: Oracle>(
    graphs: &PairableGraphs<'_>,
    asker: &mut Asker<'_, O>,
) -> Result<(), Stop>
    requires may { MayAskBy graphs.now (loans O.known asker.old) }
    ensures same { AreSame (loans O.known asker.old) (loans O.known asker.new) }
    ensures serves { ServesBy (loans O.known asker.old) (loans O.known asker.new) result }
{
    // the facts of an oracle are of its circuits
    let _facts = asker.oracle.facts();
    let mut first = Sample::new(asker.alloc, graphs.first(), SEED)?;
    let mut second = Sample::new(asker.alloc, graphs.second(), SEED)?;
    let lines = asker.ledger.learned().saturating_add(MOST_LINES);
    for place in 0..asker.broken.claims() {
        if asker.ledger.learned() >= lines {
            return Ok(());
        }
        decide_at(graphs, asker, place, &mut first, &mut second)?;
    }
    Ok(())
}

// Has the claim of one input at a place decided, if it is open.
fn decide_at<O: Oracle>(
    graphs: &PairableGraphs<'_>,
    asker: &mut Asker<'_, O>,
    place: usize,
    first: &mut Sample<'_>,
    second: &mut Sample<'_>,
) -> Result<(), Stop>
    requires may { MayAskBy graphs.now (loans O.known asker.old) }
    ensures same { AreSame (loans O.known asker.old) (loans O.known asker.new) }
    ensures serves { ServesBy (loans O.known asker.old) (loans O.known asker.new) result }
{
    // the facts of an oracle are of its circuits
    let _facts = asker.oracle.facts();
    let Some(claim) = claim_at(graphs, asker.broken.open_claim(place)) else {
        return Ok(());
    };
    let decided = decide(asker, claim)?;
    if decided.holds {
        return Ok(());
    }
    let facts = asker.oracle.facts();
    look_near_last(asker.alloc, facts, asker.broken, first, second)?;
    Ok(())
}

// The claim of one input, if it is of the circuits.
fn claim_at(graphs: &PairableGraphs<'_>, found: Option<OneInput>) -> Option<Claim>
    ensures { IfSome result (IsClaim graphs.now) }
{
    let OneInput {
        side,
        output,
        input,
        value,
    } = found?;
    let graph = graphs.side(side);
    if output as usize >= graph.outputs().len() {
        return None;
    }
    if input >= graph.inputs() {
        return None;
    }
    Some(Claim {
        side,
        output,
        shape: one_input(input, value),
    })
}

// Looks at vectors near the one by which the claim fails that was decided last, if it does.
fn look_near_last(
    alloc: Global,
    facts: &[Fact],
    broken: &mut BrokenClaims,
    first: &mut Sample<'_>,
    second: &mut Sample<'_>,
) -> Result<(), AllocError> {
    let Some((side, vector)) = last_vector(alloc, facts)? else {
        return Ok(());
    };
    match side {
        Side::First => broken.look_near(side, first, vector),
        Side::Second => broken.look_near(side, second, vector),
    }
}

// The vector by which the claim of the last fact fails, with its circuit.
fn last_vector(alloc: Global, facts: &[Fact]) -> Result<Option<(Side, Vec<bool>)>, AllocError> {
    let Some(fact) = facts.get(facts.len().wrapping_sub(1)) else {
        return Ok(None);
    };
    let Evidence::Fails(vector) = &fact.evidence else {
        return Ok(None);
    };
    let mut bits = Vec::with_capacity(alloc, vector.len())?;
    for place in 0..vector.len() {
        bits.push(vector.get(place))?;
    }
    Ok(Some((fact.claim.side, bits)))
}
