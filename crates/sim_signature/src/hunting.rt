//! The hunt for vectors that break claims.

ghost use Rattle.std.specs.Prelude.{◌≡◌, ◌<◌, ◌≤◌, true, length, All, Contains, IfOk, OnOk};
ghost use Rattle.claim_core.specs.declared.claims.Shape.{Shape};
ghost use Rattle.claim_core.specs.Claims.{IsPlaced, ShapeFails};
ghost use Rattle.sim_signature.specs.Sightings.{AreBroken, AreLeft, Hunted, IsSighted};
ghost use Rattle.sim_signature.specs.Signatures.{Covers};

use crate::claims::claims;
use crate::reading::read_inputs;
use crate::sighting::Sighting;
use crate::signatures::Signatures;
use crate::vectors::FEW_INPUTS;
use claim_core::Shape;
use net_core::Graph;
use rand_pcg::Pcg32;
use std::alloc::{AllocError, Global};

/// Looks for vectors that break claims of an output: on at most six inputs among all vectors, and on more
/// inputs among 512 vectors a round, drawn from the number `seed`, and these with one input inverted.
/// There only claims about the inputs that the output reads are hunted, and a claim that is broken is not hunted again.
///
/// # Errors
///
/// Only when out of memory.
pub fn hunt(
    alloc: Global,
    graph: &Graph,
    output: u32,
    seed: u64,
    rounds: u32,
) -> Result<Vec<Sighting>, AllocError>
    requires { output < length graph.now.outputs }
    ensures broken { IfOk result (λ sightings. AreBroken graph.now output sightings.items) }
    ensures all { IfOk result (λ sightings. (shape : Shape)
        → graph.now.inputs ≤ 6
        → 1 ≤ rounds
        → IsPlaced graph.now.inputs shape
        → ShapeFails graph.now output shape
        → IsSighted shape sightings.items) }
{
    let mut generator = Pcg32::new(seed, output as u64);
    if graph.inputs() > FEW_INPUTS {
        return hunt_drawn(alloc, graph, output, &mut generator, rounds);
    }
    // so few inputs need no second round: the first has all vectors
    if rounds == 0 {
        return Ok(Vec::new(alloc));
    }
    hunt_all(alloc, graph, output, &mut generator)
}

/// Looks among all vectors.
fn hunt_all(
    alloc: Global,
    graph: &Graph,
    output: u32,
    generator: &mut Pcg32,
) -> Result<Vec<Sighting>, AllocError>
    requires output { output < length graph.now.outputs }
    requires few { graph.now.inputs ≤ 6 }
    ensures broken { IfOk result (λ sightings. AreBroken graph.now output sightings.items) }
    ensures all { IfOk result (λ sightings. (shape : Shape)
        → IsPlaced graph.now.inputs shape
        → ShapeFails graph.now output shape
        → IsSighted shape sightings.items) }
{
    let mut sightings = Vec::new(alloc);
    let inputs = vec![in alloc; true; graph.inputs() as usize]?;
    let claims = claims(alloc, &inputs)?;
    let signatures = Signatures::drawn(alloc, graph, output, 1, generator)?;
    sight_all(alloc, &signatures, output, &claims, &mut sightings)?;
    Ok(sightings)
}

/// Looks through rounds of drawn vectors.
fn hunt_drawn(
    alloc: Global,
    graph: &Graph,
    output: u32,
    generator: &mut Pcg32,
    rounds: u32,
) -> Result<Vec<Sighting>, AllocError>
    requires { output < length graph.now.outputs }
    ensures { IfOk result (λ sightings. AreBroken graph.now output sightings.items) }
{
    // it brings in that the inputs can be counted
    let _inputs = graph.inputs();
    let mut sightings = Vec::new(alloc);
    let mut left = claims(alloc, &read_inputs(alloc, graph, output)?)?;
    for _ in 0..rounds {
        let signatures = Signatures::drawn(alloc, graph, output, 1, generator)?;
        left = sight_all(alloc, &signatures, output, &left, &mut sightings)?;
    }
    Ok(sightings)
}

/// Notes a vector for each of the claims that the signatures of an output show broken, and gives the other claims.
fn sight_all(
    alloc: Global,
    signatures: &Signatures<'_>,
    output: u32,
    claims: &[Shape],
    sightings: &mut Vec<Sighting>,
) -> Result<Vec<Shape>, AllocError>
    requires covers { Covers signatures.now output }
    requires placed { All (IsPlaced signatures.now.net.inputs) claims.now }
    ensures placed { IfOk result (λ left. All (IsPlaced signatures.now.net.inputs) left.items) }
    ensures left { IfOk result (λ left. AreLeft claims.now sightings.new.items left.items) }
    ensures hunted { OnOk result
        (Hunted signatures.now output (Contains claims.now) sightings.old.items sightings.new.items) }
{
    let mut left = Vec::new(alloc);
    for shape in claims.iter() {
        if !sight(alloc, signatures, output, *shape, sightings)? {
            left.push(*shape)?;
        }
    }
    Ok(left)
}

/// Notes a vector that breaks the claim, if the signatures of an output show one, and says whether they do.
fn sight(
    alloc: Global,
    signatures: &Signatures<'_>,
    output: u32,
    shape: Shape,
    sightings: &mut Vec<Sighting>,
) -> Result<bool, AllocError>
    requires covers { Covers signatures.now output }
    requires placed { IsPlaced signatures.now.net.inputs shape }
    ensures hunted { OnOk result
        (Hunted signatures.now output (λ other. other ≡ shape) sightings.old.items sightings.new.items) }
    ensures sighted { IfOk result (λ found. found ≡ true → IsSighted shape sightings.new.items) }
{
    let Some(vector) = signatures.sighting(alloc, output, shape)? else {
        return Ok(false);
    };
    sightings.push(Sighting { shape, vector })?;
    Ok(true)
}
