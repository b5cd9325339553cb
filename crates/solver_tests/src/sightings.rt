//! Claims that are known of an AND gate, or found broken by trying all vectors.

use crate::truth_tables::{is_on, outputs};
use bit_list::Bits;
use claim_core::Shape;
use net_core::Graph;
use rand_pcg::Pcg32;
use samples::{drawn, graph};
use sim_signature::{Sighting, hunt};
use std::alloc::{AllocError, Global};
use std::test::Fail;

fn hunted(
    alloc: Global,
    circuit: &Graph,
    seed: u64,
    rounds: u32,
) -> Result<Vec<Sighting>, AllocError> {
    if circuit.outputs().is_empty() {
        return Ok(Vec::new(alloc));
    }
    hunt(alloc, circuit, 0, seed, rounds)
}

fn have_shapes(sightings: &[Sighting], shapes: &[Shape]) -> bool {
    for (sighting, shape) in sightings.iter().zip(shapes.iter()) {
        if sighting.shape != *shape {
            return false;
        }
    }
    sightings.len() == shapes.len()
}

fn have_vector(sightings: &[Sighting], vector: &Bits) -> bool {
    for sighting in sightings.iter() {
        if sighting.vector != *vector {
            return false;
        }
    }
    true
}

/// The claims that an AND of inputs 0 and 1 breaks.
const BROKEN: [Shape; 3] = [
    Shape::Down(0),
    Shape::Swap {
        i: 0,
        j: 1,
        a: true,
        b: true,
    },
    Shape::Down(1),
];

/// What is sighted of an AND gate.
fn of_the_gate(alloc: Global, rounds: u32) -> Result<Vec<Sighting>, Fail> {
    let circuit = graph(alloc, 2, &[(2, 4)], &[6])?;
    Ok(hunted(alloc, &circuit, 1, rounds)?)
}

fn are_broken_by_ones(alloc: Global, sightings: &[Sighting]) -> Result<bool, AllocError> {
    let ones = Bits::from_slice(alloc, &[true, true])?;
    Ok(have_shapes(sightings, &BROKEN) & have_vector(sightings, &ones))
}

#[test]
fn sights_each_broken_claim_of_an_and_gate(rt: HostRuntime) -> Result<(), Fail> {
    let sightings = of_the_gate(rt.alloc(), 1)?;
    assert!(rt; are_broken_by_ones(rt.alloc(), &sightings)?);
    assert!(rt; of_the_gate(rt.alloc(), 0)?.is_empty());
    Ok(())
}

fn is_of_the_gate(shape: Shape) -> bool {
    shape == BROKEN[0] || shape == BROKEN[1] || shape == BROKEN[2]
}

fn is_true_at_the_gate(vector: &Bits) -> bool {
    vector.len() == 7 && vector.get(0) && vector.get(1)
}

fn are_of_the_gate(sightings: &[Sighting]) -> bool {
    for sighting in sightings.iter() {
        if !(is_of_the_gate(sighting.shape) & is_true_at_the_gate(&sighting.vector)) {
            return false;
        }
    }
    true
}

#[test]
fn hunts_a_broken_claim_once(rt: HostRuntime) -> Result<(), Fail> {
    // of seven inputs, so that vectors are drawn: an AND of the first two, which no other input changes
    let circuit = graph(rt.alloc(), 7, &[(2, 4)], &[16])?;
    let sightings = hunted(rt.alloc(), &circuit, 42, 2)?;
    assert!(rt; (sightings.len() == BROKEN.len()) & are_of_the_gate(&sightings));
    Ok(())
}

/// Whether the output falls somewhere where the masked inputs go from the values to the opposite ones.
fn falls_somewhere(outputs: &[bool], mask: usize, values: usize) -> bool {
    for code in 0..8 {
        if (code & mask == values) & is_on(outputs, code) & !is_on(outputs, code ^ mask) {
            return true;
        }
    }
    false
}

/// Adds the claims of one input of three, each with a mask of its input and with its value.
fn add_claims_of_one(list: &mut Vec<(Shape, usize, usize)>) -> Result<(), AllocError> {
    for (i, mask) in [(0, 1), (1, 2), (2, 4)] {
        list.push((Shape::Up(i), mask, 0))?;
        list.push((Shape::Down(i), mask, mask))?;
    }
    Ok(())
}

/// Adds the claims of two inputs, which have these bits of a mask, with their values.
fn add_swaps(
    (i, one): (u32, usize),
    (j, other): (u32, usize),
    list: &mut Vec<(Shape, usize, usize)>,
) -> Result<(), AllocError> {
    let mask = one | other;
    for (a, b, values) in [
        (false, false, 0),
        (true, false, one),
        (false, true, other),
        (true, true, mask),
    ] {
        list.push((Shape::Swap { i, j, a, b }, mask, values))?;
    }
    Ok(())
}

/// All claims about three inputs, each with a mask of its inputs and with their values.
fn claims(alloc: Global) -> Result<Vec<(Shape, usize, usize)>, AllocError> {
    let mut list = Vec::new(alloc);
    add_claims_of_one(&mut list)?;
    add_swaps((0, 1), (1, 2), &mut list)?;
    add_swaps((0, 1), (2, 4), &mut list)?;
    add_swaps((1, 2), (2, 4), &mut list)?;
    Ok(list)
}

fn is_sighted(sightings: &[Sighting], shape: Shape) -> bool {
    for sighting in sightings.iter() {
        if sighting.shape == shape {
            return true;
        }
    }
    false
}

/// Whether the claims that are sighted are those that some vector breaks.
fn are_the_broken(
    sightings: &[Sighting],
    outputs: &[bool],
    claims: &[(Shape, usize, usize)],
) -> bool {
    for (shape, mask, values) in claims.iter() {
        if is_sighted(sightings, *shape) != falls_somewhere(outputs, *mask, *values) {
            return false;
        }
    }
    true
}

fn sights_the_broken(alloc: Global, circuit: &Graph) -> Result<bool, Fail> {
    let outputs = outputs(alloc, circuit)?;
    let claims = claims(alloc)?;
    let sightings = hunted(alloc, circuit, 1, 1)?;
    Ok(are_the_broken(&sightings, &outputs, &claims))
}

#[test]
fn sights_what_some_vector_breaks(rt: HostRuntime) -> Result<(), Fail> {
    let mut numbers = Pcg32::new(11, 54);
    for round in 0..20 {
        let circuit = drawn(rt.alloc(), &mut numbers)?;
        assert!(rt;
            sights_the_broken(rt.alloc(), &circuit)?,
            "in round {round}"
        );
    }
    Ok(())
}
