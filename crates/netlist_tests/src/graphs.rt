//! Circuits that are worked out by hand.

mod covers;
mod in_order;
mod nets;

use net_core::{Graph, Lit, lit_value};
use samples::{SampleFault, graph};
use std::alloc::{AllocError, Global};
use std::test::Fail;

/// A: output 0 is the AND of its two inputs, output 1 its first input.
fn first(alloc: Global) -> Result<Graph, SampleFault> {
    graph(alloc, 2, &[(2, 4)], &[6, 2])
}

// Whether the signals of A are these on two inputs.
fn evaluates_to(graph: &Graph, a: bool, b: bool, conjunction: bool) -> bool {
    if (graph.inputs() != 2) | (graph.signals() != 4) {
        return false;
    }
    let mut values = [false; 4];
    graph.eval_into([a, b].as_slice(), values.as_mut_slice());
    (values == [false, a, b, conjunction])
        & (lit_value(values.as_slice(), Lit(7)) != conjunction)
        & lit_value(values.as_slice(), Lit(1))
}

#[test]
fn evaluates(rt: HostRuntime) -> Result<(), Fail> {
    let graph = first(rt.alloc())?;
    for (a, b, conjunction) in [
        (false, false, false),
        (false, true, false),
        (true, false, false),
        (true, true, true),
    ] {
        assert!(rt; evaluates_to(&graph, a, b, conjunction), "at {a} {b}");
    }
    Ok(())
}

/// Gate 0 is the AND of the inputs, gate 1 reads it and input 0, and gate 2 reads input 1 alone.
fn three_gates(alloc: Global) -> Result<Graph, SampleFault> {
    graph(alloc, 2, &[(2, 4), (7, 2), (4, 4)], &[8, 11, 6, 3, 1])
}

fn has_cone(alloc: Global, graph: &Graph, output: u32, gates: &[u32]) -> Result<bool, AllocError> {
    if output as usize >= graph.outputs().len() {
        return Ok(false);
    }
    Ok(graph.cone(alloc, output)?.as_slice() == gates)
}

// The outputs of these gates, each with the gates of its cone.
static CONES: [(u32, &[u32]); 5] = [(0, &[0, 1]), (1, &[2]), (2, &[0]), (3, &[]), (4, &[])];

#[test]
fn lists_cones(rt: HostRuntime) -> Result<(), Fail> {
    let graph = three_gates(rt.alloc())?;
    for (output, gates) in CONES.iter() {
        assert!(rt;
            has_cone(rt.alloc(), &graph, *output, gates)?,
            "at {output}"
        );
    }
    Ok(())
}
