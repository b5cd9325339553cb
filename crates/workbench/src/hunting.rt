//! What simulation sees of the outputs of a netlist.

ghost use Rattle.std.specs.Prelude.{◌<◌, length};

use anyhow::Result;
use claim_core::Shape;
use net_core::Graph;
use sim_signature::hunt;
use std::alloc::{AllocError, Global};

/// The number that vectors are drawn from.
const SEED: u64 = 1;

/// How many shapes of each kind were seen broken.
#[derive(Clone, Copy, Debug)]
struct BrokenCounts {
    up: usize,
    down: usize,
    swap: usize,
}

/// Hunts for n rounds on each output, and prints a line for it: how many shapes of each kind were seen broken.
pub(crate) fn run<R: Print + AllocGlobal>(rt: &R, graph: &Graph, rounds: u32) -> Result<()> {
    for output in 0..graph.outputs().len() {
        let seen = seen_of(rt.alloc(), graph, output as u32, rounds)?;
        println!(rt;
            "output {output} up {} down {} swap {}",
            seen.up, seen.down, seen.swap
        )?;
    }
    Ok(())
}

/// How many shapes of an output are seen broken.
fn seen_of(
    alloc: Global,
    graph: &Graph,
    output: u32,
    rounds: u32,
) -> Result<BrokenCounts, AllocError>
    requires { output < length graph.now.outputs }
{
    let mut shapes = Vec::new(alloc);
    for sighting in hunt(alloc, graph, output, SEED, rounds)?.as_slice() {
        shapes.push(sighting.shape)?;
    }
    shapes.sort_unstable();
    shapes.dedup();
    Ok(BrokenCounts {
        up: shapes
            .iter()
            .filter(|shape| matches!(shape, Shape::Up(_)))
            .count(),
        down: shapes
            .iter()
            .filter(|shape| matches!(shape, Shape::Down(_)))
            .count(),
        swap: shapes
            .iter()
            .filter(|shape| matches!(shape, Shape::Swap { .. }))
            .count(),
    })
}
