//! The inputs that the outputs of a circuit read through gates.

use account_core::PairableGraphs;
use items::Items;
use net_core::Graph;
use sim_signature::Supports;
use std::alloc::{AllocError, Global};

/// For each output of either circuit the inputs that it reads through gates.
#[derive(Drop)]
pub(crate) struct Reads {
    pub(crate) first: Items<Items<u32>>,
    pub(crate) second: Items<Items<u32>>,
}

impl Reads {
    /// What the outputs of two circuits read.
    pub(crate) fn new(alloc: Global, graphs: &PairableGraphs<'_>) -> Result<Reads, AllocError> {
        let first = reads_of(alloc, graphs.first())?;
        let second = reads_of(alloc, graphs.second())?;
        Ok(Reads { first, second })
    }
}

/// The outputs, n of them, those first that read the fewest inputs. They are gone over once for each number of inputs,
/// once in a search: the order is for tallies, each of which looks at all inputs of its outputs.
pub(crate) fn by_count(
    alloc: Global,
    reads: &[Items<u32>],
    inputs: u32,
    outputs: u32,
) -> Result<Vec<u32>, AllocError> {
    let mut order = Vec::new(alloc);
    for count in 0..inputs as usize + 1 {
        add_all_reading(reads, count, outputs, &mut order)?;
    }
    Ok(order)
}

// Adds the outputs that read this many inputs.
fn add_all_reading(
    reads: &[Items<u32>],
    count: usize,
    outputs: u32,
    order: &mut Vec<u32>,
) -> Result<(), AllocError> {
    for output in 0..outputs {
        if is_reading(reads, output, count) {
            order.push(output)?;
        }
    }
    Ok(())
}

fn is_reading(reads: &[Items<u32>], output: u32, count: usize) -> bool {
    match reads.get(output as usize) {
        Some(inputs) => inputs.len() == count,
        None => false,
    }
}

// For each output the inputs that it reads through gates, ascending.
fn reads_of(alloc: Global, graph: &Graph) -> Result<Items<Items<u32>>, AllocError> {
    let supports = Supports::new(alloc, graph)?;
    let mut reads = Items::new(alloc);
    for output in 0..graph.outputs().len() as u32 {
        reads.push(supports.inputs_of(alloc, output)?)?;
    }
    Ok(reads)
}
