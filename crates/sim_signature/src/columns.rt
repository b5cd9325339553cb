//! The blocks of outputs on 512 vectors, and on these with each input inverted in turn.

ghost use Rattle.std.specs.Prelude.{◌≡◌, ◌<◌, ◌≤◌, ◌+◌, ◌^◌, length, IfOk, OnOk};
ghost use Rattle.sim_signature.specs.declared.change.Change.TheVariants.{Nothing as nothing};
ghost use Rattle.sim_signature.specs.Signatures.{AreColumns, AreSigned, IsColumn};

use crate::simulation::Simulation;
use items::Items;
use net_core::Graph;
use std::alloc::{AllocError, Global};
use std::simd::prelude::*;

/// A column for the vectors as they are, and one for each input inverted: in each a block for each of `count` outputs
/// from the output `first` on. One pass over the gates serves all of these outputs, and for an inverted input only the
/// gates are evaluated again that it reaches.
///
/// # Errors
///
/// Only when out of memory.
pub(crate) fn columns(
    alloc: Global,
    graph: &Graph,
    inputs: &[u64x8],
    first: u32,
    count: u32,
) -> Result<Vec<Items<u64x8>>, AllocError>
    requires inputs { length inputs.now ≡ graph.now.inputs }
    requires there { first + count ≤ length graph.now.outputs }
    ensures { IfOk result (λ columns.
        AreSigned (record { net = graph.now; first = first; count = count; blocks = inputs.now }) columns.items) }
{
    // it brings in that the outputs can be counted
    let _outputs = graph.outputs();
    let mut simulation = Simulation::new(alloc, graph, inputs)?;
    let mut columns = Vec::new(alloc);
    columns.push(column(alloc, &simulation, first, count)?)?;
    add_inverted(
        alloc,
        &mut simulation,
        graph.inputs(),
        first,
        count,
        &mut columns,
    )?;
    Ok(columns)
}

/// Adds a column for each input inverted.
fn add_inverted(
    alloc: Global,
    simulation: &mut Simulation<'_>,
    inputs: u32,
    first: u32,
    count: u32,
    columns: &mut Vec<Items<u64x8>>,
) -> Result<(), AllocError>
    requires inputs { inputs ≡ simulation.old.net.inputs }
    requires there { first + count ≤ length simulation.old.net.outputs }
    requires few { first + count < 2 ^ 32 }
    requires columns { AreColumns (record {
      net = simulation.old.net;
      first = first;
      count = count;
      blocks = simulation.old.blocks;
    }) 0 columns.old.items }
    ensures { OnOk result
        (AreColumns (record { net = simulation.old.net; first = first; count = count; blocks = simulation.old.blocks })
        inputs columns.new.items) }
{
    for input in 0..inputs {
        simulation.invert(input);
        columns.push(column(alloc, simulation, first, count)?)?;
    }
    Ok(())
}

/// The blocks of `count` outputs from `first` on, on the vectors that the change at hand gives.
fn column(
    alloc: Global,
    simulation: &Simulation<'_>,
    first: u32,
    count: u32,
) -> Result<Items<u64x8>, AllocError>
    requires there { first + count ≤ length simulation.now.net.outputs }
    requires few { first + count < 2 ^ 32 }
    ensures { IfOk result
        (IsColumn (record { net = simulation.now.net; first = first; count = count; blocks = simulation.now.blocks })
        simulation.now.change) }
{
    let mut column = Items::with_capacity(alloc, count as usize)?;
    for k in 0..count {
        column.push(simulation.output_block(first + k))?;
    }
    Ok(column)
}
