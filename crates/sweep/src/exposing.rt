//! The netlist that questions about signals are asked of.

ghost use Rattle.std.specs.Prelude.{◌≡◌, ◌<◌, ◌^◌, IfOk, map};
ghost use Rattle.std.specs.List.{range_with_len};
ghost use Rattle.circuits.specs.Literals.{plain_literal};
ghost use Rattle.net_core.specs.Graph.{IsGraph};
ghost use Rattle.sweep.specs.Exposed.{exposed};

use net_core::{Graph, Lit};
use std::alloc::{AllocError, Global};

/// The graph with each signal as an output, in order: so a query, which is about outputs, can be about any two signals,
/// and a simulation says what each signal has.
///
/// # Errors
///
/// Only when out of memory.
pub(crate) fn exposed(alloc: Global, graph: &Graph) -> Result<Graph, AllocError>
    ensures exposed { IfOk result (λ other. other ≡ exposed graph.now) }
    ensures sound { IfOk result IsGraph }
{
    let gates = Vec::from_slice(alloc, graph.gates())?;
    let outputs = plain_literals(alloc, graph.signals() as u32)?;
    match Graph::new(graph.inputs(), gates, outputs) {
        Some(exposed) => Ok(exposed),
        None => unreachable!(),
    }
}

/// The literals of the first signals, without complement.
pub(crate) fn plain_literals(alloc: Global, signals: u32) -> Result<Vec<Lit>, AllocError>
    requires { signals < 2 ^ 31 }
    ensures { IfOk result (λ literals. literals.items ≡ map plain_literal (range_with_len 0 signals)) }
{
    let mut literals = Vec::with_capacity(alloc, signals as usize)?;
    for signal in 0..signals {
        literals.push(Lit(2 * signal))?;
    }
    Ok(literals)
}
