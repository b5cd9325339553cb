//! Graphs and matchings, from arrays.

ghost use Rattle.std.specs.Prelude.{◌≡◌, ◌<◌, ◌⊎◌, Err, IfOk, length, map};
ghost use Rattle.circuits.specs.Netlists.{IsOrdered};
ghost use Rattle.net_core.specs.Graph.{IsGraph};
ghost use Rattle.samples.specs.Samples.{gate_numbered, literal_numbered, net_numbered};

use crate::fault::SampleFault;
use items::Items;
use net_core::{Gate, Graph, Lit, Matching};
use std::alloc::{AllocError, Global};

/// The most inputs, gates or outputs of a sample, so that a caller has no bound to show.
const MOST_ITEMS: usize = 1_000;

/// The graph of n inputs, whose gates and outputs have literals of these numbers (the AIGER format).
///
/// # Errors
///
/// [`SampleFault::TooLarge`] for more than 1,000 inputs, gates or outputs; [`SampleFault::OutOfPlace`]
/// where a gate doesn't stand after its operands, or an output's signal isn't there; and
/// [`SampleFault::Memory`].
pub fn graph(
    alloc: Global,
    inputs: u32,
    gates: &[(u32, u32)],
    outputs: &[u32],
) -> Result<Graph, SampleFault>
    ensures graph { IfOk result (λ graph. graph ≡ net_numbered inputs gates.now outputs.now) }
    ensures sound { IfOk result IsGraph }
    ensures out_of_place { result ≡ Err SampleFault.OutOfPlace
        → IsOrdered (net_numbered inputs gates.now outputs.now)
        → ⊥ }
    ensures too_large { result ≡ Err SampleFault.TooLarge
        → (1000 < inputs) ⊎ (1000 < length gates.now) ⊎ (1000 < length outputs.now) }
{
    if inputs as usize > MOST_ITEMS {
        return Err(SampleFault::TooLarge);
    }
    if gates.len() > MOST_ITEMS {
        return Err(SampleFault::TooLarge);
    }
    if outputs.len() > MOST_ITEMS {
        return Err(SampleFault::TooLarge);
    }
    let gates = gates_of(alloc, gates)?;
    let outputs = literals_of(alloc, outputs)?;
    Graph::new(inputs, gates, outputs).ok_or(SampleFault::OutOfPlace)
}

fn gates_of(alloc: Global, numbers: &[(u32, u32)]) -> Result<Vec<Gate>, AllocError>
    ensures { IfOk result (λ gates. gates.items ≡ map gate_numbered numbers.now) }
{
    let gates = numbers.iter().map(|(a, b)| Gate {
        a: Lit(*a),
        b: Lit(*b),
    });
    gates.collect(alloc)
}

fn literals_of(alloc: Global, numbers: &[u32]) -> Result<Vec<Lit>, AllocError>
    ensures { IfOk result (λ literals. literals.items ≡ map literal_numbered numbers.now) }
{
    numbers.iter().map(|number| Lit(*number)).collect(alloc)
}

/// The matching with these entries.
pub fn matching(
    alloc: Global,
    inputs: &[(u32, bool)],
    outputs: &[(u32, bool)],
) -> Result<Matching, AllocError>
    ensures inputs { IfOk result (λ matching. matching.inputs ≡ inputs.now) }
    ensures outputs { IfOk result (λ matching. matching.outputs ≡ outputs.now) }
{
    Ok(Matching {
        inputs: Items::from_slice(alloc, inputs)?,
        outputs: Items::from_slice(alloc, outputs)?,
    })
}
