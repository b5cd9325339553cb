//! Vectors that were seen to break claims.

ghost use Rattle.std.specs.Prelude.{◌≡◌, ◌+◌, ◌<◌, ◌≤◌, IfOk, IfSome, length};
ghost use Rattle.claim_core.specs.Claims.{BreaksShape, IsPlaced};
ghost use Rattle.fact_tests.specs.Hunting.{IsGroup};

use bit_list::Bits;
use claim_core::Shape;
use net_core::Graph;
use sim_signature::Signatures;
use std::alloc::{AllocError, Global};
use std::marker::Model;

/// How many blocks of 64 bytes are kept of a circuit: an output has one for each input, and one more. They take 8 MiB,
/// which is enough for all outputs of a circuit with 361 inputs and as many outputs.
const MOST_BLOCKS: u32 = 131_072;

/// What is seen of the outputs of a circuit, a group of them at a time: as many as their signatures are kept of. They
/// are made when one of the group is asked about, once: 512 vectors, since a claim that they all keep is nearly always
/// one that holds. Contracts see it as the circuit.
#[derive(Drop)]
pub(crate) struct Sightings<'a> {
    graph: &'a Graph,
    seed: u64,
    /// The signatures of the group that was asked about last.
    last_group: Option<Signatures<'a>>,
}

impl<'a> Model for Sightings<'a> {
    ghost use Rattle.circuits.specs.Netlists.{Net};
    ghost use Rattle.fact_tests.specs.Hunting.{IsLastGroup};

    ghost Value = { Net };

    ghost view = { λ a. a.graph.now };

    ghost invariant = { λ a. IsLastGroup a.graph.now a.last_group };
}

impl<'a> Sightings<'a> {
    /// Nothing was simulated.
    pub(crate) fn new(graph: &'a Graph, seed: u64) -> Sightings<'a>
        ensures { result ≡ graph.now }
    {
        Sightings {
            graph,
            seed,
            last_group: None,
        }
    }

    /// A vector that breaks the claim of a shape at an output, where one is seen.
    pub(crate) fn vector_of(
        &mut self,
        alloc: Global,
        output: u32,
        shape: Shape,
    ) -> Result<Option<Bits>, AllocError>
        requires output { output < length self.old.outputs }
        requires placed { IsPlaced self.old.inputs shape }
        ensures same { self.new ≡ self.old }
        ensures breaks { IfOk result (λ found. IfSome found (BreaksShape self.old output shape)) }
    {
        if let Some(group) = &self.last_group {
            if group.covers(output) {
                return group.sighting(alloc, output, shape);
            }
        }
        // the last group goes before the next one comes
        self.last_group = None;
        let group = group_of(alloc, self.graph, output, self.seed)?;
        let vector = group.sighting(alloc, output, shape)?;
        self.last_group = Some(group);
        Ok(vector)
    }
}

/// The signatures of an output's group.
fn group_of<'a>(
    alloc: Global,
    graph: &'a Graph,
    output: u32,
    seed: u64,
) -> Result<Signatures<'a>, AllocError>
    requires { output < length graph.now.outputs }
    ensures { IfOk result (IsGroup graph.now output) }
{
    let (first, count) = group_with(graph, output);
    Signatures::new(alloc, graph, first, count, seed)
}

/// The first output of an output's group, and how many the group has.
pub(crate) fn group_with(graph: &Graph, output: u32) -> (u32, u32)
    requires { output < length graph.now.outputs }
    ensures first { result.0 ≤ output }
    ensures last { output < result.0 + result.1 }
    ensures within { result.0 + result.1 ≤ length graph.now.outputs }
{
    let outputs = graph.outputs().len() as u32;
    let size = (MOST_BLOCKS / (graph.inputs() + 1)).max(1);
    let first = output - output % size;
    (first, size.min(outputs - first))
}
