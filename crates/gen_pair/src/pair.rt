ghost use Rattle.std.specs.Prelude.{◌≡◌, IfOk};
ghost use Rattle.circuits.specs.Bijections.{IsSignedBijection};
ghost use Rattle.circuits.specs.Matches.{IsMatchOfFunctions};
ghost use Rattle.net_core.specs.Graph.{IsGraph};
ghost use Rattle.gen_pair.specs.Mixing.{making, made};
ghost use Rattle.gen_pair.specs.Names.{HasNames};
ghost use Rattle.gen_pair.specs.Pairs.{HasSizes, ArePairOf};
ghost use Rattle.gen_pair.specs.Shuffles.{hidden_matching};

use crate::hidden::hidden_ports;
use crate::naming::{Letters, with_names};
use crate::windows::{INPUTS, OUTPUTS, make_parts};
use net_core::{Graph, Matching};
use net_file::Named;
use port_moves::moved_graph;
use rand_pcg::Lcg64Xsh32;
use std::alloc::{AllocError, Global};

/// Two netlists with names of their ports, and a match of them.
#[derive(Debug, Drop)]
pub struct GenPair {
    pub first: Named,
    pub second: Named,
    pub hidden: Matching,
}

// The stream of the generator, the same for each number: that of PCG's own examples. Any would do.
const STREAM: u64 = 54;

// The letters that the names of the first netlist's ports begin with.
const FIRST_LETTERS: Letters = Letters {
    input: b'a',
    output: b'f',
};

// The letters of the second netlist's ports: others, so that no port of the one has the name of a port of the other.
const SECOND_LETTERS: Letters = Letters {
    input: b'p',
    output: b'q',
};

/// The pair that a number gives, the same each time: netlists of 64 inputs, 32 outputs and 2,000 gates. The second is
/// the first under other places and signs of its ports, with the operands of each gate exchanged, and `hidden` says
/// where each port went: it is a match.
pub fn make(alloc: Global, number: u64) -> Result<GenPair, AllocError>
    ensures matches { IfOk result
        (λ pair. IsMatchOfFunctions pair.first.graph pair.second.graph pair.hidden.inputs pair.hidden.outputs) }
    ensures drawn { IfOk result
        (λ pair. ArePairOf number pair.first.graph pair.second.graph pair.hidden.inputs pair.hidden.outputs) }
    ensures first_size { IfOk result (λ pair. HasSizes pair.first.graph) }
    ensures second_size { IfOk result (λ pair. HasSizes pair.second.graph) }
    ensures first_names { IfOk result (λ pair. HasNames 97 102 pair.first) }
    ensures second_names { IfOk result (λ pair. HasNames 112 113 pair.second) }
{
    let mut random = Lcg64Xsh32::new(number, STREAM);
    let first = first_graph(alloc, &mut random)?;
    let hidden = hidden_matching(alloc, &mut random)?;
    let second = moved_graph(alloc, &first, &hidden)?;
    let first = with_names(alloc, first, FIRST_LETTERS)?;
    let second = with_names(alloc, second, SECOND_LETTERS)?;
    Ok(GenPair {
        first,
        second,
        hidden,
    })
}

// The first netlist, from the generator's next words.
fn first_graph(alloc: Global, random: &mut Lcg64Xsh32) -> Result<Graph, AllocError>
    ensures sizes { IfOk result HasSizes }
    ensures sound { IfOk result IsGraph }
    ensures made { IfOk result (λ net. making net.gates net.outputs random.new ≡ made 32 random.old) }
{
    let parts = make_parts(alloc, random)?;
    match Graph::new(INPUTS, parts.gates, parts.outputs) {
        Some(graph) => Ok(graph),
        None => unreachable!(),
    }
}

// Where the ports go, from the generator's next words: the inputs first, then the outputs.
fn hidden_matching(alloc: Global, random: &mut Lcg64Xsh32) -> Result<Matching, AllocError>
    ensures inputs { IfOk result (λ matching. IsSignedBijection 64 matching.inputs) }
    ensures outputs { IfOk result (λ matching. IsSignedBijection 32 matching.outputs) }
    ensures drawn { IfOk result (λ matching.
        ((matching.inputs, matching.outputs), random.new) ≡ hidden_matching random.old) }
{
    let inputs = hidden_ports(alloc, random, INPUTS)?;
    let outputs = hidden_ports(alloc, random, OUTPUTS)?;
    Ok(Matching { inputs, outputs })
}
