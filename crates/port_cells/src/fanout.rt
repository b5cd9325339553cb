ghost use Rattle.std.specs.Prelude.{◌≡◌, ◌+◌, ◌^◌, ◌<◌, All, OnOk, length};
ghost use Rattle.circuits.specs.Literals.{signal_of};
ghost use Rattle.net_core.specs.Graph.{AreInOrder};

use crate::lanes::WORDS;
use items::Items;
use net_core::{Gate, Graph, Lit};
use std::alloc::{AllocError, Global};

/// How many gates take about as long as comparing an output. Of a gate two literals' lanes are read and joined; of an
/// output that is compared the bits are counted besides.
const GATES_OF_OUTPUT: u64 = 4;

/// What an input reaches.
pub(crate) struct Fanout {
    /// A bit for each gate, 64 in a word: a list of the gates would take 32 times as much where an input reaches all of
    /// them, and a circuit of 1,024 inputs and 100,000 gates takes 13 megabytes.
    pub(crate) gates: Items<u64>,
    /// How many gates there are.
    pub(crate) count: u64,
    /// The outputs, ascending.
    pub(crate) outputs: Items<u32>,
}

// By hand, so that each exit of a function has one call for it (docs/IDIOMS.md).
impl Drop for Fanout {
    fn drop(self) {
        let Fanout {
            gates: _gates,
            count: _count,
            outputs: _outputs,
        } = self;
    }
}

impl Fanout {
    /// How many words of 64 vectors are computed where the input is inverted, with those that comparing outputs is
    /// worth.
    pub(crate) fn words(&self) -> u64 {
        let outputs = self.outputs.len() as u64;
        self.count
            .saturating_add(outputs.saturating_mul(GATES_OF_OUTPUT))
            .saturating_mul(WORDS as u64)
    }
}

/// What each input of a circuit reaches.
pub(crate) fn fanouts(alloc: Global, graph: &Graph) -> Result<Items<Fanout>, AllocError> {
    let mut fanouts = Items::new(alloc);
    for input in 0..graph.inputs() {
        fanouts.push(fanout_of(alloc, graph, input)?)?;
    }
    Ok(fanouts)
}

// What an input reaches.
fn fanout_of(alloc: Global, graph: &Graph, input: u32) -> Result<Fanout, AllocError>
    requires { input < graph.now.inputs }
{
    let mut reached = vec![in alloc; false; graph.signals()]?;
    reached[input as usize + 1] = true;
    let first = graph.inputs() as usize + 1;
    let gates = reached_gates(alloc, graph.gates(), first, &mut reached)?;
    let outputs = reached_outputs(alloc, graph.outputs(), &reached)?;
    Ok(Fanout {
        count: ones_of(&gates),
        gates,
        outputs,
    })
}

// The gates that read a reached signal, which are reached then too. Signal `first` is the first gate.
fn reached_gates(
    alloc: Global,
    gates: &[Gate],
    first: usize,
    reached: &mut [bool],
) -> Result<Items<u64>, AllocError>
    requires order { AreInOrder first gates.now }
    requires room { first + length gates.now ≡ length reached.old }
    ensures { length reached.new ≡ length reached.old }
{
    let mut words = Items::new(alloc);
    let mut word = 0u64;
    for t in 0..gates.len() {
        if reads(gates[t], reached) {
            reached[first + t] = true;
            word |= 1u64 << (t % 64);
        }
        if t % 64 == 63 {
            words.push(word)?;
            word = 0;
        }
    }
    words.push(word)?;
    Ok(words)
}

// Whether a gate reads a reached signal.
fn reads(gate: Gate, reached: &[bool]) -> bool
    requires first_operand { signal_of gate.a < length reached.now }
    requires second_operand { signal_of gate.b < length reached.now }
{
    reached[gate.a.signal() as usize] | reached[gate.b.signal() as usize]
}

// How many bits are 1.
fn ones_of(words: &[u64]) -> u64 {
    let mut ones = 0u64;
    for word in words.iter() {
        ones = ones.saturating_add(u64::from(word.count_ones()));
    }
    ones
}

// The outputs whose signals are reached.
fn reached_outputs(
    alloc: Global,
    outputs: &[Lit],
    reached: &[bool],
) -> Result<Items<u32>, AllocError>
    requires signals { All (λ output. signal_of output < length reached.now) outputs.now }
    requires few { length outputs.now < 2 ^ 32 }
{
    let mut found = Items::new(alloc);
    for (k, output) in outputs.iter().enumerate() {
        if reached[output.signal() as usize] {
            found.push(k as u32)?;
        }
    }
    Ok(found)
}
