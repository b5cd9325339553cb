//! Which inputs an output reaches through gates.

ghost use Rattle.std.specs.Prelude.{◌≡◌, ◌+◌, ◌/◌, ◌%◌, ◌*◌, ◌^◌, ◌<◌, ◌==◌, [], ◌∷◌, ◌++◌, ℕ, All, IfOk, OnOk, cond};
ghost use Rattle.std.specs.Prelude.{length, map, slice_index_or};
ghost use Rattle.std.specs.List.{range_with_len};
ghost use Rattle.circuits.specs.Literals.{signal_of};
ghost use Rattle.net_core.specs.Graph.{AreInOrder};
ghost use Rattle.claim_core.specs.Formulas.{reaching};
ghost use Rattle.word_sim.specs.Columns.{lane, word_bit};
ghost use Rattle.sim_signature.specs.Supports.{AreBlocks, IsBlock, inputs_reached, output_reaches};

use items::Items;
use net_core::{Gate, Graph, Lit};
use std::alloc::{AllocError, Global};
use std::marker::Model;

/// How many inputs have a bit in one word.
const INPUTS: u32 = 64;

/// The inputs that each output of a circuit reaches through gates. Where it doesn't reach an input, it doesn't
/// depend on it.
/// Contracts see it as the circuit.
#[derive(Drop)]
pub struct Supports<'a> {
    graph: &'a Graph,
    /// A block for each 64 inputs: a word for each output, with a bit for each of these inputs.
    blocks: Vec<Items<u64>>,
}

impl<'a> Model for Supports<'a> {
    ghost use Rattle.circuits.specs.Netlists.{Net};
    ghost use Rattle.sim_signature.specs.Supports.{AreBlocks};

    ghost Value = { Net };

    ghost view = { λ a. a.graph.now };

    ghost invariant = { λ a. AreBlocks a.graph.now a.blocks.items };
}

impl<'a> Supports<'a> {
    /// Finds what the outputs of a circuit reach, by one pass over its gates for each 64 inputs.
    pub fn new(alloc: Global, graph: &'a Graph) -> Result<Supports<'a>, AllocError>
        ensures { IfOk result (λ supports. supports ≡ graph.now) }
    {
        let blocks = blocks_of(alloc, graph)?;
        Ok(Supports { graph, blocks })
    }

    /// Whether an output reaches an input.
    pub fn reaches(&self, output: u32, input: u32) -> bool
        requires output { output < length self.now.outputs }
        requires input { input < self.now.inputs }
        ensures { result ≡ output_reaches self.now output input }
    {
        is_marked(&self.blocks, output, input)
    }

    /// The inputs that an output reaches, ascending.
    pub fn inputs_of(&self, alloc: Global, output: u32) -> Result<Items<u32>, AllocError>
        requires { output < length self.now.outputs }
        ensures { IfOk result (λ inputs. inputs ≡ inputs_reached self.now output) }
    {
        let mut inputs = Items::new(alloc);
        for input in 0..self.graph.inputs() {
            push_if(input, self.reaches(output, input), &mut inputs)?;
        }
        Ok(inputs)
    }
}

/// Adds an input where it is reached.
fn push_if(input: u32, reached: bool, inputs: &mut Items<u32>) -> Result<(), AllocError>
    ensures { OnOk result (inputs.new ≡ inputs.old ++ cond reached (input ∷ []) []) }
{
    if reached {
        inputs.push(input)?;
    }
    Ok(())
}

/// The bit of an input in the word of an output.
fn is_marked(blocks: &[Items<u64>], output: u32, input: u32) -> bool
    requires block { input / 64 < length blocks.now }
    requires outputs { All (λ words. output < length words) blocks.now }
    ensures { result ≡ word_bit (input % 64) (slice_index_or (slice_index_or blocks.now (input / 64) []) output 0) }
{
    let word = blocks[(input / INPUTS) as usize][output as usize];
    word >> (input % INPUTS) & 1 == 1
}

fn blocks_of(alloc: Global, graph: &Graph) -> Result<Vec<Items<u64>>, AllocError>
    ensures { IfOk result (λ blocks. AreBlocks graph.now blocks.items) }
{
    // the gates of a graph are in order, and its ports fewer than 2^32
    let _outputs = graph.outputs();
    let count = graph.inputs().div_ceil(INPUTS);
    let mut blocks = Vec::new(alloc);
    for block in 0..count {
        let words = block_of(alloc, graph, INPUTS * block)?;
        blocks.push(words)?;
    }
    Ok(blocks)
}

/// The words of the outputs for the inputs from `first` on.
fn block_of(alloc: Global, graph: &Graph, first: u32) -> Result<Items<u64>, AllocError>
    requires { first + 64 < 2 ^ 32 }
    ensures { IfOk result (IsBlock graph.now first) }
{
    let mut words = Vec::new(alloc);
    words.push(0)?;
    push_inputs(first, graph.inputs(), &mut words)?;
    push_gates(graph.gates(), &mut words)?;
    words_of(alloc, graph.outputs(), &words)
}

/// Adds a word for each input: it has the input's own bit, where that is one of those from `first` on.
fn push_inputs(first: u32, inputs: u32, words: &mut Vec<u64>) -> Result<(), AllocError>
    requires { first + 64 < 2 ^ 32 }
    ensures lanes { OnOk result ((v : ℕ) → v < 64
        → lane v words.new.items ≡ lane v words.old.items ++ map (λ k. k == first + v) (range_with_len 0 inputs)) }
    ensures count { OnOk result (length words.new.items ≡ length words.old.items + inputs) }
{
    for input in 0..inputs {
        words.push(word_of(first, input))?;
    }
    Ok(())
}

/// The word of an input.
fn word_of(first: u32, input: u32) -> u64
    requires { first + 64 < 2 ^ 32 }
    ensures { (v : ℕ) → v < 64 → word_bit v result ≡ (input == first + v) }
{
    if input < first {
        return 0;
    }
    if input >= first + INPUTS {
        return 0;
    }
    1 << (input - first)
}

/// Adds a word for each gate: it has the bits of both operands.
fn push_gates(gates: &[Gate], words: &mut Vec<u64>) -> Result<(), AllocError>
    requires { AreInOrder (length words.old.items) gates.now }
    ensures lanes { OnOk result ((v : ℕ) → lane v words.new.items ≡ reaching (lane v words.old.items) gates.now) }
    ensures count { OnOk result (length words.new.items ≡ length words.old.items + length gates.now) }
{
    for gate in gates.iter() {
        let word = words[gate.a.signal() as usize] | words[gate.b.signal() as usize];
        words.push(word)?;
    }
    Ok(())
}

/// The words of literals' signals.
fn words_of(alloc: Global, literals: &[Lit], words: &[u64]) -> Result<Items<u64>, AllocError>
    requires { All (λ literal. signal_of literal < length words.now) literals.now }
    ensures { IfOk result
        (λ list. list ≡ map (λ literal. slice_index_or words.now (signal_of literal) 0) literals.now) }
{
    let mut list = Items::new(alloc);
    for literal in literals.iter() {
        list.push(words[literal.signal() as usize])?;
    }
    Ok(list)
}
