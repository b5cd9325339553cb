//! Evaluation on many vectors, 64 a word, and eight words at once.

ghost use Rattle.std.specs.Prelude.{◌≡◌, ◌<◌, ◌≤◌, ◌+◌, ◌*◌, ◌^◌, ◌∷◌, ℕ, All, IfOk, OnOk, length, map, take};
ghost use Rattle.circuits.specs.Literals.{signal_of};
ghost use Rattle.circuits.specs.Netlists.{function_of, signals_of};
ghost use Rattle.net_core.specs.Graph.{AreInOrder};
ghost use Rattle.word_sim.specs.Columns.{AreEvaluated, IsTable, vector_at, row_of, literal_word, with_gate_words};

use crate::blocks::{LANES, literal_block};
use crate::words::Words;
use net_core::{Gate, Graph, Lit, eval_gates, literal_value};
use std::alloc::{AllocError, Global};
use std::simd::prelude::*;

/// The circuit on each of the vectors: as many words as the inputs have, and a column for each output. Eight words are
/// evaluated at once, and those that are left one by one.
pub fn simulate(alloc: Global, graph: &Graph, inputs: &Words) -> Result<Words, AllocError>
    requires { length inputs.now.columns ≡ graph.now.inputs }
    ensures words { IfOk result (λ outputs. outputs.words ≡ inputs.now.words) }
    ensures columns { IfOk result (λ outputs. length outputs.columns ≡ length graph.now.outputs) }
    ensures table { IfOk result IsTable }
    ensures vectors { IfOk result (λ outputs. (w v : ℕ) → w < inputs.now.words → v < 64
        → vector_at outputs w v ≡ function_of graph.now (vector_at inputs.now w v)) }
{
    let mut outputs = Words::new(alloc, graph.outputs().len() as u32, inputs.words())?;
    let blocks = inputs.words() / LANES;
    simulate_blocks(alloc, graph, inputs, blocks, &mut outputs)?;
    simulate_rest(alloc, graph, inputs, LANES * blocks, &mut outputs)?;
    Ok(outputs)
}

/// The circuit on the vectors of the first blocks of eight words.
fn simulate_blocks(
    alloc: Global,
    graph: &Graph,
    inputs: &Words,
    blocks: usize,
    outputs: &mut Words,
) -> Result<(), AllocError>
    requires inputs { length inputs.now.columns ≡ graph.now.inputs }
    requires blocks { 8 * blocks ≤ inputs.now.words }
    requires start { AreEvaluated graph.now inputs.now 0 outputs.old }
    ensures { OnOk result (AreEvaluated graph.now inputs.now (8 * blocks) outputs.new) }
{
    if blocks == 0 {
        return Ok(());
    }
    // it brings in that the words can be counted
    let _words = inputs.words();
    let mut values = vec![in alloc; u64x8::splat(0); graph.signals()]?;
    for block in 0..blocks {
        simulate_block(graph, inputs, LANES * block, &mut values, outputs);
    }
    Ok(())
}

/// The circuit on the vectors of the words from `first` on, one word after the other.
fn simulate_rest(
    alloc: Global,
    graph: &Graph,
    inputs: &Words,
    first: usize,
    outputs: &mut Words,
) -> Result<(), AllocError>
    requires inputs { length inputs.now.columns ≡ graph.now.inputs }
    requires first { first ≤ inputs.now.words }
    requires start { AreEvaluated graph.now inputs.now first outputs.old }
    ensures { OnOk result (AreEvaluated graph.now inputs.now inputs.now.words outputs.new) }
{
    if first == inputs.words() {
        return Ok(());
    }
    let mut values = vec![in alloc; 0u64; graph.signals()]?;
    for word in first..inputs.words() {
        simulate_row(graph, inputs, word, &mut values, outputs);
    }
    Ok(())
}

/// The circuit on the vectors of eight words. `values` has room for a block of each signal.
fn simulate_block(
    graph: &Graph,
    inputs: &Words,
    word: usize,
    values: &mut [u64x8],
    outputs: &mut Words,
)
    requires inputs { length inputs.now.columns ≡ graph.now.inputs }
    requires word { word + 8 ≤ inputs.now.words }
    requires start { AreEvaluated graph.now inputs.now word outputs.old }
    requires room { length values.old ≡ signals_of graph.now }
    ensures vectors { AreEvaluated graph.now inputs.now (word + 8) outputs.new }
    ensures room { length values.new ≡ length values.old }
{
    let gates = graph.gates();
    put_blocks(inputs, word, values);
    run_gate_blocks(gates, inputs.columns() + 1, values);
    take_blocks(graph.outputs(), values, word, outputs);
}

/// Writes the constant's block and the inputs' blocks, which come first.
fn put_blocks(inputs: &Words, word: usize, values: &mut [u64x8])
    requires word { word + 8 ≤ inputs.now.words }
    requires room { length inputs.now.columns < length values.old }
    requires few { length inputs.now.columns < 2 ^ 32 }
    ensures rows { (l : ℕ) → l < 8
        → take (length inputs.now.columns + 1) (row_of values.new l) ≡ 0 ∷ row_of inputs.now.columns (word + l) }
    ensures room { length values.new ≡ length values.old }
{
    values[0] = u64x8::splat(0);
    for column in 0..inputs.columns() {
        values[column + 1] = inputs.block(column as u32, word);
    }
}

/// Gives each gate its block, in order, from the signal `first` on.
pub fn run_gate_blocks(gates: &[Gate], first: usize, values: &mut [u64x8])
    requires order { AreInOrder first gates.now }
    requires room { first + length gates.now ≡ length values.old }
    ensures rows { (l : ℕ) → l < 8
        → row_of values.new l ≡ with_gate_words (take first (row_of values.old l)) gates.now }
    ensures room { length values.new ≡ length values.old }
{
    eval_gates(gates, first, values);
}

/// Writes the outputs' blocks into eight rows of the table.
fn take_blocks(outputs: &[Lit], values: &[u64x8], word: usize, table: &mut Words)
    requires columns { length table.old.columns ≡ length outputs.now }
    requires few { length outputs.now < 2 ^ 32 }
    requires word { word + 8 ≤ table.old.words }
    requires table { IsTable table.old }
    requires signals { All (λ output. signal_of output < length values.now) outputs.now }
    ensures rows { (l : ℕ) → l < 8
        → row_of table.new.columns (word + l) ≡ map (literal_word (row_of values.now l)) outputs.now }
    ensures others { (w : ℕ) → w < word → row_of table.new.columns w ≡ row_of table.old.columns w }
    ensures table { IsTable table.new }
    ensures words { table.new.words ≡ table.old.words }
    ensures columns { length table.new.columns ≡ length table.old.columns }
{
    for (k, output) in outputs.iter().enumerate() {
        table.set_block(k as u32, word, literal_block(values, *output));
    }
}

/// The circuit on the vectors of one word. `values` has room for a word of each signal.
fn simulate_row(graph: &Graph, inputs: &Words, word: usize, values: &mut [u64], outputs: &mut Words)
    requires inputs { length inputs.now.columns ≡ graph.now.inputs }
    requires word { word < inputs.now.words }
    requires start { AreEvaluated graph.now inputs.now word outputs.old }
    requires room { length values.old ≡ signals_of graph.now }
    ensures vectors { AreEvaluated graph.now inputs.now (word + 1) outputs.new }
    ensures room { length values.new ≡ length values.old }
{
    let gates = graph.gates();
    put_row(inputs, word, values);
    eval_gates(gates, inputs.columns() + 1, values);
    take_row(graph.outputs(), values, word, outputs);
}

/// Writes the constant's word and the inputs' words, which come first.
fn put_row(inputs: &Words, word: usize, values: &mut [u64])
    requires word { word < inputs.now.words }
    requires room { length inputs.now.columns < length values.old }
    requires few { length inputs.now.columns < 2 ^ 32 }
    ensures row { take (length inputs.now.columns + 1) values.new ≡ 0 ∷ row_of inputs.now.columns word }
    ensures room { length values.new ≡ length values.old }
{
    values[0] = 0;
    for column in 0..inputs.columns() {
        values[column + 1] = inputs.get(column as u32, word);
    }
}

/// Writes the outputs' words into a row of the table.
fn take_row(outputs: &[Lit], values: &[u64], word: usize, table: &mut Words)
    requires columns { length table.old.columns ≡ length outputs.now }
    requires few { length outputs.now < 2 ^ 32 }
    requires word { word < table.old.words }
    requires table { IsTable table.old }
    requires signals { All (λ output. signal_of output < length values.now) outputs.now }
    ensures row { row_of table.new.columns word ≡ map (literal_word values.now) outputs.now }
    ensures others { (w : ℕ) → w < word → row_of table.new.columns w ≡ row_of table.old.columns w }
    ensures table { IsTable table.new }
    ensures words { table.new.words ≡ table.old.words }
    ensures columns { length table.new.columns ≡ length table.old.columns }
{
    for (k, output) in outputs.iter().enumerate() {
        table.set(k as u32, word, literal_value(values, *output));
    }
}
