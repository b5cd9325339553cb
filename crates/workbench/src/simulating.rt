//! Netlists simulated on many vectors.

ghost use Rattle.std.specs.Prelude.{◌≡◌, ◌^◌, ◌<◌, length};
ghost use Rattle.word_sim.specs.Columns.{IsTable};

use anyhow::Result;
use net_core::Graph;
use std::alloc::{AllocError, Global};
use word_sim::{Words, simulate};

/// The multiplier of the generator of words, a linear congruential one: that of Knuth's MMIX.
const MULTIPLIER: u64 = 6_364_136_223_846_793_005;

/// The generator's increment.
const INCREMENT: u64 = 1_442_695_040_888_963_407;

/// Simulates the netlist for some rounds, each on new words of 64 vectors, and prints the exclusive or of all
/// words of the outputs.
pub(crate) fn run<R: Print + AllocGlobal>(
    rt: &R,
    graph: &Graph,
    words: usize,
    rounds: u64,
) -> Result<()> {
    let alloc = rt.alloc();
    let mut inputs = Words::new(alloc, graph.inputs(), words)?;
    let mut state = 1;
    let mut sum = 0;
    for _ in 0..rounds {
        fill(&mut inputs, &mut state);
        sum ^= sum_of_round(alloc, graph, &inputs)?;
    }
    println!(rt; "{sum:016x}")?;
    Ok(())
}

/// The exclusive or of the outputs' words on these inputs.
fn sum_of_round(alloc: Global, graph: &Graph, inputs: &Words) -> Result<u64, AllocError>
    requires { length inputs.now.columns ≡ graph.now.inputs }
{
    let outputs = simulate(alloc, graph, inputs)?;
    let mut sum = 0;
    for column in 0..graph.outputs().len() {
        sum ^= sum_of_column(&outputs, column as u32);
    }
    Ok(sum)
}

/// The exclusive or of a column's words.
fn sum_of_column(table: &Words, column: u32) -> u64
    requires { column < length table.now.columns }
{
    let mut sum = 0;
    for word in 0..table.words() {
        sum ^= table.get(column, word);
    }
    sum
}

/// Gives each word of a table another value, column by column.
fn fill(table: &mut Words, state: &mut u64)
    requires table { IsTable table.old }
    requires few { length table.old.columns < 2 ^ 32 }
    ensures table { IsTable table.new }
    ensures words { table.new.words ≡ table.old.words }
    ensures columns { length table.new.columns ≡ length table.old.columns }
{
    for column in 0..table.columns() {
        fill_column(table, column as u32, state);
    }
}

/// Gives each word of a column another value.
fn fill_column(table: &mut Words, column: u32, state: &mut u64)
    requires table { IsTable table.old }
    requires column { column < length table.old.columns }
    ensures table { IsTable table.new }
    ensures words { table.new.words ≡ table.old.words }
    ensures columns { length table.new.columns ≡ length table.old.columns }
{
    for word in 0..table.words() {
        *state = state.wrapping_mul(MULTIPLIER).wrapping_add(INCREMENT);
        table.set(column, word, *state ^ (*state >> 29));
    }
}
