//! The gates of a circuit on 512 vectors, and on these with an input inverted.

ghost use Rattle.std.specs.Prelude.{◌≡◌, ◌≢◌, ◌+◌, ◌<◌, ◌≤◌, ◌||◌, [], ℕ, Bool, false, not, List, length};
ghost use Rattle.std.specs.Prelude.{slice_index_or};
ghost use Rattle.circuits.specs.Literals.{bit, signal_of};
ghost use Rattle.circuits.specs.Netlists.{signals_of};
ghost use Rattle.claim_core.specs.Claims.{with_input};
ghost use Rattle.sim_signature.specs.Blocks.{AreSimulated, IsEvaluated, IsFlipped, IsRunOrKept, IsValuation};
ghost use Rattle.sim_signature.specs.Blocks.{bit_of_gate, block_after as the_block_after, block_bit, pattern};

use net_core::{Gate, Graph, put_inputs};
use std::simd::prelude::*;
use word_sim::{and_lanes, run_gate_blocks, signed_lanes};

/// Gives each signal its block where the inputs have these.
pub(crate) fn evaluate(graph: &Graph, inputs: &[u64x8], blocks: &mut [u64x8])
    requires inputs { length inputs.now ≡ graph.now.inputs }
    requires room { length blocks.old ≡ signals_of graph.now }
    ensures simulated { AreSimulated graph.now inputs.now blocks.new }
    ensures room { length blocks.new ≡ length blocks.old }
{
    let gates = graph.gates();
    put_inputs(u64x8::splat(0), inputs, blocks);
    run_gate_blocks(gates, inputs.len() + 1, blocks);
}

/// Gives each signal that an inverted input reaches another block in `after`, and marks these signals alone; no other
/// gate is evaluated. `before` has what each signal has before.
pub(crate) fn evaluate_inverted(
    graph: &Graph,
    inputs: &[u64x8],
    input: u32,
    before: &[u64x8],
    after: &mut [u64x8],
    marks: &mut [bool],
)
    requires inputs { length inputs.now ≡ graph.now.inputs }
    requires input { input < graph.now.inputs }
    requires before_room { length before.now ≡ signals_of graph.now }
    requires simulated { AreSimulated graph.now inputs.now before.now }
    requires after_room { length after.old ≡ signals_of graph.now }
    requires marks_room { length marks.old ≡ signals_of graph.now }
    ensures inverted { (w v : ℕ) → w < 8 → v < 64
        → IsValuation graph.now (with_input input (not (bit (pattern inputs.now w v) input)) (pattern inputs.now w v))
        (λ s. block_bit w v (the_block_after before.now after.new marks.new s)) }
    ensures after_room { length after.new ≡ length after.old }
    ensures marks_room { length marks.new ≡ length marks.old }
{
    unmark(graph.inputs() as usize + 1, marks);
    flip(inputs, input, after, marks);
    run_reached(graph, before, after, marks);
}

/// Takes the marks of the first signals away.
fn unmark(signals: usize, marks: &mut [bool])
    requires { signals ≤ length marks.old }
    ensures clear { (s : ℕ) → s < signals → bit marks.new s ≡ false }
    ensures room { length marks.new ≡ length marks.old }
{
    for s in 0..signals {
        marks[s] = false;
    }
}

/// Marks an input, and gives it its inverted block.
fn flip(inputs: &[u64x8], input: u32, after: &mut [u64x8], marks: &mut [bool])
    requires input { input < length inputs.now }
    requires after_room { length inputs.now < length after.old }
    requires marks_room { length inputs.now < length marks.old }
    requires clear { (s : ℕ) → s < 1 + length inputs.now → bit marks.old s ≡ false }
    ensures flipped { IsFlipped input inputs.now after.new marks.new }
    ensures after_room { length after.new ≡ length after.old }
    ensures marks_room { length marks.new ≡ length marks.old }
{
    let signal = input as usize + 1;
    after[signal] = signed_lanes(inputs[input as usize], true);
    marks[signal] = true;
}

/// Gives each gate that a marked input reaches another block, in order, and marks these gates alone.
fn run_reached(graph: &Graph, before: &[u64x8], after: &mut [u64x8], marks: &mut [bool])
    requires before_room { length before.now ≡ signals_of graph.now }
    requires after_room { length after.old ≡ signals_of graph.now }
    requires marks_room { length marks.old ≡ signals_of graph.now }
    ensures blocks { (w v : ℕ) (x y : List Bool) → w < 8 → v < 64
        → length x ≡ graph.now.inputs
        → length y ≡ graph.now.inputs
        → IsValuation graph.now x (λ s. block_bit w v (slice_index_or before.now s []))
        → IsEvaluated graph.now y (1 + graph.now.inputs)
        (λ s. block_bit w v (the_block_after before.now after.old marks.old s))
        → IsValuation graph.now y (λ s. block_bit w v (the_block_after before.now after.new marks.new s)) }
    ensures after_room { length after.new ≡ length after.old }
    ensures marks_room { length marks.new ≡ length marks.old }
{
    let gates = graph.gates();
    let first = graph.inputs() as usize + 1;
    for t in 0..gates.len() {
        run_if_reached(gates[t], first + t, before, after, marks);
    }
}

/// Gives a gate another block and marks it where one of its operands is marked, and else takes its mark away.
#[inline(always)]
fn run_if_reached(
    gate: Gate,
    place: usize,
    before: &[u64x8],
    after: &mut [u64x8],
    marks: &mut [bool],
)
    requires first_operand { signal_of gate.a < length before.now }
    requires second_operand { signal_of gate.b < length before.now }
    requires place { place < length before.now }
    requires after_room { length after.old ≡ length before.now }
    requires marks_room { length marks.old ≡ length before.now }
    ensures others { (s : ℕ) → s ≢ place
        → the_block_after before.now after.new marks.new s ≡ the_block_after before.now after.old marks.old s }
    ensures place { IsRunOrKept gate place before.now after.old after.new marks.old marks.new }
    ensures after_room { length after.new ≡ length after.old }
    ensures marks_room { length marks.new ≡ length marks.old }
{
    if !is_reached(gate, marks) {
        marks[place] = false;
        return;
    }
    let block = gate_after(gate, before, after, marks);
    after[place] = block;
    marks[place] = true;
}

/// Whether an operand of a gate is marked.
#[inline(always)]
fn is_reached(gate: Gate, marks: &[bool]) -> bool
    requires first_operand { signal_of gate.a < length marks.now }
    requires second_operand { signal_of gate.b < length marks.now }
    ensures { result ≡ bit marks.now (signal_of gate.a) || bit marks.now (signal_of gate.b) }
{
    marks[gate.a.signal() as usize] | marks[gate.b.signal() as usize]
}

/// The gate's block after a change.
#[inline(always)]
fn gate_after(gate: Gate, before: &[u64x8], after: &[u64x8], marks: &[bool]) -> u64x8
    requires first_operand { signal_of gate.a < length before.now }
    requires second_operand { signal_of gate.b < length before.now }
    requires after { length after.now ≡ length before.now }
    requires marks { length marks.now ≡ length before.now }
    ensures { (w v : ℕ) → w < 8 → v < 64
        → block_bit w v result
        ≡ bit_of_gate (λ s. block_bit w v (the_block_after before.now after.now marks.now s)) gate }
{
    and_lanes(
        block_after(before, after, marks, gate.a.signal() as usize),
        gate.a.is_negated(),
        block_after(before, after, marks, gate.b.signal() as usize),
        gate.b.is_negated(),
    )
}

/// What a signal has after a change: another block where it is marked.
#[inline(always)]
pub(crate) fn block_after(before: &[u64x8], after: &[u64x8], marks: &[bool], signal: usize) -> u64x8
    requires signal { signal < length before.now }
    requires after { length after.now ≡ length before.now }
    requires marks { length marks.now ≡ length before.now }
    ensures { result ≡ the_block_after before.now after.now marks.now signal }
{
    if marks[signal] {
        after[signal]
    } else {
        before[signal]
    }
}
