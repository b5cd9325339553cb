//! A circuit on 512 vectors, and on these with an input inverted.

ghost use Rattle.std.specs.Prelude.{◌≡◌, ◌<◌, ℕ, Bool, List, IfOk, length};
ghost use Rattle.circuits.specs.Literals.{signal_of};
ghost use Rattle.circuits.specs.Netlists.{signals_of};
ghost use Rattle.claim_core.specs.Claims.{output_bit};
ghost use Rattle.sim_signature.specs.declared.change.Change.TheVariants.{Inverted as inverted, Nothing as nothing};
ghost use Rattle.sim_signature.specs.Changes.{changed};
ghost use Rattle.sim_signature.specs.Blocks.{IsValuation, bit_of_literal, block_after as the_block_after, block_bit};
ghost use Rattle.sim_signature.specs.Blocks.{pattern};

use crate::change::Change;
use crate::gates::{block_after, evaluate, evaluate_inverted};
use net_core::{Graph, Lit};
use std::alloc::{AllocError, Global};
use std::marker::Model;
use std::simd::prelude::*;
use word_sim::signed_lanes;

/// A circuit on 512 vectors, changed: as they are at first, then with one input inverted.
#[derive(Drop)]
pub(crate) struct Simulation<'a> {
    graph: &'a Graph,
    /// A block for each input: bit v of word w is the input's on vector 64 * w + v.
    inputs: &'a [u64x8],
    /// Each signal's block on the vectors as they are.
    before: Vec<u64x8>,
    change: Change,
    /// Which signals the inverted input reaches, and their blocks with that input inverted.
    marks: Vec<bool>,
    after: Vec<u64x8>,
}

impl<'a> Model for Simulation<'a> {
    ghost use Rattle.sim_signature.specs.Simulations.{IsSimulation, Simulated};

    ghost Value = { Simulated };

    ghost view = { λ a. record { net = a.graph.now; blocks = a.inputs.now; change = a.change } };

    ghost invariant = { λ a. IsSimulation (record { net = a.graph.now; blocks = a.inputs.now; change = a.change })
        a.before.items a.after.items a.marks.items };
}

impl<'a> Simulation<'a> {
    /// The circuit on the vectors as they are.
    ///
    /// # Errors
    ///
    /// Only when out of memory.
    pub(crate) fn new(
        alloc: Global,
        graph: &'a Graph,
        inputs: &'a [u64x8],
    ) -> Result<Simulation<'a>, AllocError>
        requires { length inputs.now ≡ graph.now.inputs }
        ensures { IfOk result (λ simulation. simulation ≡ record {
          net = graph.now;
          blocks = inputs.now;
          change = nothing;
        }) }
    {
        let mut before = vec![in alloc; u64x8::splat(0); graph.signals()]?;
        let after = vec![in alloc; u64x8::splat(0); graph.signals()]?;
        let marks = vec![in alloc; false; graph.signals()]?;
        evaluate(graph, inputs, &mut before);
        Ok(Simulation {
            graph,
            inputs,
            before,
            change: Change::Nothing,
            marks,
            after,
        })
    }

    /// Switches to the vectors with one input inverted. Only the gates that it reaches are evaluated.
    pub(crate) fn invert(&mut self, input: u32)
        requires { input < self.old.net.inputs }
        ensures { self.new ≡ record { net = self.old.net; blocks = self.old.blocks; change = inverted input } }
    {
        evaluate_inverted(
            self.graph,
            self.inputs,
            input,
            &self.before,
            &mut self.after,
            &mut self.marks,
        );
        self.change = Change::Inverted(input);
    }

    /// An output's block after the change.
    pub(crate) fn output_block(&self, output: u32) -> u64x8
        requires { output < length self.now.net.outputs }
        ensures { (w v : ℕ) → w < 8 → v < 64
            → block_bit w v result
            ≡ output_bit self.now.net output (changed self.now.change (pattern self.now.blocks w v)) }
    {
        output_after(self.graph, &self.before, &self.after, &self.marks, output)
    }
}

/// An output's block after a change.
fn output_after(
    graph: &Graph,
    before: &[u64x8],
    after: &[u64x8],
    marks: &[bool],
    output: u32,
) -> u64x8
    requires output { output < length graph.now.outputs }
    requires before { length before.now ≡ signals_of graph.now }
    requires after { length after.now ≡ signals_of graph.now }
    requires marks { length marks.now ≡ signals_of graph.now }
    ensures { (w v : ℕ) (x : List Bool) → w < 8 → v < 64
        → IsValuation graph.now x (λ s. block_bit w v (the_block_after before.now after.now marks.now s))
        → block_bit w v result ≡ output_bit graph.now output x }
{
    let literal = graph.outputs()[output as usize];
    literal_after(before, after, marks, literal)
}

/// A literal's block after a change.
fn literal_after(before: &[u64x8], after: &[u64x8], marks: &[bool], literal: Lit) -> u64x8
    requires literal { signal_of literal < length before.now }
    requires after { length after.now ≡ length before.now }
    requires marks { length marks.now ≡ length before.now }
    ensures { (w v : ℕ) → w < 8 → v < 64
        → block_bit w v result
        ≡ bit_of_literal (λ s. block_bit w v (the_block_after before.now after.now marks.now s)) literal }
{
    let block = block_after(before, after, marks, literal.signal() as usize);
    signed_lanes(block, literal.is_negated())
}
