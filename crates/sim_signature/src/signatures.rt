//! What outputs are on 512 vectors and with an input inverted, and the claims that these vectors break.

ghost use Rattle.std.specs.Prelude.{◌≡◌, ◌<◌, ◌≤◌, ◌+◌, ◌↔◌, ℕ, Bool, List, true, false, length, IfOk, IfSome, IsSome};
ghost use Rattle.std.specs.Prelude.{IsTrue};
ghost use Rattle.circuits.specs.Literals.{bit};
ghost use Rattle.claim_core.specs.Claims.{BreaksShape, HasValues, IsPlaced, output_bit};
ghost use Rattle.sim_signature.specs.Changes.{AreEnds, IsChange, changed};
ghost use Rattle.sim_signature.specs.Blocks.{block_bit, pattern};
ghost use Rattle.sim_signature.specs.Signatures.{AreOf, Covers, HasAllVectors, IsOneOf, IsTried, place_of as the_place};

use crate::change::{Change, ends_of, is_inverted};
use crate::columns::columns;
use crate::lanes::{bit_at, picked};
use crate::vectors::{near_vectors, vectors};
use bit_list::Bits;
use claim_core::Shape;
use items::Items;
use net_core::Graph;
use rand_pcg::Pcg32;
use std::alloc::{AllocError, Global};
use std::marker::Model;
use std::simd::prelude::*;
use word_sim::first_bit;

/// What some outputs of a circuit are on 512 vectors, and on these with each input inverted in turn: their signatures,
/// by which claims about them are seen broken.
#[derive(Drop)]
pub struct Signatures<'a> {
    graph: &'a Graph,
    /// The outputs: `count` of them from the one of this number on.
    first: u32,
    count: u32,
    /// A block for each input: bit v of word w is the input's on vector 64 * w + v.
    inputs: Vec<u64x8>,
    /// For the vectors as they are, and then for each input inverted, a block for each output.
    columns: Vec<Items<u64x8>>,
}

impl<'a> Model for Signatures<'a> {
    ghost use Rattle.sim_signature.specs.Signatures.{AreSigned, Signed};

    ghost Value = { Signed };

    ghost view = { λ a. record { net = a.graph.now; first = a.first; count = a.count; blocks = a.inputs.items } };

    ghost invariant = { λ a. AreSigned (record {
      net = a.graph.now;
      first = a.first;
      count = a.count;
      blocks = a.inputs.items;
    }) a.columns.items };
}

impl<'a> Signatures<'a> {
    /// The signatures of `count` outputs from the output `first` on: on all vectors of at most six inputs, else on 512
    /// vectors that are drawn from the number `seed`.
    ///
    /// # Errors
    ///
    /// Only when out of memory.
    pub fn new(
        alloc: Global,
        graph: &'a Graph,
        first: u32,
        count: u32,
        seed: u64,
    ) -> Result<Signatures<'a>, AllocError>
        requires { first + count ≤ length graph.now.outputs }
        ensures of { IfOk result (AreOf graph.now first count) }
        ensures all { IfOk result (λ signatures. graph.now.inputs ≤ 6 → HasAllVectors signatures) }
    {
        Signatures::drawn(
            alloc,
            graph,
            first,
            count,
            &mut Pcg32::new(seed, first as u64),
        )
    }

    /// The signatures, with the vectors drawn by a generator.
    pub(crate) fn drawn(
        alloc: Global,
        graph: &'a Graph,
        first: u32,
        count: u32,
        generator: &mut Pcg32,
    ) -> Result<Signatures<'a>, AllocError>
        requires { first + count ≤ length graph.now.outputs }
        ensures of { IfOk result (AreOf graph.now first count) }
        ensures all { IfOk result (λ signatures. graph.now.inputs ≤ 6 → HasAllVectors signatures) }
    {
        let inputs = vectors(alloc, graph.inputs(), generator)?;
        Signatures::on(alloc, graph, first, count, inputs)
    }

    /// The signatures of `count` outputs from the output `first` on, on 512 vectors near one, that are drawn from the
    /// number `seed`. Near a vector that breaks a claim of an output there are others that break other claims of it and
    /// of outputs that share gates with it, also where few vectors do.
    ///
    /// # Errors
    ///
    /// Only when out of memory.
    pub fn near(
        alloc: Global,
        graph: &'a Graph,
        first: u32,
        count: u32,
        vector: &Bits,
        seed: u64,
    ) -> Result<Signatures<'a>, AllocError>
        requires outputs { first + count ≤ length graph.now.outputs }
        requires inputs { length vector.now ≡ graph.now.inputs }
        ensures { IfOk result (AreOf graph.now first count) }
    {
        let inputs = near_vectors(alloc, graph, vector, &mut Pcg32::new(seed, first as u64))?;
        Signatures::on(alloc, graph, first, count, inputs)
    }

    /// The signatures on these vectors, a block for each input.
    fn on(
        alloc: Global,
        graph: &'a Graph,
        first: u32,
        count: u32,
        inputs: Vec<u64x8>,
    ) -> Result<Signatures<'a>, AllocError>
        requires inputs { length inputs.items ≡ graph.now.inputs }
        requires there { first + count ≤ length graph.now.outputs }
        ensures is { IfOk result (λ signatures. signatures
            ≡ record { net = graph.now; first = first; count = count; blocks = inputs.items }) }
        ensures of { IfOk result (AreOf graph.now first count) }
    {
        let columns = columns(alloc, graph, &inputs, first, count)?;
        Ok(Signatures {
            graph,
            first,
            count,
            inputs,
            columns,
        })
    }

    /// Whether an output is among those whose signatures these are.
    pub fn covers(&self, output: u32) -> bool
        ensures { IsTrue result ↔ Covers self.now output }
    {
        if output < self.first {
            return false;
        }
        output - self.first < self.count
    }

    /// A vector that breaks the claim of a shape at an output, where one does that is tried: any of the 512 with one of
    /// the shape's inputs inverted, and for a claim about one input also as it is.
    ///
    /// # Errors
    ///
    /// Only when out of memory.
    pub fn sighting(
        &self,
        alloc: Global,
        output: u32,
        shape: Shape,
    ) -> Result<Option<Bits>, AllocError>
        requires covers { Covers self.now output }
        requires placed { IsPlaced self.now.net.inputs shape }
        ensures breaks { IfOk result (λ found. IfSome found (BreaksShape self.now.net output shape)) }
        ensures seen { IfOk result (λ found. (x : List Bool) → IsTried self.now shape x
            → BreaksShape self.now.net output shape x
            → IsSome found) }
    {
        let (one, other) = ends_of(shape);
        match self.fall(alloc, output, shape, one, other)? {
            Some(vector) => Ok(Some(vector)),
            None => self.fall(alloc, output, shape, other, one),
        }
    }

    /// A vector that breaks the claim among the changed vectors. With the other change it is the one to whose values
    /// the shape's inputs go.
    fn fall(
        &self,
        alloc: Global,
        output: u32,
        shape: Shape,
        from: Change,
        to: Change,
    ) -> Result<Option<Bits>, AllocError>
        requires covers { Covers self.now output }
        requires placed { IsPlaced self.now.net.inputs shape }
        requires ends { AreEnds self.now.net.inputs shape from to }
        ensures breaks { IfOk result (λ found. IfSome found (BreaksShape self.now.net output shape)) }
        ensures seen { IfOk result (λ found. (w v : ℕ) → w < 8 → v < 64
            → BreaksShape self.now.net output shape (changed from (pattern self.now.blocks w v))
            → IsSome found) }
    {
        let lanes = self.breaking(output, shape, from, to);
        vector_in(alloc, &self.inputs, lanes, from)
    }

    /// The vectors that break the claim where they are changed.
    fn breaking(&self, output: u32, shape: Shape, from: Change, to: Change) -> u64x8
        requires covers { Covers self.now output }
        requires placed { IsPlaced self.now.net.inputs shape }
        requires ends { AreEnds self.now.net.inputs shape from to }
        ensures { (w v : ℕ) → w < 8 → v < 64 → (block_bit w v result ≡ true
            ↔ BreaksShape self.now.net output shape (changed from (pattern self.now.blocks w v))) }
    {
        let one = self.block(output, from);
        let other = self.block(output, to);
        // on these the output is 1 by one change, and 0 by the other one
        let falls = picked(one, other, false);
        having(&self.inputs, falls, shape, from)
    }

    /// An output's block on the changed vectors.
    fn block(&self, output: u32, change: Change) -> u64x8
        requires covers { Covers self.now output }
        requires change { IsChange self.now.net.inputs change }
        ensures inputs { length self.now.blocks ≡ self.now.net.inputs }
        ensures bits { (w v : ℕ) → w < 8 → v < 64
            → block_bit w v result ≡ output_bit self.now.net output (changed change (pattern self.now.blocks w v)) }
    {
        self.columns[place_of(change)][(output - self.first) as usize]
    }
}

/// The place of a change's column.
fn place_of(change: Change) -> usize
    ensures { result ≡ the_place change }
{
    match change {
        Change::Nothing => 0,
        Change::Inverted(i) => i as usize + 1,
    }
}

/// The bits of a block whose vectors have the shape's values where they are changed.
fn having(inputs: &[u64x8], block: u64x8, shape: Shape, change: Change) -> u64x8
    requires placed { IsPlaced (length inputs.now) shape }
    requires change { IsChange (length inputs.now) change }
    ensures { (w v : ℕ) → w < 8 → v < 64 → (block_bit w v result ≡ true
        ↔ ((block_bit w v block ≡ true) × HasValues shape (changed change (pattern inputs.now w v)))) }
{
    match shape {
        Shape::Up(i) => picked_at(inputs, i, block, false, change),
        Shape::Down(i) => picked_at(inputs, i, block, true, change),
        Shape::Swap { i, j, a, b } => {
            let first = picked_at(inputs, i, block, a, change);
            picked_at(inputs, j, first, b, change)
        }
    }
}

/// The bits of a block whose vectors have this value of an input where they are changed.
fn picked_at(inputs: &[u64x8], input: u32, block: u64x8, value: bool, change: Change) -> u64x8
    requires input { input < length inputs.now }
    requires change { IsChange (length inputs.now) change }
    ensures { (w v : ℕ) → w < 8 → v < 64 → (block_bit w v result ≡ true
        ↔ ((block_bit w v block ≡ true) × (bit (changed change (pattern inputs.now w v)) input ≡ value))) }
{
    picked(
        block,
        inputs[input as usize],
        value != is_inverted(change, input as usize),
    )
}

/// The vector of the first bit of a block that is 1, changed.
fn vector_in(
    alloc: Global,
    inputs: &[u64x8],
    lanes: u64x8,
    change: Change,
) -> Result<Option<Bits>, AllocError>
    requires { IsChange (length inputs.now) change }
    ensures one { IfOk result (λ found. IfSome found (IsOneOf inputs.now lanes change)) }
    ensures some { IfOk result (λ found. (w v : ℕ) → w < 8 → v < 64 → block_bit w v lanes ≡ true → IsSome found) }
{
    match first_bit(lanes) {
        None => Ok(None),
        Some((word, lane)) => Ok(Some(vector_at(alloc, inputs, word, lane, change)?)),
    }
}

/// The vector of a bit of each input's block, changed.
fn vector_at(
    alloc: Global,
    inputs: &[u64x8],
    word: usize,
    lane: u32,
    change: Change,
) -> Result<Bits, AllocError>
    requires word { word < 8 }
    requires lane { lane < 64 }
    requires change { IsChange (length inputs.now) change }
    ensures { IfOk result (λ vector. vector ≡ changed change (pattern inputs.now word lane)) }
{
    let mut vector = Bits::with_capacity(alloc, inputs.len())?;
    for (i, block) in inputs.iter().enumerate() {
        vector.push(bit_at(*block, word, lane) != is_inverted(change, i))?;
    }
    Ok(vector)
}
