//! Vectors near those that answered questions.

ghost use Rattle.std.specs.Prelude.{◌≡◌, ◌<◌, All, IfOk, IfSome, length};
ghost use Rattle.circuits.specs.Netlists.{Net};
ghost use Rattle.claim_core.specs.Claims.{BreaksShape, IsPlaced};
ghost use Rattle.fact_tests.specs.Hunting.{IsOf};

use crate::sightings::group_with;
use bit_list::Bits;
use claim_core::Shape;
use items::Items;
use net_core::Graph;
use sim_signature::Signatures;
use std::alloc::{AllocError, Global};
use std::marker::Model;

/// How many signatures are kept. Each takes what those of a group take, 8 MiB at most (`Sightings`). A near miss of an
/// adder of 64 bits (`adder64`, output) takes 2.3 s where two are kept, 2.1 with four and 1.6 with eight.
const MOST_KEPT: usize = 8;

/// A question takes about as long as that many passes over the gates: some 70 about an adder of 64 bits, and three
/// where its cone is small. With 4 that adder asks more and takes 4.5 s in place of 2.6, with 256 many small blocks
/// take a quarter longer; 32 and 128 change neither.
const PASSES_A_QUESTION: u32 = 64;

/// What is seen of outputs on vectors near those that questions about them gave. Where few vectors break a claim, as
/// with the carry of an adder, those that are drawn don't show it; but one that breaks another claim of the output
/// says where to look, and of other outputs too: the carry goes on to those after it. So all outputs of a group
/// (`Sightings`) are looked at. Contracts see it as the circuit.
#[derive(Drop)]
pub(crate) struct Nearby<'a> {
    graph: &'a Graph,
    seed: u64,
    /// The signatures that were made last.
    kept: Items<Signatures<'a>>,
    /// How many were made.
    made: u64,
    /// How many passes over the gates the questions since then took.
    passes: u32,
}

impl<'a> Model for Nearby<'a> {
    ghost use Rattle.std.specs.Prelude.{All};
    ghost use Rattle.circuits.specs.Netlists.{Net};
    ghost use Rattle.fact_tests.specs.Hunting.{IsOf};

    ghost Value = { Net };

    ghost view = { λ a. a.graph.now };

    ghost invariant = { λ a. All (IsOf a.graph.now) a.kept };
}

impl<'a> Nearby<'a> {
    /// No question was answered.
    pub(crate) fn new(alloc: Global, graph: &'a Graph, seed: u64) -> Nearby<'a>
        ensures { result ≡ graph.now }
    {
        Nearby {
            graph,
            seed,
            kept: Items::new(alloc),
            made: 0,
            passes: 0,
        }
    }

    /// A vector that breaks the claim of a shape at an output, where one is seen.
    pub(crate) fn vector_of(
        &self,
        alloc: Global,
        output: u32,
        shape: Shape,
    ) -> Result<Option<Bits>, AllocError>
        requires output { output < length self.now.outputs }
        requires placed { IsPlaced self.now.inputs shape }
        ensures { IfOk result (λ found. IfSome found (BreaksShape self.now output shape)) }
    {
        for signatures in self.kept.iter() {
            if let Some(vector) = sighting_of(alloc, signatures, output, shape)? {
                return Ok(Some(vector));
            }
        }
        Ok(None)
    }

    /// A question about an output gave a vector. Later claims are tried on others near it, unless the questions since
    /// these were chosen last took less time than choosing them takes: a pass over the gates for each input.
    pub(crate) fn note(
        &mut self,
        alloc: Global,
        output: u32,
        vector: &Bits,
    ) -> Result<(), AllocError>
        requires output { output < length self.old.outputs }
        requires inputs { length vector.now ≡ self.old.inputs }
        ensures { self.new ≡ self.old }
    {
        self.passes = self.passes.saturating_add(PASSES_A_QUESTION);
        if self.passes < self.graph.inputs() {
            return Ok(());
        }
        self.passes = 0;
        let seed = self.seed.wrapping_add(self.made);
        let (first, count) = group_with(self.graph, output);
        let signatures = Signatures::near(alloc, self.graph, first, count, vector, seed)?;
        keep(signatures, self.made, &mut self.kept)?;
        self.made = self.made.wrapping_add(1);
        Ok(())
    }
}

/// Puts signatures beside those that are kept, and, where there is no room, in the place of those that were made first.
fn keep<'a>(
    signatures: Signatures<'a>,
    made: u64,
    kept: &mut Items<Signatures<'a>>,
) -> Result<(), AllocError>
    ensures { (net : Net) → IsOf net signatures.entry → All (IsOf net) kept.old → All (IsOf net) kept.new }
{
    if kept.len() < MOST_KEPT {
        kept.push(signatures)?;
        return Ok(());
    }
    kept.set((made % MOST_KEPT as u64) as usize, signatures);
    Ok(())
}

/// A vector that breaks the claim of a shape at an output, where signatures are of it and show one.
fn sighting_of(
    alloc: Global,
    signatures: &Signatures<'_>,
    output: u32,
    shape: Shape,
) -> Result<Option<Bits>, AllocError>
    requires placed { IsPlaced signatures.now.net.inputs shape }
    ensures { IfOk result (λ found. IfSome found (BreaksShape signatures.now.net output shape)) }
{
    if !signatures.covers(output) {
        return Ok(None);
    }
    signatures.sighting(alloc, output, shape)
}
