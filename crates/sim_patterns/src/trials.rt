//! Vectors that pairs are tried on, before anything is asked.

ghost use Rattle.std.specs.Prelude.{◌≡◌, ◌+◌, ◌<◌, ◌≤◌, ◌%◌, All, IfOk, IfSome, OnOk, length};
ghost use Rattle.circuits.specs.declared.port.PortKind.TheVariants.{Input, Output};
ghost use Rattle.account_core.specs.Ports.{IsKnown};
ghost use Rattle.sim_patterns.specs.Trials.{AreComputed, AreTrials, IsSuspect, IsVectorOf};
ghost use Rattle.word_sim.specs.Columns.{vector_at};

use crate::vectors::{first_vectors, put_vector};
use account_core::PairableGraphs;
use bit_list::Bits;
use circuits::{Pair, PortKind};
use net_core::{Graph, SignalValue};
use std::alloc::{AllocError, Global};
use std::simd::prelude::*;
use word_sim::{Rails, Words, and_lanes, first_bit, rails_eval, simulate};

/// How many words are evaluated at once: the lanes of `word_sim`.
const BLOCK: usize = 8;

/// Vectors of the first circuit's inputs, 64 in a word, and what its outputs have on them: all vectors of at most
/// eleven inputs, else 2,048 that are drawn, which make room for those on which whole matchings failed.
#[derive(Debug)]
pub struct Trials {
    /// A column for each input.
    pub inputs: Words,
    /// A column for each output.
    pub outputs: Words,
    /// Which vector of the first word makes room next, up to a multiple of 64.
    pub next: u32,
}

// By hand, so that each exit of a function has one call for it (docs/IDIOMS.md).
impl Drop for Trials {
    fn drop(self) {
        let Trials {
            inputs: _inputs,
            outputs: _outputs,
            next: _next,
        } = self;
    }
}

/// An output's pair, and a vector of the first circuit's inputs on which the partner is said to be wrong.
#[derive(Debug, Drop)]
pub struct Suspect {
    pub pair: Pair,
    pub vector: Bits,
}

impl Trials {
    /// The vectors that a search begins with, drawn by a seed.
    pub fn new(alloc: Global, first: &Graph, seed: u64) -> Result<Trials, AllocError>
        ensures trials { IfOk result (AreTrials first.now) }
        ensures computed { IfOk result (AreComputed first.now) }
    {
        let inputs = first_vectors(alloc, first.inputs(), seed)?;
        let outputs = simulate(alloc, first, &inputs)?;
        Ok(Trials {
            inputs,
            outputs,
            next: 0,
        })
    }
}

impl Trials {
    /// Keeps a vector on which a whole matching failed, in place of the one that stands there the longest.
    pub fn keep(&mut self, alloc: Global, first: &Graph, vector: &Bits) -> Result<(), AllocError>
        requires trials { AreTrials first.now self.old }
        requires places { length vector.now ≡ first.now.inputs }
        ensures trials { OnOk result (AreTrials first.now self.new) }
        ensures computed { OnOk result (AreComputed first.now self.new) }
        ensures next { OnOk result (self.new.next ≡ self.old.next % 64 + 1) }
    {
        let lane = self.next % 64;
        put_vector(vector, first.inputs(), lane, &mut self.inputs);
        self.outputs = simulate(alloc, first, &self.inputs)?;
        self.next = lane + 1;
        Ok(())
    }

    /// The pair of an output among the assigned ones, and one of the vectors, on which the partner has the wrong value
    /// whatever the unpaired inputs have.
    pub fn suspect(
        &self,
        alloc: Global,
        graphs: &PairableGraphs<'_>,
        assigned: &[Pair],
    ) -> Result<Option<Suspect>, AllocError>
        requires trials { AreTrials graphs.now.first self.now }
        requires known { All (IsKnown graphs.now) assigned.now }
        ensures suspect { IfOk result (λ found. IfSome found (IsSuspect graphs.now assigned.now)) }
        ensures vector { IfOk result (λ found. IfSome found (λ suspect. IsVectorOf self.now.inputs suspect.vector)) }
    {
        if !have_output(assigned) {
            return Ok(None);
        }
        for block in 0..self.inputs.words() / BLOCK {
            if let Some(found) = self.suspect_in(alloc, graphs, assigned, BLOCK * block)? {
                return Ok(Some(found));
            }
        }
        Ok(None)
    }

    // What `suspect` answers, on the 512 vectors of eight words.
    fn suspect_in(
        &self,
        alloc: Global,
        graphs: &PairableGraphs<'_>,
        assigned: &[Pair],
        word: usize,
    ) -> Result<Option<Suspect>, AllocError>
        requires trials { AreTrials graphs.now.first self.now }
        requires known { All (IsKnown graphs.now) assigned.now }
        requires word { word + 8 ≤ self.now.inputs.words }
        ensures suspect { IfOk result (λ found. IfSome found (IsSuspect graphs.now assigned.now)) }
        ensures vector { IfOk result (λ found. IfSome found (λ suspect. IsVectorOf self.now.inputs suspect.vector)) }
    {
        // the words are counted by a number of the machine's
        let _words = self.inputs.words();
        let mut sent = vec![in alloc; Rails::unknown(); graphs.second().inputs() as usize]?;
        send_all(assigned, &self.inputs, word, &mut sent);
        let partners = rails_eval(alloc, graphs.second(), &sent)?;
        for pair in assigned.iter() {
            if let Some((at, lane)) = wrong_vector(*pair, &self.outputs, word, &partners) {
                let vector = self.vector(alloc, word + at, lane)?;
                return Ok(Some(Suspect {
                    pair: *pair,
                    vector,
                }));
            }
        }
        Ok(None)
    }

    // The vector of a bit of a word.
    fn vector(&self, alloc: Global, word: usize, lane: u32) -> Result<Bits, AllocError>
        requires word { word < self.now.inputs.words }
        requires lane { lane < 64 }
        ensures vector { IfOk result (λ vector. vector ≡ vector_at self.now.inputs word lane) }
        ensures places { IfOk result (λ vector. length vector ≡ length self.now.inputs.columns) }
    {
        let bits = self.inputs.vector(alloc, word, lane)?;
        Bits::from_slice(alloc, &bits)
    }
}

fn have_output(pairs: &[Pair]) -> bool {
    pairs.iter().any(|pair| pair.kind == PortKind::Output)
}

// The first vector of eight words on which the partner of an output is known and wrong: its word and its bit.
fn wrong_vector(
    pair: Pair,
    outputs: &Words,
    word: usize,
    partners: &[Rails],
) -> Option<(usize, u32)>
    requires from { pair.kind ≡ Output → pair.from < length outputs.now.columns }
    requires to { pair.kind ≡ Output → pair.to < length partners.now }
    requires word { word + 8 ≤ outputs.now.words }
    ensures kind { IfSome result (λ place. pair.kind ≡ Output) }
    ensures word { IfSome result (λ place. place.0 < 8) }
    ensures lane { IfSome result (λ place. place.1 < 64) }
{
    if pair.kind != PortKind::Output {
        return None;
    }
    let partner = partners[pair.to as usize].signed(pair.flip);
    first_bit(unlike(partner, outputs.block(pair.from, word)))
}

// The vectors on which a signal is known and hasn't these bits.
fn unlike(signal: Rails, bits: u64x8) -> u64x8 {
    and_lanes(signal.zeros, false, bits, false) | and_lanes(signal.ones, false, bits, true)
}

// Gives the inputs that are paired what their partners have on the vectors of eight words.
fn send_all(assigned: &[Pair], inputs: &Words, word: usize, sent: &mut [Rails])
    requires from { All (λ pair. pair.kind ≡ Input → pair.from < length inputs.now.columns) assigned.now }
    requires to { All (λ pair. pair.kind ≡ Input → pair.to < length sent.old) assigned.now }
    requires word { word + 8 ≤ inputs.now.words }
    ensures { length sent.new ≡ length sent.old }
{
    for pair in assigned.iter() {
        send(*pair, inputs, word, sent);
    }
}

fn send(pair: Pair, inputs: &Words, word: usize, sent: &mut [Rails])
    requires from { pair.kind ≡ Input → pair.from < length inputs.now.columns }
    requires to { pair.kind ≡ Input → pair.to < length sent.old }
    requires word { word + 8 ≤ inputs.now.words }
    ensures { length sent.new ≡ length sent.old }
{
    if pair.kind == PortKind::Input {
        sent[pair.to as usize] = Rails::known(inputs.block(pair.from, word)).signed(pair.flip);
    }
}
