ghost use Rattle.std.specs.Prelude.{◌≡◌, ◌+◌, ◌<◌, length, vec_len};
ghost use Rattle.circuits.specs.Netlists.{signals_of};
ghost use Rattle.net_core.specs.Graph.{AreInOrder};

use crate::fanout::{Fanout, fanouts};
use crate::lanes::{Lanes, WORDS, replicated};
use items::Items;
use net_core::{Gate, Graph, eval_gates, gate_value, literal_value};
use std::alloc::{AllocError, Global};
use std::marker::Model;

/// A circuit on 256 vectors, and on these vectors with one input inverted.
pub struct FlipSim<'a> {
    graph: &'a Graph,
    fanouts: Items<Fanout>,
    /// What each signal has on the vectors.
    values: Vec<Lanes>,
    /// What each signal has with the input inverted, and else the same, once an input was inverted on these vectors.
    flipped: Vec<Lanes>,
    /// Whether that is so. Who inverts no input needs no copy.
    is_copied: bool,
    /// How many words of 64 vectors were computed.
    words: u64,
}

impl<'a> Model for FlipSim<'a> {
    ghost use Rattle.std.specs.Prelude.{◌≡◌, vec_len};
    ghost use Rattle.circuits.specs.Netlists.{Net, signals_of};

    ghost Value = { Net };

    ghost view = { λ a. a.graph.now };

    ghost invariant = { λ a. (vec_len a.values ≡ signals_of a.graph.now)
        × (vec_len a.flipped ≡ signals_of a.graph.now) };
}

// By hand, so that each exit of a function has one call for it (docs/IDIOMS.md).
impl Drop for FlipSim<'_> {
    fn drop(self) {
        let FlipSim {
            graph: _graph,
            fanouts: _fanouts,
            values: _values,
            flipped: _flipped,
            is_copied: _is_copied,
            words: _words,
        } = self;
    }
}

impl<'a> FlipSim<'a> {
    /// The circuit on vectors that are all 0 where its inputs are; `run` computes what the gates have.
    pub fn new(alloc: Global, graph: &'a Graph) -> Result<FlipSim<'a>, AllocError> {
        let signals = graph.signals();
        let fanouts = fanouts(alloc, graph)?;
        let values = vec![in alloc; replicated(false); signals]?;
        let flipped = vec![in alloc; replicated(false); signals]?;
        Ok(FlipSim {
            graph,
            fanouts,
            values,
            flipped,
            is_copied: false,
            words: 0,
        })
    }

    /// The circuit.
    pub fn graph(&self) -> &Graph {
        self.graph
    }

    /// How many words of 64 vectors were computed: of gates, and of outputs for those who look at what an inverted
    /// input changes.
    pub fn words(&self) -> u64 {
        self.words
    }

    /// How many words of 64 vectors are computed where the circuit is run and each input is inverted once.
    pub fn words_of_flips(&self) -> u64 {
        let mut words = WORDS as u64 * self.graph.gates().len() as u64;
        for fanout in self.fanouts.iter() {
            words = words.saturating_add(fanout.words());
        }
        words
    }

    /// The outputs that an input reaches, ascending.
    pub fn reached(&self, input: u32) -> &[u32] {
        match self.fanouts.get(input as usize) {
            Some(fanout) => fanout.outputs.as_slice(),
            None => &[],
        }
    }

    /// Gives an input its bits.
    pub fn set_input(&mut self, input: u32, lanes: Lanes) {
        if input < self.graph.inputs() {
            self.values[input as usize + 1] = lanes;
        }
    }

    /// Gives the inputs their bits, a column for each, from the first on.
    pub fn set_inputs(&mut self, columns: &[Lanes]) {
        for (input, lanes) in (0..self.graph.inputs()).zip(columns.iter()) {
            self.set_input(input, *lanes);
        }
    }

    /// What an input has.
    pub fn input(&self, input: u32) -> Lanes {
        if input < self.graph.inputs() {
            self.values[input as usize + 1]
        } else {
            replicated(false)
        }
    }

    /// Computes what the gates have.
    pub fn run(&mut self) {
        let gates = self.graph.gates();
        eval_gates(
            gates,
            self.graph.inputs() as usize + 1,
            self.values.as_mut_slice(),
        );
        self.is_copied = false;
        self.words = self.words.saturating_add(WORDS as u64 * gates.len() as u64);
    }

    /// Inverts an input, and computes what the gates have that it reaches.
    pub fn flip(&mut self, input: u32) {
        self.copy();
        if input >= self.graph.inputs() {
            return;
        }
        let Some(fanout) = self.fanouts.get(input as usize) else {
            return;
        };
        self.flipped[input as usize + 1] = !self.values[input as usize + 1];
        flip_gates(
            self.graph.gates(),
            self.graph.inputs() as usize + 1,
            &fanout.gates,
            self.flipped.as_mut_slice(),
        );
        self.words = self.words.saturating_add(fanout.words());
    }

    // Copies what each signal has on the vectors, if that wasn't done yet.
    fn copy(&mut self) {
        if !self.is_copied {
            self.flipped
                .as_mut_slice()
                .copy_from_slice(self.values.as_slice());
            self.is_copied = true;
        }
    }

    /// Takes the inversion of an input back.
    pub fn unflip(&mut self, input: u32) {
        if input >= self.graph.inputs() {
            return;
        }
        let Some(fanout) = self.fanouts.get(input as usize) else {
            return;
        };
        self.flipped[input as usize + 1] = self.values[input as usize + 1];
        restore(
            &fanout.gates,
            self.graph.inputs() as usize + 1,
            self.values.as_slice(),
            self.flipped.as_mut_slice(),
        );
    }

    /// Whether an input reaches a gate. Gates are numbered from 0 on.
    pub fn reaches(&self, input: u32, gate: usize) -> bool {
        let Some(fanout) = self.fanouts.get(input as usize) else {
            return false;
        };
        match fanout.gates.get(gate / 64) {
            Some(word) => (*word >> (gate % 64)) % 2 == 1,
            None => false,
        }
    }

    /// What a gate has on the vectors.
    pub fn gate(&self, gate: usize) -> Lanes {
        self.gate_in(&self.values, gate)
    }

    /// What a gate has with the input inverted.
    pub fn flipped_gate(&self, gate: usize) -> Lanes {
        self.gate_in(&self.flipped, gate)
    }

    // What a gate has where signals have these values.
    fn gate_in(&self, values: &[Lanes], gate: usize) -> Lanes {
        let first = self.graph.inputs() as usize + 1;
        match values.get(first.saturating_add(gate)) {
            Some(lanes) => *lanes,
            None => replicated(false),
        }
    }

    /// What an output has on the vectors.
    pub fn output(&self, output: u32) -> Lanes {
        match self.graph.outputs().get(output as usize) {
            Some(literal) => literal_value(&self.values, *literal),
            None => replicated(false),
        }
    }

    /// What an output has with the input inverted.
    pub fn flipped_output(&self, output: u32) -> Lanes {
        match self.graph.outputs().get(output as usize) {
            Some(literal) => literal_value(&self.flipped, *literal),
            None => replicated(false),
        }
    }
}

// Gives each of some gates its bits, in order, where signal `first` is the first gate. The gates are bits, 64 in a
// word.
fn flip_gates(gates: &[Gate], first: usize, words: &[u64], values: &mut [Lanes])
    requires order { AreInOrder first gates.now }
    requires room { first + length gates.now ≡ length values.old }
    ensures { length values.new ≡ length values.old }
{
    for (place, word) in words.iter().enumerate() {
        flip_word(gates, first, place.saturating_mul(64), *word, values);
    }
}

// Gives the gates of a word their bits, those from the place `from` on.
fn flip_word(gates: &[Gate], first: usize, from: usize, word: u64, values: &mut [Lanes])
    requires order { AreInOrder first gates.now }
    requires room { first + length gates.now ≡ length values.old }
    ensures { length values.new ≡ length values.old }
{
    let mut left = word;
    for _ in 0..word.count_ones() {
        let t = from.saturating_add(left.trailing_zeros() as usize);
        if t < gates.len() {
            let lanes = gate_value(values, gates[t]);
            values[first + t] = lanes;
        }
        left &= left.wrapping_sub(1);
    }
}

// Gives each of some gates the bits that it has in other values.
fn restore(words: &[u64], first: usize, from: &[Lanes], values: &mut [Lanes])
    requires { length from.now ≡ length values.old }
    ensures { length values.new ≡ length values.old }
{
    for (place, word) in words.iter().enumerate() {
        restore_word(
            *word,
            place.saturating_mul(64).saturating_add(first),
            from,
            values,
        );
    }
}

// Gives the gates of a word the bits that they have in other values, from the signal `first` on.
fn restore_word(word: u64, first: usize, from: &[Lanes], values: &mut [Lanes])
    requires { length from.now ≡ length values.old }
    ensures { length values.new ≡ length values.old }
{
    let mut left = word;
    for _ in 0..word.count_ones() {
        let signal = first.saturating_add(left.trailing_zeros() as usize);
        if signal < values.len() {
            values[signal] = from[signal];
        }
        left &= left.wrapping_sub(1);
    }
}
