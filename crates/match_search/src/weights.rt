//! How often ports were in conflicts of late.

use account_core::{Ban, Port, Step};
use circuits::{Pair, PortKind};
use net_core::Side;
use std::alloc::{AllocError, Global};

/// What a conflict adds at first: so much that little is lost where its sixteenth is rounded.
const FIRST_STEP: u64 = 1 << 10;

/// Each conflict adds what the one before it added, and that divided by this. `learn_solver` counts so too; MiniSat
/// divides what it adds by 0.95. No other number was measured in this search.
const GROWTH: u64 = 16;

/// What part of a conflict each port has as its weight from the first, a tenth. With a fiftieth a near miss of a funnel
/// shifter took three times as many conflicts; with more, conflicts decide less beside the number of ways.
const FIRST_PART: u64 = 10;

/// What it adds at most: then all weights are made smaller, so that their sums stay far below 2^64.
const MOST_STEP: u64 = 1 << 40;

/// A weight for each port of either circuit: in how many of the last conflicts it was, where a conflict counts for a
/// sixteenth more than the one before it. Solvers know this as activity (Moskewicz and others, Chaff, DAC 2001).
#[derive(Drop)]
pub(crate) struct Weights {
    /// Of the inputs of the first circuit, those of the second, and of the outputs.
    weights: Vec<u64>,
    inputs: usize,
    outputs: usize,
    step: u64,
}

impl Weights {
    /// No conflict was seen yet.
    pub(crate) fn new(alloc: Global, inputs: u32, outputs: u32) -> Result<Weights, AllocError> {
        let (inputs, outputs) = (inputs as usize, outputs as usize);
        let ports = inputs.saturating_add(outputs).saturating_mul(2);
        Ok(Weights {
            weights: vec![in alloc; 0u64; ports]?,
            inputs,
            outputs,
            step: FIRST_STEP,
        })
    }

    /// Counts a conflict that came to these bans, the last of which was learned: the ports get heavier whose ways were
    /// covered on the way, and those of the learned pairs.
    pub(crate) fn count(&mut self, bans: &[Ban]) {
        for ban in bans.iter() {
            self.raise_covered(&ban.step);
        }
        if let Some(learned) = bans.last() {
            self.count_learned(learned);
        }
    }

    /// Counts a conflict of which this ban was learned: the ports of its pairs get heavier.
    pub(crate) fn count_learned(&mut self, learned: &Ban) {
        self.raise(&learned.pairs);
        self.step = self.step.saturating_add(self.step / GROWTH);
        if self.step > MOST_STEP {
            self.scale();
        }
    }

    /// The weight of a port, with a part of a conflict for each, so that among ports that were in none the number of
    /// ways decides.
    pub(crate) fn of(&self, port: Port) -> u64 {
        let place = self.place(port.side, port.kind, port.number);
        let weight = match self.weights.get(place) {
            Some(weight) => *weight,
            None => 0,
        };
        weight.saturating_add(self.step / FIRST_PART)
    }

    // Raises the ports whose ways a step covers, those of one circuit alone: of the one that has fewer of them, since
    // these are short of ways. With the other circuit's in their place a near miss of a decoder (`decoder6`) took
    // 180,000 conflicts in place of 3,300.
    fn raise_covered(&mut self, step: &Step) {
        let Step::Cover { kind, from, to, .. } = step else {
            return;
        };
        if from.len() <= to.len() {
            self.raise_all(Side::First, *kind, from);
        } else {
            self.raise_all(Side::Second, *kind, to);
        }
    }

    fn raise_all(&mut self, side: Side, kind: PortKind, ports: &[u32]) {
        for port in ports.iter() {
            self.raise_port(side, kind, *port);
        }
    }

    fn raise(&mut self, pairs: &[Pair]) {
        for pair in pairs.iter() {
            self.raise_port(Side::First, pair.kind, pair.from);
            self.raise_port(Side::Second, pair.kind, pair.to);
        }
    }

    fn raise_port(&mut self, side: Side, kind: PortKind, number: u32) {
        let place = self.place(side, kind, number);
        let step = self.step;
        if let Some(weight) = self.weights.get_mut(place) {
            *weight = weight.saturating_add(step);
        }
    }

    // Makes all weights smaller, and the step with them.
    fn scale(&mut self) {
        for weight in self.weights.iter_mut() {
            *weight /= MOST_STEP / FIRST_STEP;
        }
        self.step = FIRST_STEP;
    }

    fn place(&self, side: Side, kind: PortKind, number: u32) -> usize {
        let before = match (kind, side) {
            (PortKind::Input, Side::First) => 0,
            (PortKind::Input, Side::Second) => self.inputs,
            (PortKind::Output, Side::First) => self.inputs.saturating_mul(2),
            (PortKind::Output, Side::Second) => {
                self.inputs.saturating_mul(2).saturating_add(self.outputs)
            }
        };
        before.saturating_add(number as usize)
    }
}
