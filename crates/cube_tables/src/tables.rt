//! The tables of two circuits.

use crate::cone::{Cone, exchanged, swap_bit};
use crate::cubes::{CubeColumn, MOST_INPUTS, blocks_of, power};
use crate::primes::{Prime, primes_of};
use account_core::PairableGraphs;
use circuits::{Pair, PortKind};
use items::Items;
use net_core::Graph;
use sim_signature::Supports;
use std::alloc::{AllocError, Global};

/// How many evaluations of a gate on 512 cubes the tables may take: some 30 ms.
const MOST_GATES: usize = 1 << 22;

/// The cones of few inputs of two circuits, by outputs.
#[derive(Drop)]
pub(crate) struct Tables {
    pub(crate) first: Vec<Option<Cone>>,
    pub(crate) second: Vec<Option<Cone>>,
    /// The primes of the second circuit's.
    primes: Vec<Items<Prime>>,
    /// How many inputs either circuit has.
    inputs: u32,
}

/// A pair of outputs of which both have tables.
#[derive(Clone, Copy)]
pub(crate) struct TabledPair<'a> {
    pub(crate) pair: Pair,
    pub(crate) first: &'a Cone,
    pub(crate) second: &'a Cone,
    pub(crate) primes: &'a [Prime],
    /// How many inputs either circuit has.
    pub(crate) inputs: u32,
}

impl Tables {
    /// The tables of two circuits.
    pub(crate) fn new(alloc: Global, graphs: &PairableGraphs<'_>) -> Result<Tables, AllocError> {
        let mut columns = Vec::with_capacity(alloc, MOST_INPUTS)?;
        for place in 0..MOST_INPUTS {
            columns.push(CubeColumn::new(alloc, place, power(MOST_INPUTS))?)?;
        }
        let first = cones_of(alloc, graphs.first(), &columns)?;
        let second = cones_of(alloc, graphs.second(), &columns)?;
        let primes = all_primes(alloc, &second)?;
        Ok(Tables {
            first,
            second,
            primes,
            inputs: graphs.ports(PortKind::Input),
        })
    }

    /// How many inputs either circuit has.
    pub(crate) fn inputs(&self) -> u32 {
        self.inputs
    }

    /// A pair with its tables, if it is of outputs that have some.
    pub(crate) fn tabled(&self, pair: Pair) -> Option<TabledPair<'_>> {
        if pair.kind != PortKind::Output {
            return None;
        }
        let first = cone_in(&self.first, pair.from)?;
        let second = cone_in(&self.second, pair.to)?;
        let primes = self.primes.get(pair.to as usize)?;
        Some(TabledPair {
            pair,
            first,
            second,
            primes: primes.as_slice(),
            inputs: self.inputs,
        })
    }
}

impl TabledPair<'_> {
    /// Whether the outputs depend on as many inputs, and are binate in as many.
    pub(crate) fn has_same_counts(&self) -> bool {
        self.first.counts() == self.second.counts()
    }

    /// Whether claims of one input differ of the two, where an input's pair is such.
    pub(crate) fn is_unlike(&self, input: Pair) -> bool {
        let one = self.first.broken_at(input.from);
        let other = self.second.broken_at(input.to);
        if input.flip != self.pair.flip {
            one != exchanged(other)
        } else {
            one != other
        }
    }

    /// Whether claims of two inputs differ of the two, where the inputs' pairs are such.
    pub(crate) fn is_unlike_with(&self, input: Pair, other: Pair) -> bool {
        match self.swaps_of(input, other) {
            Some((first, second)) => first != second,
            None => false,
        }
    }

    // Which claims of two inputs fail, of the first output and of the second as they are carried back to the first.
    fn swaps_of(&self, input: Pair, other: Pair) -> Option<(u8, u8)> {
        let (from, to) = self.places_of(input)?;
        let (other_from, other_to) = self.places_of(other)?;
        let carried = moved_swaps(
            self.second.swap_at(to, other_to),
            input.flip != self.pair.flip,
            other.flip != self.pair.flip,
        );
        Some((self.first.swap_at(from, other_from), carried))
    }

    // The places of an input's pair in the two cones.
    fn places_of(&self, input: Pair) -> Option<(usize, usize)> {
        let from = self.first.place_of(input.from)?;
        let to = self.second.place_of(input.to)?;
        Some((from, to))
    }
}

// The claims that fail where the values from which two inputs change are inverted.
fn moved_swaps(failing: u8, one: bool, other: bool) -> u8 {
    let mut moved = 0;
    for (first, second) in [(false, false), (false, true), (true, false), (true, true)] {
        if failing & swap_bit(first != one, second != other) != 0 {
            moved |= swap_bit(first, second);
        }
    }
    moved
}

/// The table of an output, if it has one.
pub(crate) fn cone_in(cones: &[Option<Cone>], output: u32) -> Option<&Cone> {
    cones.get(output as usize)?.as_ref()
}

// The tables of a circuit's outputs that reach few inputs, as far as they may be made.
fn cones_of(
    alloc: Global,
    graph: &Graph,
    columns: &[CubeColumn],
) -> Result<Vec<Option<Cone>>, AllocError> {
    let supports = Supports::new(alloc, graph)?;
    let gates = graph.gates().len();
    let mut left = MOST_GATES;
    let mut cones = Vec::new(alloc);
    for output in 0..graph.outputs().len() as u32 {
        let inputs = supports.inputs_of(alloc, output)?;
        let cost = blocks_of(power(inputs.len())).saturating_mul(gates);
        if (inputs.len() > MOST_INPUTS) | (cost > left) {
            cones.push(None)?;
            continue;
        }
        left = left.saturating_sub(cost);
        let cone = Cone::new(alloc, graph, output, inputs, columns)?;
        cones.push(Some(cone))?;
    }
    Ok(cones)
}

fn all_primes(alloc: Global, cones: &[Option<Cone>]) -> Result<Vec<Items<Prime>>, AllocError> {
    let mut all = Vec::with_capacity(alloc, cones.len())?;
    for cone in cones.iter() {
        let primes = match cone {
            Some(cone) => primes_of(alloc, cone)?,
            None => Vec::new(alloc),
        };
        all.push(Items::from_vec(primes))?;
    }
    Ok(all)
}
