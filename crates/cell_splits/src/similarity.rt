//! How alike inputs of two circuits are by the gates that they reach. Where outputs don't tell inputs apart, as those
//! of a parity or of a sorter, each of them may go to any other one; but that the matching is a match is shown with few
//! clauses only where gates of both circuits have the same function by it.

use crate::exact::{is_shared, own_class};
use crate::input_order::places_of;
use crate::patterns::Patterns;
use crate::state::State;
use net_core::{Graph, Side};
use port_cells::{Draws, FlipSim, Lanes, mix_lanes};
use std::alloc::{AllocError, Global};
use std::cmp::Reverse;
use word_sim::mix;

/// From how many pairs of inputs on a feature says nothing: nearly all inputs of circuits with fewer than 64 have it.
const MOST_PAIRS: usize = 1 << 12;

/// What one feature weighs where one input has it. Where it is four times as frequent it weighs half of that. Of the
/// greatest number of features that are compared, 2^24, the weights come to 2^40, which leaves room for `WHOLE` in 64
/// bits.
const WEIGHT: u64 = 1 << 16;

/// How many pairs of inputs take about as long as a response: of parities of 256 inputs 12 to 14 ns each, beside 150 to
/// 250.
const PAIRS_OF_RESPONSE: u64 = 16;

/// The similarity of inputs that share each feature.
const WHOLE: u64 = 1 << 20;

/// A gate that an input reaches, and what it does where that input is inverted.
#[derive(Clone, Copy, Drop)]
struct Response {
    input: usize,
    gate: usize,
    hash: u64,
}

/// A hash of a gate's class and of its response to an input. Inputs that go to each other share those of the gates that
/// both circuits have.
#[derive(Clone, Copy, Drop, PartialEq, Eq, PartialOrd, Ord)]
struct Feature {
    hash: u64,
    input: usize,
}

/// What gates do on vectors that are constant on cells, and where an input of a shared cell is inverted on them.
struct Responses {
    responses: Vec<Response>,
    /// A number for each gate, equal for gates of both circuits that have one function: a hash of its bits and of its
    /// responses to all inputs by their cells. A gate and its complement have the same.
    classes: Vec<u64>,
    /// Whether signs are open. Then it isn't known what inputs of the other circuit have on a vector, and gates go by
    /// the inputs that reach them alone.
    is_open: bool,
}

// By hand, so that each exit of a function has one call for it (docs/IDIOMS.md).
impl Drop for Responses {
    fn drop(self) {
        let Responses {
            responses: _responses,
            classes: _classes,
            is_open: _is_open,
        } = self;
    }
}

impl Responses {
    fn new(
        alloc: Global,
        state: &State,
        side: Side,
        patterns: &Patterns,
        simulator: &mut FlipSim<'_>,
    ) -> Result<Responses, AllocError> {
        let sizes = state.inputs.sizes(alloc)?;
        patterns.run(&state.inputs, side, simulator);
        let is_open = state.inputs.has_open();
        let mut found = Responses {
            responses: Vec::new(alloc),
            classes: classes_of(alloc, is_open, simulator)?,
            is_open,
        };
        for input in 0..simulator.graph().inputs() {
            if is_shared(&state.inputs, side, input, &sizes) {
                found.add_input(state.inputs.of(side), input, simulator)?;
            }
        }
        Ok(found)
    }

    // Adds the responses to an input. Going by the words of the bits that say which gates it reaches gained nothing on
    // counts and parities of 128 and 256 inputs.
    fn add_input(
        &mut self,
        cells: &[usize],
        input: u32,
        simulator: &mut FlipSim<'_>,
    ) -> Result<(), AllocError> {
        let own = own_class(cells, input);
        simulator.flip(input);
        for gate in 0..self.classes.len() {
            if simulator.reaches(input, gate) {
                self.add(own, input, gate, simulator)?;
            }
        }
        simulator.unflip(input);
        Ok(())
    }

    // Adds the response of a gate to an input.
    fn add(
        &mut self,
        own: u64,
        input: u32,
        gate: usize,
        simulator: &FlipSim<'_>,
    ) -> Result<(), AllocError> {
        let mut hash = 0u64;
        if !self.is_open {
            hash = mix_lanes(1, simulator.gate(gate) ^ simulator.flipped_gate(gate));
        }
        if gate < self.classes.len() {
            self.classes[gate] = self.classes[gate].wrapping_add(mix(hash, own));
        }
        self.responses.push(Response {
            input: input as usize,
            gate,
            hash,
        })?;
        Ok(())
    }

    // The features of all inputs, ascending.
    fn features(&self, alloc: Global) -> Result<Vec<Feature>, AllocError> {
        let mut features = Vec::with_capacity(alloc, self.responses.len())?;
        for response in self.responses.iter() {
            features.push(self.feature(*response))?;
        }
        features.sort_unstable();
        Ok(features)
    }

    fn feature(&self, response: Response) -> Feature {
        let class = match self.classes.get(response.gate) {
            Some(class) => *class,
            None => 0,
        };
        Feature {
            hash: mix(response.hash, class),
            input: response.input,
        }
    }
}

// The features of a circuit's inputs, ascending.
fn features_of(
    alloc: Global,
    state: &State,
    side: Side,
    patterns: &Patterns,
    simulator: &mut FlipSim<'_>,
) -> Result<Vec<Feature>, AllocError> {
    let responses = Responses::new(alloc, state, side, patterns, simulator)?;
    responses.features(alloc)
}

// A hash of what each gate has, the same for a gate and its complement; 0 where signs are open.
fn classes_of(
    alloc: Global,
    is_open: bool,
    simulator: &FlipSim<'_>,
) -> Result<Vec<u64>, AllocError> {
    let gates = simulator.graph().gates().len();
    let mut classes = Vec::with_capacity(alloc, gates)?;
    for gate in 0..gates {
        classes.push(if is_open {
            0
        } else {
            unsigned_hash(simulator.gate(gate))
        })?;
    }
    Ok(classes)
}

fn unsigned_hash(lanes: Lanes) -> u64 {
    mix_lanes(1, lanes).wrapping_add(mix_lanes(1, !lanes))
}

/// How alike the inputs of two circuits are.
pub struct Similarity {
    /// How many inputs a circuit has.
    inputs: usize,
    /// What the features weigh that an input of the first circuit shares with one of the second, row by row.
    shared: Vec<u64>,
    /// What those of an input of the first circuit weigh that some input of the second has.
    first: Vec<u64>,
    /// What those of an input of the second circuit weigh that some input of the first has.
    second: Vec<u64>,
    /// The place of each input of the first circuit in the order in which they are met from the outputs on.
    first_places: Vec<usize>,
    /// The place of each input of the second circuit in that order.
    second_places: Vec<usize>,
    /// How many responses of gates to inputs were compared, with a sixteenth of the pairs of inputs, which take about
    /// as long.
    responses: u64,
}

// By hand, so that each exit of a function has one call for it (docs/IDIOMS.md).
impl Drop for Similarity {
    fn drop(self) {
        let Similarity {
            inputs: _inputs,
            shared: _shared,
            first: _first,
            second: _second,
            first_places: _first_places,
            second_places: _second_places,
            responses: _responses,
        } = self;
    }
}

impl Similarity {
    /// Compares the inputs that aren't alone in their cells, by what gates do on drawn vectors that are constant on
    /// cells.
    pub fn new(
        alloc: Global,
        state: &State,
        first: &mut FlipSim<'_>,
        second: &mut FlipSim<'_>,
        draws: &mut Draws,
    ) -> Result<Similarity, AllocError> {
        let patterns = Patterns::draw(alloc, &state.inputs, draws)?;
        let left = features_of(alloc, state, Side::First, &patterns, first)?;
        let right = features_of(alloc, state, Side::Second, &patterns, second)?;
        let mut similarity = Similarity::none(alloc, first.graph(), second.graph())?;
        similarity.compare(&left, &right);
        Ok(similarity)
    }

    // Inputs without features.
    fn none(alloc: Global, first: &Graph, second: &Graph) -> Result<Similarity, AllocError> {
        let inputs = first.inputs() as usize;
        Ok(Similarity {
            inputs,
            shared: vec![in alloc; 0u64; inputs.saturating_mul(inputs)]?,
            first: vec![in alloc; 0u64; inputs]?,
            second: vec![in alloc; 0u64; inputs]?,
            first_places: places_of(alloc, first)?,
            second_places: places_of(alloc, second)?,
            responses: 0,
        })
    }

    // Goes over the features of both circuits, ascending.
    fn compare(&mut self, left: &[Feature], right: &[Feature]) {
        let pairs = self.shared.len() as u64 / PAIRS_OF_RESPONSE;
        self.responses = pairs.saturating_add(
            (left.len() as u64).saturating_add(right.len() as u64),
        );
        let mut first = 0usize;
        let mut second = 0usize;
        for _ in 0..left.len().saturating_add(right.len()) {
            let (Some(one), Some(other)) = (left.get(first), right.get(second)) else {
                return;
            };
            let least = one.hash.min(other.hash);
            let mine = alike(left, first, least);
            let its = alike(right, second, least);
            self.add_feature(mine, its);
            first = first.saturating_add(mine.len());
            second = second.saturating_add(its.len());
        }
    }

    // Adds what a feature weighs that inputs of the first circuit and of the second have.
    fn add_feature(&mut self, mine: &[Feature], its: &[Feature]) {
        let pairs = mine.len().saturating_mul(its.len());
        if (pairs == 0) | (pairs > MOST_PAIRS) {
            return;
        }
        let weight = weight_of(mine.len().saturating_add(its.len()));
        add_all(mine, weight, &mut self.first);
        add_all(its, weight, &mut self.second);
        for one in mine.iter() {
            let row = one.input.saturating_mul(self.inputs);
            add_row(its, row, weight, &mut self.shared);
        }
    }

    /// How many responses of gates to inputs were compared, by which the time goes.
    pub fn responses(&self) -> u64 {
        self.responses
    }

    /// How alike an input of the first circuit and one of the second are: which part the features that they share have
    /// of those that they could share. Of pairs that are alike in that those come first whose places are nearest.
    pub fn of(&self, mine: usize, its: usize) -> (u64, Reverse<usize>) {
        let row = mine.saturating_mul(self.inputs);
        let shared = at(&self.shared, row.saturating_add(its));
        let all = at(&self.first, mine).saturating_add(at(&self.second, its));
        let place = place_of(&self.first_places, mine);
        let other = place_of(&self.second_places, its);
        (
            shared.saturating_mul(WHOLE) / all.max(1),
            Reverse(place.abs_diff(other)),
        )
    }
}

fn place_of(places: &[usize], input: usize) -> usize {
    match places.get(input) {
        Some(place) => *place,
        None => 0,
    }
}

// The features from a place on that have a hash.
fn alike(features: &[Feature], from: usize, hash: u64) -> &[Feature] {
    let mut to = from;
    for place in from..features.len() {
        if features[place].hash != hash {
            break;
        }
        to = place.saturating_add(1);
    }
    match features.get(from..to) {
        Some(found) => found,
        None => &[],
    }
}

// What a feature weighs that this many inputs of both circuits have: about as much as the inverse of the number's
// square root, and not less than 1.
fn weight_of(inputs: usize) -> u64 {
    let digits = 64u32.saturating_sub((inputs as u64).leading_zeros());
    WEIGHT >> (digits / 2).min(16)
}

fn add_all(features: &[Feature], weight: u64, sums: &mut [u64]) {
    add_row(features, 0, weight, sums);
}

// Adds a weight for each of some inputs, at its place from one on.
fn add_row(features: &[Feature], from: usize, weight: u64, sums: &mut [u64]) {
    for feature in features.iter() {
        let place = from.saturating_add(feature.input);
        if place < sums.len() {
            sums[place] = sums[place].saturating_add(weight);
        }
    }
}

fn at(sums: &[u64], place: usize) -> u64 {
    match sums.get(place) {
        Some(sum) => *sum,
        None => 0,
    }
}
