//! Vectors of both circuits that may correspond: where all open signs are taken as if a vector of the first circuit
//! went to one of the second, one guess decides them all.

use crate::climbing::climbed;
use crate::lane_counts::LaneCounts;
use crate::state::State;
use items::Items;
use net_core::Side;
use port_cells::{Draws, FlipSim, Lanes, VECTORS, bit_of, literal_of, port_at};
use std::alloc::{AllocError, Global};
use word_sim::mix;

/// The most blocks of 256 vectors that are drawn in each circuit. Of circuits with 26 inputs one pair of vectors is
/// expected to correspond among 8,192 of both (8,192^2 is 2^26), and more where inputs may be exchanged. With four
/// times as many 29 pairs take 7 s instead of 5.
const MOST_BLOCKS: usize = 32;

/// The fewest, where one block alone takes too many counts. It wasn't tuned.
const LEAST_BLOCKS: usize = 2;

/// How many counts may be made, one for each input, output and block: fewer blocks are drawn of circuits with more than
/// 1,024 pairs of an input and an output. With a fourth of them the minimum and maximum of 16 bits takes 0.45 s instead
/// of 0.17.
const MOST_COUNTS: usize = 1 << 15;

/// How many pairs of vectors are taken, those with rare profiles first: each costs a search. With a fourth of them the
/// rotation of 32 bits takes 0.4 s longer, and the cubic graph of 24 vertices, joined by exclusive or, is guessed on
/// one seed of six in place of three; with four times as many the minimum and maximum of 16 bits takes a second longer.
const MOST_ANCHORS: usize = 24;

/// How many of them have one profile, so that three profiles are tried at least. A profile that many vectors have says
/// little.
const MOST_ALIKE: usize = 8;

/// The bit that is set in the class of an output, so that no input has the same one.
const OF_OUTPUT: u64 = 1 << 63;

/// What the inputs of a circuit have on drawn vectors, and a hash of each vector's profile: of how many outputs change
/// with each input, and how many inputs change each output, by the ports' cells. Corresponding vectors have one
/// profile.
struct Profiles {
    blocks: Items<Items<Lanes>>,
    /// By the profiles, ascending.
    places: Vec<ProfiledVector>,
}

// By hand, so that each exit of a function has one call for it (docs/IDIOMS.md).
impl Drop for Profiles {
    fn drop(self) {
        let Profiles {
            blocks: _blocks,
            places: _places,
        } = self;
    }
}

/// A vector's profile, and its place in the blocks.
#[derive(Clone, Copy, Drop, PartialEq, Eq, PartialOrd, Ord)]
struct ProfiledVector {
    profile: u64,
    block: usize,
    lane: usize,
}

impl Profiles {
    fn draw(
        alloc: Global,
        state: &State,
        side: Side,
        starts: &[Items<Lanes>],
        simulator: &mut FlipSim<'_>,
        draws: &mut Draws,
    ) -> Result<Profiles, AllocError> {
        let mut profiles = Profiles {
            blocks: Items::new(alloc),
            places: Vec::new(alloc),
        };
        let best = climbed(alloc, starts, simulator, draws)?;
        profiles.add(alloc, state, side, best, simulator)?;
        for _ in 0..blocks_of(simulator) {
            let drawn = draw_block(alloc, simulator, draws)?;
            profiles.add(alloc, state, side, drawn, simulator)?;
        }
        profiles.places.sort_unstable();
        Ok(profiles)
    }

    // Adds a block of vectors.
    fn add(
        &mut self,
        alloc: Global,
        state: &State,
        side: Side,
        inputs: Items<Lanes>,
        simulator: &mut FlipSim<'_>,
    ) -> Result<(), AllocError> {
        simulator.set_inputs(&inputs);
        simulator.run();
        let hashes = hashes_of(alloc, state, side, simulator)?;
        add_places(&hashes, self.blocks.len(), &mut self.places)?;
        self.blocks.push(inputs)?;
        Ok(())
    }

    // Whether an input is 1 on a vector.
    fn bit(&self, place: ProfiledVector, input: usize) -> bool {
        let Some(inputs) = self.blocks.get(place.block) else {
            return false;
        };
        let Some(lanes) = inputs.get(input) else {
            return false;
        };
        bit_of(*lanes, place.lane)
    }
}

fn blocks_of(simulator: &FlipSim<'_>) -> usize {
    let graph = simulator.graph();
    let counts = (graph.inputs() as usize).saturating_mul(graph.outputs().len());
    (MOST_COUNTS / counts.max(1)).clamp(LEAST_BLOCKS, MOST_BLOCKS)
}

fn draw_block(
    alloc: Global,
    simulator: &FlipSim<'_>,
    draws: &mut Draws,
) -> Result<Items<Lanes>, AllocError> {
    let mut inputs = Items::new(alloc);
    for _ in 0..simulator.graph().inputs() {
        inputs.push(draws.lanes())?;
    }
    Ok(inputs)
}

fn add_places(
    hashes: &[u64],
    block: usize,
    places: &mut Vec<ProfiledVector>,
) -> Result<(), AllocError> {
    for (lane, profile) in hashes.iter().enumerate() {
        places.push(ProfiledVector {
            profile: *profile,
            block,
            lane,
        })?;
    }
    Ok(())
}

// The hashes of the profiles of a block's vectors.
fn hashes_of(
    alloc: Global,
    state: &State,
    side: Side,
    simulator: &mut FlipSim<'_>,
) -> Result<Vec<u64>, AllocError> {
    let mut hashes = vec![in alloc; 0u64; VECTORS]?;
    let mut of_outputs = no_counts(alloc, simulator.graph().outputs().len())?;
    let inputs = state.inputs.of(side);
    add_inputs(alloc, inputs, simulator, &mut of_outputs, &mut hashes)?;
    add_outputs(alloc, state.outputs.of(side), &of_outputs, &mut hashes)?;
    Ok(hashes)
}

// Adds what each input changes to the hashes, and counts it for each output.
fn add_inputs(
    alloc: Global,
    cells: &[usize],
    simulator: &mut FlipSim<'_>,
    of_outputs: &mut [LaneCounts],
    hashes: &mut [u64],
) -> Result<(), AllocError> {
    for input in 0..simulator.graph().inputs() {
        let changes = changes_with(alloc, simulator, input, of_outputs)?;
        add_hashes(class_of(cells, input), &changes, hashes);
    }
    Ok(())
}

// Adds how many inputs change each output to the hashes.
fn add_outputs(
    alloc: Global,
    cells: &[usize],
    of_outputs: &[LaneCounts],
    hashes: &mut [u64],
) -> Result<(), AllocError> {
    for (output, changes) in of_outputs.iter().enumerate() {
        let class = class_of(cells, port_at(output)) | OF_OUTPUT;
        add_hashes(class, &changes.counts(alloc)?, hashes);
    }
    Ok(())
}

fn no_counts(alloc: Global, outputs: usize) -> Result<Vec<LaneCounts>, AllocError> {
    let mut counts = Vec::with_capacity(alloc, outputs)?;
    for _ in 0..outputs {
        counts.push(LaneCounts::new(alloc)?)?;
    }
    Ok(counts)
}

// How many outputs an inverted input changes, on each vector; adds to each output's counts where it changes, too.
fn changes_with(
    alloc: Global,
    simulator: &mut FlipSim<'_>,
    input: u32,
    of_outputs: &mut [LaneCounts],
) -> Result<Vec<u64>, AllocError> {
    let mut changes = LaneCounts::new(alloc)?;
    simulator.flip(input);
    add_changes(simulator, input, &mut changes, of_outputs);
    simulator.unflip(input);
    changes.counts(alloc)
}

// Adds the outputs that an inverted input changes, on each vector.
fn add_changes(
    simulator: &FlipSim<'_>,
    input: u32,
    changes: &mut LaneCounts,
    of_outputs: &mut [LaneCounts],
) {
    for output in simulator.reached(input).iter() {
        let changed = simulator.output(*output) ^ simulator.flipped_output(*output);
        changes.add(changed);
        if (*output as usize) < of_outputs.len() {
            of_outputs[*output as usize].add(changed);
        }
    }
}

fn add_hashes(class: u64, changes: &[u64], hashes: &mut [u64]) {
    for (hash, count) in hashes.iter_mut().zip(changes.iter()) {
        *hash = hash.wrapping_add(mix(*count, class));
    }
}

// A number for the cells of a port and its complement.
fn class_of(cells: &[usize], port: u32) -> u64 {
    let plain = cells.get(literal_of(port, false));
    let inverted = cells.get(literal_of(port, true));
    match (plain, inverted) {
        (Some(plain), Some(inverted)) => (*plain).min(*inverted) as u64,
        _ => 0,
    }
}

/// A vector of each circuit, both with the same profile.
#[derive(Clone, Copy, Drop)]
struct Anchor {
    first: ProfiledVector,
    second: ProfiledVector,
}

/// Vectors of both circuits from which a climb starts, beside drawn ones: blocks of 256, a column for each input.
#[derive(Clone, Copy)]
pub struct Starts<'a> {
    pub first: &'a [Items<Lanes>],
    pub second: &'a [Items<Lanes>],
}

/// States in which the open signs are decided by a vector of each circuit, both with the same profile; those with the
/// rarest profiles last.
pub fn anchored(
    alloc: Global,
    state: &State,
    starts: Starts<'_>,
    first: &mut FlipSim<'_>,
    second: &mut FlipSim<'_>,
    draws: &mut Draws,
) -> Result<Vec<State>, AllocError> {
    let left = Profiles::draw(alloc, state, Side::First, starts.first, first, draws)?;
    let right = Profiles::draw(alloc, state, Side::Second, starts.second, second, draws)?;
    states_by(alloc, state, &left, &right)
}

// The states of all anchors, those with the rarest profiles last.
fn states_by(
    alloc: Global,
    state: &State,
    left: &Profiles,
    right: &Profiles,
) -> Result<Vec<State>, AllocError> {
    let anchors = anchors(alloc, left, right)?;
    let mut states = Vec::new(alloc);
    for anchor in anchors.iter().rev() {
        if let Some(state) = state_by(alloc, state, left, right, *anchor)? {
            states.push(state)?;
        }
    }
    Ok(states)
}

// The state in which open literals that are 1 on the first vector go to those that are 1 on the second. None where they
// can't.
fn state_by(
    alloc: Global,
    state: &State,
    left: &Profiles,
    right: &Profiles,
    anchor: Anchor,
) -> Result<Option<State>, AllocError> {
    let mine = anchor_keys(alloc, state.inputs.of(Side::First), left, anchor.first)?;
    let its = anchor_keys(alloc, state.inputs.of(Side::Second), right, anchor.second)?;
    let inputs = state.inputs.refine(alloc, &mine, &its)?;
    Ok(state.copy()?.with_inputs(inputs))
}

// Keys that distinguish open literals which are 1 on a vector from the others.
fn anchor_keys(
    alloc: Global,
    cells: &[usize],
    profiles: &Profiles,
    place: ProfiledVector,
) -> Result<Vec<u64>, AllocError> {
    let mut keys = Vec::with_capacity(alloc, cells.len())?;
    for (literal, cell) in cells.iter().enumerate() {
        let is_open = cells.get(literal ^ 1) == Some(cell);
        let bit = profiles.bit(place, literal / 2) != (literal % 2 == 1);
        keys.push((is_open & bit) as u64)?;
    }
    Ok(keys)
}

// Pairs of vectors with the same profile, those with the rarest profiles first.
fn anchors(alloc: Global, left: &Profiles, right: &Profiles) -> Result<Vec<Anchor>, AllocError> {
    let mut classes = classes(alloc, left, right)?;
    classes.sort_unstable();
    let mut anchors = Vec::new(alloc);
    for class in classes.iter() {
        add_anchors(*class, left, right, &mut anchors)?;
    }
    Ok(anchors)
}

/// The vectors of one profile.
#[derive(Clone, Copy, Drop, PartialEq, Eq, PartialOrd, Ord)]
struct ProfileClass {
    /// Whether the first of them was drawn: those that were climbed to say more.
    is_drawn: bool,
    /// How many vectors of both circuits have it.
    size: usize,
    /// Where they begin in the first circuit's places.
    first: usize,
    /// Where they begin in the second circuit's.
    second: usize,
}

// The profiles that vectors of both circuits have.
fn classes(
    alloc: Global,
    left: &Profiles,
    right: &Profiles,
) -> Result<Vec<ProfileClass>, AllocError> {
    let mut classes = Vec::new(alloc);
    let mut first = 0usize;
    let mut second = 0usize;
    for _ in 0..left.places.len().saturating_add(right.places.len()) {
        let (Some(one), Some(other)) = (left.places.get(first), right.places.get(second)) else {
            return Ok(classes);
        };
        let (mine, its) = (
            alike(&left.places, first, one.profile.min(other.profile)),
            alike(&right.places, second, one.profile.min(other.profile)),
        );
        if (mine > 0) & (its > 0) {
            classes.push(ProfileClass {
                is_drawn: one.block > 0,
                size: mine.saturating_add(its),
                first,
                second,
            })?;
        }
        first = first.saturating_add(mine);
        second = second.saturating_add(its);
    }
    Ok(classes)
}

// How many places from one on have a profile.
fn alike(places: &[ProfiledVector], from: usize, profile: u64) -> usize {
    let mut count = 0usize;
    for place in from..places.len() {
        if places[place].profile != profile {
            return count;
        }
        count = count.saturating_add(1);
    }
    count
}

// Adds the first vector of a profile with each of the other circuit's.
fn add_anchors(
    class: ProfileClass,
    left: &Profiles,
    right: &Profiles,
    anchors: &mut Vec<Anchor>,
) -> Result<(), AllocError> {
    let Some(first) = left.places.get(class.first) else {
        return Ok(());
    };
    for place in class.second..class.second.saturating_add(MOST_ALIKE) {
        if let Some(second) = right.places.get(place)
            && second.profile == first.profile
            && anchors.len() < MOST_ANCHORS
        {
            anchors.push(Anchor {
                first: *first,
                second: *second,
            })?;
        }
    }
    Ok(())
}
