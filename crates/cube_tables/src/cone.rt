//! What an output of few inputs has on cubes of these.

ghost use Rattle.std.specs.Prelude.{◌≡◌, length};

use crate::cubes::{BLOCK, CubeColumn, WORD, at, blocks_of, first_free, has, power, vectors_of};
use items::Items;
use net_core::Graph;
use std::alloc::{AllocError, Global};
use word_sim::{Rails, rails_eval, word_at};

/// The value of an output that isn't known.
pub(crate) const UNKNOWN: u8 = 2;

/// The bit of a cube on which an output has 0 on some vector.
pub(crate) const HAS_ZERO: u8 = 1;

/// The bit of a cube on which an output has 1 on some vector.
pub(crate) const HAS_ONE: u8 = 2;

/// The bit of a place where an output falls on some vector as the input rises, as `BrokenClaims::broken` has it.
const FALLS: u8 = 1;

/// The bit of a place where an output rises on some vector as the input rises.
const RISES: u8 = 2;

/// Both bits of a place: the output is binate in the input.
const BINATE: u8 = FALLS | RISES;

/// An output that reaches few inputs through gates.
#[derive(Drop)]
pub(crate) struct Cone {
    /// The inputs that it reaches, ascending. An input's place is that in this list.
    pub(crate) inputs: Items<u32>,
    /// What the output has on each cube by its gates, evaluated by three values: 0, 1, or `UNKNOWN`.
    pub(crate) values: Items<u8>,
    /// What the output has on vectors of each cube: `HAS_ZERO`, `HAS_ONE`, or both bits.
    pub(crate) bits: Items<u8>,
    /// Of each place which claims of one input fail: `FALLS`, `RISES`, or both bits.
    pub(crate) broken: Items<u8>,
    /// Of each two places which claims of two inputs fail, in a row for each first place: bit 2 a + b is 1 where the
    /// output may fall as both change, the one from a and the other from b.
    swaps: Items<u8>,
}

impl Cone {
    /// The cone of an output that reaches these inputs.
    pub(crate) fn new(
        alloc: Global,
        graph: &Graph,
        output: u32,
        inputs: Items<u32>,
        columns: &[CubeColumn],
    ) -> Result<Cone, AllocError> {
        let values = values_of(alloc, graph, output, &inputs, columns)?;
        let bits = bits_of(alloc, &values, inputs.len())?;
        let vectors = vectors_of(alloc, inputs.len())?;
        let broken = all_broken(alloc, &bits, &vectors, inputs.len())?;
        let swaps = all_swaps(alloc, &bits, &vectors, inputs.len())?;
        Ok(Cone {
            inputs,
            values,
            bits,
            broken,
            swaps,
        })
    }

    /// The place of an input. A scan: a cone has at most ten inputs.
    pub(crate) fn place_of(&self, input: u32) -> Option<usize> {
        self.inputs.iter().position(|other| *other == input)
    }

    /// Which claims of an input fail.
    pub(crate) fn broken_at(&self, input: u32) -> u8 {
        match self.place_of(input) {
            Some(place) => at(&self.broken, place),
            None => 0,
        }
    }

    /// Which claims of two places fail.
    pub(crate) fn swap_at(&self, one: usize, other: usize) -> u8 {
        let row = one.saturating_mul(self.inputs.len());
        at(&self.swaps, row.saturating_add(other))
    }

    /// On how many inputs the output depends, and in how many it is binate.
    pub(crate) fn counts(&self) -> (usize, usize) {
        let depends = self.broken.iter().filter(|broken| **broken != 0).count();
        let binate = self
            .broken
            .iter()
            .filter(|broken| **broken == BINATE)
            .count();
        (depends, binate)
    }
}

// What an output has on all cubes of the inputs that it reaches.
fn values_of(
    alloc: Global,
    graph: &Graph,
    output: u32,
    inputs: &[u32],
    columns: &[CubeColumn],
) -> Result<Items<u8>, AllocError> {
    let cubes = power(inputs.len());
    let mut values = Items::with_capacity(alloc, cubes)?;
    for block in 0..blocks_of(cubes) {
        let rails = rails_on(alloc, graph, output, inputs, columns, block)?;
        push_block(&mut values, &rails, cubes)?;
    }
    Ok(values)
}

// Adds the values of 512 cubes, as far as there are so many.
fn push_block(values: &mut Items<u8>, rails: &Rails, cubes: usize) -> Result<(), AllocError> {
    for word in 0..BLOCK {
        let ones = word_at(rails.ones, word);
        let zeros = word_at(rails.zeros, word);
        push_values(values, ones, zeros, cubes)?;
    }
    Ok(())
}

// What an output has on 512 cubes.
fn rails_on(
    alloc: Global,
    graph: &Graph,
    output: u32,
    inputs: &[u32],
    columns: &[CubeColumn],
    block: usize,
) -> Result<Rails, AllocError> {
    let mut sent = vec![in alloc; Rails::unknown(); graph.inputs() as usize]?;
    send_all(inputs, columns, block, &mut sent);
    let outputs = rails_eval(alloc, graph, &sent)?;
    match outputs.get(output as usize) {
        Some(rails) => Ok(*rails),
        None => Ok(Rails::unknown()),
    }
}

// Gives the inputs what they have on 512 cubes.
fn send_all(inputs: &[u32], columns: &[CubeColumn], block: usize, sent: &mut [Rails])
    ensures { length sent.new ≡ length sent.old }
{
    for (place, input) in inputs.iter().enumerate() {
        send(*input, columns.get(place), block, sent);
    }
}

fn send(input: u32, column: Option<&CubeColumn>, block: usize, sent: &mut [Rails])
    ensures { length sent.new ≡ length sent.old }
{
    let Some(column) = column else {
        return;
    };
    if (input as usize) < sent.len() {
        sent[input as usize] = column.rails(block.saturating_mul(BLOCK));
    }
}

// Adds the values of 64 cubes, as far as there are so many.
fn push_values(
    values: &mut Items<u8>,
    ones: u64,
    zeros: u64,
    cubes: usize,
) -> Result<(), AllocError> {
    for lane in 0..WORD as u32 {
        if values.len() >= cubes {
            return Ok(());
        }
        values.push(value_of((ones >> lane) % 2, (zeros >> lane) % 2))?;
    }
    Ok(())
}

fn value_of(one: u64, zero: u64) -> u8 {
    if one == 1 {
        1
    } else if zero == 1 {
        0
    } else {
        UNKNOWN
    }
}

// Which bits an output has on vectors of each cube. Those of a cube are those of the two in which its first free place
// has a bit, which stand before it.
fn bits_of(alloc: Global, values: &[u8], inputs: usize) -> Result<Items<u8>, AllocError> {
    let mut bits = Items::with_capacity(alloc, values.len())?;
    for cube in 0..values.len() {
        let found = match first_free(cube, inputs) {
            None => bit_of(values[cube]),
            Some(place) => both_bits(&bits, cube, power(place)),
        };
        bits.push(found)?;
    }
    Ok(bits)
}

fn bit_of(value: u8) -> u8 {
    match value {
        0 => HAS_ZERO,
        1 => HAS_ONE,
        _ => HAS_ZERO | HAS_ONE,
    }
}

fn both_bits(bits: &[u8], cube: usize, step: usize) -> u8 {
    let one = cube.saturating_sub(step);
    let zero = one.saturating_sub(step);
    at(bits, one) | at(bits, zero)
}

// Which claims of each input fail.
fn all_broken(
    alloc: Global,
    bits: &[u8],
    vectors: &[usize],
    inputs: usize,
) -> Result<Items<u8>, AllocError> {
    let mut broken = Items::with_capacity(alloc, inputs)?;
    for place in 0..inputs {
        broken.push(broken_in(bits, vectors, place))?;
    }
    Ok(broken)
}

fn broken_in(bits: &[u8], vectors: &[usize], place: usize) -> u8 {
    let mut broken = 0;
    for (number, cube) in vectors.iter().enumerate() {
        if !has(number, place) {
            let low = at(bits, *cube);
            let high = at(bits, cube.saturating_add(power(place)));
            broken |= change_of(low, high);
        }
    }
    broken
}

// Whether an output falls or rises between two vectors, by what it has on each.
fn change_of(low: u8, high: u8) -> u8 {
    if (low == HAS_ONE) & (high == HAS_ZERO) {
        FALLS
    } else if (low == HAS_ZERO) & (high == HAS_ONE) {
        RISES
    } else {
        0
    }
}

/// Which claims of an input and an output fail where one of the two is inverted: falling and rising are exchanged. Bit
/// 0 says that the output may fall as the input rises, bit 1 that it may rise.
pub fn exchanged(broken: u8) -> u8 {
    match broken {
        FALLS => RISES,
        RISES => FALLS,
        _ => broken,
    }
}

// Which claims of each two inputs fail.
fn all_swaps(
    alloc: Global,
    bits: &[u8],
    vectors: &[usize],
    inputs: usize,
) -> Result<Items<u8>, AllocError> {
    let mut swaps = Items::new(alloc);
    for one in 0..inputs {
        add_swaps(&mut swaps, bits, vectors, one, inputs)?;
    }
    Ok(swaps)
}

// Adds which claims of a place and each other one fail.
fn add_swaps(
    swaps: &mut Items<u8>,
    bits: &[u8],
    vectors: &[usize],
    one: usize,
    inputs: usize,
) -> Result<(), AllocError> {
    for other in 0..inputs {
        swaps.push(swaps_in(bits, vectors, one, other))?;
    }
    Ok(())
}

fn swaps_in(bits: &[u8], vectors: &[usize], one: usize, other: usize) -> u8 {
    let mut failing = 0;
    for (number, cube) in vectors.iter().enumerate() {
        let first = has(number, one);
        let second = has(number, other);
        let changed = changed_at(changed_at(*cube, one, first), other, second);
        if (at(bits, *cube) == HAS_ONE) & (at(bits, changed) == HAS_ZERO) {
            failing |= swap_bit(first, second);
        }
    }
    failing
}

// The vector's cube where the input of a place, which has this bit, is inverted.
fn changed_at(cube: usize, place: usize, one: bool) -> usize {
    if one {
        cube.saturating_sub(power(place))
    } else {
        cube.saturating_add(power(place))
    }
}

/// The bit of a claim of two inputs that change from these bits.
pub(crate) fn swap_bit(one: bool, other: bool) -> u8 {
    match (one, other) {
        (false, false) => 1,
        (false, true) => 2,
        (true, false) => 4,
        (true, true) => 8,
    }
}
