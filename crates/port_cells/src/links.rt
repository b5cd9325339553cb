//! Keys of literals from exact counts: a match keeps how often each literal of an output changes with each literal of
//! an input, so literals correspond only where these counts, by the cells of the other ports, are the same.

use crate::cells::literal_of;
use crate::counts::{Counts, Influence};
use std::alloc::{AllocError, Global};
use word_sim::mix;

/// The keys of the inputs' literals, by the cells of the outputs' literals.
pub fn input_keys(
    alloc: Global,
    counts: &Counts,
    outputs: &[usize],
) -> Result<Vec<u64>, AllocError> {
    let mut keys = Vec::with_capacity(alloc, counts.of_inputs.len())?;
    for influences in counts.of_inputs.iter() {
        keys.push(key_of(influences, false, outputs))?;
        keys.push(key_of(influences, true, outputs))?;
    }
    Ok(keys)
}

/// The keys of the outputs' literals, by how often they are true and by the cells of the inputs' literals.
pub fn output_keys(
    alloc: Global,
    counts: &Counts,
    inputs: &[usize],
) -> Result<Vec<u64>, AllocError> {
    let mut keys = Vec::with_capacity(alloc, counts.of_outputs.len())?;
    for (influences, ones) in counts.of_outputs.iter().zip(counts.ones.iter()) {
        let zeros = counts.vectors.saturating_sub(*ones);
        keys.push(mix(u64::from(*ones), key_of(influences, false, inputs)))?;
        keys.push(mix(u64::from(zeros), key_of(influences, true, inputs)))?;
    }
    Ok(keys)
}

// A sum over the other ports, so that their order doesn't matter.
fn key_of(influences: &[Influence], negated: bool, cells: &[usize]) -> u64 {
    let mut key = 0u64;
    for influence in influences.iter() {
        key = key.wrapping_add(part_of(*influence, negated, cells));
    }
    key
}

// What the two literals of another port add.
fn part_of(influence: Influence, negated: bool, cells: &[usize]) -> u64 {
    let (plain, inverted) = influence.counts(negated);
    let one = mix(
        u64::from(plain),
        cell_at(cells, literal_of(influence.port, false)),
    );
    let other = mix(
        u64::from(inverted),
        cell_at(cells, literal_of(influence.port, true)),
    );
    one.wrapping_add(other)
}

/// The cell of a literal, 0 where there is none.
pub fn cell_at(cells: &[usize], literal: usize) -> u64 {
    match cells.get(literal) {
        Some(cell) => *cell as u64,
        None => 0,
    }
}
