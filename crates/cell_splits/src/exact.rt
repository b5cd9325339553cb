//! Keys of literals where the signs of all inputs are known: what outputs have on vectors that are constant on cells.

use crate::patterns::Patterns;
use crate::state::State;
use net_core::Side;
use port_cells::{Cells, FlipSim, Lanes, cell_at, literal_of, mix_lanes, ones_in, port_at};
use std::alloc::{AllocError, Global};
use word_sim::mix;

/// Keys by which literals may correspond.
pub struct Keys {
    pub inputs: Vec<u64>,
    pub outputs: Vec<u64>,
}

// By hand, so that each exit of a function has one call for it (docs/IDIOMS.md).
impl Drop for Keys {
    fn drop(self) {
        let Keys {
            inputs: _inputs,
            outputs: _outputs,
        } = self;
    }
}

impl Keys {
    /// An output's literal goes by its bits, and by those that it has where an input of a cell is inverted; an input's
    /// by the bits that the outputs of a cell have where it is inverted. Inputs that are alone in their cells say
    /// nothing.
    pub fn new(
        alloc: Global,
        state: &State,
        side: Side,
        patterns: &Patterns,
        simulator: &mut FlipSim<'_>,
    ) -> Result<Keys, AllocError> {
        patterns.run(&state.inputs, side, simulator);
        let sizes = state.inputs.sizes(alloc)?;
        let mut keys = Keys {
            inputs: vec![in alloc; 0u64; state.inputs.of(side).len()]?,
            outputs: output_hashes(alloc, simulator)?,
        };
        for input in 0..simulator.graph().inputs() {
            if is_shared(&state.inputs, side, input, &sizes) {
                keys.add_flip(state, side, input, simulator);
            }
        }
        Ok(keys)
    }

    // Adds what an inverted input changes.
    fn add_flip(&mut self, state: &State, side: Side, input: u32, simulator: &mut FlipSim<'_>) {
        let own = own_class(state.inputs.of(side), input);
        simulator.flip(input);
        let mut key = 0u64;
        for output in simulator.reached(input).iter() {
            let part = self.add_change(state.outputs.of(side), own, *output, simulator);
            key = key.wrapping_add(part);
        }
        simulator.unflip(input);
        put_key(literal_of(input, false), key, &mut self.inputs);
        put_key(literal_of(input, true), key, &mut self.inputs);
    }

    // What an output adds to the key of the input that is inverted. The output's own keys get what the input adds.
    fn add_change(
        &mut self,
        outputs: &[usize],
        own: u64,
        output: u32,
        simulator: &FlipSim<'_>,
    ) -> u64 {
        let after = simulator.flipped_output(output);
        if ones_in(after ^ simulator.output(output)) == 0 {
            return 0;
        }
        let plain = self.add_literal(outputs, own, literal_of(output, false), after);
        let inverted = self.add_literal(outputs, own, literal_of(output, true), !after);
        plain.wrapping_add(inverted)
    }

    fn add_literal(&mut self, outputs: &[usize], own: u64, literal: usize, after: Lanes) -> u64 {
        let hash = mix_lanes(1, after);
        if literal < self.outputs.len() {
            self.outputs[literal] = self.outputs[literal].wrapping_add(mix(hash, own));
        }
        mix(hash, cell_at(outputs, literal))
    }
}

/// Whether the cell of an input has other inputs too.
pub(crate) fn is_shared(inputs: &Cells, side: Side, input: u32, sizes: &[usize]) -> bool {
    let Some(cell) = inputs.of(side).get(literal_of(input, false)) else {
        return false;
    };
    sizes.get(*cell) != Some(&1)
}

/// A number for an input's two cells.
pub(crate) fn own_class(inputs: &[usize], input: u32) -> u64 {
    let plain = cell_at(inputs, literal_of(input, false));
    let inverted = cell_at(inputs, literal_of(input, true));
    plain.min(inverted)
}

fn put_key(literal: usize, key: u64, keys: &mut [u64]) {
    if literal < keys.len() {
        keys[literal] = key;
    }
}

/// A hash of the bits of each output's literals.
pub fn output_hashes(alloc: Global, simulator: &FlipSim<'_>) -> Result<Vec<u64>, AllocError> {
    let outputs = simulator.graph().outputs().len();
    let mut hashes = vec![in alloc; 0u64; outputs.saturating_mul(2)]?;
    add_hashes(simulator, &mut hashes);
    Ok(hashes)
}

/// The hashes of more vectors.
pub fn add_hashes(simulator: &FlipSim<'_>, hashes: &mut [u64]) {
    for (literal, hash) in hashes.iter_mut().enumerate() {
        let lanes = simulator.output(port_at(literal / 2));
        *hash = mix_lanes(*hash, if literal % 2 == 1 { !lanes } else { lanes });
    }
}
