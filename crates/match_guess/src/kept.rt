//! Vectors on which guessed matchings failed.

use bit_list::Bits;
use port_cells::{Lanes, VECTORS, replicated, with_bit};
use std::alloc::{AllocError, Global};

/// Vectors of the first circuit's inputs on which matchings failed, the last 256 of them: one run tries a matching on
/// all, and at most sixteen are compared.
#[derive(Drop)]
pub(crate) struct Kept {
    /// A bit of each vector, for each input.
    inputs: Vec<Lanes>,
    /// Which bit makes room next.
    next: usize,
}

impl Kept {
    /// No vector but the one that is all 0, which is as good as any.
    pub(crate) fn new(alloc: Global, inputs: u32) -> Result<Kept, AllocError> {
        Ok(Kept {
            inputs: vec![in alloc; replicated(false); inputs as usize]?,
            next: 0,
        })
    }

    /// What each input has on the vectors.
    pub(crate) fn inputs(&self) -> &[Lanes] {
        self.inputs.as_slice()
    }

    /// Keeps a vector.
    pub(crate) fn keep(&mut self, vector: &Bits) {
        for (input, lanes) in self.inputs.iter_mut().enumerate() {
            *lanes = with_bit(*lanes, self.next, bit_at(vector, input));
        }
        self.next = self.next.saturating_add(1) % VECTORS;
    }
}

// A bit of a vector, 0 where there is none.
fn bit_at(vector: &Bits, place: usize) -> bool {
    place < vector.len() && vector.get(place)
}
