//! The choice points of the depth-first search, which are its stack.

use cell_splits::State;
use net_core::Side;
use port_cells::Cells;
use std::alloc::{AllocError, Global};

/// A literal of an input of the first circuit, and the literals of the second circuit that it is still to be tried
/// with.
pub(crate) struct ChoicePoint {
    pub(crate) state: State,
    pub(crate) literal: usize,
    /// The last one is tried next.
    pub(crate) candidates: Vec<usize>,
}

// By hand, so that each exit of a function has one call for it (docs/IDIOMS.md).
impl Drop for ChoicePoint {
    fn drop(self) {
        let ChoicePoint {
            state: _state,
            literal: _literal,
            candidates: _candidates,
        } = self;
    }
}

impl ChoicePoint {
    // The state in which the literal goes to the next candidate, or None where none is left.
    fn next(&mut self, alloc: Global) -> Result<Option<State>, AllocError> {
        let Some(candidate) = self.candidates.pop() else {
            return Ok(None);
        };
        let inputs = paired(alloc, &self.state.inputs, self.literal, candidate)?;
        Ok(self.state.copy()?.with_inputs(inputs))
    }
}

// The cells where a literal of the first circuit goes to one of the second.
fn paired(
    alloc: Global,
    cells: &Cells,
    literal: usize,
    candidate: usize,
) -> Result<Option<Cells>, AllocError> {
    let count = cells.of(Side::First).len();
    let first = marked(alloc, literal, count)?;
    let second = marked(alloc, candidate, count)?;
    cells.refine(alloc, &first, &second)
}

// Keys that set a literal and its complement apart from the others.
fn marked(alloc: Global, literal: usize, count: usize) -> Result<Vec<u64>, AllocError> {
    let mut keys = vec![in alloc; 0u64; count]?;
    put_mark(literal, 1, &mut keys);
    put_mark(literal ^ 1, 2, &mut keys);
    Ok(keys)
}

fn put_mark(literal: usize, mark: u64, keys: &mut [u64]) {
    if literal < keys.len() {
        keys[literal] = mark;
    }
}

/// The next state that is to be tried, or None where all were.
pub(crate) fn next_state(
    alloc: Global,
    points: &mut Vec<ChoicePoint>,
) -> Result<Option<State>, AllocError> {
    while let Some(mut point) = points.pop() {
        if let Some(state) = point.next(alloc)? {
            points.push(point)?;
            return Ok(Some(state));
        }
    }
    Ok(None)
}
