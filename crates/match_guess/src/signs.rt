//! Signs of inputs that are open.

use cell_splits::State;
use net_core::Side;
use port_cells::Cells;
use std::alloc::{AllocError, Global};

/// Whether all literals whose signs are open are in one cell.
pub(crate) fn has_one_open_cell(inputs: &Cells) -> bool {
    let mut open = None;
    for (literal, cell) in inputs.of(Side::First).iter().enumerate() {
        if inputs.is_open(literal) {
            if open.unwrap_or(*cell) != *cell {
                return false;
            }
            open = Some(*cell);
        }
    }
    true
}

/// Whether the sign of some input is known.
pub(crate) fn has_known_sign(inputs: &Cells) -> bool {
    for literal in 0..inputs.of(Side::First).len() {
        if !inputs.is_open(literal) {
            return true;
        }
    }
    false
}

/// The state where ports whose signs are open go to plain ones, if there are some.
pub(crate) fn with_plain_signs(alloc: Global, state: &State) -> Result<Option<State>, AllocError> {
    if !state.inputs.has_open() {
        return Ok(None);
    }
    let first = sign_keys(alloc, state.inputs.of(Side::First))?;
    let second = sign_keys(alloc, state.inputs.of(Side::Second))?;
    let inputs = state.inputs.refine(alloc, &first, &second)?;
    Ok(state.copy()?.with_inputs(inputs))
}

// Keys by which plain literals whose signs are open go to plain ones.
fn sign_keys(alloc: Global, cells: &[usize]) -> Result<Vec<u64>, AllocError> {
    let mut keys = Vec::with_capacity(alloc, cells.len())?;
    for (literal, cell) in cells.iter().enumerate() {
        let is_open = cells.get(literal ^ 1) == Some(cell);
        keys.push(if is_open { (literal % 2) as u64 } else { 0 })?;
    }
    Ok(keys)
}
