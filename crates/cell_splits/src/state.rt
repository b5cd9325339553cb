//! What may correspond.

use net_core::{Graph, Side};
use port_cells::Cells;
use std::alloc::{AllocError, Global};

/// The cells of the inputs and of the outputs of two circuits.
#[derive(Debug)]
pub struct State {
    pub inputs: Cells,
    pub outputs: Cells,
}

// By hand, so that each exit of a function has one call for it (docs/IDIOMS.md).
impl Drop for State {
    fn drop(self) {
        let State {
            inputs: _inputs,
            outputs: _outputs,
        } = self;
    }
}

impl State {
    /// All inputs may correspond, and all outputs.
    pub fn new(alloc: Global, graph: &Graph) -> Result<State, AllocError> {
        Ok(State {
            inputs: Cells::new(alloc, graph.inputs())?,
            outputs: Cells::new(alloc, graph.outputs().len() as u32)?,
        })
    }

    pub fn copy(&self) -> Result<State, AllocError> {
        Ok(State {
            inputs: self.inputs.copy()?,
            outputs: self.outputs.copy()?,
        })
    }

    /// How many cells there are.
    pub fn count(&self) -> usize {
        self.inputs.count().saturating_add(self.outputs.count())
    }

    /// Whether some inputs whose signs are known share a cell.
    pub fn has_shared(&self, alloc: Global) -> Result<bool, AllocError> {
        let sizes = self.inputs.sizes(alloc)?;
        for (literal, cell) in self.inputs.of(Side::First).iter().enumerate() {
            if !self.inputs.is_open(literal) && sizes.get(*cell) != Some(&1) {
                return Ok(true);
            }
        }
        Ok(false)
    }

    /// The state with other cells of inputs, where there are some.
    pub fn with_inputs(self, inputs: Option<Cells>) -> Option<State> {
        let State { inputs: _, outputs } = self;
        Some(State {
            inputs: inputs?,
            outputs,
        })
    }

    /// The state with other cells of outputs, where there are some.
    pub fn with_outputs(self, outputs: Option<Cells>) -> Option<State> {
        let State { inputs, outputs: _ } = self;
        Some(State {
            inputs,
            outputs: outputs?,
        })
    }
}
