//! Cells split by what is counted of both circuits.

use crate::state::State;
use net_core::Side;
use port_cells::{
    Cells, Counts, Slack, input_keys, input_profiles, near_keys, output_keys, output_profiles,
};
use std::alloc::{AllocError, Global};

/// The keys of both circuits' literals.
type BothKeys = (Vec<u64>, Vec<u64>);

/// What is counted of both circuits on corresponding vectors.
#[derive(Clone, Copy)]
pub struct Link<'a> {
    pub first: &'a Counts,
    pub second: &'a Counts,
    /// How far counts of corresponding literals may be apart where vectors are drawn. None where all are counted.
    pub slack: Option<Slack>,
}

impl<'a> Link<'a> {
    /// Splits outputs by the cells of inputs, and inputs by those of outputs, until nothing splits. None where a cell
    /// has other numbers of literals on both sides then. Outputs come first, since how often they are true tells them
    /// apart by itself.
    pub fn split(self, alloc: Global, state: State) -> Result<Option<State>, AllocError> {
        let mut state = state;
        // each turn but the last splits a cell
        for _ in 0..state.count().saturating_add(MOST_TURNS) {
            let before = state.count();
            let Some(finer) = self.split_once(alloc, state)? else {
                return Ok(None);
            };
            state = finer;
            if state.count() == before {
                return Ok(Some(state));
            }
        }
        Ok(Some(state))
    }

    /// Splits outputs, and then inputs.
    pub fn split_once(self, alloc: Global, state: State) -> Result<Option<State>, AllocError> {
        let outputs = self.finer_outputs(alloc, &state)?;
        let Some(state) = state.with_outputs(outputs) else {
            return Ok(None);
        };
        let inputs = self.finer_inputs(alloc, &state)?;
        Ok(state.with_inputs(inputs))
    }

    fn finer_outputs(self, alloc: Global, state: &State) -> Result<Option<Cells>, AllocError> {
        let (first, second) = self.output_keys(alloc, state)?;
        state.outputs.refine(alloc, &first, &second)
    }

    fn finer_inputs(self, alloc: Global, state: &State) -> Result<Option<Cells>, AllocError> {
        let (first, second) = self.input_keys(alloc, state)?;
        state.inputs.refine(alloc, &first, &second)
    }

    fn output_keys(self, alloc: Global, state: &State) -> Result<BothKeys, AllocError> {
        let left = state.inputs.of(Side::First);
        let right = state.inputs.of(Side::Second);
        let Some(slack) = self.slack else {
            return Ok((
                output_keys(alloc, self.first, left)?,
                output_keys(alloc, self.second, right)?,
            ));
        };
        let first = output_profiles(alloc, self.first, left)?;
        let second = output_profiles(alloc, self.second, right)?;
        near_keys(alloc, &state.outputs, &first, &second, slack)
    }

    fn input_keys(self, alloc: Global, state: &State) -> Result<BothKeys, AllocError> {
        let left = state.outputs.of(Side::First);
        let right = state.outputs.of(Side::Second);
        let Some(slack) = self.slack else {
            return Ok((
                input_keys(alloc, self.first, left)?,
                input_keys(alloc, self.second, right)?,
            ));
        };
        let first = input_profiles(alloc, self.first, left)?;
        let second = input_profiles(alloc, self.second, right)?;
        near_keys(alloc, &state.inputs, &first, &second, slack)
    }
}

/// A bound on turns that isn't met, since no state has as many cells.
const MOST_TURNS: usize = 1 << 20;
