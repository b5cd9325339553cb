//! Counts under assignments of the inputs whose signs are known.

use crate::exact::is_shared;
use crate::patterns::Patterns;
use crate::state::State;
use net_core::Side;
use port_cells::{Cells, Counter, Counts, Draws, FlipSim, Lanes, all_lanes, port_at};
use std::alloc::{AllocError, Global};

/// Up to how many free inputs have all values: the 256 lanes of a block have all of eight.
const FREE_IN_BLOCK: usize = 8;

/// An assignment that is constant on cells whose signs are known, so that it is known in both circuits. The free inputs
/// have all values, or drawn ones: those whose signs are open, or, where none is, those that share a cell.
#[derive(Drop)]
pub struct CellAssignment {
    patterns: Patterns,
    /// How many blocks of 256 vectors are counted.
    blocks: u64,
    /// Whether these are all vectors of the free inputs.
    is_all: bool,
}

impl CellAssignment {
    /// A drawn assignment, on all vectors of few free inputs, else on blocks of drawn ones.
    pub fn draw(
        alloc: Global,
        inputs: &Cells,
        blocks: u64,
        draws: &mut Draws,
    ) -> Result<CellAssignment, AllocError> {
        let patterns = Patterns::draw_constant(alloc, inputs, draws)?;
        CellAssignment::of(alloc, inputs, patterns, blocks)
    }

    /// The inputs of the first circuit whose signs are known have one bit: 0 or 1 on all is what few drawn assignments
    /// come near to, and what distinguishes the bits of two numbers that are compared.
    pub fn constant(
        alloc: Global,
        inputs: &Cells,
        bit: bool,
        blocks: u64,
    ) -> Result<CellAssignment, AllocError> {
        let patterns = Patterns::constant(alloc, inputs, bit)?;
        CellAssignment::of(alloc, inputs, patterns, blocks)
    }

    /// An assignment that most literals of each cell have on a vector of the first circuit.
    pub fn by_majority(
        alloc: Global,
        inputs: &Cells,
        vectors: &[Lanes],
        lane: usize,
        blocks: u64,
    ) -> Result<CellAssignment, AllocError> {
        let patterns = Patterns::by_majority(alloc, inputs, vectors, lane)?;
        CellAssignment::of(alloc, inputs, patterns, blocks)
    }

    // On all vectors of few free inputs, of which both circuits have as many, else on blocks of drawn ones.
    fn of(
        alloc: Global,
        inputs: &Cells,
        patterns: Patterns,
        blocks: u64,
    ) -> Result<CellAssignment, AllocError> {
        let is_all = free_inputs(alloc, inputs, Side::First)?.len() <= FREE_IN_BLOCK;
        Ok(CellAssignment {
            patterns,
            blocks: if is_all { 1 } else { blocks },
            is_all,
        })
    }

    /// Whether the vectors give the free inputs all values.
    pub fn is_all(&self) -> bool {
        self.is_all
    }

    /// What is counted of a circuit. Where outputs are alone in their cells, inputs that are too are left out: nothing
    /// is to be learned of them.
    pub fn count(
        &self,
        alloc: Global,
        state: &State,
        side: Side,
        simulator: &mut FlipSim<'_>,
        draws: &mut Draws,
    ) -> Result<Counts, AllocError> {
        let inputs = &state.inputs;
        let mut counter = Counter::new(alloc, simulator)?;
        if state.outputs.is_discrete() {
            let sizes = inputs.sizes(alloc)?;
            leave_out_single(inputs.of(side), &sizes, &mut counter);
        }
        let free = free_inputs(alloc, inputs, side)?;
        for _ in 0..self.blocks {
            self.patterns.put(inputs, side, simulator);
            self.put_free(&free, simulator, draws);
            simulator.run();
            counter.add(simulator);
        }
        counter.counts(alloc)
    }

    // Gives the free inputs all values, or drawn ones.
    fn put_free(&self, free: &[u32], simulator: &mut FlipSim<'_>, draws: &mut Draws) {
        for (place, input) in free.iter().enumerate() {
            let lanes = if self.is_all {
                all_lanes(port_at(place % FREE_IN_BLOCK), 0)
            } else {
                draws.lanes()
            };
            simulator.set_input(*input, lanes);
        }
    }
}

// Leaves out the inputs that are alone in their cells.
fn leave_out_single(cells: &[usize], sizes: &[usize], counter: &mut Counter) {
    for input in 0..cells.len() / 2 {
        if let Some(cell) = cells.get(2 * input)
            && let Some(size) = sizes.get(*cell)
            && *size == 1
        {
            counter.leave_out(port_at(input));
        }
    }
}

/// How many inputs of a circuit have open signs.
pub fn open_in(inputs: &Cells) -> usize {
    let mut open = 0usize;
    for literal in 0..inputs.of(Side::First).len() {
        open = open.saturating_add(inputs.is_open(literal) as usize);
    }
    open / 2
}

// The free inputs of a circuit, ascending.
fn free_inputs(alloc: Global, inputs: &Cells, side: Side) -> Result<Vec<u32>, AllocError> {
    let sizes = inputs.sizes(alloc)?;
    let has_open = inputs.has_open();
    let cells = inputs.of(side);
    let mut free = Vec::new(alloc);
    for place in 0..cells.len() / 2 {
        let is_free = if has_open {
            cells.get(2 * place) == cells.get(2 * place + 1)
        } else {
            is_shared(inputs, side, port_at(place), &sizes)
        };
        if is_free {
            free.push(port_at(place))?;
        }
    }
    Ok(free)
}
