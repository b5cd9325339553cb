//! Vectors that are constant on cells of inputs, so that it is known which vectors of the other circuit they correspond
//! to.

use net_core::Side;
use port_cells::{Cells, Draws, FlipSim, Lanes, bit_of, replicated};
use std::alloc::{AllocError, Global};

/// Every other vector of a word.
const ODD_LANES: u64 = 0xaaaa_aaaa_aaaa_aaaa;

/// What the literals of each cell have on 256 vectors. The signs of the cells' ports are known.
#[derive(Drop)]
pub struct Patterns {
    cells: Vec<Lanes>,
}

impl Patterns {
    /// Drawn vectors, 64 of each kind: even ones, mostly 0, mostly 1, and all but a port or two of one value. Wide
    /// gates show their inputs only by the last three. Mostly is seven of eight; three of four or 15 of 16 change none
    /// of 29 pairs.
    pub fn draw(alloc: Global, inputs: &Cells, draws: &mut Draws) -> Result<Patterns, AllocError> {
        let mut patterns = Patterns {
            cells: vec![in alloc; replicated(false); inputs.count()]?,
        };
        let ports = inputs.of(Side::First).len() / 2;
        let rest = draws.word();
        let (one, other) = (draws.below(ports), draws.below(ports));
        for port in 0..ports {
            let few = hot_lanes(port, ports, one) ^ (hot_lanes(port, ports, other) & ODD_LANES);
            let sparse = draws.word() & draws.word() & draws.word();
            let dense = draws.word() | draws.word() | draws.word();
            let lanes = Lanes::from_array([draws.word(), sparse, dense, few ^ rest]);
            patterns.assign(inputs, port, lanes);
        }
        Ok(patterns)
    }

    /// Vectors by what each input of the first circuit has. Where a cell has more than one of them, the last one
    /// decides.
    pub fn of_inputs(
        alloc: Global,
        inputs: &Cells,
        lanes: &[Lanes],
    ) -> Result<Patterns, AllocError> {
        let mut patterns = Patterns {
            cells: vec![in alloc; replicated(false); inputs.count()]?,
        };
        for (port, bits) in lanes.iter().enumerate() {
            patterns.assign(inputs, port, *bits);
        }
        Ok(patterns)
    }

    /// One drawn bit for each cell.
    pub fn draw_constant(
        alloc: Global,
        inputs: &Cells,
        draws: &mut Draws,
    ) -> Result<Patterns, AllocError> {
        let mut patterns = Patterns {
            cells: vec![in alloc; replicated(false); inputs.count()]?,
        };
        for port in 0..inputs.of(Side::First).len() / 2 {
            let bit = draws.word() % 2 == 1;
            patterns.assign(inputs, port, replicated(bit));
        }
        Ok(patterns)
    }

    /// All inputs of the first circuit have one bit. Where cells have a literal and another one's complement the last
    /// one decides.
    pub fn constant(alloc: Global, inputs: &Cells, bit: bool) -> Result<Patterns, AllocError> {
        let mut patterns = Patterns {
            cells: vec![in alloc; replicated(false); inputs.count()]?,
        };
        for port in 0..inputs.of(Side::First).len() / 2 {
            patterns.assign(inputs, port, replicated(bit));
        }
        Ok(patterns)
    }

    /// One bit for each cell: the one that most of its literals have on a vector of the first circuit, which is a lane
    /// of its inputs' bits.
    pub fn by_majority(
        alloc: Global,
        inputs: &Cells,
        vectors: &[Lanes],
        lane: usize,
    ) -> Result<Patterns, AllocError> {
        let mut patterns = Patterns {
            cells: vec![in alloc; replicated(false); inputs.count()]?,
        };
        let votes = votes(alloc, inputs, vectors, lane)?;
        let sizes = inputs.sizes(alloc)?;
        for port in 0..inputs.of(Side::First).len() / 2 {
            let cell = inputs.of(Side::First).get(port.saturating_mul(2));
            let bit = is_majority(cell, &votes, &sizes);
            patterns.assign(inputs, port, replicated(bit));
        }
        Ok(patterns)
    }

    // Gives an input of the first circuit its bits.
    fn assign(&mut self, inputs: &Cells, port: usize, lanes: Lanes) {
        let literal = port.saturating_mul(2);
        let cells = inputs.of(Side::First);
        put_lanes(&mut self.cells, cells.get(literal), lanes);
        put_lanes(&mut self.cells, cells.get(literal | 1), !lanes);
    }

    /// Runs a circuit on the vectors.
    pub fn run(&self, inputs: &Cells, side: Side, simulator: &mut FlipSim<'_>) {
        self.put(inputs, side, simulator);
        simulator.run();
    }

    /// Gives a circuit's inputs what their cells have.
    pub fn put(&self, inputs: &Cells, side: Side, simulator: &mut FlipSim<'_>) {
        let cells = inputs.of(side);
        for input in 0..simulator.graph().inputs() {
            simulator.set_input(input, self.lanes_of(cells.get(2 * input as usize)));
        }
    }

    fn lanes_of(&self, cell: Option<&usize>) -> Lanes {
        let Some(cell) = cell else {
            return replicated(false);
        };
        match self.cells.get(*cell) {
            Some(lanes) => *lanes,
            None => replicated(false),
        }
    }
}

// How many literals of each cell are true on a vector of the first circuit.
fn votes(
    alloc: Global,
    inputs: &Cells,
    vectors: &[Lanes],
    lane: usize,
) -> Result<Vec<usize>, AllocError> {
    let mut votes = vec![in alloc; 0usize; inputs.count()]?;
    for (literal, cell) in inputs.of(Side::First).iter().enumerate() {
        if is_true(vectors, literal, lane) && *cell < votes.len() {
            votes[*cell] = votes[*cell].saturating_add(1);
        }
    }
    Ok(votes)
}

// Whether a literal is true on a vector.
fn is_true(vectors: &[Lanes], literal: usize, lane: usize) -> bool {
    let Some(lanes) = vectors.get(literal / 2) else {
        return false;
    };
    bit_of(*lanes, lane) != (literal % 2 == 1)
}

// Whether more than half of a cell's literals are true.
fn is_majority(cell: Option<&usize>, votes: &[usize], sizes: &[usize]) -> bool {
    let Some(cell) = cell else {
        return false;
    };
    match (votes.get(*cell), sizes.get(*cell)) {
        (Some(votes), Some(size)) => votes.saturating_mul(2) > *size,
        _ => false,
    }
}

fn put_lanes(cells: &mut [Lanes], cell: Option<&usize>, lanes: Lanes) {
    if let Some(cell) = cell
        && *cell < cells.len()
    {
        cells[*cell] = lanes;
    }
}

// On which of 64 vectors a port's turn comes, where the turns go round from a port on.
fn hot_lanes(port: usize, ports: usize, from: usize) -> u64 {
    let ports = ports.max(1);
    let first = port.saturating_add(ports).saturating_sub(from % ports) % ports;
    let mut lanes = 0u64;
    for turn in 0..64 / ports + 1 {
        let lane = ports.saturating_mul(turn).saturating_add(first);
        if lane < 64 {
            lanes |= 1u64 << lane;
        }
    }
    lanes
}
