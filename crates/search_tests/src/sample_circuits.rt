//! Small circuits, by the numbers of their literals or drawn, and pairs of their ports.

ghost use Rattle.std.specs.Prelude.{◌≤◌, IsTrue};

use account_core::PairableGraphs;
use net_core::Graph;
use rand_pcg::Pcg32;
use samples::{GraphPair, SampleFault, drawn, drawn_over, graph};
use std::alloc::Global;

/// A circuit, by the numbers of its literals.
#[derive(Clone, Copy)]
pub(crate) struct Sample {
    pub(crate) inputs: u32,
    pub(crate) gates: &'static [(u32, u32)],
    pub(crate) outputs: &'static [u32],
}

/// The AND of two inputs.
pub(crate) const AND: Sample = Sample {
    inputs: 2,
    gates: &[(4, 2)],
    outputs: &[6],
};

/// The OR of two inputs.
pub(crate) const OR: Sample = Sample {
    inputs: 2,
    gates: &[(5, 3)],
    outputs: &[7],
};

/// The exclusive or of two inputs.
pub(crate) const XOR: Sample = Sample {
    inputs: 2,
    gates: &[(4, 2), (5, 3), (9, 7)],
    outputs: &[10],
};

/// The second of two inputs.
pub(crate) const WIRE: Sample = Sample {
    inputs: 2,
    gates: &[],
    outputs: &[4],
};

/// The AND of the first two of three inputs.
pub(crate) const AND_OF_THREE: Sample = Sample {
    inputs: 3,
    gates: &[(2, 4)],
    outputs: &[8],
};

/// One input, and an output that is always 0.
pub(crate) const ZERO_OF_ONE: Sample = Sample {
    inputs: 1,
    gates: &[],
    outputs: &[0],
};

/// One input, and an output that is the input.
pub(crate) const WIRE_OF_ONE: Sample = Sample {
    inputs: 1,
    gates: &[],
    outputs: &[2],
};

fn graph_of(alloc: Global, sample: Sample) -> Result<Graph, SampleFault> {
    graph(alloc, sample.inputs, sample.gates, sample.outputs)
}

/// Two circuits by side.
pub(crate) fn pair(alloc: Global, first: Sample, second: Sample) -> Result<GraphPair, SampleFault> {
    let first = graph_of(alloc, first)?;
    Ok(GraphPair {
        first,
        second: graph_of(alloc, second)?,
    })
}

/// Whether two circuits have at most 12 inputs.
pub(crate) fn are_small(graphs: &PairableGraphs<'_>) -> bool
    ensures { IsTrue result → graphs.now.first.inputs ≤ 12 }
{
    graphs.first().inputs() <= 12
}

/// A circuit of three inputs and six gates, drawn by a number.
pub(crate) fn drawn_by(alloc: Global, number: u64) -> Result<Graph, SampleFault> {
    drawn(alloc, &mut Pcg32::new(number, 54))
}

/// The circuit of `drawn_by` with its inputs permuted and negated, by the number.
fn moved_by(alloc: Global, number: u64) -> Result<Graph, SampleFault> {
    let orders = [
        [2, 4, 6],
        [2, 6, 4],
        [4, 2, 6],
        [4, 6, 2],
        [6, 2, 4],
        [6, 4, 2],
    ];
    let [a, b, c] = orders[(number % 6) as usize];
    let signs = (number / 3 % 8) as u32;
    drawn_over(
        alloc,
        &mut Pcg32::new(number, 54),
        [a ^ signs % 2, b ^ signs / 2 % 2, c ^ signs / 4],
    )
}

/// A drawn circuit beside the next one.
pub(crate) fn drawn_pair(alloc: Global, number: u64) -> Result<GraphPair, SampleFault> {
    let first = drawn_by(alloc, number)?;
    Ok(GraphPair {
        first,
        second: drawn_by(alloc, number.wrapping_add(1))?,
    })
}

/// A drawn circuit beside the same with its inputs permuted and negated.
pub(crate) fn moved_pair(alloc: Global, number: u64) -> Result<GraphPair, SampleFault> {
    let first = drawn_by(alloc, number)?;
    Ok(GraphPair {
        first,
        second: moved_by(alloc, number)?,
    })
}

/// A pair of ports, given by its kind, the first circuit's port, the second one's, and whether it inverts.
macro_rules! port_pair {
    ($kind:ident, $from:literal, $to:literal, $flip:literal) => {
        Pair {
            kind: PortKind::$kind,
            from: $from,
            to: $to,
            flip: $flip,
        }
    };
}

pub(crate) use port_pair;
