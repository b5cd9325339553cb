//! How many learned lines are enough.

use crate::sample_circuits::{AND, Sample, WIRE, WIRE_OF_ONE, XOR, ZERO_OF_ONE, pair};
use std::test::Fail;
use work_bound::enough;

/// Two inputs; their AND and the first one.
const AND_AND_FIRST: Sample = Sample {
    inputs: 2,
    gates: &[(4, 2)],
    outputs: &[6, 2],
};

/// Inputs alone.
const INPUTS: Sample = Sample {
    inputs: 2,
    gates: &[],
    outputs: &[],
};

/// A constant without gates.
const CONSTANT: Sample = Sample {
    inputs: 0,
    gates: &[],
    outputs: &[0],
};

/// The constant beside as many gates as fit: with them the number of lines is below 2^64.
const OF_19_GATES: Sample = Sample {
    gates: &[(0, 0); 19],
    ..CONSTANT
};

/// The constant beside one gate more: the number of lines isn't one of 64 bits.
const OF_20_GATES: Sample = Sample {
    gates: &[(0, 0); 20],
    ..CONSTANT
};

/// Two circuits, and how many lines are enough for them, computed by hand. Of the largest that fits it is 4 * 3^39.
static ENOUGH: [(Sample, Sample, Option<u64>); 9] = [
    (ZERO_OF_ONE, WIRE_OF_ONE, Some(108)),
    (AND, AND, Some(174_960)),
    (AND_AND_FIRST, AND_AND_FIRST, Some(629_856)),
    (AND, XOR, Some(14_171_760)),
    (INPUTS, INPUTS, Some(0)),
    // other numbers of inputs, and of outputs
    (WIRE, WIRE_OF_ONE, Some(0)),
    (AND, AND_AND_FIRST, Some(0)),
    (OF_19_GATES, CONSTANT, Some(16_210_220_612_075_905_068)),
    (CONSTANT, OF_20_GATES, None),
];

#[test]
fn counts_what_is_enough(rt: HostRuntime) -> Result<(), Fail> {
    for (first, second, lines) in ENOUGH.iter() {
        let pair = pair(rt.alloc(), *first, *second)?;
        assert_eq!(rt; enough(&pair.graphs()), *lines);
    }
    Ok(())
}
