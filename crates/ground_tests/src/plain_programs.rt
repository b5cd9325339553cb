//! Small circuits whose values and matches were worked out by hand.

use circuits::plain::{
    are_npnp_equal, is_match, is_signed_bijection, move_vector, outputs, valuation, write_vector,
};
use circuits::{Gate, Lit, Netlist};
use std::alloc::{AllocError, Global};
use std::process::Abort;
use std::test::Fail;

/// Gates by the numbers of their operands.
fn gates_of(alloc: Global, operands: &[(u32, u32)]) -> Result<Vec<Gate>, AllocError> {
    let mut gates = Vec::new(alloc);
    for (a, b) in operands {
        gates.push(Gate {
            a: Lit(*a),
            b: Lit(*b),
        })?;
    }
    Ok(gates)
}

/// Literals by their numbers.
fn lits_of(alloc: Global, numbers: &[u32]) -> Result<Vec<Lit>, AllocError> {
    let mut lits = Vec::new(alloc);
    for number in numbers {
        lits.push(Lit(*number))?;
    }
    Ok(lits)
}

fn netlist(
    alloc: Global,
    inputs: u32,
    gates: &[(u32, u32)],
    outputs: &[u32],
) -> Result<Netlist, AllocError> {
    let gates = gates_of(alloc, gates)?;
    let outputs = lits_of(alloc, outputs)?;
    Ok(Netlist::new(inputs, gates, outputs))
}

fn matches(
    rt: &impl Abort,
    alloc: Global,
    nets: (&Netlist, &Netlist),
    p: &[(u32, bool)],
    q: &[(u32, bool)],
) -> Result<bool, AllocError> {
    let (first, second) = nets;
    assert!(rt; first.is_ordered() & second.is_ordered() & (first.inputs() <= 16));
    is_match(alloc, first, second, p, q)
}

fn equal(
    rt: &impl Abort,
    alloc: Global,
    one: &Netlist,
    other: &Netlist,
) -> Result<bool, AllocError> {
    assert!(rt; one.is_ordered() & other.is_ordered());
    assert!(rt; (one.inputs() <= 7) & (one.outputs().len() <= 7));
    are_npnp_equal(alloc, one, other)
}

fn values(
    rt: &impl Abort,
    alloc: Global,
    net: &Netlist,
    vector: &[bool],
) -> Result<(Vec<bool>, Vec<bool>), AllocError> {
    assert!(rt; net.is_ordered() & (vector.len() == net.inputs() as usize));
    Ok((valuation(alloc, net, vector)?, outputs(alloc, net, vector)?))
}

#[test]
fn values_by_hand(rt: HostRuntime) -> Result<(), Fail> {
    let alloc = rt.alloc();
    // The first input, and the AND of both.
    let net = netlist(alloc, 2, &[(2, 4)], &[2, 6])?;
    let (signals, bits) = values(&rt, alloc, &net, &[true, false])?;
    assert_eq!(rt; signals.as_slice(), [false, true, false, false].as_slice());
    assert_eq!(rt; bits.as_slice(), [true, false].as_slice());
    Ok(())
}

#[test]
fn orders_by_hand(rt: HostRuntime) -> Result<(), Fail> {
    let alloc = rt.alloc();
    // The second gate reads the first, then itself; the last output is a signal, then none.
    for (operand, output, ordered) in [(6, 8, true), (8, 8, false), (6, 10, false)] {
        let net = netlist(alloc, 2, &[(2, 4), (3, operand)], &[output])?;
        assert_eq!(rt; net.is_ordered(), ordered, "{operand} and {output}");
    }
    Ok(())
}

#[test]
fn vectors_by_hand(rt: HostRuntime) -> Result<(), Fail> {
    let mut vector = [false; 4];
    write_vector(6, &mut vector);
    assert_eq!(rt; vector, [false, true, true, false]);
    for (entry, bijection) in [((0, false), true), ((1, false), false), ((2, false), false)] {
        let told = is_signed_bijection(&[(1, true), entry], 2);
        assert!(rt; told == bijection, "{entry:?}");
    }
    // The second bit to the first place, the first inverted to the second.
    let entries = [(1, true), (0, false)];
    assert!(rt; moves_to(rt.alloc(), &entries, &[true, true], &[true, false])?);
    Ok(())
}

fn moves_to(
    alloc: Global,
    entries: &[(u32, bool); 2],
    vector: &[bool; 2],
    want: &[bool],
) -> Result<bool, AllocError> {
    if !is_signed_bijection(entries, 2) {
        return Ok(false);
    }
    Ok(move_vector(alloc, entries, vector)?.as_slice() == want)
}

/// Entries of two inputs and of two outputs, and whether they are a match of the netlists below.
static MATCHINGS: [(&[(u32, bool)], &[(u32, bool)], bool); 5] = [
    (&[(1, true), (0, false)], &[(1, false), (0, true)], true),
    (&[(1, true), (0, false)], &[(1, false), (0, false)], false),
    (&[(1, true), (0, false)], &[(0, true), (1, false)], false),
    (&[(0, false), (1, false)], &[(1, false), (0, true)], false),
    (&[(1, true), (1, false)], &[(1, false), (0, true)], false),
];

fn check_matches(
    rt: &impl Abort,
    alloc: Global,
    first: &Netlist,
    second: &Netlist,
) -> Result<(), AllocError> {
    for (p, q, want) in MATCHINGS.iter() {
        assert_eq!(rt;
            matches(rt, alloc, (first, second), p, q)?,
            *want,
            "{p:?} and {q:?}"
        );
    }
    Ok(())
}

#[test]
fn matches_by_hand(rt: HostRuntime) -> Result<(), AllocError> {
    let alloc = rt.alloc();
    // x0 and x0 AND x1, beside NOT (y0 AND NOT y1) and NOT y1.
    let first = netlist(alloc, 2, &[(2, 4)], &[2, 6])?;
    let second = netlist(alloc, 2, &[(5, 2)], &[7, 5])?;
    check_matches(&rt, alloc, &first, &second)
}

fn check_equals(
    rt: &impl Abort,
    alloc: Global,
    and: &Netlist,
    or: &Netlist,
    xor: &Netlist,
) -> Result<(), AllocError> {
    let answers = (equal(rt, alloc, and, or)?, equal(rt, alloc, and, xor)?);
    assert_eq!(rt; answers, (true, false));
    Ok(())
}

#[test]
fn equals_by_hand(rt: HostRuntime) -> Result<(), AllocError> {
    let alloc = rt.alloc();
    let and = netlist(alloc, 2, &[(2, 4)], &[6])?;
    let or = netlist(alloc, 2, &[(3, 5)], &[7])?;
    let xor = netlist(alloc, 2, &[(2, 5), (3, 4), (7, 9)], &[11])?;
    check_equals(&rt, alloc, &and, &or, &xor)
}

#[test]
fn empty_netlists_are_equal(rt: HostRuntime) -> Result<(), AllocError> {
    let empty = netlist(rt.alloc(), 0, &[], &[])?;
    assert!(rt; equal(&rt, rt.alloc(), &empty, &empty)?);
    Ok(())
}
