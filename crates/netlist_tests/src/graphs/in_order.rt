//! Netlists whose definitions stand in any order, worked out by hand.

use super::nets::Part::And;
use super::nets::{Part, is_ordered_as, net};
use net_core::{Lit, OrderFault, order};
use std::alloc::{AllocError, Global};
use std::test::Fail;

// Whether definitions and an output are put in order as these gates and this output.
fn becomes(
    alloc: Global,
    inputs: u32,
    parts: &[Part<'_>],
    output: u32,
    gates: &[(u32, u32)],
    new_output: u32,
) -> Result<bool, Fail> {
    let net = net(alloc, inputs, parts, &[Lit(output)])?;
    Ok(is_ordered_as(alloc, &net, gates, &[Lit(new_output)])?)
}

// Definitions of signals 3, 4 and 5 over two inputs, signals 1 and 2, and an output, and these in order.
static ORDERED: [(&[Part<'static>], u32, &[(u32, u32)], u32); 3] = [
    // in order: the literals stay
    (
        &[And(2, 4), And(6, 3), And(8, 7)],
        11,
        &[(2, 4), (6, 3), (8, 7)],
        11,
    ),
    // in reverse: 6 = AND(8, 2), 8 = AND(10, 5), 10 = AND(2, 4)
    (
        &[And(8, 2), And(10, 5), And(2, 4)],
        7,
        &[(2, 4), (6, 5), (8, 2)],
        11,
    ),
    // of one level, by position: 6 = AND(11, 8) comes after 8 and 10
    (
        &[And(11, 8), And(2, 5), And(3, 4)],
        10,
        &[(2, 5), (3, 4), (9, 6)],
        8,
    ),
];

#[test]
fn orders_by_level_then_position(rt: HostRuntime) -> Result<(), Fail> {
    for (ands, output, gates, new_output) in ORDERED.iter() {
        let is_ordered = becomes(rt.alloc(), 2, ands, *output, gates, *new_output)?;
        assert!(rt; is_ordered, "as {gates:?}");
    }
    assert!(rt; becomes(rt.alloc(), 0, &[], 1, &[], 1)?);
    Ok(())
}

// Why definitions of one input aren't put in order, if they aren't.
fn fault_of(alloc: Global, parts: &[Part<'_>]) -> Result<Option<OrderFault>, Fail> {
    let net = net(alloc, 1, parts, &[Lit(2)])?;
    Ok(order(alloc, &net).err())
}

// Definitions of signals 2 to 5 over one input, signal 1, and which of them is the first without a level.
static UNORDERED: [(&[Part<'static>], u32); 3] = [
    // 4 = AND(4, 2)
    (&[And(4, 2), And(2, 2), And(2, 2), And(2, 2)], 0),
    // 8 = AND(10, 2) and 10 = AND(8, 3) are a cycle, and 6 = AND(8, 2) is above it
    (&[And(2, 2), And(8, 2), And(10, 2), And(8, 3)], 1),
    // 8 = AND(2, 9) is its own operand, 10 = AND(9, 2) is above it
    (&[And(10, 11), And(4, 2), And(2, 9), And(9, 2)], 0),
];

#[test]
fn names_the_first_without_a_level(rt: HostRuntime) -> Result<(), Fail> {
    for (ands, first) in UNORDERED.iter() {
        let fault = fault_of(rt.alloc(), ands)?;
        assert_eq!(rt; fault, Some(OrderFault::Cycle(*first)));
    }
    Ok(())
}

// Definition i is signal i + 2, and names the one after it; the last one names the input.
fn reversed_chain<'a>(alloc: Global) -> Result<Vec<Part<'a>>, AllocError> {
    let mut parts = Vec::new(alloc);
    for i in 0..999u32 {
        parts.push(And(2 * i + 6, 3))?;
    }
    parts.push(And(2, 3))?;
    Ok(parts)
}

// The operands of the gates, each of which names the one before it.
fn chain(alloc: Global) -> Result<Vec<(u32, u32)>, AllocError> {
    let mut gates = Vec::new(alloc);
    for t in 0..1000u32 {
        gates.push((2 * t + 2, 3))?;
    }
    Ok(gates)
}

#[test]
fn orders_a_reversed_chain(rt: HostRuntime) -> Result<(), Fail> {
    let parts = reversed_chain(rt.alloc())?;
    let gates = chain(rt.alloc())?;
    assert!(rt; becomes(rt.alloc(), 1, &parts, 4, &gates, 2002)?);
    Ok(())
}
