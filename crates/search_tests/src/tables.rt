//! Searches of drawn functions of four inputs, compared with trying all matchings.

use crate::searches::{Answer, by_book};
use account_core::PairableGraphs;
use net_core::Graph;
use rand_core::utils::NextWord;
use rand_pcg::Pcg32;
use samples::{GraphPair, SampleFault, graph};
use std::alloc::{AllocError, Global};
use std::test::Fail;

/// How many inputs the functions have.
const INPUTS: usize = 4;

/// How many vectors these have.
const VECTORS: usize = 16;

/// How many orders these have.
const ORDERS: usize = 24;

/// More gates than any of these functions has, which are 16 ANDs of four literals and their sum at most, so that a
/// literal fits its type.
const MOST_GATES: usize = 1_000;

/// The stream of the generator: any number, as long as the functions stay the same.
const STREAM: u64 = 54;

/// The powers of two.
static POWERS: [usize; 4] = [1, 2, 4, 8];

/// How the inputs of a function are moved: where each goes, and the number whose bits say which are inverted.
#[derive(Drop)]
struct Move {
    order: Vec<usize>,
    signs: usize,
}

fn power(place: usize) -> usize {
    match POWERS.get(place) {
        Some(power) => *power,
        None => 0,
    }
}

fn bit_at(bits: &[bool], place: usize) -> bool {
    match bits.get(place) {
        Some(bit) => *bit,
        None => false,
    }
}

/// The places of the inputs, ascending.
fn all_places(alloc: Global) -> Result<Vec<usize>, AllocError> {
    let mut places = Vec::new(alloc);
    for place in 0..INPUTS {
        places.push(place)?;
    }
    Ok(places)
}

/// An order of the inputs, by its number.
fn order_of(alloc: Global, number: usize) -> Result<Vec<usize>, AllocError> {
    let mut left = all_places(alloc)?;
    let mut order = Vec::new(alloc);
    let mut rest = number;
    for _place in 0..INPUTS {
        let count = left.len();
        if count > 0 {
            order.push(left.swap_remove(rest % count))?;
            rest /= count;
        }
    }
    Ok(order)
}

/// The number of the vector to which a vector is moved.
fn moved(by: &Move, code: usize) -> usize {
    let mut to = 0usize;
    for (input, place) in by.order.iter().enumerate() {
        let bit = has(code, input) != has(by.signs, input);
        if bit {
            to = to.saturating_add(power(*place));
        }
    }
    to
}

fn has(code: usize, input: usize) -> bool {
    let power = power(input);
    (power > 0) && (code / power % 2 == 1)
}

/// A drawn function: what it is on each vector.
fn drawn_bits(alloc: Global, numbers: &mut Pcg32) -> Result<Vec<bool>, AllocError> {
    let mut bits = Vec::new(alloc);
    for _code in 0..VECTORS {
        bits.push(numbers.next_word() % 2 == 1)?;
    }
    Ok(bits)
}

/// The function with its inputs moved.
fn moved_bits(alloc: Global, bits: &[bool], by: &Move) -> Result<Vec<bool>, AllocError> {
    let mut image = vec![in alloc; false; bits.len()]?;
    for code in 0..bits.len() {
        if let Some(bit) = image.get_mut(moved(by, code)) {
            *bit = bits[code];
        }
    }
    Ok(image)
}

/// Inverts the function on the first vector where it is 0, and on the last where it is 1.
fn change_two(bits: &mut [bool]) {
    let zero = bits.iter().position(|bit| !*bit);
    let one = bits.iter().rposition(|bit| *bit);
    for place in [zero, one] {
        if let Some(place) = place {
            if let Some(bit) = bits.get_mut(place) {
                *bit = !*bit;
            }
        }
    }
}

/// Whether a move carries the one function to the other, or to its inverse.
fn carries(by: &Move, one: &[bool], other: &[bool]) -> bool {
    let sign = bit_at(one, 0) != bit_at(other, moved(by, 0));
    for code in 0..one.len() {
        if one[code] != (bit_at(other, moved(by, code)) != sign) {
            return false;
        }
    }
    true
}

/// Whether some matching is a match, by trying all.
fn have_match(alloc: Global, one: &[bool], other: &[bool]) -> Result<bool, AllocError> {
    for number in 0..ORDERS {
        let order = order_of(alloc, number)?;
        if have_match_by(order, one, other) {
            return Ok(true);
        }
    }
    Ok(false)
}

/// Whether some matching is a match by which the inputs have this order.
fn have_match_by(order: Vec<usize>, one: &[bool], other: &[bool]) -> bool {
    let mut by = Move { order, signs: 0 };
    for signs in 0..one.len() {
        by.signs = signs;
        if carries(&by, one, other) {
            return true;
        }
    }
    false
}

/// A graph of the function: an OR of ANDs, one of each vector on which it is 1.
fn graph_of(alloc: Global, bits: &[bool]) -> Result<Graph, SampleFault> {
    let mut gates = Vec::new(alloc);
    let mut sum = 0;
    for code in 0..bits.len() {
        if bits[code] {
            let product = add_product(&mut gates, code)?;
            sum = add_gate(&mut gates, sum ^ 1, product ^ 1)? ^ 1;
        }
    }
    graph(alloc, INPUTS as u32, &gates, &[sum])
}

/// Adds the AND of the inputs as a vector has them, and answers its literal.
fn add_product(gates: &mut Vec<(u32, u32)>, code: usize) -> Result<u32, AllocError> {
    let mut product = 1;
    for input in 0..INPUTS {
        let literal = 2 * (input as u32 + 1) + !has(code, input) as u32;
        product = add_gate(gates, product, literal)?;
    }
    Ok(product)
}

/// Adds a gate, and answers its literal.
fn add_gate(gates: &mut Vec<(u32, u32)>, one: u32, other: u32) -> Result<u32, AllocError> {
    let signal = gates
        .len()
        .saturating_add(INPUTS)
        .saturating_add(1)
        .min(MOST_GATES) as u32;
    gates.push((one, other))?;
    Ok(2 * signal)
}

/// Two functions by a number: a drawn one, and the same with its inputs moved, changed on two vectors where the number
/// is odd.
fn two_functions(alloc: Global, number: u64) -> Result<(Vec<bool>, Vec<bool>), AllocError> {
    let mut numbers = Pcg32::new(number, STREAM);
    let one = drawn_bits(alloc, &mut numbers)?;
    let order = order_of(alloc, numbers.next_word() as usize % ORDERS)?;
    let signs = numbers.next_word() as usize % VECTORS;
    let mut other = moved_bits(alloc, &one, &Move { order, signs })?;
    if number % 2 == 1 {
        change_two(&mut other);
    }
    Ok((one, other))
}

/// Whether a search finds a match, and whether there is one.
fn found_and_expected(alloc: Global, number: u64) -> Result<(Option<bool>, Option<bool>), Fail> {
    let (one, other) = two_functions(alloc, number)?;
    let expected = have_match(alloc, &one, &other)?;
    let first = graph_of(alloc, &one)?;
    let second = graph_of(alloc, &other)?;
    let both = GraphPair { first, second };
    let graphs = both.graphs();
    let Some(graphs) = PairableGraphs::new(&graphs) else {
        return Ok((None, Some(expected)));
    };
    let found = match by_book(alloc, &graphs)? {
        Answer::Match(_) => Some(true),
        Answer::NoMatch { .. } => Some(false),
        Answer::Stopped => None,
    };
    Ok((found, Some(expected)))
}

#[test]
fn drawn_functions_match_as_all_matchings_say(rt: HostRuntime) -> Result<(), Fail> {
    for number in 0..8 {
        let (found, expected) = found_and_expected(rt.alloc(), number)?;
        assert_eq!(rt; (number, found), (number, expected));
    }
    Ok(())
}
