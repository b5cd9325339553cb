//! How the exclusive ors between two gates add up to their being equal.

use crate::pairs::GatePair;
use crate::xors::{Xor, Xors, has, toggled};
use cnf_core::SatLit;
use learn_solver::Part;
use std::alloc::{AllocError, Global};
use word_sim::mix;

/// How many exclusive ors are added at most: planning takes the cube of it, some milliseconds of 64.
const MOST_XORS: usize = 64;

/// How many variables a sum has at most. It is broken by half of their vectors, each of which is a part: 2,048 of 12.
const WIDEST: usize = 12;

/// How many parts a pair may have: each is a candidate that is decided before the pair. It is as many as four of the
/// widest sums have.
const MOST_PARTS: usize = 8192;

/// In how many orders exclusive ors are added. By one alone a Hamming code of 57 bits takes 27,000 lines, and by the
/// best of 20 it takes 8,600.
const ORDERS: u64 = 20;

/// With so few parts no other order is looked at: there is little to save, and to plan one takes the cube of the
/// exclusive ors.
const FEW_PARTS: usize = 64;

/// How many drawn numbers decide among sums of one width. With so many, two of a dozen sums seldom draw the same.
const SPREAD: u64 = 1024;

/// Variables whose sum is a constant.
#[derive(Drop)]
struct Equation {
    variables: Vec<u64>,
    /// Whether it is 1.
    is_odd: bool,
    /// Whether it was added to another one.
    is_used: bool,
}

/// Adds the parts of a pair, if both its gates are sums of the same variables: an assignment each by which a sum of two
/// would be broken, by the order with the fewest.
pub(crate) fn add_parts(
    alloc: Global,
    xors: &Xors,
    pair: GatePair,
    parts: &mut Vec<Part>,
) -> Result<(), AllocError> {
    let (one, other) = (pair.one.variable(), pair.other.variable());
    if !xors.are_alike(one, other) {
        return Ok(());
    }
    for part in fewest_parts(alloc, xors, one, other)? {
        parts.push(part)?;
    }
    Ok(())
}

// The parts by the order that has the fewest of them.
fn fewest_parts(alloc: Global, xors: &Xors, one: u64, other: u64) -> Result<Vec<Part>, AllocError> {
    let mut best = parts_by(alloc, xors, one, other, 0)?;
    for salt in 1..ORDERS {
        if !best.is_empty() & (best.len() <= FEW_PARTS) {
            return Ok(best);
        }
        let found = parts_by(alloc, xors, one, other, salt)?;
        if !found.is_empty() & (best.is_empty() | (found.len() < best.len())) {
            best = found;
        }
    }
    Ok(best)
}

// The parts by one order; none where a sum is too wide.
fn parts_by(
    alloc: Global,
    xors: &Xors,
    one: u64,
    other: u64,
    salt: u64,
) -> Result<Vec<Part>, AllocError> {
    let mut parts = Vec::new(alloc);
    let Some(mut equations) = between(alloc, xors, one, other)? else {
        return Ok(parts);
    };
    for _ in 0..MOST_XORS {
        let Some((left, right)) = nearest(&equations, salt) else {
            return Ok(parts);
        };
        let Some(sum) = add_two(alloc, &mut equations, left, right, &mut parts)? else {
            return Ok(Vec::new(alloc));
        };
        equations.push(sum)?;
        if parts.len() > MOST_PARTS {
            return Ok(Vec::new(alloc));
        }
    }
    Ok(parts)
}

// The exclusive ors between two gates, of which each other variable is in an even number. None where there are none.
fn between(
    alloc: Global,
    xors: &Xors,
    one: u64,
    other: u64,
) -> Result<Option<Vec<Equation>>, AllocError> {
    let mut equations = Vec::new(alloc);
    let mut open = toggled(alloc, &[one], &[other])?;
    for _ in 0..MOST_XORS {
        let Some(equation) = next_equation(alloc, xors, &open)? else {
            break;
        };
        open = toggled(alloc, &open, &equation.variables)?;
        equations.push(equation)?;
    }
    if open.is_empty() {
        return Ok(Some(equations));
    }
    Ok(None)
}

// The exclusive or of the last variable that is one.
fn next_equation(alloc: Global, xors: &Xors, open: &[u64]) -> Result<Option<Equation>, AllocError> {
    for variable in open.iter().rev() {
        if let Some(sum) = xors.sum_of(*variable) {
            return Ok(Some(equation_of(alloc, *variable, sum)?));
        }
    }
    Ok(None)
}

// That a variable is a sum, as an equation.
fn equation_of(alloc: Global, variable: u64, sum: &Xor) -> Result<Equation, AllocError> {
    let mut variables = toggled(alloc, &[variable], &[])?;
    let mut is_odd = sum.is_opposite;
    for operand in sum.operands.iter() {
        variables = toggled(alloc, &variables, &[operand.variable()])?;
        is_odd ^= operand.is_negated();
    }
    // variable 0 is true
    if has(&variables, 0) {
        variables = toggled(alloc, &variables, &[0])?;
        is_odd = !is_odd;
    }
    Ok(Equation {
        variables,
        is_odd,
        is_used: false,
    })
}

// The two equations whose sum is the narrowest, among those that share a variable and weren't added.
fn nearest(equations: &[Equation], salt: u64) -> Option<(usize, usize)> {
    let mut best = None;
    let mut least = u64::MAX;
    for (right, equation) in equations.iter().enumerate() {
        if let Some((left, cost)) = nearest_before(equations, right, equation, salt) {
            if cost < least {
                least = cost;
                best = Some((left, right));
            }
        }
    }
    best
}

// The one before an equation with which it makes the narrowest sum, and what that costs.
fn nearest_before(
    equations: &[Equation],
    end: usize,
    equation: &Equation,
    salt: u64,
) -> Option<(usize, u64)> {
    if equation.is_used {
        return None;
    }
    let mut best = None;
    let mut least = u64::MAX;
    for (left, other) in equations.iter().enumerate() {
        if (left >= end) | other.is_used {
            continue;
        }
        if let Some(width) = width_of(&other.variables, &equation.variables) {
            let cost = cost_of(width, salt, left, end);
            if cost < least {
                least = cost;
                best = Some((left, cost));
            }
        }
    }
    best
}

// Of how many variables the sum of two equations is, if they share one.
fn width_of(one: &[u64], other: &[u64]) -> Option<usize> {
    let shared = count_shared(one, other);
    if shared == 0 {
        return None;
    }
    let all = one.len().saturating_add(other.len());
    Some(all.saturating_sub(shared.saturating_mul(2)))
}

// What a sum costs: its width, and what is drawn from the order and the places.
fn cost_of(width: usize, salt: u64, left: usize, right: usize) -> u64 {
    let drawn = mix(mix(salt, left as u64), right as u64) % SPREAD;
    (width as u64).saturating_mul(SPREAD).saturating_add(drawn)
}

// How many numbers two lists share. Each is looked for by a scan: they are the variables of an equation, at most seven
// of a gate's and at most `WIDEST` of a sum.
fn count_shared(one: &[u64], other: &[u64]) -> usize {
    let mut count: usize = 0;
    for number in one.iter() {
        if has(other, *number) {
            count = count.saturating_add(1);
        }
    }
    count
}

// The sum of two equations, whose parts are added. None where it is too wide.
fn add_two(
    alloc: Global,
    equations: &mut [Equation],
    left: usize,
    right: usize,
    parts: &mut Vec<Part>,
) -> Result<Option<Equation>, AllocError> {
    let (Some(one), Some(other)) = (equations.get(left), equations.get(right)) else {
        return Ok(None);
    };
    let variables = toggled(alloc, &one.variables, &other.variables)?;
    let splits = shared_literals(alloc, &one.variables, &other.variables)?;
    let is_odd = one.is_odd ^ other.is_odd;
    if variables.len() > WIDEST {
        return Ok(None);
    }
    add_broken(alloc, &variables, is_odd, &splits, parts)?;
    use_up(equations, left);
    use_up(equations, right);
    Ok(Some(Equation {
        variables,
        is_odd,
        is_used: false,
    }))
}

// Notes that an equation was added to another one.
fn use_up(equations: &mut [Equation], place: usize) {
    if let Some(equation) = equations.get_mut(place) {
        equation.is_used = true;
    }
}

// The numbers that two lists share, as literals.
fn shared_literals(alloc: Global, one: &[u64], other: &[u64]) -> Result<Vec<SatLit>, AllocError> {
    let mut literals = Vec::new(alloc);
    for number in one.iter() {
        if has(other, *number) {
            literals.push(literal_of(*number, true))?;
        }
    }
    Ok(literals)
}

// Adds a part for each vector of some variables by which their sum isn't what it is to be. No wider sum is made.
fn add_broken(
    alloc: Global,
    variables: &[u64],
    is_odd: bool,
    splits: &[SatLit],
    parts: &mut Vec<Part>,
) -> Result<(), AllocError> {
    let count = variables.len().min(WIDEST);
    for code in 0..1u64 << count {
        if is_broken(code, count, is_odd) {
            let literals = literals_at(alloc, variables, code)?;
            let splits = splits.to_vec(alloc)?;
            parts.push(Part { literals, splits })?;
        }
    }
    Ok(())
}

// Whether the sum of a vector of n bits, by its number, isn't what it is to be.
fn is_broken(code: u64, count: usize, is_odd: bool) -> bool {
    let mut left = code;
    let mut sum = false;
    for _ in 0..count {
        sum ^= left % 2 == 1;
        left /= 2;
    }
    sum != is_odd
}

// The literals by which variables have the bits of a number.
fn literals_at(alloc: Global, variables: &[u64], code: u64) -> Result<Vec<SatLit>, AllocError> {
    let mut literals = Vec::new(alloc);
    let mut left = code;
    for variable in variables.iter() {
        literals.push(literal_of(*variable, left % 2 == 1))?;
        left /= 2;
    }
    Ok(literals)
}

// The literal of a variable. There are fewer than 2^62 of them.
fn literal_of(variable: u64, bit: bool) -> SatLit {
    SatLit::of(variable % (1 << 62), bit)
}
