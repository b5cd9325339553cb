//! Lines over dense variables, in terms of the formula.

ghost use Rattle.std.specs.Prelude.{◌≡◌, ◌+◌, ◌-◌, ◌<◌, ◌^◌, All, IfOk, length, map};
ghost use Rattle.cnf_core.specs.Clauses.{AreKnown};
ghost use Rattle.ask_core.specs.Renamings.{renamed, renumbered, translated};

use crate::base::DenseBase;
use cnf_core::{LogLine, SatLit};
use items::Items;
use std::alloc::{AllocError, Global};

/// A line over dense variables, as one of the formula's, where the numbers of such lines go on from a number.
///
/// # Errors
///
/// Only when out of memory.
pub fn translated(
    alloc: Global,
    dense: &DenseBase,
    next: u64,
    line: &LogLine,
) -> Result<LogLine, AllocError>
    requires known { AreKnown (length dense.now.names) line.now.clause }
    requires few { All (λ hint. next + hint < 2 ^ 64) line.now.hints }
    ensures { IfOk result (λ copy. copy ≡ translated dense.now.names dense.now.numbers next line.now) }
{
    let clause = renamed(alloc, dense.names(), &line.clause)?;
    let hints = renumbered(alloc, dense.numbers(), next, &line.hints)?;
    Ok(LogLine { clause, hints })
}

// The literals over the formula's variables.
fn renamed(alloc: Global, names: &[u64], clause: &[SatLit]) -> Result<Items<SatLit>, AllocError>
    requires known { AreKnown (length names.now) clause.now }
    requires few { All (λ v. v < 2 ^ 63) names.now }
    ensures { IfOk result (λ copy. copy ≡ map (renamed names.now) clause.now) }
{
    let mut copy = Items::new(alloc);
    for literal in clause.iter() {
        let name = names[literal.variable() as usize];
        copy.push(SatLit::of(name, !literal.is_negated()))?;
    }
    Ok(copy)
}

// The numbers that clauses have in the formula and its log.
fn renumbered(
    alloc: Global,
    numbers: &[u64],
    next: u64,
    hints: &[u64],
) -> Result<Items<u64>, AllocError>
    requires { All (λ hint. next + hint < 2 ^ 64) hints.now }
    ensures { IfOk result (λ copy. copy ≡ map (renumbered numbers.now next) hints.now) }
{
    let mut copy = Items::new(alloc);
    for hint in hints.iter() {
        copy.push(number_of(numbers, next, *hint))?;
    }
    Ok(copy)
}

// The number that a clause has in the formula and its log.
fn number_of(numbers: &[u64], next: u64, k: u64) -> u64
    requires { next + k < 2 ^ 64 }
    ensures { result ≡ renumbered numbers.now next k }
{
    let listed = numbers.len() as u64;
    if k < listed {
        return numbers[k as usize];
    }
    next + (k - listed)
}
