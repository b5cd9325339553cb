//! The gates of a query's cones, read from its clauses.

ghost use Rattle.std.specs.Prelude.{◌*◌, ◌<◌, length};

use cnf_core::{Base, SatLit};
use indexmap::IndexSet;
use std::alloc::{AllocError, Global};

/// A gate of a query's cones: the literal of its variable, and its operands.
#[derive(Clone, Copy, Drop)]
pub struct LitGate {
    pub output: SatLit,
    pub first: SatLit,
    pub second: SatLit,
}

/// The gates of a query's cones, each after its operands; one that both cones have comes twice. The numbers are those
/// of the cones' clauses.
///
/// # Errors
///
/// Only when out of memory.
pub fn gates_of<B: Base>(alloc: Global, base: &B, ids: &[u64]) -> Result<Vec<LitGate>, AllocError> {
    let mut gates = Vec::new(alloc);
    let end = ids.len() / 3;
    for k in 1..end {
        if let Some(gate) = gate_at(base, ids, k) {
            gates.push(gate)?;
        }
    }
    Ok(gates)
}

// Gate k of the cones, counted from 1, whose clauses have these numbers: after that of variable 0 three for each gate,
// of which the last says that the operands imply it.
fn gate_at<B: Base>(base: &B, ids: &[u64], k: usize) -> Option<LitGate>
    requires { 3 * k < length ids.now }
{
    let id = ids[3 * k];
    if id >= base.count() {
        return None;
    }
    let clause = base.clause(id);
    let [output, first, second] = clause.lits;
    Some(LitGate {
        output,
        first: first.opposite(),
        second: second.opposite(),
    })
}

/// The inputs of gates each of which stands after its operands: what is read and is no gate's output, as literals
/// without complement, in the order in which they are read first. The constant is none.
///
/// # Errors
///
/// Only when out of memory.
pub fn inputs_of(alloc: Global, gates: &[LitGate]) -> Result<Vec<SatLit>, AllocError> {
    let mut met = IndexSet::new(alloc);
    let mut inputs = Vec::new(alloc);
    add_inputs(gates, &mut met, &mut inputs)?;
    Ok(inputs)
}

// Adds what gates read and what wasn't met before. The constant is met.
fn add_inputs(
    gates: &[LitGate],
    met: &mut IndexSet<u64>,
    inputs: &mut Vec<SatLit>,
) -> Result<(), AllocError> {
    met.insert(0)?;
    for gate in gates.iter() {
        meet(met, inputs, gate.first)?;
        meet(met, inputs, gate.second)?;
        met.insert(gate.output.variable())?;
    }
    Ok(())
}

// Adds an operand that wasn't met before.
fn meet(
    met: &mut IndexSet<u64>,
    inputs: &mut Vec<SatLit>,
    operand: SatLit,
) -> Result<(), AllocError> {
    if met.contains(&operand.variable()) {
        return Ok(());
    }
    met.insert(operand.variable())?;
    let plain = if operand.is_negated() {
        operand.opposite()
    } else {
        operand
    };
    inputs.push(plain)?;
    Ok(())
}
