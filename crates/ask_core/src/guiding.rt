//! What the solver looks at first.

use crate::base::DenseBase;
use crate::sums::add_parts;
use crate::xors::Xors;
use crate::{GatePair, LitGate, gates_of, inputs_of, pairs_of};
use cnf_core::{Base, SatLit};
use learn_solver::{Agenda, Candidate, Clash, Operands, Part, QuestionGuide};
use std::alloc::{AllocError, Global};

/// The number that vectors are drawn from: any would do. Each question of a run draws the same ones.
const SEED: u64 = 1;

/// Up to how many inputs are decided first. Then a question learns about as many lines at most as the inputs have
/// vectors, where an S-box of 8 inputs and 2,000 gates took up to 28,000 by candidates, and 90 times minisat's time.
const FEW_INPUTS: usize = 10;

/// The pairs of a query's gates that seem to be equal.
#[derive(Drop)]
pub(crate) struct GatePairs<'a> {
    pub(crate) base: &'a DenseBase,
    /// The numbers of the clauses that say what the gates are: after the first clause three for each.
    pub(crate) ids: &'a [u64],
}

impl<'a> QuestionGuide for GatePairs<'a> {
    fn agenda(&mut self, alloc: Global) -> Result<Agenda, AllocError> {
        agenda_of(alloc, self.base, self.ids)
    }

    fn done_with(&mut self, _candidate: Candidate, _lines: u64) -> Result<(), AllocError> {
        Ok(())
    }

    // `Tab` reports each line.
    fn learned(&mut self, _lines: u64) {}
}

/// What a search is to look at first. Where the cones of a query have few inputs, these are decided first, and nothing
/// else is looked at. Else two candidates for each pair of gates that seem to be equal: that one is true and the other
/// false; where both are sums of exclusive ors, parts of these before. `ids` are the numbers of the cones' clauses:
/// after the first clause three for each gate.
///
/// # Errors
///
/// Only when out of memory.
pub fn agenda_of<B: Base>(alloc: Global, base: &B, ids: &[u64]) -> Result<Agenda, AllocError> {
    let gates = gates_of(alloc, base, ids)?;
    let inputs = inputs_of(alloc, &gates)?;
    if inputs.len() <= FEW_INPUTS {
        return Ok(inputs_first(alloc, inputs));
    }
    pairs_first(alloc, &gates)
}

// Nothing is looked at before the question, and inputs are decided first in it.
fn inputs_first(alloc: Global, inputs: Vec<SatLit>) -> Agenda {
    Agenda {
        gates: Vec::new(alloc),
        parts: Vec::new(alloc),
        candidates: Vec::new(alloc),
        leading: inputs,
    }
}

// Pairs of gates are looked at.
fn pairs_first(alloc: Global, gates: &[LitGate]) -> Result<Agenda, AllocError> {
    let pairs = pairs_of(alloc, gates, SEED)?;
    let xors = Xors::new(alloc, gates, &pairs)?;
    let mut parts = Vec::new(alloc);
    let mut candidates = Vec::new(alloc);
    for pair in pairs.iter() {
        push_pair(alloc, &xors, *pair, &mut parts, &mut candidates)?;
    }
    let gates = operands_of(alloc, gates)?;
    Ok(Agenda {
        gates,
        parts,
        candidates,
        leading: Vec::new(alloc),
    })
}

// Adds the candidates of a pair.
fn push_pair(
    alloc: Global,
    xors: &Xors,
    pair: GatePair,
    parts: &mut Vec<Part>,
    candidates: &mut Vec<Candidate>,
) -> Result<(), AllocError> {
    let before = parts.len();
    add_parts(alloc, xors, pair, parts)?;
    for number in before..parts.len() {
        candidates.push(Candidate::Part(number))?;
    }
    let GatePair { one, other } = pair;
    push_clash(candidates, one, other.opposite())?;
    push_clash(candidates, one.opposite(), other)
}

// The variables of each gate.
fn operands_of(alloc: Global, gates: &[LitGate]) -> Result<Vec<Operands>, AllocError> {
    let mut variables = Vec::new(alloc);
    for gate in gates.iter() {
        variables.push(Operands {
            gate: gate.output.variable(),
            first: gate.first.variable(),
            second: gate.second.variable(),
        })?;
    }
    Ok(variables)
}

// Adds the candidate that two literals are never true together.
fn push_clash(
    candidates: &mut Vec<Candidate>,
    one: SatLit,
    other: SatLit,
) -> Result<(), AllocError> {
    candidates.push(Candidate::Clash(Clash { one, other }))?;
    Ok(())
}
