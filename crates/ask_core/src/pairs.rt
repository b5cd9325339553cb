use crate::classes::{Member, classes_of};
use crate::gates::LitGate;
use crate::joint::{Joint, Signal};
use cnf_core::SatLit;
use indexmap::IndexMap;
use std::alloc::{AllocError, Global};

/// Two literals that agree on all vectors that were tried. The first is no farther from the inputs.
#[derive(Clone, Copy, Drop)]
pub struct GatePair {
    pub one: SatLit,
    pub other: SatLit,
}

/// A literal that is true on the first vector, of a gate, an input or the constant.
#[derive(Clone, Copy, Drop)]
struct TrueLiteral {
    depth: u64,
    literal: SatLit,
    class: u64,
}

/// Pairs of literals that agree on vectors drawn by a seed, up to 32,768 of them, of gates each of which stands after
/// its operands, of their inputs and of the constant: for each gate the one that is nearest to the inputs, from the
/// inputs on, so that those come first on which others rest.
///
/// # Errors
///
/// Only when out of memory.
pub fn pairs_of(alloc: Global, gates: &[LitGate], seed: u64) -> Result<Vec<GatePair>, AllocError> {
    let Some(joint) = Joint::of(alloc, gates)? else {
        return Ok(Vec::new(alloc));
    };
    let classes = classes_of(alloc, &joint.graph, seed)?;
    let mut candidates = candidates_of(alloc, &joint.signals, &classes.members)?;
    candidates.sort_unstable_by_key(|candidate| (candidate.depth, candidate.literal));
    paired(alloc, &candidates)
}

// The literals of signals, by what is known of these.
fn candidates_of(
    alloc: Global,
    signals: &[Signal],
    members: &[Member],
) -> Result<Vec<TrueLiteral>, AllocError> {
    let mut candidates = Vec::with_capacity(alloc, members.len())?;
    for (signal, member) in signals.iter().zip(members.iter()) {
        candidates.push(candidate_of(*signal, *member))?;
    }
    Ok(candidates)
}

// The literal of a signal that is true on the first vector.
fn candidate_of(signal: Signal, member: Member) -> TrueLiteral {
    let literal = if member.flip {
        signal.literal.opposite()
    } else {
        signal.literal
    };
    TrueLiteral {
        depth: signal.depth,
        literal,
        class: member.class,
    }
}

// Each literal but the first of its class, with that one.
fn paired(alloc: Global, candidates: &[TrueLiteral]) -> Result<Vec<GatePair>, AllocError> {
    let mut firsts = IndexMap::new(alloc);
    let mut pairs = Vec::new(alloc);
    add_pairs(candidates, &mut firsts, &mut pairs)?;
    Ok(pairs)
}

// Adds these pairs, by the first literal of each class.
fn add_pairs(
    candidates: &[TrueLiteral],
    firsts: &mut IndexMap<u64, SatLit>,
    pairs: &mut Vec<GatePair>,
) -> Result<(), AllocError> {
    for candidate in candidates.iter() {
        let first = firsts.get(&candidate.class).copied();
        match first {
            Some(one) => pairs.push(GatePair {
                one,
                other: candidate.literal,
            })?,
            None => {
                firsts.insert(candidate.class, candidate.literal)?;
            }
        }
    }
    Ok(())
}
