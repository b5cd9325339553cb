//! By which paths inputs reach outputs.

use net_core::{Graph, Lit};
use std::alloc::{AllocError, Global};

/// Of how many inputs the paths are computed at once, one a bit of a word.
const WORD: u32 = 64;

/// By which paths an input reaches an output through gates. Where all have an even number of negations the output never
/// falls as the input goes up, and where all have an odd one it never falls as the input goes down.
#[derive(Clone, Copy, Debug, Drop)]
pub(crate) struct Paths {
    /// Whether there is a path with an even number of negations.
    pub(crate) even: bool,
    /// Whether there is a path with an odd number of them.
    pub(crate) odd: bool,
}

/// By which paths 64 inputs reach a signal, a bit for each.
#[derive(Clone, Copy, Debug, Drop)]
struct PathWords {
    even: u64,
    odd: u64,
}

impl PathWords {
    fn none() -> PathWords {
        PathWords { even: 0, odd: 0 }
    }

    fn negated(self) -> PathWords {
        PathWords {
            even: self.odd,
            odd: self.even,
        }
    }

    fn or(self, other: PathWords) -> PathWords {
        PathWords {
            even: self.even | other.even,
            odd: self.odd | other.odd,
        }
    }

    // The paths of one of the inputs.
    fn of(self, place: u32) -> Paths {
        Paths {
            even: (self.even >> (place % WORD)) % 2 == 1,
            odd: (self.odd >> (place % WORD)) % 2 == 1,
        }
    }
}

/// For each output of a circuit the paths by which each input reaches it.
pub(crate) fn paths_to_outputs(
    alloc: Global,
    graph: &Graph,
) -> Result<Vec<Vec<Paths>>, AllocError> {
    let mut rows = empty_rows(alloc, graph.outputs().len())?;
    for block in 0..graph.inputs().div_ceil(WORD) {
        add_inputs(alloc, graph, block.saturating_mul(WORD), &mut rows)?;
    }
    Ok(rows)
}

// So many rows without an entry.
fn empty_rows(alloc: Global, count: usize) -> Result<Vec<Vec<Paths>>, AllocError> {
    let mut rows = Vec::with_capacity(alloc, count)?;
    for _ in 0..count {
        rows.push(Vec::new(alloc))?;
    }
    Ok(rows)
}

// Adds the paths of 64 inputs, or of as many as there are from the first of them on.
fn add_inputs(
    alloc: Global,
    graph: &Graph,
    first: u32,
    rows: &mut [Vec<Paths>],
) -> Result<(), AllocError> {
    let words = words_of(alloc, graph, first)?;
    let count = graph.inputs().saturating_sub(first).min(WORD);
    for (row, literal) in rows.iter_mut().zip(graph.outputs().iter()) {
        add_to(row, of_literal(&words, *literal), count)?;
    }
    Ok(())
}

fn add_to(row: &mut Vec<Paths>, words: PathWords, count: u32) -> Result<(), AllocError> {
    for place in 0..count {
        row.push(words.of(place))?;
    }
    Ok(())
}

// By which paths the 64 inputs from one on reach each signal.
fn words_of(alloc: Global, graph: &Graph, first: u32) -> Result<Vec<PathWords>, AllocError> {
    let mut words = words_of_inputs(alloc, graph, first)?;
    for gate in graph.gates().iter() {
        words.push(of_literal(&words, gate.a).or(of_literal(&words, gate.b)))?;
    }
    Ok(words)
}

// The words of the constant and of the inputs, for the 64 inputs from `first` on, with capacity for all signals.
fn words_of_inputs(alloc: Global, graph: &Graph, first: u32) -> Result<Vec<PathWords>, AllocError> {
    let mut words = Vec::with_capacity(alloc, graph.signals())?;
    words.push(PathWords::none())?;
    for input in 0..graph.inputs() {
        words.push(of_input(input.wrapping_sub(first)))?;
    }
    Ok(words)
}

// An input reaches itself. Those that aren't among the 64 have no bit.
fn of_input(place: u32) -> PathWords {
    PathWords {
        even: if place < WORD { 1 << (place % WORD) } else { 0 },
        odd: 0,
    }
}

fn of_literal(words: &[PathWords], literal: Lit) -> PathWords {
    let Some(found) = words.get(literal.signal() as usize) else {
        return PathWords::none();
    };
    if literal.is_negated() {
        found.negated()
    } else {
        *found
    }
}
