//! Which literal is tried next.

use crate::choice_point::ChoicePoint;
use cell_splits::{Similarity, State};
use net_core::Side;
use port_cells::{Cells, Counts, Draws};
use std::alloc::{AllocError, Global};
use std::cmp::Reverse;

/// How good a cell is to be split by a guess; the least is taken.
#[derive(Clone, Copy, Drop, PartialEq, Eq, PartialOrd, Ord)]
struct Rank {
    /// Signs that nothing shows are guessed last.
    is_blind: bool,
    /// Among these an input that changes much shows most.
    influence: Reverse<u32>,
    /// A small cell has few wrong candidates. Where all signs are known a large one splits more by one guess.
    size: usize,
}

/// A literal by its similarity.
type RankedLiteral = ((u64, Reverse<usize>), usize);

/// What is to be done with a state.
#[derive(Drop)]
pub(crate) enum Next {
    /// An input is guessed.
    Guess(ChoicePoint),
    /// Each literal of an input is alone in its cell.
    Paired(State),
}

/// What is known of the inputs of the first circuit when one is chosen.
#[derive(Clone, Copy)]
struct Chooser<'a> {
    inputs: &'a Cells,
    sizes: &'a [usize],
    counts: &'a Counts,
    /// Whether large cells come first.
    prefers_large: bool,
}

impl<'a> Chooser<'a> {
    // The rank of a literal's cell, or None where it is alone there.
    fn rank(&self, literal: usize, cell: usize) -> Option<Rank> {
        let size = *self.sizes.get(cell)?;
        if size < 2 {
            return None;
        }
        let is_blind = self.inputs.is_open(literal) && !self.is_biased(literal);
        let influence = if is_blind { self.influence(literal) } else { 0 };
        Some(Rank {
            is_blind,
            influence: Reverse(influence),
            size: if self.prefers_large {
                usize::MAX.saturating_sub(size)
            } else {
                size
            },
        })
    }

    // Whether some output agrees with the input more often than with its complement, or less often.
    fn is_biased(&self, literal: usize) -> bool {
        let Some(influences) = self.counts.of_inputs.get(literal / 2) else {
            return false;
        };
        influences.iter().any(|it| it.agrees != it.differs)
    }

    // On how many vectors outputs change with the input, all of them together.
    fn influence(&self, literal: usize) -> u32 {
        let Some(influences) = self.counts.of_inputs.get(literal / 2) else {
            return 0;
        };
        let mut changes = 0u32;
        for influence in influences.iter() {
            changes = changes.saturating_add(influence.changes());
        }
        changes
    }

    // The cell that is best split, or None where all are alone.
    fn best(&self) -> Option<usize> {
        let mut best = None;
        for (literal, cell) in self.inputs.of(Side::First).iter().enumerate() {
            best = better(best, self.rank(literal, *cell), *cell);
        }
        let (_, cell) = best?;
        Some(cell)
    }
}

fn better(best: Option<(Rank, usize)>, rank: Option<Rank>, cell: usize) -> Option<(Rank, usize)> {
    let Some(rank) = rank else {
        return best;
    };
    match best {
        Some((least, _)) if least <= rank => best,
        _ => Some((rank, cell)),
    }
}

/// The next choice point: a literal of the first circuit, and those that it may correspond to, if one isn't alone. By
/// similarity, where that is known, those that are most alike come first. Else, in later rounds, the literal and the
/// order of the others are drawn, so that rounds differ. Small cells come first in every other round, since a small
/// cell has few wrong candidates and a large one splits more, and which of these pays depends on the circuits. Neither
/// alone loses one of 29 pairs.
pub(crate) fn next_point(
    alloc: Global,
    state: State,
    counts: &Counts,
    similarity: Option<&Similarity>,
    round: u32,
    draws: &mut Draws,
) -> Result<Next, AllocError> {
    let Some(cell) = best_cell(alloc, &state, counts, round)? else {
        return Ok(Next::Paired(state));
    };
    match similarity {
        Some(similarity) => {
            // while signs are open a guess in the best cell decides most
            let goes_by_cell = goes_by_cell(round) || state.inputs.has_open();
            let only = if goes_by_cell { Some(cell) } else { None };
            most_similar_point(alloc, state, only, similarity)
        }
        None => point_of(alloc, state, cell, round, draws),
    }
}

// A literal of a cell: the first one, and then the last of the others first, as nothing says that another order is
// better; in later rounds a drawn one, and the others in a drawn order.
fn point_of(
    alloc: Global,
    state: State,
    cell: usize,
    round: u32,
    draws: &mut Draws,
) -> Result<Next, AllocError> {
    let mine = literals_in(alloc, state.inputs.of(Side::First), cell)?;
    let mut candidates = literals_in(alloc, state.inputs.of(Side::Second), cell)?;
    let mut place = 0;
    if round > 0 {
        place = draws.below(mine.len());
        draws.shuffle(&mut candidates);
    }
    let Some(literal) = mine.get(place) else {
        return Ok(Next::Paired(state));
    };
    Ok(Next::Guess(ChoicePoint {
        state,
        literal: *literal,
        candidates,
    }))
}

// Whether a round that goes by similarity looks for the most similar literal in the best cell alone, the largest once
// no sign is open. The most similar of all may be in a small cell that splits nothing else: the AND and the exclusive
// or of the points on each line of a plane of 57 aren't guessed by it. With the largest cell in all such rounds few
// gates of a SEC-DED code get partners of equal functions, so it is two of the four, the second and the last.
fn goes_by_cell(round: u32) -> bool {
    round % 4 == 2
}

// The literal that is most like one that it may correspond to, of one cell or of all.
fn most_similar_point(
    alloc: Global,
    state: State,
    only: Option<usize>,
    similarity: &Similarity,
) -> Result<Next, AllocError> {
    let Some(literal) = most_similar(alloc, &state.inputs, only, similarity)? else {
        return Ok(Next::Paired(state));
    };
    let candidates = candidates_of(alloc, &state.inputs, literal, similarity)?;
    Ok(Next::Guess(ChoicePoint {
        state,
        literal,
        candidates,
    }))
}

// Among the literals that aren't alone in their cells, or those of one cell, the first of those that are most like one
// of the second circuit. All pairs are gone over: guesses change what is alike, and `Similarity::responses` counts the
// pairs too.
fn most_similar(
    alloc: Global,
    inputs: &Cells,
    only: Option<usize>,
    similarity: &Similarity,
) -> Result<Option<usize>, AllocError> {
    let sizes = inputs.sizes(alloc)?;
    let mut best = None;
    for (literal, cell) in inputs.of(Side::First).iter().enumerate() {
        let is_alone = sizes.get(*cell) == Some(&1);
        if !is_alone & (only.unwrap_or(*cell) == *cell) {
            let most = most_alike(inputs.of(Side::Second), *cell, literal, similarity);
            best = more_similar(best, most, literal);
        }
    }
    let Some((_, literal)) = best else {
        return Ok(None);
    };
    Ok(Some(literal))
}

// How alike a literal's input is to the one that is most like it, of those with a literal in a cell.
fn most_alike(
    others: &[usize],
    cell: usize,
    literal: usize,
    similarity: &Similarity,
) -> (u64, Reverse<usize>) {
    let mut most = (0u64, Reverse(usize::MAX));
    for (other, its) in others.iter().enumerate() {
        if *its == cell {
            most = most.max(similarity.of(literal / 2, other / 2));
        }
    }
    most
}

fn more_similar(
    best: Option<RankedLiteral>,
    most: (u64, Reverse<usize>),
    literal: usize,
) -> Option<RankedLiteral> {
    match best {
        Some((similarity, _)) if similarity >= most => best,
        _ => Some((most, literal)),
    }
}

// The literals that one may correspond to, the most similar last.
fn candidates_of(
    alloc: Global,
    inputs: &Cells,
    literal: usize,
    similarity: &Similarity,
) -> Result<Vec<usize>, AllocError> {
    let mut ranked = Vec::new(alloc);
    add_ranked(inputs, literal, similarity, &mut ranked)?;
    ranked.sort_unstable();
    literals_of(alloc, &ranked)
}

// Adds the literals that one may correspond to, each by how alike it is.
fn add_ranked(
    inputs: &Cells,
    literal: usize,
    similarity: &Similarity,
    ranked: &mut Vec<RankedLiteral>,
) -> Result<(), AllocError> {
    let cell = inputs.of(Side::First).get(literal);
    for (other, its) in inputs.of(Side::Second).iter().enumerate() {
        if Some(its) == cell {
            ranked.push((similarity.of(literal / 2, other / 2), other))?;
        }
    }
    Ok(())
}

fn literals_of(alloc: Global, ranked: &[RankedLiteral]) -> Result<Vec<usize>, AllocError> {
    let mut literals = Vec::with_capacity(alloc, ranked.len())?;
    for (_, literal) in ranked.iter() {
        literals.push(*literal)?;
    }
    Ok(literals)
}

fn best_cell(
    alloc: Global,
    state: &State,
    counts: &Counts,
    round: u32,
) -> Result<Option<usize>, AllocError> {
    let sizes = state.inputs.sizes(alloc)?;
    let chooser = Chooser {
        inputs: &state.inputs,
        sizes: &sizes,
        counts,
        prefers_large: round % 2 == 0 && !state.inputs.has_open(),
    };
    Ok(chooser.best())
}

fn literals_in(alloc: Global, cells: &[usize], cell: usize) -> Result<Vec<usize>, AllocError> {
    let mut literals = Vec::new(alloc);
    for (literal, its) in cells.iter().enumerate() {
        if *its == cell {
            literals.push(literal)?;
        }
    }
    Ok(literals)
}
