ghost use Rattle.std.specs.Prelude.{◌≡◌, IfOk, IfSome};
ghost use Rattle.circuits.specs.Matches.{HavePorts};

use crate::choice::Next;
use crate::choice_point::{ChoicePoint, next_state};
use crate::effort::{Allowance, Effort};
use crate::kept::Kept;
use crate::matching::matching_of;
use crate::patience::Patience;
use crate::refiner::Refiner;
use crate::signs::{has_one_open_cell, with_plain_signs};
use account_core::PairableGraphs;
use bit_list::Bits;
use cell_splits::{Similarity, State, open_in};
use net_core::Matching;
use std::alloc::{AllocError, Global};

/// The most inputs whose signs are guessed one after the other, before vectors are looked for that decide them all:
/// four have 16 values, fewer than pairs of vectors are taken.
const FEW_OPEN: usize = 4;

/// How often a search begins again, with other choices. Most matchings that are found are found in the first two
/// rounds.
const ROUNDS: u32 = 8;

/// How many guesses may fail in the first round. In each further round half as many more may, some 390 in all. With
/// half as many at first the adder and subtractor of 24 bits takes a second longer; with twice as many none of 29 pairs
/// changes.
const FIRST_FAILURES: u32 = 8;

/// How many may fail where all signs are taken as plain: only circuits without negated ports are matched by that.
/// Neither one nor 16 change any of 60 such pairs.
const PLAIN_FAILURES: u32 = 4;

/// How many may fail where vectors decide all signs: these are right or wrong as a whole. Neither one nor eight change
/// any of 29 pairs.
const ANCHOR_FAILURES: u32 = 3;

/// The most states that one search goes through: a bound that isn't met, since each search has few failures.
const MOST_STATES: u32 = 100_000;

/// How many responses of gates to inputs may be compared so that inputs are paired by similarity. With an eighth of
/// them matchings of the count of 128 inputs, and of the parity of 128 beside an AND, were found by which few gates
/// have partners of equal functions, which isn't proved in ten seconds.
const MOST_RESPONSES: u64 = 1 << 24;

/// Up to how many words of gates are computed for it at once. Together with the next number that bounds the memory to
/// some twenty megabytes; where it is more, inputs are paired by draws.
const MOST_COMPARED: u64 = 1 << 21;

/// Of how many inputs: what each shares with each one of the other circuit is a number of eight bytes, 8 MiB in all.
const MOST_INPUTS: u32 = 1 << 10;

/// How many literals are tried with the one whose sign is to decide all others. Those of a majority or a sorter all
/// serve; where four are refuted, few inputs may go to each other, and vectors are looked for.
const FEW_TRIED: u32 = 4;

/// What a state comes to.
#[derive(Drop)]
enum Visited {
    /// The inputs are paired, and the outputs by vectors.
    Paired(State),
    /// An input is guessed.
    Guess(ChoicePoint),
    /// There is no match in it, or none that vectors allow.
    Fails,
}

/// What a search comes to.
#[derive(Drop)]
enum Attempt {
    Paired(State),
    /// All that the cells allow was tried.
    Exhausted,
    /// Too many guesses failed.
    Stopped,
}

/// What finds matchings that may be a match, by counts of how outputs change with inputs and by vectors. It leaves no
/// evidence, and where it finds nothing that says nothing of whether there is a match.
pub struct Guesser<'a> {
    refiner: Refiner<'a>,
    kept: Kept,
    /// How many responses of gates to inputs may still be compared.
    responses: u64,
    /// Whether one input's sign decides those of nearly all others, as in a majority, which is its own dual.
    are_signs_linked: bool,
    allowance: Allowance,
    effort: Effort,
}

// By hand, so that each exit of a function has one call for it (docs/IDIOMS.md).
impl Drop for Guesser<'_> {
    fn drop(self) {
        let Guesser {
            refiner: _refiner,
            kept: _kept,
            responses: _responses,
            are_signs_linked: _are_signs_linked,
            allowance: _allowance,
            effort: _effort,
        } = self;
    }
}

impl<'a> Guesser<'a> {
    /// Counts of both circuits, on vectors drawn by a seed where all are too many.
    pub fn new(
        alloc: Global,
        graphs: &PairableGraphs<'a>,
        seed: u64,
    ) -> Result<Guesser<'a>, AllocError> {
        let inputs = graphs.first().inputs();
        let refiner = Refiner::new(alloc, graphs, seed)?;
        let allowance = Allowance::new(inputs, refiner.words_of_flips(), refiner.words());
        Ok(Guesser {
            refiner,
            kept: Kept::new(alloc, inputs)?,
            responses: MOST_RESPONSES,
            are_signs_linked: false,
            allowance,
            effort: Effort::Whole,
        })
    }

    /// Keeps a vector of the first circuit's inputs on which a matching failed, so that further matchings agree on it.
    pub fn keep(&mut self, vector: &Bits) {
        self.kept.keep(vector);
    }

    /// A matching whose outputs agree on all vectors that were tried. None where none is found within this effort,
    /// which bounds what all guesses take together.
    pub fn guess(
        &mut self,
        alloc: Global,
        graphs: &PairableGraphs<'_>,
        effort: Effort,
    ) -> Result<Option<Matching>, AllocError>
        ensures { IfOk result (λ found. IfSome found
            (λ matching. HavePorts graphs.now.first graphs.now.second matching.inputs matching.outputs)) }
    {
        self.effort = effort;
        let root = State::new(alloc, self.refiner.first.graph())?;
        match self.find(alloc, root)? {
            Some(state) => matching_of(alloc, graphs, &state),
            None => Ok(None),
        }
    }

    // Searches in rounds, from cells that counts have split.
    fn find(&mut self, alloc: Global, root: State) -> Result<Option<State>, AllocError> {
        let mut failures = FIRST_FAILURES;
        for round in 0..ROUNDS {
            if self.is_spent() {
                return Ok(None);
            }
            self.refiner.begin_round(round);
            match self.search_round(alloc, root.copy()?, failures)? {
                Attempt::Paired(state) => return Ok(Some(state)),
                Attempt::Exhausted if self.refiner.is_exact => return Ok(None),
                _ => {}
            }
            failures = failures.saturating_add(failures / 2);
        }
        Ok(None)
    }

    // Searches with all open signs plain in the first round: without that 60 pairs without negated ports take 18 s
    // instead of 5, and three of them aren't guessed. Then with signs that vectors decide, in every other round (in all
    // rounds none of 29 pairs changes), and then with them open.
    fn search_round(
        &mut self,
        alloc: Global,
        root: State,
        failures: u32,
    ) -> Result<Attempt, AllocError> {
        let Some(root) = self.refiner.split_root(alloc, root)? else {
            return Ok(Attempt::Exhausted);
        };
        if self.refiner.round == 0
            && let Some(state) = self.find_plain(alloc, &root)?
        {
            return Ok(Attempt::Paired(state));
        }
        if self.refiner.round % 2 == 0
            && let Some(state) = self.find_anchored(alloc, root.copy()?)?
        {
            return Ok(Attempt::Paired(state));
        }
        self.search(alloc, root, failures)
    }

    // Searches with all open signs plain, if there are some.
    fn find_plain(&mut self, alloc: Global, root: &State) -> Result<Option<State>, AllocError> {
        let Some(plain) = with_plain_signs(alloc, root)? else {
            return Ok(None);
        };
        match self.search(alloc, plain, PLAIN_FAILURES)? {
            Attempt::Paired(state) => Ok(Some(state)),
            _ => Ok(None),
        }
    }

    // Searches with open signs that vectors decide which may correspond.
    fn find_anchored(&mut self, alloc: Global, root: State) -> Result<Option<State>, AllocError> {
        let Some(root) = self.refiner.refined(alloc, root)? else {
            return Ok(None);
        };
        let mut states = self.anchored(alloc, &root)?;
        self.search_last(alloc, &mut states)
    }

    // States in which vectors decide the open signs, where many are open.
    fn anchored(&mut self, alloc: Global, root: &State) -> Result<Vec<State>, AllocError> {
        if open_in(&root.inputs) <= FEW_OPEN {
            return Ok(Vec::new(alloc));
        }
        // a vector also parts inputs that may all go to each other: those with one bit on it from those with the other
        // one
        self.are_signs_linked = has_one_open_cell(&root.inputs)
            && self.are_linked(alloc, root.copy()?)?;
        if self.are_signs_linked {
            return Ok(Vec::new(alloc));
        }
        self.refiner.anchored(alloc, root)
    }

    // Searches from the last of these states on.
    fn search_last(
        &mut self,
        alloc: Global,
        states: &mut Vec<State>,
    ) -> Result<Option<State>, AllocError> {
        while let Some(state) = states.pop() {
            if let Attempt::Paired(state) = self.search(alloc, state, ANCHOR_FAILURES)? {
                return Ok(Some(state));
            }
        }
        Ok(None)
    }

    // Whether a guess decides nearly all open signs.
    fn are_linked(&mut self, alloc: Global, root: State) -> Result<bool, AllocError> {
        let Next::Guess(point) = self.next_point(alloc, root)? else {
            return Ok(false);
        };
        let mut points = Vec::new(alloc);
        points.push(point)?;
        for _ in 0..FEW_TRIED {
            let Some(state) = next_state(alloc, &mut points)? else {
                return Ok(false);
            };
            if let Some(state) = self.refiner.refined(alloc, state)? {
                return Ok(open_in(&state.inputs) <= FEW_OPEN);
            }
        }
        Ok(false)
    }

    // Searches depth first until as many guesses have failed as may.
    fn search(&mut self, alloc: Global, root: State, failures: u32) -> Result<Attempt, AllocError> {
        let mut points = Vec::new(alloc);
        let mut patience = Patience::of_round(self.refiner.round, failures);
        self.search_from(alloc, root, &mut points, &mut patience)
    }

    // Searches from a state and then from choice points, the last one first.
    fn search_from(
        &mut self,
        alloc: Global,
        root: State,
        points: &mut Vec<ChoicePoint>,
        patience: &mut Patience,
    ) -> Result<Attempt, AllocError> {
        let mut state = root;
        for _ in 0..MOST_STATES {
            match self.visit(alloc, state)? {
                Visited::Paired(state) => return Ok(Attempt::Paired(state)),
                Visited::Guess(point) => points.push(point)?,
                Visited::Fails => patience.fail(),
            }
            if patience.is_over() || self.is_spent() {
                return Ok(Attempt::Stopped);
            }
            let before = points.len();
            let Some(next) = next_state(alloc, points)? else {
                return Ok(Attempt::Exhausted);
            };
            patience.leave(before.saturating_sub(points.len()));
            state = next;
        }
        Ok(Attempt::Stopped)
    }

    fn is_spent(&self) -> bool {
        self.allowance.is_spent(self.effort, self.refiner.words())
    }

    // Refines a state, and chooses what is guessed next.
    fn visit(&mut self, alloc: Global, state: State) -> Result<Visited, AllocError> {
        let Some(state) = self.refiner.refined(alloc, state)? else {
            return Ok(Visited::Fails);
        };
        match self.next_point(alloc, state)? {
            Next::Guess(point) => Ok(Visited::Guess(point)),
            Next::Paired(state) => self.paired(alloc, state),
        }
    }

    // Chooses what is guessed next.
    fn next_point(&mut self, alloc: Global, state: State) -> Result<Next, AllocError> {
        let similarity = self.similarity(alloc, &state)?;
        self.refiner.next_point(alloc, state, similarity.as_ref())
    }

    // How alike inputs are, where guesses go by that.
    fn similarity(
        &mut self,
        alloc: Global,
        state: &State,
    ) -> Result<Option<Similarity>, AllocError> {
        if !self.goes_by_similarity(state) {
            return Ok(None);
        }
        let similarity = self.refiner.similarity(alloc, state)?;
        self.responses = self.responses.saturating_sub(similarity.responses());
        Ok(Some(similarity))
    }

    // Every other round goes by draws, as similarity may mislead. While signs are open it says little, and a guess
    // serves to split cells, unless one guess decides all signs.
    fn goes_by_similarity(&self, state: &State) -> bool {
        (self.refiner.round % 2 == 0)
            & (self.responses > 0)
            & (self.refiner.words_of_flips() <= MOST_COMPARED)
            & (self.refiner.first.graph().inputs() <= MOST_INPUTS)
            & (self.are_signs_linked | !state.inputs.has_open())
            & !state.inputs.is_discrete()
    }

    fn paired(&mut self, alloc: Global, state: State) -> Result<Visited, AllocError> {
        match self.refiner.with_paired_outputs(alloc, state, &self.kept)? {
            Some(state) => Ok(Visited::Paired(state)),
            None => Ok(Visited::Fails),
        }
    }
}
