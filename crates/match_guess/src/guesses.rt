//! Matchings that are compared, one after the other: those that are likely, and then those that are guessed.

ghost use Rattle.std.specs.Prelude.{IfOk, IfSome};
ghost use Rattle.circuits.specs.Matches.{HavePorts};
ghost use Rattle.sim_patterns.specs.Trials.{AreTrials};

use crate::effort::Effort;
use crate::guesser::Guesser;
use crate::likely::{Likely, copied, in_place, rated};
use account_core::PairableGraphs;
use bit_list::Bits;
use circuits::PortKind;
use net_core::Matching;
use sim_patterns::Trials;
use std::alloc::{AllocError, Global};

/// What a search for a match goes by. No answer rests on it.
#[derive(Clone, Copy)]
pub struct SearchStart<'a> {
    /// What vectors are drawn by.
    pub seed: u64,
    /// Matchings that may be a match, as the one that pairs ports of equal names.
    pub candidates: &'a [Matching],
}

/// Matchings that may be a match, one after the other: first the candidates that a search is given and the one that
/// pairs equal places, and then those that a `Guesser` finds. A candidate is passed over where outputs differ on drawn
/// vectors. One under which few gates of the two circuits have one function comes after all guesses: its proof may be
/// long where that of a guess is short, as of circuits whose inputs may go to each other.
pub struct Guesses<'a> {
    seed: u64,
    /// Candidates that come before all guesses, and those that come after them. The last one is next.
    near: Vec<Matching>,
    far: Vec<Matching>,
    /// The vectors on which candidates failed.
    failed: Vec<Bits>,
    /// Once it is needed: it takes time and memory.
    guesser: Option<Guesser<'a>>,
}

// By hand, so that each exit of a function has one call for it (docs/IDIOMS.md).
impl Drop for Guesses<'_> {
    fn drop(self) {
        let Guesses {
            seed: _seed,
            near: _near,
            far: _far,
            failed: _failed,
            guesser: _guesser,
        } = self;
    }
}

impl<'a> Guesses<'a> {
    /// The candidates are tried on vectors; nothing is guessed yet.
    pub fn new(
        alloc: Global,
        graphs: &PairableGraphs<'a>,
        start: &SearchStart<'_>,
    ) -> Result<Guesses<'a>, AllocError> {
        let mut guesses = Guesses {
            seed: start.seed,
            near: Vec::new(alloc),
            far: Vec::new(alloc),
            failed: Vec::new(alloc),
            guesser: None,
        };
        guesses.add_all(alloc, graphs, start)?;
        Ok(guesses)
    }

    // Adds the candidates, the first of which is to come first, and the matching that pairs equal places, unless it is
    // one of these.
    fn add_all(
        &mut self,
        alloc: Global,
        graphs: &PairableGraphs<'_>,
        start: &SearchStart<'_>,
    ) -> Result<(), AllocError> {
        let trials = Trials::new(alloc, graphs.first(), start.seed)?;
        let plain = in_place(alloc, graphs)?;
        if !start.candidates.iter().any(|candidate| *candidate == plain) {
            self.add(alloc, graphs, &trials, plain)?;
        }
        for candidate in start.candidates.iter().rev() {
            self.add(alloc, graphs, &trials, copied(candidate)?)?;
        }
        Ok(())
    }

    // Adds a candidate that agrees on vectors.
    fn add(
        &mut self,
        alloc: Global,
        graphs: &PairableGraphs<'_>,
        trials: &Trials,
        candidate: Matching,
    ) -> Result<(), AllocError>
        requires { AreTrials graphs.now.first trials.now }
    {
        match rated(alloc, graphs, trials, &candidate)? {
            Likely::Not => {}
            Likely::Near => self.near.push(candidate)?,
            Likely::Far => self.far.push(candidate)?,
        }
        Ok(())
    }

    /// Keeps a vector of the first circuit's inputs on which a matching failed, so that matchings that are guessed
    /// agree on it.
    pub fn keep(&mut self, vector: &Bits) -> Result<(), AllocError> {
        match &mut self.guesser {
            Some(guesser) => guesser.keep(vector),
            None => self.failed.push(vector.clone()?)?,
        }
        Ok(())
    }

    /// The next matching, whose outputs agree on all vectors that were tried. None where there are no more candidates,
    /// and none is guessed within this effort, which bounds what all guesses take together.
    pub fn next(
        &mut self,
        alloc: Global,
        graphs: &PairableGraphs<'a>,
        effort: Effort,
    ) -> Result<Option<Matching>, AllocError>
        ensures { IfOk result (λ found. IfSome found
            (λ matching. HavePorts graphs.now.first graphs.now.second matching.inputs matching.outputs)) }
    {
        if let Some(candidate) = self.near.pop() {
            return Ok(with_ports(graphs, candidate));
        }
        if let Some(matching) = self.guess(alloc, graphs, effort)? {
            return Ok(Some(matching));
        }
        if effort == Effort::Little {
            return Ok(None);
        }
        match self.far.pop() {
            Some(candidate) => Ok(with_ports(graphs, candidate)),
            None => Ok(None),
        }
    }

    // A matching that is guessed.
    fn guess(
        &mut self,
        alloc: Global,
        graphs: &PairableGraphs<'a>,
        effort: Effort,
    ) -> Result<Option<Matching>, AllocError>
        ensures { IfOk result (λ found. IfSome found
            (λ matching. HavePorts graphs.now.first graphs.now.second matching.inputs matching.outputs)) }
    {
        if self.guesser.is_none() {
            let mut guesser = Guesser::new(alloc, graphs, self.seed)?;
            for vector in self.failed.iter() {
                guesser.keep(vector);
            }
            self.guesser = Some(guesser);
        }
        match &mut self.guesser {
            Some(guesser) => guesser.guess(alloc, graphs, effort),
            None => Ok(None),
        }
    }
}

// A matching, where it is one of the circuits' ports.
fn with_ports(graphs: &PairableGraphs<'_>, matching: Matching) -> Option<Matching>
    ensures { IfSome result
        (λ matching. HavePorts graphs.now.first graphs.now.second matching.inputs matching.outputs) }
{
    let inputs = graphs.ports(PortKind::Input);
    let outputs = graphs.ports(PortKind::Output);
    if matching.check_shape(inputs, outputs) {
        return Some(matching);
    }
    None
}
