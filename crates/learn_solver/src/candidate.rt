//! Parts of a question that seem to be refuted.

ghost use Rattle.std.specs.Prelude.{◌≡◌, IsTrue, IfSome};
ghost use Rattle.trail_core.specs.Trails.{IsFree};

use cnf_core::SatLit;
use std::alloc::{AllocError, Global};
use trail_core::Trail;

/// What seems to be refuted. Whether it is is for the search to find out.
#[derive(Clone, Copy, Drop)]
pub enum Candidate {
    /// Two literals that seem never to be true together.
    Clash(Clash),
    /// The part of this number of the agenda.
    Part(usize),
}

/// Two literals that seem never to be true together, as those by which one gate would be true and another one not that
/// has the same value wherever it was looked at.
#[derive(Clone, Copy, Drop)]
pub struct Clash {
    pub one: SatLit,
    pub other: SatLit,
}

/// Literals that seem never to be true together, as those by which a sum of exclusive ors would be broken.
#[derive(Drop)]
pub struct Part {
    pub literals: Vec<SatLit>,
    /// What is decided after them, and nothing else is: what the summands share.
    pub splits: Vec<SatLit>,
}

/// The variable of a gate, and those of its operands.
#[derive(Clone, Copy, Drop)]
pub struct Operands {
    pub gate: u64,
    pub first: u64,
    pub second: u64,
}

/// What is looked at before a question.
#[derive(Drop)]
pub struct Agenda {
    /// The gates, each after its operands.
    pub gates: Vec<Operands>,
    pub parts: Vec<Part>,
    /// In the order in which they are looked at: best those first on which others rest.
    pub candidates: Vec<Candidate>,
    /// What is decided before all other variables, once the candidates were looked at: each of these literals is to be
    /// true first.
    pub leading: Vec<SatLit>,
}

/// Who has an agenda for a question. It is asked for once the question has taken some lines, so that an easy one costs
/// nothing more.
pub trait QuestionGuide {
    /// The agenda. No answer depends on it.
    ///
    /// # Errors
    ///
    /// Only when out of memory.
    fn agenda(&mut self, alloc: Global) -> Result<Agenda, AllocError>;

    /// The search is done with a candidate of the agenda, and has this many lines now, lemmas among them.
    ///
    /// # Errors
    ///
    /// Only when out of memory.
    fn done_with(&mut self, candidate: Candidate, lines: u64) -> Result<(), AllocError>;

    /// The search for the question itself has this many lines now, lemmas among them. This is called after each step,
    /// also after a decision, so it has to cost next to nothing.
    fn learned(&mut self, lines: u64);
}

/// Nothing on the agenda.
#[derive(Drop)]
pub struct Unguided;

impl QuestionGuide for Unguided {
    fn agenda(&mut self, alloc: Global) -> Result<Agenda, AllocError> {
        Ok(Agenda {
            gates: Vec::new(alloc),
            parts: Vec::new(alloc),
            candidates: Vec::new(alloc),
            leading: Vec::new(alloc),
        })
    }

    fn done_with(&mut self, candidate: Candidate, lines: u64) -> Result<(), AllocError> {
        let _ = (candidate, lines);
        Ok(())
    }

    fn learned(&mut self, lines: u64) {
        let _ = lines;
    }
}

impl Clash {
    /// The next of the two literals to decide, so that both become true. None where both are, or one is false. A
    /// literal over no variable of the trail is passed over.
    pub(crate) fn next(self, trail: &Trail, variables: usize) -> Option<SatLit>
        requires { variables ≡ trail.now.variables }
        ensures { IfSome result (IsFree trail.now) }
    {
        if self.is_closed(trail) {
            return None;
        }
        if is_free(trail, variables, self.one) {
            return Some(self.one);
        }
        if is_free(trail, variables, self.other) {
            return Some(self.other);
        }
        None
    }

    /// Whether one of the literals is false.
    pub(crate) fn is_closed(self, trail: &Trail) -> bool {
        is_false(trail, self.one) | is_false(trail, self.other)
    }
}

/// Whether a literal is false.
pub(crate) fn is_false(trail: &Trail, literal: SatLit) -> bool {
    matches!(trail.value(literal), Some(false))
}

/// Whether a literal is over an unassigned variable.
pub(crate) fn is_free(trail: &Trail, variables: usize, literal: SatLit) -> bool
    requires { variables ≡ trail.now.variables }
    ensures { IsTrue result → IsFree trail.now literal }
{
    (literal.variable() < variables as u64) & trail.value(literal).is_none()
}
