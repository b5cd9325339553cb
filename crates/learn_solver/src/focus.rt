ghost use Rattle.std.specs.Prelude.{◌≡◌, IfSome};
ghost use Rattle.trail_core.specs.Trails.{IsFree};

use crate::candidate::{Candidate, Operands, Part, is_false, is_free};
use cnf_core::SatLit;
use std::alloc::{AllocError, Global};
use trail_core::Trail;

/// The part of a question that a search is after: whether the two literals of a candidate can be true together. Only
/// what they are computed from is decided then: the checksum of 32 bits takes a tenth of the lines that it takes where
/// all variables are.
pub(crate) struct Focus {
    /// None: the whole question.
    pub(crate) candidate: Option<Candidate>,
    /// Whether all is assigned from which the literals are computed.
    pub(crate) exhausted: bool,
    /// Whether it is known what the literals are computed from. Most candidates are over once both literals are
    /// decided, and nothing is to be known of them: of a divider of 12 bits a question has 3,000, and gates as many.
    pub(crate) is_spread: bool,
    /// The gates of the question, each after its operands.
    gates: Vec<Operands>,
    parts: Vec<Part>,
    /// The number of the gate that each variable is of, and 1 more; 0 where it is of none.
    gate_numbers: Vec<usize>,
    /// The stamp of the last cone that each variable was in.
    stamps: Vec<u64>,
    /// The number of the present cone, by which nothing is to be cleared for the next one.
    stamp: u64,
    /// The variables from which the literals are computed, each once: the first `cone_len` of these.
    cone: Vec<u64>,
    cone_len: usize,
    /// What is decided before all other variables. All are gone over at each decision, since they are few.
    leading: Vec<SatLit>,
}

// By hand, so that each exit of a function has one call for it (docs/IDIOMS.md).
impl Drop for Focus {
    fn drop(self) {
        let Focus {
            candidate: _candidate,
            exhausted: _exhausted,
            is_spread: _is_spread,
            gates: _gates,
            parts: _parts,
            gate_numbers: _gate_numbers,
            stamps: _stamps,
            stamp: _stamp,
            cone: _cone,
            cone_len: _cone_len,
            leading: _leading,
        } = self;
    }
}

impl Focus {
    /// The whole question, over n variables.
    pub(crate) fn new(alloc: Global, variables: usize) -> Result<Focus, AllocError> {
        Ok(Focus {
            candidate: None,
            exhausted: false,
            is_spread: true,
            gates: Vec::new(alloc),
            parts: Vec::new(alloc),
            gate_numbers: vec![in alloc; 0; variables]?,
            stamps: vec![in alloc; 0; variables]?,
            stamp: 0,
            cone: vec![in alloc; 0; variables]?,
            cone_len: 0,
            leading: Vec::new(alloc),
        })
    }

    /// Widens the search to the whole question, in which these literals are decided before all other variables.
    pub(crate) fn widen(&mut self, leading: Vec<SatLit>) {
        self.candidate = None;
        self.is_spread = false;
        self.leading = leading;
    }

    /// The first of the literals that are decided before all other variables which isn't assigned. A literal over no
    /// variable of the trail is passed over.
    pub(crate) fn next_leading(&self, trail: &Trail, variables: usize) -> Option<SatLit>
        requires { variables ≡ trail.now.variables }
        ensures { IfSome result (IsFree trail.now) }
    {
        first_free(&self.leading, trail, variables)
    }

    /// The next literal to decide for the candidate: those that are to be true, then what is split on. None where there
    /// is none, or one that is to be true is false.
    pub(crate) fn next_of_candidate(&self, trail: &Trail, variables: usize) -> Option<SatLit>
        requires { variables ≡ trail.now.variables }
        ensures { IfSome result (IsFree trail.now) }
    {
        match self.candidate? {
            Candidate::Clash(clash) => clash.next(trail, variables),
            Candidate::Part(number) => self.next_of_part(number, trail, variables),
        }
    }

    // The next literal to decide for a part.
    fn next_of_part(&self, number: usize, trail: &Trail, variables: usize) -> Option<SatLit>
        requires { variables ≡ trail.now.variables }
        ensures { IfSome result (IsFree trail.now) }
    {
        if self.is_part_closed(number, trail) {
            return None;
        }
        let part = self.parts.get(number)?;
        let literal = first_free(&part.literals, trail, variables);
        if literal.is_some() {
            return literal;
        }
        first_free(&part.splits, trail, variables)
    }

    /// Whether a literal of the candidate that is to be true is false.
    pub(crate) fn is_closed(&self, trail: &Trail) -> bool {
        match self.candidate {
            Some(Candidate::Clash(clash)) => clash.is_closed(trail),
            Some(Candidate::Part(number)) => self.is_part_closed(number, trail),
            None => false,
        }
    }

    // Whether a literal of a part that is to be true is false, or there is no part of this number.
    fn is_part_closed(&self, number: usize, trail: &Trail) -> bool {
        match self.parts.get(number) {
            Some(part) => part
                .literals
                .iter()
                .any(|literal| is_false(trail, *literal)),
            None => true,
        }
    }

    /// Narrows the search to a candidate.
    pub(crate) fn narrow(&mut self, candidate: Candidate) {
        self.candidate = Some(candidate);
        self.exhausted = false;
        self.is_spread = false;
    }

    /// What the search is after may be over these gates, each of which stands after its operands, and is one of these
    /// parts.
    pub(crate) fn heed(&mut self, gates: Vec<Operands>, parts: Vec<Part>) {
        for (number, gate) in gates.iter().enumerate() {
            set(&mut self.gate_numbers, gate.gate, number.saturating_add(1));
        }
        self.gates = gates;
        self.parts = parts;
    }

    /// Finds the candidate's cone, if there is a candidate. It costs by that cone.
    pub(crate) fn spread(&mut self) {
        self.is_spread = true;
        self.cone_len = 0;
        self.stamp = self.stamp.saturating_add(1);
        // nothing but its literals is decided for a part
        if let Some(Candidate::Clash(clash)) = self.candidate {
            self.include(clash.one.variable());
            self.include(clash.other.variable());
            self.close_cone();
        }
    }

    // Takes a variable into the cone, unless it is there.
    fn include(&mut self, variable: u64) {
        if is_marked(&self.stamps, self.stamp, variable) {
            return;
        }
        mark(&mut self.stamps, self.stamp, variable);
        self.cone_len = put(&mut self.cone, self.cone_len, variable);
    }

    // Takes the operands of what is in the cone into it, and theirs.
    fn close_cone(&mut self) {
        for place in 0..self.cone.len() {
            let Some(variable) = self.cone_at(place) else {
                return;
            };
            self.include_operands(variable);
        }
    }

    // Takes the operands of the gate that a variable is of into the cone, if it is of one.
    fn include_operands(&mut self, variable: u64) {
        if let Some(gate) = self.gate_of(variable) {
            self.include(gate.first);
            self.include(gate.second);
        }
    }

    fn gate_of(&self, variable: u64) -> Option<Operands> {
        let number = self.gate_numbers.get(variable as usize)?.checked_sub(1)?;
        self.gates.get(number).copied()
    }

    fn cone_at(&self, place: usize) -> Option<u64> {
        self.cone().get(place).copied()
    }

    /// The candidate's cone.
    pub(crate) fn cone(&self) -> &[u64] {
        front(&self.cone, self.cone_len)
    }

    /// Whether a variable is to be decided: all are for the whole question, and for a candidate those from which its
    /// literals are computed. None is before that is known.
    pub(crate) fn has(&self, variable: u64) -> bool {
        self.is_spread & (self.candidate.is_none() || is_marked(&self.stamps, self.stamp, variable))
    }
}

// The first of these literals that isn't assigned. One over no variable of the trail is passed over.
fn first_free(literals: &[SatLit], trail: &Trail, variables: usize) -> Option<SatLit>
    requires { variables ≡ trail.now.variables }
    ensures { IfSome result (IsFree trail.now) }
{
    for literal in literals.iter() {
        if is_free(trail, variables, *literal) {
            return Some(*literal);
        }
    }
    None
}

// The first n of these.
fn front(variables: &[u64], count: usize) -> &[u64] {
    if count > variables.len() {
        return variables;
    }
    &variables[..count]
}

// Puts a variable at a place, and says which is the next. Where there is no such place nothing is put.
fn put(variables: &mut Vec<u64>, place: usize, variable: u64) -> usize {
    if place >= variables.len() {
        return place;
    }
    variables[place] = variable;
    place + 1
}

fn set(numbers: &mut Vec<usize>, variable: u64, number: usize) {
    if variable < numbers.len() as u64 {
        numbers[variable as usize] = number;
    }
}

fn is_marked(stamps: &[u64], stamp: u64, variable: u64) -> bool {
    match stamps.get(variable as usize) {
        Some(marked) => *marked == stamp,
        None => false,
    }
}

fn mark(stamps: &mut Vec<u64>, stamp: u64, variable: u64) {
    if variable < stamps.len() as u64 {
        stamps[variable as usize] = stamp;
    }
}
