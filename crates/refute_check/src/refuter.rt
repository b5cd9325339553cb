ghost use Rattle.std.specs.Prelude.{ℕ, ◌≡◌, ◌++◌, ◌∷◌, [], None, IfOk, OnOk, OnErr, length};
ghost use Rattle.std.specs.List.{list_any};
ghost use Rattle.cnf_core.specs.Derivations.{is_empty, line_fault};
ghost use Rattle.cnf_core.specs.Stores.{HasRoom};
ghost use Rattle.refute_check.specs.Refutations.{answer_of, ends_empty};

use crate::propagation::derive;
use crate::values::Values;
use cnf_core::{Base, ClauseStore, LineFault, LogLine};
use std::alloc::{AllocError, Global};
use std::marker::Model;

/// Takes the lines of a log one by one, each where it is derived from a formula and from the lines taken before it.
#[derive(Drop)]
pub struct Refuter<B: Base> {
    base: B,
    taken: ClauseStore,
    values: Values,
    /// Whether the last line is empty.
    closed: bool,
}

impl<B: Base> Model for Refuter<B> {
    ghost use Rattle.refute_check.specs.Refutations.{Refuting, refuting_code, IsRefuter};

    ghost Value = { Refuting B };

    ghost coded = { refuting_code B.code };

    ghost view = { λ a. record { base = a.base; taken = a.taken.clauses; room = a.taken.room } };

    ghost invariant = { λ a. IsRefuter (B.formula a.base) a.taken a.values a.closed };
}

impl<B: Base + Drop> Refuter<B> {
    /// No line was taken, and there is no room for one.
    pub fn new(alloc: Global, base: B) -> Result<Refuter<B>, AllocError>
        ensures { IfOk result (λ refuter. refuter ≡ record { base = base; taken = []; room = None }) }
    {
        let values = Values::new(alloc, base.variables())?;
        Ok(Refuter {
            base,
            taken: ClauseStore::new(alloc),
            values,
            closed: false,
        })
    }

    /// Switches to another base of as many variables. The lines that were taken stay, and so does the room.
    pub fn set_base(&mut self, base: B)
        requires { (B.formula base).variables ≡ (B.formula self.old.base).variables }
        ensures base { self.new.base ≡ base }
        ensures taken { self.new.taken ≡ self.old.taken }
        ensures room { self.new.room ≡ self.old.room }
    {
        self.base = base;
    }
}

impl<B: Base> Refuter<B> {
    /// The base.
    pub fn base(&self) -> &B
        ensures { result.now ≡ self.now.base }
    {
        &self.base
    }

    /// No line was taken, and there is no room for one; the values are those of a refuter over as many variables.
    pub fn with_values(alloc: Global, base: B, values: Values) -> Refuter<B>
        requires { values ≡ record { variables = (B.formula base).variables; made = [] } }
        ensures { result ≡ record { base = base; taken = []; room = None } }
    {
        Refuter {
            base,
            taken: ClauseStore::new(alloc),
            values,
            closed: false,
        }
    }

    /// The base, and the values, with which another log over as many variables is checked without memory.
    pub fn into_parts(self) -> (B, Values)
        ensures base { result.0 ≡ self.base }
        ensures values { result.1 ≡ record { variables = (B.formula self.base).variables; made = [] } }
    {
        let Refuter {
            base,
            taken: _,
            values,
            closed: _,
        } = self;
        (base, values)
    }

    /// Makes room for a line of at least n literals. The lines stay, a larger room stays, and a refusal changes
    /// nothing.
    pub fn reserve(&mut self, literals: usize) -> Result<(), AllocError>
        ensures base { self.new.base ≡ self.old.base }
        ensures taken { self.new.taken ≡ self.old.taken }
        ensures room { OnOk result (HasRoom self.new.room literals) }
        ensures larger { (most : ℕ) → HasRoom self.old.room most → HasRoom self.new.room most }
        ensures refused { OnErr result (self.new ≡ self.old) }
    {
        self.taken.reserve(literals)
    }

    /// Takes a line, for which there is room, exactly where it is derived, and answers its first fault otherwise. A
    /// line that is taken uses up the room; one that is refused changes nothing. Neither takes memory.
    pub fn line(&mut self, line: &LogLine) -> Result<(), LineFault>
        requires { HasRoom self.old.room (length line.now.clause) }
        ensures answer { result ≡ answer_of (line_fault (B.formula self.old.base) self.old.taken line.now) }
        ensures taken { OnOk result (self.new ≡ record {
          base = self.old.base;
          taken = self.old.taken ++ line.now.clause ∷ [];
          room = None;
        }) }
        ensures refused { OnErr result (self.new ≡ self.old) }
    {
        if self.closed {
            return Err(LineFault::Closed);
        }
        let answer = derive(&self.base, &self.taken, &mut self.values, line);
        self.values.clear();
        answer?;
        self.taken.put_reserved(&line.clause);
        self.closed = line.clause.is_empty();
        Ok(())
    }

    /// Whether the last line taken is empty: the formula is refuted. No other line is.
    pub fn closed(&self) -> bool
        ensures last { result ≡ ends_empty self.now.taken }
        ensures any { result ≡ list_any is_empty self.now.taken }
    {
        self.closed
    }
}
