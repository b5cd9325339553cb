//! Partial assignments: the literals that are true in a propagation.

ghost use Rattle.std.specs.Prelude.{◌≡◌, ◌++◌, ◌∷◌, [], List, IfOk, OnOk, map};
ghost use Rattle.cnf_core.specs.declared.literal.SatLit.{SatLit as AnyLiteral};
ghost use Rattle.cnf_core.specs.Clauses.{opposite};
ghost use Rattle.cnf_core.specs.Derivations.{is_false, is_true};

use crate::literal::SatLit;
use std::alloc::{AllocError, Global};
use std::marker::Model;

/// A partial assignment, by the literals that were made true. The opposites of these are false, and all others are
/// open.
pub trait Assignment {
    /// The literals that were made true.
    ghost made: { Self → List AnyLiteral };

    /// Which literals may be asked for.
    ghost can_ask: { Self → AnyLiteral → Type 0 };

    /// Whether a literal is true.
    fn is_true(&self, literal: SatLit) -> bool
        requires { can_ask self.now literal }
        ensures { result ≡ is_true (made self.now) literal };

    /// Whether a literal is false.
    fn is_false(&self, literal: SatLit) -> bool
        requires { can_ask self.now literal }
        ensures { result ≡ is_false (made self.now) literal };
}

/// A partial assignment of few literals: each question goes over all of them.
#[derive(Drop)]
pub struct ShortAssignment {
    made: Vec<SatLit>,
}

impl Model for ShortAssignment {
    ghost use Rattle.std.specs.Prelude.{List};
    ghost use Rattle.cnf_core.specs.declared.literal.SatLit.{SatLit as AnyLiteral};

    ghost Value = { List AnyLiteral };

    ghost view = { λ a. a.made.items };
}

impl ShortAssignment {
    /// The assignment that makes all literals of a clause false.
    ///
    /// # Errors
    ///
    /// Only when out of memory.
    pub fn against(alloc: Global, clause: &[SatLit]) -> Result<ShortAssignment, AllocError>
        ensures { IfOk result (λ made. made ≡ map opposite clause.now) }
    {
        let made = opposites(alloc, clause)?;
        Ok(ShortAssignment { made })
    }

    /// Makes one literal more true.
    ///
    /// # Errors
    ///
    /// Only when out of memory.
    pub fn make(&mut self, literal: SatLit) -> Result<(), AllocError>
        ensures { OnOk result (self.new ≡ self.old ++ literal ∷ []) }
    {
        self.made.push(literal)?;
        Ok(())
    }
}

impl Assignment for ShortAssignment {
    ghost made = { λ made. made };

    ghost can_ask = { λ _ _. Unit {0} };

    fn is_true(&self, literal: SatLit) -> bool {
        is_among(&self.made, literal)
    }

    fn is_false(&self, literal: SatLit) -> bool {
        is_among(&self.made, literal.opposite())
    }
}

// Whether a literal is one of these.
fn is_among(literals: &[SatLit], literal: SatLit) -> bool
    ensures { result ≡ is_true literals.now literal }
{
    literals.iter().any(|other| literal == *other)
}

/// The opposites of a clause's literals.
///
/// # Errors
///
/// Only when out of memory.
pub fn opposites(alloc: Global, clause: &[SatLit]) -> Result<Vec<SatLit>, AllocError>
    ensures { IfOk result (λ literals. literals.items ≡ map opposite clause.now) }
{
    clause
        .iter()
        .map(|literal| literal.opposite())
        .collect(alloc)
}
