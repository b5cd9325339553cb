//! Which literals clauses have.

ghost use Rattle.std.specs.Prelude.{◌≡◌};
ghost use Rattle.cnf_core.specs.Derivations.{is_true, has_all};

use cnf_core::SatLit;

/// Whether a clause has all the literals of another.
pub(crate) fn has_all(clause: &[SatLit], other: &[SatLit]) -> bool
    ensures { result ≡ has_all clause.now other.now }
{
    other.iter().all(|literal| has(clause, *literal))
}

// Whether a clause has a literal.
fn has(clause: &[SatLit], literal: SatLit) -> bool
    ensures { result ≡ is_true clause.now literal }
{
    clause.iter().any(|other| literal == *other)
}
