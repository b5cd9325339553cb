ghost use Rattle.std.specs.Prelude.{◌≡◌, ◌<◌, ◌≤◌, ◌^◌, All, length};
ghost use Rattle.cnf_core.specs.Clauses.{Formula, clause_at, literals_of, variable_of};

use crate::clause::Clause3;

/// A formula in conjunctive normal form that gives its clauses by their numbers. It gives the same ones at each call.
pub trait Base {
    /// The formula: how many variables there are, and the clauses.
    ghost formula: { Self → Formula };

    /// How many variables there are.
    fn variables(&self) -> u64
        ensures { result ≡ (formula self.now).variables };

    /// How many clauses there are: fewer than 2^62, so that each line of a log has a number.
    fn count(&self) -> u64
        ensures value { result ≡ length (formula self.now).clauses }
        ensures few { result < 2 ^ 62 };

    /// The clause of a number.
    fn clause(&self, id: u64) -> Clause3
        requires { id < length (formula self.now).clauses }
        ensures value { literals_of result ≡ clause_at (formula self.now).clauses id }
        ensures some { 1 ≤ result.len }
        ensures short { result.len ≤ 3 }
        ensures variables { All (λ literal. variable_of literal < (formula self.now).variables) (literals_of result) };
}
