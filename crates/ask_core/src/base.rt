//! The clauses, and what is said about them in terms of the formula.

ghost use Rattle.std.specs.Prelude.{◌≡◌, ◌<◌, ◌^◌, ◌++◌, All, IfOk, map};
ghost use Rattle.cnf_core.specs.Clauses.{clause_at, AreKnown};
ghost use Rattle.cnf_core.specs.Derivations.{clauses_of};
ghost use Rattle.claim_core.specs.Formulas.{formula_of, query_clauses};
ghost use Rattle.ask_core.specs.Renamings.{AreShort, IsRenaming, dense_formula, numbers_of, renamed};

use crate::clauses::{all_clauses, over_names};
use crate::occurring::occurring_variables;
use cnf_core::{Base, Clause3, LogLine, SatLit};
use query_core::ConeClauses;
use std::alloc::{AllocError, Global};
use std::marker::Model;

/// Clauses of a formula and of lemmas over dense variables: those of the formula's variables that occur in them,
/// numbered from 0 on in the formula's order.
#[derive(Drop)]
pub struct DenseBase {
    /// The formula's variable that each dense variable stands for, ascending.
    names: Vec<u64>,
    clauses: Vec<Clause3>,
    /// The number that each clause has in the formula and the lemmas after it.
    numbers: Vec<u64>,
}

impl Model for DenseBase {
    ghost use Rattle.std.specs.Prelude.{map};
    ghost use Rattle.cnf_core.specs.Clauses.{literals_of};
    ghost use Rattle.ask_core.specs.Renamings.{Dense, IsDense};

    ghost Value = { Dense };

    ghost view = { λ a.
        record { names = a.names.items; clauses = map literals_of a.clauses.items; numbers = a.numbers.items } };

    ghost invariant = { λ a. IsDense a.names.items a.clauses.items };
}

impl DenseBase {
    /// The clauses of a query's cones, and those of lemmas.
    ///
    /// # Errors
    ///
    /// Only when out of memory.
    pub fn new(
        alloc: Global,
        cones: &ConeClauses<'_>,
        lemmas: &[LogLine],
    ) -> Result<DenseBase, AllocError>
        requires known { All (AreKnown (formula_of cones.now.graphs cones.now.query).variables)
            (clauses_of lemmas.now) }
        requires short { AreShort (clauses_of lemmas.now) }
        ensures renaming { IfOk result (λ dense. IsRenaming (dense_formula dense) dense.names dense.numbers
            (formula_of cones.now.graphs cones.now.query) lemmas.now) }
        ensures whole { IfOk result (λ dense.
            map (clause_at (query_clauses cones.now.graphs cones.now.query)) cones.now.ids ++ clauses_of lemmas.now
            ≡ map (map (renamed dense.names)) dense.clauses) }
    {
        let variables = cones.variables();
        let clauses = all_clauses(alloc, cones, lemmas)?;
        let names = occurring_variables(alloc, &clauses, variables)?;
        let clauses = over_names(alloc, &clauses, &names, variables)?;
        if clauses.len() as u64 >= 1 << 62 {
            return Err(AllocError);
        }
        let numbers = numbers_of(alloc, cones.ids(), cones.count(), lemmas.len())?;
        Ok(DenseBase {
            names,
            clauses,
            numbers,
        })
    }

    /// The formula's variable that each dense variable stands for, ascending.
    pub fn names(&self) -> &[u64]
        ensures names { result.now ≡ self.now.names }
        ensures few { All (λ v. v < 2 ^ 63) self.now.names }
    {
        &self.names
    }

    /// The number that each clause has in the formula and the lemmas after it.
    pub fn numbers(&self) -> &[u64]
        ensures { result.now ≡ self.now.numbers }
    {
        &self.numbers
    }
}

impl Base for DenseBase {
    ghost use Rattle.ask_core.specs.Renamings.{dense_formula as formula_in};

    ghost formula = { formula_in };

    fn variables(&self) -> u64 {
        self.names.len() as u64
    }

    fn count(&self) -> u64 {
        self.clauses.len() as u64
    }

    fn clause(&self, id: u64) -> Clause3 {
        self.clauses[id as usize]
    }
}

// The numbers of clauses of a formula that has so many in all, and those of n lemmas, which stand after all of these.
// No memory has as many clauses as the bounds, with which sums don't wrap.
fn numbers_of(alloc: Global, ids: &[u64], count: u64, lemmas: usize) -> Result<Vec<u64>, AllocError>
    requires count { count < 2 ^ 62 }
    requires lemmas { lemmas < 2 ^ 63 }
    ensures { IfOk result (λ numbers. numbers.items ≡ numbers_of ids.now count lemmas) }
{
    let mut numbers = Vec::from_slice(alloc, ids)?;
    for lemma in 0..lemmas {
        numbers.push(count + lemma as u64)?;
    }
    Ok(numbers)
}
