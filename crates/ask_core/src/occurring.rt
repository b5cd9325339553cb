ghost use Rattle.std.specs.Prelude.{◌≡◌, ◌<◌, ◌^◌, ℕ, All, Contains, IfOk, OnOk, length};
ghost use Rattle.std.specs.List.Sorted.{IsNonDecreasing};
ghost use Rattle.cnf_core.specs.Clauses.{literals_of, variable_of, AreKnown};
ghost use Rattle.ask_core.specs.Renamings.{AreListed, AreMarks, AreNames, IsNamed, IsOver};

use bit_list::Marks;
use cnf_core::{Clause3, SatLit};
use std::alloc::{AllocError, Global};

/// The variables of clauses, ascending: the search looks first at those of the greatest numbers, as in the formula.
pub(crate) fn occurring_variables(
    alloc: Global,
    clauses: &[Clause3],
    variables: u64,
) -> Result<Vec<u64>, AllocError>
    requires { All (IsOver variables) clauses.now }
    ensures names { IfOk result (λ names. AreNames variables names.items) }
    ensures all { IfOk result (λ names. All (λ clause. IsNamed names.items (literals_of clause)) clauses.now) }
    ensures ascending { IfOk result (λ names. IsNonDecreasing names.items) }
{
    let mut marked = Marks::none(alloc, variables as usize);
    let mut names = Vec::new(alloc);
    list_clauses(alloc, clauses, &mut marked, &mut names)?;
    names.sort_unstable();
    Ok(names)
}

// Lists the variables of clauses as they come. None is marked at first.
fn list_clauses(
    alloc: Global,
    clauses: &[Clause3],
    marked: &mut Marks,
    names: &mut Vec<u64>,
) -> Result<(), AllocError>
    requires over { All (IsOver (length marked.old)) clauses.now }
    requires marks { AreMarks (length marked.old) names.old.items marked.old }
    ensures listed { OnOk result (AreListed (length marked.old) names.new.items) }
    ensures named { OnOk result (All (λ clause. IsNamed names.new.items (literals_of clause)) clauses.now) }
{
    for clause in clauses.iter() {
        list_all(alloc, clause.literals(), marked, names)?;
    }
    Ok(())
}

// Lists the variables of a clause that aren't marked yet, and marks them.
fn list_all(
    alloc: Global,
    clause: &[SatLit],
    marked: &mut Marks,
    names: &mut Vec<u64>,
) -> Result<(), AllocError>
    requires known { AreKnown (length marked.old) clause.now }
    requires marks { AreMarks (length marked.old) names.old.items marked.old }
    ensures marks { OnOk result (AreMarks (length marked.old) names.new.items marked.new) }
    ensures named { OnOk result (IsNamed names.new.items clause.now) }
    ensures stay { OnOk result ((v : ℕ) → Contains names.old.items v → Contains names.new.items v) }
{
    for literal in clause.iter() {
        list(alloc, variable_in(*literal), marked, names)?;
    }
    Ok(())
}

/// The variable that a literal reads.
pub fn variable_in(literal: SatLit) -> u64
    ensures value { result ≡ variable_of literal }
    ensures few { result < 2 ^ 63 }
{
    literal.variable()
}

// Lists a variable that isn't marked yet, and marks it.
fn list(
    alloc: Global,
    variable: u64,
    marked: &mut Marks,
    names: &mut Vec<u64>,
) -> Result<(), AllocError>
    requires known { variable < length marked.old }
    requires few { variable < 2 ^ 63 }
    requires marks { AreMarks (length marked.old) names.old.items marked.old }
    ensures marks { OnOk result (AreMarks (length marked.old) names.new.items marked.new) }
    ensures named { OnOk result (Contains names.new.items variable) }
    ensures stay { OnOk result ((v : ℕ) → Contains names.old.items v → Contains names.new.items v) }
{
    if marked.has(variable as usize) {
        return Ok(());
    }
    marked.mark(alloc, variable as usize)?;
    names.push(variable)?;
    Ok(())
}
