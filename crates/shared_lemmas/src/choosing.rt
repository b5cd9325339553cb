//! Which lines a question gets.

ghost use Rattle.std.specs.Prelude.{◌≡◌, IfOk, length};

use crate::mark_hinted;
use ask_core::variable_in;
use bit_list::Marks;
use cnf_core::{Base, LogLine, SatLit};
use query_core::QueryBase;
use std::alloc::{AllocError, Global};

/// Marks of the lines over the variables of the clauses of these numbers, and of the lines that they rest on.
pub(crate) fn chosen(
    alloc: Global,
    base: &QueryBase<'_>,
    ids: &[u64],
    lines: &[LogLine],
) -> Result<Vec<bool>, AllocError>
    ensures { IfOk result (λ marked. length marked.items ≡ length lines.now) }
{
    let variables = variables_of(alloc, base, ids)?;
    let mut marked = marks_over(alloc, &variables, lines)?;
    mark_hinted(base.count(), lines, &mut marked);
    Ok(marked)
}

// Marks of the lines over marked variables.
fn marks_over(alloc: Global, variables: &Marks, lines: &[LogLine]) -> Result<Vec<bool>, AllocError>
    ensures { IfOk result (λ marked. length marked.items ≡ length lines.now) }
{
    let mut marked = Vec::with_capacity(alloc, lines.len())?;
    for line in lines.iter() {
        marked.push(is_over(&line.clause, variables))?;
    }
    Ok(marked)
}

// Whether a clause is over marked variables.
fn is_over(clause: &[SatLit], variables: &Marks) -> bool {
    clause.iter().all(|literal| is_marked(variables, *literal))
}

fn is_marked(variables: &Marks, literal: SatLit) -> bool {
    let variable = variable_in(literal);
    if variable < variables.len() as u64 {
        return variables.has(variable as usize);
    }
    false
}

// Marks of the variables of the clauses of these numbers.
fn variables_of(alloc: Global, base: &QueryBase<'_>, ids: &[u64]) -> Result<Marks, AllocError> {
    let mut marked = Marks::none(alloc, base.variables() as usize);
    for id in ids.iter() {
        mark_clause(alloc, base, *id, &mut marked)?;
    }
    Ok(marked)
}

// Marks the variables of the clause of a number.
fn mark_clause(
    alloc: Global,
    base: &QueryBase<'_>,
    id: u64,
    marked: &mut Marks,
) -> Result<(), AllocError> {
    if id >= base.count() {
        return Ok(());
    }
    let clause = base.clause(id);
    for literal in clause.literals().iter() {
        mark(alloc, *literal, marked)?;
    }
    Ok(())
}

fn mark(alloc: Global, literal: SatLit, marked: &mut Marks) -> Result<(), AllocError> {
    let variable = variable_in(literal);
    if variable < marked.len() as u64 {
        marked.mark(alloc, variable as usize)?;
    }
    Ok(())
}
