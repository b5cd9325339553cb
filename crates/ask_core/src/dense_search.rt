//! The search over dense variables.

ghost use Rattle.std.specs.Prelude.{◌≡◌, [], true, false, IfOk, IfErr};
ghost use Rattle.ask_core.specs.Renamings.{dense_formula, numbers_of};
ghost use Rattle.ask_core.specs.Solved.{AreLearned, IsAll, IsFound, IsHalted};

use crate::base::DenseBase;
use crate::guiding::GatePairs;
use crate::tab::Tab;
use cnf_core::{Base, Stop};
use learn_solver::{Finding, Solver, solve_guided};
use std::alloc::{AllocError, Global};
use watch_core::Watch;

/// A solver for all clauses over dense variables, without a line.
pub(crate) fn solver_of(
    alloc: Global,
    dense: &DenseBase,
) -> Result<Solver<'_, DenseBase>, AllocError>
    ensures { IfOk result (IsAll (dense_formula dense.now)) }
{
    let numbers = places(alloc, dense.count())?;
    Solver::new(alloc, dense, &numbers, &[])
}

/// Looks for a model of clauses over dense variables, of which the first n say what the gates are.
pub(crate) fn solve_over_dense<W: Watch>(
    alloc: Global,
    dense: &DenseBase,
    gates: usize,
    solver: &mut Solver<'_, DenseBase>,
    tab: &mut Tab<'_, W>,
) -> Result<Finding, Stop>
    requires all { IsAll (dense_formula dense.now) solver.old }
    requires unlearned { tab.old.lines ≡ [] }
    requires not_spent { tab.old.spent ≡ false }
    requires opened { tab.old.opened ≡ true }
    ensures found { IfOk result (IsFound (dense_formula dense.now) solver.new.lines) }
    ensures learned { IfOk result (λ _. AreLearned (dense_formula dense.now) solver.new.lines) }
    ensures stop { IfErr result (IsHalted (dense_formula dense.now) solver.new.lines tab.old) }
{
    let gates = places(alloc, gates as u64)?;
    let mut guide = GatePairs {
        base: dense,
        ids: &gates,
    };
    solve_guided(alloc, solver, &mut guide, tab)
}

// The numbers from 0 on.
fn places(alloc: Global, count: u64) -> Result<Vec<u64>, AllocError>
    ensures { IfOk result (λ places. places.items ≡ numbers_of [] 0 count) }
{
    let mut places = Vec::new(alloc);
    for place in 0..count {
        places.push(place)?;
    }
    Ok(places)
}
