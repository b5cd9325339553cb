//! The search over dense variables, in terms of the formula.

ghost use Rattle.std.specs.Prelude.{◌≡◌, ◌<◌, ◌^◌, All, IfOk, IfErr, true, false, length};
ghost use Rattle.cnf_core.specs.Derivations.{AreDerived, clauses_of};
ghost use Rattle.claim_core.specs.Formulas.{formula_of};
ghost use Rattle.learn_solver.specs.Solvers.{IsAsking, IsExtended, IsStopped};
ghost use Rattle.ask_core.specs.Renamings.{AreShort, IsRenaming, dense_formula};
ghost use Rattle.ask_core.specs.Solved.{IsDenseVerdict, IsOf, IsSettled, IsUnsettled, start_of, with_lines_of};

use crate::base::DenseBase;
use crate::dense_search::{solve_over_dense, solver_of};
use crate::tab::Tab;
use crate::translation::{charge_translated, verdict_of};
use crate::verdict::DenseVerdict;
use cnf_core::{Base, Charge, LogLine, Stop};
use query_core::ConeClauses;
use std::alloc::Global;
use watch_core::Watch;

/// Looks for a model of the clauses of a query's cones, with lemmas that are derived in order from the formula and have
/// one to three literals. The search is over the variables that occur in them alone, and costs by them, whatever else
/// the formula has. The lemmas are the lines of the ledger's open entry, and the tab has the ledger's budget, of which
/// as much is spent. What is learned is charged to the tab as it comes, and to the ledger, in terms of the formula,
/// when the search ends.
///
/// # Errors
///
/// `Spent` at a conflict that is met with the budget spent: its line is the ledger's refused one. Out of memory,
/// nothing is said of the ledger.
pub fn solve_dense<L: Charge, W: Watch>(
    alloc: Global,
    cones: &ConeClauses<'_>,
    lemmas: &[LogLine],
    tab: Tab<'_, W>,
    ledger: &mut L,
) -> Result<DenseVerdict, Stop>
    requires derived { AreDerived (formula_of cones.now.graphs cones.now.query) lemmas.now }
    requires short { AreShort (clauses_of lemmas.now) }
    requires asking { IsAsking (L.charging ledger.old) lemmas.now }
    requires same { IsOf tab (L.charging ledger.old) }
    ensures verdict { IfOk result
        (IsDenseVerdict (with_lines_of
        (start_of (formula_of cones.now.graphs cones.now.query) cones.now.ids lemmas.now) (L.charging ledger.new))) }
    ensures lines { IfOk result
        (λ _. IsExtended (start_of (formula_of cones.now.graphs cones.now.query) cones.now.ids lemmas.now)
        (with_lines_of
        (start_of (formula_of cones.now.graphs cones.now.query) cones.now.ids lemmas.now) (L.charging ledger.new))
        (L.charging ledger.old) (L.charging ledger.new)) }
    ensures not_spent { IfOk result (λ _. IsAsking (L.charging ledger.new) (L.charging ledger.new).lines) }
    ensures stop { IfErr result
        (IsStopped (start_of (formula_of cones.now.graphs cones.now.query) cones.now.ids lemmas.now)
        (with_lines_of
        (start_of (formula_of cones.now.graphs cones.now.query) cones.now.ids lemmas.now) (L.charging ledger.new))
        (L.charging ledger.old) (L.charging ledger.new)) }
{
    let dense = DenseBase::new(alloc, cones, lemmas)?;
    let mut tab = tab;
    search_dense(alloc, cones, &dense, lemmas, &mut tab, ledger)
}

// The search over dense variables. Its clauses are those of the cones, and then the lemmas.
fn search_dense<L: Charge, W: Watch>(
    alloc: Global,
    cones: &ConeClauses<'_>,
    dense: &DenseBase,
    lemmas: &[LogLine],
    tab: &mut Tab<'_, W>,
    ledger: &mut L,
) -> Result<DenseVerdict, Stop>
    requires renaming { IsRenaming (dense_formula dense.now) dense.now.names dense.now.numbers
        (formula_of cones.now.graphs cones.now.query) lemmas.now }
    requires few { length lemmas.now < 2 ^ 62 }
    requires opened { (L.charging ledger.old).opened ≡ true }
    requires not_spent { (L.charging ledger.old).spent ≡ false }
    requires same { IsOf tab.old (L.charging ledger.old) }
    ensures settled { IfOk result
        (IsSettled (dense_formula dense.now) dense.now.names dense.now.numbers
        (formula_of cones.now.graphs cones.now.query) lemmas.now
        (L.charging ledger.old) (L.charging ledger.new)) }
    ensures unsettled { IfErr result
        (IsUnsettled (dense_formula dense.now) dense.now.names dense.now.numbers
        (formula_of cones.now.graphs cones.now.query) lemmas.now
        (L.charging ledger.old) (L.charging ledger.new)) }
{
    // a formula has fewer than 2^62 clauses
    let _count = dense.count();
    let next = cones.count() + lemmas.len() as u64;
    let mut solver = solver_of(alloc, dense)?;
    match solve_over_dense(alloc, dense, cones.ids().len(), &mut solver, tab) {
        Ok(own) => {
            let found = solver.into_log();
            let lines = charge_translated(alloc, dense, next, &found.lines, ledger)?;
            let verdict = verdict_of(alloc, dense, cones.variables(), lemmas, lines, own)?;
            Ok(verdict)
        }
        Err(Stop::Spent(_)) => {
            let found = solver.into_log();
            // the solver's lines are one more than the budget has left, so that charging them stops before their end
            let _lines = charge_translated(alloc, dense, next, &found.lines, ledger)?;
            unreachable!()
        }
        Err(Stop::Memory) => Err(Stop::Memory),
    }
}
