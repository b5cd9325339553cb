//! One question, asked with lemmas of any length.

ghost use Rattle.std.specs.Prelude.{◌≡◌, false, IfOk};
ghost use Rattle.std.specs.List.{list_any};
ghost use Rattle.cnf_core.specs.Derivations.{AreDerived, clauses_of, is_empty};
ghost use Rattle.claim_core.specs.Formulas.{formula_of};
ghost use Rattle.ask_core.specs.Answers.{Asks, IsAskedWith, IsPaidFor, IsQuestion};

use crate::question::{Answer, Question};
use crate::vector::vector_of;
use bit_list::Marks;
use cnf_core::{LogLine, Stop};
use learn_solver::{Finding, QuestionGuide, Solver, solve_guided};
use query_core::{Ledger, QueryBase};
use std::alloc::Global;

/// Answers a query that fits two circuits by the clauses of its cones and by lemmas that are derived in order from its
/// formula, none of them empty. The search is over the formula's variables, so it costs by the circuits; a guide says
/// what is looked at first. The ledger gets an entry for it, in place of a last one for which nothing was learned: the
/// lemmas, which cost nothing, then one line for each conflict. What the lemmas are is the caller's to say. A log that
/// refutes has the lines of the entry. One call learns at most 3^n lines over the n variables of the query's clauses.
///
/// # Errors
///
/// `Spent` at a conflict that is met with the budget spent; its line is kept as the refused one. When out of memory,
/// nothing is said of the last entry.
pub fn ask_guided<G: QuestionGuide>(
    alloc: Global,
    question: &Question<'_>,
    lemmas: &[LogLine],
    guide: &mut G,
    ledger: &mut Ledger,
) -> Result<Answer, Stop>
    requires question { IsQuestion question.now }
    requires derived { AreDerived (formula_of question.now.graphs.now question.now.query.now) lemmas.now }
    requires unclosed { list_any is_empty (clauses_of lemmas.now) ≡ false }
    requires not_spent { ledger.old.spent ≡ false }
    ensures asks { Asks (IsAskedWith lemmas.now) question.now.graphs.now question.now.query.now
        ledger.old ledger.new result }
    ensures paid_for { IfOk result (IsPaidFor ledger.new) }
{
    ledger.open(alloc, question.query, lemmas)?;
    let base = QueryBase::new(alloc, question.graphs, question.query)?;
    let mut solver = Solver::new(alloc, &base, question.cones.ids(), lemmas)?;
    match solve_guided(alloc, &mut solver, guide, ledger)? {
        Finding::Model(values) => {
            let values = Marks::from_table(values.into_vec());
            let vector = vector_of(alloc, question.graphs, question.query, &values)?;
            Ok(Answer::Vector(vector))
        }
        Finding::Refuted => Ok(Answer::Refuted(solver.into_log())),
    }
}
