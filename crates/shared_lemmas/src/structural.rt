//! Queries that structure refutes.

ghost use Rattle.std.specs.Prelude.{◌≡◌, ◌∷◌, ◌++◌, [], false, IfOk};
ghost use Rattle.claim_core.specs.Formulas.{formula_of};
ghost use Rattle.joint_hash.specs.Merging.{AreClosedBy};
ghost use Rattle.ask_core.specs.Answers.{Asks, IsAskedIn, IsQuestion};

use ask_core::{Answer, Question};
use cnf_core::{Log, LogLine, Stop};
use items::Items;
use joint_hash::Refutation;
use query_core::Ledger;
use std::alloc::{AllocError, Global};

/// Answers a query by a refutation: its lemmas are those of the query's entry in the ledger, and the empty line is
/// charged.
pub(crate) fn answer_by(
    alloc: Global,
    question: &Question<'_>,
    refutation: Refutation,
    ledger: &mut Ledger,
) -> Result<Answer, Stop>
    requires question { IsQuestion question.now }
    requires closed { AreClosedBy (formula_of question.now.cones.now.graphs question.now.cones.now.query)
        refutation.lemmas.items refutation.last }
    requires not_spent { ledger.old.spent ≡ false }
    ensures { Asks IsAskedIn question.now.graphs.now question.now.query.now ledger.old ledger.new result }
{
    // it brings in which numbers those of the cones' clauses are
    let _ids = question.cones.ids();
    let Refutation { lemmas, last } = refutation;
    ledger.open(alloc, question.query, &lemmas)?;
    ledger.charge(&last)?;
    let log = log_of(lemmas, last)?;
    Ok(Answer::Refuted(log))
}

// The log of lemmas and of a last line.
fn log_of(lemmas: Vec<LogLine>, last: LogLine) -> Result<Log, AllocError>
    ensures { IfOk result (λ log. log.lines ≡ lemmas.items ++ last ∷ []) }
{
    let mut lines = lemmas;
    lines.push(last)?;
    Ok(Log {
        lines: Items::from_vec(lines),
    })
}
