//! One question, asked.

ghost use Rattle.std.specs.Prelude.{◌≡◌, false, IfOk};
ghost use Rattle.claim_core.specs.Formulas.{formula_of};
ghost use Rattle.claim_core.specs.Queries.{IsQuery};
ghost use Rattle.joint_hash.specs.Merging.{AreLemmas};
ghost use Rattle.joint_hash.specs.Trees.{AreJoined};
ghost use Rattle.ask_core.specs.Answers.{Asks, IsAskedIn, IsPaidFor, IsQuestion, JoinsTrees};

use crate::vector::vector_of;
use crate::{DenseVerdict, Tab, solve_dense};
use claim_core::Query;
use cnf_core::{Log, LogLine, Stop};
use items::Items;
use joint_hash::merge;
use net_core::Graphs;
use query_core::{ConeClauses, Ledger};
use std::alloc::Global;
use watch_core::{Silent, Watch};

/// A query that fits two circuits, and the clauses of its cones.
#[derive(Clone, Copy)]
pub struct Question<'a> {
    pub graphs: &'a Graphs<'a>,
    pub query: &'a Query,
    pub cones: &'a ConeClauses<'a>,
}

/// An answer to a query.
#[derive(Debug, Drop)]
pub enum Answer {
    /// A vector on which the cones have the values that are asked for.
    Vector(Items<bool>),
    /// A log that refutes the query's clauses: there is no such vector.
    Refuted(Log),
}

/// Answers a query that fits two circuits by the clauses of its two cones, by lemmas that make gates of one structure
/// one, and, where it isn't answered soon, after looking at gates that seem to be equal. The ledger gets an entry for
/// it, in place of a last one for which nothing was learned: the lemmas, which cost nothing, since each takes one step
/// from the clauses of two gates and from lemmas before it, then one line for each conflict. A log that refutes has
/// these lines, so it says of gates that unfold to one tree that they are equal. Spent comes at a conflict that is met
/// with the budget spent; its line is kept as the refused one. When out of memory, nothing is said of the last entry.
/// One call learns at most 3^n lines over the n variables of the query's clauses.
pub fn ask(
    alloc: Global,
    graphs: &Graphs<'_>,
    query: &Query,
    ledger: &mut Ledger,
) -> Result<Answer, Stop>
    requires fits { IsQuery graphs.now query.now }
    requires not_spent { ledger.old.spent ≡ false }
    ensures asks { Asks IsAskedIn graphs.now query.now ledger.old ledger.new result }
    ensures joined { IfOk result (JoinsTrees graphs.now query.now) }
    ensures paid_for { IfOk result (IsPaidFor ledger.new) }
{
    ask_watched(alloc, graphs, query, ledger, &Silent)
}

/// As [`ask`], with a watcher that gets what is learned.
pub fn ask_watched<W: Watch>(
    alloc: Global,
    graphs: &Graphs<'_>,
    query: &Query,
    ledger: &mut Ledger,
    watch: &W,
) -> Result<Answer, Stop>
    requires fits { IsQuery graphs.now query.now }
    requires not_spent { ledger.old.spent ≡ false }
    ensures asks { Asks IsAskedIn graphs.now query.now ledger.old ledger.new result }
    ensures joined { IfOk result (JoinsTrees graphs.now query.now) }
    ensures paid_for { IfOk result (IsPaidFor ledger.new) }
{
    let cones = ConeClauses::new(alloc, graphs, query)?;
    let lemmas = merge(alloc, &cones)?;
    let question = Question {
        graphs,
        query,
        cones: &cones,
    };
    ask_cones(alloc, &question, &lemmas, ledger, watch)
}

// Answers a query by the clauses of its cones and by lemmas.
fn ask_cones<W: Watch>(
    alloc: Global,
    question: &Question<'_>,
    lemmas: &[LogLine],
    ledger: &mut Ledger,
    watch: &W,
) -> Result<Answer, Stop>
    requires question { IsQuestion question.now }
    requires lemmas { AreLemmas (formula_of question.now.cones.now.graphs question.now.cones.now.query) lemmas.now }
    requires joined { AreJoined question.now.cones.now.graphs question.now.cones.now.query lemmas.now }
    requires not_spent { ledger.old.spent ≡ false }
    ensures asks { Asks IsAskedIn question.now.graphs.now question.now.query.now ledger.old ledger.new result }
    ensures joined { IfOk result (JoinsTrees question.now.graphs.now question.now.query.now) }
    ensures paid_for { IfOk result (IsPaidFor ledger.new) }
{
    // the numbers are those of the cones' clauses
    let _ids = question.cones.ids();
    ledger.open(alloc, question.query, lemmas)?;
    let tab = Tab::new(alloc, ledger.budget(), ledger.learned(), watch);
    match solve_dense(alloc, question.cones, lemmas, tab, ledger)? {
        DenseVerdict::Model(values) => {
            let vector = vector_of(alloc, question.graphs, question.query, &values)?;
            Ok(Answer::Vector(vector))
        }
        DenseVerdict::Refuted(log) => Ok(Answer::Refuted(log)),
    }
}
