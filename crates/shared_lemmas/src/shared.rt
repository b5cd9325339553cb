//! Questions that share what they learn.

ghost use Rattle.std.specs.Prelude.{◌≡◌, ◌∷◌, [], List, false, All, IsTrue, IfOk, OnOk};
ghost use Rattle.claim_core.specs.Formulas.{formula_of};
ghost use Rattle.claim_core.specs.Queries.{IsQuery};
ghost use Rattle.query_core.specs.declared.ledger.Asked.{Asked};
ghost use Rattle.ask_core.specs.Answers.{Asks, IsAnswer, IsAskedWith, IsQuestion};
ghost use Rattle.shared_lemmas.specs.Parts.{MayGoOn};
ghost use Rattle.shared_lemmas.specs.Shared.{AreLogPaid, ArePaidIn, AreShared, HoldUnder, IsAskedBy, IsPaid, IsUnder};

use crate::feeds::have_same_feeds;
use crate::guiding::{QuestionPairs, Reporter};
use crate::keeping::keep;
use crate::lemmas::{Lemmas, lemmas_for};
use crate::stock::Stock;
use crate::structural::answer_by;
use crate::trim_answer;
use ask_core::{Answer, Question, ask_guided, ask_watched};
use claim_core::Query;
use cnf_core::Stop;
use joint_hash::refute;
use learn_solver::QuestionGuide;
use net_core::Graphs;
use query_core::{ConeClauses, Ledger, QueryBase};
use std::alloc::{AllocError, Global};
use std::marker::Model;
use watch_core::Watch;

/// A search over the formula's variables costs by the circuits. From this many clauses on, some 10,000 gates in either
/// circuit, that is more than a question of small cones takes by itself.
const LARGE_FORMULA: u64 = 60_000;

/// Cones are small that have at most one of this many clauses. Of 8 adders of 64 bits side by side, questions that
/// structure answers take 1.3 times as long shared as alone, and others 0.4 times; of 24 adders, 2 and 0.6 times.
const SMALL_PART: u64 = 8;

/// How many lines questions may get as lemmas in a run. Each is copied for its question, 250 bytes or so, which are
/// free again once that is answered: all of them take some seconds. A sorter of 64 numbers gets 400,000, a code of 57
/// bits that is corrected millions.
const MOST_GIVEN: u64 = 1 << 23;

/// What questions about two circuits have learned, for later ones under the same feeds: as those about the outputs of
/// one matching. Contracts see it as the circuits, the query that was asked last, and the lines.
#[derive(Drop)]
pub struct SharedLemmas<'a> {
    graphs: &'a Graphs<'a>,
    stock: Stock,
}

impl<'a> Model for SharedLemmas<'a> {
    ghost use Rattle.shared_lemmas.specs.Shared.{AreShared as AreKept, Sharing};

    ghost Value = { Sharing };

    ghost view = { λ a. record {
      graphs = a.graphs.now;
      last_query = a.stock.last_query.items;
      lines = a.stock.lines.items;
    } };

    ghost invariant = { λ a. AreKept a.graphs.now a.stock.last_query.items a.stock.lines.items };
}

impl<'a> SharedLemmas<'a> {
    /// Nothing was learned.
    pub fn new(alloc: Global, graphs: &'a Graphs<'a>) -> SharedLemmas<'a>
        ensures { result ≡ record { graphs = graphs.now; last_query = []; lines = [] } }
    {
        SharedLemmas {
            graphs,
            stock: Stock::new(alloc, 0),
        }
    }

    /// Answers a query that fits the circuits, by what was learned under its feeds too, which are the first lemmas of
    /// its entry in the ledger. Where the lines that are kept were paid for in this ledger, so were these lemmas, but
    /// for those of joint hashing, and what is kept afterwards. The log of a refutation has what its last line rests
    /// on, and no more.
    ///
    /// # Errors
    ///
    /// As for `ask_guided`.
    pub fn ask<W: Watch>(
        &mut self,
        alloc: Global,
        query: &Query,
        ledger: &mut Ledger,
        watch: &W,
    ) -> Result<Answer, Stop>
        requires fits { IsQuery self.old.graphs query.now }
        requires not_spent { ledger.old.spent ≡ false }
        ensures same { self.new.graphs ≡ self.old.graphs }
        ensures asks { Asks (IsAskedBy (ArePaidIn self.old)) self.old.graphs query.now ledger.old ledger.new result }
        ensures paid { ArePaidIn self.old ledger.old.asked → OnOk result (ArePaidIn self.new ledger.new.asked) }
    {
        ask_sharing(alloc, self.graphs, query, &mut self.stock, ledger, watch)
    }
}

// Answers a query, by the lines of a stock that are derived under its feeds, and adds to these.
fn ask_sharing<W: Watch>(
    alloc: Global,
    graphs: &Graphs<'_>,
    query: &Query,
    stock: &mut Stock,
    ledger: &mut Ledger,
    watch: &W,
) -> Result<Answer, Stop>
    requires fits { IsQuery graphs.now query.now }
    requires shared { AreShared graphs.now stock.old.last_query.items stock.old.lines.items }
    requires not_spent { ledger.old.spent ≡ false }
    ensures shared { AreShared graphs.now stock.new.last_query.items stock.new.lines.items }
    ensures asks { Asks (IsAskedBy (ArePaidIn (record {
      graphs = graphs.now;
      last_query = stock.old.last_query.items;
      lines = stock.old.lines.items;
    }))) graphs.now query.now ledger.old ledger.new result }
    ensures paid { ArePaidIn (record {
      graphs = graphs.now;
      last_query = stock.old.last_query.items;
      lines = stock.old.lines.items;
    }) ledger.old.asked
        → OnOk result (ArePaidIn (record {
          graphs = graphs.now;
          last_query = stock.new.last_query.items;
          lines = stock.new.lines.items;
        }) ledger.new.asked) }
{
    keep_lines_under(alloc, graphs, query, stock)?;
    let cones = ConeClauses::new(alloc, graphs, query)?;
    let question = Question {
        graphs,
        query,
        cones: &cones,
    };
    let answer = ask_cones(alloc, &question, stock, ledger, watch)?;
    Ok(trim_answer(alloc, graphs, query, answer)?)
}

// Whether the clauses of cones are few beside those of large circuits.
fn are_small(cones: &ConeClauses<'_>) -> bool {
    let count = cones.count();
    (count >= LARGE_FORMULA) & (cones.ids().len() as u64 <= count / SMALL_PART)
}

// Answers a query by itself, by structure, or by a stock whose lines are derived under its feeds, and adds to it.
fn ask_cones<W: Watch>(
    alloc: Global,
    question: &Question<'_>,
    stock: &mut Stock,
    ledger: &mut Ledger,
    watch: &W,
) -> Result<Answer, Stop>
    requires question { IsQuestion question.now }
    requires hold { HoldUnder question.now.graphs.now question.now.query.now stock.old.lines.items }
    requires not_spent { ledger.old.spent ≡ false }
    ensures last_query { stock.new.last_query ≡ stock.old.last_query }
    ensures hold { HoldUnder question.now.graphs.now question.now.query.now stock.new.lines.items }
    ensures asks { Asks (IsAskedBy (λ asked.
        All (IsPaid question.now.graphs.now question.now.query.now asked) stock.old.lines.items))
        question.now.graphs.now question.now.query.now ledger.old ledger.new result }
    ensures paid { All (IsPaid question.now.graphs.now question.now.query.now ledger.old.asked) stock.old.lines.items
        → OnOk result
        (All (IsPaid question.now.graphs.now question.now.query.now ledger.new.asked) stock.new.lines.items) }
{
    if are_small(question.cones) | (stock.given > MOST_GIVEN) {
        return ask_watched(alloc, question.graphs, question.query, ledger, watch);
    }
    if let Some(refutation) = refute(alloc, question.cones)? {
        return answer_by(alloc, question, refutation, ledger);
    }
    let base = QueryBase::new(alloc, question.graphs, question.query)?;
    let lemmas = lemmas_for(alloc, question.cones, &base, stock)?;
    let given = lemmas.lines.len() as u64;
    stock.given = stock.given.saturating_add(given);
    let mut guide = QuestionPairs {
        base: &base,
        ids: question.cones.ids(),
        reporter: Reporter::new(ledger, given, watch),
    };
    ask_by(alloc, question, &lemmas, &mut guide, stock, ledger)
}

// Answers a query by these lemmas, and adds to the stock. A guide says what is looked at first.
fn ask_by<G: QuestionGuide>(
    alloc: Global,
    question: &Question<'_>,
    lemmas: &Lemmas,
    guide: &mut G,
    stock: &mut Stock,
    ledger: &mut Ledger,
) -> Result<Answer, Stop>
    requires question { IsQuestion question.now }
    requires lemmas { MayGoOn (formula_of question.now.graphs.now question.now.query.now) lemmas.now.lines.items }
    requires hold { HoldUnder question.now.graphs.now question.now.query.now stock.old.lines.items }
    requires not_spent { ledger.old.spent ≡ false }
    ensures last_query { stock.new.last_query ≡ stock.old.last_query }
    ensures hold { HoldUnder question.now.graphs.now question.now.query.now stock.new.lines.items }
    ensures asks { Asks (IsAskedWith lemmas.now.lines.items) question.now.graphs.now question.now.query.now
        ledger.old ledger.new result }
    ensures paid { All (IsPaid question.now.graphs.now question.now.query.now ledger.old.asked) lemmas.now.lines.items
        → All (IsPaid question.now.graphs.now question.now.query.now ledger.old.asked) stock.old.lines.items
        → OnOk result
        (All (IsPaid question.now.graphs.now question.now.query.now ledger.new.asked) stock.new.lines.items) }
{
    let lines = &lemmas.lines;
    let answer = ask_guided(alloc, question, lines, guide, ledger)?;
    Ok(finish(alloc, question.cones, answer, &lemmas.numbers, stock)?)
}

// What is answered. Lines of a refutation that serve other outputs too are kept.
fn finish(
    alloc: Global,
    cones: &ConeClauses<'_>,
    answer: Answer,
    listed: &[Option<u64>],
    stock: &mut Stock,
) -> Result<Answer, AllocError>
    requires answer { IsAnswer cones.now.graphs cones.now.query answer }
    requires hold { HoldUnder cones.now.graphs cones.now.query stock.old.lines.items }
    ensures last_query { stock.new.last_query ≡ stock.old.last_query }
    ensures hold { HoldUnder cones.now.graphs cones.now.query stock.new.lines.items }
    ensures answer { IfOk result (IsAnswer cones.now.graphs cones.now.query) }
    ensures paid { (asked : List Asked)
        → AreLogPaid cones.now.graphs cones.now.query asked answer
        → All (IsPaid cones.now.graphs cones.now.query asked) stock.old.lines.items
        → OnOk result (All (IsPaid cones.now.graphs cones.now.query asked) stock.new.lines.items) }
{
    match answer {
        Answer::Vector(vector) => Ok(Answer::Vector(vector)),
        Answer::Refuted(log) => {
            keep(alloc, cones, &log.lines, listed, stock)?;
            Ok(Answer::Refuted(log))
        }
    }
}

// Lets the lines go where they are derived under other feeds than a query's.
fn keep_lines_under(
    alloc: Global,
    graphs: &Graphs<'_>,
    query: &Query,
    stock: &mut Stock,
) -> Result<(), AllocError>
    requires shared { AreShared graphs.now stock.old.last_query.items stock.old.lines.items }
    ensures shared { AreShared graphs.now stock.new.last_query.items stock.new.lines.items }
    ensures own { OnOk result (stock.new.last_query.items ≡ query.now ∷ []) }
    ensures hold { OnOk result (HoldUnder graphs.now query.now stock.new.lines.items) }
    ensures paid { (asked : List Asked)
        → ArePaidIn (record {
          graphs = graphs.now;
          last_query = stock.old.last_query.items;
          lines = stock.old.lines.items;
        }) asked
        → OnOk result (All (IsPaid graphs.now query.now asked) stock.new.lines.items) }
{
    let own = only(alloc, query)?;
    if is_under(query, &stock.last_query) {
        stock.last_query = own;
        return Ok(());
    }
    *stock = Stock::new(alloc, stock.given);
    stock.last_query = own;
    Ok(())
}

// A query alone.
fn only(alloc: Global, query: &Query) -> Result<Vec<Query>, AllocError>
    ensures { IfOk result (λ queries. queries.items ≡ query.now ∷ []) }
{
    let mut queries = Vec::new(alloc);
    queries.push(query.copy()?)?;
    Ok(queries)
}

// Whether a query has the feeds of the query that was asked last, if there is one.
fn is_under(query: &Query, last: &[Query]) -> bool
    ensures { IsTrue result → IsUnder query.now last.now }
{
    if last.is_empty() {
        return false;
    }
    have_same_feeds(&last[0], query)
}
