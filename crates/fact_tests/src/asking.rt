//! Queries, decided at the cost of a ledger.

ghost use Rattle.std.specs.Prelude.{◌≡◌, ◌+◌, ◌*◌, ◌^◌, ◌<◌, [], ◌∷◌, false, IfOk};
ghost use Rattle.net_core.specs.Sides.{graph_of};
ghost use Rattle.claim_core.specs.Claims.{IsClaim};
ghost use Rattle.claim_core.specs.Queries.{IsQuery};
ghost use Rattle.ask_core.specs.Answers.{IsAnswer};
ghost use Rattle.fact_tests.specs.Asking.{Decides, DecidesClaim};
ghost use Rattle.fact_tests.specs.Supports.{IsOutside};

use account_core::Evidence;
use ask_core::{Answer, ask_watched};
use claim_core::{Claim, Query, of_claim};
use cnf_core::{Log, LogLine, Stop};
use items::Items;
use net_core::Graphs;
use query_core::Ledger;
use shared_lemmas::{SharedLemmas, trim_answer};
use std::alloc::{AllocError, Global};
use watch_core::Watch;

/// Finds a vector that meets a query, or a log that refutes it: the lines that its last one rests on, and that line. A
/// fact is kept as long as the run goes on, and most of what is learned was tried in vain.
pub(crate) fn answer_to<W: Watch>(
    alloc: Global,
    graphs: &Graphs<'_>,
    query: &Query,
    ledger: &mut Ledger,
    watch: &W,
) -> Result<Answer, Stop>
    requires fits { IsQuery graphs.now query.now }
    requires unspent { ledger.old.spent ≡ false }
    ensures { Decides (IsAnswer graphs.now query.now) graphs.now query.now ledger.old ledger.new result }
{
    let answer = ask_watched(alloc, graphs, query, ledger, watch)?;
    Ok(trim_answer(alloc, graphs, query, answer)?)
}

/// Finds a vector that meets a query, or a log that refutes it, by what earlier queries under the same feeds have
/// learned.
pub(crate) fn shared_answer_to<W: Watch>(
    alloc: Global,
    shared: &mut SharedLemmas<'_>,
    query: &Query,
    ledger: &mut Ledger,
    watch: &W,
) -> Result<Answer, Stop>
    requires fits { IsQuery shared.old.graphs query.now }
    requires unspent { ledger.old.spent ≡ false }
    ensures same { shared.new.graphs ≡ shared.old.graphs }
    ensures decides { Decides (IsAnswer shared.old.graphs query.now) shared.old.graphs query.now
        ledger.old ledger.new result }
{
    shared.ask(alloc, query, ledger, watch)
}

/// That a claim holds whose output reaches none of the shape's inputs. The clauses of the query's two outputs are
/// opposites, and the empty line follows from them. It costs one unit of the budget.
pub(crate) fn by_structure(
    alloc: Global,
    graphs: &Graphs<'_>,
    claim: &Claim,
    ledger: &mut Ledger,
) -> Result<Evidence, Stop>
    requires placed { IsClaim graphs.now claim.now }
    requires outside { IsOutside (graph_of graphs.now claim.now.side) claim.now.output claim.now.shape }
    requires unspent { ledger.old.spent ≡ false }
    ensures { DecidesClaim graphs.now claim.now ledger.old ledger.new result }
{
    // the gates of a graph are in order, and its ports fewer than 2^32
    let _first = graphs.first();
    let _second = graphs.second();
    let query = of_claim(alloc, graphs, claim)?;
    let gates = graphs.side(claim.side).gates().len() as u64;
    let line = line_of_outputs(alloc, gates)?;
    ledger.open(alloc, &query, &[])?;
    ledger.charge(&line)?;
    let log = log_of(alloc, line)?;
    Ok(Evidence::Holds(log))
}

/// The empty line, by the clauses of the two outputs, which are the last ones of a query of n gates on either
/// side.
fn line_of_outputs(alloc: Global, gates: u64) -> Result<LogLine, AllocError>
    requires { gates < 2 ^ 32 }
    ensures { IfOk result (λ line. line ≡ record { clause = []; hints = (1 + 6 * gates) ∷ (1 + 6 * gates + 1) ∷ [] }) }
{
    let first = 1 + 6 * gates;
    let hints = Items::from_slice(alloc, &[first, first + 1])?;
    Ok(LogLine {
        clause: Items::new(alloc),
        hints,
    })
}

/// A log of one line.
fn log_of(alloc: Global, line: LogLine) -> Result<Log, AllocError>
    ensures { IfOk result (λ log. log.lines ≡ line ∷ []) }
{
    let mut lines = Items::with_capacity(alloc, 1)?;
    lines.push(line)?;
    Ok(Log { lines })
}
