//! The pair of netlists that a number gives: a match of it is sought, and the account of the match checked.

ghost use Rattle.std.specs.Prelude.{◌≡◌, IfOk, IfErr};
ghost use Rattle.circuits.specs.Matches.{HaveNpnpEqualFunctions};
ghost use Rattle.run_steps.specs.Make.{IsPairOf};
ghost use Rattle.account_write.specs.Records.{account_of, records_of};
ghost use Rattle.check_steps.specs.Words.{default_budget};
ghost use Rattle.run_steps.specs.Steps.{IsProvedMatch, IsStopWithin, Tries};

use crate::matching::solve_by_search;
use account_check::{CheckStop, Verdict, check};
use account_core::PairableGraphs;
use account_write::{Account, last_line};
use check_steps::{DEFAULT_BUDGET, DEFAULT_SEED, Ending, Outcome, Trial, report_line};
use gen_pair::{GenPair, make};
use items::Items;
use match_search::SearchStart;
use net_core::Graphs;
use std::alloc::{AllocError, Global};
use text_core::put_all;
use watch_core::Watch;

/// Makes the pair of a number, looks for a match of it with the default budget and seed, writes the account of the
/// match in memory, and checks it. The error is an outcome whose report is one line: the budget was spent, or memory
/// ran out.
pub fn try_pair<W: Watch>(alloc: Global, trial: &Trial, watch: &W) -> Result<Ending, Outcome>
    ensures { Tries trial.now.number result }
{
    let pair = make(alloc, trial.number)?;
    try_of(alloc, trial.number, &pair, watch)
}

/// Tries the pair of a number.
fn try_of<W: Watch>(
    alloc: Global,
    number: u64,
    pair: &GenPair,
    watch: &W,
) -> Result<Ending, Outcome>
    requires { IsPairOf number pair.now.first.graph pair.now.second.graph pair.now.hidden }
    ensures { Tries number result }
{
    let graphs = Graphs::new(&pair.first.graph, &pair.second.graph);
    let Some(pairable) = PairableGraphs::new(&graphs) else {
        unreachable!()
    };
    let account = prove_match(alloc, &pairable, watch)?;
    let outcome = Outcome::Tried {
        number,
        account: Items::from_vec(account),
    };
    let report = report_line(alloc, &outcome)?;
    Ok(Ending { outcome, report })
}

/// The account of a match of two graphs that have one, checked.
fn prove_match<W: Watch>(
    alloc: Global,
    graphs: &PairableGraphs<'_>,
    watch: &W,
) -> Result<Vec<u8>, Outcome>
    requires equal { HaveNpnpEqualFunctions graphs.now.first graphs.now.second }
    ensures account { IfOk result (λ account. IsProvedMatch graphs.now account.items) }
    ensures stopped { IfErr result (IsStopWithin graphs.now default_budget) }
{
    let start = SearchStart {
        seed: DEFAULT_SEED,
        candidates: &[],
    };
    let solved = solve_by_search(alloc, graphs, &start, DEFAULT_BUDGET, watch)?;
    let text = text_of(alloc, &solved.account)?;
    accept(alloc, graphs.graphs(), &text)?;
    Ok(text)
}

/// The whole text of an account.
fn text_of(alloc: Global, account: &Account) -> Result<Vec<u8>, AllocError>
    ensures { IfOk result (λ text. text.items ≡ account_of (records_of account.now)) }
{
    let mut text = Vec::new(alloc);
    put_all(account.lines(), &mut text)?;
    text.extend_from_slice(last_line())?;
    Ok(text)
}

/// Checks an account of a match, which is accepted unless memory runs out.
fn accept(alloc: Global, graphs: &Graphs<'_>, account: &[u8]) -> Result<(), Outcome>
    requires { IsProvedMatch graphs.now account.now }
    ensures { IfErr result (λ outcome. outcome ≡ Outcome.Memory) }
{
    match check(alloc, graphs, account) {
        Ok(Verdict::Match(_)) => Ok(()),
        Ok(Verdict::None) => unreachable!(),
        Err(CheckStop::Rejected { .. }) => unreachable!(),
        Err(CheckStop::Memory) => Err(Outcome::Memory),
    }
}
