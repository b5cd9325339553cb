//! What is known of one netlist.

ghost use Rattle.std.specs.Prelude.{◌≡◌, ℕ, Err, IfOk, IfErr};
ghost use Rattle.cnf_core.specs.declared.stop.Stop.TheVariants.{Spent};
ghost use Rattle.shelf_core.specs.State.{Closed};
ghost use Rattle.claim_core.specs.Rows.{AreRows};
ghost use Rattle.port_report.specs.Infos.{info_text};
ghost use Rattle.run_steps.specs.Info.{IsSpentOf, with_itself};
ghost use Rattle.run_steps.specs.Steps.{Decides, InformsOf, IsNew};
ghost use Rattle.run_steps.specs.Commands.{asked_info};

use check_steps::{Ending, Info, Outcome, Which, read_netlist};
use claim_core::OutputInfo;
use cnf_core::Stop;
use fact_tests::FactBook;
use net_core::Graphs;
use net_file::Named;
use port_report::put_info;
use query_core::Ledger;
use shelf_core::Shelf;
use std::alloc::{AllocError, Global};
use watch_core::Watch;

/// The number that the vectors are drawn from.
const SEED: u64 = 1;

/// Reports what is known of the file that the words name. The error is an outcome whose report is one line: the file is
/// no netlist, the budget was spent, or there was a fault.
pub fn inform<S: Shelf, W: Watch>(
    alloc: Global,
    info: &Info<'_>,
    shelf: &mut S,
    watch: &W,
) -> Result<Ending, Outcome>
    requires { (S.state shelf.old).mode ≡ Closed }
    ensures { Decides S.tells (asked_info info.now) (S.state shelf.old) (S.state shelf.new) result }
{
    let named = read_netlist(alloc, shelf, Which::First, info.file, watch)?;
    inform_of(alloc, &named, info.budget, watch)
}

/// Reports what is known of a netlist, for which at most `budget` clauses are learned.
fn inform_of<W: Watch>(
    alloc: Global,
    named: &Named,
    budget: u64,
    watch: &W,
) -> Result<Ending, Outcome>
    ensures { InformsOf named.now budget result }
{
    let mut ledger = Ledger::new(alloc, budget);
    match rows_of(alloc, named, &mut ledger, watch) {
        Ok(rows) => informed(alloc, named, &rows),
        Err(Stop::Spent(_)) => Err(Outcome::Spent(ledger)),
        Err(Stop::Memory) => Err(Outcome::Memory),
    }
}

/// The rows of a netlist, by what is asked of it in a new ledger.
fn rows_of<W: Watch>(
    alloc: Global,
    named: &Named,
    ledger: &mut Ledger,
    watch: &W,
) -> Result<Vec<OutputInfo>, Stop>
    requires { IsNew ledger.old }
    ensures rows { IfOk result (λ rows. AreRows named.now.graph rows.items) }
    ensures spent { (learned : ℕ) → result ≡ Err (Spent learned)
        → IsSpentOf (with_itself named.now.graph) ledger.old.budget ledger.new }
{
    // the circuit is set against itself: claims of its first side are all that is asked
    let graphs = Graphs::new(&named.graph, &named.graph);
    let mut book = FactBook::watched(alloc, &graphs, SEED, watch)?;
    fact_tests::info(alloc, &graphs, &mut book, ledger)
}

/// The end of a run that reports rows of a netlist.
fn informed(alloc: Global, named: &Named, rows: &[OutputInfo]) -> Result<Ending, Outcome>
    requires { AreRows named.now.graph rows.now }
    ensures outcome { IfOk result (λ ending. ending.outcome ≡ Outcome.Informed) }
    ensures report { IfOk result (λ ending. ending.report.items ≡ info_text named.now rows.now) }
    ensures memory { IfErr result (λ outcome. outcome ≡ Outcome.Memory) }
{
    let mut report = Vec::new(alloc);
    put_info(named, rows, &mut report)?;
    Ok(Ending {
        outcome: Outcome::Informed,
        report,
    })
}
