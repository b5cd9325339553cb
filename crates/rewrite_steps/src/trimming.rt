//! An account without the records that its conclusion doesn't rest on.

ghost use Rattle.std.specs.Prelude.{◌≡◌};
ghost use Rattle.shelf_core.specs.State.{Closed};
ghost use Rattle.check_steps.specs.Judged.{graphs_of};
ghost use Rattle.run_steps.specs.Commands.{asked_trim};
ghost use Rattle.run_steps.specs.Steps.{Decides};
ghost use Rattle.rewrite_steps.specs.Rewriting.{IsBadLine, IsWhatIsLeft, Rewrites};

use crate::ending::end_written;
use account_check::CheckStop;
use account_trim::trim;
use check_steps::{Ending, Outcome, Trim, Which, read_netlist, read_whole};
use net_core::Graphs;
use net_file::Named;
use run_steps::reported;
use shelf_core::Shelf;
use std::alloc::Global;
use watch_core::Watch;

/// Reads the two netlists and the account that the words name, in this order, and where a check of them would accept
/// the account, writes it without the records that its conclusion doesn't rest on. That there is no account, or that it
/// is rejected, is an answer too, and nothing is written. The error is an outcome whose report is one line: a file is
/// no netlist, or there was a fault.
pub fn trim_files<S: Shelf, W: Watch>(
    alloc: Global,
    asked: &Trim<'_>,
    shelf: &mut S,
    watch: &W,
) -> Result<Ending, Outcome>
    requires { (S.state shelf.old).mode ≡ Closed }
    ensures { Decides S.tells (asked_trim asked.now) (S.state shelf.old) (S.state shelf.new) result }
{
    let first = read_netlist(alloc, shelf, Which::First, asked.first, watch)?;
    let second = read_netlist(alloc, shelf, Which::Second, asked.second, watch)?;
    match read_whole(alloc, shelf, asked.account)? {
        Some(account) => trim_by(alloc, asked.trimmed, &first, &second, &account, shelf),
        None => reported(alloc, Outcome::Absent(Which::Account)),
    }
}

/// Trims the account of two netlists, and writes what is left under a name; or says its first bad line.
fn trim_by<S: Shelf>(
    alloc: Global,
    name: &str,
    first: &Named,
    second: &Named,
    account: &[u8],
    shelf: &mut S,
) -> Result<Ending, Outcome>
    requires { (S.state shelf.old).mode ≡ Closed }
    ensures { Rewrites (IsWhatIsLeft (graphs_of first.now second.now) account.now)
        (IsBadLine (graphs_of first.now second.now) account.now)
        S.tells name.now (S.state shelf.old) (S.state shelf.new) result }
{
    let graphs = Graphs::new(&first.graph, &second.graph);
    match trim(alloc, &graphs, account) {
        Ok(trimmed) => {
            let outcome = Outcome::Trimmed {
                before: trimmed.before,
                after: trimmed.after,
            };
            end_written(alloc, shelf, name, &trimmed.bytes, outcome)
        }
        Err(CheckStop::Rejected { line, why }) => reported(alloc, Outcome::Rejected { line, why }),
        Err(CheckStop::Memory) => Err(Outcome::Memory),
    }
}
