//! How a run ends by an answer: with its account, which is written before, or by its line alone.

ghost use Rattle.std.specs.Prelude.{◌≡◌, IfErr, IfOk};
ghost use Rattle.account_write.specs.Records.{account_of, records_of};
ghost use Rattle.shelf_core.specs.State.{Closed};
ghost use Rattle.check_steps.specs.Lines.{line_of};
ghost use Rattle.run_steps.specs.Steps.{Concludes};
ghost use Rattle.run_steps.specs.Stops.{unwritten};

use crate::write_account;
use account_write::Account;
use check_steps::{Ending, Outcome, report_line};
use shelf_core::{Shelf, ShelfStop};
use std::alloc::Global;

/// Writes an account, and ends the run by its answer where it was written.
pub fn conclude<S: Shelf>(
    alloc: Global,
    shelf: &mut S,
    name: &str,
    account: &Account,
    ending: Ending,
) -> Result<Ending, Outcome>
    requires { (S.state shelf.old).mode ≡ Closed }
    ensures { Concludes S.tells name.now (account_of (records_of account.now)) ending
        (S.state shelf.old) (S.state shelf.new) result }
{
    match write_account(alloc, shelf, name, account) {
        Ok(()) => Ok(ending),
        Err(stop) => Err(unwritten(stop)),
    }
}

/// The end of a run by a verdict that its line says. The error is that memory ran out.
pub fn reported(alloc: Global, verdict: Outcome) -> Result<Ending, Outcome>
    ensures same { IfOk result (λ ending. ending.outcome ≡ verdict) }
    ensures line { IfOk result (λ ending. ending.report.items ≡ line_of verdict) }
    ensures memory { IfErr result (λ outcome. outcome ≡ Outcome.Memory) }
{
    let report = report_line(alloc, &verdict)?;
    Ok(Ending {
        outcome: verdict,
        report,
    })
}

/// What a refusal of a write ends the run with.
pub(crate) fn unwritten(stop: ShelfStop) -> Outcome
    ensures { result ≡ unwritten stop }
{
    match stop {
        ShelfStop::Failed => Outcome::WriteFault,
        ShelfStop::Memory => Outcome::Memory,
    }
}
