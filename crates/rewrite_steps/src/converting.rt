//! An account in the other version.

ghost use Rattle.std.specs.Prelude.{◌≡◌};
ghost use Rattle.shelf_core.specs.State.{Closed};
ghost use Rattle.run_steps.specs.Commands.{asked_convert};
ghost use Rattle.run_steps.specs.Steps.{Decides};
ghost use Rattle.rewrite_steps.specs.Rewriting.{IsFaultOfForm, IsInOtherVersion, Rewrites};

use crate::ending::end_written;
use account_check::Why;
use account_convert::{ConvertStop, convert};
use check_steps::{Convert, Ending, Outcome, Which, read_whole};
use run_steps::reported;
use shelf_core::Shelf;
use std::alloc::Global;

/// Reads the account that the words name, and where it has no fault of form, writes it in the other version. That there
/// is no account, or that it has a fault of form, is an answer too, and nothing is written. The error is an outcome
/// whose report is one line: there was a fault.
pub fn convert_files<S: Shelf>(
    alloc: Global,
    asked: &Convert<'_>,
    shelf: &mut S,
) -> Result<Ending, Outcome>
    requires { (S.state shelf.old).mode ≡ Closed }
    ensures { Decides S.tells (asked_convert asked.now) (S.state shelf.old) (S.state shelf.new) result }
{
    match read_whole(alloc, shelf, asked.account)? {
        Some(account) => convert_to(alloc, asked.converted, &account, shelf),
        None => reported(alloc, Outcome::Absent(Which::Account)),
    }
}

/// Converts an account, and writes it under a name; or says its first fault of form.
fn convert_to<S: Shelf>(
    alloc: Global,
    name: &str,
    account: &[u8],
    shelf: &mut S,
) -> Result<Ending, Outcome>
    requires { (S.state shelf.old).mode ≡ Closed }
    ensures { Rewrites (IsInOtherVersion account.now) (IsFaultOfForm account.now)
        S.tells name.now (S.state shelf.old) (S.state shelf.new) result }
{
    match convert(alloc, account) {
        Ok(converted) => {
            let outcome = Outcome::Converted {
                from: converted.from,
                to: converted.to,
                records: converted.records,
            };
            end_written(alloc, shelf, name, &converted.bytes, outcome)
        }
        Err(
            ConvertStop::Fault {
                record_number,
                fault,
            },
        ) => {
            let rejected = Outcome::Rejected {
                line: record_number,
                why: Why::Form(fault),
            };
            reported(alloc, rejected)
        }
        Err(ConvertStop::Memory) => Err(Outcome::Memory),
    }
}
