//! An account of two netlists, checked.

ghost use Rattle.std.specs.Prelude.{◌≡◌};
ghost use Rattle.shelf_core.specs.State.{Closed};
ghost use Rattle.check_steps.specs.Checks.{Checks, JudgesFiles};

use crate::Check;
use crate::judging::judge;
use crate::netlists::read_netlist;
use crate::outcome::{Ending, Outcome, Which};
use crate::report::report_named;
use net_file::Named;
use shelf_core::Shelf;
use std::alloc::Global;
use watch_core::Watch;

/// Two netlists, and what an account says of them.
#[derive(Drop)]
pub struct Judgement {
    pub first: Named,
    pub second: Named,
    /// What the account proves, or the first record of it that is wrong, or that it isn't there.
    pub outcome: Outcome,
}

/// How the files that a check names end the run. The error is an outcome that came before both netlists were read, or
/// a fault.
pub fn check_files<S: Shelf, W: Watch>(
    alloc: Global,
    check: &Check<'_>,
    shelf: &mut S,
    watch: &W,
) -> Result<Ending, Outcome>
    requires { (S.state shelf.old).mode ≡ Closed }
    ensures { Checks S.tells check.now (S.state shelf.old) (S.state shelf.new) result }
{
    let judgement = judge_files(alloc, check, shelf, watch)?;
    let Judgement {
        first,
        second,
        outcome,
    } = judgement;
    let report = report_named(alloc, &first, &second, &outcome)?;
    Ok(Ending { outcome, report })
}

/// The two netlists that a check names, and what the account that it names says of them: the files are opened, read and
/// closed in the order of the words. The error is an outcome that came before both netlists were read, or a fault.
pub fn judge_files<S: Shelf, W: Watch>(
    alloc: Global,
    check: &Check<'_>,
    shelf: &mut S,
    watch: &W,
) -> Result<Judgement, Outcome>
    requires { (S.state shelf.old).mode ≡ Closed }
    ensures { JudgesFiles S.tells check.now (S.state shelf.old) (S.state shelf.new) result }
{
    let first = read_netlist(alloc, shelf, Which::First, check.first, watch)?;
    let second = read_netlist(alloc, shelf, Which::Second, check.second, watch)?;
    let outcome = judge(alloc, &first, &second, shelf, check.account, watch)?;
    Ok(Judgement {
        first,
        second,
        outcome,
    })
}
