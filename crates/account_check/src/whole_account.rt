ghost use Rattle.std.specs.Prelude.{ℕ, ◌≡◌, ◌≢◌, ◌↔◌, [], Ok, Err};
ghost use Rattle.circuits.specs.Matches.{HaveNpnpEqualFunctions, IsMatchOfFunctions};
ghost use Rattle.net_core.specs.Sides.{Graphs as TwoGraphs};
ghost use Rattle.net_core.specs.declared.matching.Matching.{Matching as AnyMatching};
ghost use Rattle.account_check.specs.declared.verdict.CheckStop.TheVariants as stop;
ghost use Rattle.account_check.specs.declared.verdict.Verdict.{Verdict as AnyVerdict};
ghost use Rattle.account_check.specs.declared.verdict.Verdict.TheVariants as verdict;
ghost use Rattle.account_check.specs.declared.verdict.Why.{Why as Reason};
ghost use Rattle.account_check.specs.Checking.{HasTaken};
ghost use Rattle.account_check.specs.Verdicts.{IsAccepted, IsRejected, IsVerdict};

use crate::pieces::AccountCheck;
use crate::verdict::{CheckStop, Verdict};
use net_core::Graphs;
use std::alloc::Global;

/// The verdict of an account: that a matching is a match of the two circuits, or that there is no match; or its first
/// bad record and what is wrong with it. Each comes exactly where it is so unless out of memory, and what is proved is
/// so, whoever wrote the account.
pub fn check(alloc: Global, graphs: &Graphs<'_>, account: &[u8]) -> Result<Verdict, CheckStop>
    ensures accepted { (verdict : AnyVerdict) → result ≢ Err stop.Memory
        → ((result ≡ Ok verdict) ↔ IsAccepted graphs.now account.now verdict) }
    ensures rejected { (line : ℕ) (why : Reason) → result ≢ Err stop.Memory
        → ((result ≡ Err (stop.Rejected line why)) ↔ IsRejected graphs.now account.now line why) }
    ensures proved { (matching : AnyMatching) → result ≡ Ok (verdict.Match matching)
        → IsMatchOfFunctions graphs.now.first graphs.now.second matching.inputs matching.outputs }
    ensures refused { result ≡ Ok verdict.None
        → HaveNpnpEqualFunctions graphs.now.first graphs.now.second → ⊥ }
{
    // they bring in that both graphs are sound
    let _first = graphs.first();
    let _second = graphs.second();
    verdict_on(alloc, graphs, account)
}

// The verdict of an account.
fn verdict_on(alloc: Global, graphs: &Graphs<'_>, account: &[u8]) -> Result<Verdict, CheckStop>
    ensures verdict { IsVerdict graphs.now account.now result }
    ensures proved { (matching : AnyMatching) → result ≡ Ok (verdict.Match matching)
        → IsMatchOfFunctions graphs.now.first graphs.now.second matching.inputs matching.outputs }
{
    let mut check = AccountCheck::new(alloc, graphs)?;
    verdict_by(alloc, account, &mut check)
}

// The verdict of an account, by a check to which no byte came yet.
fn verdict_by(
    alloc: Global,
    account: &[u8],
    check: &mut AccountCheck<'_>,
) -> Result<Verdict, CheckStop>
    requires { (graphs : TwoGraphs) × HasTaken graphs [] check.old }
    ensures verdict { (graphs : TwoGraphs) → HasTaken graphs [] check.old → IsVerdict graphs account.now result }
    ensures proved { (graphs : TwoGraphs) (matching : AnyMatching)
        → HasTaken graphs [] check.old → result ≡ Ok (verdict.Match matching)
        → IsMatchOfFunctions graphs.first graphs.second matching.inputs matching.outputs }
{
    check.feed(alloc, account)?;
    check.finish(alloc)
}
