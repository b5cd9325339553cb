//! What the definitions of this crate say together. Each function does nothing; its contract is the law.

ghost use Rattle.std.specs.Prelude.{ℕ, ◌≡◌, List, Option};
ghost use Rattle.circuits.specs.Matches.{HaveNpnpEqualFunctions, IsMatchOfFunctions};
ghost use Rattle.net_core.specs.Graph.{IsGraph};
ghost use Rattle.account_core.specs.Exclusions.{AreRight};
ghost use Rattle.net_core.specs.Sides.{Graphs as TwoGraphs};
ghost use Rattle.net_core.specs.declared.matching.Matching.{Matching as AnyMatching};
ghost use Rattle.account_file.specs.declared.record.Record.{Record as Entry};
ghost use Rattle.account_check.specs.declared.reject.Reject.{Reject as AnyReject};
ghost use Rattle.account_check.specs.declared.verdict.Verdict.{Verdict as AnyVerdict};
ghost use Rattle.account_check.specs.declared.verdict.Verdict.TheVariants.{None as NoMatch, Match as Proved};
ghost use Rattle.account_check.specs.declared.verdict.Why.{Why as Reason};
ghost use Rattle.account_check.specs.Accounts.{account_after, Account, HasFault};
ghost use Rattle.account_check.specs.Accounts.{AreValid};
ghost use Rattle.account_check.specs.Verdicts.{IsAccepted, IsRejected};

/// A record has one fault at most.
pub fn one_fault_of_a_record()
    ensures { (account : Account) (entry : Entry) (first second : Option AnyReject)
        → HasFault account entry first → HasFault account entry second → first ≡ second }
{}

/// An account has one verdict at most: one first bad record, with one reason; or one that it proves; never both.
pub fn one_verdict()
    ensures rejected { (graphs : TwoGraphs) (bytes : List ℕ) (line other : ℕ) (first second : Reason)
        → IsRejected graphs bytes line first → IsRejected graphs bytes other second
        → (line ≡ other) × (first ≡ second) }
    ensures accepted { (graphs : TwoGraphs) (bytes : List ℕ) (first second : AnyVerdict)
        → IsAccepted graphs bytes first → IsAccepted graphs bytes second → first ≡ second }
    ensures never_both { (graphs : TwoGraphs) (bytes : List ℕ) (verdict : AnyVerdict) (line : ℕ) (why : Reason)
        → IsAccepted graphs bytes verdict → IsRejected graphs bytes line why → ⊥ }
{}

/// After valid records, whoever wrote them, each fact given is true, where one that holds counts only after the last
/// line of its log, and no match has all pairs of any ban given.
pub fn every_prefix_is_right()
    ensures { (graphs : TwoGraphs) (records : List Entry)
        → IsGraph graphs.first → IsGraph graphs.second
        → AreValid graphs records
        → AreRight graphs (account_after graphs records).given }
{}

/// Where an account that says that there is no match is accepted, whoever wrote it, no signed bijections make the
/// circuits' functions equal.
pub fn accepted_refusal_is_right()
    ensures { (graphs : TwoGraphs) (bytes : List ℕ)
        → IsGraph graphs.first → IsGraph graphs.second
        → IsAccepted graphs bytes NoMatch
        → HaveNpnpEqualFunctions graphs.first graphs.second
        → ⊥ }
{}

/// Where an account of a match is accepted, whoever wrote it, the matching is a match of the circuits' functions.
pub fn accepted_match_is_right()
    ensures { (graphs : TwoGraphs) (bytes : List ℕ) (matching : AnyMatching)
        → IsGraph graphs.first → IsGraph graphs.second
        → IsAccepted graphs bytes (Proved matching)
        → IsMatchOfFunctions graphs.first graphs.second matching.inputs matching.outputs }
{}
