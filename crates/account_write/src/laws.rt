//! The accounts that are written here are accepted. Each function does nothing; its contract is the law.

ghost use Rattle.std.specs.Prelude.{ℕ, List, All, map};
ghost use Rattle.cnf_core.specs.declared.log.Log.{Log as AnyLog};
ghost use Rattle.net_core.specs.Sides.{Graphs as TwoGraphs};
ghost use Rattle.net_core.specs.declared.matching.Matching.{Matching as AnyMatching};
ghost use Rattle.account_core.specs.declared.fact.Fact.{Fact as AnyFact};
ghost use Rattle.account_core.specs.declared.step.Ban.{Ban as AnyBan};
ghost use Rattle.account_core.specs.Given.{decided_by};
ghost use Rattle.account_core.specs.Ports.{HaveAsMany};
ghost use Rattle.account_core.specs.Facts.{AreFacts};
ghost use Rattle.account_core.specs.Steps.{AreValidBans};
ghost use Rattle.account_file.specs.Spelling.{IsWritable};
ghost use Rattle.account_check.specs.declared.verdict.Verdict.TheVariants as verdict;
ghost use Rattle.account_check.specs.Verdicts.{IsAccepted};
ghost use Rattle.account_core.specs.Shown.{IsEmptyBan, IsShownMatch};
ghost use Rattle.account_write.specs.Records.{account_of, match_records, none_ports_records, refusal_records};

/// The account of a match that logs show is accepted, and proves the match.
pub fn match_is_accepted()
    ensures { (graphs : TwoGraphs) (matching : AnyMatching) (logs : List AnyLog)
        → IsShownMatch graphs matching logs
        → All IsWritable (match_records matching logs)
        → IsAccepted graphs (account_of (match_records matching logs)) (verdict.Match matching) }
{}

/// Of circuits with the same numbers of ports, the account of facts and of valid bans, of which one has no pairs, is
/// accepted, and proves that there is no match.
pub fn refusal_is_accepted()
    ensures { (graphs : TwoGraphs) (facts : List AnyFact) (bans : List AnyBan) (number : ℕ)
        → HaveAsMany graphs.first graphs.second
        → AreFacts graphs facts
        → AreValidBans graphs (map decided_by facts) bans
        → IsEmptyBan bans number
        → All IsWritable (refusal_records facts bans number)
        → IsAccepted graphs (account_of (refusal_records facts bans number)) verdict.None }
{}

/// The account that the circuits differ in their numbers of ports is accepted where they do, and proves that there is
/// no match.
pub fn none_ports_is_accepted()
    ensures { (graphs : TwoGraphs)
        → (HaveAsMany graphs.first graphs.second → ⊥)
        → IsAccepted graphs (account_of none_ports_records) verdict.None }
{}
