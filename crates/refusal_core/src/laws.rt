//! What is left for a conclusion is right where all was. Each function does nothing; its contract is the law.

ghost use Rattle.std.specs.Prelude.{ℕ, List, length, map};
ghost use Rattle.net_core.specs.Sides.{Graphs as TwoGraphs};
ghost use Rattle.account_core.specs.declared.fact.Fact.{Fact as AnyFact};
ghost use Rattle.account_core.specs.declared.step.Ban.{Ban as AnyBan};
ghost use Rattle.account_core.specs.Given.{Decided, decided_by};
ghost use Rattle.account_core.specs.Facts.{AreFacts};
ghost use Rattle.account_core.specs.Shown.{IsEmptyBan};
ghost use Rattle.account_core.specs.Steps.{AreValidBans};
ghost use Rattle.refusal_core.specs.declared.trimming.Core.{Core as AnyCore};
ghost use Rattle.refusal_core.specs.Names.{ReferBack};
ghost use Rattle.refusal_core.specs.Trims.{IsTrimmed};

/// Facts stay facts.
pub fn trimmed_facts()
    ensures { (graphs : TwoGraphs) (facts : List AnyFact) (bans : List AnyBan) (number : ℕ) (core : AnyCore)
        → IsTrimmed facts bans number core
        → AreFacts graphs facts
        → AreFacts graphs core.facts }
{}

/// Bans stay valid in view of the facts and of the bans before them.
pub fn trimmed_bans()
    ensures { (graphs : TwoGraphs) (facts : List AnyFact) (bans : List AnyBan) (number : ℕ) (core : AnyCore)
        → IsTrimmed facts bans number core
        → AreValidBans graphs (map decided_by facts) bans
        → AreValidBans graphs (map decided_by core.facts) core.bans }
{}

/// The ban of the conclusion stays one without pairs.
pub fn trimmed_conclusion()
    ensures { (facts : List AnyFact) (bans : List AnyBan) (number : ℕ) (core : AnyCore)
        → IsTrimmed facts bans number core
        → IsEmptyBan bans number
        → IsEmptyBan core.bans core.number }
{}

/// Valid bans name facts that there are, and bans before them.
pub fn valid_bans_refer_back()
    ensures { (graphs : TwoGraphs) (facts : List Decided) (bans : List AnyBan)
        → AreValidBans graphs facts bans
        → ReferBack (length facts) bans }
{}
