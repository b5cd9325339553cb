//! What trimming comes to. The function does nothing; its contract is the law.

ghost use Rattle.std.specs.Prelude.{ℕ, ◌≡◌, List};
ghost use Rattle.net_core.specs.Sides.{Graphs as TwoGraphs};
ghost use Rattle.account_trim.specs.declared.trimming.Trimmed.{Trimmed as AnyTrimmed};
ghost use Rattle.account_trim.specs.Trims.{IsTrimmed};

/// Trimming what trimming leaves gives the same bytes.
pub fn trimmed_again()
    ensures { (graphs : TwoGraphs) (bytes : List ℕ) (once again : AnyTrimmed)
        → IsTrimmed graphs bytes once
        → IsTrimmed graphs once.bytes.items again
        → again.bytes.items ≡ once.bytes.items }
{}
