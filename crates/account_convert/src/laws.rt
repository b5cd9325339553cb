//! What an account and the same in the other version have in common. Each function does nothing; its contract is the
//! law.

ghost use Rattle.std.specs.Prelude.{ℕ, ◌≡◌, List};
ghost use Rattle.net_core.specs.Sides.{Graphs as TwoGraphs};
ghost use Rattle.account_file.specs.declared.record.Record.{Record as Entry};
ghost use Rattle.account_file.specs.Accounts.{IsAccountOf};
ghost use Rattle.account_check.specs.declared.verdict.Verdict.{Verdict as AnyVerdict};
ghost use Rattle.account_check.specs.Verdicts.{IsAccepted};
ghost use Rattle.account_convert.specs.declared.conversion.Converted.{Converted as AnyConverted};
ghost use Rattle.account_convert.specs.Conversions.{IsConverted, without_drops};

/// Both have the same records, drops aside, in the same order.
pub fn records_stay()
    ensures { (old : List ℕ) (new : AnyConverted) (records others : List Entry)
        → IsConverted old new
        → IsAccountOf old records
        → IsAccountOf new.bytes others
        → without_drops others ≡ without_drops records }
{}

/// What an account proves of two circuits it proves in the other version.
pub fn verdict_stays()
    ensures { (graphs : TwoGraphs) (old : List ℕ) (new : AnyConverted) (verdict : AnyVerdict)
        → IsConverted old new
        → IsAccepted graphs old verdict
        → IsAccepted graphs new.bytes verdict }
{}

/// What an account of version 1 proves in version 2 it proves as it was.
pub fn verdict_was()
    ensures { (graphs : TwoGraphs) (old : List ℕ) (new : AnyConverted) (verdict : AnyVerdict)
        → IsConverted old new
        → new.from ≡ 1
        → IsAccepted graphs new.bytes verdict
        → IsAccepted graphs old verdict }
{}

/// An account of version 1 that is converted, and then converted back, has the bytes that it had.
pub fn converted_back()
    ensures { (old : List ℕ) (new back : AnyConverted)
        → IsConverted old new
        → new.from ≡ 1
        → IsConverted new.bytes back
        → back.bytes ≡ old }
{}
