//! What accounts are as whole bytes. Each function does nothing; its contract is the law.

ghost use Rattle.std.specs.Prelude.{ℕ, ◌≡◌, ◌⊎◌, Bool, true, false, List, Option, Result};
ghost use Rattle.account_file.specs.declared.record.Record.{Record as Entry};
ghost use Rattle.account_file.specs.declared.fault.RecordFault.{RecordFault as AnyFault};
ghost use Rattle.account_file.specs.Accounts.{HasFormFault, IsAccountOf, SaysNext};
ghost use Rattle.account_file.specs.Binary.{HasBytes, is_binary, record_bytes};
ghost use Rattle.account_file.specs.TextAccounts.{AreRecords, HasForm};
ghost use Rattle.byte_form.specs.Codes.{IsPrefixCode};

/// A line has the form of one record at most.
pub fn one_record()
    ensures { (line : List ℕ) (first second : Entry)
        → HasForm line first
        → HasForm line second
        → first ≡ second }
{}

/// The records of lines are one list at most.
pub fn one_list_of_records()
    ensures { (lines : List (List ℕ)) (first second : List Entry)
        → AreRecords lines first
        → AreRecords lines second
        → first ≡ second }
{}

/// No bytes begin with two records of version 2.
pub fn one_record_in_bytes()
    ensures { IsPrefixCode record_bytes HasBytes }
{}

/// An account says one thing after the records that were read of it: the next record, the first fault, or nothing.
pub fn one_answer()
    ensures { (bytes : List ℕ) (finished : Bool) (before : List Entry)
        → (first second : Result (Option Entry) AnyFault)
        → SaysNext bytes finished before first
        → SaysNext bytes finished before second
        → first ≡ second }
{}

/// Bytes are an account of records, or have a first fault of form. Of version 2 it is said that neither can't be.
pub fn account_or_fault()
    ensures text { (bytes : List ℕ) → is_binary bytes ≡ false
        → ((records : List Entry) × IsAccountOf bytes records)
        ⊎ ((before : List Entry) × ((fault : AnyFault) × HasFormFault bytes before fault)) }
    ensures binary { (bytes : List ℕ) → is_binary bytes ≡ true
        → ((records : List Entry) → IsAccountOf bytes records → ⊥)
        → ((before : List Entry) (fault : AnyFault) → HasFormFault bytes before fault → ⊥)
        → ⊥ }
{}

/// Bytes have one first fault of form at most, and none where they are an account of records.
pub fn one_fault()
    ensures one { (bytes : List ℕ) (before other : List Entry) (first second : AnyFault)
        → HasFormFault bytes before first
        → HasFormFault bytes other second
        → (before ≡ other) × (first ≡ second) }
    ensures none { (bytes : List ℕ) (records before : List Entry) (fault : AnyFault)
        → IsAccountOf bytes records
        → HasFormFault bytes before fault
        → ⊥ }
{}
