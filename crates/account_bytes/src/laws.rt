//! That bytes say one thing of the entry that they begin with.

ghost use Rattle.std.specs.Prelude.{ℕ, List};
ghost use Rattle.byte_form.specs.Codes.{BeginsNone, BeginsWith, IsPrefixCode};
ghost use Rattle.account_bytes.specs.declared.entry.Entry.{Entry as AnyEntry};
ghost use Rattle.account_bytes.specs.Entries.{EntryFits, FrameFits, IsMalformed, entry_bytes, frame_bytes};

/// No bytes begin with two entries: each has one spelling, and what is written is what is read.
pub fn one_entry()
    ensures { IsPrefixCode entry_bytes EntryFits }
{}

/// Bytes that begin with an entry, bytes that begin with a whole frame that is no entry's, and bytes that end before a
/// frame does are three different things.
pub fn one_answer()
    ensures entry_is_whole { (text left : List ℕ) (entry : AnyEntry) → BeginsWith entry_bytes EntryFits text entry left
        → BeginsNone frame_bytes FrameFits text
        → ⊥ }
    ensures entry_has_form { (text left : List ℕ) (entry : AnyEntry) → BeginsWith entry_bytes EntryFits text entry left
        → IsMalformed text
        → ⊥ }
    ensures malformed_is_whole { (text : List ℕ) → IsMalformed text
        → BeginsNone frame_bytes FrameFits text
        → ⊥ }
{}
