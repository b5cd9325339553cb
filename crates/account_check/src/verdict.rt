//! What an account proves, and what is wrong with it.

ghost use Rattle.std.specs.Prelude.{◌≡◌};
ghost use Rattle.account_check.specs.Words.{form_word, reject_word, word_of};

use crate::reject::Reject;
use account_file::RecordFault;
use net_core::Matching;
use std::alloc::AllocError;
use thiserror::Error;

/// What an account proves.
#[derive(Debug, Drop, PartialEq, Eq)]
pub enum Verdict {
    /// Each port of the first circuit goes to this port of the second: a match.
    Match(Matching),
    /// No match exists.
    None,
}

/// What is wrong with a record of an account.
#[derive(Clone, Copy, Debug, Drop, PartialEq, Eq)]
pub enum Why {
    /// The record's form, or where it stands.
    Form(RecordFault),
    /// What the record says.
    Record(Reject),
}

impl Why {
    /// The word for it.
    pub fn word(self) -> &'static str
        ensures { result.now ≡ word_of self }
    {
        match self {
            Why::Form(fault) => form_word(fault),
            Why::Record(reject) => reject_word(reject),
        }
    }
}

fn form_word(fault: RecordFault) -> &'static str
    ensures { result.now ≡ form_word fault }
{
    match fault {
        RecordFault::Header => "header",
        RecordFault::Word => "word",
        RecordFault::Number => "number",
        RecordFault::Order => "order",
        RecordFault::Truncated => "truncated",
        RecordFault::Trailing => "trailing",
    }
}

fn reject_word(reject: Reject) -> &'static str
    ensures { result.now ≡ reject_word reject }
{
    match reject {
        Reject::UnknownId => "id",
        Reject::VectorFails => "vector",
        Reject::Refutation(_) => "refutation",
        Reject::Rule => "rule",
        Reject::Conclusion => "conclusion",
    }
}

/// Why an account has no verdict: a record is wrong, or memory ran out.
#[derive(Clone, Copy, Debug, Drop, PartialEq, Eq, Error)]
pub enum CheckStop {
    /// The number of the first record that is wrong, counted from 1, as a line of version 1 or an entry of version 2;
    /// after the last where one is missing.
    #[error("line {line} is wrong")]
    Rejected { line: u64, why: Why },
    #[error("out of memory")]
    Memory,
}

impl From<AllocError> for CheckStop {
    ghost use Rattle.std.specs.Prelude.{◌≡◌};
    ghost use Rattle.account_check.specs.declared.verdict.CheckStop.TheVariants.{Memory};

    ghost from_gives = { λ _ stop. stop ≡ Memory };

    fn from(_error: AllocError) -> CheckStop {
        CheckStop::Memory
    }
}
