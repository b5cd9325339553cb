//! How a run of the program ends.

ghost use Rattle.std.specs.Prelude.{◌≡◌};
ghost use Rattle.check_steps.specs.Status.{status_of};

use crate::ReadStop;
use account_check::Why;
use hier_blif::HierFault;
use items::Items;
use net_core::Matching;
use net_file::NetKind;
use query_core::Ledger;
use std::alloc::AllocError;

/// A file of the command line.
#[derive(Clone, Copy, Debug, PartialEq, Eq, PartialOrd, Ord, Hash)]
pub enum Which {
    /// The first netlist.
    First,
    /// The second netlist.
    Second,
    /// The account.
    Account,
}

/// How a run ends.
#[derive(Debug, Drop)]
pub enum Outcome {
    /// The account proves that this matching is a match of the circuits.
    AcceptedMatch(Matching),
    /// The account proves that no matching is a match of the circuits.
    AcceptedRefusal,
    /// The first record of the account that is wrong, counted from 1, and why. Where a record is missing it is the one
    /// after the last.
    Rejected {
        line: u64,
        why: Why,
    },
    /// This matching is a match of the circuits, and the account that proves it was written.
    Matched(Matching),
    /// No matching is a match of the circuits, and the account that proves it was written.
    NoMatching,
    /// What each output of the netlist depends on, and how, was reported.
    Informed,
    /// The two files have the pair of netlists that was asked for.
    Made,
    /// The second netlist was written with the first one's ports, with so many gates.
    Restored {
        gates: u64,
    },
    /// The account was written without the records that its conclusion doesn't rest on: how many it had, and how many
    /// are left.
    Trimmed {
        before: u64,
        after: u64,
    },
    /// The account was written in the other version: the version that it had, the one that it has, and how many records
    /// it had.
    Converted {
        from: u8,
        to: u8,
        records: u64,
    },
    /// The file of models was written as one flat netlist: how many models it has, how many instances the netlist is made
    /// of, the top among them, and how many gates.
    Flattened {
        models: u64,
        instances: u64,
        gates: u64,
    },
    /// The netlist was written with one signal in place of all that compute the same, or the complement: how many gates
    /// it had, and how many are left; and everything that was asked, where the allowance was spent before all signals
    /// were compared.
    Swept {
        before: u64,
        after: u64,
        left: Option<Ledger>,
    },
    /// A match of the pair of netlists that the number gives was found, and the account of it was accepted.
    Tried {
        number: u64,
        account: Items<u8>,
    },
    /// The budget of learned clauses was spent before the answer: everything that was asked, and the clauses.
    Spent(Ledger),
    /// The words are of no form that the program knows.
    Usage,
    /// There is no such file.
    Absent(Which),
    /// The netlist's file is longer than the limit.
    TooLarge(Which),
    /// The netlist's file is malformed: the kind of its first fault, and the offset where it stands.
    Malformed {
        which: Which,
        kind: NetKind,
        at: u64,
    },
    /// The file of models is malformed: its first fault.
    BadHierarchy(HierFault),
    /// A file couldn't be read.
    ReadFault,
    /// A file or the report couldn't be written.
    WriteFault,
    /// There was no memory.
    Memory,
}

/// How a run ends, and the report that says so. Where there is no memory the report is nothing, and is written from
/// a constant.
#[derive(Debug, Drop)]
pub struct Ending {
    pub outcome: Outcome,
    pub report: Vec<u8>,
}

impl Outcome {
    /// The exit status of the program: 0 a match, a report or files that were written, 1 no match, 2 an account
    /// rejected, 3 a spent budget, 4 words of no known form, 5 a file that isn't there or isn't a netlist, 6 a fault of
    /// the outside, 7 no memory.
    pub fn status(&self) -> u8
        ensures { result ≡ status_of self.now }
    {
        match self {
            Outcome::AcceptedMatch(_) => 0,
            Outcome::AcceptedRefusal => 1,
            Outcome::Rejected { .. } => 2,
            Outcome::Matched(_) => 0,
            Outcome::NoMatching => 1,
            Outcome::Informed => 0,
            Outcome::Made => 0,
            Outcome::Restored { .. } => 0,
            Outcome::Trimmed { .. } => 0,
            Outcome::Converted { .. } => 0,
            Outcome::Flattened { .. } => 0,
            Outcome::Swept { .. } => 0,
            Outcome::Tried { .. } => 0,
            Outcome::Spent(_) => 3,
            Outcome::Usage => 4,
            Outcome::Absent(_) => 5,
            Outcome::TooLarge(_) => 5,
            Outcome::Malformed { .. } => 5,
            Outcome::BadHierarchy(_) => 5,
            Outcome::ReadFault => 6,
            Outcome::WriteFault => 6,
            Outcome::Memory => 7,
        }
    }
}

impl From<ReadStop> for Outcome {
    ghost use Rattle.check_steps.specs.Stops.{outcome_of};

    ghost from_gives = { λ stop e. e ≡ outcome_of stop };

    fn from(stop: ReadStop) -> Outcome {
        match stop {
            ReadStop::ReadFault => Outcome::ReadFault,
            ReadStop::Memory => Outcome::Memory,
        }
    }
}

impl From<AllocError> for Outcome {
    ghost use Rattle.check_steps.specs.declared.outcome.Outcome.TheVariants.{Memory};

    ghost from_gives = { λ _ e. e ≡ Memory };

    fn from(_stop: AllocError) -> Outcome {
        Outcome::Memory
    }
}
