ghost use Rattle.std.specs.Prelude.{Bool, ℕ, List, ◌≡◌, ◌+◌, ◌<◌, ◌^◌, ◌++◌, [], true, false, IfOk, IsSome, Ok, Some};
ghost use Rattle.std.specs.Prelude.{length};
ghost use Rattle.circuits.specs.Matches.{IsMatchOfFunctions};
ghost use Rattle.net_core.specs.Sides.{Graphs as TwoGraphs};
ghost use Rattle.net_core.specs.declared.matching.Matching.{Matching as AnyMatching};
ghost use Rattle.account_file.specs.declared.place.Place.TheVariants.{Ended};
ghost use Rattle.account_file.specs.Order.{next_place};
ghost use Rattle.account_check.specs.declared.verdict.Verdict.TheVariants as verdict;
ghost use Rattle.account_check.specs.Accounts.{verdict_of, Takes};
ghost use Rattle.account_check.specs.Checking.{refused, unread, Feeds, Goes, HasTaken, IsChecking, IsUnderCheck};
ghost use Rattle.account_check.specs.Checking.{IsUnderWay, TakesAll};
ghost use Rattle.account_check.specs.Verdicts.{IsVerdict};

use crate::checker::Checker;
use crate::reject::RecordStop;
use crate::verdict::{CheckStop, Verdict, Why};
use account_file::{FileStop, Reader, Record};
use net_core::Graphs;
use std::alloc::{AllocError, Global};
use std::marker::Model;

/// The check of an account of two circuits, whose bytes come in pieces, cut anywhere. Each record is taken as soon as
/// it is whole, and then let go: of the account's bytes only those of a record that isn't whole are kept.
pub struct AccountCheck<'a> {
    reader: Reader,
    checker: Checker<'a>,
}

impl<'a> Model for AccountCheck<'a> {
    ghost use Rattle.account_check.specs.Checking.{Progress};

    ghost Value = { Progress };

    ghost view = { λ a. record { reading = a.reader; account = a.checker } };
}

// By hand, so that each exit of a function has one call for it (docs/IDIOMS.md).
impl Drop for AccountCheck<'_> {
    fn drop(self) {
        let AccountCheck {
            reader: _reader,
            checker: _checker,
        } = self;
    }
}

impl<'a> AccountCheck<'a> {
    /// No byte came yet.
    pub fn new(alloc: Global, graphs: &'a Graphs<'a>) -> Result<AccountCheck<'a>, AllocError>
        ensures { IfOk result (HasTaken graphs.now []) }
    {
        let checker = Checker::new(alloc, graphs)?;
        Ok(AccountCheck {
            reader: Reader::new(alloc),
            checker,
        })
    }

    /// Takes the next bytes, and the records that are whole then. The first bad record is named at the piece that
    /// completes it, whatever comes after it. After a refusal no more may be fed.
    pub fn feed(&mut self, alloc: Global, piece: &[u8]) -> Result<(), CheckStop>
        requires under_way { IsUnderWay self.old }
        requires fits { self.old.reading.total + length piece.now < 2 ^ 64 }
        ensures { (graphs : TwoGraphs) (bytes : List ℕ) → HasTaken graphs bytes self.old
            → Feeds graphs (bytes ++ piece.now) self.new result }
    {
        feed(alloc, &mut self.reader, &mut self.checker, piece)
    }

    /// The verdict, where no more bytes come. What is proved is so, whoever wrote the account.
    pub fn finish(&mut self, alloc: Global) -> Result<Verdict, CheckStop>
        requires { IsUnderWay self.old }
        ensures verdict { (graphs : TwoGraphs) (bytes : List ℕ) → HasTaken graphs bytes self.old
            → IsVerdict graphs bytes result }
        ensures proved { (graphs : TwoGraphs) (bytes : List ℕ) (matching : AnyMatching)
            → HasTaken graphs bytes self.old → result ≡ Ok (verdict.Match matching)
            → IsMatchOfFunctions graphs.first graphs.second matching.inputs matching.outputs }
    {
        finish(alloc, &mut self.reader, &mut self.checker)
    }
}

// Takes the next bytes, and the records that are whole then.
fn feed(
    alloc: Global,
    reader: &mut Reader,
    checker: &mut Checker<'_>,
    piece: &[u8],
) -> Result<(), CheckStop>
    requires under_way { (graphs : TwoGraphs) × (bytes : List ℕ)
        × IsChecking false graphs bytes reader.old checker.old }
    requires fits { reader.old.total + length piece.now < 2 ^ 64 }
    ensures { (graphs : TwoGraphs) (bytes : List ℕ) → IsChecking false graphs bytes reader.old checker.old
        → TakesAll false graphs (bytes ++ piece.now) reader.new checker.new result }
{
    reader.feed(piece)?;
    take_all(alloc, reader, checker)
}

// The verdict, where no more bytes come.
fn finish(
    alloc: Global,
    reader: &mut Reader,
    checker: &mut Checker<'_>,
) -> Result<Verdict, CheckStop>
    requires { (graphs : TwoGraphs) × (bytes : List ℕ) × IsChecking false graphs bytes reader.old checker.old }
    ensures verdict { (graphs : TwoGraphs) (bytes : List ℕ) → IsChecking false graphs bytes reader.old checker.old
        → IsVerdict graphs bytes result }
    ensures proved { (graphs : TwoGraphs) (bytes : List ℕ) (matching : AnyMatching)
        → IsChecking false graphs bytes reader.old checker.old → result ≡ Ok (verdict.Match matching)
        → IsMatchOfFunctions graphs.first graphs.second matching.inputs matching.outputs }
{
    reader.finish();
    take_all(alloc, reader, checker)?;
    Ok(ended(alloc, checker)?)
}

// Takes all records that are whole.
fn take_all(alloc: Global, reader: &mut Reader, checker: &mut Checker<'_>) -> Result<(), CheckStop>
    requires { IsUnderCheck reader.old checker.old }
    ensures { (finished : Bool) (graphs : TwoGraphs) (bytes : List ℕ)
        → IsChecking finished graphs bytes reader.old checker.old
        → TakesAll finished graphs bytes reader.new checker.new result }
{
    while take_next(alloc, reader, checker)? {}
    Ok(())
}

// Takes the next record, and says whether there was one.
fn take_next(
    alloc: Global,
    reader: &mut Reader,
    checker: &mut Checker<'_>,
) -> Result<bool, CheckStop>
    requires { IsUnderCheck reader.old checker.old }
    ensures goes { (finished : Bool) (graphs : TwoGraphs) (bytes : List ℕ)
        → IsChecking finished graphs bytes reader.old checker.old
        → Goes finished graphs bytes reader.new checker.new result }
    ensures shrinks { result ≡ Ok true → length reader.new.left < length reader.old.left }
{
    let entry = match reader.next(alloc) {
        Ok(Some(entry)) => entry,
        Ok(None) => return Ok(false),
        Err(stop) => return Err(unread(reader.line(), stop)),
    };
    match take(alloc, checker, entry) {
        Ok(()) => Ok(true),
        Err(stop) => Err(refused(reader.line(), stop)),
    }
}

// Has a record taken, and lets it go.
fn take(alloc: Global, checker: &mut Checker<'_>, entry: Record) -> Result<(), RecordStop>
    requires { IsSome (next_place checker.old.place entry) }
    ensures { Takes checker.old entry checker.new result }
{
    checker.take(alloc, &entry)
}

// Why an account is given up at a record that isn't read.
fn unread(line: u64, stop: FileStop) -> CheckStop
    ensures { result ≡ unread line stop }
{
    match stop {
        FileStop::Fault(fault) => CheckStop::Rejected {
            line,
            why: Why::Form(fault),
        },
        FileStop::Memory => CheckStop::Memory,
    }
}

// Why an account is given up at a record that isn't taken.
fn refused(line: u64, stop: RecordStop) -> CheckStop
    ensures { result ≡ refused line stop }
{
    match stop {
        RecordStop::Reject(reject) => CheckStop::Rejected {
            line,
            why: Why::Record(reject),
        },
        RecordStop::Memory => CheckStop::Memory,
    }
}

// The verdict of an account that has ended.
fn ended(alloc: Global, checker: &Checker<'_>) -> Result<Verdict, AllocError>
    requires { checker.now.place ≡ Ended }
    ensures verdict { IfOk result (λ verdict. Some verdict ≡ verdict_of checker.now) }
    ensures proved { (matching : AnyMatching) → verdict_of checker.now ≡ Some (verdict.Match matching)
        → IsMatchOfFunctions checker.now.graphs.first checker.now.graphs.second matching.inputs matching.outputs }
{
    let Some(verdict) = checker.verdict(alloc)? else {
        unreachable!()
    };
    Ok(verdict)
}
