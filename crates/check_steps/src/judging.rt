//! What an account says of two netlists, checked as it is read.

ghost use Rattle.std.specs.Prelude.{ℕ, List, ◌≡◌, ◌≢◌, ◌+◌, ◌<◌, ◌^◌, [], IfOk, OnOk, Some, Err, length};
ghost use Rattle.net_core.specs.Sides.{Graphs as TwoGraphs};
ghost use Rattle.account_check.specs.Checking.{HasTaken, IsUnderWay};
ghost use Rattle.shelf_core.specs.State.{Closed, Reading};
ghost use Rattle.check_steps.specs.Files.{HasUnread};
ghost use Rattle.check_steps.specs.Judging.{FeedsNext, FeedsRest, JudgesRest};
ghost use Rattle.check_steps.specs.Judged.{IsJudged, IsMatchIfAny, IsVerdict, Judges, graphs_of};

use crate::outcome::{Outcome, Which};
use crate::{PIECE, ReadStop, zeros};
use account_check::{AccountCheck, CheckStop, Verdict, Why};
use net_core::Graphs;
use net_file::Named;
use shelf_core::{Shelf, ShelfStop};
use std::alloc::Global;
use watch_core::{Stage, Watch};

/// Why an account isn't read on.
#[derive(Drop)]
pub enum Halt {
    /// The shelf failed, or there was no memory.
    Stop(ReadStop),
    /// A record is bad, and why.
    Bad { line: u64, why: Why },
}

impl From<ShelfStop> for Halt {
    ghost use Rattle.check_steps.specs.ReadStops.{stop_of};
    ghost use Rattle.check_steps.specs.declared.judging.Halt.TheVariants as halt;

    ghost from_gives = { λ stop e. e ≡ halt.Stop (stop_of stop) };

    fn from(stop: ShelfStop) -> Halt {
        Halt::Stop(ReadStop::from(stop))
    }
}

impl From<CheckStop> for Halt {
    ghost use Rattle.check_steps.specs.Judging.{halt_of};

    ghost from_gives = { λ stop e. e ≡ halt_of stop };

    fn from(stop: CheckStop) -> Halt {
        match stop {
            CheckStop::Rejected { line, why } => Halt::Bad { line, why },
            CheckStop::Memory => Halt::Stop(ReadStop::Memory),
        }
    }
}

/// What the account under a name says of two netlists. It is read piece by piece, up to the first bad record, and
/// closed.
pub fn judge<S: Shelf, W: Watch>(
    alloc: Global,
    first: &Named,
    second: &Named,
    shelf: &mut S,
    name: &str,
    watch: &W,
) -> Result<Outcome, ReadStop>
    requires { (S.state shelf.old).mode ≡ Closed }
    ensures judges { Judges S.tells (graphs_of first.now second.now) ((S.state shelf.old).held name.now)
        (S.state shelf.old) (S.state shelf.new) result }
    ensures closed { OnOk result ((S.state shelf.new).mode ≡ Closed) }
{
    let graphs = Graphs::new(&first.graph, &second.graph);
    match shelf.open(name)? {
        None => Ok(Outcome::Absent(Which::Account)),
        Some(size) => judge_open(alloc, &graphs, shelf, size, watch),
    }
}

/// What the open account, of `size` bytes, says of two circuits. It is closed then.
fn judge_open<S: Shelf, W: Watch>(
    alloc: Global,
    graphs: &Graphs<'_>,
    shelf: &mut S,
    size: u64,
    watch: &W,
) -> Result<Outcome, ReadStop>
    requires { HasUnread S.tells (S.state shelf.old) size }
    ensures judges { Judges S.tells graphs.now (Some (S.state shelf.old).unread)
        (S.state shelf.old) (S.state shelf.new) result }
    ensures closed { OnOk result ((S.state shelf.new).mode ≡ Closed) }
{
    let mut piece = zeros(alloc, PIECE)?;
    let outcome = judge_with_piece(alloc, graphs, shelf, &mut piece, size, watch)?;
    shelf.close()?;
    Ok(outcome)
}

/// What the open account says of two circuits, read into `piece`.
fn judge_with_piece<S: Shelf, W: Watch>(
    alloc: Global,
    graphs: &Graphs<'_>,
    shelf: &mut S,
    piece: &mut [u8],
    size: u64,
    watch: &W,
) -> Result<Outcome, ReadStop>
    requires unread { HasUnread S.tells (S.state shelf.old) size }
    requires room { 0 < length piece.old }
    ensures judges { Judges S.tells graphs.now (Some (S.state shelf.old).unread)
        (S.state shelf.old) (S.state shelf.new) result }
    ensures reading { (S.state shelf.new).mode ≡ Reading }
{
    // they bring in that both graphs are sound
    let _first = graphs.first();
    let _second = graphs.second();
    let mut check = AccountCheck::new(alloc, graphs)?;
    judge_unread(alloc, shelf, piece, size, &mut check, watch)
}

/// What the unread bytes of the open account come to, of which none was checked yet.
fn judge_unread<S: Shelf, W: Watch>(
    alloc: Global,
    shelf: &mut S,
    piece: &mut [u8],
    size: u64,
    check: &mut AccountCheck<'_>,
    watch: &W,
) -> Result<Outcome, ReadStop>
    requires unread { HasUnread S.tells (S.state shelf.old) size }
    requires room { 0 < length piece.old }
    requires begun { (graphs : TwoGraphs) × HasTaken graphs [] check.old }
    ensures { (graphs : TwoGraphs) → HasTaken graphs [] check.old
        → JudgesRest S.tells graphs (S.state shelf.old) (S.state shelf.new) result }
{
    match feed_rest(alloc, shelf, piece, size, check, watch) {
        Ok(()) => settle(alloc, check),
        Err(Halt::Bad { line, why }) => Ok(Outcome::Rejected { line, why }),
        Err(Halt::Stop(stop)) => Err(stop),
    }
}

/// Checks the unread bytes of the open account piece by piece, up to the first bad record.
fn feed_rest<S: Shelf, W: Watch>(
    alloc: Global,
    shelf: &mut S,
    piece: &mut [u8],
    size: u64,
    check: &mut AccountCheck<'_>,
    watch: &W,
) -> Result<(), Halt>
    requires unread { HasUnread S.tells (S.state shelf.old) size }
    requires room { 0 < length piece.old }
    requires begun { (graphs : TwoGraphs) × HasTaken graphs [] check.old }
    ensures { (graphs : TwoGraphs) → HasTaken graphs [] check.old
        → FeedsRest S.tells graphs (S.state shelf.old) (S.state shelf.new) check.new result }
{
    let mut left = size;
    while left > 0 {
        watch.at(Stage::Checking { left, bytes: size });
        left -= feed_next(alloc, shelf, piece, check)?;
    }
    Ok(())
}

/// Reads once, checks what came, and answers how many bytes that were.
fn feed_next<S: Shelf>(
    alloc: Global,
    shelf: &mut S,
    piece: &mut [u8],
    check: &mut AccountCheck<'_>,
) -> Result<u64, Halt>
    requires reading { (S.state shelf.old).mode ≡ Reading }
    requires left { 0 < (S.state shelf.old).left }
    requires room { 0 < length piece.old }
    requires under_way { IsUnderWay check.old }
    requires fits { check.old.reading.total + (S.state shelf.old).left < 2 ^ 64 }
    ensures { (graphs : TwoGraphs) (bytes : List ℕ) → HasTaken graphs bytes check.old
        → FeedsNext S.tells graphs bytes (S.state shelf.old) (S.state shelf.new) check.new result }
{
    let count = shelf.read(piece)?;
    check.feed(alloc, &piece[..count])?;
    Ok(count as u64)
}

/// What an account comes to whose bytes were all checked.
fn settle(alloc: Global, check: &mut AccountCheck<'_>) -> Result<Outcome, ReadStop>
    requires { IsUnderWay check.old }
    ensures verdict { (graphs : TwoGraphs) (bytes : List ℕ) → HasTaken graphs bytes check.old
        → IfOk result (IsVerdict graphs (Some bytes)) }
    ensures matches { (graphs : TwoGraphs) (bytes : List ℕ) → HasTaken graphs bytes check.old
        → IfOk result (IsMatchIfAny graphs.first graphs.second) }
    ensures judged { IfOk result IsJudged }
    ensures no_fault { result ≢ Err ReadStop.ReadFault }
{
    match check.finish(alloc) {
        Ok(Verdict::Match(matching)) => Ok(Outcome::AcceptedMatch(matching)),
        Ok(Verdict::None) => Ok(Outcome::AcceptedRefusal),
        Err(CheckStop::Rejected { line, why }) => Ok(Outcome::Rejected { line, why }),
        Err(CheckStop::Memory) => Err(ReadStop::Memory),
    }
}
