//! What excludes deleted pairs.

ghost use Rattle.std.specs.Prelude.{◌≡◌, Contains, IfNone, IfOk, IfSome, List};
ghost use Rattle.circuits.specs.declared.port.Pair.{Pair as AnyPair};
ghost use Rattle.net_core.specs.Sides.{Graphs as AnyGraphs};
ghost use Rattle.pair_domains.specs.declared.entry.Entry.{Entry as AnyEntry};
ghost use Rattle.pair_domains.specs.Trails.{IsDeleted, IsPairOf};
ghost use Rattle.pair_search.specs.Deletions.{IsDeletion, IsExcluded};
ghost use Rattle.pair_search.specs.Grounded.{LearnsMore};
ghost use Rattle.pair_search.specs.Justified.{IsTrail};
ghost use Rattle.pair_search.specs.Named.{AreNamed, deleted};

use crate::mismatch::{Mismatches, keep_mismatch};
use account_core::PairableGraphs;
use ban_book::{BanBook, Unlike};
use circuits::Pair;
use pair_domains::{Domains, Reason};
use std::alloc::{AllocError, Global};

/// What excludes a deleted pair beside pairs that were assigned before it.
#[derive(Clone, Copy, Debug, PartialEq, Eq)]
pub enum Deletion {
    /// This assigned pair clashes with it. There is no ban that says so, since the pairs of a ban don't clash.
    Clash(Pair),
    /// The ban of this number has no other pairs than it and assigned ones.
    Ban(u64),
}

/// What excludes a deleted pair beside those that were assigned before it: one that clashes with it, or a ban, which is
/// made here unless it was before. It is None exactly where the pair isn't deleted. Where the bans of the book had
/// valid steps, in view of facts that show the deletions by mismatches, they have them afterwards.
///
/// # Errors
///
/// `AllocError` when out of memory.
pub fn deletion_of(
    alloc: Global,
    graphs: &PairableGraphs<'_>,
    domains: &Domains,
    pair: Pair,
    made: &mut Mismatches,
    book: &mut BanBook,
) -> Result<Option<Deletion>, AllocError>
    requires known { IsPairOf domains.now.inputs domains.now.outputs pair }
    requires trail { IsTrail graphs.now book.old domains.now }
    ensures more { LearnsMore graphs.now domains.now.entries book.old book.new }
    ensures found { IfOk result (λ found. IfSome found (IsDeletion book.new domains.now.entries pair)) }
    ensures none { IfOk result (λ found. IfNone found (IsDeleted domains.now.entries pair → ⊥)) }
{
    let Some(reason) = domains.reason(pair) else {
        return Ok(None);
    };
    let deletion = deletion_by(alloc, pair, reason, made, book)?;
    Ok(Some(deletion))
}

/// What excludes a pair that was deleted for a reason, beside the pairs that the reason names.
pub(crate) fn deletion_by(
    alloc: Global,
    pair: Pair,
    reason: Reason,
    made: &mut Mismatches,
    book: &mut BanBook,
) -> Result<Deletion, AllocError>
    ensures more { (graphs : AnyGraphs) (entries : List AnyEntry)
        → Contains entries (deleted pair reason)
        → LearnsMore graphs entries book.old book.new }
    ensures excluded { IfOk result (λ deletion. (pairs : List AnyPair)
        → AreNamed book.old pairs pair reason
        → IsExcluded book.new pairs pair deletion) }
{
    match reason {
        Reason::Clash(with) => Ok(Deletion::Clash(with)),
        Reason::Ban(number) => Ok(Deletion::Ban(number)),
        Reason::Mismatch { with, fails, holds } => {
            let unlike = Unlike { fails, holds };
            let number = keep_mismatch(alloc, pair, with, unlike, made, book)?;
            Ok(Deletion::Ban(number))
        }
    }
}
