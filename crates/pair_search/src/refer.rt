//! What stands for each way in a cover.

ghost use Rattle.std.specs.Prelude.{◌≡◌, ◌≢◌, ◌∷◌, All, IfNone, IfOk, IfSome, Some};
ghost use Rattle.account_core.specs.Covers.{IsImpossible};
ghost use Rattle.ban_book.specs.Covering.{Covers};
ghost use Rattle.ban_book.specs.Ways.{AreClosed, IsClosed};
ghost use Rattle.pair_domains.specs.Trails.{IsPairOf};
ghost use Rattle.pair_search.specs.Grounded.{LearnsMore};
ghost use Rattle.pair_search.specs.Named.{AreAllGathered, IsGathered, IsLeftOutOr, IsNamedIn};
ghost use Rattle.pair_search.specs.Resolutions.{LeadsIntoBan, left_out};

use crate::deletion::{Deletion, deletion_by};
use crate::gather::is_impossible;
use crate::mismatch::Mismatches;
use crate::resolved::Resolved;
use crate::view::TrailView;
use ban_book::BanBook;
use circuits::Pair;
use items::Items;
use std::alloc::AllocError;

/// Ways, and for each the number of a ban that was noted for it.
#[derive(Clone, Copy)]
pub(crate) struct NotedWays<'a> {
    pub(crate) ways: &'a [Pair],
    pub(crate) bans: &'a [Option<u64>],
}

/// A way, and the number of the ban that was noted for it.
#[derive(Clone, Copy)]
pub(crate) struct NotedWay {
    pub(crate) way: Pair,
    pub(crate) ban: Option<u64>,
}

/// The references of some ways in a cover whose ban has a conflict's pairs. Each way is impossible beside them, or was
/// deleted for a reason that names none but them, or was assigned and leads into a ban of them and it; or the ban that
/// is noted for it leads there. The bans of ways that were deleted by mismatches are made here, unless they were
/// before.
pub(crate) fn refer(
    view: &TrailView<'_>,
    noted: &NotedWays<'_>,
    conflict: &[Pair],
    resolved: Option<Resolved>,
    made: &mut Mismatches,
    book: &mut BanBook,
) -> Result<Items<Option<u64>>, AllocError>
    requires known { All (IsPairOf view.now.domains.now.inputs view.now.domains.now.outputs) noted.now.ways.now }
    requires resolved { LeadsIntoBan book.old conflict.now resolved }
    requires gathered { AreAllGathered book.old view.now.domains.now.entries noted.now.ways.now (left_out resolved)
        conflict.now noted.now.bans.now }
    ensures more { LearnsMore view.now.graphs.now view.now.domains.now.entries book.old book.new }
    ensures closed { IfOk result (AreClosed book.new conflict.now noted.now.ways.now) }
{
    let mut refs = Items::new(view.alloc);
    for (place, way) in noted.ways.iter().enumerate() {
        let ban = noted.bans[place];
        let one = NotedWay { way: *way, ban };
        let reference = reference(view, one, conflict, resolved, made, book)?;
        refs.push(reference)?;
    }
    Ok(refs)
}

// What stands for a way.
fn reference(
    view: &TrailView<'_>,
    noted: NotedWay,
    conflict: &[Pair],
    resolved: Option<Resolved>,
    made: &mut Mismatches,
    book: &mut BanBook,
) -> Result<Option<u64>, AllocError>
    requires known { IsPairOf view.now.domains.now.inputs view.now.domains.now.outputs noted.way }
    requires resolved { LeadsIntoBan book.old conflict.now resolved }
    requires gathered { IsLeftOutOr (left_out resolved) noted.way
        (IsGathered book.old view.now.domains.now.entries conflict.now noted.way noted.ban) }
    ensures more { LearnsMore view.now.graphs.now view.now.domains.now.entries book.old book.new }
    ensures closed { IfOk result (IsClosed book.new conflict.now noted.way) }
{
    let NotedWay { way, ban } = noted;
    if is_impossible(conflict, way) {
        return Ok(None);
    }
    if let Some(ban) = ban_of_resolved(resolved, way) {
        return Ok(Some(ban));
    }
    if let Some(number) = ban {
        return Ok(Some(number));
    }
    let ban = ban_of_deleted(view, way, conflict, made, book)?;
    Ok(Some(ban))
}

// The ban that a way leads into, if it is the resolved one.
fn ban_of_resolved(resolved: Option<Resolved>, way: Pair) -> Option<u64>
    ensures found { IfSome result (λ ban. resolved ≡ Some (record { way = way; ban = ban })) }
    ensures none { IfNone result (IfSome resolved (λ other. other.way ≢ way)) }
{
    let resolved = resolved?;
    if resolved.way == way {
        return Some(resolved.ban);
    }
    None
}

// The ban by which a way was deleted, or that of the mismatch by which it was.
fn ban_of_deleted(
    view: &TrailView<'_>,
    way: Pair,
    conflict: &[Pair],
    made: &mut Mismatches,
    book: &mut BanBook,
) -> Result<u64, AllocError>
    requires known { IsPairOf view.now.domains.now.inputs view.now.domains.now.outputs way }
    requires possible { IsImpossible conflict.now way → ⊥ }
    requires named { IsNamedIn book.old view.now.domains.now.entries conflict.now way }
    ensures more { LearnsMore view.now.graphs.now view.now.domains.now.entries book.old book.new }
    ensures covers { IfOk result (Covers book.new (way ∷ conflict.now)) }
{
    // no pair has two entries
    let _lawful = view.domains.entries();
    // beside the conflict no clash is the reason
    let _ = conflict;
    let Some(reason) = view.domains.reason(way) else {
        unreachable!()
    };
    match deletion_by(view.alloc, way, reason, made, book)? {
        Deletion::Ban(number) => Ok(number),
        Deletion::Clash(_) => unreachable!(),
    }
}
