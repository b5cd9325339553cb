//! Queries under the same feeds.

ghost use Rattle.std.specs.Prelude.{IsTrue};
ghost use Rattle.shared_lemmas.specs.Shared.{HaveSameFeeds};

use claim_core::Query;

/// Whether two queries are of the same circuits, whose inputs get the same bits in both. Only `true` is promised to
/// be right.
pub(crate) fn have_same_feeds(one: &Query, other: &Query) -> bool
    ensures { IsTrue result → HaveSameFeeds one.now other.now }
{
    (one.left.side == other.left.side)
        & (one.right.side == other.right.side)
        & (one.left.feed == other.left.feed)
        & (one.right.feed == other.right.feed)
}
