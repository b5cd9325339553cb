//! Bans that the rows of two outputs show.

ghost use Rattle.std.specs.Prelude.{◌≡◌, All, IfNone, IfOk, IfSome, length};
ghost use Rattle.account_core.specs.Ports.{AreOrdered, IsKnown};
ghost use Rattle.ban_book.specs.Rows.{HasOneOutput};
ghost use Rattle.ban_book.specs.Shown.{HaveNothing, IsShownByRows};

use crate::input_claims::InputClaims;
use crate::mismatches::mismatch_by_rows;
use crate::tallies::tally_by_rows;
use account_core::{Ban, PairableGraphs};
use circuits::Pair;
use std::alloc::{AllocError, Global};

/// A ban of some of these pairs, one of which is of outputs, by the decided claims of one input of both outputs: one
/// output depends on more inputs than the other, or is binate in more (a tally); or a claim of the first circuit holds
/// and its image under the pairs fails, or the other way round (a mismatch). None exactly where no tally and no
/// mismatch of such claims is valid for the pairs. No oracle is asked.
///
/// Tallies come first: their bans are of the outputs' pair alone.
///
/// # Errors
///
/// When out of memory.
pub fn ban_by_facts(
    alloc: Global,
    graphs: &PairableGraphs<'_>,
    pairs: &[Pair],
    pair: Pair,
    first: &[InputClaims],
    second: &[InputClaims],
) -> Result<Option<Ban>, AllocError>
    requires known { All (IsKnown graphs.now) pairs.now }
    requires ordered { AreOrdered pairs.now }
    requires output { HasOneOutput pairs.now pair }
    requires first { length first.now ≡ graphs.now.first.inputs }
    requires second { length second.now ≡ graphs.now.second.inputs }
    ensures shown { IfOk result (λ found. IfSome found (IsShownByRows graphs.now pairs.now pair first.now second.now)) }
    ensures none { IfOk result (λ found. IfNone found (HaveNothing graphs.now pairs.now pair first.now second.now)) }
{
    // the gates of a graph are in order, and its ports fewer than 2^32
    let _first = graphs.first();
    match tally_by_rows(alloc, pair, first, second)? {
        Some(ban) => Ok(Some(ban)),
        None => mismatch_by_rows(alloc, pairs, pair, first, second),
    }
}
