ghost use Rattle.std.specs.Prelude.{◌≡◌, ◌↔◌, ◌∷◌, Contains, IsTrue};
ghost use Rattle.circuits.specs.declared.port.Pair.{Pair as AnyPair};
ghost use Rattle.ban_check.specs.PairIndices.{AreMissing, IsAllMissing};

use crate::pair_index::PairIndex;
use circuits::Pair;

/// Which pairs of an earlier ban aren't among those of the ban that is checked.
#[derive(Clone, Copy, Drop)]
pub(crate) enum Missing {
    /// All are.
    None,
    /// This pair alone isn't.
    One(Pair),
    /// Several that differ aren't.
    Several,
}

/// Which pairs of an earlier ban aren't among those of the ban that is checked.
pub(crate) fn missing_of(pairs: &PairIndex<'_>, ban: &[Pair]) -> Missing
    ensures { AreMissing pairs.now ban.now result }
{
    let mut missing = Missing::None;
    for pair in ban.iter() {
        missing = with_next(pairs, missing, *pair);
    }
    missing
}

// What is missing with one pair more.
fn with_next(pairs: &PairIndex<'_>, missing: Missing, pair: Pair) -> Missing
    ensures { (more : AnyPair) →
        (IsAllMissing result more ↔ (IsAllMissing missing more × Contains (more ∷ pairs.now) pair)) }
{
    if pairs.has(pair) {
        return missing;
    }
    with_missing(missing, pair)
}

// What is missing with one pair more that is.
fn with_missing(missing: Missing, pair: Pair) -> Missing
    ensures { (more : AnyPair) → (IsAllMissing result more ↔ (IsAllMissing missing more × (pair ≡ more))) }
{
    match missing {
        Missing::None => Missing::One(pair),
        Missing::One(one) => {
            if one == pair {
                missing
            } else {
                Missing::Several
            }
        }
        Missing::Several => missing,
    }
}

/// Whether a pair is all that is missing.
pub(crate) fn is_all(missing: Missing, pair: Pair) -> bool
    ensures { IsTrue result ↔ IsAllMissing missing pair }
{
    match missing {
        Missing::None => true,
        Missing::One(one) => one == pair,
        Missing::Several => false,
    }
}
