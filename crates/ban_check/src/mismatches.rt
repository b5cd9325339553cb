//! Bans by a claim that fails for one circuit while the claim that a match would carry it to holds for the other.

ghost use Rattle.std.specs.Prelude.{◌↔◌, IsTrue};
ghost use Rattle.account_core.specs.Mismatches.{IsImage, IsMismatch};

use crate::given::Given;
use circuits::Pair;
use claim_core::{Claim, image};
use net_core::Side;

/// Whether a fact fails and another one holds, of a claim of the first circuit and of its image under the pairs.
pub(crate) fn is_mismatch(given: &Given, pairs: &[Pair], fails: u64, holds: u64) -> bool
    ensures { IsTrue result ↔ IsMismatch given.now pairs.now fails holds }
{
    let one = given.fact(fails);
    let other = given.fact(holds);
    if one.holds | !other.holds {
        return false;
    }
    is_image(pairs, one.claim, other.claim) | is_image(pairs, other.claim, one.claim)
}

// Whether a claim is of the first circuit, and another one is its image.
fn is_image(pairs: &[Pair], claim: Claim, other: Claim) -> bool
    ensures { IsTrue result ↔ IsImage pairs.now claim other }
{
    let Some(found) = image(&claim, pairs) else {
        return false;
    };
    (claim.side == Side::First) & (found == other)
}
