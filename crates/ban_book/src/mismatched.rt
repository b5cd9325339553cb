//! Mismatches: a claim of the first circuit holds where its image under pairs fails, or the other way round.

ghost use Rattle.std.specs.Prelude.{◌≡◌, IfOk};
ghost use Rattle.net_core.specs.declared.graphs.Side.TheVariants as AnySide;
ghost use Rattle.claim_core.specs.Images.{moved_value, one_input};
ghost use Rattle.ban_book.specs.Mismatched.{mismatch_of, unlike_of};

use crate::input_claims::DecidedClaim;
use crate::ports::one_input;
use account_core::{Ban, Step};
use circuits::Pair;
use claim_core::{Claim, moved_value};
use items::Few;
use net_core::Side;
use std::alloc::{AllocError, Global};

/// A claim of the first circuit, and its image under pairs, a claim of the second.
#[derive(Clone, Copy, Debug, Drop)]
pub struct Carried {
    pub claim: Claim,
    pub image: Claim,
}

/// The claim of the first circuit for a change of an input from a value at an output, and its image under the pairs of
/// both.
pub fn carry(input: Pair, output: Pair, value: bool) -> Carried
    ensures claim { result.claim ≡ record {
      side = AnySide.First;
      output = output.from;
      shape = one_input input.from value;
    } }
    ensures image { result.image ≡ record {
      side = AnySide.Second;
      output = output.to;
      shape = one_input input.to (moved_value output.flip input value);
    } }
{
    Carried {
        claim: Claim {
            side: Side::First,
            output: output.from,
            shape: one_input(input.from, value),
        },
        image: Claim {
            side: Side::Second,
            output: output.to,
            shape: one_input(input.to, moved_value(output.flip, input, value)),
        },
    }
}

/// The numbers of two facts, of a claim and of its image under pairs, one of which fails and one holds: no match has
/// these pairs.
#[derive(Clone, Copy, Debug, Drop, PartialEq, Eq)]
pub struct Unlike {
    pub fails: u64,
    pub holds: u64,
}

/// Two decided claims, of which one fails and one holds, sorted by that.
pub fn unlike_of(one: DecidedClaim, other: DecidedClaim) -> Unlike
    ensures { result ≡ unlike_of one.holds one.number other.number }
{
    if one.holds {
        Unlike {
            fails: other.number,
            holds: one.number,
        }
    } else {
        Unlike {
            fails: one.number,
            holds: other.number,
        }
    }
}

/// The ban of these pairs by a mismatch of two facts.
///
/// # Errors
///
/// When out of memory.
pub fn mismatch_ban(alloc: Global, pairs: &[Pair], unlike: Unlike) -> Result<Ban, AllocError>
    ensures { IfOk result (λ ban. ban ≡ mismatch_of pairs.now unlike) }
{
    let pairs = Few::from_slice(alloc, pairs)?;
    let Unlike { fails, holds } = unlike;
    Ok(Ban {
        pairs,
        step: Step::Mismatch { fails, holds },
    })
}
