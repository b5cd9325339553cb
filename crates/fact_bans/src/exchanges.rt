//! Bans of an output's pair and two inputs', by a claim of the two inputs that fails where its image holds.

ghost use Rattle.std.specs.Prelude.{◌≡◌, ◌≢◌, ◌<◌, IfOk, IfSome};
ghost use Rattle.net_core.specs.declared.graphs.Side.TheVariants as AnySide;
ghost use Rattle.ban_book.specs.Covering.{Covers};
ghost use Rattle.claim_core.specs.declared.claims.Shape.TheVariants as AnyShape;
ghost use Rattle.claim_core.specs.Images.{moved_value, two_inputs};
ghost use Rattle.fact_bans.specs.Carrying.{AreSwapPairs, all_of};
ghost use Rattle.fact_bans.specs.Asking.{AreSame, MakesBy, MayMakeBy, loans};

use crate::asker::Asker;
use crate::mismatched::keep_carried;
use account_core::PairableGraphs;
use ban_book::{BanBook, Carried, two_inputs};
use broken_claims::BrokenClaims;
use circuits::Pair;
use claim_core::{Claim, Shape, moved_value};
use cnf_core::Stop;
use net_core::Side;
use oracle_core::Oracle;

/// The pairs of two inputs and of an output.
#[derive(Clone, Copy, Debug, Drop)]
pub struct SwapPairs {
    pub one: Pair,
    pub other: Pair,
    pub output: Pair,
}

/// Makes a ban of the pairs of two inputs and an output where a claim of both inputs of the one circuit fails that
/// holds for the other one, as where two inputs may be exchanged and their partners may not. Answers its number; None
/// where none was shown, or the inputs' pairs share a port. Only claims are asked of which vectors break one and not
/// the other; none that holds since the output is unate in both inputs, where a claim of one input tells the circuits
/// apart.
///
/// # Errors
///
/// `Spent` where a line had to be learned and the ledger's budget was spent. `Memory` when out of memory.
pub fn swap_mismatch<O: Oracle>(
    graphs: &PairableGraphs<'_>,
    asker: &mut Asker<'_, O>,
    pairs: SwapPairs,
    book: &mut BanBook,
) -> Result<Option<u64>, Stop>
    requires may { MayMakeBy graphs.now (loans O.known asker.old) book.old }
    requires pairs { AreSwapPairs graphs.now pairs }
    ensures same { AreSame (loans O.known asker.old) (loans O.known asker.new) }
    ensures makes { MakesBy graphs.now (loans O.known asker.old) (loans O.known asker.new) book.old book.new result }
    ensures covers { IfOk result (λ found. IfSome found (Covers book.new (all_of pairs))) }
{
    let SwapPairs { one, other, output } = pairs;
    if (one.from == other.from) | (one.to == other.to) {
        return Ok(None);
    }
    if one.from < other.from {
        return by_values(graphs, asker, pairs, book);
    }
    let exchanged = SwapPairs {
        one: other,
        other: one,
        output,
    };
    by_values(graphs, asker, exchanged, book)
}

// Makes a ban of the pairs, of which the first input's comes first, by the claim of values that is worth asking.
fn by_values<O: Oracle>(
    graphs: &PairableGraphs<'_>,
    asker: &mut Asker<'_, O>,
    pairs: SwapPairs,
    book: &mut BanBook,
) -> Result<Option<u64>, Stop>
    requires may { MayMakeBy graphs.now (loans O.known asker.old) book.old }
    requires pairs { AreSwapPairs graphs.now pairs }
    requires before { pairs.one.from < pairs.other.from }
    requires apart { pairs.one.to ≢ pairs.other.to }
    ensures same { AreSame (loans O.known asker.old) (loans O.known asker.new) }
    ensures makes { MakesBy graphs.now (loans O.known asker.old) (loans O.known asker.new) book.old book.new result }
    ensures covers { IfOk result (λ found. IfSome found (Covers book.new (all_of pairs))) }
{
    asker.broken.look_at_swaps(asker.alloc, graphs)?;
    let Some(values) = values_to_ask(pairs, asker.broken) else {
        return Ok(None);
    };
    let carried = carried(pairs, values);
    let pairs = [pairs.one, pairs.other, pairs.output];
    keep_carried(graphs, asker, &pairs, carried, book)
}

/// All values of two inputs.
static VALUES: [(bool, bool); 4] = [(false, true), (true, false), (false, false), (true, true)];

// The values whose claim vectors break for one circuit and not for the other one, for which it isn't unateness that
// keeps it.
fn values_to_ask(pairs: SwapPairs, broken: &BrokenClaims) -> Option<(bool, bool)> {
    for values in VALUES.iter() {
        if is_worth(carried(pairs, *values), broken) {
            return Some(*values);
        }
    }
    None
}

fn is_worth(carried: Carried, broken: &BrokenClaims) -> bool {
    match (
        broken.is_swap_broken(carried.claim),
        broken.is_swap_broken(carried.image),
    ) {
        (Some(true), Some(false)) => !broken.is_by_unateness(carried.image),
        (Some(false), Some(true)) => !broken.is_by_unateness(carried.claim),
        _ => false,
    }
}

// The claim of the inputs with values, and its image.
fn carried(pairs: SwapPairs, values: (bool, bool)) -> Carried
    ensures claim { result.claim ≡ record {
      side = AnySide.First;
      output = pairs.output.from;
      shape = AnyShape.Swap pairs.one.from pairs.other.from values.0 values.1;
    } }
    ensures image { result.image ≡ record {
      side = AnySide.Second;
      output = pairs.output.to;
      shape = two_inputs
          pairs.one.to (moved_value pairs.output.flip pairs.one values.0)
          pairs.other.to (moved_value pairs.output.flip pairs.other values.1);
    } }
{
    let SwapPairs { one, other, output } = pairs;
    let (first, second) = values;
    Carried {
        claim: Claim {
            side: Side::First,
            output: output.from,
            shape: Shape::Swap {
                i: one.from,
                j: other.from,
                a: first,
                b: second,
            },
        },
        image: Claim {
            side: Side::Second,
            output: output.to,
            shape: two_inputs(
                one.to,
                moved_value(output.flip, one, first),
                other.to,
                moved_value(output.flip, other, second),
            ),
        },
    }
}
