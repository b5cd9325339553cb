//! Bans by a vector on which an output and its partner differ, whatever the inputs are that aren't paired.

ghost use Rattle.std.specs.Prelude.{◌≡◌, ◌≢◌, ◌<◌, ◌↔◌, All, IsTrue, IfOk, length};
ghost use Rattle.word_sim.specs.declared.tri.Tri.TheVariants.{X};
ghost use Rattle.account_core.specs.Ports.{IsKnown};
ghost use Rattle.account_core.specs.Vectors.{ShowsDifference};

use crate::evaluator::Evaluator;
use account_core::values_sent;
use circuits::{Pair, PortKind};
use claim_core::pair_of;
use net_core::{Side, SignalValue};
use std::alloc::{AllocError, Global};
use word_sim::Tri;

/// Whether there is a value for each input of the first circuit, and on them the output and its partner are definite
/// and differ by the sign of their pair.
pub(crate) fn shows_difference(
    alloc: Global,
    evaluator: &mut Evaluator<'_>,
    pairs: &[Pair],
    output: u32,
    values: &[Tri],
) -> Result<bool, AllocError>
    requires known { All (IsKnown evaluator.old) pairs.now }
    requires output { output < length evaluator.old.first.outputs }
    ensures same { evaluator.new ≡ evaluator.old }
    ensures shows { IfOk result (λ shows. IsTrue shows ↔ ShowsDifference evaluator.old pairs.now output values.now) }
{
    let Some(pair) = pair_of(pairs, PortKind::Output, output) else {
        return Ok(false);
    };
    let graphs = evaluator.graphs();
    if values.len() != graphs.first().inputs() as usize {
        return Ok(false);
    }
    let sent = values_sent(alloc, pairs, graphs.second().inputs(), values)?;
    let first = evaluator.tri(alloc, Side::First, output, values)?;
    let second = evaluator.tri(alloc, Side::Second, pair.to, &sent)?;
    Ok(are_opposite(first, second.signed(pair.flip)))
}

// Whether two values are definite and differ.
fn are_opposite(one: Tri, other: Tri) -> bool
    ensures { IsTrue result ↔ ((one ≢ X) × (other ≢ X) × (one ≢ other)) }
{
    match (one, other) {
        (Tri::Zero, Tri::One) | (Tri::One, Tri::Zero) => true,
        _ => false,
    }
}
