//! Bans of assigned pairs that decided claims show.

ghost use Rattle.std.specs.Prelude.{◌≡◌, [], ◌∷◌, ◌++◌, All, IfNone, IfOk, IfSome};
ghost use Rattle.circuits.specs.declared.port.PortKind.TheVariants as AnyKind;
ghost use Rattle.account_core.specs.Ports.{IsKnown};
ghost use Rattle.ban_book.specs.Vectors.{HaveNoFacts};
ghost use Rattle.ban_book.specs.Shown.{IsShownBan};
ghost use Rattle.account_core.specs.Assigned.{AreAssignable};
ghost use Rattle.class_refine.specs.Rows.{AreGrounds, AreInputs, AreInputsOf, ShowNothingAt, decided};

use crate::grounds::Grounds;
use crate::rows::row_at;
use account_core::Ban;
use ban_book::ban_by_facts;
use circuits::{Pair, PortKind};
use std::alloc::{AllocError, Global};

/// The ban that decided claims show of a way beside the assigned pairs, of which they show none: of an input's with
/// each assigned output's, of an output's with all assigned inputs'.
pub(crate) fn way_ban(
    alloc: Global,
    grounds: &Grounds<'_>,
    assigned: &[Pair],
    way: Pair,
) -> Result<Option<Ban>, AllocError>
    requires grounds { AreGrounds grounds.now }
    requires assigned { AreAssignable grounds.now.graphs.now assigned.now }
    requires inputs { AreInputsOf assigned.now grounds.now.inputs.now }
    requires alone { ShowNothingAt grounds.now.graphs.now (decided grounds.now) grounds.now.inputs.now assigned.now }
    requires known { IsKnown grounds.now.graphs.now way }
    ensures shown { IfOk result
        (λ found. IfSome found (IsShownBan grounds.now.graphs.now (decided grounds.now) (way ∷ assigned.now))) }
    ensures none { IfOk result
        (λ found. IfNone found (HaveNoFacts grounds.now.graphs.now (decided grounds.now) (way ∷ assigned.now))) }
{
    match way.kind {
        PortKind::Input => ban_of_assigned(alloc, grounds, assigned, &[way]),
        PortKind::Output => output_ban(alloc, grounds, grounds.inputs, way),
    }
}

/// The ban that decided claims show of pairs of inputs and one of some outputs.
pub(crate) fn ban_of_assigned(
    alloc: Global,
    grounds: &Grounds<'_>,
    assigned: &[Pair],
    inputs: &[Pair],
) -> Result<Option<Ban>, AllocError>
    requires grounds { AreGrounds grounds.now }
    requires inputs { AreInputs grounds.now.graphs.now inputs.now }
    requires assigned { All (IsKnown grounds.now.graphs.now) assigned.now }
    ensures shown { IfOk result (λ found. IfSome found
        (IsShownBan grounds.now.graphs.now (decided grounds.now) (inputs.now ++ assigned.now))) }
    ensures none { IfOk result (λ found. IfNone found
        (ShowNothingAt grounds.now.graphs.now (decided grounds.now) inputs.now assigned.now)) }
{
    for pair in assigned.iter() {
        if let Some(ban) = pair_ban(alloc, grounds, inputs, *pair)? {
            return Ok(Some(ban));
        }
    }
    Ok(None)
}

// The ban that decided claims show of pairs of inputs and another pair, if that is of an output.
fn pair_ban(
    alloc: Global,
    grounds: &Grounds<'_>,
    inputs: &[Pair],
    pair: Pair,
) -> Result<Option<Ban>, AllocError>
    requires grounds { AreGrounds grounds.now }
    requires inputs { AreInputs grounds.now.graphs.now inputs.now }
    requires known { IsKnown grounds.now.graphs.now pair }
    ensures shown { IfOk result (λ found. IfSome found
        (IsShownBan grounds.now.graphs.now (decided grounds.now) (inputs.now ++ pair ∷ []))) }
    ensures none { IfOk result (λ found. IfNone found
        (pair.kind ≡ AnyKind.Output → HaveNoFacts grounds.now.graphs.now (decided grounds.now)
        (inputs.now ++ pair ∷ []))) }
{
    match pair.kind {
        PortKind::Input => Ok(None),
        PortKind::Output => output_ban(alloc, grounds, inputs, pair),
    }
}

// The ban that decided claims show of pairs of inputs and an output's.
fn output_ban(
    alloc: Global,
    grounds: &Grounds<'_>,
    inputs: &[Pair],
    output: Pair,
) -> Result<Option<Ban>, AllocError>
    requires grounds { AreGrounds grounds.now }
    requires inputs { AreInputs grounds.now.graphs.now inputs.now }
    requires known { IsKnown grounds.now.graphs.now output }
    requires kind { output.kind ≡ AnyKind.Output }
    ensures shown { IfOk result (λ found. IfSome found
        (IsShownBan grounds.now.graphs.now (decided grounds.now) (inputs.now ++ output ∷ []))) }
    ensures none { IfOk result (λ found. IfNone found
        (HaveNoFacts grounds.now.graphs.now (decided grounds.now) (inputs.now ++ output ∷ []))) }
{
    let pairs = with_output(alloc, inputs, output)?;
    let first = row_at(&grounds.rows.first, output.from);
    let second = row_at(&grounds.rows.second, output.to);
    ban_by_facts(alloc, grounds.graphs, &pairs, output, first, second)
}

// Pairs of inputs, and one of outputs after them.
fn with_output(alloc: Global, inputs: &[Pair], output: Pair) -> Result<Vec<Pair>, AllocError>
    ensures { IfOk result (λ pairs. pairs.items ≡ inputs.now ++ output ∷ []) }
{
    let mut pairs = Vec::from_slice(alloc, inputs)?;
    pairs.push(output)?;
    Ok(pairs)
}
