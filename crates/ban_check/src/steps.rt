//! When a step shows that no match has all of a ban's pairs.

ghost use Rattle.std.specs.Prelude.{◌≡◌, ◌↔◌, All, IsTrue, IfOk};
ghost use Rattle.account_core.specs.Given.{Given as AnyGiven, IsFactGiven};
ghost use Rattle.account_core.specs.Ports.{IsKnown};
ghost use Rattle.account_core.specs.Steps.{AreNamesKnown, HasShown, KeepsRule};

use crate::covers::{are_cover_names, is_cover};
use crate::evaluator::Evaluator;
use crate::given::Given;
use crate::mismatches::is_mismatch;
use crate::ordered::OrderedPairs;
use crate::references::References;
use crate::tallies::is_tally;
use crate::vectors::shows_difference;
use account_core::Step;
use circuits::{Pair, PortKind};
use claim_core::pair_of;
use net_core::Graphs;
use std::alloc::{AllocError, Global};

/// Whether the output, the ports, the facts and the bans are there that a step names.
pub fn are_names_known(graphs: &Graphs<'_>, given: &Given, step: &Step) -> bool
    ensures { IsTrue result ↔ AreNamesKnown graphs.now given.now step.now }
{
    match step {
        Step::Vector { output, .. } => (*output as usize) < graphs.first().outputs().len(),
        Step::Mismatch { fails, holds } => given.has_fact(*fails) & given.has_fact(*holds),
        Step::Tally { have, lack, .. } => have_facts(given, have) & have_facts(given, lack),
        Step::Cover {
            kind,
            from,
            to,
            refs,
        } => are_cover_names(graphs, given, *kind, from, to, refs),
    }
}

// Whether the facts of some numbers were given.
fn have_facts(given: &Given, numbers: &[u64]) -> bool
    ensures { IsTrue result ↔ All (IsFactGiven given.now) numbers.now }
{
    numbers.iter().all(|number| given.has_fact(*number))
}

/// Whether a step keeps its rule: a vector is of a paired output; a mismatch is of a failing claim and its image; a
/// tally counts too many inputs; a cover excludes each way.
pub fn keeps_rule(
    alloc: Global,
    graphs: &Graphs<'_>,
    given: &Given,
    pairs: &OrderedPairs<'_>,
    step: &Step,
) -> Result<bool, AllocError>
    ensures { IfOk result (λ keeps. IsTrue keeps ↔ KeepsRule graphs.now given.now pairs.now step.now) }
{
    let listed = pairs.as_slice();
    match step {
        Step::Vector { output, .. } => Ok(pair_of(listed, PortKind::Output, *output).is_some()),
        Step::Mismatch { fails, holds } => Ok(is_mismatch(given, listed, *fails, *holds)),
        Step::Tally { kind, have, lack } => {
            Ok(is_tally(graphs, given, listed, *kind, have, lack))
        }
        Step::Cover {
            kind,
            from,
            to,
            refs,
        } => {
            let mut references = References::new(alloc, given, pairs)?;
            is_cover(graphs, &mut references, *kind, from, to, refs)
        }
    }
}

/// Whether a step's vector shows what it is given for, if it has one.
pub fn has_shown(
    alloc: Global,
    evaluator: &mut Evaluator<'_>,
    pairs: &[Pair],
    step: &Step,
) -> Result<bool, AllocError>
    requires known { All (IsKnown evaluator.old) pairs.now }
    requires names { (given : AnyGiven) × AreNamesKnown evaluator.old given step.now }
    ensures same { evaluator.new ≡ evaluator.old }
    ensures shown { IfOk result (λ shown. IsTrue shown ↔ HasShown evaluator.old pairs.now step.now) }
{
    match step {
        Step::Vector { output, bits } => shows_difference(alloc, evaluator, pairs, *output, bits),
        _ => Ok(true),
    }
}
