ghost use Rattle.std.specs.Prelude.{◌≡◌, All, IfOk};
ghost use Rattle.account_core.specs.Ports.{IsKnown};
ghost use Rattle.account_check.specs.Bans.{BanTests, StepTests};
ghost use Rattle.account_check.specs.Conclusions.{PortsTest};

use crate::dropped::Dropped;
use crate::reject::Reject;
use account_core::{Ban, Step};
use ban_check::{
    Evaluator, Given, OrderedPairs, are_known, are_names_known, has_shown, have_as_many, keeps_rule,
};
use std::alloc::{AllocError, Global};

/// What is wrong with a ban: the circuits differ in their numbers of ports; a port of its pairs doesn't exist; its
/// pairs are out of order; what its step names isn't there, or was dropped; the step's rule is broken; the step's
/// vector shows no difference.
pub(crate) fn test_ban(
    alloc: Global,
    evaluator: &mut Evaluator<'_>,
    given: &Given,
    dropped: &Dropped,
    ban: &Ban,
) -> Result<Option<Reject>, AllocError>
    ensures same { evaluator.new ≡ evaluator.old }
    ensures tests { IfOk result (PortsTest evaluator.old (BanTests evaluator.old given.now dropped.now ban.now)) }
{
    let graphs = evaluator.graphs();
    if !have_as_many(graphs) {
        return Ok(Some(Reject::Conclusion));
    }
    if !are_known(graphs, &ban.pairs) {
        return Ok(Some(Reject::UnknownId));
    }
    let Some(pairs) = OrderedPairs::new(alloc, &ban.pairs)? else {
        return Ok(Some(Reject::Rule));
    };
    test_step(alloc, evaluator, given, dropped, &pairs, &ban.step)
}

// What is wrong with the step of a ban of some pairs.
fn test_step(
    alloc: Global,
    evaluator: &mut Evaluator<'_>,
    given: &Given,
    dropped: &Dropped,
    pairs: &OrderedPairs<'_>,
    step: &Step,
) -> Result<Option<Reject>, AllocError>
    requires { All (IsKnown evaluator.old) pairs.now }
    ensures same { evaluator.new ≡ evaluator.old }
    ensures tests { IfOk result
        (StepTests evaluator.old given.now dropped.now (record { pairs = pairs.now; step = step.now })) }
{
    let graphs = evaluator.graphs();
    if !are_names_known(graphs, given, step) {
        return Ok(Some(Reject::UnknownId));
    }
    if !dropped.keeps_names(step) {
        return Ok(Some(Reject::UnknownId));
    }
    if !keeps_rule(alloc, graphs, given, pairs, step)? {
        return Ok(Some(Reject::Rule));
    }
    if !has_shown(alloc, evaluator, pairs.as_slice(), step)? {
        return Ok(Some(Reject::VectorFails));
    }
    Ok(None)
}
