//! Steps of bans of an AND and an OR of two inputs.

ghost use Rattle.std.specs.Prelude.{All};
ghost use Rattle.account_core.specs.Ports.{IsKnown};
ghost use Rattle.account_core.specs.Steps.{AreNamesKnown};

use crate::graphs::and_or;
use account_core::Step;
use ban_check::{
    Evaluator, Given, OrderedPairs, are_known, are_names_known, has_shown, have_as_many, keeps_rule,
};
use circuits::{Pair, PortKind};
use claim_core::{Claim, Shape};
use items::Items;
use net_core::{Graphs, Side};
use std::alloc::{AllocError, Global};
use std::test::Fail;
use word_sim::Tri;

fn rises(side: Side) -> Claim {
    Claim {
        side,
        output: 0,
        shape: Shape::Up(0),
    }
}

/// Fact 0: the first output falls where input 0 rises. Fact 1: the second one doesn't.
fn add_facts(given: &mut Given) -> Result<(), AllocError> {
    given.add_fact(rises(Side::First), false)?;
    given.add_fact(rises(Side::Second), true)
}

/// Input 0 goes to input 0 and the output to the output, inverted where this is said.
fn pairs_of(input_inverted: bool, output_inverted: bool) -> [Pair; 2] {
    [
        Pair {
            kind: PortKind::Input,
            from: 0,
            to: 0,
            flip: input_inverted,
        },
        Pair {
            kind: PortKind::Output,
            from: 0,
            to: 0,
            flip: output_inverted,
        },
    ]
}

/// Whether a step shows a ban of some pairs.
fn is_shown<'a>(
    alloc: Global,
    graphs: &'a Graphs<'a>,
    given: &Given,
    pairs: &[Pair],
    step: &Step,
) -> Result<bool, AllocError> {
    if !are_known(graphs, pairs) {
        return Ok(false);
    }
    if !are_names_known(graphs, given, step) {
        return Ok(false);
    }
    let Some(ordered) = OrderedPairs::new(alloc, pairs)? else {
        return Ok(false);
    };
    let mut evaluator = Evaluator::new(alloc, graphs);
    let shown = has_shown_by(alloc, &mut evaluator, given, pairs, step)?;
    Ok(shown & keeps_rule(alloc, graphs, given, &ordered, step)?)
}

/// Whether a vector shows a ban, if its step is by one, where what the step names was given.
fn has_shown_by(
    alloc: Global,
    evaluator: &mut Evaluator<'_>,
    given: &Given,
    pairs: &[Pair],
    step: &Step,
) -> Result<bool, AllocError>
    requires known { All (IsKnown evaluator.old) pairs.now }
    requires names { AreNamesKnown evaluator.old given.now step.now }
{
    // of what was given the contract alone speaks
    let _ = given;
    has_shown(alloc, evaluator, pairs, step)
}

/// Whether a ban is shown by a vector, by two facts, and by a fact that isn't there. The AND of a 0 is 0, and the OR of
/// a 1 is 1.
fn ways_shown<'a>(
    alloc: Global,
    graphs: &'a Graphs<'a>,
    given: &Given,
    pairs: &[Pair],
) -> Result<(bool, bool, bool), AllocError> {
    let bits = Items::from_slice(alloc, &[Tri::Zero, Tri::X])?;
    let vector = Step::Vector { output: 0, bits };
    let facts = Step::Mismatch { fails: 0, holds: 1 };
    let absent = Step::Mismatch { fails: 0, holds: 2 };
    Ok((
        is_shown(alloc, graphs, given, pairs, &vector)?,
        is_shown(alloc, graphs, given, pairs, &facts)?,
        is_shown(alloc, graphs, given, pairs, &absent)?,
    ))
}

/// Whether a ban is shown in these ways where both facts are given.
fn ways_shown_by_both<'a>(
    alloc: Global,
    graphs: &'a Graphs<'a>,
    pairs: &[Pair],
) -> Result<(bool, bool, bool), AllocError> {
    let mut given = Given::new(alloc);
    add_facts(&mut given)?;
    ways_shown(alloc, graphs, &given, pairs)
}

#[test]
fn steps_show_bans(rt: HostRuntime) -> Result<(), Fail> {
    let both = and_or(rt.alloc())?;
    let graphs = both.graphs();
    assert!(rt; have_as_many(&graphs) & OrderedPairs::new(rt.alloc(), &[])?.is_some());
    for (input_inverted, output_inverted, by_vector, by_mismatch) in [
        (false, false, false, true),
        (true, false, true, false),
        (false, true, false, false),
        (true, true, false, true),
    ] {
        let pairs = pairs_of(input_inverted, output_inverted);
        let shown = ways_shown_by_both(rt.alloc(), &graphs, pairs.as_slice())?;
        assert_eq!(rt; shown, (by_vector, by_mismatch, false), "of {pairs:?}");
    }
    Ok(())
}
