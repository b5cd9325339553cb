//! Bans that claims of two inputs show of the latest pair.

ghost use Rattle.std.specs.Prelude.{All, Contains, IfOk, IfSome, List};
ghost use Rattle.circuits.specs.declared.port.Pair.{Pair as AnyPair};
ghost use Rattle.account_core.specs.Ports.{IsKnown};
ghost use Rattle.ban_book.specs.Covering.{Covers};
ghost use Rattle.match_search.specs.States.{AreInputsAndOutput, Excludes, GoesOn, MayGoOn, lent};

use crate::session::Session;
use account_core::PairableGraphs;
use circuits::{Pair, PortKind};
use cnf_core::Stop;
use fact_bans::{SwapPairs, swap_mismatch};
use oracle_core::Oracle;

/// Makes a ban that claims of two inputs show of the latest assigned pair and two others, and answers its number; None
/// where none was shown. It goes over all pairs of others. That is cheap enough: a look compares what vectors showed of
/// two claims, and a claim is asked only where that differs.
pub(crate) fn exclude_by_swaps<O: Oracle>(
    graphs: &PairableGraphs<'_>,
    session: &mut Session<'_, O>,
    assigned: &[Pair],
    latest: Pair,
) -> Result<Option<u64>, Stop>
    requires may { MayGoOn graphs.now (lent O.known session.old) }
    requires known { All (IsKnown graphs.now) assigned.now }
    requires latest { Contains assigned.now latest }
    ensures { Excludes graphs.now (lent O.known session.old) (lent O.known session.new) assigned.now result }
{
    for other in assigned.iter() {
        if let Some(ban) = exclude_with(graphs, session, assigned, latest, *other)? {
            return Ok(Some(ban));
        }
    }
    Ok(None)
}

// Makes a ban of the latest pair, an input's, and a third one.
fn exclude_with<O: Oracle>(
    graphs: &PairableGraphs<'_>,
    session: &mut Session<'_, O>,
    assigned: &[Pair],
    latest: Pair,
    other: Pair,
) -> Result<Option<u64>, Stop>
    requires may { MayGoOn graphs.now (lent O.known session.old) }
    requires known { All (IsKnown graphs.now) assigned.now }
    requires latest { Contains assigned.now latest }
    requires other { Contains assigned.now other }
    ensures { Excludes graphs.now (lent O.known session.old) (lent O.known session.new) assigned.now result }
{
    if other.kind == PortKind::Output {
        return Ok(None);
    }
    for third in assigned.iter() {
        if let Some(ban) = exclude_three(graphs, session, latest, other, *third)? {
            return Ok(Some(ban));
        }
    }
    Ok(None)
}

// Makes a ban of three pairs, where the third is an output's and the others are inputs', or the first is an output's.
fn exclude_three<O: Oracle>(
    graphs: &PairableGraphs<'_>,
    session: &mut Session<'_, O>,
    one: Pair,
    other: Pair,
    third: Pair,
) -> Result<Option<u64>, Stop>
    requires may { MayGoOn graphs.now (lent O.known session.old) }
    requires one_known { IsKnown graphs.now one }
    requires other_known { IsKnown graphs.now other }
    requires third_known { IsKnown graphs.now third }
    ensures goes_on { GoesOn graphs.now (lent O.known session.old) (lent O.known session.new) result }
    ensures covers { (pairs : List AnyPair)
        → Contains pairs one
        → Contains pairs other
        → Contains pairs third
        → IfOk result (λ found. IfSome found (Covers session.new.book.now pairs)) }
{
    let Some(pairs) = inputs_and_output(one, other, third) else {
        return Ok(None);
    };
    swap_mismatch(graphs, &mut session.asker, pairs, session.book)
}

// The pairs of two inputs and of an output, if the third pair or the first is the output's.
fn inputs_and_output(one: Pair, other: Pair, third: Pair) -> Option<SwapPairs>
    ensures { IfSome result (AreInputsAndOutput one other third) }
{
    match (one.kind, other.kind, third.kind) {
        (PortKind::Input, PortKind::Input, PortKind::Output) => Some(SwapPairs {
            one,
            other,
            output: third,
        }),
        (PortKind::Output, PortKind::Input, PortKind::Input) => Some(SwapPairs {
            one: other,
            other: third,
            output: one,
        }),
        _ => None,
    }
}
