//! Bans that decided claims show of assigned pairs.

ghost use Rattle.std.specs.Prelude.{◌<◌, Contains, IfSome};
ghost use Rattle.account_core.specs.Ports.{IsKnown};
ghost use Rattle.pair_domains.specs.Trails.{assigned_in};
ghost use Rattle.pair_search.specs.ConflictSets.{FitPorts};
ghost use Rattle.match_search.specs.States.{GoesOn, MayGoOn, MayStep, Steps, lent, AreOfBothKinds};

use crate::session::Session;
use account_core::{PairableGraphs, Port};
use circuits::{Pair, PortKind};
use class_refine::Domains;
use cnf_core::Stop;
use fact_bans::{mismatch, tally};
use net_core::Side;
use oracle_core::Oracle;
use pair_search::way_of;

/// Makes the tallies of an output of the first circuit and each of the second.
pub(crate) fn ask_output<O: Oracle>(
    graphs: &PairableGraphs<'_>,
    session: &mut Session<'_, O>,
    domains: &Domains,
    output: u32,
) -> Result<(), Stop>
    requires may { MayGoOn graphs.now (lent O.known session.old) }
    requires fit { FitPorts graphs.now domains.now.inputs domains.now.outputs }
    requires there { output < domains.now.outputs }
    ensures { GoesOn graphs.now (lent O.known session.old) (lent O.known session.new) result }
{
    let port = Port {
        side: Side::First,
        kind: PortKind::Output,
        number: output,
    };
    let count = domains.ports(PortKind::Output);
    for number in 0..2 * count as u64 {
        let way = way_of(domains, port, number);
        ask_alone(graphs, session, way)?;
    }
    Ok(())
}

/// Makes the bans that decided claims show of an assigned pair: by itself, or with another assigned one. Such bans have
/// one pair or two, so that what refers to them needs few pairs too. Answers whether there are any.
pub(crate) fn ask_assigned<O: Oracle>(
    graphs: &PairableGraphs<'_>,
    session: &mut Session<'_, O>,
    domains: &Domains,
    pair: Pair,
) -> Result<bool, Stop>
    requires may { MayStep graphs.now (lent O.known session.old) domains.now }
    requires assigned { Contains (assigned_in domains.now.entries) pair }
    ensures steps { Steps graphs.now (lent O.known session.old) (lent O.known session.new) domains.now result }
{
    // assigned pairs are of ports that exist, and share none
    let _lawful = domains.entries();
    let count = session.book.bans().len();
    let assigned = domains.pairs();
    ask_alone(graphs, session, pair)?;
    for other in assigned.iter() {
        ask_two(graphs, session, pair, *other)?;
    }
    Ok(session.book.bans().len() > count)
}

// Makes the tally of a pair of outputs.
fn ask_alone<O: Oracle>(
    graphs: &PairableGraphs<'_>,
    session: &mut Session<'_, O>,
    pair: Pair,
) -> Result<Option<u64>, Stop>
    requires may { MayGoOn graphs.now (lent O.known session.old) }
    requires known { IsKnown graphs.now pair }
    ensures { GoesOn graphs.now (lent O.known session.old) (lent O.known session.new) result }
{
    match pair.kind {
        PortKind::Output => tally(graphs, &mut session.asker, pair, session.book),
        PortKind::Input => Ok(None),
    }
}

// Makes a mismatch of two pairs, if they are of different kinds.
fn ask_two<O: Oracle>(
    graphs: &PairableGraphs<'_>,
    session: &mut Session<'_, O>,
    pair: Pair,
    other: Pair,
) -> Result<Option<u64>, Stop>
    requires may { MayGoOn graphs.now (lent O.known session.old) }
    requires known { IsKnown graphs.now pair }
    requires other { IsKnown graphs.now other }
    ensures { GoesOn graphs.now (lent O.known session.old) (lent O.known session.new) result }
{
    let Some((input, output)) = input_and_output(pair, other) else {
        return Ok(None);
    };
    mismatch(graphs, &mut session.asker, input, output, session.book)
}

/// Of two pairs of different kinds the input's, and the output's. None where they are of one kind.
pub(crate) fn input_and_output(pair: Pair, other: Pair) -> Option<(Pair, Pair)>
    ensures { IfSome result (AreOfBothKinds pair other) }
{
    match (pair.kind, other.kind) {
        (PortKind::Input, PortKind::Output) => Some((pair, other)),
        (PortKind::Output, PortKind::Input) => Some((other, pair)),
        _ => None,
    }
}
