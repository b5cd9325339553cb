//! Whole matchings, which are compared output by output.

ghost use Rattle.std.specs.Prelude.{◌≡◌, ◌<◌, [], IfNone, IfOk, IfSome, length};
ghost use Rattle.oracle_core.specs.Oracles.{Serves, Suits};
ghost use Rattle.circuits.specs.Matches.{HavePorts};
ghost use Rattle.account_core.specs.Shown.{AreLogs};
ghost use Rattle.match_search.specs.Founds.{IsComparison};
ghost use Rattle.account_core.specs.Assigned.{IsWhole};
ghost use Rattle.match_search.specs.States.{IsWholeCompared, MayCompare, MayStep, Steps, lent};
ghost use Rattle.vector_bans.specs.Differences.{Differs};
ghost use Rattle.pair_domains.specs.Trails.{assigned_in};

use crate::ahead::WholeCompared;
use crate::matching::matching_of;
use crate::session::Session;
use account_core::PairableGraphs;
use bit_list::Bits;
use class_refine::Domains;
use cnf_core::{Log, Stop};
use items::Items;
use net_core::Matching;
use oracle_core::{Compared, Oracle};
use query_core::Ledger;
use std::alloc::Global;
use vector_bans::{Difference, exclude};
use watch_core::Stage;

/// Compares all outputs under the pairs that are assigned, one of each port. Where one differs, it keeps the vector,
/// and makes a ban of which all pairs are assigned.
pub(crate) fn compare_whole<O: Oracle>(
    graphs: &PairableGraphs<'_>,
    session: &mut Session<'_, O>,
    domains: &Domains,
) -> Result<WholeCompared, Stop>
    requires may { MayStep graphs.now (lent O.known session.old) domains.now }
    requires whole { IsWhole graphs.now (assigned_in domains.now.entries) }
    ensures steps { Steps graphs.now (lent O.known session.old) (lent O.known session.new) domains.now result }
    ensures compared { IfOk result (IsWholeCompared graphs.now session.new.book.now (assigned_in domains.now.entries)) }
{
    // the gates of a graph are in order
    let _first = graphs.first();
    let _second = graphs.second();
    // assigned pairs are of ports that exist, and share none
    let _lawful = domains.entries();
    let asker = &mut session.asker;
    let alloc = asker.alloc;
    let matching = matching_of(alloc, graphs, domains.pairs())?;
    let mut logs = Items::new(alloc);
    match compare_all(
        alloc,
        graphs,
        asker.oracle,
        &matching,
        asker.ledger,
        &mut logs,
    )? {
        None => Ok(WholeCompared::Match(matching, logs)),
        Some(found) => {
            session
                .heuristics
                .trials
                .keep(alloc, graphs.first(), &found.vector)?;
            let ban = exclude(graphs, &mut session.asker, &matching, &found, session.book)?;
            Ok(WholeCompared::Ban(ban))
        }
    }
}

/// Compares the outputs, until one differs. The logs of those that agree come after those given. The outputs are taken
/// in order, as an account has their logs.
pub(crate) fn compare_all<O: Oracle>(
    alloc: Global,
    graphs: &PairableGraphs<'_>,
    oracle: &mut O,
    matching: &Matching,
    ledger: &mut Ledger,
    logs: &mut Items<Log>,
) -> Result<Option<Difference>, Stop>
    requires may { MayCompare graphs.now (O.known oracle.old) ledger.old }
    requires ports { HavePorts graphs.now.first graphs.now.second matching.now.inputs matching.now.outputs }
    requires none { logs.old ≡ [] }
    ensures serves { Serves (O.known oracle.old) (O.known oracle.new) ledger.old ledger.new result }
    ensures same { IfOk result (λ found. IfNone found (AreLogs graphs.now matching.now logs.new)) }
    ensures differs { IfOk result (λ found. IfSome found (Differs graphs.now matching.now)) }
{
    let outputs = graphs.first().outputs().len() as u32;
    for output in 0..outputs {
        oracle.at(Stage::Proving { output, outputs });
        if let Some(vector) = compare_one(alloc, oracle, matching, output, ledger, logs)? {
            return Ok(Some(Difference { output, vector }));
        }
    }
    Ok(None)
}

// Compares one output, and adds its logs where it agrees with its partner.
fn compare_one<O: Oracle>(
    alloc: Global,
    oracle: &mut O,
    matching: &Matching,
    output: u32,
    ledger: &mut Ledger,
    logs: &mut Items<Log>,
) -> Result<Option<Bits>, Stop>
    requires ports { HavePorts (O.known oracle.old).graphs.first (O.known oracle.old).graphs.second
        matching.now.inputs matching.now.outputs }
    requires output { output < length (O.known oracle.old).graphs.first.outputs }
    requires suits { Suits (O.known oracle.old) ledger.old }
    ensures serves { Serves (O.known oracle.old) (O.known oracle.new) ledger.old ledger.new result }
    ensures compared { IfOk result (IsComparison (O.known oracle.old).graphs matching.now output logs.old logs.new) }
{
    match oracle.compare(alloc, matching, output, ledger)? {
        Compared::Differs(vector) => Ok(Some(vector)),
        Compared::Same(one, other) => {
            logs.push(one)?;
            logs.push(other)?;
            Ok(None)
        }
    }
}
