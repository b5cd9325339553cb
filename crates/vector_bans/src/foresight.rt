//! Pairs that fail on a vector, whatever the ports have that aren't in a pair yet.

ghost use Rattle.std.specs.Prelude.{◌≡◌, AllPairs, Contains, IfOk, IfSome};
ghost use Rattle.circuits.specs.declared.port.PortKind.TheVariants.{Output};
ghost use Rattle.ban_book.specs.Covering.{Covers};
ghost use Rattle.account_core.specs.Assigned.{AreApart, AreAssignable, IsPart};
ghost use Rattle.fact_bans.specs.Asking.{AreSame, MakesBy, MayMakeBy, loans};
ghost use Rattle.sim_patterns.specs.Trials.{AreTrials, IsSuspect};
ghost use Rattle.ban_book.specs.Rows.{HasOneOutput};
ghost use Rattle.vector_bans.specs.Differences.{AreShown};

use crate::difference::{Counterexample, Tried, definite, is_wrong, leave_out};
use crate::last_resort::keep_shown;
use account_core::PairableGraphs;
use ban_book::BanBook;
use ban_book::cover::add_input;
use circuits::Pair;
use cnf_core::Stop;
use fact_bans::Asker;
use items::Items;
use oracle_core::Oracle;
use sim_patterns::{Suspect, Trials};
use std::alloc::{AllocError, Global};
use word_sim::tri_output;

/// Where an assigned output's partner is wrong on one of the vectors that pairs are tried on, whatever the inputs have
/// that aren't paired: makes a ban of assigned pairs, and answers its number. The claims of one input of both outputs
/// are decided. Where these show a ban of the pairs on which the partner is wrong, that is made, and else the vector's.
/// None where no vector shows that a partner is wrong.
///
/// # Errors
///
/// `Spent` where a line had to be learned and the ledger's budget was spent. `Memory` when out of memory.
pub fn foresee<O: Oracle>(
    graphs: &PairableGraphs<'_>,
    asker: &mut Asker<'_, O>,
    assigned: &[Pair],
    trials: &Trials,
    book: &mut BanBook,
) -> Result<Option<u64>, Stop>
    requires may { MayMakeBy graphs.now (loans O.known asker.old) book.old }
    requires assigned { AreAssignable graphs.now assigned.now }
    requires trials { AreTrials graphs.now.first trials.now }
    ensures same { AreSame (loans O.known asker.old) (loans O.known asker.new) }
    ensures makes { MakesBy graphs.now (loans O.known asker.old) (loans O.known asker.new) book.old book.new result }
    ensures covers { IfOk result (λ found. IfSome found (Covers book.new assigned.now)) }
{
    let Some(shown) = suspected(asker.alloc, graphs, assigned, trials)? else {
        return Ok(None);
    };
    let number = keep_shown(graphs, asker, shown, book)?;
    Ok(Some(number))
}

// The assigned pairs on which one of the vectors shows that an output's partner is wrong.
fn suspected(
    alloc: Global,
    graphs: &PairableGraphs<'_>,
    assigned: &[Pair],
    trials: &Trials,
) -> Result<Option<Counterexample>, AllocError>
    requires assigned { AreAssignable graphs.now assigned.now }
    requires trials { AreTrials graphs.now.first trials.now }
    ensures { IfOk result (λ found. IfSome found (AreShown graphs.now assigned.now)) }
{
    match trials.suspect(alloc, graphs, assigned)? {
        None => Ok(None),
        Some(suspect) => wrong_pairs(alloc, graphs, assigned, &suspect),
    }
}

// The assigned pairs on which a vector shows that an assigned output's partner is wrong, if it is. The pairs of inputs
// that this doesn't need are left out.
fn wrong_pairs(
    alloc: Global,
    graphs: &PairableGraphs<'_>,
    assigned: &[Pair],
    suspect: &Suspect,
) -> Result<Option<Counterexample>, AllocError>
    requires assigned { AreAssignable graphs.now assigned.now }
    requires suspect { IsSuspect graphs.now assigned.now suspect.now }
    ensures { IfOk result (λ found. IfSome found (AreShown graphs.now assigned.now)) }
{
    // the gates of a graph are in order
    let _first = graphs.first();
    let pair = suspect.pair;
    let values = definite(alloc, &suspect.vector)?;
    let pairs = inputs_and(alloc, assigned, pair)?;
    let first = tri_output(alloc, graphs.first(), &values, pair.from)?;
    let tried = Tried {
        pair,
        values: &values,
        first,
    };
    if !is_wrong(alloc, graphs, &pairs, &tried)? {
        return Ok(None);
    }
    let pairs = leave_out(alloc, graphs, assigned, pairs, pair, &values)?;
    let pairs = Items::from_vec(pairs);
    Ok(Some(Counterexample {
        pair,
        pairs,
        values,
    }))
}

// The assigned pairs of inputs, and one of an output, in the order that bans have.
fn inputs_and(alloc: Global, assigned: &[Pair], pair: Pair) -> Result<Vec<Pair>, AllocError>
    requires apart { AllPairs AreApart assigned.now }
    requires assigned { Contains assigned.now pair }
    requires output { pair.kind ≡ Output }
    ensures part { IfOk result (λ pairs. IsPart assigned.now pairs.items) }
    ensures output { IfOk result (λ pairs. HasOneOutput pairs.items pair) }
{
    let mut pairs = Vec::new(alloc);
    for other in assigned.iter() {
        add_input(&mut pairs, assigned, *other)?;
    }
    pairs.push(pair)?;
    Ok(pairs)
}
