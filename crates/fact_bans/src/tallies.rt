//! Bans of a pair of outputs, by counts of their inputs.

ghost use Rattle.std.specs.Prelude.{◌≡◌, ◌+◌, ◌/◌, ◌∷◌, [], ◌<◌, IfOk, IfSome, IsTrue, length, map};
ghost use Rattle.circuits.specs.declared.port.PortKind.TheVariants.{Output};
ghost use Rattle.account_core.specs.Given.{decided_by};
ghost use Rattle.account_core.specs.Tallies.{port_on};
ghost use Rattle.ban_book.specs.Covering.{Covers};
ghost use Rattle.ban_book.specs.Listed.{AreLists};
ghost use Rattle.fact_bans.specs.Carrying.{IsPairOf};
ghost use Rattle.fact_bans.specs.Asking.{AreSame, MakesBy, MayAskBy, MayMakeBy, ServesBy, loans};

use crate::asker::Asker;
use crate::lists::{FactRequest, facts_of};
use crate::tally_plan::TallyPlan;
use account_core::{PairableGraphs, other_side, port_on};
use ban_book::{BanBook, Lists, tally_ban};
use circuits::Pair;
use cnf_core::Stop;
use net_core::Side;
use oracle_core::Oracle;

/// Makes a ban of a pair of outputs of which one has more inputs in its support than the other one may have, or is
/// binate in more, and answers its number; None where none was shown. Only claims are asked that are needed for it:
/// where vectors show that the one has more.
///
/// # Errors
///
/// `Spent` where a line had to be learned and the ledger's budget was spent. `Memory` when out of memory.
pub fn tally<O: Oracle>(
    graphs: &PairableGraphs<'_>,
    asker: &mut Asker<'_, O>,
    pair: Pair,
    book: &mut BanBook,
) -> Result<Option<u64>, Stop>
    requires may { MayMakeBy graphs.now (loans O.known asker.old) book.old }
    requires outputs { IsPairOf graphs.now Output pair }
    ensures same { AreSame (loans O.known asker.old) (loans O.known asker.new) }
    ensures makes { MakesBy graphs.now (loans O.known asker.old) (loans O.known asker.new) book.old book.new result }
    ensures covers { IfOk result (λ found. IfSome found (Covers book.new (pair ∷ []))) }
{
    let inputs = graphs.first().inputs();
    let Some(plan) = TallyPlan::new(asker.alloc, pair, inputs, asker.broken)? else {
        return Ok(None);
    };
    tally_by(graphs, asker, pair, &plan, book)
}

// Makes the ban that a plan is for.
fn tally_by<O: Oracle>(
    graphs: &PairableGraphs<'_>,
    asker: &mut Asker<'_, O>,
    pair: Pair,
    plan: &TallyPlan,
    book: &mut BanBook,
) -> Result<Option<u64>, Stop>
    requires may { MayMakeBy graphs.now (loans O.known asker.old) book.old }
    requires outputs { IsPairOf graphs.now Output pair }
    ensures same { AreSame (loans O.known asker.old) (loans O.known asker.new) }
    ensures makes { MakesBy graphs.now (loans O.known asker.old) (loans O.known asker.new) book.old book.new result }
    ensures covers { IfOk result (λ found. IfSome found (Covers book.new (pair ∷ []))) }
{
    let holds = plan.holds;
    let Some(lists) = ask(graphs, asker, pair, plan)? else {
        return Ok(None);
    };
    if !are_enough(graphs.first().inputs(), &lists.one, &lists.both) {
        return Ok(None);
    }
    let ban = tally_ban(asker.alloc, pair, holds, lists)?;
    let number = book.hold(ban)?;
    Ok(Some(number))
}

// Has the claims of a plan decided. None where one isn't decided as it should be.
fn ask<O: Oracle>(
    graphs: &PairableGraphs<'_>,
    asker: &mut Asker<'_, O>,
    pair: Pair,
    plan: &TallyPlan,
) -> Result<Option<Lists>, Stop>
    requires may { MayAskBy graphs.now (loans O.known asker.old) }
    requires outputs { IsPairOf graphs.now Output pair }
    ensures same { AreSame (loans O.known asker.old) (loans O.known asker.new) }
    ensures serves { ServesBy (loans O.known asker.old) (loans O.known asker.new) result }
    ensures lists { IfOk result (λ found. IfSome found
        (AreLists (map decided_by (O.known asker.new.oracle.now).facts) pair plan.now.side plan.now.holds)) }
{
    // the facts of an oracle are of its circuits
    let _facts = asker.oracle.facts();
    let first = request_on(plan.side, pair, plan.holds, false);
    let inputs = graphs.side(first.side).inputs();
    let Some(one) = facts_of(asker, first, inputs, &plan.one)? else {
        return Ok(None);
    };
    let second = request_on(other_side(plan.side), pair, !plan.holds, true);
    let inputs = graphs.side(second.side).inputs();
    let Some(both) = facts_of(asker, second, inputs, &plan.both)? else {
        return Ok(None);
    };
    Ok(Some(Lists { one, both }))
}

fn request_on(side: Side, pair: Pair, holds: bool, both: bool) -> FactRequest
    ensures { result ≡ record { side = side; output = port_on side pair; holds = holds; both = both } }
{
    FactRequest {
        side,
        output: port_on(side, pair),
        holds,
        both,
    }
}

// Whether facts are enough for a tally: `one` has one fact an input and `both` has two, of more inputs together than a
// circuit has, and neither is empty.
fn are_enough(inputs: u32, one: &[u64], both: &[u64]) -> bool
    ensures some_one { IsTrue result → 0 < length one.now }
    ensures some_both { IsTrue result → 1 < length both.now }
    ensures many { IsTrue result → inputs < length one.now + length both.now / 2 }
{
    (one.len() > 0) & (both.len() > 1) & (one.len() + both.len() / 2 > inputs as usize)
}
