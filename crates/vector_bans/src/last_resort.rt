//! Bans of pairs on which an output differs from its partner: by claims of one input where these show one, else by the
//! vector.

ghost use Rattle.std.specs.Prelude.{◌≡◌, All, IfNone, IfOk, IfSome, map};
ghost use Rattle.account_core.specs.declared.step.Step.TheVariants as AnyStep;
ghost use Rattle.account_core.specs.Given.{decided_by};
ghost use Rattle.account_core.specs.Ports.{AreOrdered, IsKnown};
ghost use Rattle.ban_book.specs.Covering.{Covers};
ghost use Rattle.ban_book.specs.Rows.{HasOneOutput};
ghost use Rattle.ban_book.specs.Shown.{IsShownBan};
ghost use Rattle.fact_bans.specs.Asking.{AreSame, MakesBy, MayAskBy, MayMakeBy, ServesBy, loans};
ghost use Rattle.vector_bans.specs.Differences.{AreShown};
ghost use Rattle.vector_bans.specs.Resorts.{IsBanWithin, ShowNothing};

use crate::difference::Counterexample;
use account_core::{Ban, PairableGraphs, Step};
use ban_book::{BanBook, ban_by_facts};
use circuits::Pair;
use cnf_core::Stop;
use fact_bans::{Asker, claims_of};
use items::{Few, Items};
use net_core::Side;
use oracle_core::Oracle;
use std::alloc::{AllocError, Global};
use word_sim::Tri;

/// Makes a ban of pairs on which values show that an output differs from its partner, and answers its number. The
/// claims of one input of both outputs are decided first. What these show has one pair or two, and refutes more
/// matchings than the vector, so that its ban is made only where they show none.
///
/// # Errors
///
/// `Spent` where a line had to be learned and the ledger's budget was spent. `Memory` when out of memory.
pub(crate) fn keep_shown<O: Oracle>(
    graphs: &PairableGraphs<'_>,
    asker: &mut Asker<'_, O>,
    shown: Counterexample,
    book: &mut BanBook,
) -> Result<u64, Stop>
    requires may { MayMakeBy graphs.now (loans O.known asker.old) book.old }
    requires shown { AreShown graphs.now shown.pairs shown }
    ensures same { AreSame (loans O.known asker.old) (loans O.known asker.new) }
    ensures makes { MakesBy graphs.now (loans O.known asker.old) (loans O.known asker.new) book.old book.new result }
    ensures covers { IfOk result (Covers book.new shown.pairs) }
{
    let ban = ban_of(graphs, asker, shown)?;
    let number = book.hold(ban)?;
    Ok(number)
}

// The ban of such pairs: the one that claims of one input show, or else the vector's.
fn ban_of<O: Oracle>(
    graphs: &PairableGraphs<'_>,
    asker: &mut Asker<'_, O>,
    shown: Counterexample,
) -> Result<Ban, Stop>
    requires may { MayAskBy graphs.now (loans O.known asker.old) }
    requires shown { AreShown graphs.now shown.pairs shown }
    ensures same { AreSame (loans O.known asker.old) (loans O.known asker.new) }
    ensures serves { ServesBy (loans O.known asker.old) (loans O.known asker.new) result }
    ensures ban { IfOk result
        (IsBanWithin graphs.now (map decided_by (O.known asker.new.oracle.now).facts) shown.pairs) }
{
    // the facts of an oracle are of its circuits
    let _facts = asker.oracle.facts();
    let Counterexample {
        pair,
        pairs,
        values,
    } = shown;
    let by_facts = ban_by_claims(graphs, asker, &pairs, pair)?;
    match by_facts {
        Some(ban) => Ok(ban),
        None => Ok(vector_ban(asker.alloc, &pairs, pair.from, values)?),
    }
}

/// The ban that claims of one input show of some pairs, among them that of an output. They are decided for both
/// outputs.
pub(crate) fn ban_by_claims<O: Oracle>(
    graphs: &PairableGraphs<'_>,
    asker: &mut Asker<'_, O>,
    pairs: &[Pair],
    pair: Pair,
) -> Result<Option<Ban>, Stop>
    requires may { MayAskBy graphs.now (loans O.known asker.old) }
    requires known { All (IsKnown graphs.now) pairs.now }
    requires ordered { AreOrdered pairs.now }
    requires output { HasOneOutput pairs.now pair }
    ensures same { AreSame (loans O.known asker.old) (loans O.known asker.new) }
    ensures serves { ServesBy (loans O.known asker.old) (loans O.known asker.new) result }
    ensures shown { IfOk result (λ found. IfSome found
        (IsShownBan graphs.now (map decided_by (O.known asker.new.oracle.now).facts) pairs.now)) }
    ensures none { IfOk result (λ found. IfNone found
        (ShowNothing graphs.now (map decided_by (O.known asker.new.oracle.now).facts) pair pairs.now)) }
{
    // the facts of an oracle are of its circuits
    let _facts = asker.oracle.facts();
    let first = claims_of(graphs, asker, Side::First, pair.from)?;
    let second = claims_of(graphs, asker, Side::Second, pair.to)?;
    Ok(ban_by_facts(asker.alloc, graphs, pairs, pair, &first, &second)?)
}

/// The ban of pairs on which an output is wrong where the first circuit's inputs have these values.
pub(crate) fn vector_ban(
    alloc: Global,
    pairs: &[Pair],
    output: u32,
    values: Items<Tri>,
) -> Result<Ban, AllocError>
    ensures { IfOk result (λ ban. ban ≡ record { pairs = pairs.now; step = AnyStep.Vector output values }) }
{
    Ok(Ban {
        pairs: Few::from_slice(alloc, pairs)?,
        step: Step::Vector {
            output,
            bits: values,
        },
    })
}
