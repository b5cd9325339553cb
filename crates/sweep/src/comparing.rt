//! Two signals, compared by what is asked of them.

ghost use Rattle.std.specs.Prelude.{◌≡◌, ◌+◌, ◌^◌, ◌<◌, false};
ghost use Rattle.net_core.specs.declared.graphs.Side.TheVariants.{First};
ghost use Rattle.claim_core.specs.Feeds.{straight};
ghost use Rattle.sweep.specs.Asking.{Decides};
ghost use Rattle.sweep.specs.Comparing.{Compares, HasCompared, IsFound, IsPair, comparison_by, literal_of};
ghost use Rattle.sweep.specs.Comparing.{pair_query, vector_in};
ghost use Rattle.sweep.specs.Exposed.{IsExposed, both};

use ask_core::{Answer, ask};
use claim_core::{Cone, Feeds, Query};
use cnf_core::Stop;
use items::Items;
use net_core::{Graph, Graphs, Lit, Side};
use query_core::Ledger;
use std::alloc::Global;

/// Two signals, of which the second may compute what the first one does, or its complement.
#[derive(Clone, Copy)]
pub(crate) struct SignalPair {
    pub(crate) one: u32,
    pub(crate) other: u32,
    /// Whether they may be opposite, rather than equal.
    pub(crate) opposite: bool,
}

/// What a comparison of two signals says.
#[derive(Drop)]
pub(crate) enum Comparison {
    /// They are on each vector as they may be.
    Same,
    /// A vector on which they aren't.
    Differs(Items<bool>),
}

/// Compares two signals of a graph each signal of which is an output, by a query for either value of the first one.
///
/// # Errors
///
/// `Spent` where a line had to be learned and the budget was spent, `Memory` when out of memory.
pub(crate) fn compare(
    alloc: Global,
    exposed: &Graph,
    pair: SignalPair,
    ledger: &mut Ledger,
) -> Result<Comparison, Stop>
    requires exposed { IsExposed exposed.now }
    requires pair { IsPair exposed.now pair }
    requires compared { HasCompared exposed.now pair.other (pair.one + 1) ledger.old }
    ensures { Compares exposed.now pair ledger.old ledger.new result }
{
    let when_true = difference(alloc, exposed, pair, true, ledger)?;
    match when_true {
        Some(vector) => Ok(Comparison::Differs(vector)),
        None => {
            let when_false = difference(alloc, exposed, pair, false, ledger)?;
            Ok(comparison_by(when_false))
        }
    }
}

/// A vector on which two signals differ, or that there is none.
fn comparison_by(difference: Option<Items<bool>>) -> Comparison
    ensures { result ≡ comparison_by difference }
{
    match difference {
        Some(vector) => Comparison::Differs(vector),
        None => Comparison::Same,
    }
}

/// A vector on which the first signal has this value, and the second one hasn't the value that belongs to it; or None,
/// where there is no such vector.
fn difference(
    alloc: Global,
    exposed: &Graph,
    pair: SignalPair,
    value: bool,
    ledger: &mut Ledger,
) -> Result<Option<Items<bool>>, Stop>
    requires exposed { IsExposed exposed.now }
    requires pair { IsPair exposed.now pair }
    requires unspent { ledger.old.spent ≡ false }
    ensures { Decides (IsFound exposed.now pair value) (both exposed.now) (pair_query exposed.now.inputs pair value)
        ledger.old ledger.new result }
{
    let graphs = Graphs::new(exposed, exposed);
    let query = query_of(exposed.inputs(), pair, value);
    let answer = ask(alloc, &graphs, &query, ledger)?;
    Ok(vector_in(answer))
}

/// The vector of an answer, if it has one.
fn vector_in(answer: Answer) -> Option<Items<bool>>
    ensures { result ≡ vector_in answer }
{
    match answer {
        Answer::Vector(vector) => Some(vector),
        Answer::Refuted(_) => None,
    }
}

/// Whether the first signal can have this value while the second one hasn't the value that belongs to it.
fn query_of(inputs: u32, pair: SignalPair, value: bool) -> Query
    ensures { result ≡ pair_query inputs pair value }
{
    Query {
        left: cone_of(inputs, pair.one),
        left_value: value,
        right: cone_of(inputs, pair.other),
        right_value: !value != pair.opposite,
    }
}

/// The cone of a signal, where each input gets its own bit.
fn cone_of(inputs: u32, signal: u32) -> Cone
    ensures { result ≡ record { side = First; output = signal; feed = straight inputs } }
{
    Cone {
        side: Side::First,
        output: signal,
        feed: Feeds::straight(inputs),
    }
}

/// The literal of the first signal of a pair that the second one may compute.
pub(crate) fn literal_of(pair: SignalPair) -> Lit
    requires { pair.one < 2 ^ 31 }
    ensures { result ≡ literal_of pair }
{
    Lit(2 * pair.one + u32::from(pair.opposite))
}
