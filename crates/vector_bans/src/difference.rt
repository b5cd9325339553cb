//! Vectors on which an output differs from its partner.

ghost use Rattle.std.specs.Prelude.{◌≡◌, ◌^◌, ◌<◌, ◌↔◌, [], ◌∷◌, ◌++◌, All, Contains, IfOk, IfSome, IsTrue, List};
ghost use Rattle.std.specs.Prelude.{length, map, remove};
ghost use Rattle.circuits.specs.declared.port.Pair.{Pair as AnyPair};
ghost use Rattle.circuits.specs.declared.port.PortKind.TheVariants.{Input};
ghost use Rattle.circuits.specs.Matches.{HavePorts};
ghost use Rattle.claim_core.specs.Images.{Extends};
ghost use Rattle.account_core.specs.Ports.{IsKnown};
ghost use Rattle.ban_book.specs.Covering.{Covers};
ghost use Rattle.word_sim.specs.ThreeValues.{of_bit};
ghost use Rattle.vector_bans.specs.Differences.{pair_from, pairs_from, AreShown, IsLeftOut, IsShown, IsWrong, MayTry};
ghost use Rattle.vector_bans.specs.Differences.{Differs};
ghost use Rattle.account_core.specs.Assigned.{IsWhole};
ghost use Rattle.fact_bans.specs.Asking.{AreSame, MakesBy, MayMakeBy, loans};

use crate::last_resort::keep_shown;
use account_core::{PairableGraphs, values_sent};
use ban_book::BanBook;
use ban_book::needed::place_of;
use bit_list::Bits;
use circuits::{Pair, PortKind};
use cnf_core::Stop;
use fact_bans::Asker;
use items::Items;
use net_core::{Matching, SignalValue};
use oracle_core::Oracle;
use std::alloc::{AllocError, Global};
use word_sim::{Tri, tri_output};

/// Pairs on which values of the first circuit's inputs show that an output differs from its partner.
#[derive(Debug, Drop)]
pub(crate) struct Counterexample {
    /// The output's pair, which is one of them.
    pub(crate) pair: Pair,
    pub(crate) pairs: Items<Pair>,
    pub(crate) values: Items<Tri>,
}

/// On what it is tried whether an output differs from its partner: the output's pair, values of the first circuit's
/// inputs, and the value that the output has on them.
#[derive(Clone, Copy)]
pub(crate) struct Tried<'a> {
    pub(crate) pair: Pair,
    pub(crate) values: &'a [Tri],
    pub(crate) first: Tri,
}

/// An output that differs from its partner, and a vector on which it does.
#[derive(Debug, Drop)]
pub struct Difference {
    pub output: u32,
    pub vector: Bits,
}

/// Makes a ban of pairs that a matching has, an output's and some of inputs', where the output differs from its partner
/// on a vector of the first circuit's inputs, and answers its number. The claims of one input of both outputs are
/// decided. Where these show a ban of such pairs, that is made, and else the vector's.
///
/// # Errors
///
/// `Spent` where a line had to be learned and the ledger's budget was spent. `Memory` when out of memory.
pub fn exclude<O: Oracle>(
    graphs: &PairableGraphs<'_>,
    asker: &mut Asker<'_, O>,
    matching: &Matching,
    difference: &Difference,
    book: &mut BanBook,
) -> Result<u64, Stop>
    requires may { MayMakeBy graphs.now (loans O.known asker.old) book.old }
    requires ports { HavePorts graphs.now.first graphs.now.second matching.now.inputs matching.now.outputs }
    requires differs { Differs graphs.now matching.now difference.now }
    ensures same { AreSame (loans O.known asker.old) (loans O.known asker.new) }
    ensures makes { MakesBy graphs.now (loans O.known asker.old) (loans O.known asker.new) book.old book.new result }
    ensures covers { (assigned : List AnyPair)
        → IsWhole graphs.now assigned
        → Extends assigned matching.now.inputs matching.now.outputs
        → IfOk result (Covers book.new assigned) }
{
    let shown = shown_by(asker.alloc, graphs, matching, difference)?;
    keep_shown(graphs, asker, shown, book)
}

// The pairs on which a vector shows that an output differs from the one that a matching sends it to. The pairs of
// inputs that the difference doesn't need are left out.
fn shown_by(
    alloc: Global,
    graphs: &PairableGraphs<'_>,
    matching: &Matching,
    difference: &Difference,
) -> Result<Counterexample, AllocError>
    requires ports { HavePorts graphs.now.first graphs.now.second matching.now.inputs matching.now.outputs }
    requires differs { Differs graphs.now matching.now difference.now }
    ensures shown { IfOk result (λ shown. AreShown graphs.now shown.pairs shown) }
    ensures assigned { (assigned : List AnyPair)
        → IsWhole graphs.now assigned
        → Extends assigned matching.now.inputs matching.now.outputs
        → IfOk result (λ shown. All (Contains assigned) shown.pairs) }
{
    // the inputs of a graph are fewer than 2^32, and its gates in order
    let _first = graphs.first();
    let _second = graphs.second();
    let values = definite(alloc, &difference.vector)?;
    let pair = pair_from(PortKind::Output, &matching.outputs, difference.output);
    let order = inputs_and(alloc, matching, pair)?;
    let whole = inputs_and(alloc, matching, pair)?;
    let pairs = leave_out(alloc, graphs, &order, whole, pair, &values)?;
    let pairs = Items::from_vec(pairs);
    Ok(Counterexample {
        pair,
        pairs,
        values,
    })
}

/// The values of a vector's bits.
pub(crate) fn definite(alloc: Global, vector: &Bits) -> Result<Items<Tri>, AllocError>
    ensures { IfOk result (λ values. values ≡ map of_bit vector.now) }
{
    let mut values = Items::new(alloc);
    for place in 0..vector.len() {
        values.push(of_bit(vector.get(place)))?;
    }
    Ok(values)
}

fn of_bit(bit: bool) -> Tri
    ensures { result ≡ of_bit bit }
{
    if bit { Tri::One } else { Tri::Zero }
}

// The pair of a port whose entries are these.
fn pair_from(kind: PortKind, entries: &[(u32, bool)], port: u32) -> Pair
    requires { port < length entries.now }
    ensures { result ≡ pair_from kind entries.now port }
{
    let (to, flip) = entries[port as usize];
    Pair {
        kind,
        from: port,
        to,
        flip,
    }
}

// The pairs of all inputs, in order, and one pair of an output after them.
fn inputs_and(alloc: Global, matching: &Matching, pair: Pair) -> Result<Vec<Pair>, AllocError>
    requires few { length matching.now.inputs < 2 ^ 32 }
    ensures { IfOk result (λ pairs. pairs.items ≡ pairs_from Input matching.now.inputs ++ pair ∷ []) }
{
    let mut pairs = Vec::new(alloc);
    for port in 0..matching.inputs.len() as u32 {
        pairs.push(pair_from(PortKind::Input, &matching.inputs, port))?;
    }
    pairs.push(pair)?;
    Ok(pairs)
}

/// Leaves out each input's pair without which the values show the difference too, first the last ones of some order.
/// Where that is the order in which pairs were assigned, what is left leads further back.
pub(crate) fn leave_out(
    alloc: Global,
    graphs: &PairableGraphs<'_>,
    order: &[Pair],
    whole: Vec<Pair>,
    pair: Pair,
    values: &[Tri],
) -> Result<Vec<Pair>, AllocError>
    requires known { IsKnown graphs.now pair }
    requires shown { IsShown graphs.now whole.items pair values.now whole.items }
    ensures { IfOk result (λ pairs. IsShown graphs.now whole.items pair values.now pairs.items) }
{
    let first = tri_output(alloc, graphs.first(), values, pair.from)?;
    let tried = Tried {
        pair,
        values,
        first,
    };
    let mut pairs = whole;
    let mut left = order.len();
    while left > 0 {
        left -= 1;
        pairs = without_one(alloc, graphs, pairs, order[left], &tried)?;
    }
    Ok(pairs)
}

// The pairs, without one of them where the difference doesn't need it.
fn without_one(
    alloc: Global,
    graphs: &PairableGraphs<'_>,
    pairs: Vec<Pair>,
    other: Pair,
    tried: &Tried<'_>,
) -> Result<Vec<Pair>, AllocError>
    requires may { MayTry graphs.now tried.now.pair tried.now.values.now tried.now.first }
    ensures { (whole : List AnyPair) → IsShown graphs.now whole tried.now.pair tried.now.values.now pairs.items
        → IfOk result (λ fewer. IsShown graphs.now whole tried.now.pair tried.now.values.now fewer.items) }
{
    let Some(place) = place_of(&pairs, other) else {
        return Ok(pairs);
    };
    match without(alloc, graphs, &pairs, place, tried)? {
        Some(fewer) => Ok(fewer),
        None => Ok(pairs),
    }
}

// The pairs without that at a place, where it is of an input and the values show the difference without it.
fn without(
    alloc: Global,
    graphs: &PairableGraphs<'_>,
    pairs: &[Pair],
    place: usize,
    tried: &Tried<'_>,
) -> Result<Option<Vec<Pair>>, AllocError>
    requires place { place < length pairs.now }
    requires may { MayTry graphs.now tried.now.pair tried.now.values.now tried.now.first }
    ensures { IfOk result (λ found. IfSome found
        (λ fewer. IsLeftOut graphs.now tried.now.pair tried.now.values.now pairs.now place fewer.items)) }
{
    if pairs[place].kind != PortKind::Input {
        return Ok(None);
    }
    let fewer = removed(alloc, pairs, place)?;
    if is_wrong(alloc, graphs, &fewer, tried)? {
        return Ok(Some(fewer));
    }
    Ok(None)
}

// The pairs but for that at a place.
fn removed(alloc: Global, pairs: &[Pair], place: usize) -> Result<Vec<Pair>, AllocError>
    requires { place < length pairs.now }
    ensures { IfOk result (λ fewer. fewer.items ≡ remove pairs.now place) }
{
    let mut fewer = Vec::from_slice(alloc, &pairs[..place])?;
    fewer.extend_from_slice(&pairs[place + 1..])?;
    Ok(fewer)
}

/// Whether the values make the partner of an output definite and wrong, whatever the inputs have that aren't paired.
pub(crate) fn is_wrong(
    alloc: Global,
    graphs: &PairableGraphs<'_>,
    pairs: &[Pair],
    tried: &Tried<'_>,
) -> Result<bool, AllocError>
    requires may { MayTry graphs.now tried.now.pair tried.now.values.now tried.now.first }
    ensures { IfOk result (λ wrong. IsTrue wrong ↔ IsWrong graphs.now pairs.now tried.now.pair tried.now.values.now) }
{
    let second = graphs.second();
    let Tried {
        pair,
        values,
        first,
    } = *tried;
    let sent = values_sent(alloc, pairs, second.inputs(), values)?;
    let value = tri_output(alloc, second, &sent, pair.to)?;
    Ok((value != Tri::X) & (first != value.signed(pair.flip)))
}
