//! The pairs of a ban, found by their ports.

ghost use Rattle.std.specs.Prelude.{◌≡◌, ◌↔◌, ◌⊎◌, ◌+◌, ◌<◌, Any, IfOk, IsTrue, OnOk, Some as There, if◌then◌else◌};
ghost use Rattle.std.specs.Prelude.{length};
ghost use Rattle.account_core.specs.Covers.{IsImpossible};
ghost use Rattle.account_core.specs.Ports.{AreOrdered};
ghost use Rattle.account_core.specs.Tallies.{port_of};
ghost use Rattle.ban_check.specs.PairIndices.{found_at, IsAnothers, IsIndexOf, IsIndexOfFirst};
ghost use Rattle.account_core.specs.declared.ports.Port.{Port as AnyPort};
ghost use Rattle.account_core.specs.contracts.ports.PortPartialEq.TheImpl.{eq-value as port_eq};

use crate::ordered::OrderedPairs;
use account_core::{Port, port_of};
use circuits::Pair;
use indexmap::IndexMap;
use net_core::Side;
use std::alloc::{AllocError, Global};
use std::marker::Model;

/// Pairs in order, of which that of a port is found in one step, however many there are. Contracts see the list of the
/// pairs.
#[derive(Drop)]
pub(crate) struct PairIndex<'a> {
    pairs: &'a [Pair],
    by_port: IndexMap<Port, Pair>,
}

impl<'a> Model for PairIndex<'a> {
    ghost use Rattle.std.specs.Prelude.{List};
    ghost use Rattle.circuits.specs.declared.port.Pair.{Pair as AnyPair};
    ghost use Rattle.ban_check.specs.PairIndices.{IsIndexOf};

    ghost Value = { List AnyPair };

    ghost view = { λ a. a.pairs.now };

    ghost invariant = { λ a. IsIndexOf a.pairs.now a.by_port.entries };
}

impl<'a> PairIndex<'a> {
    /// These pairs, with their index.
    pub(crate) fn new(alloc: Global, pairs: &OrderedPairs<'a>) -> Result<PairIndex<'a>, AllocError>
        ensures { IfOk result (λ index. index ≡ pairs.now) }
    {
        let pairs = pairs.as_slice();
        let by_port = index_of(alloc, pairs)?;
        Ok(PairIndex { pairs, by_port })
    }

    /// Whether a pair is one of them.
    pub(crate) fn has(&self, pair: Pair) -> bool
        ensures { IsTrue result ↔ Any (λ one. one ≡ pair) self.now }
    {
        has_pair(&self.by_port, pair)
    }

    /// Whether a pair clashes with one of them.
    pub(crate) fn clash_with(&self, pair: Pair) -> bool
        ensures { IsTrue result ↔ IsImpossible self.now pair }
    {
        is_taken(&self.by_port, pair)
    }
}

// The index of pairs.
fn index_of(alloc: Global, pairs: &[Pair]) -> Result<IndexMap<Port, Pair>, AllocError>
    requires { AreOrdered pairs.now }
    ensures { IfOk result (λ by_port. IsIndexOf pairs.now by_port.entries) }
{
    let mut by_port = IndexMap::new(alloc);
    for place in 0..pairs.len() {
        add_pair(pairs, place, &mut by_port)?;
    }
    Ok(by_port)
}

// Adds a pair, under both of its ports.
fn add_pair(
    pairs: &[Pair],
    place: usize,
    by_port: &mut IndexMap<Port, Pair>,
) -> Result<(), AllocError>
    requires ordered { AreOrdered pairs.now }
    requires there { place < length pairs.now }
    requires index { IsIndexOfFirst pairs.now place by_port.old.entries }
    ensures { OnOk result (IsIndexOfFirst pairs.now (place + 1) by_port.new.entries) }
{
    let pair = pairs[place];
    put(by_port, port_of(Side::First, pair), pair)?;
    put(by_port, port_of(Side::Second, pair), pair)?;
    Ok(())
}

fn put(by_port: &mut IndexMap<Port, Pair>, port: Port, pair: Pair) -> Result<(), AllocError>
    ensures { OnOk result ((other : AnyPort) → found_at by_port.new.entries other
        ≡ (if port_eq.it port other then There pair else found_at by_port.old.entries other)) }
{
    by_port.insert(port, pair)?;
    Ok(())
}

// The pair of a port.
fn found_at(by_port: &IndexMap<Port, Pair>, port: Port) -> Option<Pair>
    ensures { result ≡ found_at by_port.now.entries port }
{
    by_port.get(&port).copied()
}

// Whether a pair is the one of its first port.
fn has_pair(by_port: &IndexMap<Port, Pair>, pair: Pair) -> bool
    ensures { IsTrue result ↔ (found_at by_port.now.entries (port_of Side.First pair) ≡ There pair) }
{
    match found_at(by_port, port_of(Side::First, pair)) {
        Some(other) => other == pair,
        None => false,
    }
}

// Whether one of a pair's ports is another pair's.
fn is_taken(by_port: &IndexMap<Port, Pair>, pair: Pair) -> bool
    ensures { IsTrue result ↔ (IsAnothers by_port.now.entries Side.First pair
        ⊎ IsAnothers by_port.now.entries Side.Second pair) }
{
    is_anothers(by_port, Side::First, pair) | is_anothers(by_port, Side::Second, pair)
}

// Whether a pair's port of a circuit is another pair's.
fn is_anothers(by_port: &IndexMap<Port, Pair>, side: Side, pair: Pair) -> bool
    ensures { IsTrue result ↔ IsAnothers by_port.now.entries side pair }
{
    match found_at(by_port, port_of(side, pair)) {
        Some(other) => other != pair,
        None => false,
    }
}
