//! The ports that pairs name.

ghost use Rattle.std.specs.Prelude.{◌≡◌, ◌≢◌, ◌↔◌, ◌++◌, ◌∷◌, [], All, AllPairs, IfOk, IsTrue, OnOk};
ghost use Rattle.account_core.specs.Assigned.{StandsBefore};
ghost use Rattle.account_core.specs.Ports.{AreOrdered, IsKnown};
ghost use Rattle.ban_check.specs.Seconds.{seconds_of};

use crate::ascent::ascend;
use account_core::ports_in;
use circuits::{Pair, PortKind};
use net_core::Graphs;
use std::alloc::{AllocError, Global};

/// Whether the ports exist that the pairs name.
pub fn are_known(graphs: &Graphs<'_>, pairs: &[Pair]) -> bool
    ensures { IsTrue result ↔ All (IsKnown graphs.now) pairs.now }
{
    pairs.iter().all(|pair| is_known(graphs, *pair))
}

fn is_known(graphs: &Graphs<'_>, pair: Pair) -> bool
    ensures { IsTrue result ↔ IsKnown graphs.now pair }
{
    (pair.from < ports_in(graphs.first(), pair.kind))
        & (pair.to < ports_in(graphs.second(), pair.kind))
}

/// Whether pairs of inputs come first, the first ports of each kind ascend, and no two pairs of a kind go to one port.
/// It takes as long as to sort the ports.
pub(crate) fn are_ordered(alloc: Global, pairs: &[Pair]) -> Result<bool, AllocError>
    ensures { IfOk result (λ are. IsTrue are ↔ AreOrdered pairs.now) }
{
    let turn = stand_in_turn(pairs);
    let inputs = go_apart(alloc, PortKind::Input, pairs)?;
    let outputs = go_apart(alloc, PortKind::Output, pairs)?;
    Ok(turn & inputs & outputs)
}

// Whether each pair stands before those after it.
fn stand_in_turn(pairs: &[Pair]) -> bool
    ensures { IsTrue result ↔ AllPairs StandsBefore pairs.now }
{
    for k in 1..pairs.len() {
        if !stands_before(pairs[k - 1], pairs[k]) {
            return false;
        }
    }
    true
}

// Whether a pair of inputs stands before one of outputs, or a pair before another one of its kind whose first port is
// greater.
fn stands_before(one: Pair, other: Pair) -> bool
    ensures { IsTrue result ↔ StandsBefore one other }
{
    match (one.kind, other.kind) {
        (PortKind::Input, PortKind::Output) => true,
        (PortKind::Output, PortKind::Input) => false,
        (PortKind::Input, PortKind::Input) => one.from < other.from,
        (PortKind::Output, PortKind::Output) => one.from < other.from,
    }
}

// Whether no two pairs of a kind go to one port.
fn go_apart(alloc: Global, kind: PortKind, pairs: &[Pair]) -> Result<bool, AllocError>
    ensures { IfOk result (λ apart. IsTrue apart ↔ AllPairs (λ one other. one ≢ other) (seconds_of kind pairs.now)) }
{
    let mut ports = seconds_of(alloc, kind, pairs)?;
    ports.sort_unstable();
    Ok(ascend(&ports))
}

// The ports of the second circuit to which the pairs of a kind go.
fn seconds_of(alloc: Global, kind: PortKind, pairs: &[Pair]) -> Result<Vec<u32>, AllocError>
    ensures { IfOk result (λ ports. ports.items ≡ seconds_of kind pairs.now) }
{
    let mut ports = Vec::new(alloc);
    for pair in pairs.iter() {
        push_second(kind, *pair, &mut ports)?;
    }
    Ok(ports)
}

// Adds the port to which a pair goes, where it is of a kind.
fn push_second(kind: PortKind, pair: Pair, ports: &mut Vec<u32>) -> Result<(), AllocError>
    ensures { OnOk result (ports.new.items ≡ ports.old.items ++ seconds_of kind (pair ∷ [])) }
{
    if pair.kind != kind {
        return Ok(());
    }
    ports.push(pair.to)?;
    Ok(())
}
