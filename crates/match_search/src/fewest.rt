//! The port that has the fewest ways left for its weight.

ghost use Rattle.std.specs.Prelude.{◌<◌};
ghost use Rattle.pair_domains.specs.Trails.{ports_of};

use crate::reads::Reads;
use crate::weights::Weights;
use account_core::{Port, port_on};
use circuits::{Pair, PortKind};
use class_refine::Domains;
use items::Items;
use net_core::Side;
use std::alloc::{AllocError, Global};

// A port, how many ways it has left, and its weight.
#[derive(Clone, Copy)]
struct WeighedPort {
    port: Port,
    ways: u64,
    weight: u64,
}

/// Of the ports of either circuit that are in no pair, the one that has the fewest ways left for its weight: ports of
/// the last conflicts are decided first, so that these come again sooner and lead to bans of few pairs. Of the inputs
/// only those are looked at that a paired output reads. An output counts as if it had this many times its ways.
///
/// All ports are gone over, and no heap of them is kept, since the numbers of ways change with each pair that is
/// deleted, and a decision deletes all other ways of two ports: about four times as many as a circuit has ports of the
/// kind.
pub(crate) fn fewest_ways(
    alloc: Global,
    reads: &Reads,
    weights: &Weights,
    domains: &Domains,
    output_factor: u64,
) -> Result<Option<Port>, AllocError> {
    let first = fewest_read(alloc, &reads.first, weights, domains, Side::First)?;
    let second = fewest_read(alloc, &reads.second, weights, domains, Side::Second)?;
    let input = fewer(first, second);
    let output = counted(fewest_of_outputs(weights, domains), output_factor);
    match fewer(input, output) {
        Some(candidate) => Ok(Some(candidate.port)),
        None => Ok(None),
    }
}

// The candidate, as if it had this many times its ways.
fn counted(candidate: Option<WeighedPort>, factor: u64) -> Option<WeighedPort> {
    let WeighedPort { port, ways, weight } = candidate?;
    let ways = ways.saturating_mul(factor);
    Some(WeighedPort { port, ways, weight })
}

fn fewest_of_outputs(weights: &Weights, domains: &Domains) -> Option<WeighedPort> {
    let first = fewest_of(weights, domains, Side::First, PortKind::Output, &[]);
    let second = fewest_of(weights, domains, Side::Second, PortKind::Output, &[]);
    fewer(first, second)
}

// The input with the fewest ways, of those of a circuit that outputs in pairs read.
fn fewest_read(
    alloc: Global,
    reads: &[Items<u32>],
    weights: &Weights,
    domains: &Domains,
    side: Side,
) -> Result<Option<WeighedPort>, AllocError> {
    let mut read = vec![in alloc; false; domains.ports(PortKind::Input) as usize]?;
    for pair in domains.pairs().iter() {
        mark_read(reads, *pair, side, &mut read);
    }
    Ok(fewest_of(weights, domains, side, PortKind::Input, &read))
}

// Marks the inputs that an output in a pair reads.
fn mark_read(reads: &[Items<u32>], pair: Pair, side: Side, read: &mut [bool]) {
    if pair.kind != PortKind::Output {
        return;
    }
    if let Some(inputs) = reads.get(port_on(side, pair) as usize) {
        mark_all(inputs, read);
    }
}

fn mark_all(inputs: &[u32], read: &mut [bool]) {
    for input in inputs.iter() {
        if let Some(mark) = read.get_mut(*input as usize) {
            *mark = true;
        }
    }
}

// The port of a kind with the fewest ways, in a circuit; of the inputs only those count that are read.
fn fewest_of(
    weights: &Weights,
    domains: &Domains,
    side: Side,
    kind: PortKind,
    read: &[bool],
) -> Option<WeighedPort> {
    let mut best = None;
    for number in 0..domains.ports(kind) {
        if is_looked_at(kind, number, read) {
            best = fewer(best, candidate_at(weights, domains, side, kind, number));
        }
    }
    best
}

fn is_looked_at(kind: PortKind, number: u32, read: &[bool]) -> bool {
    match kind {
        PortKind::Input => matches!(read.get(number as usize), Some(true)),
        PortKind::Output => true,
    }
}

// A port with its ways, if it is in no pair.
fn candidate_at(
    weights: &Weights,
    domains: &Domains,
    side: Side,
    kind: PortKind,
    number: u32,
) -> Option<WeighedPort>
    requires { number < ports_of domains.now.inputs domains.now.outputs kind }
{
    if let Some(_) = domains.assigned(side, kind, number) {
        return None;
    }
    let ways = (domains.ports(kind) as usize).saturating_mul(2);
    let gone = domains.gone(side, kind, number);
    let port = Port { side, kind, number };
    Some(WeighedPort {
        port,
        ways: ways.saturating_sub(gone) as u64,
        weight: weights.of(port),
    })
}

// The one of two candidates that has fewer ways for its weight.
fn fewer(one: Option<WeighedPort>, other: Option<WeighedPort>) -> Option<WeighedPort> {
    let Some(first) = one else {
        return other;
    };
    let Some(second) = other else {
        return one;
    };
    if second.ways.saturating_mul(first.weight) < first.ways.saturating_mul(second.weight) {
        other
    } else {
        one
    }
}
