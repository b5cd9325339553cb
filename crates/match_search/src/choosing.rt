//! Which port is decided next.

ghost use Rattle.std.specs.Prelude.{ℕ, ◌≡◌, ◌<◌, false, IfNone, IfOk, IfSome, IsTrue};
ghost use Rattle.net_core.specs.Sides.{Graphs as AnyGraphs};
ghost use Rattle.net_core.specs.declared.graphs.Side.TheVariants as AnySide;
ghost use Rattle.account_core.specs.Assigned.{IsTaken, IsWhole};
ghost use Rattle.pair_domains.specs.Trails.{IsFreePort, assigned_in, ports_of};
ghost use Rattle.pair_search.specs.ConflictSets.{FitPorts};

use crate::fewest::fewest_ways;
use crate::guide::Guide;
use account_core::Port;
use circuits::PortKind;
use class_refine::Domains;
use net_core::Side;
use std::alloc::{AllocError, Global};

/// The next port that is in no pair: the urgent one, or that of either circuit which has the fewest ways left for its
/// weight, of the inputs that outputs in pairs read, else of the outputs. It is None where each port is in a pair.
///
/// # Errors
///
/// Only when out of memory.
pub fn next_port(
    alloc: Global,
    guide: &Guide,
    domains: &Domains,
) -> Result<Option<Port>, AllocError>
    ensures port { IfOk result (λ next. IfSome next
        (λ port. port.number < ports_of domains.now.inputs domains.now.outputs port.kind)) }
    ensures free { IfOk result (λ next. IfSome next
        (λ port. IsFreePort domains.now.entries port.side port.kind port.number)) }
    ensures none { IfOk result (λ next. IfNone next ((graphs : AnyGraphs)
        → FitPorts graphs domains.now.inputs domains.now.outputs
        → IsWhole graphs (assigned_in domains.now.entries))) }
{
    if let Some(port) = preferred(alloc, guide, domains)? {
        if is_free(domains, port) {
            return Ok(Some(port));
        }
    }
    Ok(first_free(domains))
}

// The urgent port, if it is in no pair, or that with the fewest ways left for its weight.
fn preferred(alloc: Global, guide: &Guide, domains: &Domains) -> Result<Option<Port>, AllocError> {
    if let Some(port) = guide.urgent {
        if is_free(domains, port) {
            return Ok(Some(port));
        }
    }
    let factor = guide.rounds.output_factor();
    fewest_ways(alloc, &guide.reads, &guide.weights, domains, factor)
}

// The first port of the first circuit that is in no pair.
fn first_free(domains: &Domains) -> Option<Port>
    ensures port { IfSome result (λ port. port.number < ports_of domains.now.inputs domains.now.outputs port.kind) }
    ensures free { IfSome result (λ port. IsFreePort domains.now.entries port.side port.kind port.number) }
    ensures none { IfNone result ((graphs : AnyGraphs)
        → FitPorts graphs domains.now.inputs domains.now.outputs
        → IsWhole graphs (assigned_in domains.now.entries)) }
{
    if let Some(port) = first_of(domains, PortKind::Output) {
        return Some(port);
    }
    first_of(domains, PortKind::Input)
}

// The first port of a kind of the first circuit that is in no pair.
fn first_of(domains: &Domains, kind: PortKind) -> Option<Port>
    ensures port { IfSome result (λ port. port.number < ports_of domains.now.inputs domains.now.outputs port.kind) }
    ensures free { IfSome result (λ port. IsFreePort domains.now.entries port.side port.kind port.number) }
    ensures none { IfNone result ((port : ℕ) → port < ports_of domains.now.inputs domains.now.outputs kind
        → IsTaken AnySide.First (assigned_in domains.now.entries) kind port) }
{
    for number in 0..domains.ports(kind) {
        let port = Port {
            side: Side::First,
            kind,
            number,
        };
        if is_free(domains, port) {
            return Some(port);
        }
    }
    None
}

/// Whether a port is there, and in no pair.
pub(crate) fn is_free(domains: &Domains, port: Port) -> bool
    ensures there { IsTrue result → port.number < ports_of domains.now.inputs domains.now.outputs port.kind }
    ensures free { IsTrue result → IsFreePort domains.now.entries port.side port.kind port.number }
    ensures taken { result ≡ false
        → port.number < ports_of domains.now.inputs domains.now.outputs port.kind
        → IsTaken port.side (assigned_in domains.now.entries) port.kind port.number }
{
    if port.number >= domains.ports(port.kind) {
        return false;
    }
    match domains.assigned(port.side, port.kind, port.number) {
        Some(_) => false,
        None => true,
    }
}
