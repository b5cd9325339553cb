//! Ports that have no way left.

ghost use Rattle.std.specs.Prelude.{◌≡◌, ◌<◌, ℕ, IfNone, IfOk, IfSome, IsTrue, false};
ghost use Rattle.net_core.specs.declared.graphs.Side.{Side as AnySide};
ghost use Rattle.circuits.specs.declared.port.PortKind.{PortKind as AnyKind};
ghost use Rattle.ban_book.specs.Covering.{Covers};
ghost use Rattle.pair_domains.specs.Trails.{assigned_in, ports_of};
ghost use Rattle.pair_search.specs.Grounded.{LearnsMore};
ghost use Rattle.pair_search.specs.Justified.{IsTrail};
ghost use Rattle.pair_search.specs.Named.{IsPortOf};
ghost use Rattle.pair_search.specs.Conflicts.{HasNoWay};
ghost use Rattle.class_refine.specs.Stable.{HasLeft};

use account_core::{PairableGraphs, Port};
use ban_book::BanBook;
use circuits::PortKind;
use net_core::Side;
use pair_domains::Domains;
use pair_search::{Conflict, Mismatches, conflict_set_of, way_of};
use std::alloc::{AllocError, Global};

/// Makes the ban that says that a port has no way left beside the assigned pairs, if there is such a port, and answers
/// its number.
pub(crate) fn cover_empty(
    alloc: Global,
    graphs: &PairableGraphs<'_>,
    domains: &Domains,
    book: &mut BanBook,
) -> Result<Option<u64>, AllocError>
    requires trail { IsTrail graphs.now book.old domains.now }
    ensures more { LearnsMore graphs.now domains.now.entries book.old book.new }
    ensures found { IfOk result (λ dead. IfSome dead (Covers book.new (assigned_in domains.now.entries))) }
    ensures same { IfOk result (λ dead. IfNone dead (book.new ≡ book.old)) }
    ensures left { IfOk result (λ dead. IfNone dead ((side : AnySide) (kind : AnyKind) (port : ℕ)
        → port < ports_of domains.now.inputs domains.now.outputs kind
        → HasLeft domains.now side kind port)) }
{
    match empty_port(domains) {
        Some(port) => cover(alloc, graphs, domains, port, book),
        None => Ok(None),
    }
}

// Makes the ban for a port of which all ways are deleted, and answers its number.
fn cover(
    alloc: Global,
    graphs: &PairableGraphs<'_>,
    domains: &Domains,
    port: Port,
    book: &mut BanBook,
) -> Result<Option<u64>, AllocError>
    requires trail { IsTrail graphs.now book.old domains.now }
    requires none { HasNoWay domains.now port }
    ensures more { LearnsMore graphs.now domains.now.entries book.old book.new }
    ensures found { IfOk result (λ dead. IfSome dead (Covers book.new (assigned_in domains.now.entries))) }
    ensures some { IfOk result (λ dead. IfNone dead ⊥) }
{
    let mut made = Mismatches::new(alloc);
    let conflict = Conflict::Port(port);
    let set = conflict_set_of(alloc, graphs, domains, conflict, &mut made, book)?;
    Ok(Some(set.ban))
}

// The first port of which all ways are deleted, of the first circuit, and of inputs, before others: any would do.
fn empty_port(domains: &Domains) -> Option<Port>
    ensures found { IfSome result (HasNoWay domains.now) }
    ensures none { IfNone result ((side : AnySide) (kind : AnyKind) (port : ℕ)
        → port < ports_of domains.now.inputs domains.now.outputs kind
        → HasLeft domains.now side kind port) }
{
    match empty_port_on(domains, Side::First) {
        Some(port) => Some(port),
        None => empty_port_on(domains, Side::Second),
    }
}

// The first port of a circuit of which all ways are deleted.
fn empty_port_on(domains: &Domains, side: Side) -> Option<Port>
    ensures found { IfSome result (HasNoWay domains.now) }
    ensures none { IfNone result ((kind : AnyKind) (port : ℕ)
        → port < ports_of domains.now.inputs domains.now.outputs kind
        → HasLeft domains.now side kind port) }
{
    match empty_port_of(domains, side, PortKind::Input) {
        Some(port) => Some(port),
        None => empty_port_of(domains, side, PortKind::Output),
    }
}

// The first port of a kind in a circuit of which all ways are deleted.
fn empty_port_of(domains: &Domains, side: Side, kind: PortKind) -> Option<Port>
    ensures found { IfSome result (HasNoWay domains.now) }
    ensures none { IfNone result ((port : ℕ)
        → port < ports_of domains.now.inputs domains.now.outputs kind
        → HasLeft domains.now side kind port) }
{
    for number in 0..domains.ports(kind) {
        let port = Port { side, kind, number };
        if !has_left(domains, port) {
            return Some(port);
        }
    }
    None
}

// Whether some way of a port isn't deleted.
fn has_left(domains: &Domains, port: Port) -> bool
    requires there { IsPortOf domains.now port }
    ensures some { IsTrue result → HasLeft domains.now port.side port.kind port.number }
    ensures none { result ≡ false → HasNoWay domains.now port }
{
    let count = domains.ports(port.kind);
    for number in 0..2 * count as u64 {
        if domains.remains(way_of(domains, port, number)) {
            return true;
        }
    }
    false
}
