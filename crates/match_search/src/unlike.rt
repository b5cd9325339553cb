//! Ways that claims of one input exclude beside an assigned pair.

ghost use Rattle.std.specs.Prelude.{IfOk, IfSome, OnOk, map, Contains};
ghost use Rattle.account_core.specs.Given.{decided_by};
ghost use Rattle.account_core.specs.Ports.{IsKnown};
ghost use Rattle.pair_domains.specs.declared.entry.Fate.TheVariants.{Deleted};
ghost use Rattle.pair_domains.specs.declared.entry.Reason.TheVariants.{Mismatch};
ghost use Rattle.pair_domains.specs.Trails.{assigned_in};
ghost use Rattle.pair_search.specs.Grounded.{IsGrounded};
ghost use Rattle.match_search.specs.States.{Deletes, GoesOn, MayGoOn, MayStep, Steps, lent};

use crate::asking::input_and_output;
use crate::session::Session;
use account_core::{PairableGraphs, port_on};
use broken_claims::BrokenClaims;
use circuits::{Pair, PortKind};
use class_refine::{Domains, Reason};
use cnf_core::Stop;
use cube_tables::exchanged;
use fact_bans::{Unlike, ask_difference};
use net_core::Side;
use oracle_core::Oracle;
use pair_search::is_open;
use std::alloc::{AllocError, Global};

/// A port of the other kind, and what vectors break of the claims of it and an assigned pair's port
/// (`BrokenClaims::broken`).
#[derive(Clone, Copy)]
struct Beside {
    port: u32,
    broken: u8,
}

/// Lists the ways of the other kind that claims may exclude beside an assigned pair, and that aren't deleted: vectors
/// break a claim of one input of the one circuit, and not the claim that the pair and the way carry it to. Ports that
/// are in an assigned pair are passed over: their other ways are deleted, and assigned pairs are compared by
/// themselves.
///
/// Of a pair that was compared before the last ports come first: a port's first way is assigned when it is decided, so
/// what follows of the last ones is followed before it. With the first ports first a near miss of 16 copies of a
/// circuit of five inputs took more than 20 s in place of one; with the last ones first at the first time, too, that of
/// an adder of 128 bits took 10 s in place of two.
pub(crate) fn list_unlike(
    alloc: Global,
    domains: &Domains,
    claims: &BrokenClaims,
    pair: Pair,
    again: bool,
) -> Result<Vec<Pair>, AllocError> {
    let mut ways = Vec::new(alloc);
    let first = free_ports(alloc, domains, claims, pair, Side::First)?;
    let second = free_ports(alloc, domains, claims, pair, Side::Second)?;
    for one in first.iter() {
        list_port(domains, pair, *one, &second, &mut ways)?;
    }
    if again {
        ways.as_mut_slice().reverse();
    }
    Ok(ways)
}

// The ports of a circuit, of the other kind than a pair, of which no pair is assigned.
fn free_ports(
    alloc: Global,
    domains: &Domains,
    claims: &BrokenClaims,
    pair: Pair,
    side: Side,
) -> Result<Vec<Beside>, AllocError> {
    let kind = other_kind(pair.kind);
    let mut ports = Vec::new(alloc);
    for port in 0..domains.ports(kind) {
        if domains.assigned(side, kind, port).is_none() {
            let broken = broken_beside(claims, pair, side, port);
            ports.push(Beside { port, broken })?;
        }
    }
    Ok(ports)
}

fn other_kind(kind: PortKind) -> PortKind {
    match kind {
        PortKind::Input => PortKind::Output,
        PortKind::Output => PortKind::Input,
    }
}

// What vectors break of the claims of a pair's port of a circuit and a port of the other kind.
fn broken_beside(claims: &BrokenClaims, pair: Pair, side: Side, port: u32) -> u8 {
    let own = port_on(side, pair);
    match pair.kind {
        PortKind::Output => claims.broken(side, own, port),
        PortKind::Input => claims.broken(side, port, own),
    }
}

// Lists the pairs of a port of the first circuit and each of some of the second whose broken claims differ.
fn list_port(
    domains: &Domains,
    pair: Pair,
    one: Beside,
    second: &[Beside],
    ways: &mut Vec<Pair>,
) -> Result<(), AllocError> {
    for other in second.iter() {
        if one.broken != other.broken {
            list_way(domains, pair, one.port, other.port, false, ways)?;
        }
        if one.broken != exchanged(other.broken) {
            list_way(domains, pair, one.port, other.port, true, ways)?;
        }
    }
    Ok(())
}

// Lists the pair of two ports, if it is open. Its sign is that of the assigned pair, or the opposite one where `sign`
// is true.
fn list_way(
    domains: &Domains,
    pair: Pair,
    from: u32,
    to: u32,
    sign: bool,
    ways: &mut Vec<Pair>,
) -> Result<(), AllocError> {
    let way = Pair {
        kind: other_kind(pair.kind),
        from,
        to,
        flip: pair.flip != sign,
    };
    if is_open(domains, way) {
        ways.push(way)?;
    }
    Ok(())
}

/// Deletes those of some ways that decided claims exclude beside an assigned pair.
pub(crate) fn delete_unlike<O: Oracle>(
    graphs: &PairableGraphs<'_>,
    session: &mut Session<'_, O>,
    domains: &mut Domains,
    pair: Pair,
    ways: &[Pair],
) -> Result<(), Stop>
    requires may { MayStep graphs.now (lent O.known session.old) domains.old }
    requires assigned { Contains (assigned_in domains.old.entries) pair }
    ensures steps { Steps graphs.now (lent O.known session.old) (lent O.known session.new) domains.new result }
    ensures deletes { OnOk result (Deletes pair domains.old domains.new) }
{
    for way in ways.iter() {
        delete_way(graphs, session, domains, pair, *way)?;
    }
    Ok(())
}

// Deletes a way if it is open, and decided claims exclude it beside an assigned pair.
fn delete_way<O: Oracle>(
    graphs: &PairableGraphs<'_>,
    session: &mut Session<'_, O>,
    domains: &mut Domains,
    pair: Pair,
    way: Pair,
) -> Result<(), Stop>
    requires may { MayStep graphs.now (lent O.known session.old) domains.old }
    requires assigned { Contains (assigned_in domains.old.entries) pair }
    ensures steps { Steps graphs.now (lent O.known session.old) (lent O.known session.new) domains.new result }
    ensures deletes { OnOk result (Deletes pair domains.old domains.new) }
{
    // assigned pairs are of ports that exist, and share none
    let _lawful = domains.entries();
    if !is_open(domains, way) {
        return Ok(());
    }
    let Some(unlike) = unlike_beside(graphs, session, pair, way)? else {
        return Ok(());
    };
    let Unlike { fails, holds } = unlike;
    let with = pair;
    domains.delete(way, Reason::Mismatch { with, fails, holds })?;
    Ok(())
}

// The facts that exclude a way beside an assigned pair, if the two are of different kinds.
fn unlike_beside<O: Oracle>(
    graphs: &PairableGraphs<'_>,
    session: &mut Session<'_, O>,
    pair: Pair,
    way: Pair,
) -> Result<Option<Unlike>, Stop>
    requires may { MayGoOn graphs.now (lent O.known session.old) }
    requires known { IsKnown graphs.now pair }
    requires way { IsKnown graphs.now way }
    ensures goes_on { GoesOn graphs.now (lent O.known session.old) (lent O.known session.new) result }
    ensures shown { IfOk result (λ found. IfSome found (λ unlike. IsGrounded graphs.now
        (map decided_by (O.known session.new.asker.oracle.now).facts) way
        (Deleted (Mismatch pair unlike.fails unlike.holds)))) }
{
    let Some((input, output)) = input_and_output(pair, way) else {
        return Ok(None);
    };
    ask_difference(&mut session.asker, input, output)
}
