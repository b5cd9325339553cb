//! Pairs that share a port with an assigned one.

ghost use Rattle.std.specs.Prelude.{◌≡◌, ◌⊎◌, Contains, OnOk};
ghost use Rattle.pair_domains.specs.Trails.{IsPairOf, assigned_in};
ghost use Rattle.pair_search.specs.Justified.{IsJustifiedTrail};
ghost use Rattle.pair_search.specs.Progress.{Propagates};

use crate::ports::way_of;
use account_core::{Ban, Port, port_on};
use circuits::Pair;
use net_core::Side;
use pair_domains::{Domains, Reason};
use std::alloc::AllocError;

/// Deletes the open ways of the port that an assigned pair has of a circuit: each of them clashes with it.
pub(crate) fn delete_ways(
    domains: &mut Domains,
    bans: &[Ban],
    pair: Pair,
    side: Side,
) -> Result<(), AllocError>
    requires justified { IsJustifiedTrail bans.now domains.old }
    requires known { IsPairOf domains.old.inputs domains.old.outputs pair }
    requires assigned { Contains (assigned_in domains.old.entries) pair }
    ensures { OnOk result (Propagates bans.now domains.old domains.new) }
{
    let count = domains.ports(pair.kind);
    let port = Port {
        side,
        kind: pair.kind,
        number: port_on(side, pair),
    };
    for number in 0..2 * count as u64 {
        let way = way_of(domains, port, number);
        delete_way(domains, bans, pair, way)?;
    }
    Ok(())
}

// Deletes a way that shares its port of a circuit with an assigned pair, if it is open.
fn delete_way(domains: &mut Domains, bans: &[Ban], pair: Pair, way: Pair) -> Result<(), AllocError>
    requires justified { IsJustifiedTrail bans.now domains.old }
    requires known { IsPairOf domains.old.inputs domains.old.outputs way }
    requires assigned { Contains (assigned_in domains.old.entries) pair }
    requires kind { pair.kind ≡ way.kind }
    requires share { (pair.from ≡ way.from) ⊎ (pair.to ≡ way.to) }
    ensures { OnOk result (Propagates bans.now domains.old domains.new) }
{
    // in view of the bans the trail is justified, before and after
    let _ = bans;
    // no pair has two entries
    let _lawful = domains.entries();
    if let Some(_) = domains.place(way) {
        return Ok(());
    }
    domains.delete(way, Reason::Clash(pair))?;
    Ok(())
}
