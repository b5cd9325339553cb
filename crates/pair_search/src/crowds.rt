//! Ports that together have too few ways.

ghost use Rattle.std.specs.Prelude.{All, IfOk, IfSome, IsTrue};
ghost use Rattle.ban_book.specs.Ways.{IsBlock};
ghost use Rattle.pair_domains.specs.Trails.{IsDeleted, IsPairOf, ports_of};
ghost use Rattle.pair_search.specs.Conflicts.{HasNoWays};

use crate::partners::Partners;
use ban_book::block::{Block, marked, ways_in};
use circuits::{Pair, PortKind};
use pair_domains::Domains;
use std::alloc::{AllocError, Global};

/// A block without ways, if there is one: ports of the first circuit that can go to fewer ports than they are, those
/// that were reached from one for which no partner is found, and the ports of the second circuit that weren't (P. Hall,
/// 1935; as a constraint: Régin, AAAI 1994).
pub(crate) fn crowd(
    alloc: Global,
    domains: &Domains,
    partners: &mut Partners,
) -> Result<Option<Block>, AllocError>
    ensures { IfOk result (λ found. IfSome found (HasNoWays domains.now)) }
{
    if are_few(domains, partners.kind) {
        return Ok(None);
    }
    if partners.find_all(domains)? {
        return Ok(None);
    }
    let Some(block) = reached_block(alloc, domains, partners)? else {
        return Ok(None);
    };
    let ways = ways_in(alloc, &block)?;
    if are_deleted(domains, &ways) {
        return Ok(Some(block));
    }
    Ok(None)
}

// Whether there are no more ports of this kind than of the other. No block of them is looked for then: only where
// inputs are few does an assigned pair of inputs leave each output few ways. With such blocks too, a near miss of an
// adder of 257 inputs and 129 outputs took three times as long.
fn are_few(domains: &Domains, kind: PortKind) -> bool {
    let others = match kind {
        PortKind::Input => PortKind::Output,
        PortKind::Output => PortKind::Input,
    };
    domains.ports(kind) <= domains.ports(others)
}

// The ports that were reached from one without a partner, and those of the other circuit that weren't.
fn reached_block(
    alloc: Global,
    domains: &Domains,
    partners: &Partners,
) -> Result<Option<Block>, AllocError>
    ensures { IfOk result (λ found. IfSome found
        (λ block. IsBlock (ports_of domains.now.inputs domains.now.outputs block.kind) block)) }
{
    let kind = partners.kind;
    let count = domains.ports(kind);
    let from = marked(alloc, &partners.reached(alloc)?, count)?;
    let to = marked(alloc, &partners.missed(alloc)?, count)?;
    if from.len() + to.len() <= count as usize {
        return Ok(None);
    }
    Ok(Some(Block { kind, from, to }))
}

// Whether all of some ways are deleted.
fn are_deleted(domains: &Domains, ways: &[Pair]) -> bool
    requires { All (IsPairOf domains.now.inputs domains.now.outputs) ways.now }
    ensures { IsTrue result → All (IsDeleted domains.now.entries) ways.now }
{
    for way in ways.iter() {
        if domains.remains(*way) {
            return false;
        }
    }
    true
}
