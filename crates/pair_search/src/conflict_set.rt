ghost use Rattle.std.specs.Prelude.{◌≡◌, All, AllPairs, Contains, IfOk, OnOk};
ghost use Rattle.ban_book.specs.Covering.{Covers};
ghost use Rattle.account_core.specs.Assigned.{AreApart, AreAssignable, IsPart};
ghost use Rattle.ban_book.specs.Ways.{IsBlock, ways_in};
ghost use Rattle.pair_domains.specs.Trails.{ports_of};
ghost use Rattle.pair_search.specs.ConflictSets.{FitPorts, IsConflictSet};
ghost use Rattle.pair_search.specs.Grounded.{LearnsMore};
ghost use Rattle.pair_search.specs.Named.{AreAllNamed, AreWaysNamed, IsPortOf};
ghost use Rattle.pair_search.specs.Resolutions.{LeadsIntoBan, left_out};

use crate::gather::gather;
use crate::mismatch::Mismatches;
use crate::refer::{NotedWays, refer};
use crate::resolved::Resolved;
use crate::view::TrailView;
use account_core::{Ban, Port};
use ban_book::BanBook;
use ban_book::block::{Block, block_of, ways_in};
use ban_book::cover::{add_assigned, keep_cover};
use circuits::Pair;
use std::alloc::{AllocError, Global};

/// The assigned pairs of a conflict, in the order that bans have, and the number of a ban that has no other pairs.
#[derive(Debug, Drop)]
pub struct ConflictSet {
    pub pairs: Vec<Pair>,
    pub ban: u64,
}

/// Adds to pairs those that a port's ways need to be excluded, makes the ban that says so, and answers both. Each way
/// of the port was deleted for a reason that names assigned pairs alone; or it is the one that is resolved on, which
/// leads into a ban beside the given pairs.
pub(crate) fn cover_port(
    view: &TrailView<'_>,
    port: Port,
    resolved: Option<Resolved>,
    pairs: Vec<Pair>,
    made: &mut Mismatches,
    book: &mut BanBook,
) -> Result<ConflictSet, AllocError>
    requires fit { FitPorts view.now.graphs.now view.now.domains.now.inputs view.now.domains.now.outputs }
    requires there { IsPortOf view.now.domains.now port }
    requires assigned { AreAssignable view.now.graphs.now view.now.assigned.now }
    requires named { AreWaysNamed book.old view.now.domains.now port (left_out resolved) view.now.assigned.now }
    requires part { IsPart view.now.assigned.now pairs.items }
    requires resolved { LeadsIntoBan book.old pairs.items resolved }
    ensures more { LearnsMore view.now.graphs.now view.now.domains.now.entries book.old book.new }
    ensures conflict { IfOk result (IsConflictSet book.new view.now.assigned.now) }
{
    let count = view.domains.ports(port.kind);
    let block = block_of(view.alloc, port.side, port.kind, port.number, count)?;
    cover_block(view, block, resolved, pairs, made, book)
}

/// The conflict set of a block: ports of both circuits that are together more than either circuit has.
pub(crate) fn cover_block(
    view: &TrailView<'_>,
    block: Block,
    resolved: Option<Resolved>,
    pairs: Vec<Pair>,
    made: &mut Mismatches,
    book: &mut BanBook,
) -> Result<ConflictSet, AllocError>
    requires fit { FitPorts view.now.graphs.now view.now.domains.now.inputs view.now.domains.now.outputs }
    requires block { IsBlock (ports_of view.now.domains.now.inputs view.now.domains.now.outputs block.kind) block }
    requires assigned { AreAssignable view.now.graphs.now view.now.assigned.now }
    requires named { AreAllNamed book.old view.now.domains.now.entries (ways_in block) (left_out resolved)
        view.now.assigned.now }
    requires part { IsPart view.now.assigned.now pairs.items }
    requires resolved { LeadsIntoBan book.old pairs.items resolved }
    ensures more { LearnsMore view.now.graphs.now view.now.domains.now.entries book.old book.new }
    ensures conflict { IfOk result (IsConflictSet book.new view.now.assigned.now) }
{
    let ways = ways_in(view.alloc, &block)?;
    let mut pairs = pairs;
    let skipped = way_of(resolved);
    let bans = gather(view, book.bans(), &ways, skipped, made, &mut pairs)?;
    let noted = NotedWays {
        ways: &ways,
        bans: &bans,
    };
    let refs = refer(view, &noted, &pairs, resolved, made, book)?;
    let ban = keep_cover(view.alloc, view.graphs, &pairs, block, refs, book)?;
    Ok(ConflictSet { pairs, ban })
}

/// The pairs of a ban, all of which are assigned.
pub fn conflict_set_of_ban(
    alloc: Global,
    assigned: &[Pair],
    bans: &[Ban],
    number: u64,
) -> Result<ConflictSet, AllocError>
    requires apart { AllPairs AreApart assigned.now }
    requires covers { Covers bans.now assigned.now number }
    ensures { IfOk result (IsConflictSet bans.now assigned.now) }
{
    let mut pairs = Vec::new(alloc);
    add_all(&mut pairs, assigned, &bans[number as usize].pairs)?;
    Ok(ConflictSet { pairs, ban: number })
}

// Adds assigned pairs to the needed ones.
fn add_all(needed: &mut Vec<Pair>, assigned: &[Pair], pairs: &[Pair]) -> Result<(), AllocError>
    requires part { IsPart assigned.now needed.old.items }
    requires apart { AllPairs AreApart assigned.now }
    requires among { All (Contains assigned.now) pairs.now }
    ensures part { OnOk result (IsPart assigned.now needed.new.items) }
    ensures among { OnOk result (All (Contains needed.new.items) pairs.now) }
{
    for pair in pairs.iter() {
        add_assigned(needed, assigned, *pair)?;
    }
    Ok(())
}

// The way that is resolved on.
fn way_of(resolved: Option<Resolved>) -> Option<Pair>
    ensures { result ≡ left_out resolved }
{
    match resolved {
        Some(resolved) => Some(resolved.way),
        None => None,
    }
}
