ghost use Rattle.std.specs.Prelude.{◌≡◌, IfOk};
ghost use Rattle.pair_domains.specs.Trails.{assigned_in};
ghost use Rattle.pair_search.specs.ConflictSets.{IsConflictSet};
ghost use Rattle.pair_search.specs.Grounded.{LearnsMore};
ghost use Rattle.pair_search.specs.Justified.{IsTrail};
ghost use Rattle.pair_search.specs.Conflicts.{IsConflict};

use crate::conflict_set::{cover_block, cover_port};
use crate::view::TrailView;
use crate::{ConflictSet, Mismatches, conflict_set_of_ban};
use account_core::{PairableGraphs, Port};
use ban_book::BanBook;
use ban_book::block::Block;
use pair_domains::Domains;
use std::alloc::{AllocError, Global};

/// Why the search can't go on. Its pairs, with the ban that says so, are a `ConflictSet`.
#[derive(Debug, Drop, PartialEq, Eq)]
pub enum Conflict {
    /// All pairs of the ban of this number are assigned.
    Ban(u64),
    /// All ways of the port are deleted.
    Port(Port),
    /// All ways between ports of both circuits are deleted, of which one has to be assigned.
    Block(Block),
}

impl Conflict {
    /// The number of the ban that it is, if it is one.
    pub fn ban(&self) -> Option<u64> {
        match self {
            Conflict::Ban(number) => Some(*number),
            _ => None,
        }
    }
}

/// The assigned pairs of a conflict, which no match has all of, with the ban that says so.
///
/// # Errors
///
/// When out of memory.
pub fn conflict_set_of(
    alloc: Global,
    graphs: &PairableGraphs<'_>,
    domains: &Domains,
    conflict: Conflict,
    made: &mut Mismatches,
    book: &mut BanBook,
) -> Result<ConflictSet, AllocError>
    requires trail { IsTrail graphs.now book.old domains.now }
    requires conflict { IsConflict book.old domains.now conflict }
    ensures more { LearnsMore graphs.now domains.now.entries book.old book.new }
    ensures conflict { IfOk result (IsConflictSet book.new (assigned_in domains.now.entries)) }
{
    // the assigned pairs are of ports that exist, and share none
    let _lawful = domains.entries();
    let assigned = domains.pairs();
    let view = TrailView {
        alloc,
        graphs,
        domains,
        assigned,
    };
    let none = Vec::new(alloc);
    match conflict {
        Conflict::Ban(number) => conflict_set_of_ban(alloc, assigned, book.bans(), number),
        Conflict::Port(port) => cover_port(&view, port, None, none, made, book),
        Conflict::Block(block) => cover_block(&view, block, None, none, made, book),
    }
}
