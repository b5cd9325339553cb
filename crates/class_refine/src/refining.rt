//! Refining, from its beginning.

ghost use Rattle.std.specs.Prelude.{◌≡◌, IfNone, IfOk, IfSome, map};
ghost use Rattle.account_core.specs.Facts.{AreFacts};
ghost use Rattle.account_core.specs.Given.{decided_by};
ghost use Rattle.ban_book.specs.Covering.{Covers};
ghost use Rattle.pair_domains.specs.Trails.{assigned_in};
ghost use Rattle.pair_search.specs.Grounded.{AreGrounded};
ghost use Rattle.pair_search.specs.Justified.{IsTrail};
ghost use Rattle.fact_bans.specs.Asking.{AreSame, MakesBy, MayMakeBy, loans};
ghost use Rattle.class_refine.specs.Refining.{IsShownTrail, Refines};
ghost use Rattle.class_refine.specs.Rows.{AreAllRows, AreGrounds, AreInputsOf, decided};
ghost use Rattle.class_refine.specs.Settling.{MaySettle};
ghost use Rattle.class_refine.specs.Stable.{IsRefined, IsStable};

use crate::alone::exclude_assigned;
use crate::grounds::Grounds;
use crate::inputs::inputs_of;
use crate::ports::cover_empty;
use crate::refined::Refined;
use crate::rows::{Rows, rows_of};
use crate::settling::settle_all;
use account_core::{Fact, PairableGraphs};
use ban_book::BanBook;
use cnf_core::Stop;
use fact_bans::Asker;
use oracle_core::Oracle;
use pair_domains::Domains;
use std::alloc::{AllocError, Global};

/// Deletes each pair of two circuits that can't stand beside the assigned ones, until nothing excludes one that isn't
/// deleted: it clashes with no assigned pair, no ban of the book is within them and it, and no mismatch and no tally is
/// valid for them and it. The claims of one input of all outputs are decided first; of claims of two inputs only those
/// count that are decided already. Each deletion has a reason, of which `deletion_of` finds or makes the ban. No pair
/// is assigned meanwhile, so that one pass is enough.
///
/// Where a ban is within the assigned pairs alone, or a port has no way left, its ban is answered, and the pass ends
/// there.
///
/// It is complete, and expensive for it: each way is tried against all bans, all assigned pairs, and all facts of two
/// inputs. The search propagates more cheaply, and refines whole matchings alone, of which no way is left to try.
///
/// # Errors
///
/// `Spent` where a line had to be learned and the ledger's budget was spent. `Memory` when out of memory.
pub fn refine<O: Oracle>(
    graphs: &PairableGraphs<'_>,
    asker: &mut Asker<'_, O>,
    domains: &mut Domains,
    book: &mut BanBook,
) -> Result<Refined, Stop>
    requires may { MayMakeBy graphs.now (loans O.known asker.old) book.old }
    requires trail { IsShownTrail graphs.now (O.known asker.old.oracle.now) book.old domains.old }
    ensures same { AreSame (loans O.known asker.old) (loans O.known asker.new) }
    ensures makes { MakesBy graphs.now (loans O.known asker.old) (loans O.known asker.new) book.old book.new result }
    ensures refines { Refines graphs.now (map decided_by (O.known asker.new.oracle.now).facts) book.old book.new
        domains.old domains.new }
    ensures trail { IsShownTrail graphs.now (O.known asker.new.oracle.now) book.new domains.new }
    ensures refined { IfOk result
        (IsRefined graphs.now (map decided_by (O.known asker.new.oracle.now).facts) book.new domains.new) }
{
    // the facts of an oracle are of its circuits
    let _facts = asker.oracle.facts();
    let rows = rows_of(graphs, asker)?;
    Ok(refine_by(
        asker.alloc,
        graphs,
        asker.oracle.facts(),
        &rows,
        domains,
        book,
    )?)
}

// Refines by the rows of all outputs.
fn refine_by<'a>(
    alloc: Global,
    graphs: &'a PairableGraphs<'a>,
    facts: &'a [Fact],
    rows: &'a Rows,
    domains: &mut Domains,
    book: &mut BanBook,
) -> Result<Refined, AllocError>
    requires lawful { AreFacts graphs.now facts.now }
    requires rows { AreAllRows graphs.now (map decided_by facts.now) rows.now }
    requires trail { IsTrail graphs.now book.old domains.old }
    requires shown { AreGrounded graphs.now (map decided_by facts.now) domains.old.entries }
    ensures refines { Refines graphs.now (map decided_by facts.now) book.old book.new domains.old domains.new }
    ensures refined { IfOk result (IsRefined graphs.now (map decided_by facts.now) book.new domains.new) }
{
    let inputs = inputs_of(alloc, domains.pairs())?;
    let grounds = Grounds {
        graphs,
        facts,
        rows,
        inputs: &inputs,
    };
    match exclude(alloc, &grounds, domains, book)? {
        Some(ban) => Ok(Refined::Dead(ban)),
        None => Ok(Refined::Stable),
    }
}

// The number of a ban within the assigned pairs, where there is one that is in the book, that facts show, or that is
// found as pairs are settled.
fn exclude(
    alloc: Global,
    grounds: &Grounds<'_>,
    domains: &mut Domains,
    book: &mut BanBook,
) -> Result<Option<u64>, AllocError>
    requires grounds { AreGrounds grounds.now }
    requires trail { IsTrail grounds.now.graphs.now book.old domains.old }
    requires shown { AreGrounded grounds.now.graphs.now (decided grounds.now) domains.old.entries }
    requires inputs { AreInputsOf (assigned_in domains.old.entries) grounds.now.inputs.now }
    ensures refines { Refines grounds.now.graphs.now (decided grounds.now) book.old book.new domains.old domains.new }
    ensures dead { IfOk result (λ dead. IfSome dead (Covers book.new (assigned_in domains.new.entries))) }
    ensures stable { IfOk result (λ dead. IfNone dead
        (IsStable grounds.now.graphs.now (decided grounds.now) book.new domains.new)) }
{
    // assigned pairs are of ports that exist, and share none
    let _lawful = domains.entries();
    match exclude_assigned(alloc, grounds, domains.pairs(), book)? {
        Some(ban) => Ok(Some(ban)),
        None => exclude_beside(alloc, grounds, domains, book),
    }
}

// Settles all pairs, and then looks for a port that has no way left. Answers the number of a ban within the assigned
// pairs, where one is found.
fn exclude_beside(
    alloc: Global,
    grounds: &Grounds<'_>,
    domains: &mut Domains,
    book: &mut BanBook,
) -> Result<Option<u64>, AllocError>
    requires may { MaySettle grounds.now book.old domains.old }
    requires shown { AreGrounded grounds.now.graphs.now (decided grounds.now) domains.old.entries }
    ensures refines { Refines grounds.now.graphs.now (decided grounds.now) book.old book.new domains.old domains.new }
    ensures dead { IfOk result (λ dead. IfSome dead (Covers book.new (assigned_in domains.new.entries))) }
    ensures stable { IfOk result (λ dead. IfNone dead
        (IsStable grounds.now.graphs.now (decided grounds.now) book.new domains.new)) }
{
    // assigned pairs are of ports that exist, and share none
    let _lawful = domains.entries();
    match settle_all(alloc, grounds, domains, book)? {
        Some(ban) => Ok(Some(ban)),
        None => cover_empty(alloc, grounds.graphs, domains, book),
    }
}
