//! Bans of pairs that are said to exclude each other.

ghost use Rattle.std.specs.Prelude.{◌≡◌, ◌↔◌, All, AllPairs, Contains, IfOk, IfSome, IsTrue, OnOk, length, map};
ghost use Rattle.circuits.specs.declared.port.PortKind.TheVariants.{Output as OutputKind};
ghost use Rattle.account_core.specs.Assigned.{AreApart, AreAssignable, IsPart};
ghost use Rattle.account_core.specs.Given.{decided_by};
ghost use Rattle.account_core.specs.Ports.{AreOrdered, IsKnown};
ghost use Rattle.ban_book.specs.Covering.{Covers};
ghost use Rattle.ban_book.specs.Rows.{HasOneOutput};
ghost use Rattle.fact_bans.specs.Asking.{AreSame, MakesBy, MayAskBy, MayMakeBy, ServesBy, loans};
ghost use Rattle.vector_bans.specs.Differences.{AreAssignedInputs};
ghost use Rattle.vector_bans.specs.Resorts.{IsBanWithin, IsVectorBan};

use crate::difference::{Tried, definite, is_wrong};
use crate::last_resort::{ban_by_claims, vector_ban};
use account_core::{Ban, PairableGraphs};
use ban_book::cover::add_input;
use ban_book::{BanBook, contains};
use bit_list::Bits;
use circuits::{Pair, PortKind};
use cnf_core::Stop;
use fact_bans::Asker;
use net_core::Graph;
use oracle_core::Oracle;
use std::alloc::{AllocError, Global};
use word_sim::tri_output;

/// Assigned pairs that are said to exclude each other, one of which is of outputs, and a vector of the first circuit's
/// inputs on which that output's partner is said to be wrong. Nothing rests on what is said.
#[derive(Clone, Copy)]
pub struct Suspicion<'a> {
    pub output: Pair,
    pub pairs: &'a [Pair],
    pub vector: &'a Bits,
}

/// Makes a ban of assigned pairs that are said to exclude each other, and answers its number. The claims of one input
/// of both outputs are decided. Where these show a ban of the pairs, that is made, and else the vector's. None where
/// neither shows one.
///
/// # Errors
///
/// `Spent` where a line had to be learned and the ledger's budget was spent. `Memory` when out of memory.
pub fn ban_suspected<O: Oracle>(
    graphs: &PairableGraphs<'_>,
    asker: &mut Asker<'_, O>,
    assigned: &[Pair],
    suspicion: Suspicion<'_>,
    book: &mut BanBook,
) -> Result<Option<u64>, Stop>
    requires may { MayMakeBy graphs.now (loans O.known asker.old) book.old }
    requires assigned { AreAssignable graphs.now assigned.now }
    ensures same { AreSame (loans O.known asker.old) (loans O.known asker.new) }
    ensures makes { MakesBy graphs.now (loans O.known asker.old) (loans O.known asker.new) book.old book.new result }
    ensures covers { IfOk result (λ found. IfSome found (Covers book.new assigned.now)) }
{
    if suspicion.output.kind != PortKind::Output {
        return Ok(None);
    }
    if !contains(assigned, suspicion.output) {
        return Ok(None);
    }
    let pairs = suspected_pairs(asker.alloc, assigned, suspicion)?;
    let Some(ban) = ban_of(graphs, asker, &pairs, suspicion)? else {
        return Ok(None);
    };
    let number = book.hold(ban)?;
    Ok(Some(number))
}

// The suspected pairs that are assigned, in the order that bans have.
fn suspected_pairs(
    alloc: Global,
    assigned: &[Pair],
    suspicion: Suspicion<'_>,
) -> Result<Vec<Pair>, AllocError>
    requires apart { AllPairs AreApart assigned.now }
    requires assigned { Contains assigned.now suspicion.output }
    requires output { suspicion.output.kind ≡ OutputKind }
    ensures part { IfOk result (λ pairs. IsPart assigned.now pairs.items) }
    ensures output { IfOk result (λ pairs. HasOneOutput pairs.items suspicion.entry.output) }
{
    let mut pairs = Vec::new(alloc);
    for other in assigned.iter() {
        add_suspected(&mut pairs, assigned, *other, suspicion.pairs)?;
    }
    pairs.push(suspicion.output)?;
    Ok(pairs)
}

// Adds an input's assigned pair that is suspected.
fn add_suspected(
    pairs: &mut Vec<Pair>,
    assigned: &[Pair],
    pair: Pair,
    suspected: &[Pair],
) -> Result<(), AllocError>
    requires inputs { AreAssignedInputs assigned.now pairs.old.items }
    requires apart { AllPairs AreApart assigned.now }
    requires assigned { Contains assigned.now pair }
    ensures { OnOk result (AreAssignedInputs assigned.now pairs.new.items) }
{
    if !contains(suspected, pair) {
        return Ok(());
    }
    add_input(pairs, assigned, pair)?;
    Ok(())
}

// The ban of suspected pairs that claims of one input show, or else the vector's, if it shows one.
fn ban_of<O: Oracle>(
    graphs: &PairableGraphs<'_>,
    asker: &mut Asker<'_, O>,
    pairs: &[Pair],
    suspicion: Suspicion<'_>,
) -> Result<Option<Ban>, Stop>
    requires may { MayAskBy graphs.now (loans O.known asker.old) }
    requires known { All (IsKnown graphs.now) pairs.now }
    requires ordered { AreOrdered pairs.now }
    requires output { HasOneOutput pairs.now suspicion.output }
    ensures same { AreSame (loans O.known asker.old) (loans O.known asker.new) }
    ensures serves { ServesBy (loans O.known asker.old) (loans O.known asker.new) result }
    ensures ban { IfOk result (λ found. IfSome found
        (IsBanWithin graphs.now (map decided_by (O.known asker.new.oracle.now).facts) pairs.now)) }
{
    // the facts of an oracle are of its circuits
    let _facts = asker.oracle.facts();
    let by_facts = ban_by_claims(graphs, asker, pairs, suspicion.output)?;
    match by_facts {
        Some(ban) => Ok(Some(ban)),
        None => Ok(ban_by_vector(asker.alloc, graphs, pairs, suspicion)?),
    }
}

// The ban of suspected pairs by the vector, if the output's partner is wrong on it, whatever the inputs have that
// aren't paired.
fn ban_by_vector(
    alloc: Global,
    graphs: &PairableGraphs<'_>,
    pairs: &[Pair],
    suspicion: Suspicion<'_>,
) -> Result<Option<Ban>, AllocError>
    requires known { All (IsKnown graphs.now) pairs.now }
    requires ordered { AreOrdered pairs.now }
    requires output { HasOneOutput pairs.now suspicion.output }
    ensures { IfOk result (λ found. IfSome found (IsVectorBan graphs.now suspicion.entry.output pairs.now)) }
{
    // the gates of a graph are in order
    let first = graphs.first();
    if !is_vector_of(first, suspicion.vector) {
        return Ok(None);
    }
    let pair = suspicion.output;
    let values = definite(alloc, suspicion.vector)?;
    let value = tri_output(alloc, first, &values, pair.from)?;
    let tried = Tried {
        pair,
        values: &values,
        first: value,
    };
    if !is_wrong(alloc, graphs, pairs, &tried)? {
        return Ok(None);
    }
    let ban = vector_ban(alloc, pairs, pair.from, values)?;
    Ok(Some(ban))
}

// Whether there is a bit for each input.
fn is_vector_of(graph: &Graph, vector: &Bits) -> bool
    ensures { IsTrue result → length vector.now ≡ graph.now.inputs }
{
    vector.len() == graph.inputs() as usize
}
